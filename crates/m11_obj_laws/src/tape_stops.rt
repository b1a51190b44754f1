//! Where the reading of a tape stops.

ghost use Rattle.std.specs.List.{AllByRecursion};
ghost use Rattle.std.specs.Prelude.{◌≡◌, ◌<◌, ℕ, List, Err};
ghost use Rattle.m11_obj_blocks.specs.Limited.{Stop, Between, Inside};
ghost use Rattle.m11_obj_blocks.specs.Tapes.{first_part, next_part};
ghost use Rattle.m11_obj_laws.specs.TapeStops.{IsPartCut, IsCutAfterData, EndsAfterData, StopsFrom, AfterBlocks, ShowsStop};
ghost use Rattle.m11_obj_blocks.specs.declared.tape_fault.TapeFault.{TapeFault};

/// A tape ends inside a part if and only if its bytes, after bytes that are skipped, are a prefix of the header of a data block, or of
/// the transfer block: at least its first byte, but not all of it. After the data of a block, it also ends inside a part if the block's
/// checksum is missing, and it ends before a part if and only if the checksum is right and no byte after it is 001.
pub fn tape_cuts_are_shown()
    ensures cut { (bytes : List ℕ) → IsPartCut bytes → first_part bytes ≡ Err Inside }
    ensures inside { (bytes : List ℕ) → AllByRecursion (λ byte. byte < 256) bytes
        → first_part bytes ≡ Err Inside → IsPartCut bytes }
    // the bytes here come after the data of a block, and `total` is the sum of that block's bytes so far
    ensures cut_after { (total : ℕ) (bytes : List ℕ) → IsCutAfterData total bytes
        → next_part total bytes ≡ Err Inside }
    ensures inside_after { (total : ℕ) (bytes : List ℕ) → AllByRecursion (λ byte. byte < 256) bytes
        → next_part total bytes ≡ Err Inside → IsCutAfterData total bytes }
    ensures ends_after { (total : ℕ) (bytes : List ℕ) → EndsAfterData total bytes
        → next_part total bytes ≡ Err Between }
    ensures none_after { (total : ℕ) (bytes : List ℕ)
        → next_part total bytes ≡ Err Between → EndsAfterData total bytes }
{}

/// The reading of a tape stops exactly where its bytes show it, after whole blocks and bytes that are skipped. There the bytes end
/// without a transfer block; or they end inside a block, in its header, in its data or before its checksum; or a block has a byte other
/// than 000 after its 001, a count that is too small, or a wrong checksum, and no byte after that counts.
pub fn tape_stops_are_shown()
    ensures shown { (stop : Stop TapeFault) (bytes : List ℕ) → AllByRecursion (λ byte. byte < 256) bytes
        → StopsFrom stop first_part bytes → AfterBlocks (ShowsStop stop) bytes }
    ensures found { (stop : Stop TapeFault) (bytes : List ℕ) → AfterBlocks (ShowsStop stop) bytes
        → StopsFrom stop first_part bytes }
{}
