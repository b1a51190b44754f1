//! The first fault of blocks and of tapes.

ghost use Rattle.std.specs.List.{AllByRecursion};
ghost use Rattle.std.specs.Prelude.{◌≡◌, ◌<◌, ℕ, List, Err};
ghost use Rattle.m11_obj_blocks.specs.Blocks.{first_block};
ghost use Rattle.m11_obj_blocks.specs.Limited.{Between, Refused};
ghost use Rattle.m11_obj_blocks.specs.Tapes.{first_part, next_part};
ghost use Rattle.m11_obj_blocks.specs.declared.tape_fault.TapeFault.{TapeFault};
ghost use Rattle.m11_obj_laws.specs.TapeFaults.{AreSkipped, ShowsAfterData, ShowsAfterSkipped};
ghost use Rattle.m11_obj_blocks.specs.declared.block_fault.BlockFault.{BlockFault};
ghost use Rattle.m11_obj_laws.specs.BlockFaults.{ShowsAfterZeros};

/// The first fault found when a block of an object is read is the one that the bytes show after zeros, and no later byte counts: a
/// wrong checksum, a length that no block has, a byte that begins no block, or a byte other than 000 after 001.
pub fn block_faults_are_shown()
    ensures shown { (fault : BlockFault) (bytes rest : List ℕ) → AllByRecursion (λ byte. byte < 256) bytes
        → first_block bytes ≡ Err (Refused fault rest) → ShowsAfterZeros fault bytes rest }
    ensures found { (fault : BlockFault) (bytes rest : List ℕ) → ShowsAfterZeros fault bytes rest
        → first_block bytes ≡ Err (Refused fault rest) }
{}

/// The first fault found when a part of a tape is read is the one that the bytes show after bytes other than 001, and no later byte
/// counts: a byte other than 000 after 001, a count that is too small, or a wrong checksum, of a transfer block or of the preceding
/// data block. The bytes end before any block begins if and only if none of them is 001.
pub fn tape_faults_are_shown()
    ensures shown { (fault : TapeFault) (bytes rest : List ℕ) → AllByRecursion (λ byte. byte < 256) bytes
        → first_part bytes ≡ Err (Refused fault rest) → ShowsAfterSkipped fault bytes rest }
    ensures found { (fault : TapeFault) (bytes rest : List ℕ) → ShowsAfterSkipped fault bytes rest
        → first_part bytes ≡ Err (Refused fault rest) }
    // the bytes here come after the data of a block, and `total` is the sum of that block's bytes so far
    ensures shown_after { (total : ℕ) (fault : TapeFault) (bytes rest : List ℕ)
        → AllByRecursion (λ byte. byte < 256) bytes
        → next_part total bytes ≡ Err (Refused fault rest) → ShowsAfterData total fault rest bytes }
    ensures found_after { (total : ℕ) (fault : TapeFault) (bytes rest : List ℕ)
        → ShowsAfterData total fault rest bytes → next_part total bytes ≡ Err (Refused fault rest) }
    ensures none { (bytes : List ℕ) → first_part bytes ≡ Err Between → AreSkipped bytes }
    ensures skipped { (bytes : List ℕ) → AreSkipped bytes → first_part bytes ≡ Err Between }
{}
