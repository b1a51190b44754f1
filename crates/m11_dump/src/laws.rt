//! Laws about what a dump shows, and about the offset that it reports for the first byte of a block's content.

ghost use Rattle.std.specs.Prelude.{◌≡◌, ◌⊎◌, ◌+◌, ◌*◌, ◌%◌, ◌<◌, ◌≤◌, ◌++◌, ◌∷◌, [], ℕ, List, drop, length, take, codes, true, false, Ok, Some};
ghost use Rattle.std.specs.List.{AllByRecursion};
ghost use Rattle.m11_base.specs.Devices.{Bytes};
ghost use Rattle.m11_base.specs.Octal.{octal_text, octal_value};
ghost use Rattle.m11_dump.specs.BesideLaws.{AreBeside, IsShownAfter, IsShownBeside};
ghost use Rattle.m11_base_disassembly.specs.declared.references.Reference.{Reference};
ghost use Rattle.m11_base_disassembly.specs.declared.references.References.{References};
ghost use Rattle.m11_base_disassembly.specs.declared.symbols.Symbol.{Symbol};
ghost use Rattle.m11_base_disassembly.specs.References.{is_data, no_references, referred_text, stands_in};
ghost use Rattle.m11_base_disassembly.specs.Symbols.{address_name};
ghost use Rattle.m11_base_disassembly.specs.Texts.{statement_text};
ghost use Rattle.m11_dump.specs.Instructions.{AreLines, front_size, front_source, front_statement, line_by, line_text, lines, lines_from, over_from, unreferred};
ghost use Rattle.m11_obj.specs.declared.relocations.Relocation.{Relocation};
ghost use Rattle.m11_obj_blocks.specs.Blocks.{first_block};
ghost use Rattle.m11_dump.specs.Positions.{LiesAt, content_start};
ghost use Rattle.m11_dump.specs.Octets.{location_after, octal3, octet, octets, octets_from};
ghost use Rattle.m11_dump.specs.Words.{byte_cell, word_cell, words_from};

/// A block's content begins at the offset that a dump reports for its first byte. The content ends just before the sum byte, which is
/// the last byte read.
#[tactic(auto, using(crate::proofs::ContentPositions::stands))]
pub fn contents_begin_at_their_reported_offsets()
    ensures { (before given content : Bytes) → AllByRecursion (λ byte. byte < 256) given
        → first_block given ≡ Ok (content, [])
        → LiesAt content (before ++ given) (content_start content (length (before ++ given))) }
{}

/// A dump of an object's text in octal shows each byte exactly once, in order, at its location, and the three digits of a byte spell
/// its value. A dump of a text or block as instructions shows the bytes in lines, each of which shows the next bytes at their location.
/// In a sequence of blocks the lines of a block show those of its bytes that the lines of the previous block don't show, and as many
/// bytes of the next block as the last line needs, but never more than there are.
#[tactic(auto, using(crate::proofs::EachLine::each_line, crate::proofs::EachLine::each_joined_line, crate::proofs::EachLine::joined_within, crate::proofs::EachOctet::octet_between, crate::proofs::EachOctet::octet_spelled))]
pub fn each_byte_is_shown_once_in_order()
    ensures order { (address byte : ℕ) (before following : Bytes)
        → octets address (before ++ byte ∷ following) ≡ octets address before
        ++ (octet address (length before) byte ++ octets_from address (length before + 1) following) }
    ensures lines { (symbols : List Symbol) (references : ℕ → References) (address : ℕ) (bytes : Bytes)
        → (all : List Bytes) × AreLines address 0 all bytes (lines symbols references address bytes) }
    ensures joined { (symbols : List Symbol) (references : ℕ → References) (address shown : ℕ) (bytes beyond : Bytes) → (all : List Bytes)
        × AreLines address shown all (drop shown (bytes ++ take (over_from references address 0 shown bytes beyond) beyond))
        (lines_from symbols references address 0 shown bytes beyond) }
    ensures within { (references : ℕ → References) (address shown : ℕ) (bytes beyond : Bytes) → shown ≤ length bytes
        → over_from references address 0 shown bytes beyond ≤ length beyond }
    ensures spelled { (byte : ℕ) → byte < 256 → octal_value (octal3 byte) ≡ byte }
{}

/// A dump of a tape's block in octal, at an even address, shows each word exactly once, in order, at its address; the low byte of a word
/// is the first of its two bytes, and the six digits of a word spell its value. A last byte without another one is shown as a byte.
pub fn each_word_is_shown_once_in_order()
    ensures order { (address count low high : ℕ) (before following : Bytes) → length before ≡ 2 * count
        → words_from address 0 (before ++ low ∷ high ∷ following) ≡ words_from address 0 before
        ++ (word_cell address (length before) (low + 256 * high) ++ words_from address (length before + 2) following) }
    ensures last { (address count byte : ℕ) (before : Bytes) → length before ≡ 2 * count
        → words_from address 0 (before ++ byte ∷ []) ≡ words_from address 0 before ++ byte_cell address (length before) byte }
    ensures spelled { (low high : ℕ) → low < 256 → high < 256 → octal_value (octal_text (low + 256 * high)) ≡ low + 256 * high }
{}

/// Without symbols and references, the source in a line is the text of its statement alone, with numbers for addresses and without a comment.
#[tactic(auto, using(crate::proofs::EachLine::statement_alone))]
pub fn lines_without_names_end_with_their_statements()
    ensures { (location : ℕ) (bytes : Bytes) → front_source [] no_references location bytes
        ≡ statement_text [] no_references (front_statement no_references location bytes) }
{}

/// At an even location, the line of a word with a reference of its own that stands for it, as of an address in a table, shows a word of data
/// with what the word refers to. Without such a reference, a statement is what it is without references.
#[tactic(auto, using(crate::proofs::EachLine::statement_otherwise, crate::proofs::EachLine::word_referring))]
pub fn a_word_that_refers_is_shown_as_data()
    ensures word { (symbols : List Symbol) (references : References) (reference : Reference) (location low high : ℕ) (bytes : Bytes)
        → location % 2 ≡ 0 → references.own ≡ Some reference → stands_in false reference ≡ true
        → line_text symbols references location (low ∷ high ∷ bytes) ≡ line_by location (low ∷ high ∷ [])
        ((codes ".WORD  " ++ referred_text reference.name reference.constant) ++ address_name (codes "\t;") symbols location) }
    ensures others { (references : References) (location : ℕ) (bytes : Bytes) → is_data references.own ≡ false
        → (front_statement references location bytes ≡ front_statement no_references location bytes)
        × (front_size references location bytes ≡ front_size no_references location bytes) }
{}

/// If a block begins where another ends, both together have the same lines of instructions as one block with the bytes of both,
/// provided that the second block has at least five bytes or that nothing continues it.
#[tactic(auto, using(crate::proofs::JoinedBlocks::shown_as_one))]
pub fn blocks_that_go_on_are_shown_as_one()
    ensures { (symbols : List Symbol) (address shown : ℕ) (bytes next beyond : Bytes) → take 5 (next ++ beyond) ≡ take 5 next
        → lines_from symbols unreferred address 0 shown (bytes ++ next) beyond
        ≡ lines_from symbols unreferred address 0 shown bytes (take 5 next)
        ++ lines_from symbols unreferred (location_after address (length bytes)) 0 (over_from unreferred address 0 shown bytes (take 5 next)) next beyond }
{}

/// The lines of a text with relocations beside them are its lines without relocations, with the relocations of each byte inserted
/// in the order of the bytes.
#[tactic(auto, using(crate::proofs::EachPlace::places_beside))]
pub fn relocations_stand_beside_lines()
    ensures { (references : ℕ → References) (others : ℕ → Bytes) (address index shown : ℕ) (bytes beyond : Bytes)
        → (pieces : List (Bytes × Bytes)) × AreBeside references others address index shown bytes beyond pieces }
{}

/// Each relocation of a text is shown exactly once: beside the line of one byte, or after the text.
#[tactic(auto, using(crate::proofs::EachPlace::shown_once))]
pub fn each_relocation_is_shown_once()
    ensures { (address count : ℕ) (relocation : Relocation)
        → ((index : ℕ) × IsShownBeside address count relocation index) ⊎ IsShownAfter address count relocation }
{}
