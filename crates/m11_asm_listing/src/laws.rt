//! Laws of printed lines. Each is the contract of a function that does nothing.

ghost use Rattle.std.specs.Prelude.{◌≡◌, ◌≢◌, ◌<◌, ◌≤◌, ◌+◌, ℕ, List, [], ◌∷◌, ◌++◌, codes, length, take, drop};
ghost use Rattle.std.specs.Fmt.{decimal};
ghost use Rattle.m11_base.specs.Devices.{Bytes};
ghost use Rattle.m11_asm_listing.specs.Columns.{printed};
ghost use Rattle.m11_asm_listing.specs.declared.items.Item.{Item};
ghost use Rattle.m11_asm_listing.specs.declared.symbol_table.SectionEntry.{SectionEntry};
ghost use Rattle.m11_asm_listing.specs.declared.symbol_table.SymbolEntry.{SymbolEntry};
ghost use Rattle.m11_asm_listing.specs.Items.{location_after};
ghost use Rattle.m11_asm_listing.specs.Laws.{EndsWithNoBlank};
ghost use Rattle.m11_asm_listing.specs.Listing.{further_line, further_lines, listed_line};
ghost use Rattle.m11_asm_listing.specs.Messages.{message_line};
ghost use Rattle.m11_asm_listing.specs.SymbolTable.{section_line, symbol_line};

/// A listed line has at most 42 characters besides those of its text and the line feed.
pub fn a_listed_line_has_at_most_42_characters_and_its_text()
    ensures { (flags : Bytes) (number location : ℕ) (items : List Item) (text : Bytes) → number < 65536
        → length (listed_line flags number location items text) ≤ 42 + length text + 1 }
{}

/// A further line has at most 41 characters before its line feed.
pub fn a_further_line_has_at_most_41_characters()
    ensures { (location : ℕ) (items : List Item) → length (further_line location items) ≤ 41 + 1 }
{}

/// If the text of a listed line isn't empty and doesn't end with a blank, it begins in column 43, whatever the flags and items of the line
/// are.
pub fn the_text_of_a_listed_line_begins_in_column_43()
    ensures { (flags : Bytes) (number location : ℕ) (items : List Item) (text : Bytes) (last : ℕ) → number < 65536 → last ≢ 32
        → drop 42 (listed_line flags number location items (text ++ last ∷ [])) ≡ printed (text ++ last ∷ []) ++ 10 ∷ [] }
{}

/// No line ends with a blank: no listing line of a source line, no message about a flagged line, and no line of the symbol table.
pub fn no_line_ends_with_a_blank()
    ensures listed { (flags : Bytes) (number location : ℕ) (items : List Item) (text : Bytes)
        → EndsWithNoBlank (listed_line flags number location items text) }
    ensures further { (location : ℕ) (items : List Item) → EndsWithNoBlank (further_line location items) }
    ensures message { (flags : Bytes) (number : ℕ) (text : Bytes) → EndsWithNoBlank (message_line flags number text) }
    ensures symbol { (symbol : SymbolEntry) → EndsWithNoBlank (symbol_line symbol) }
    ensures section { (section : SectionEntry) → EndsWithNoBlank (section_line section) }
{}

/// If the text of a flagged line isn't empty and doesn't end with a blank, the message shows the flags, the number and all of the text.
pub fn a_message_shows_its_text()
    ensures { (flags : Bytes) (number : ℕ) (text : Bytes) (last : ℕ) → last ≢ 32
        → message_line flags number (text ++ last ∷ [])
        ≡ (flags ++ codes " " ++ decimal number ++ codes ": " ++ printed (text ++ last ∷ [])) ++ 10 ∷ [] }
{}

/// Each further line shows the location of its first item, and then three items, or all that remain if there are fewer.
pub fn further_lines_go_by_threes()
    ensures { (location : ℕ) (first : Item) (items : List Item) → further_lines location (first ∷ items)
        ≡ further_line location (first ∷ items)
        ∷ further_lines (location_after location (take 3 (first ∷ items))) (drop 3 (first ∷ items)) }
{}
