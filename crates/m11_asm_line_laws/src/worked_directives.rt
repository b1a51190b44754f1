//! Directives worked by hand. (MACRO-11 Language Reference Manual, "General assembler directives".)

ghost use Rattle.std.specs.Prelude.{◌≡◌, map};
ghost use Rattle.m11_asm_line_laws.specs.DirectiveRows.{location_rows, mode_rows, text_rows, word_rows};
ghost use Rattle.m11_asm_line_laws.specs.ItemRows.{found_items, found_listed, worked_items, worked_listed};
ghost use Rattle.m11_asm_line_laws.specs.Worked.{found, expected};

/// The pieces and flags of lists of words and bytes, and of lines without an operator, are those worked by hand.
pub fn words_are_as_worked()
    ensures { map found word_rows ≡ map expected word_rows }
{}

/// The pieces and flags of lines at even and odd locations, of reserved room, and of `.=` are those worked by hand.
pub fn locations_are_as_worked()
    ensures { map found location_rows ≡ map expected location_rows }
{}

/// The pieces and flags of texts, with and without expressions in brackets, are those worked by hand.
pub fn texts_are_as_worked()
    ensures { map found text_rows ≡ map expected text_rows }
{}

/// The pieces and flags of sources with `.RADIX`, labels, assignments, and directives that emit nothing are those worked by hand.
pub fn modes_are_as_worked()
    ensures { map found mode_rows ≡ map expected mode_rows }
{}

/// The items of a listing for assignments, for emitted bytes and words, and for lines without items are those worked by hand.
pub fn items_are_as_worked()
    ensures { found_items ≡ worked_items }
{}

/// The lines that a listing shows are those worked by hand.
pub fn listings_are_as_worked()
    ensures { found_listed ≡ worked_listed }
{}
