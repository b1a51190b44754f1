//! Laws of a symbol table. Each is the contract of a function that does nothing.

ghost use Rattle.std.specs.Prelude.{◌≡◌, List};
ghost use Rattle.m11_base.specs.Rad50.{Name};
ghost use Rattle.m11_asm_directory.specs.FirstPass.{DirectoryFacts};
ghost use Rattle.m11_asm_directory.specs.Laws.{AreInOrder};
ghost use Rattle.m11_asm.specs.Symbols.{entry_names, symbol_entries};
ghost use Rattle.m11_asm.specs.Worked.{found_lines, worked_lines};

use m11_asm_directory::ordered_names_are_in_order;

/// The entries made for a list of names are those of its names, each once, in the order of their two RADIX-50 words.
pub fn each_name_stands_once_and_in_order()
    ensures { (facts : DirectoryFacts) (names : List Name) → AreInOrder (entry_names (symbol_entries facts names)) names }
{
    ordered_names_are_in_order();
}

/// The last lines of the listing of a source with a label, assigned names, a register and undefined names are those worked by hand.
pub fn a_symbol_table_is_as_worked()
    ensures { found_lines ≡ worked_lines }
{}
