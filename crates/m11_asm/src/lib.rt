//! The assembler of MACRO-11: it makes an object module, a listing and messages from sources, in two passes over them. The first pass
//! finds the values of names and the other facts about the module. With these the second pass writes the object and the listing line by
//! line, and the symbol table at the end. (MACRO-11 Language Reference Manual, "Source program format", "Symbols and expressions",
//! ".TITLE directive", ".IDENT directive", ".WEAK directive", "Listing control directives", "Table of contents and symbol table" and
//! ".END directive"; RT-11 Volume and File Formats Manual, "Object file format".)
#![tactic(auto)]

// The entries of a symbol table: the names that a source uses, each with its value, and the sections.
mod section_list;
mod symbol_list;
mod symbol_values;

// Laws of the order of names, and a symbol table worked by hand.
mod symbol_laws;

pub use symbol_laws::{a_symbol_table_is_as_worked, each_name_stands_once_and_in_order};

// The listing of an assembly: the listing lines of placed lines, and the symbol table.
mod lines;
mod placed;
mod symbol_table;

// Facts about the module that the first pass finds, and the result of that pass.
mod facts;
mod symbols;

pub use facts::Facts;
pub use symbols::Symbols;

// The first pass: one line of the source, with its number, and all lines of the feeds.
mod first;
mod first_reading;
mod numbers;

pub use first::First;

// The writes of the second pass: for each live line, and after the last one.
mod writing;

// The second pass: one line of the source, and all lines of the feeds.
mod second;
mod second_reading;

pub use second::Second;

// Both passes, one after the other.
mod done;
mod laws;
mod run;

pub use done::AsmDone;
pub use laws::a_run_writes_the_outcome_of_its_sources;
pub use m11_asm_faults::AsmFault;
pub use m11_base::Seed;
pub use run::{asm_run, asm_run_with_seed};
