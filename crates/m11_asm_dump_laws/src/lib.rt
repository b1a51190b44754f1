//! Laws of disassembly: an assembly reads the line of source that is written for words in memory as the line means. Each law is the contract
//! of a function that does nothing. (MACRO-11 Language Reference Manual, "Source program format" and "Addressing modes".)
#![tactic(auto)]

// The parts of a line: numbers, registers and operands.
mod operands;
mod values;

pub use operands::operands_are_read_as_they_are_written;
pub use values::{digits_spell_their_number, numbers_and_registers_have_their_values};

// Whole lines.
mod lines;

pub use lines::a_line_is_assembled_as_its_words;

// Whole sources, with labels and assignments.
mod items;

pub use items::a_source_of_items_is_assembled_as_they_say;
