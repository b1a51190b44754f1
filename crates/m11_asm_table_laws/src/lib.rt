//! What the lines of a source define, and how they move the location counters, read off the lines alone; and the laws that the table after
//! the lines has just this. Each law is the contract of a function that does nothing; no other crate uses these laws. (MACRO-11 Language
//! Reference Manual, "Symbols and expressions" and "General assembler directives".)
#![tactic(auto)]

mod laws;

pub use laws::{definitions_and_moves_are_read_off_the_lines, the_table_is_read_off_the_lines};
