//! Disassembly: for words at a location, the line of source from which an assembler produces the same words there. (MACRO-11
//! Language Reference Manual, "Addressing modes"; PDP-11/40 Processor Handbook, "Instruction set".) This crate also names
//! addresses by the globals in the maps of links and in load maps, and by the names in listings, and finds the line of a listing that shows
//! the word at an address. Memory is allocated only for the text of a file of names, for these names and their index, and for the lines of
//! listings.
#![tactic(auto)]

// Line buffers, and the parts of a line: names of operations, numbers, references and operands.
mod arguments;
mod names;
mod numbers;
mod references;
mod source;

pub use references::{Reference, References, is_data, no_references};
pub use source::Source;

// The lines of instructions and of data, and the addresses in them.
mod instructions;
mod operand_addresses;

pub use instructions::{Disassembly, byte_source, disassembled, statement_size, word_source};
pub use operand_addresses::{Addresses, addresses};

// The names of addresses: the lines and columns of maps and listings, and their symbols.
mod columns;
mod contributions;
mod kept;
mod lines;
mod listings;
mod map_fault;
mod maps;
mod places;
mod rows;
mod symbol_index;
mod symbols;

pub use contributions::Contribution;
pub use kept::Kept;
pub use map_fault::MapFault;
pub use maps::{NamesSoFar, read_text};
pub use symbol_index::Symbols;
pub use symbols::{
    Scope, Symbol, address_name, address_source, name_source, number_source, value_named,
};

// The lines of listings that show words, and where the sections of a listing lie.
mod listed_lines;
mod parts;

pub use listed_lines::{ListedLine, PlacedListing, listed_text};
pub use parts::Part;

// The laws that an assembler produces the same words from a line, that a name is the nearest one, and that a name in an operand is its
// address.
mod laws;

pub use laws::{
    a_line_means_its_words, an_address_has_the_nearest_name, an_operand_shows_its_address,
};
