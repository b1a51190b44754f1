//! Laws of the source that `m11-dump -s` writes of a tape: it says what memory holds, and assembled and linked it leaves the same memory.
//! Each law is the contract of a function that does nothing, or only calls the laws that prove it. (MACRO-11 Language Reference Manual,
//! "Source program format"; RT-11 Volume and File Formats Manual, "Absolute binary file format".)
#![tactic(auto)]

// The source as items, and what they store.
mod items;
mod pieces;

pub use items::{the_items_are_well_formed, the_source_is_the_text_of_its_items};
pub use pieces::{
    memory_has_cells, memory_has_the_bytes_of_its_blocks, the_pieces_are_the_bytes_of_memory,
};

// The memory that it defines, and that a chain leaves.
mod memory;

pub use memory::{a_chain_of_the_source_of_memory_leaves_it, the_source_of_memory_defines_it};
