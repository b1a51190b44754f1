//! Laws about steps and runs, and about the bytes that a tape leaves at each address of memory. They state what follows from the machine's
//! definitions, in terms that don't depend on how those definitions are written. Each law is the contract of a function that does nothing.
#![tactic(auto)]

// Where operands are found, and which accesses trap.
mod addresses;
mod operands;

pub use addresses::{accesses_alone_trap, bad_addresses_trap};
pub use operands::modes_find_their_operands;

// What a step may change: registers, the status word, memory.
mod registers;
mod status_word;
mod writes;

pub use registers::{odd_registers_are_both_words, registers_stay};
pub use status_word::{status_word_becomes_what_is_stored, trace_bit_stays};
pub use writes::memory_stays;

// What a step leads to: branches, calls, traps, the trace trap.
mod branching;
mod returns;
mod steps;

pub use branching::branches_go;
pub use returns::{calls_return, traps_return};
pub use steps::trace_trap_follows;

// The console, stops and runs.
mod devices;
mod laws;

pub use devices::{failures_stop, receiver_asks_nothing_ahead};
pub use laws::{console_is_exact, runs_are_joined, stops_last};

// Machines that satisfy the premises of these laws.
mod witnesses;

pub use witnesses::premises_are_met;

// The images of tapes, and what a load leaves in memory.
mod decided;
mod images;
mod loads;

pub use decided::tapes_decide_their_loads;
pub use images::{later_blocks_count, tapes_have_one_image};
pub use loads::{
    a_byte_is_loaded_over_another, larger_memories_hold_the_same, tapes_load_their_bytes,
};
