//! Quick steps of the machine: they exchange nothing with the console and don't trap, since they access only registers and plain memory,
//! and the console only to test a status register. An access to memory is plain if it involves no device and no trap. A quick step has
//! the same result as the general step, and every other step is left to the general step. Without this crate every program would run the
//! same, only more slowly.
#![tactic(auto)]

// The kinds of instructions, and a table of the kind of each word.
mod double_kinds;
mod kind_table;
mod kinds;

pub use kind_table::KindTable;

// The addressing forms of operands, and operands in registers or memory.
mod forms;
mod near;
mod operands;

// Operations on operands of these forms.
mod doubles;
mod extended;
mod jumps;
mod singles;

// One step by the kind of its word, and the loop of steps.
mod arms;
mod quick;
mod rarer;

pub use quick::quick_steps;
