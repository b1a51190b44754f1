//! The PDP-11/40 with the extended instruction set, without memory management: its memory, its registers, its polled console, and
//! its steps, each of one instruction with the traps that it leads to.
#![tactic(auto)]

// The state of the machine: memory, registers, the status word, the console.
mod console;
mod machine;
mod memory;
mod status;

pub use console::{Receiver, Transmitter};
pub use machine::Machine;
pub use memory::Memory;
pub use status::ProcessorStatus;

// Reading and writing at an address, and the operands of the addressing modes.
mod abort;
mod access;
mod addressing;

pub use addressing::{OperandLocation, step_of, without_low_byte};

// The effect of each instruction, by the form of its operands.
mod destination_use;
mod double_operands;
mod execution;
mod extended;
mod jumps;
mod single_operands;

pub use destination_use::{DestinationUse, use_by_double, use_by_single};
pub use double_operands::sign_extended;
pub use extended::low_word_of;
pub use jumps::words_on;

// A step: one instruction with its traps, and why a run stops.
mod steps;
mod stop;
mod traps;

pub use stop::{LastingStop, Stop, Turn};
