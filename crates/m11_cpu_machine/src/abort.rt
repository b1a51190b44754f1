//! Why an instruction is aborted, and the vectors of traps.

use crate::stop::LastingStop;

/// A trap vector, by its address: the word there is the trap's program counter, and the next word is the trap's processor status.
#[derive(Clone, Copy)]
pub enum Vector {
    /// An access to an address that has neither memory nor a device register, or to a word at an odd address.
    BusError = 0o4,
    /// A code without an instruction, or JMP or JSR to a register.
    Reserved = 0o10,
    /// BPT, and the trace trap.
    Breakpoint = 0o14,
    /// IOT.
    InputOutput = 0o20,
    /// EMT.
    Emulator = 0o30,
    /// TRAP.
    Trap = 0o34,
}

/// Why an instruction is aborted.
#[derive(Clone, Copy)]
pub enum Abort {
    /// It traps.
    Traps(Vector),
    /// It stops the machine, since the console's input or output failed.
    Stops(LastingStop),
}
