//! Runs of the PDP-11/40: a tape is loaded into the memory of a machine, its program is run with a polled console and a limit on the number
//! of steps, and the stop of the run is reported. `m11_cpu_machine` defines the machine and its steps.
#![tactic(auto)]

// The machine that callers use, its memory, and the results of its steps.
mod machine;

pub use m11_cpu_machine::{Memory, Stop, Turn};
pub use machine::Machine;

// Loads a tape into the machine.
mod loading;

pub use loading::Start;

// Makes steps, up to a limit.
mod runs;

// Reports the end of a run.
mod messages;

pub use messages::put_end;

// The whole run, and its faults.
mod fault;
mod simulation;

pub use fault::{LoadFault, SimFault};
pub use simulation::{SimDone, sim_run};
