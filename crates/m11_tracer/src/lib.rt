//! The whole command `m11-trace`: runs a tape with a line for each step. This crate reads the command line and opens the files; `m11_trace`
//! makes the run and its trace.
#![tactic(auto)]

// The command line, and the run that it asks for.
mod application;
mod places;
mod task;

pub use places::{Asked, Values};
pub use task::TraceTask;

// The outcome, its line and its exit status, and the line for a file that gives no names.
mod outcome;
mod reports;

pub use outcome::Outcome;

// The whole work of the program.
mod driver;

pub use driver::command;
