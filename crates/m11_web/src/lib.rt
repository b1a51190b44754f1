//! The commands and the machine, for a caller that isn't Rattle, such as a web page. It passes bytes, and gets bytes: all that a call makes
//! is in what it returns and in the memory that the caller passes. Nothing stays between two calls.
#![tactic(auto)]

// Requests and answers, made of blocks of bytes, each with its length before it.
mod answers;
mod blocks;
mod refusal;
mod requests;

// A whole command over files in memory.
mod commands;
mod programs;

pub use commands::{m11_command, m11_dump, m11_trace};

// A machine whose state belongs to the caller: it gets a tape, and makes some steps at a time.
mod running;

pub use running::{Told, m11_go_on, m11_load};

// Theorems about requests.
mod laws;

pub use laws::a_request_has_one_reading;

#[cfg(test)]
mod tests;
