//! Unfolds a source line by line: evaluates its conditions, expands its repeats and macros, and yields the lines that become
//! live. Memory holds each body once, and one line of the source. (MACRO-11 Language Reference Manual, "Macro directives" and
//! "Conditional assembly directives".)
#![tactic(auto)]

// The state between lines: the macros and the open body.
mod macros;
mod opening;
mod state;

// The next line: skipped, added to a body, or live.
mod skipping;
mod steps;
mod taking;

pub use steps::{Act, Step};

// The effect of the operator of a live line: directives, calls, rounds of a repeat.
mod acting;
mod calling;
mod rounds;

// The unfolder of a source.
mod unfolder;

pub use m11_base::Seed;
pub use unfolder::Unfolder;

// The law that the unfolder's calls unfold a source.
mod laws;

pub use laws::the_calls_unfold_the_source;
