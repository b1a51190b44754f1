//! The state of a machine as bytes, for a caller that keeps it between two slices of a run; and the slices.
#![tactic(auto)]

// Why there is no state or slice.
mod refusal;

pub use refusal::StateFault;

// The bytes of a state.
mod heads;
mod memories;
mod states;

pub use states::{machine_of, state_at_start, state_of, words_of};

// The bytes that were typed so far.
mod typed;

// Slices of a run.
mod slices;

pub use slices::{Slice, make_slice};

// Theorems about states.
mod laws;

pub use laws::a_state_is_of_one_machine;
