//! Laws of blocks, of tapes and of records: the bytes that show each fault or the end of a tape, defined without a reader. Each law
//! is the contract of a function that does nothing; no other crate uses these laws.
#![tactic(auto)]

mod block_faults;
mod tape_stops;

pub use block_faults::{block_faults_are_shown, tape_faults_are_shown};
pub use tape_stops::{tape_cuts_are_shown, tape_stops_are_shown};

mod faults;

pub use faults::{bytes_after_a_fault_do_not_mend_it, record_faults_are_shown};
