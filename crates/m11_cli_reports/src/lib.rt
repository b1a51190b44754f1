//! What a program reports about refused command lines and values, files that can't be opened or created, and faults of a run; and the
//! exit statuses of refused command lines, of runs, and of links that end early.
#![tactic(auto)]

mod links;
mod refusals;
mod reports;
mod runs;
mod usage;

pub use links::link_status;
pub use refusals::{AddressOption, Refusal, RefusedValue, reading, report_refused, single_reading};
pub use reports::{command_without_words, explain, report, report_not_opened};
pub use runs::{sim_line, sim_status, stop_status, tape_status};
pub use usage::{usage_line, usage_status};
