//! Traced runs of tapes. From a chosen step on, each step has a line: its instruction as a line of source, and what it changed. The
//! machine, the console and the stop are those of an untraced run, unless a breakpoint or a change of a watched word stops the run
//! first.
#![tactic(auto)]

// What a trace line shows about a step, and the memory words that the step changed.
mod changes;
mod shots;

pub use shots::{InstructionWords, Shot, View};

// The line of a step, with what is known of addresses.
mod ends;
mod known;
mod line;
mod lines;

pub use known::Known;

// Steps with their lines, where they stop, and the last of them, which are shown if no line was written.
mod recent;
mod steps;
mod stops;
mod watches;

pub use stops::{CountedAddress, Stops};

// What is reported at the end: why the run ended, and ranges of memory.
mod ending;
mod messages;
mod ranges;

pub use ending::Ending;
pub use ranges::Range;

// The whole run, and the run with its lines apart from what is reported at the end.
mod apart;
mod tracing;

pub use apart::{ApartFault, trace_apart};
pub use tracing::trace_run;

// The law that a line shows each word that changed.
mod laws;

pub use laws::each_changed_word_is_shown;
