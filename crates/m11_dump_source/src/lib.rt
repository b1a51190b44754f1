//! Writes a tape as a source: what memory holds after the tape was loaded, as lines of an assembler with labels, from `.ASECT` to `.END`.
//! (MACRO-11 Language Reference Manual, "Source program format".)
#![tactic(auto)]

// Memory, and the lines that show what it holds.
mod lines;
mod memory;

// The symbols of a source, and its text.
mod labels;
mod texts;

// The whole work: a tape is read, and its source is written.
mod run;

pub use run::{SourceFault, write_source};
