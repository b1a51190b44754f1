//! The reading of whole sources: their lines in order, and the fault, if any, that stops the reading before the end of the last
//! source. The laws say how the lines that `LineReader::next` returns, call by call, make up this reading. (MACRO-11 Language Reference
//! Manual, "Source program format".)
#![tactic(auto)]

mod laws;

pub use laws::{
    calls_read_lines_in_order, feeds_give_as_far_as_they_are_read,
    lines_read_are_those_of_the_sources, plain_lines_are_read_unchanged,
    sources_after_a_line_feed_are_one_text,
};
