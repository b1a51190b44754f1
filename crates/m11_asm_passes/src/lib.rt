//! One pass over a source, line by line. The pass defines the labels of each line that becomes live, and finds what the line changes,
//! emits and uses, within the limits of a pass. Beside the calls stand the laws of passes over one source: any two that reach their end have
//! the same live lines and the same end, maps that agree place lines in the same way, and a second pass over the lines of a first one moves
//! no label and exceeds no limit. Each law is the contract of a function that does nothing, or only calls the laws that prove it. (MACRO-11 Language Reference Manual, "Source program format", "Symbols and expressions"
//! and "Macro directives".)
#![tactic(auto)]

// A live line as it is placed, and the results of a call.
mod placed;
mod turns;

pub use placed::{LiveLine, PlacedLine};
pub use turns::Turn;

// The first half of handling a live line: whether it is blank, its labels, and the unfolding of its operator.
mod begun;
mod blank;
mod labelling;

// The second half of handling a live line: what follows its labels.
mod operating;

// The whole pass over a source, line by line.
mod source_pass;
mod state;

pub use source_pass::SourcePass;

// The law that the calls place the lines of a source.
mod laws;

pub use laws::the_calls_place_the_lines_of_a_source;

// The laws of the ends of passes, of passes under two maps, and of a second pass.
mod ends;
mod maps;
mod second;

pub use ends::{
    a_pass_has_one_end, a_source_has_at_most_200000_live_lines,
    each_pass_reaches_its_end_or_passes_a_limit, one_pass_goes_on_from_the_other,
};
pub use maps::{maps_that_agree_have_the_same_live_lines, maps_that_agree_place_lines_alike};
pub use second::{
    a_second_pass_over_the_same_lines_passes_no_limit,
    no_label_has_moved_in_a_second_pass_over_the_same_lines, the_same_lines_are_read_alike,
};
