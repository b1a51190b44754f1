//! Laws of whole sources and of their outcome. A pass, which reads line by line, has the live lines of the unfolding of the whole source.
//! Each list of sources has exactly one outcome, and every run writes that outcome unless a device or a lack of memory stops it. The
//! outcome determines the object, the listing and the messages as whole texts. Each law is the contract of a function whose body is empty
//! or only calls the laws needed to prove it. (MACRO-11 Language Reference Manual, "Source program format", "Macro directives",
//! "Conditional assembly directives", "Symbols" and "Listing control directives".)
#![tactic(auto)]

mod source_laws;

pub use source_laws::{
    a_pass_has_the_lines_of_the_whole_source,
    a_reading_is_refused_by_the_first_limit_of_the_whole_source,
    the_lines_of_a_pass_are_those_of_the_whole_source, what_lines_define_they_use,
};

// What a pass over a reading comes to is computed.
mod passes;

pub use passes::passes_come_to_what_is_computed;

// Sources have one outcome, which every run writes unless a device or a lack of memory stops it.
mod laws;

pub use laws::{
    a_listing_changes_no_other_output, each_list_of_sources_has_an_outcome,
    runs_write_their_outcome, sources_have_one_outcome,
    the_same_text_has_no_moved_label_and_no_second_refusal,
    there_is_a_message_for_each_flagged_line, two_sources_after_a_line_feed_are_one_text,
};

// The outcome of sources follows from the unfolding of each whole source.
mod sources;

pub use sources::outcomes_are_those_of_whole_sources;

// The lines of that unfolding are those of the shape of the source.
mod shapes;

pub use shapes::sources_are_assembled_from_the_lines_of_their_shapes;

// Runs over known sources, and the bytes that each output gains.
mod beginnings;
mod outputs;

pub use beginnings::{known_sources_decide_the_run, known_sources_write_their_live_lines};
pub use outputs::{
    the_listing_is_its_lines, the_messages_are_their_lines,
    the_object_is_the_blocks_of_its_contents,
};
