//! The image of sources: the byte of a linked program at each address, and its start, defined by its sources alone. Laws about the
//! definitions of the assembler and the linker say what a linker reads from the object of a source, and why a link may be refused. They
//! also say that the tape of a link holds the image, and the image the bytes that the lines of the sources state; where labels and globals
//! lie; and that relative words and branches lead to their targets. Each law is the contract of a function that does nothing but call the
//! laws needed to prove it, if there are any.
#![tactic(auto)]

// What a linker reads from one object, and the values that relocations store in its texts.
mod objects;
mod texts;

pub use objects::{
    directories_are_read_back, objects_are_read_back, objects_yield_their_parts,
    texts_are_read_back,
};
pub use texts::texts_store_their_pieces;

// The objects of several sources in one link.
mod links;

pub use links::{
    linked_texts_end_by_the_last_address, links_have_the_texts_of_their_sources,
    links_lie_by_their_sources, links_read_their_sources, links_write_the_texts_of_their_sources,
    sections_have_the_sizes_of_their_contributions, the_absolute_section_lies_at_0,
};

// The tape of a link, and a load of that tape.
mod tapes;

pub use tapes::{
    links_give_the_image, loads_of_links_yield_the_image, tapes_have_the_sizes_of_their_texts,
};

// Links that are refused.
mod refusals;

pub use refusals::{
    accepted_links_are_within_the_sizes, links_are_refused_for_sizes_alone,
    links_put_nothing_at_the_last_location, links_within_the_sizes_are_accepted,
};

// Links without messages.
mod unreported;

pub use unreported::links_without_messages_agree;

// The addresses of labels and globals.
mod labels;

pub use labels::{
    globals_lie_where_they_are_defined, globals_of_labels_lie_where_their_lines_do,
    labels_lie_where_their_lines_do,
};

// The bytes of the program, and the targets of its relative words and branches.
mod values;

pub use values::{
    branches_lead_to_their_targets, images_hold_what_their_lines_state,
    relative_words_lead_to_their_targets,
};

// A program worked by hand, which meets the premises of these laws.
mod worked;

pub use worked::the_worked_program_states_four_words;
