//! Laws of links, which state in other terms what the definitions of the linker yield. Each is the contract of a function that does
//! nothing. Laws of the whole chain, from sources to a run, use the definitions and lemmas of this crate.
#![tactic(auto)]

// The addresses of sections, and of the contributions of modules to them.
mod spans;

pub use spans::{
    contributions_lie_in_order, overlaid_contributions_begin_together,
    relocatable_sections_lie_in_order,
};

// The effects of a higher bottom on a link, and of joining files.
mod joining;
mod moving;

pub use joining::joined_objects_link_alike;
pub use moving::{
    moving_the_bottom_moves_blocks, moving_the_bottom_moves_stored_values,
    moving_the_bottom_moves_texts, moving_the_bottom_moves_the_link,
    moving_the_bottom_moves_what_is_relocated, moving_the_bottom_wraps_no_base,
    what_moves_together_stays,
};

// The bytes of each output, and the order of the writes.
mod order;
mod outputs;
mod texts;

pub use order::map_is_whole_before_the_tape;
pub use outputs::{
    linked_texts_are_the_tape, map_is_its_lines, messages_are_their_lines,
    objects_make_the_tape_of_their_texts,
};
pub use texts::unrelocated_texts_are_the_tape;

// The items that objects yield.
mod items;

pub use items::objects_yield_their_items;

// Whole runs with known objects, and the sizes of a link's tables.
mod runs;
mod tables;

pub use runs::{known_objects_decide_the_run, known_objects_leave_their_texts};
pub use tables::tables_grow_with_names_alone;
