//! Laws of relocations: what a linker stores for each kind of relocation, and so, for each value, the address of its target or the distance
//! to that address. Each law is the contract of a function that does nothing; laws of linked programs use them. (MACRO-11 Language
//! Reference Manual, "Relocation and linking".)
#![tactic(auto)]

mod relocations;

pub use relocations::{
    absolute_targets_are_counted_from_the_word, displaced_globals_are_counted_from_the_word,
    displaced_sections_are_counted_from_the_word, fixed_values_stay,
    linked_values_say_where_their_targets_lie, values_move_with_globals,
    values_move_with_other_sections, values_move_with_their_section,
};
