//! Laws of the shapes of a source: the live lines of calls, repeats, definitions and conditions, nested in any way. (MACRO-11 Language
//! Reference Manual, "Macro directives" and "Conditional assembly directives".)
#![tactic(auto)]

mod cases;
mod laws;

pub use cases::{
    calls_have_a_shape, conditions_have_a_shape, other_lines_have_a_shape, repeats_have_a_shape,
    two_calls_with_a_repeat_are_as_worked,
};
pub use laws::{
    a_body_ends_at_its_close_by_nesting_alone, a_source_has_just_the_live_lines_of_its_shape,
    each_source_has_a_shape, lines_give_the_live_lines_of_their_shape,
};
