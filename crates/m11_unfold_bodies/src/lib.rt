//! Bodies of macros and repeats, the lines that replace them in expansions, and what is left to unfold. This crate knows no
//! directive: the caller says which lines open and close bodies and conditions. (MACRO-11 Language Reference Manual, "Macro
//! directives", "Repeat block directive" and "Conditional assembly block directives".)
#![tactic(auto)]

// Texts on the heap, and a body whose end hasn't been read.
mod open_body;
mod text;

pub use open_body::{Nesting, OpenBody};
pub use text::{Text, Texts};

// A body with its formals, and the replacement of formals by actuals.
mod substitution;
mod template;

pub use substitution::substitute;
pub use template::Template;

// An open expansion: its rounds, its conditions, its end.
mod conditions;
mod frame;
mod mark;
mod rounds;

pub use conditions::{CONDITION_LIMIT, Conditions, OpenCondition, Part};
pub use mark::Mark;
pub use rounds::Rounds;

// What is left to unfold of all open expansions and of the source.
mod left;

pub use left::{EXPANSION_LIMIT, LineOrEnd, RemainingLines};

// Laws of quotes and formals, of rounds, and of conditions.
mod laws;

pub use laws::{
    a_formal_gives_way_with_a_quote_on_each_side, an_endc_undoes_its_if,
    expansions_are_rounds_and_an_end, formals_alone_are_replaced, half_read_bodies_go_on,
    quotes_beside_a_formal_vanish, the_last_switch_decides,
};
