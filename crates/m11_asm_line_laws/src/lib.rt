//! Laws of lines and of the arguments of their operators, stated in terms of the language: a line is read as it is written. Besides them,
//! lines worked by hand: what they emit and their flags, conditions, items in a listing, titles, names and limits. Each law is the
//! contract of a function that does nothing; no other crate uses these laws. (MACRO-11 Language Reference Manual, "Source program format",
//! "Conditional assembly block directives" and "Arguments in macro definitions and macro calls".)
#![tactic(auto)]

// The fields of a line: its labels, and what follows them.
mod statements;

pub use statements::{
    an_example_is_read_as_worked, bodies_are_read_as_they_are_written,
    labels_are_read_as_they_are_written, operations_depend_on_texts_alone,
    statements_are_read_as_they_are_written,
};

// Arguments of operators: numbers, and lists of names, formals and actuals.
mod digits;
mod lists;

pub use digits::{written_numbers_are_read_back, written_numbers_begin_without_a_zero};
pub use lists::{
    actuals_stand_one_after_the_other, formals_stand_one_after_the_other,
    names_stand_one_after_the_other,
};

// Bad and missing arguments.
mod conditions;

pub use conditions::{a_repeat_without_a_number_has_no_round, refused_conditions_do_not_hold};

// Flags that the text of an expression decides.
mod text_flags;

pub use text_flags::texts_decide_n_q_and_t;

// Conditions that hold, and conditions that don't.
mod worked_conditions;

pub use worked_conditions::conditions_are_as_worked;

// Instructions and directives: what they emit, their flags, and their items in a listing.
mod worked_directives;
mod worked_instructions;

pub use worked_directives::{
    items_are_as_worked, listings_are_as_worked, locations_are_as_worked, modes_are_as_worked,
    texts_are_as_worked, words_are_as_worked,
};
pub use worked_instructions::{
    branches_are_as_worked, missing_operands_are_as_worked, operands_are_as_worked,
    registers_are_as_worked, relative_operands_are_as_worked,
};

// Relocations; sections, names and limits.
mod worked_relocations;

pub use worked_relocations::{
    limits_are_as_worked, names_are_as_worked, sections_are_as_worked, sources_are_as_worked,
};
