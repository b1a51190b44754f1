//! The statement of a source line: its labels, and after them an assignment, an operator or words; and the texts, names and
//! arguments that a directive reads from its line. Symbols have no values here, and nothing is allocated. (MACRO-11 Language
//! Reference Manual, "Source program format".)
#![tactic(auto)]

// The statement of a line: its labels, and after them an assignment, an operator or words.
mod bodies;
mod labels;
mod reading;
mod spans;
mod statements;

pub use bodies::{Assignment, Body};
pub use labels::{LABEL_LIMIT, Label, LabelKind, labels_of};
pub use reading::statement;
pub use spans::Span;
pub use statements::Statement;

// Arguments of directives: names in a list, and the parts of a text.
mod listed;
mod parts;

pub use listed::{ListedName, listed_name};
pub use parts::{Part, PartKind, next_part};

// Arguments of macros: formals and actuals.
mod actuals;
mod formals;

pub use actuals::{Actual, ActualKind, Separator, next_actual, separator_at};
pub use formals::{Formal, NextFormal, next_formal};

// Laws of the order of labels and bodies, and of upper and lower case.
mod laws;

pub use laws::{case_makes_no_difference, labels_and_body_are_in_order};
