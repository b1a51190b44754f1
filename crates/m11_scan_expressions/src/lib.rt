//! The expressions of a line: where the expression at a column ends, its value, the symbols in it, and the flags of what is left
//! over after it. The caller supplies the values of symbols. Memory is allocated only for the symbols in remarks. (MACRO-11 Language
//! Reference Manual, "Terms", "Expressions", "Symbols" and "Diagnostic error message summary".)
#![tactic(auto)]

// Values, and what they are relative to.
mod kinds;
mod values;

pub use kinds::Kind;
pub use m11_scan::Radix;
pub use values::Value;

// The symbols in an expression, and the trait that supplies their values.
mod names;
mod symbols;

pub use names::{Names, Symbol};
pub use symbols::{next_symbol, symbol_of};

// Terms and the prefixes before them.
mod prefixes;
mod terms;

// The values of expressions: terms joined by operators.
mod expressions;
mod operations;
mod operators;
mod reaches;

// The further results of reading an expression: flags and symbols.
mod left_overs;
mod remarks;

pub use left_overs::{bad_flags, flags_before, has_token, left_over, rest_flags, skip_flags};
pub use remarks::Remarks;

// The expression at a column of a line: its end, its value and its symbols.
mod expression_ends;
mod expressions_at;

pub use expression_ends::{begins_expression, has_expression};
pub use expressions_at::{ExpressionNumber, number_at, number_from};

// Stored expressions, whose values and symbols are found later, from their lines.
mod exprs;

pub use exprs::{Expr, ExprAt, expr_at, expr_from, expr_starting};

// Laws of the values of expressions.
mod laws;

pub use laws::{
    an_operator_joins_its_sides, brackets_keep_the_value, case_makes_no_difference,
    operators_apply_from_left_to_right, prefixes_apply_to_the_term_after_them,
    symbols_that_are_read_decide, terms_are_made_of_terms,
};
