//! The results and condition codes of the processor's operations, as functions of plain numbers. (PDP-11/40 Processor Handbook,
//! "Instruction set" and "Extended instruction set".) There is no machine here: the caller reads the operands and stores the
//! results.
#![tactic(auto)]

// Words and bytes as numbers, and results with their condition codes.
mod results;
mod sizes;

pub use results::{Computed, Division, Pair};

// Operations on two operands, on one, and those of the extended set.
mod doubles;
mod extended;
mod shifts;
mod singles;

pub use doubles::{double, exclusive_or};
pub use extended::{divide, multiply};
pub use shifts::{shift, shift_pair};
pub use singles::single;

// When branches are taken.
mod branches;

pub use branches::is_taken;

// Laws of results and codes, in the words of the handbook.
mod laws;

pub use laws::{
    arithmetic_shifts, branches_after_compare, division, double_precision_addition,
    double_precision_subtraction, multiplication,
};
