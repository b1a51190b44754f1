//! The rows of an object's directory, from the first pass of a source: the module; its identification, if there is one; its sections, each
//! followed by the globals that it defines, and the absolute section also by the references; and the transfer address. (RT-11 Volume and
//! File Formats Manual, "Object file format", GSD block; MACRO-11 Language Reference Manual, ".GLOBL directive", ".WEAK directive", ".TITLE
//! directive", ".IDENT directive" and ".END directive".)
#![tactic(auto)]

// The facts from the first pass of a source.
mod first_pass;

pub use first_pass::FirstPass;

// Names in order; the rows of defined globals and of globals of other objects; and the row of the transfer address.
mod definitions;
mod names;
mod references;
mod transfers;

pub use names::ordered_names;

// All rows, in their order.
mod rows;

pub use rows::directory_rows;

// Laws of the order of names.
mod laws;

pub use laws::{names_in_order_are_these_alone, ordered_names_are_in_order};
