//! The facts from the first pass of a source for the directory of its object. (MACRO-11 Language Reference Manual, ".TITLE directive",
//! ".IDENT directive", ".WEAK directive" and ".END directive".)

use m11_asm_rules::Table;
use m11_base::{Name, SeededSet};
use m11_scan_expressions::Value;

/// The facts from the first pass.
#[derive(Drop)]
pub struct FirstPass<'a> {
    /// The table after the last line, with the sizes of sections.
    pub table: &'a Table,
    /// The names that lines use in places where an undefined name would refer to another object.
    pub referred: &'a SeededSet<Name>,
    /// The names that `.WEAK` made weak.
    pub weak: &'a SeededSet<Name>,
    /// The last title, if the source has one.
    pub title: Option<Name>,
    /// The last identification, if the source has one.
    pub identification: Option<Name>,
    /// The transfer address: the value of the expression of the live `.END`. None if no `.END` became live, or if the live one has no
    /// expression.
    pub transfer: Option<Value>,
}
