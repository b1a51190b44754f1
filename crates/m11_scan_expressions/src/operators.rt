//! The operators between two terms. (MACRO-11 Language Reference Manual, "Binary operators".)

/// An operator between two terms.
#[derive(Clone, Copy, PartialEq, Eq)]
pub enum Operator {
    /// `+`
    Add,
    /// `-`
    Subtract,
    /// `*`
    Multiply,
    /// `/`
    Divide,
    /// `&`
    And,
    /// `!`
    Or,
}
