//! The results of an unfolder's calls.

use m11_scan_expressions::Remarks;

/// The point at which a call of `next` stopped, if it didn't fail.
#[derive(Clone, Copy, PartialEq, Eq)]
pub enum Step {
    /// Nothing is left to unfold: feed the next line of the source, unless the source has ended.
    NeedLine,
    /// `.END` became live.
    End,
    /// A line became live. The value says whether it comes from an expansion.
    Line(bool),
}

/// The result of executing a live line's operator.
#[derive(Drop)]
pub struct Act {
    /// Whether the line belongs to unfolding: a macro call, or a directive for conditions, repeats or macros, except `.NARG` and `.NCHR`.
    /// Such a line emits nothing.
    pub is_own: bool,
    /// The flags of the operator and its arguments, and the symbols in them, in order.
    pub remarks: Remarks,
    /// The number of actuals of the innermost macro call around the line, if there is one.
    pub arguments: Option<u16>,
}
