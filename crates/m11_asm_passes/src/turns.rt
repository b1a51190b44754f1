//! The results of a call of a pass.

/// The point at which a call of a pass stopped, if it didn't fail.
#[derive(Clone, Copy, PartialEq, Eq)]
pub enum Turn {
    /// Nothing is left to unfold: feed the next line of the source, unless the source has ended.
    NeedLine,
    /// `.END` became live.
    End,
    /// A line became live, and the pass has defined its labels and applied its action.
    Line,
}
