//! The outcome of a successful assembly.

/// The outcome of a successful assembly.
#[derive(Clone, Copy, PartialEq, Eq)]
pub struct AsmDone {
    /// The number of flagged lines, including the one that is added if `.END` doesn't become live.
    pub flagged: u32,
}
