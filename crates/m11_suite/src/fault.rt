//! Faults in the text of a case.

use std::alloc::{AllocError, AllocFailed};
use thiserror::Error;

/// The fault of a line of a case.
#[derive(Clone, Copy, Debug, PartialEq, Eq, Error)]
pub(crate) enum LineFault {
    /// The line doesn't begin with the name of a part of a case.
    #[error("no part of a case")]
    UnknownPart,
    /// No line that begins a command comes before the line.
    #[error("no command before it")]
    NoCommand,
    /// The line is content, but the part before it can't have any.
    #[error("content of nothing")]
    NoDestination,
    /// A backslash that doesn't begin one of the escapes.
    #[error("no escape")]
    BadEscape,
    /// Digits that don't spell a byte in their base.
    #[error("no byte")]
    BadByte,
    /// The status isn't a decimal number from 0 to 255.
    #[error("no status")]
    BadStatus,
    /// A word or a path that is not UTF-8.
    #[error("no UTF-8")]
    BadText,
    /// Memory was refused.
    #[error("no memory")]
    NoMemory,
}

impl From<AllocError> for LineFault {
    fn from(_error: AllocError) -> LineFault {
        LineFault::NoMemory
    }
}

impl<T: Drop> From<AllocFailed<T>> for LineFault {
    fn from(_error: AllocFailed<T>) -> LineFault {
        LineFault::NoMemory
    }
}

/// The number of a line, counted from 1, and its fault.
#[derive(Clone, Copy, Debug, PartialEq, Eq, Error)]
#[error("line {line}: {fault}")]
pub(crate) struct CaseFault {
    pub(crate) line: u64,
    pub(crate) fault: LineFault,
}
