//! The faults that end the reading of lines.

use thiserror::Error;

/// Why reading ended: the first fault in the order of the bytes.
#[derive(Clone, Copy, Debug, PartialEq, Eq, Error)]
pub enum LineFault {
    /// The feed of a source failed.
    #[error("a source could not be read")]
    Read,
    /// More than 4,194,304 bytes in all sources together.
    #[error("too many bytes of source")]
    TooMuchSource,
    /// More than 65,535 lines in all sources together.
    #[error("too many lines of source")]
    TooManyLines,
}
