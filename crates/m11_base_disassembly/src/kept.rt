//! What is kept of files of names.

/// What is kept of files of names.
#[derive(Clone, Copy)]
pub enum Kept {
    /// The names of addresses alone.
    Names,
    /// The names, and of each listing the lines that show words.
    NamesAndLines,
}
