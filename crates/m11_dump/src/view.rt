//! How bytes are shown.

/// How a dump shows the bytes of texts and of a tape's blocks.
#[derive(Clone, Copy, PartialEq, Eq)]
pub enum View {
    /// In octal: eight bytes of a text, or eight words of a tape's block, to a line. A block at an odd address is shown as bytes.
    Octal,
    /// As instructions, one to a line.
    Instructions,
}
