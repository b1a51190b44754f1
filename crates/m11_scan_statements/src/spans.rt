//! Ranges of columns in a line.

ghost use Rattle.std.specs.Prelude.{◌≡◌};
ghost use Rattle.m11_scan.specs.Cutting.{text_between};

use m11_scan::{Line, text_between};

/// Consecutive characters of a line.
#[derive(Clone, Copy, PartialEq, Eq, Default)]
pub struct Span {
    /// The column of the first character, counted from 0.
    pub start: u8,
    /// The column after the last character.
    pub end: u8,
}

impl Span {
    /// The span's characters in the line that it belongs to; none if the line ends before the span does.
    pub fn text<'a>(&self, line: &'a Line) -> &'a [u8]
        ensures { result.now ≡ text_between line.now.text self.now.start self.now.end }
    {
        text_between(line, self.start, self.end)
    }
}
