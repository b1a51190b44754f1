//! The parts of the text of `.ASCII`, `.ASCIZ` and `.RAD50`. (MACRO-11 Language Reference Manual, ".ASCII directive".)

ghost use Rattle.std.specs.Prelude.{◌≡◌, ◌+◌, ◌<◌, ◌≤◌, true, IfSome};
ghost use Rattle.m11_scan.specs.Line.{line_limit};
ghost use Rattle.m11_scan.specs.Views.{bits_of};
ghost use Rattle.m11_scan_statements.specs.Parts as spec;

use crate::spans::Span;
use m11_scan::{
    Class, Enclosed, ErrorFlags, Line, Sort, delimited, expression_end, next_token, run_length,
    text_from,
};

/// The written form of a part.
#[derive(Clone, Copy, PartialEq, Eq, Default)]
pub enum PartKind {
    /// Characters between two delimiters.
    #[default]
    Text,
    /// An expression between `<` and `>`.
    Expression,
}

/// A part of the text in a directive.
#[derive(Clone, Copy, PartialEq, Eq, Default)]
pub struct Part {
    /// Its written form.
    pub kind: PartKind,
    /// The characters or the expression, without the marks around them.
    pub inside: Span,
    /// Whether its second delimiter or its `>` was found. A text without its second delimiter extends to the end of the line.
    pub is_closed: bool,
    /// The column after the part, including its closing mark if it has one.
    pub end: u8,
}

impl Part {
    /// A if the second delimiter of a text is missing, Q if the `>` of an expression is missing, otherwise no flags.
    pub fn flags(&self) -> ErrorFlags
        ensures { bits_of result ≡ spec.part_flags self.now }
    {
        let flags = match self.kind {
            PartKind::Text => ErrorFlags::A,
            PartKind::Expression => ErrorFlags::Q,
        };
        flags.when(!self.is_closed)
    }
}

/// The next part at or after a column of a line; blanks and characters without a printed form before it are skipped. There is none
/// at the end of the line. A `;` is the delimiter of a text if `is_first` is true; otherwise it begins a comment, and there is no
/// next part.
pub fn next_part(line: &Line, column: u8, is_first: bool) -> Option<Part>
    ensures part { result ≡ spec.next_part line.now.text column is_first }
    ensures begins { IfSome result (λ _. column < line_limit) }
    ensures closed { IfSome result (λ part. part.is_closed ≡ true → column + 2 ≤ part.end) }
{
    let start = column + run_length(text_from(line, column), Class::Unprinted) as u8;
    match text_from(line, start) {
        [] => None,
        [b';', ..] if !is_first => None,
        [b'<', ..] => Some(expression_part(line, start + 1)),
        [delimiter, ..] => Some(text_part(line, start + 1, *delimiter)),
    }
}

fn text_part(line: &Line, start: u8, delimiter: u8) -> Part
    ensures part { result ≡ spec.text_part line.now.text start delimiter }
    ensures closed { result.is_closed ≡ true → start + 1 ≤ result.end }
{
    let Enclosed { length, is_closed } = delimited(text_from(line, start), delimiter);
    let end = start + length as u8;
    Part {
        kind: PartKind::Text,
        inside: Span { start, end },
        is_closed,
        end: if is_closed { end + 1 } else { end },
    }
}

fn expression_part(line: &Line, start: u8) -> Part
    ensures part { result ≡ spec.expression_part line.now.text start }
    ensures closed { result.is_closed ≡ true → start + 1 ≤ result.end }
{
    let end = expression_end(line, start);
    match next_token(line, end) {
        Some(token) if is_closing(token.sort) => expression(start, end, true, token.end),
        _ => expression(start, end, false, end),
    }
}

fn is_closing(sort: Sort) -> bool
    ensures { result ≡ spec.is_closing sort }
{
    matches!(sort, Sort::Greater)
}

fn expression(start: u8, inside_end: u8, is_closed: bool, end: u8) -> Part
    ensures { result ≡ spec.expression start inside_end is_closed end }
{
    Part {
        kind: PartKind::Expression,
        inside: Span {
            start,
            end: inside_end,
        },
        is_closed,
        end,
    }
}
