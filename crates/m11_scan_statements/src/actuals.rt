//! The arguments of macro calls, of `.IRP` and of conditions. (MACRO-11 Language Reference Manual, "Arguments in macro
//! definitions and macro calls".)

ghost use Rattle.std.specs.List.{prefix_len};
ghost use Rattle.std.specs.Prelude.{◌≡◌, ◌+◌, ◌<◌, drop};
ghost use Rattle.m11_scan.specs.Classes.{is_bare};
ghost use Rattle.m11_scan.specs.Ends.{expression_end};
ghost use Rattle.m11_scan_statements.specs.Actuals as spec;
ghost use Rattle.m11_scan_statements.specs.declared.actuals.ActualKind.TheVariants.{Bare, Digits};

use crate::spans::Span;
use m11_scan::{
    Class, Enclosed, Line, bracketed, expression_end, run_length, separator_length, text_from,
};

/// The written form of an actual.
#[derive(Clone, Copy, PartialEq, Eq)]
pub enum ActualKind {
    /// Characters without brackets, possibly none.
    Bare,
    /// Characters between `<` and `>`.
    Bracketed,
    /// `\` and an expression. The digits of the expression's value, in the current radix, are the actual.
    Digits,
}

/// An actual of a line.
#[derive(Clone, Copy, PartialEq, Eq)]
pub struct Actual {
    /// The written form.
    pub kind: ActualKind,
    /// The characters or the expression, without the marks around them.
    pub inside: Span,
    /// False if the `>` of a bracketed actual is missing. The actual then extends to the end of the line and is flagged A.
    pub is_closed: bool,
    /// The column after the actual, including its `>` if it has one.
    pub end: u8,
}

/// The separator between two arguments: blanks and tabs with at most one comma among them, or nothing.
#[derive(Clone, Copy, PartialEq, Eq)]
pub struct Separator {
    /// Whether the separator has a comma.
    pub has_comma: bool,
    /// The column after the separator.
    pub end: u8,
}

/// The separator at a column of a line, possibly an empty one.
pub fn separator_at(line: &Line, column: u8) -> Separator
    ensures { result ≡ spec.separator_at line.now.text column }
{
    let text = text_from(line, column);
    let blanks = run_length(text, Class::Blank);
    Separator {
        has_comma: begins_with_comma(&text[blanks..]),
        end: column + separator_length(text) as u8,
    }
}

fn begins_with_comma(text: &[u8]) -> bool
    ensures { result ≡ spec.begins_with_comma text.now }
{
    matches!(text, [b',', ..])
}

/// The next actual at or after a column of a line; blanks and tabs before it are skipped. There is none at the end of the line or at
/// a `;`; at a comma the actual is empty. `\` is an ordinary character unless `allows_digits` is true.
pub fn next_actual(line: &Line, column: u8, allows_digits: bool) -> Option<Actual>
    ensures { result ≡ spec.next_actual line.now.text column allows_digits }
{
    let start = column + run_length(text_from(line, column), Class::Blank) as u8;
    match text_from(line, start) {
        [] | [b';', ..] => None,
        [b'<', ..] => Some(bracketed_actual(line, start + 1)),
        [b'\\', ..] if allows_digits => Some(digits_actual(line, start + 1)),
        _ => Some(bare_actual(line, start)),
    }
}

fn bracketed_actual(line: &Line, start: u8) -> Actual
    ensures { result ≡ spec.bracketed_actual line.now.text start }
{
    let Enclosed { length, is_closed } = bracketed(text_from(line, start));
    let end = start + length as u8;
    Actual {
        kind: ActualKind::Bracketed,
        inside: Span { start, end },
        is_closed,
        end: if is_closed { end + 1 } else { end },
    }
}

fn digits_actual(line: &Line, start: u8) -> Actual
    ensures { result ≡ spec.whole_actual Digits start (expression_end line.now.text start) }
{
    let end = expression_end(line, start);
    whole_actual(ActualKind::Digits, start, end)
}

fn bare_actual(line: &Line, start: u8) -> Actual
    ensures { result
        ≡ spec.whole_actual Bare start (start + prefix_len is_bare (drop start line.now.text)) }
{
    let end = start + run_length(text_from(line, start), Class::Bare) as u8;
    whole_actual(ActualKind::Bare, start, end)
}

// An actual that needs no closing `>`.
fn whole_actual(kind: ActualKind, start: u8, end: u8) -> Actual
    ensures { result ≡ spec.whole_actual kind start end }
{
    Actual {
        kind,
        inside: Span { start, end },
        is_closed: true,
        end,
    }
}
