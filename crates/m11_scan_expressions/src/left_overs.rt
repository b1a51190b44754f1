//! The flags of the rest of a line after its arguments. (MACRO-11 Language Reference Manual, "Diagnostic error message summary".)

ghost use Rattle.std.specs.Prelude.{◌≡◌};
ghost use Rattle.m11_scan.specs.Cutting.{tokens_from};
ghost use Rattle.m11_scan.specs.Views.{bits_of};
ghost use Rattle.m11_scan_expressions.specs.LeftOvers as spec;

use m11_scan::{ErrorFlags, Line, next_token, skipped_between};

/// The flags of the rest of a line, at or after a column, where nothing more is allowed: Q if it has a token, I if it has a skipped
/// character.
pub fn left_over(line: &Line, column: u8) -> ErrorFlags
    ensures { bits_of result ≡ spec.left_over line.now.text column }
{
    if column >= line.end() {
        return ErrorFlags::none();
    }
    ErrorFlags::Q
        .when(has_token(line, column))
        .with(rest_flags(line, column))
}

/// Whether a line has a token at or after a column.
pub fn has_token(line: &Line, column: u8) -> bool
    ensures { result ≡ spec.has_token (tokens_from line.now.text column) }
{
    match next_token(line, column) {
        Some(_) => true,
        None => false,
    }
}

/// I if a line has a skipped character at or after a column, otherwise no flags.
pub fn rest_flags(line: &Line, column: u8) -> ErrorFlags
    ensures { bits_of result ≡ spec.rest_flags line.now.text column }
{
    skip_flags(line, column, line.end())
}

/// The flags of a line whose argument at a column is bad or missing: A, and I for a skipped character from that column to the
/// end.
pub fn bad_flags(line: &Line, column: u8) -> ErrorFlags
    ensures { bits_of result ≡ spec.bad_flags line.now.text column }
{
    ErrorFlags::A.with(rest_flags(line, column))
}

/// I if a line has a skipped character between a column and the next token, or, if no token follows, between the column and the end
/// of the line; otherwise no flags.
pub fn flags_before(line: &Line, column: u8) -> ErrorFlags
    ensures { bits_of result ≡ spec.flags_before line.now.text column }
{
    match next_token(line, column) {
        Some(token) => skip_flags(line, column, token.start),
        None => rest_flags(line, column),
    }
}

/// I if a line has a skipped character from `start` up to but not including `end`, otherwise no flags. There are also no flags if
/// `end` is before `start` or past the line's end.
pub fn skip_flags(line: &Line, start: u8, end: u8) -> ErrorFlags
    ensures { bits_of result ≡ spec.skip_flags line.now.text start end }
{
    ErrorFlags::I.when(skipped_between(line, start, end))
}
