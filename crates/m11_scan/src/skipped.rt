//! Characters that begin no token. (MACRO-11 Language Reference Manual, "Character set".)

ghost use Rattle.std.specs.Prelude.{◌≡◌};
ghost use Rattle.m11_scan.specs.Skipped.{has_skipped, has_unkept, is_skipped, skipped_between};

use crate::classes::{Class, is_of};
use crate::cutting::text_between;
use crate::line::Line;
use crate::pieces::first_piece;
use crate::sort::Form;

/// Whether any character from `start` up to but not including `end` is skipped: it is neither part of a token nor in the comment,
/// and it is neither a blank nor a tab. These characters are cut into pieces by themselves. False if `end` is before `start` or past the
/// line's end. A line with a skipped character is flagged I.
#[inline(always)]
pub fn skipped_between(line: &Line, start: u8, end: u8) -> bool
    ensures { result ≡ skipped_between line.now.text start end }
{
    // speed: often no character is between the columns, and no call is needed
    start < end && has_skipped(text_between(line, start, end))
}

// Whether any piece of a text is a character that begins no token.
// speed: not inlined, so that callers inline only the comparison above.
#[inline(never)]
fn has_skipped(text: &[u8]) -> bool
    ensures { result ≡ has_skipped text.now }
{
    // speed: few texts have a character that may be skipped, and the others needn't be cut into pieces
    has_unkept(text) && is_some_skipped(text)
}

// Whether any character of a text before its comment, if it has one, is `'`, `"`, `^` or a character that begins no token. A `;` in a token
// is preceded by one of these characters, so the first `;` that the loop reaches begins the comment.
fn has_unkept(text: &[u8]) -> bool
    ensures { result ≡ has_unkept text.now }
{
    let mut rest = text;
    'bytes: while let [byte, tail @ ..] = rest {
        if !is_of(*byte, Class::Kept) {
            return *byte != b';';
        }
        rest = tail;
    }
    false
}

// Whether any piece of a text is a character that begins no token. The text is cut piece by piece.
// speed: not inlined, since few texts have to be cut.
#[inline(never)]
fn is_some_skipped(text: &[u8]) -> bool
    ensures { result ≡ has_skipped text.now }
{
    let mut rest = text;
    'pieces: while !rest.is_empty() {
        let piece = first_piece(rest);
        if is_skipped(piece.form) {
            return true;
        }
        rest = &rest[piece.length..];
    }
    false
}

fn is_skipped(form: Form) -> bool
    ensures { result ≡ is_skipped form }
{
    matches!(form, Form::Skipped)
}
