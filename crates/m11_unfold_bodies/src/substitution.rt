//! Replacement of formals in the lines of a body. (MACRO-11 Language Reference Manual, "Arguments in macro definitions and macro
//! calls" and "Concatenation of macro arguments".)

ghost use Rattle.std.specs.Prelude.{◌≡◌, ◌<◌, ◌≤◌, ◌∷◌, length, IfSome, IfNone, Some, None, take, drop, [], if◌then◌else◌, ◌&&◌, ◌||◌, option_and_then, unwrap_or};
ghost use Rattle.m11_scan.specs.Line.{no_line};
ghost use Rattle.m11_unfold_bodies.specs.Substitution as spec;

use crate::text::Text;
use m11_base::Name;
use m11_scan::{Class, Line, is_of, read_name, run_length};

/// Stores in `line` a body's line as it is in one round of an expansion. A run of name characters whose first six are a formal's name is
/// replaced by that formal's actual, if it has one, together with one `'` directly before the run and one directly after it, if present.
/// Characters past the 132nd are dropped, and then the line is over-long.
pub fn substitute(line: &mut Line, formals: &[Name], actuals: &[Text], text: &[u8])
    ensures { line.new ≡ spec.line_with formals.now actuals.now text.now }
{
    line.clear();
    if formals.is_empty() {
        line.push_all(text);
    } else {
        push_replaced(line, formals, actuals, text);
    }
}

// Fills an empty line with a body's line as it is in one round of an expansion.
fn push_replaced(line: &mut Line, formals: &[Name], actuals: &[Text], text: &[u8])
    requires { line.old ≡ no_line }
    ensures { line.new ≡ spec.line_with formals.now actuals.now text.now }
{
    let mut rest = text;
    let mut is_after = false;
    'pieces: while !rest.is_empty() {
        let (piece, after) = rest.split_at(piece_length(rest));
        let is_gone = vanishes(formals, actuals, is_after, piece, after);
        let (put, is_actual) = put_for(formals, actuals, piece, is_gone);
        line.push_all(put);
        is_after = is_actual;
        rest = after;
    }
}

// Whether a piece is a `'` directly before or after a replaced formal.
fn vanishes(formals: &[Name], actuals: &[Text], is_after: bool, piece: &[u8], after: &[u8]) -> bool
    ensures { result ≡ spec.is_quote (spec.piece_of piece.now)
        && (is_after || spec.begins_replaced formals.now actuals.now (spec.pieces_of after.now)) }
{
    is_quote(piece) && (is_after || begins_replaced(formals, actuals, after))
}

// The characters that a piece becomes, and whether they are an actual. A formal with an actual becomes the actual; any other piece becomes
// nothing if `is_gone` is true, and is unchanged otherwise.
fn put_for<'a>(
    formals: &[Name],
    actuals: &'a [Text],
    piece: &'a [u8],
    is_gone: bool,
) -> (&'a [u8], bool)
    requires { 0 < length piece.now }
    ensures put { result.0.now ≡ unwrap_or
        (spec.actual_for formals.now actuals.now (spec.piece_of piece.now)) (if is_gone then [] else piece.now) }
    ensures replaced { result.1 ≡ spec.is_replaced formals.now actuals.now (spec.piece_of piece.now) }
{
    match actual_for(formals, actuals, piece) {
        Some(actual) => (actual, true),
        None if is_gone => (&[], false),
        None => (piece, false),
    }
}

// The length of the first piece of a text: that of a run of name characters, or 1 if the text begins with another character.
fn piece_length(text: &[u8]) -> usize
    requires { 0 < length text.now }
    ensures some { 0 < result }
    ensures within { result ≤ length text.now }
    ensures piece { spec.pieces_of text.now
        ≡ spec.piece_of (take result text.now) ∷ spec.pieces_of (drop result text.now) }
    ensures text { spec.text_of (spec.piece_of (take result text.now)) ≡ take result text.now }
{
    let length = run_length(text, Class::Name);
    if length == 0 { 1 } else { length }
}

fn is_quote(piece: &[u8]) -> bool
    ensures { result ≡ spec.is_quote (spec.piece_of piece.now) }
{
    match piece {
        [byte, ..] => *byte == b'\'',
        [] => false,
    }
}

// The actual that replaces a piece; None unless the piece is a run whose first six characters name a formal that has an actual.
fn actual_for<'a>(formals: &[Name], actuals: &'a [Text], piece: &[u8]) -> Option<&'a [u8]>
    requires { 0 < length piece.now }
    ensures some { IfSome result (λ actual. spec.actual_for formals.now actuals.now (spec.piece_of piece.now) ≡ Some actual.now) }
    ensures none { IfNone result (spec.actual_for formals.now actuals.now (spec.piece_of piece.now) ≡ None) }
{
    match piece {
        [byte, ..] => {
            if is_of(*byte, Class::Name) {
                actual_of(formals, actuals, read_name(piece))
            } else {
                None
            }
        }
        [] => None,
    }
}

fn actual_of<'a>(formals: &[Name], actuals: &'a [Text], name: Option<Name>) -> Option<&'a [u8]>
    ensures some { IfSome result (λ actual. option_and_then (spec.actual_named formals.now actuals.now) name ≡ Some actual.now) }
    ensures none { IfNone result (option_and_then (spec.actual_named formals.now actuals.now) name ≡ None) }
{
    match name {
        Some(name) => actual_named(formals, actuals, name),
        None => None,
    }
}

// The actual of the first formal with this name; None if there is no such formal, or no actual for it.
fn actual_named<'a>(formals: &[Name], actuals: &'a [Text], name: Name) -> Option<&'a [u8]>
    ensures some { IfSome result (λ actual. spec.actual_named formals.now actuals.now name ≡ Some actual.now) }
    ensures none { IfNone result (spec.actual_named formals.now actuals.now name ≡ None) }
{
    let mut names = formals;
    let mut texts = actuals;
    'formals: while let Some((formal, more)) = names.split_first() {
        let (actual, others) = texts.split_first()?;
        if formal.is_same(name) {
            return Some(actual.bytes());
        }
        names = more;
        texts = others;
    }
    None
}

// Whether the first piece of a text is replaced by an actual; false for an empty text.
fn begins_replaced(formals: &[Name], actuals: &[Text], text: &[u8]) -> bool
    ensures { result ≡ spec.begins_replaced formals.now actuals.now (spec.pieces_of text.now) }
{
    if text.is_empty() {
        return false;
    }
    let (piece, _) = text.split_at(piece_length(text));
    actual_for(formals, actuals, piece).is_some()
}
