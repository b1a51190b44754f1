//! The first piece of a text. (MACRO-11 Language Reference Manual, "Symbols and expressions" and "Character set".)

ghost use Rattle.std.specs.Prelude.{◌≡◌, ℕ, ◌+◌, ◌<◌, ◌≤◌, ◌∷◌, false, true, length};
ghost use Rattle.m11_scan.specs.Classes.{is_blank, is_digit};
ghost use Rattle.m11_scan.specs.Pieces as spec;

use crate::classes::{Class, is_of, run_length};
use crate::sort::{Form, Sort};

/// A piece of a line: a token, a blank, the comment, or a character that begins no token.
#[derive(Clone, Copy, PartialEq, Eq)]
pub struct Piece {
    /// The form: a token of some sort, a blank, a comment or a skipped character.
    pub form: Form,
    /// The number of characters.
    pub length: usize,
}

// The first piece of a text: its longest prefix that has the form of a piece.
#[inline(always)]
#[tactic(auto, unfolding(crate::specs::Pieces::first_piece))]
pub(crate) fn first_piece(text: &[u8]) -> Piece
    requires { 0 < length text.now }
    ensures piece { result ≡ spec.first_piece text.now }
    ensures begins { 0 < result.length }
    ensures within { result.length ≤ length text.now }
{
    // speed: most pieces are blanks, so this is tested first
    let first = text[0];
    if is_of(first, Class::Blank) {
        Piece {
            form: Form::Blank,
            length: 1,
        }
    } else {
        other_piece(first, &text[1..])
    }
}

// The piece that begins with this character, which is neither a blank nor a tab. `rest` is the text after it.
#[inline(never)]
#[tactic(auto, unfolding(crate::specs::Pieces::first_piece))]
fn other_piece(first: u8, rest: &[u8]) -> Piece
    requires { is_blank first ≡ false }
    ensures piece { result ≡ spec.first_piece (first ∷ rest.now) }
    ensures begins { 0 < result.length }
    ensures within { result.length ≤ length rest.now + 1 }
{
    if is_of(first, Class::Digit) {
        number_piece(rest)
    } else if is_of(first, Class::Name) {
        token(Sort::Name, run_length(rest, Class::Name) + 1)
    } else if first == b';' {
        Piece {
            form: Form::Comment,
            length: rest.len() + 1,
        }
    } else {
        mark_piece(first, rest)
    }
}

fn token(sort: Sort, length: usize) -> Piece
    ensures { result ≡ spec.token sort length }
{
    Piece {
        form: Form::Cut(sort),
        length,
    }
}

// A number: digits, and a dot or a `$` directly after them if there is one. `rest` is the text after the first digit.
fn number_piece(rest: &[u8]) -> Piece
    ensures piece { (first : ℕ) → is_digit first ≡ true → result ≡ spec.number_piece (first ∷ rest.now) }
    ensures begins { 0 < result.length }
    ensures within { result.length ≤ length rest.now + 1 }
{
    let digits = run_length(rest, Class::Digit);
    match &rest[digits..] {
        [b'.', ..] => token(Sort::DecimalNumber, digits + 2),
        [b'$', ..] => token(Sort::LocalSymbol, digits + 2),
        _ => token(Sort::Number, digits + 1),
    }
}

// The piece that begins with this character, which isn't a digit, a letter, `$`, `.`, a blank, a tab or `;`. `rest` is the text
// after it.
fn mark_piece(first: u8, rest: &[u8]) -> Piece
    ensures piece { result ≡ spec.mark_piece (first ∷ rest.now) }
    ensures begins { 0 < result.length }
    ensures within { result.length ≤ length rest.now + 1 }
{
    match (first, rest) {
        (b'\'', _) => token(Sort::Character, (rest.len() + 1).min(2)),
        (b'"', _) => token(Sort::TwoCharacters, (rest.len() + 1).min(3)),
        (b'^', _) => caret_piece(rest),
        (b':', [b':', ..]) => token(Sort::TwoColons, 2),
        (b'=', [b'=', ..]) => token(Sort::TwoEquals, 2),
        _ => Piece {
            form: mark_form(first),
            length: 1,
        },
    }
}

// The piece that begins with a `^` followed by this text: a token if the text begins with B, O, D, C or R, in either case; otherwise the
// `^` alone, which is skipped.
fn caret_piece(rest: &[u8]) -> Piece
    ensures piece { result ≡ spec.caret_piece rest.now }
    ensures begins { 0 < result.length }
    ensures within { result.length ≤ length rest.now + 1 }
{
    match rest {
        [b'B' | b'b', ..] => token(Sort::BinaryRadix, 2),
        [b'O' | b'o', ..] => token(Sort::OctalRadix, 2),
        [b'D' | b'd', ..] => token(Sort::DecimalRadix, 2),
        [b'C' | b'c', ..] => token(Sort::Complement, 2),
        [b'R' | b'r', more @ ..] => token(Sort::Packed, run_length(more, Class::Name) + 2),
        _ => Piece {
            form: Form::Skipped,
            length: 1,
        },
    }
}

// The form of a character that is a piece by itself: a token, or skipped.
pub(crate) fn mark_form(byte: u8) -> Form
    ensures { result ≡ spec.mark_form byte }
{
    match byte {
        b'+' => Form::Cut(Sort::Plus),
        b'-' => Form::Cut(Sort::Minus),
        b'*' => Form::Cut(Sort::Times),
        b'/' => Form::Cut(Sort::Over),
        b'&' => Form::Cut(Sort::And),
        b'!' => Form::Cut(Sort::Or),
        b'<' => Form::Cut(Sort::Less),
        b'>' => Form::Cut(Sort::Greater),
        b'%' => Form::Cut(Sort::Percent),
        b'#' => Form::Cut(Sort::NumberSign),
        b'@' => Form::Cut(Sort::At),
        b'(' => Form::Cut(Sort::Open),
        b')' => Form::Cut(Sort::Close),
        b',' => Form::Cut(Sort::Comma),
        b':' => Form::Cut(Sort::Colon),
        b'=' => Form::Cut(Sort::Equals),
        _ => Form::Skipped,
    }
}
