//! Texts that a directive or a macro call reads from its line. (MACRO-11 Language Reference Manual, ".ASCII directive" and "Arguments
//! in macro definitions and macro calls".)

ghost use Rattle.std.specs.Prelude.{◌≡◌, ◌<◌, ◌≤◌, length, true};
ghost use Rattle.m11_scan.specs.Texts.{bracketed, delimited, separator_length};

use crate::classes::{Class, run_length};

/// The extent of a text between two delimiters, the second of which may be missing.
#[derive(Clone, Copy, PartialEq, Eq)]
pub struct Enclosed {
    /// The number of characters before the second delimiter, or of all characters if it is missing.
    pub length: usize,
    /// Whether the second delimiter was found. Without it the text extends to the end of the line.
    pub is_closed: bool,
}

/// The number of characters before the first delimiter in a text, or of all characters if there is none, and whether there is one.
pub fn delimited(text: &[u8], delimiter: u8) -> Enclosed
    ensures text { result ≡ delimited delimiter text.now }
    ensures within { result.length ≤ length text.now }
    ensures closed { result.is_closed ≡ true → result.length < length text.now }
{
    let mut count = 0;
    let mut rest = text;
    'characters: while let [byte, tail @ ..] = rest {
        if *byte == delimiter {
            return Enclosed {
                length: count,
                is_closed: true,
            };
        }
        count += 1;
        rest = tail;
    }
    Enclosed {
        length: count,
        is_closed: false,
    }
}

/// The number of characters before the `>` that closes the `<` in front of a text, or of all characters if there is no such `>`,
/// and whether there is one. Brackets inside the text nest.
pub fn bracketed(text: &[u8]) -> Enclosed
    ensures text { result ≡ bracketed text.now }
    ensures within { result.length ≤ length text.now }
    ensures closed { result.is_closed ≡ true → result.length < length text.now }
{
    let mut depth: usize = 0;
    let mut count = 0;
    let mut rest = text;
    'characters: while let [byte, tail @ ..] = rest {
        if *byte == b'<' {
            depth += 1;
        } else if *byte == b'>' {
            if depth == 0 {
                return Enclosed {
                    length: count,
                    is_closed: true,
                };
            }
            depth -= 1;
        }
        count += 1;
        rest = tail;
    }
    Enclosed {
        length: count,
        is_closed: false,
    }
}

/// The number of characters at the beginning of a text that separate two actuals: blanks and tabs, and at most one comma. It may
/// be 0.
pub fn separator_length(text: &[u8]) -> usize
    ensures length { result ≡ separator_length text.now }
    ensures within { result ≤ length text.now }
{
    let blanks = run_length(text, Class::Blank);
    match &text[blanks..] {
        [b',', rest @ ..] => run_length(rest, Class::Blank) + blanks + 1,
        _ => blanks,
    }
}
