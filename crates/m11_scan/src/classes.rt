//! Classes of the characters of a source, in one table. (MACRO-11 Language Reference Manual, "Character set".)

ghost use Rattle.std.specs.Prelude.{◌≡◌, ◌≤◌, length};
ghost use Rattle.std.specs.List.{prefix_len};
ghost use Rattle.m11_scan.specs.Classes.{bit_of, is_of};

/// A class of characters. Its number is its bit in the table.
#[derive(Clone, Copy, PartialEq, Eq)]
pub enum Class {
    /// A blank or a tab.
    Blank = 0o001,
    /// A digit.
    Digit = 0o002,
    /// A letter of either case, a digit, `$` or `.`: a character of names.
    Name = 0o004,
    /// A blank, a tab, or a character other than `'`, `"` and `^` that begins a token. None of these is ever skipped.
    Kept = 0o010,
    /// A character of an actual without brackets: any but a blank, a tab, `,` and `;`.
    Bare = 0o020,
    /// A blank, or a character without a printed form: octal 40 and below, or octal 177 and above.
    Unprinted = 0o040,
    /// A character that a line contains unchanged: any but NUL, line feed, form feed and CR.
    Plain = 0o100,
}

// A character that is skipped, such as `?`, or that begins a longer token: `'`, `"` or `^`.
const OTHER: u8 = Class::Bare as u8 | Class::Plain as u8;

// A character that is a token by itself, except the comma.
const MARK: u8 = OTHER | Class::Kept as u8;

// A letter of either case, `$` or `.`.
const LETTER: u8 = MARK | Class::Name as u8;

const DIGIT: u8 = LETTER | Class::Digit as u8;

// A character without a printed form, other than a tab and those of `BREAK`.
const HIDDEN: u8 = OTHER | Class::Unprinted as u8;

// NUL, line feed, form feed or CR.
const BREAK: u8 = Class::Bare as u8 | Class::Unprinted as u8;

const SEMICOLON: u8 = Class::Plain as u8;

const COMMA: u8 = SEMICOLON | Class::Kept as u8;

// A blank or a tab.
const BLANK: u8 = COMMA | Class::Blank as u8 | Class::Unprinted as u8;

// The classes of each byte, in rows of sixteen.
// speed: both passes look up each byte of a source, most of them more than once.
#[rattlefmt::skip]
static CLASSES: [u8; 256] = [
    BREAK, HIDDEN, HIDDEN, HIDDEN, HIDDEN, HIDDEN, HIDDEN, HIDDEN, HIDDEN, BLANK, BREAK, HIDDEN, BREAK, BREAK, HIDDEN, HIDDEN,
    HIDDEN, HIDDEN, HIDDEN, HIDDEN, HIDDEN, HIDDEN, HIDDEN, HIDDEN, HIDDEN, HIDDEN, HIDDEN, HIDDEN, HIDDEN, HIDDEN, HIDDEN, HIDDEN,
    BLANK, MARK, OTHER, MARK, LETTER, MARK, MARK, OTHER, MARK, MARK, MARK, MARK, COMMA, MARK, LETTER, MARK,
    DIGIT, DIGIT, DIGIT, DIGIT, DIGIT, DIGIT, DIGIT, DIGIT, DIGIT, DIGIT, MARK, SEMICOLON, MARK, MARK, MARK, OTHER,
    MARK, LETTER, LETTER, LETTER, LETTER, LETTER, LETTER, LETTER, LETTER, LETTER, LETTER, LETTER, LETTER, LETTER, LETTER, LETTER,
    LETTER, LETTER, LETTER, LETTER, LETTER, LETTER, LETTER, LETTER, LETTER, LETTER, LETTER, OTHER, OTHER, OTHER, OTHER, OTHER,
    OTHER, LETTER, LETTER, LETTER, LETTER, LETTER, LETTER, LETTER, LETTER, LETTER, LETTER, LETTER, LETTER, LETTER, LETTER, LETTER,
    LETTER, LETTER, LETTER, LETTER, LETTER, LETTER, LETTER, LETTER, LETTER, LETTER, LETTER, OTHER, OTHER, OTHER, OTHER, HIDDEN,
    HIDDEN, HIDDEN, HIDDEN, HIDDEN, HIDDEN, HIDDEN, HIDDEN, HIDDEN, HIDDEN, HIDDEN, HIDDEN, HIDDEN, HIDDEN, HIDDEN, HIDDEN, HIDDEN,
    HIDDEN, HIDDEN, HIDDEN, HIDDEN, HIDDEN, HIDDEN, HIDDEN, HIDDEN, HIDDEN, HIDDEN, HIDDEN, HIDDEN, HIDDEN, HIDDEN, HIDDEN, HIDDEN,
    HIDDEN, HIDDEN, HIDDEN, HIDDEN, HIDDEN, HIDDEN, HIDDEN, HIDDEN, HIDDEN, HIDDEN, HIDDEN, HIDDEN, HIDDEN, HIDDEN, HIDDEN, HIDDEN,
    HIDDEN, HIDDEN, HIDDEN, HIDDEN, HIDDEN, HIDDEN, HIDDEN, HIDDEN, HIDDEN, HIDDEN, HIDDEN, HIDDEN, HIDDEN, HIDDEN, HIDDEN, HIDDEN,
    HIDDEN, HIDDEN, HIDDEN, HIDDEN, HIDDEN, HIDDEN, HIDDEN, HIDDEN, HIDDEN, HIDDEN, HIDDEN, HIDDEN, HIDDEN, HIDDEN, HIDDEN, HIDDEN,
    HIDDEN, HIDDEN, HIDDEN, HIDDEN, HIDDEN, HIDDEN, HIDDEN, HIDDEN, HIDDEN, HIDDEN, HIDDEN, HIDDEN, HIDDEN, HIDDEN, HIDDEN, HIDDEN,
    HIDDEN, HIDDEN, HIDDEN, HIDDEN, HIDDEN, HIDDEN, HIDDEN, HIDDEN, HIDDEN, HIDDEN, HIDDEN, HIDDEN, HIDDEN, HIDDEN, HIDDEN, HIDDEN,
    HIDDEN, HIDDEN, HIDDEN, HIDDEN, HIDDEN, HIDDEN, HIDDEN, HIDDEN, HIDDEN, HIDDEN, HIDDEN, HIDDEN, HIDDEN, HIDDEN, HIDDEN, HIDDEN,
];

// The bit of a class in the table.
fn bit_of(class: Class) -> u8
    ensures { result ≡ bit_of class }
{
    class as u8
}

/// Whether a byte is in a class.
#[tactic(auto, using(crate::proofs::TableOfClasses::each_listed))]
pub fn is_of(byte: u8, class: Class) -> bool
    ensures { result ≡ is_of class byte }
{
    CLASSES[usize::from(byte)] & bit_of(class) != 0
}

/// The number of characters of this class at the beginning of a text.
pub fn run_length(text: &[u8], class: Class) -> usize
    ensures run { result ≡ prefix_len (is_of class) text.now }
    ensures within { result ≤ length text.now }
{
    let mut count = 0;
    let mut rest = text;
    'characters: while let [byte, tail @ ..] = rest {
        if !is_of(*byte, class) {
            return count;
        }
        count += 1;
        rest = tail;
    }
    count
}
