//! A line whose end hasn't been read.

ghost use Rattle.std.specs.Prelude.{◌≡◌, ◌≤◌, ◌∷◌, [], false, length, take};
ghost use Rattle.std.specs.List.{AllByRecursion, prefix_len};
ghost use Rattle.std.specs.Bool.{IsTrue};
ghost use Rattle.m11_scan.specs.Classes.{is_plain};
ghost use Rattle.m11_scan.specs.Lines.{as_read};
ghost use Rattle.m11_scan.specs.OpenLine.{is_unbegun, nothing_open, with_byte, with_plain, with_return};
ghost use Rattle.m11_scan.specs.Sources.{TookOf};

use crate::classes::{Class, is_of, run_length};
use crate::line::Line;
use std::marker::Model;

/// The characters of a line so far, and whether a CR has come after them. This CR isn't among them, since it belongs to the end
/// of the line if a line feed follows.
#[derive(Drop)]
pub(crate) struct OpenLine {
    kept: Line,
    has_return: bool,
}

impl Model for OpenLine {
    ghost use Rattle.m11_scan.specs.OpenLine.{OpenLine};

    ghost Value = { OpenLine };

    ghost view = { λ line. record { kept = line.kept; has_return = line.has_return } };
}

/// The number of bytes read from a slice, and whether the last of them is a line feed.
#[derive(Clone, Copy)]
pub(crate) struct ByteRun {
    pub(crate) count: usize,
    pub(crate) is_closed: bool,
}

impl OpenLine {
    /// An empty line.
    pub(crate) fn new() -> OpenLine
        ensures { result ≡ nothing_open }
    {
        OpenLine {
            kept: Line::new(),
            has_return: false,
        }
    }

    /// Whether nothing but NULs has been read, not even a CR.
    pub(crate) fn is_unbegun(&self) -> bool
        ensures { result ≡ is_unbegun self.now }
    {
        !self.has_return && self.kept.text().is_empty()
    }

    /// Empties the line.
    pub(crate) fn clear(&mut self)
        ensures { self.new ≡ nothing_open }
    {
        self.kept.clear();
        self.has_return = false;
    }

    /// The characters so far, without a trailing CR.
    pub(crate) fn line(&self) -> &Line
        ensures { result.now ≡ self.now.kept }
    {
        &self.kept
    }

    /// Makes the trailing CR, if there is one, a character of the line.
    pub(crate) fn append_return(&mut self)
        ensures { self.new ≡ record { kept = with_return self.old; has_return = false } }
    {
        if self.has_return {
            self.kept.push_all(b"\r");
            self.has_return = false;
        }
    }

    /// Adds a byte other than a line feed, and before it the CR that was held back, if there is one. A NUL changes nothing, a CR is
    /// held back in its turn, and a form feed becomes a blank.
    // speed: not inlined, so that a line of plain bytes pays for no stack frame.
    #[inline(never)]
    pub(crate) fn push(&mut self, byte: u8)
        ensures { self.new ≡ with_byte self.old byte }
    {
        match byte {
            0 => {}
            b'\r' => {
                self.append_return();
                self.has_return = true;
            }
            _ => {
                self.append_return();
                self.kept.push_all(&[character(byte)]);
            }
        }
    }

    // Adds the CR that was held back, if there is one, and then the first `count` of these bytes unchanged. Adds nothing if `count`
    // is 0.
    fn push_plain(&mut self, bytes: &[u8], count: usize)
        requires { count ≤ length bytes.now }
        ensures { self.new ≡ with_plain self.old (take count bytes.now) }
    {
        if count == 0 {
            return;
        }
        self.append_return();
        self.kept.push_first(bytes, count);
    }

    /// Adds the bytes before the first line feed, or all of them if there is none. The line feed is counted as read but not added.
    pub(crate) fn take(&mut self, bytes: &[u8]) -> ByteRun
        ensures { TookOf bytes.now self.old self.new result.count result.is_closed }
    {
        let mut rest = bytes;
        'runs: loop {
            let count = plain_length(rest);
            self.push_plain(rest, count);
            let Some((byte, more)) = rest[count..].split_first() else {
                return ByteRun {
                    count: bytes.len(),
                    is_closed: false,
                };
            };
            if *byte == b'\n' {
                return ByteRun {
                    count: bytes.len() - more.len(),
                    is_closed: true,
                };
            }
            self.push(*byte);
            rest = more;
        }
    }
}

// A byte as a character of the line: a form feed becomes a blank.
fn character(byte: u8) -> u8
    ensures { result ≡ as_read byte }
{
    if byte == 0x0c { b' ' } else { byte }
}

// The number of bytes before the first NUL, line feed, form feed or CR.
fn plain_length(bytes: &[u8]) -> usize
    ensures within { result ≤ length bytes.now }
    ensures plain { AllByRecursion (λ byte. IsTrue (is_plain byte)) (take result bytes.now) }
{
    plain_run(bytes)
}

// The number of plain bytes at the beginning.
// speed: bytes are tested eight at a time, since most are plain.
fn plain_run(bytes: &[u8]) -> usize
    ensures run { result ≡ prefix_len is_plain bytes.now }
    ensures within { result ≤ length bytes.now }
{
    let mut rest = bytes;
    'eights: while let [
        first,
        second,
        third,
        fourth,
        fifth,
        sixth,
        seventh,
        eighth,
        tail @ ..,
    ] = rest
    {
        let plain = plain_of_four(*first, *second, *third, *fourth);
        if plain < 4 {
            return bytes.len() - rest.len() + plain;
        }
        let plain_later = plain_of_four(*fifth, *sixth, *seventh, *eighth);
        if plain_later < 4 {
            return bytes.len() - rest.len() + 4 + plain_later;
        }
        rest = tail;
    }
    bytes.len() - rest.len() + run_length(rest, Class::Plain)
}

// The number of these four bytes before the first one that isn't plain, or 4.
fn plain_of_four(first: u8, second: u8, third: u8, fourth: u8) -> usize
    ensures { result ≡ prefix_len is_plain (first ∷ second ∷ third ∷ fourth ∷ []) }
{
    if !is_of(first, Class::Plain) {
        0
    } else if !is_of(second, Class::Plain) {
        1
    } else if !is_of(third, Class::Plain) {
        2
    } else if !is_of(fourth, Class::Plain) {
        3
    } else {
        4
    }
}
