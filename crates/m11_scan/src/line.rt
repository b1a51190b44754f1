//! A line of a source. (MACRO-11 Language Reference Manual, "Source program format".)

ghost use Rattle.std.specs.Prelude.{◌≡◌, ◌≤◌, ◌+◌, ◌++◌, length, take};
ghost use Rattle.m11_scan.specs.Line.{line_limit, line_of, no_line, with_bytes};

use std::marker::Model;

/// The most characters of a line that are stored.
pub const LINE_LIMIT: usize = 132;

// A line with at most this many characters is short.
const SHORT: usize = 48;

/// The first 132 characters of a line, and whether it has more.
#[derive(Drop)]
pub struct Line {
    // The first `length` bytes are the line's characters. The others have no meaning and needn't be cleared.
    bytes: [u8; LINE_LIMIT],
    length: usize,
    is_over_long: bool,
}

impl Model for Line {
    ghost use Rattle.std.specs.Prelude.{◌≤◌, take};
    ghost use Rattle.m11_scan.specs.Line.{SourceLine};

    ghost Value = { SourceLine };

    ghost view = { λ line. record { text = take line.length line.bytes; is_over_long = line.is_over_long } };

    ghost invariant = { λ line. line.length ≤ 132 };
}

impl Line {
    /// An empty line.
    pub fn new() -> Line
        ensures { result ≡ no_line }
    {
        Line {
            bytes: [0; LINE_LIMIT],
            length: 0,
            is_over_long: false,
        }
    }

    /// A line of these characters. Those past the first 132 are dropped, and the line is then marked as over-long.
    pub fn from_bytes(bytes: &[u8]) -> Line
        ensures { result ≡ line_of bytes.now }
    {
        let mut line = Line::new();
        line.push_all(bytes);
        line
    }

    /// Empties the line.
    pub fn clear(&mut self)
        ensures { self.new ≡ no_line }
    {
        self.length = 0;
        self.is_over_long = false;
    }

    /// Copies another line into this one.
    pub fn copy_from(&mut self, other: &Line)
        ensures { self.new ≡ other.now }
    {
        self.length = other.length;
        self.is_over_long = other.is_over_long;
        // speed: most lines are short, and a copy of so few bytes needs no call
        if other.length <= SHORT {
            self.bytes[..SHORT].copy_from_slice(&other.bytes[..SHORT]);
        } else {
            self.bytes = other.bytes;
        }
    }

    /// Adds characters. Those past the limit of 132 are dropped, and the line is then marked as over-long.
    // speed: not inlined, since `push_first` copies most lines, which are short, by itself.
    #[inline(never)]
    pub fn push_all(&mut self, bytes: &[u8])
        ensures { self.new ≡ with_bytes self.old bytes.now }
    {
        let room = LINE_LIMIT - self.text().len();
        if bytes.len() > room {
            self.push_within(&bytes[..room]);
            self.is_over_long = true;
        } else {
            self.push_within(bytes);
        }
    }

    /// Adds the first `count` characters of a text. Those past the limit of 132 are dropped, and the line is then marked as
    /// over-long.
    pub(crate) fn push_first(&mut self, text: &[u8], count: usize)
        requires { count ≤ length text.now }
        ensures { self.new ≡ with_bytes self.old (take count text.now) }
    {
        // speed: usually this is a whole short line, whose copy of fixed length needs no call; the bytes of the text after the
        // first `count` may be copied too, since bytes past a line's length have no meaning
        if self.length == 0 && count <= SHORT && text.len() >= SHORT {
            self.bytes[..SHORT].copy_from_slice(&text[..SHORT]);
            self.length = count;
        } else {
            self.push_all(&text[..count]);
        }
    }

    // Adds characters that fit within the limit.
    fn push_within(&mut self, bytes: &[u8])
        requires { length self.old.text + length bytes.now ≤ line_limit }
        ensures { self.new ≡ record { text = self.old.text ++ bytes.now; is_over_long = self.old.is_over_long } }
    {
        let end = self.length + bytes.len();
        self.bytes[self.length..end].copy_from_slice(bytes);
        self.length = end;
    }

    /// The stored characters, at most 132.
    pub fn text(&self) -> &[u8]
        ensures text { result.now ≡ self.now.text }
        ensures limited { length result.now ≤ line_limit }
    {
        &self.bytes[..self.length]
    }

    /// The column after the last character.
    pub fn end(&self) -> u8
        ensures { result ≡ length self.now.text }
    {
        self.length as u8
    }

    /// Whether characters past the limit were dropped.
    pub fn is_over_long(&self) -> bool
        ensures { result ≡ self.now.is_over_long }
    {
        self.is_over_long
    }
}
