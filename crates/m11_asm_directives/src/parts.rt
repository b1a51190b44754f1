//! The parts of a text. (MACRO-11 Language Reference Manual, ".ASCII directive".)

ghost use Rattle.std.specs.Prelude.{◌≡◌, ◌≤◌, ◌*◌};
ghost use Rattle.m11_asm_rules.specs.Strings as spec;
ghost use Rattle.m11_asm_directives.specs.Seen.{parts_model};

use arrayvec::ArrayVec;
use m11_scan::Line;
use m11_scan_statements::{Part, PartKind, next_part};

/// The most parts that a line of 132 characters may have: each part has at least two characters, except for the last one, which may lack
/// its closing delimiter.
pub const PART_LIMIT: usize = 66;

/// The parts of a text, one after the other.
#[derive(Drop)]
pub struct Parts {
    /// The parts, in order.
    pub list: ArrayVec<Part, PART_LIMIT>,
    /// The column after the last part, or, without a part, the column where the text should begin. What follows in the line is left over.
    pub end: u8,
}

impl Parts {
    /// No parts, with room for those of a text. One value is reused for all lines.
    pub fn new() -> Parts {
        Parts {
            list: ArrayVec::new(),
            end: 0,
        }
    }

    /// Reads the parts of a text that begins at a column of a line, in place of the parts read before.
    pub fn read(&mut self, line: &Line, start: u8)
        ensures { parts_model self.new ≡ spec.parts_at line.now.text start }
    {
        self.list.clear();
        let mut is_first = true;
        let mut column = start;
        let mut left = line.text().len() + 1;
        'parts: while left > 0 {
            let Some(part) = next_part(line, column, is_first) else {
                self.end = column;
                return;
            };
            self.list.push(part);
            if !part.is_closed {
                self.end = part.end;
                return;
            }
            column = part.end;
            is_first = false;
            left -= 1;
        }
        self.end = column;
    }
}

// The size of a part in bytes: one for each of its characters, or one for an expression. At most 255.
pub(crate) fn part_size(line: &Line, part: Part) -> u16
    ensures size { result ≡ spec.part_size (spec.content_in line.now.text part) }
    ensures most { result ≤ 255 }
{
    match part.kind {
        PartKind::Text => part.inside.text(line).len() as u16,
        PartKind::Expression => 1,
    }
}

// The size of the parts of a text in bytes: at most 16,830.
pub(crate) fn parts_size(line: &Line, parts: &Parts) -> u16
    ensures size { result ≡ spec.parts_size (spec.contents_of line.now.text parts.now.list.items) }
    ensures most { result ≤ 255 * 66 }
{
    let mut size = 0;
    let mut rest = parts.list.as_slice();
    'parts: while let [part, others @ ..] = rest {
        size += part_size(line, *part);
        rest = others;
    }
    size
}
