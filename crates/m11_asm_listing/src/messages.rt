//! Messages: a line for each flagged line, and a line with the number of flagged lines.

ghost use Rattle.std.specs.Prelude.{◌≡◌, ◌≤◌, length};
ghost use Rattle.m11_asm_listing.specs.Messages as spec;

use crate::columns::add_printed;
use itoa::Buffer;
use m11_obj_print::{Line, add_bytes, ended};

/// The message about a flagged line: its flags (at most 14), its number, and its text of at most 132 characters. Blanks at the end are left
/// out.
pub fn message_line(flags: &[u8], number: u16, text: &[u8]) -> Line
    requires few { length flags.now ≤ 14 }
    requires short { length text.now ≤ 132 }
    ensures { result.items ≡ spec.message_line flags.now number text.now }
{
    let mut line = Line::new();
    add_bytes(&mut line, flags);
    add_bytes(&mut line, b" ");
    add_bytes(&mut line, Buffer::new().format(number).as_bytes());
    add_bytes(&mut line, b": ");
    add_printed(&mut line, text);
    ended(line)
}

/// The last line of a listing or of messages: the number of flagged lines.
pub fn count_line(count: u32) -> Line
    ensures { result.items ≡ spec.count_line count }
{
    let mut line = Line::new();
    add_bytes(&mut line, b"ERRORS DETECTED: ");
    add_bytes(&mut line, Buffer::new().format(count).as_bytes());
    add_bytes(&mut line, b"\n");
    line
}
