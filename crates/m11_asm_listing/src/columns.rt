//! Texts aligned in columns, and the printed texts of source lines.

ghost use Rattle.std.specs.Prelude.{◌≡◌, ◌≤◌, ◌+◌, ◌++◌, length};
ghost use Rattle.arrayvec.specs.ArrayVec.{array_vec_len};
ghost use Rattle.m11_asm_listing.specs.Columns as spec;

use m11_obj_print::{Line, add_bytes};

/// Adds this many blanks.
pub(crate) fn add_blanks(line: &mut Line, count: usize)
    requires { array_vec_len line.old + count ≤ 175 }
    ensures items { line.new.items ≡ line.old.items ++ spec.blanks count }
    ensures size { array_vec_len line.new ≡ array_vec_len line.old + count }
{
    'blanks: for _ in 0..count {
        line.push(b' ');
    }
}

/// Adds a text, aligned to the left in a column of this width.
pub(crate) fn add_left(line: &mut Line, width: usize, text: &[u8])
    requires fits { length text.now ≤ width }
    requires room { array_vec_len line.old + width ≤ 175 }
    ensures items { line.new.items ≡ line.old.items ++ spec.at_left width text.now }
    ensures size { array_vec_len line.new ≡ array_vec_len line.old + width }
{
    add_bytes(line, text);
    add_blanks(line, width - text.len());
}

/// Adds a text, aligned to the right in a column of this width.
pub(crate) fn add_right(line: &mut Line, width: usize, text: &[u8])
    requires fits { length text.now ≤ width }
    requires room { array_vec_len line.old + width ≤ 175 }
    ensures items { line.new.items ≡ line.old.items ++ spec.at_right width text.now }
    ensures size { array_vec_len line.new ≡ array_vec_len line.old + width }
{
    add_blanks(line, width - text.len());
    add_bytes(line, text);
}

// A byte as printed: `?` for one without a printed form.
fn shown(byte: u8) -> u8
    ensures { result ≡ spec.shown byte }
{
    match byte {
        b' '..=b'~' | b'\t' => byte,
        _ => b'?',
    }
}

/// Adds the text of a source line. A byte without a printed form is shown as `?`.
pub(crate) fn add_printed(line: &mut Line, text: &[u8])
    requires { array_vec_len line.old + length text.now ≤ 175 }
    ensures items { line.new.items ≡ line.old.items ++ spec.printed text.now }
    ensures size { array_vec_len line.new ≡ array_vec_len line.old + length text.now }
{
    for byte in text {
        line.push(shown(*byte));
    }
}
