//! Buffers for printed lines. Blanks at the end of a line are removed.

ghost use Rattle.std.specs.Prelude.{◌≡◌, ◌≤◌, ◌<◌, ◌+◌, ◌++◌, length};
ghost use Rattle.arrayvec.specs.ArrayVec.{array_vec_len};
ghost use Rattle.m11_base.specs.Blanks.{without_last_blanks};
ghost use Rattle.m11_obj_print.specs.Lines.{line_of};

use arrayvec::ArrayVec;

/// A printed line. The longest is one of a listing: 42 columns, a text of 132 characters, and a line feed.
pub type Line = ArrayVec<u8, 175>;

/// Adds bytes to a line, which needs room for them.
pub fn add_bytes(line: &mut Line, bytes: &[u8])
    requires { array_vec_len line.old + length bytes.now ≤ 175 }
    ensures items { line.new.items ≡ line.old.items ++ bytes.now }
    ensures size { array_vec_len line.new ≡ array_vec_len line.old + length bytes.now }
{
    line.try_extend_from_slice(bytes).unwrap();
}

// Removes the blanks at the end.
fn trim(line: &mut Line)
    requires { array_vec_len line.old ≤ 175 }
    ensures bytes { line.new.items ≡ without_last_blanks line.old.items }
    ensures length { array_vec_len line.new ≤ array_vec_len line.old }
{
    'blanks: loop {
        match line.pop() {
            Some(byte) => {
                if byte != b' ' {
                    line.push(byte);
                    return;
                }
            }
            None => return,
        }
    }
}

/// The line of a text: without the blanks at its end, and with a line feed. Needs a text of at most 174 bytes.
pub fn ended(text: Line) -> Line
    requires { array_vec_len text < 175 }
    ensures { result.items ≡ line_of text.items }
{
    let mut line = text;
    trim(&mut line);
    line.push(b'\n');
    line
}
