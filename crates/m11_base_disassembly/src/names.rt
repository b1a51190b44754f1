//! The names of operations, by their codes, and how names are written.

ghost use Rattle.std.specs.Prelude.{◌≡◌, ◌≤◌, ◌+◌, ◌++◌, find, length};
ghost use Rattle.std.specs.Str.{bytes_eq};
ghost use Rattle.arrayvec.specs.ArrayVec.{array_vec_len};
ghost use Rattle.m11_base.specs.Instructions.{is_of, other_names, row_of};
ghost use Rattle.m11_base_disassembly.specs.Instructions.{named_row, row_named};
ghost use Rattle.m11_base_disassembly.specs.Names.{bare_name, is_written};
ghost use Rattle.m11_base_disassembly.specs.Texts.{name_text};

use crate::source::{Source, put};
use m11_base::{Name, Row, other_names, rows};

// The row of the list that a word matches, if there is one.
fn row(word: u16) -> Option<Row>
    ensures { result ≡ row_of word }
{
    let found = rows().iter().find(|row| word & row.mask == row.value);
    found.copied()
}

// The row of the list of other names that a word matches, if there is one.
fn other_row(word: u16) -> Option<Row>
    ensures { result ≡ find (is_of word) other_names }
{
    let found = other_names()
        .iter()
        .find(|row| word & row.mask == row.value);
    found.copied()
}

/// The row whose name is written for this word: its row in the instruction list, or in the list of other names if the name in that row is
/// blank. `None` if the word has no such row.
pub(crate) fn row_named(word: u16) -> Option<Row>
    ensures { result ≡ row_named word }
{
    match row(word) {
        Some(row) => {
            if row.name[0] == b' ' {
                other_row(word)
            } else {
                Some(row)
            }
        }
        None => None,
    }
}

/// Adds a name up to its first space.
pub(crate) fn put_bare_name(line: &mut Source, name: &[u8])
    requires { array_vec_len line.old + length name.now ≤ 48 }
    ensures text { line.new.items ≡ line.old.items ++ bare_name name.now }
    ensures room { array_vec_len line.new ≤ array_vec_len line.old + length name.now }
{
    match name {
        [character, others @ ..] if *character != b' ' => {
            put(line, &[*character]);
            put_bare_name(line, others);
        }
        _ => {}
    }
}

/// Adds a name of six characters, padded with spaces, and one more space.
pub(crate) fn put_name(line: &mut Source, name: &[u8; 6])
    requires { array_vec_len line.old ≤ 41 }
    ensures text { line.new.items ≡ line.old.items ++ name_text name.now }
    ensures room { array_vec_len line.new ≤ array_vec_len line.old + 7 }
{
    put(line, name);
    put(line, b" ");
}

/// Whether a name can be written: it doesn't begin with a space.
pub(crate) fn is_written(name: Name) -> bool
    ensures { result ≡ is_written name }
{
    name.characters()[0] != b' '
}

/// Whether a name up to its first space is this text.
pub(crate) fn is_bare(name: &[u8], text: &[u8]) -> bool
    ensures { result ≡ bytes_eq (bare_name name.now) text.now }
{
    match (name, text) {
        ([character, others @ ..], [first, more @ ..]) if *character != b' ' => {
            character == first && is_bare(others, more)
        }
        ([character, ..], _) if *character != b' ' => false,
        _ => text.is_empty(),
    }
}
