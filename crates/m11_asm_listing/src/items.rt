//! The bytes and words that a listed line emits or assigns, each with a mark for its relocation.

ghost use Rattle.std.specs.Prelude.{◌≡◌, ◌≤◌, ◌+◌, ◌++◌, Some};
ghost use Rattle.std.specs.List.{slice_get};
ghost use Rattle.arrayvec.specs.ArrayVec.{array_vec_len};
ghost use Rattle.m11_asm_listing.specs.Items as spec;

use m11_base::octal6;
use m11_obj_print::{Line, add_bytes};

/// What the value of an item is relative to.
#[derive(Clone, Copy, PartialEq, Eq)]
pub enum Mark {
    /// Nothing: the value is absolute.
    Unmarked,
    /// The base of a section.
    OfSection,
    /// A global symbol, which the linker resolves.
    OfObject,
    /// The registers: the value is a register's number.
    OfRegister,
}

/// A byte or a word that a line emits, or the word that it assigns.
#[derive(Clone, Copy, PartialEq, Eq)]
pub enum Item {
    /// A byte and its mark.
    InByte(u8, Mark),
    /// A word and its mark.
    InWord(u16, Mark),
}

impl Mark {
    // The printed character of the mark.
    fn character(self) -> u8
        ensures { result ≡ spec.mark_character self }
    {
        match self {
            Mark::Unmarked => b' ',
            Mark::OfSection => b'\'',
            Mark::OfObject => b'G',
            Mark::OfRegister => b'%',
        }
    }
}

impl Item {
    // The size of the item, in bytes.
    fn size(self) -> u16
        ensures { result ≡ spec.item_size self }
    {
        match self {
            Item::InByte(_, _) => 1,
            Item::InWord(_, _) => 2,
        }
    }

    // The item in a column of 8 characters.
    fn column(self) -> [u8; 8]
        ensures { result ≡ spec.item_column (Some self) }
    {
        match self {
            Item::InByte(byte, mark) => {
                let [_, _, _, a, b, c] = octal6(u16::from(byte));
                [b' ', b' ', b' ', b' ', a, b, c, mark.character()]
            }
            Item::InWord(word, mark) => {
                let [a, b, c, d, e, f] = octal6(word);
                [b' ', a, b, c, d, e, f, mark.character()]
            }
        }
    }
}

// The column of the item at this index, or blanks if there is none.
fn column_at(items: &[Item], index: usize) -> [u8; 8]
    ensures { result ≡ spec.item_column (slice_get items.now index) }
{
    match items.get(index) {
        Some(item) => item.column(),
        None => [b' '; 8],
    }
}

/// Adds the first three items, each in its column. A missing item leaves its column blank.
pub(crate) fn add_items(line: &mut Line, items: &[Item])
    requires { array_vec_len line.old ≤ 151 }
    ensures items { line.new.items ≡ line.old.items ++ spec.items_column items.now }
    ensures size { array_vec_len line.new ≡ array_vec_len line.old + 24 }
{
    add_bytes(line, &column_at(items, 0));
    add_bytes(line, &column_at(items, 1));
    add_bytes(line, &column_at(items, 2));
}

/// The location after items that begin at this location, modulo 65536.
pub fn location_after(location: u16, items: &[Item]) -> u16
    ensures { result ≡ spec.location_after location items.now }
{
    let mut after = location;
    for item in items {
        after = after.wrapping_add(item.size());
    }
    after
}
