//! The lines of a listing. A source line is listed on one line with its text, and on further ones if it has more than three
//! items.

ghost use Rattle.std.specs.Prelude.{◌≡◌, ◌≤◌, ◌+◌, ◌++◌, length, take};
ghost use Rattle.arrayvec.specs.ArrayVec.{array_vec_len};
ghost use Rattle.m11_asm_listing.specs.Listing as spec;

use crate::columns::{add_blanks, add_left, add_printed, add_right};
use crate::items::{Item, add_items};
use itoa::Buffer;
use m11_base::octal6;
use m11_obj_print::{Line, add_bytes, ended};

// The first four of the flags, or all if there are fewer.
fn first_flags(flags: &[u8]) -> &[u8]
    ensures value { result.now ≡ take 4 flags.now }
    ensures few { length result.now ≤ 4 }
{
    if flags.len() > 4 { &flags[..4] } else { flags }
}

// Adds the columns of the flags and the line number.
fn add_head(line: &mut Line, flags: &[u8], number: u16)
    requires { array_vec_len line.old ≤ 100 }
    ensures items { line.new.items ≡ line.old.items ++ spec.head flags.now number }
    ensures size { array_vec_len line.new ≡ array_vec_len line.old + 10 }
{
    add_left(line, 4, first_flags(flags));
    add_right(line, 6, Buffer::new().format(number).as_bytes());
}

// Adds the columns of a location and its items.
fn add_location_and_items(line: &mut Line, location: u16, items: &[Item])
    requires { array_vec_len line.old ≤ 100 }
    ensures items { line.new.items ≡ line.old.items ++ spec.location_and_items location items.now }
    ensures size { array_vec_len line.new ≡ array_vec_len line.old + 31 }
{
    add_bytes(line, b" ");
    add_bytes(line, &octal6(location));
    add_items(line, items);
}

/// The first listed line of a source line: the first four of its flags, its number, a location, the first three of its items, and
/// its text of at most 132 characters. Blanks at the end are left out.
pub fn listed_line(flags: &[u8], number: u16, location: u16, items: &[Item], text: &[u8]) -> Line
    requires { length text.now ≤ 132 }
    ensures { result.items ≡ spec.listed_line flags.now number location items.now text.now }
{
    let mut line = Line::new();
    add_head(&mut line, flags, number);
    add_location_and_items(&mut line, location, items);
    add_bytes(&mut line, b" ");
    add_printed(&mut line, text);
    ended(line)
}

/// A further listed line of a source line: ten blanks, the location of the first of these items, and the first three items, or all if there
/// are fewer. Blanks at the end are left out.
pub fn further_line(location: u16, items: &[Item]) -> Line
    ensures { result.items ≡ spec.further_line location items.now }
{
    let mut line = Line::new();
    add_blanks(&mut line, 10);
    add_location_and_items(&mut line, location, items);
    ended(line)
}
