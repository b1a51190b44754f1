//! The bytes of an object's text as instructions, with its relocations beside them.

ghost use Rattle.std.specs.Prelude.{◌≡◌, ◌≤◌, ◌<◌, ◌++◌, drop, length, take, IfOk, OnOk};
ghost use Rattle.std.specs.List.{flat_map};
ghost use Rattle.m11_dump.specs.Beside as spec;
ghost use Rattle.m11_dump.specs.Instructions.{over_from};
ghost use Rattle.m11_dump.specs.References.{references_at};
ghost use Rattle.m11_dump.specs.Relocations as relocations;

use crate::instructions::put_line;
use crate::octets::location_after;
use crate::references::references_at;
use crate::relocations::{names_byte, relocation_line, stores};
use m11_base_disassembly::Symbols;
use m11_obj::Relocation;
use std::alloc::{AllocError, Global};

/// Adds the lines of the relocations of the text at this address. Fails if memory is refused.
pub(crate) fn put_places(
    text: &mut Vec<u8>,
    address: u16,
    places: &[Relocation],
) -> Result<(), AllocError>
    ensures { OnOk result (text.new.items ≡ text.old.items ++ flat_map (relocations.relocation_line address) places.now) }
{
    'places: for place in places {
        text.extend_from_slice(&relocation_line(address, place))?;
    }
    Ok(())
}

// Whether a relocation stores a value that begins at one of the first `count` bytes of its text.
fn names_any(count: usize, place: &Relocation) -> bool
    requires { count ≤ 65536 }
    ensures { result ≡ spec.names_any count place.now }
{
    let displacement = usize::from(place.displacement);
    stores(&place.target) && 4 <= displacement && displacement < count + 4
}

// Adds the line of a relocation if it stores a value that begins at the byte with this index.
fn put_place_at(
    text: &mut Vec<u8>,
    address: u16,
    index: usize,
    place: &Relocation,
) -> Result<(), AllocError>
    requires { index < 65536 }
    ensures { OnOk result (text.new.items ≡ text.old.items ++ spec.place_at address index place.now) }
{
    if names_byte(index, place) {
        text.extend_from_slice(&relocation_line(address, place))
    } else {
        Ok(())
    }
}

// Adds the lines of the relocations whose values begin at the byte with this index.
fn put_places_at(
    text: &mut Vec<u8>,
    address: u16,
    index: usize,
    places: &[Relocation],
) -> Result<(), AllocError>
    requires { index < 65536 }
    ensures { OnOk result (text.new.items ≡ text.old.items ++ spec.places_at address places.now index) }
{
    'places: for place in places {
        put_place_at(text, address, index, place)?;
    }
    Ok(())
}

// Adds the line of a relocation unless it stores a value that begins at one of the first `count` bytes.
fn put_other_place(
    text: &mut Vec<u8>,
    address: u16,
    count: usize,
    place: &Relocation,
) -> Result<(), AllocError>
    requires { count ≤ 65536 }
    ensures { OnOk result (text.new.items ≡ text.old.items ++ spec.other_place address count place.now) }
{
    if names_any(count, place) {
        Ok(())
    } else {
        text.extend_from_slice(&relocation_line(address, place))
    }
}

/// Adds the lines of those relocations of the text at this address that store no value, or a value that begins at none of the text's
/// `count` bytes. Fails if memory is refused.
pub(crate) fn put_other_places(
    text: &mut Vec<u8>,
    address: u16,
    count: usize,
    places: &[Relocation],
) -> Result<(), AllocError>
    requires { count ≤ 65536 }
    ensures { OnOk result (text.new.items ≡ text.old.items ++ spec.other_places address count places.now) }
{
    'places: for place in places {
        put_other_place(text, address, count, place)?;
    }
    Ok(())
}

// Adds the line that begins with the first of `bytes`, which lies at this location and has this index in its text, unless the previous line
// shows that byte. `shown` is how many of `bytes` the previous line shows. Returns how many of the bytes after the first one are now shown.
fn put_line_at(
    alloc: Global,
    text: &mut Vec<u8>,
    places: &[Relocation],
    index: usize,
    location: u16,
    shown: usize,
    bytes: &[u8],
) -> Result<usize, AllocError>
    requires some { 0 < length bytes.now }
    requires few { index < 65536 }
    ensures text { OnOk result (text.new.items ≡ text.old.items
        ++ spec.line_at (references_at places.now index) location shown bytes.now) }
    ensures left { IfOk result (λ left. left ≡ spec.left_at (references_at places.now index) location shown bytes.now) }
{
    if shown == 0 {
        let references = references_at(places, index);
        let size = put_line(text, &Symbols::none(alloc), &references, location, bytes)?;
        Ok(size - 1)
    } else {
        Ok(shown - 1)
    }
}

/// Adds the lines of a text at this address, each followed by the relocations that apply to its bytes. The text's own bytes are the
/// first `own` of `bytes`, at most 65,536, of which the first `shown` were shown before; the others belong to the next text.
/// Returns how many of the others the last line shows. Fails if memory is refused.
pub(crate) fn put_lines_beside(
    alloc: Global,
    text: &mut Vec<u8>,
    address: u16,
    bytes: &[u8],
    own: usize,
    shown: usize,
    places: &[Relocation],
) -> Result<usize, AllocError>
    requires there { own ≤ length bytes.now }
    requires few { own ≤ 65536 }
    ensures text { OnOk result (text.new.items ≡ text.old.items
        ++ spec.lines_beside (references_at places.now) (spec.places_at address places.now) address 0 shown
        (take own bytes.now) (drop own bytes.now)) }
    ensures over { IfOk result (λ over. over ≡ over_from (references_at places.now) address 0 shown (take own bytes.now) (drop own bytes.now)) }
{
    let mut left = shown;
    'bytes: for index in 0..own {
        left = put_line_at(
            alloc,
            text,
            places,
            index,
            location_after(address, index),
            left,
            &bytes[index..],
        )?;
        put_places_at(text, address, index, places)?;
    }
    Ok(left)
}
