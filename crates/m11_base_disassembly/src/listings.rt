//! The symbols of a listing.

ghost use Rattle.std.specs.Prelude.{◌≡◌, IfErr};
ghost use Rattle.m11_base_disassembly.specs.Lines.{lines_of};
ghost use Rattle.m11_base_disassembly.specs.Listings as spec;
ghost use Rattle.m11_base_disassembly.specs.declared.map_fault.MapFault.TheVariants.{BadMap};

use crate::columns::{column, name_at, number_at, six_at, symbol_with, three_at};
use crate::lines::first_line;
use crate::map_fault::MapFault;
use crate::symbols::Symbol;

/// The base of the section that a line describes: `base` for a relocatable section, 0 for an absolute one. Error: `BadMap`, if the line says
/// neither REL nor ABS.
pub(crate) fn own_base(base: u16, line: &[u8]) -> Result<u16, MapFault>
    ensures { result ≡ spec.own_base base line.now }
{
    let place = three_at(line, 27);
    if place == *b"REL" {
        Ok(base)
    } else if place == *b"ABS" {
        Ok(0)
    } else {
        Err(MapFault::BadMap)
    }
}

// The address `size` bytes after a base, with the size rounded up to even, modulo octal 200000.
fn past(base: u16, size: u16) -> u16
    ensures { result ≡ spec.past base size }
{
    ((u32::from(base) + (u32::from(size) + u32::from(size % 2))) % 0o200000) as u16
}

/// Where the next relocatable section begins: at `base`, or past the section that the line describes if that one is relocatable and so
/// begins at `base`. Error: `BadMap`, if the line says neither REL nor ABS, or if it says REL and the size isn't an octal word.
pub(crate) fn next_base(base: u16, line: &[u8]) -> Result<u16, MapFault>
    ensures { result ≡ spec.next_base base line.now }
{
    let place = three_at(line, 27);
    if place == *b"REL" {
        match number_at(line, 7) {
            Ok(size) => Ok(past(base, size)),
            Err(fault) => Err(fault),
        }
    } else if place == *b"ABS" {
        Ok(base)
    } else {
        Err(MapFault::BadMap)
    }
}

// The base of the section with this number, if relocatable sections begin at `bottom`. Error: `BadMap`, if none of the lines of sections
// has the number, or if that line or one before it doesn't describe a section.
fn base_of(bottom: u16, number: &[u8; 3], sections: &[u8]) -> Result<u16, MapFault>
    ensures { result ≡ spec.base_of bottom number.now (lines_of sections.now) }
{
    let mut base = bottom;
    let mut rest = sections;
    'lines: while !rest.is_empty() {
        let (line, others) = first_line(rest);
        if three_at(line, 14) == *number {
            return own_base(base, line);
        }
        match next_base(base, line) {
            Ok(next) => base = next,
            Err(fault) => return Err(fault),
        }
        rest = others;
    }
    Err(MapFault::BadMap)
}

// The address to which the value of a name is added: the base of the name's section if the line marks the value with `R`, and 0 if it has
// no mark. Error: `BadMap`, if there is another mark or the section has no base.
fn counted_from(bottom: u16, sections: &[u8], line: &[u8]) -> Result<u16, MapFault>
    ensures { result ≡ spec.counted_from bottom (lines_of sections.now) line.now }
{
    match column(line, 16) {
        b'R' => base_of(bottom, &three_at(line, 19), sections),
        b' ' => Ok(0),
        _ => Err(MapFault::BadMap),
    }
}

// The address of the name in a line, modulo octal 200000. Error: `BadMap`, if the mark of its value isn't `R` or a blank, its section has
// no base, or its value isn't an octal word.
fn address_of(bottom: u16, sections: &[u8], line: &[u8]) -> Result<u16, MapFault>
    ensures { result ≡ spec.address_of bottom (lines_of sections.now) line.now }
{
    match (counted_from(bottom, sections, line), number_at(line, 9)) {
        (Ok(base), Ok(location)) => Ok(base.wrapping_add(location)),
        _ => Err(MapFault::BadMap),
    }
}

/// The symbol in a line of a symbol table, if relocatable sections begin at `bottom`; `None` if its value is unknown or it is a register.
/// Error: `BadMap`, if the line doesn't have the form of such a line, or the symbol's section has no base.
pub(crate) fn listed_symbol(
    bottom: u16,
    sections: &[u8],
    line: &[u8],
) -> Result<Option<Symbol>, MapFault>
    ensures symbol { result ≡ spec.listed_symbol bottom (lines_of sections.now) line.now }
    ensures bad { IfErr result (λ fault. fault ≡ BadMap) }
{
    if six_at(line, 9) == *b"******" || column(line, 16) == b'%' {
        Ok(None)
    } else {
        symbol_with(name_at(line, 0), address_of(bottom, sections, line))
    }
}
