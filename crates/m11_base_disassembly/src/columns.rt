//! The columns of a line, counted from 0, and the name and the value in them.

ghost use Rattle.std.specs.Prelude.{◌≡◌, ◌≤◌, IfErr};
ghost use Rattle.m11_base_disassembly.specs.Columns as spec;
ghost use Rattle.m11_base_disassembly.specs.declared.map_fault.MapFault.TheVariants.{BadMap};

use crate::map_fault::MapFault;
use crate::symbols::{Scope, Symbol};
use m11_base::{Name, read_octal};

/// The character in a column of a line; a blank after the line's end.
pub(crate) fn column(line: &[u8], index: usize) -> u8
    ensures { result ≡ spec.column line.now index }
{
    if index < line.len() {
        line[index]
    } else {
        b' '
    }
}

/// The characters in the three columns that begin with `first`.
pub(crate) fn three_at(line: &[u8], first: usize) -> [u8; 3]
    requires { first ≤ 100 }
    ensures { result ≡ spec.three_at line.now first }
{
    [
        column(line, first),
        column(line, first + 1),
        column(line, first + 2),
    ]
}

/// The characters in the six columns that begin with `first`.
pub(crate) fn six_at(line: &[u8], first: usize) -> [u8; 6]
    requires { first ≤ 100 }
    ensures { result ≡ spec.six_at line.now first }
{
    [
        column(line, first),
        column(line, first + 1),
        column(line, first + 2),
        column(line, first + 3),
        column(line, first + 4),
        column(line, first + 5),
    ]
}

/// The name in the six columns that begin with `first`, if each character has a RADIX-50 code.
pub(crate) fn name_at(line: &[u8], first: usize) -> Option<Name>
    requires { first ≤ 100 }
    ensures { result ≡ spec.name_at line.now first }
{
    Name::pack(&six_at(line, first))
}

/// The number that the characters in the six columns that begin with `first` spell in octal. Error: `BadMap`, if a character isn't an octal
/// digit or the number exceeds octal 177777.
pub(crate) fn number_at(line: &[u8], first: usize) -> Result<u16, MapFault>
    requires { first ≤ 100 }
    ensures { result ≡ spec.number_at line.now first }
{
    match read_octal(&six_at(line, first)) {
        Ok(number) => Ok(number),
        Err(_) => Err(MapFault::BadMap),
    }
}

/// The symbol with this name and this value, in no section that is known. Error: `BadMap`, if there is no name or the value is an error.
pub(crate) fn symbol_with(
    name: Option<Name>,
    value: Result<u16, MapFault>,
) -> Result<Option<Symbol>, MapFault>
    ensures symbol { result ≡ spec.symbol_with name value }
    ensures bad { IfErr result (λ fault. fault ≡ BadMap) }
{
    match (name, value) {
        (Some(name), Ok(value)) => Ok(Some(Symbol {
            name,
            value,
            scope: Scope::Unknown,
        })),
        _ => Err(MapFault::BadMap),
    }
}
