//! Bytes in octal: those of an object's text, or of a tape's block at an odd address, three digits each, eight to a line.

ghost use Rattle.std.specs.Prelude.{◌≡◌, ◌≤◌, ◌<◌, ◌++◌, ◌∷◌, [], length, OnOk};
ghost use Rattle.m11_base.specs.Octal.{octal_value};
ghost use Rattle.m11_dump.specs.Octets as spec;

use m11_base::octal6;
use std::alloc::AllocError;

/// A byte as three octal digits in ASCII.
pub(crate) fn octal3(byte: u8) -> [u8; 3]
    ensures text { result ≡ spec.octal3 byte }
    ensures spells { octal_value result ≡ byte }
{
    [b'0' + byte / 64 % 8, b'0' + byte / 8 % 8, b'0' + byte % 8]
}

/// The location `index` bytes after an address; octal 177777 is followed by 0.
pub(crate) fn location_after(address: u16, index: usize) -> u16
    requires { index < 65536 }
    ensures { result ≡ spec.location_after address index }
{
    address.wrapping_add(index as u16)
}

// Begins a line with the location of its first byte, if the byte at this index is the first of a line.
fn put_line_start(text: &mut Vec<u8>, address: u16, index: usize) -> Result<(), AllocError>
    requires { index < 65536 }
    ensures { OnOk result (text.new.items ≡ text.old.items ++ spec.line_start address index) }
{
    if index % 8 != 0 {
        return Ok(());
    }
    text.extend_from_slice(b"\n  ")?;
    text.extend_from_slice(&octal6(location_after(address, index)))
}

fn put_octet(text: &mut Vec<u8>, address: u16, index: usize, byte: u8) -> Result<(), AllocError>
    requires { index < 65536 }
    ensures { OnOk result (text.new.items ≡ text.old.items ++ spec.octet address index byte) }
{
    put_line_start(text, address, index)?;
    text.push(b' ')?;
    text.extend_from_slice(&octal3(byte))
}

/// Adds at most 65,536 bytes in octal, eight to a line; the first byte lies at this address. Fails if memory is refused.
pub(crate) fn put_octets(text: &mut Vec<u8>, address: u16, bytes: &[u8]) -> Result<(), AllocError>
    requires { length bytes.now ≤ 65536 }
    ensures { OnOk result (text.new.items ≡ text.old.items ++ spec.octets address bytes.now) }
{
    'octets: for index in 0..bytes.len() {
        put_octet(text, address, index, bytes[index])?;
    }
    Ok(())
}
