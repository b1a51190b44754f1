//! The words of a tape's blocks, eight to a line.

ghost use Rattle.std.specs.Prelude.{◌≡◌, ◌+◌, ◌*◌, ◌≤◌, ◌<◌, ◌++◌, drop, length, OnOk};
ghost use Rattle.m11_dump.specs.Words as spec;

use crate::octets::{location_after, octal3, put_octets};
use byteorder::{ByteOrder, LittleEndian};
use m11_base::octal6;
use std::alloc::AllocError;

// Begins a line with the address of its first word, if the word at this index is the first of a line. The index counts bytes.
fn put_start(text: &mut Vec<u8>, address: u16, index: usize) -> Result<(), AllocError>
    requires { index < 65536 }
    ensures { OnOk result (text.new.items ≡ text.old.items ++ spec.words_start address index) }
{
    if index % 16 != 0 {
        return Ok(());
    }
    text.extend_from_slice(b"\n  ")?;
    text.extend_from_slice(&octal6(location_after(address, index)))
}

fn put_word(text: &mut Vec<u8>, address: u16, index: usize, word: u16) -> Result<(), AllocError>
    requires { index < 65536 }
    ensures { OnOk result (text.new.items ≡ text.old.items ++ spec.word_cell address index word) }
{
    put_start(text, address, index)?;
    text.push(b' ')?;
    text.extend_from_slice(&octal6(word))
}

fn put_byte(text: &mut Vec<u8>, address: u16, index: usize, byte: u8) -> Result<(), AllocError>
    requires { index < 65536 }
    ensures { OnOk result (text.new.items ≡ text.old.items ++ spec.byte_cell address index byte) }
{
    put_start(text, address, index)?;
    text.push(b' ')?;
    text.extend_from_slice(&octal3(byte))
}

// Adds the byte at this index, if there is one. It must be the last byte.
#[tactic(auto, using(crate::proofs::WordsShown::last_shown, crate::proofs::WordsShown::none_shown))]
fn put_last(text: &mut Vec<u8>, address: u16, index: usize, bytes: &[u8]) -> Result<(), AllocError>
    requires location { index < 65536 }
    requires few { length bytes.now ≤ index + 1 }
    ensures { OnOk result (text.new.items ≡ text.old.items ++ spec.words_from address index (drop index bytes.now)) }
{
    match bytes.get(index) {
        Some(byte) => put_byte(text, address, index, *byte),
        None => Ok(()),
    }
}

/// The word made of two bytes, low byte first.
pub(crate) fn word_of(low: u8, high: u8) -> u16
    ensures { result ≡ low + 256 * high }
{
    LittleEndian::read_u16(&[low, high])
}

// Adds bytes as words, and a single last byte as a byte.
fn put_words(text: &mut Vec<u8>, address: u16, bytes: &[u8]) -> Result<(), AllocError>
    requires { length bytes.now < 65536 }
    ensures { OnOk result (text.new.items ≡ text.old.items ++ spec.words_from address 0 bytes.now) }
{
    let mut index = 0;
    'words: while index + 1 < bytes.len() {
        put_word(
            text,
            address,
            index,
            word_of(bytes[index], bytes[index + 1]),
        )?;
        index += 2;
    }
    put_last(text, address, index, bytes)
}

/// Adds the data of a block at this address, fewer than 65,536 bytes: as words, or as bytes if the address is odd. Fails if memory
/// is refused.
pub(crate) fn put_data(text: &mut Vec<u8>, address: u16, bytes: &[u8]) -> Result<(), AllocError>
    requires { length bytes.now < 65536 }
    ensures { OnOk result (text.new.items ≡ text.old.items ++ spec.data_cells address bytes.now) }
{
    if address % 2 == 1 {
        put_octets(text, address, bytes)
    } else {
        put_words(text, address, bytes)
    }
}
