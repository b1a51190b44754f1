//! Finds the operations that names in a source mean. (MACRO-11 Language Reference Manual, "Permanent symbol table".)

ghost use Rattle.std.specs.Prelude.{◌≡◌};
ghost use Rattle.std.specs.List.{list_all};
ghost use Rattle.m11_base.specs.NameCharacters.{character_at, is_name_character, six_of};
ghost use Rattle.m11_base.specs.Mnemonics.{named_in, operation_named};

use crate::instruction::Op;
use crate::instruction_list::{Row, other_names, rows};

/// The operation that a name means, in upper or lower case. Only its first six characters count, so `RETURNS` is `RETURN`. `None`
/// means that no operation has the name, that the text is empty, or that a byte of it isn't a letter, digit, `$` or `.`.
pub fn mnemonic(text: &[u8]) -> Option<Op>
    ensures { result ≡ operation_named text.now }
{
    if text.is_empty() || !are_name_characters(text) {
        return None;
    }
    let name = six_characters(text);
    match named(rows(), &name) {
        Some(operation) => Some(operation),
        None => named(other_names(), &name),
    }
}

fn are_name_characters(text: &[u8]) -> bool
    ensures { result ≡ list_all is_name_character text.now }
{
    text.iter().all(|byte| is_name_character(*byte))
}

// Whether a byte is a letter of either case, a digit, `$` or `.`.
fn is_name_character(byte: u8) -> bool
    ensures { result ≡ is_name_character byte }
{
    matches!(byte, b'A'..=b'Z' | b'a'..=b'z' | b'0'..=b'9' | b'$' | b'.')
}

// The first six characters in upper case, padded with blanks.
fn six_characters(text: &[u8]) -> [u8; 6]
    ensures { result ≡ six_of text.now }
{
    [
        character_at(text, 0),
        character_at(text, 1),
        character_at(text, 2),
        character_at(text, 3),
        character_at(text, 4),
        character_at(text, 5),
    ]
}

fn character_at(text: &[u8], index: usize) -> u8
    ensures { result ≡ character_at text.now index }
{
    match text.get(index) {
        Some(byte) => byte.to_ascii_uppercase(),
        None => b' ',
    }
}

// The operation of the first row with this name, if there is one.
fn named(list: &[Row], name: &[u8; 6]) -> Option<Op>
    ensures { result ≡ named_in list.now name.now }
{
    let found = list.iter().find(|row| row.name == *name);
    match found {
        Some(row) => Some(row.operation),
        None => None,
    }
}
