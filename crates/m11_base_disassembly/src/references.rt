//! What words refer to in an object.

ghost use Rattle.std.specs.Prelude.{◌≡◌, ◌≤◌, ◌+◌, ◌++◌, false};
ghost use Rattle.arrayvec.specs.ArrayVec.{array_vec_len};
ghost use Rattle.m11_base_disassembly.specs.Numbers.{number_text};
ghost use Rattle.m11_base_disassembly.specs.References as spec;
ghost use Rattle.m11_base_disassembly.specs.Symbols.{address_text};

use crate::names::{is_written, put_bare_name};
use crate::numbers::{put_distance, put_number};
use crate::source::Source;
use crate::symbol_index::Symbols;
use crate::symbols::put_address;
use m11_base::Name;

/// What a word refers to in an object, as a relocation says it.
#[derive(Clone, Copy)]
pub struct Reference {
    /// The name of a global or of a section; `None` for the section that the word lies in, or for none.
    pub name: Option<Name>,
    /// The constant that is added to the global's value or the section's base; without either, an absolute address.
    pub constant: u16,
    /// Whether the linker stores the distance from the location after the word, as for a relative operand.
    pub is_displaced: bool,
}

/// What the words of a statement refer to.
#[derive(Clone, Copy)]
pub struct References {
    /// The reference of the word where the statement begins, if it has one; the code of an instruction has none.
    pub own: Option<Reference>,
    /// The reference of the first word after an instruction's code, likewise.
    pub first: Option<Reference>,
    /// The reference of the second one, likewise.
    pub second: Option<Reference>,
}

/// The references of words that refer to nothing.
pub fn no_references() -> References
    ensures { result ≡ spec.no_references }
{
    References {
        own: None,
        first: None,
        second: None,
    }
}

/// The reference of the word after so many words of an instruction that follow its code.
pub(crate) fn reference_after(words: usize, references: &References) -> Option<Reference>
    ensures { result ≡ spec.reference_after words references.now }
{
    if words == 0 {
        references.first
    } else {
        references.second
    }
}

// Whether there is no name, or one that can be written.
fn has_form(name: Option<Name>) -> bool
    ensures { result ≡ spec.has_form name }
{
    match name {
        Some(name) => is_written(name),
        None => true,
    }
}

// Whether a reference stands for the word of an operand, or for a word of data, which isn't relative: its name, if it has one, can be written, and
// the word is a distance just if the operand is relative.
fn stands_in(is_relative: bool, reference: &Reference) -> bool
    ensures { result ≡ spec.stands_in is_relative reference.now }
{
    has_form(reference.name)
        && if is_relative {
            reference.is_displaced
        } else {
            !reference.is_displaced
        }
}

/// Whether a word with this reference is data where a statement begins: the reference stands for it. An instruction's code has no reference.
pub fn is_data(reference: &Option<Reference>) -> bool
    ensures { result ≡ spec.is_data reference.now }
{
    match reference {
        Some(reference) => stands_in(false, reference),
        None => false,
    }
}

// Adds a name, and the constant that is added to it; or the constant alone.
fn put_reference(line: &mut Source, reference: &Reference)
    requires { array_vec_len line.old ≤ 35 }
    ensures text { line.new.items ≡ line.old.items ++ spec.referred_text reference.now.name reference.now.constant }
    ensures room { array_vec_len line.new ≤ array_vec_len line.old + 13 }
{
    match reference.name {
        Some(name) => {
            put_bare_name(line, &name.characters());
            put_distance(line, reference.constant);
        }
        None => put_number(line, reference.constant),
    }
}

/// Adds what a word that isn't relative refers to, if its reference stands for it; otherwise the number in octal.
pub(crate) fn put_number_or(line: &mut Source, reference: &Option<Reference>, number: u16)
    requires { array_vec_len line.old ≤ 35 }
    ensures text { line.new.items ≡ line.old.items ++ spec.referred_or false reference.now (number_text number) }
    ensures room { array_vec_len line.new ≤ array_vec_len line.old + 13 }
{
    match reference {
        Some(reference) if stands_in(false, reference) => put_reference(line, reference),
        _ => put_number(line, number),
    }
}

/// Adds what the word of an operand that is an address refers to, if its reference stands for it; otherwise the address by its name, if these
/// symbols have one for it, or in octal.
pub(crate) fn put_address_or(
    line: &mut Source,
    symbols: &Symbols,
    is_relative: bool,
    reference: &Option<Reference>,
    address: u16,
)
    requires { array_vec_len line.old ≤ 35 }
    ensures text { line.new.items ≡ line.old.items ++ spec.referred_or is_relative reference.now (address_text symbols.now address) }
    ensures room { array_vec_len line.new ≤ array_vec_len line.old + 13 }
{
    match reference {
        Some(reference) if stands_in(is_relative, reference) => put_reference(line, reference),
        _ => put_address(line, symbols, address),
    }
}
