//! The symbols of a source: the names that are given for it, and names that are made for the other addresses that operands name.

ghost use Rattle.std.specs.Prelude.{◌≡◌, ◌<◌, ◌++◌, ◌||◌, ◌&&◌, ◌==◌, ℕ, IfOk, OnOk, [], false, if◌then◌else◌, length, slice_index_or};
ghost use Rattle.std.specs.List.{list_any};
ghost use Rattle.std.specs.Str.{bytes_eq};
ghost use Rattle.m11_base.specs.Rad50.{name_of, name_text};
ghost use Rattle.m11_dump_source.specs.Labels as spec;

use crate::lines::{Line, addresses_in};
use m11_base::{Name, octal6};
use m11_base_disassembly::{Scope, Symbol, name_source, value_named};
use std::alloc::{AllocError, Global};

// Whether all of these are spaces.
fn are_spaces(characters: &[u8]) -> bool
    ensures { result ≡ spec.are_spaces characters.now }
{
    characters.iter().all(|character| *character == b' ')
}

// Whether these are characters of a symbol, and then only spaces.
fn is_padded(characters: &[u8]) -> bool
    ensures { result ≡ spec.is_padded characters.now }
{
    match characters {
        [] => true,
        [b' ', others @ ..] => are_spaces(others),
        [character, others @ ..] => *character != b'%' && is_padded(others),
    }
}

// Whether a name is this text.
fn is_text(name: &[u8], text: &[u8]) -> bool
    ensures { result ≡ bytes_eq name.now text.now }
{
    name == text
}

// Whether a name is that of the location counter or of a register.
fn is_reserved(name: &[u8]) -> bool
    ensures { result ≡ list_any (bytes_eq name.now) spec.reserved }
{
    is_text(name, b".")
        || is_text(name, b"R0")
        || is_text(name, b"R1")
        || is_text(name, b"R2")
        || is_text(name, b"R3")
        || is_text(name, b"R4")
        || is_text(name, b"R5")
        || is_text(name, b"SP")
        || is_text(name, b"PC")
}

// Whether a source may define this name.
fn is_definable(name: Name) -> bool
    ensures { result ≡ spec.is_definable (name_text name) }
{
    let characters = name.characters();
    let first = characters[0];
    let is_digit = b'0' <= first && first <= b'9';
    first != b' ' && !is_digit && is_padded(&characters) && !is_reserved(&name_source(name))
}

// Whether none of these symbols has this name.
fn is_free(kept: &[Symbol], name: Name) -> bool
    ensures { result ≡ spec.is_free kept.now name }
{
    value_named(kept, &name_source(name)).is_none()
}

// A symbol that names its own value alone.
fn named(name: Name, value: u16) -> Symbol
    ensures { result ≡ spec.named name value }
{
    Symbol {
        name,
        value,
        scope: Scope::Unknown,
    }
}

/// The symbols of a list that a source can define, each by itself; of those with one name the first. Fails if memory is refused.
pub(crate) fn kept_of(alloc: Global, symbols: &[Symbol]) -> Result<Vec<Symbol>, AllocError>
    ensures { IfOk result (λ kept. kept.items ≡ spec.kept_of symbols.now) }
{
    let mut kept = Vec::new(alloc);
    let mut rest = symbols;
    'symbols: while let [symbol, others @ ..] = rest {
        if is_definable(symbol.name) && is_free(&kept, symbol.name) {
            kept.push(named(symbol.name, symbol.value))?;
        }
        rest = others;
    }
    Ok(kept)
}

/// Whether one of these has the symbol's name and its value.
pub(crate) fn is_kept(kept: &[Symbol], symbol: &Symbol) -> bool
    ensures { result ≡ spec.is_kept kept.now symbol.now }
{
    kept.iter().any(|other| other.name == symbol.name && other.value == symbol.value)
}

// Marks these addresses.
fn mark(marks: &mut Vec<bool>, addresses: &[u16])
    requires { length marks.old.items ≡ 65536 }
    ensures long { length marks.new.items ≡ 65536 }
    ensures marks { (at : ℕ) → slice_index_or marks.new.items at false
        ≡ (slice_index_or marks.old.items at false || spec.is_among addresses.now at) }
{
    let mut rest = addresses;
    'addresses: while let [address, others @ ..] = rest {
        marks[usize::from(*address)] = true;
        rest = others;
    }
}

// This many marks, none of which is set. Fails if memory is refused.
fn no_marks(alloc: Global, count: usize) -> Result<Vec<bool>, AllocError>
    ensures long { IfOk result (λ marks. length marks.items ≡ count) }
    ensures none { IfOk result (λ marks. (at : ℕ) → slice_index_or marks.items at false ≡ false) }
{
    Ok(vec![in alloc; false; count]?)
}

// For each address whether an operand of these lines names it, or it is the transfer address. Fails if memory is refused.
fn marks_of(alloc: Global, start: u16, lines: &[Line]) -> Result<Vec<bool>, AllocError>
    ensures long { IfOk result (λ marks. length marks.items ≡ 65536) }
    ensures marks { IfOk result (λ marks. (at : ℕ) → slice_index_or marks.items at false ≡ spec.is_among (spec.targets start lines.now) at) }
{
    let mut marks = no_marks(alloc, 65_536)?;
    mark(&mut marks, &[start]);
    'lines: for line in lines {
        mark(&mut marks, &addresses_in(*line));
    }
    Ok(marks)
}

// Whether a symbol has this value.
fn has_value(symbols: &[Symbol], address: u16) -> bool
    ensures { result ≡ spec.has_value symbols.now address }
{
    symbols.iter().any(|symbol| symbol.value == address)
}

// The characters of the name that is made for an address.
fn made_characters(address: u16) -> [u8; 6]
    ensures { result ≡ spec.made_characters address }
{
    let half = if address < 0o100000 { b'L' } else { b'U' };
    let [_, second, third, fourth, fifth, sixth] = octal6(address);
    [half, second, third, fourth, fifth, sixth]
}

// Adds the symbol that is made for a line, if it has one. Fails if memory is refused.
fn add_made(
    symbols: &mut Vec<Symbol>,
    kept: &[Symbol],
    is_target: bool,
    line: Line,
) -> Result<(), AllocError>
    ensures { OnOk result (symbols.new.items ≡ symbols.old.items ++ spec.made_if kept.now is_target line) }
{
    if is_target && !has_value(kept, line.address) {
        if let Some(name) = Name::pack(&made_characters(line.address)) {
            if is_free(kept, name) {
                symbols.push(named(name, line.address))?;
            }
        }
    }
    Ok(())
}

/// All symbols of the source of these lines: those that are kept, and those that are made. Fails if memory is refused.
pub(crate) fn symbols_in(
    alloc: Global,
    kept: &[Symbol],
    start: u16,
    lines: &[Line],
) -> Result<Vec<Symbol>, AllocError>
    ensures { IfOk result (λ symbols. symbols.items ≡ spec.symbols_in kept.now start lines.now) }
{
    let marks = marks_of(alloc, start, lines)?;
    let mut symbols = kept.to_vec(alloc)?;
    let mut rest = lines;
    'lines: while let [line, others @ ..] = rest {
        let is_target = marks[usize::from(line.address)];
        add_made(&mut symbols, kept, is_target, *line)?;
        rest = others;
    }
    Ok(symbols)
}
