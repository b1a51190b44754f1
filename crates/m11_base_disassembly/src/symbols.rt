//! The names of addresses, alone and in operands.

ghost use Rattle.std.specs.Prelude.{◌≡◌, ◌≤◌, ◌+◌, ◌++◌, length};
ghost use Rattle.arrayvec.specs.ArrayVec.{array_vec_len};
ghost use Rattle.m11_base.specs.Rad50.{name_text};
ghost use Rattle.m11_base_disassembly.specs.Names.{bare_name};
ghost use Rattle.m11_base_disassembly.specs.Numbers.{number_text};
ghost use Rattle.m11_base_disassembly.specs.Symbols as spec;

use crate::names::{is_bare, is_written, put_bare_name};
use crate::numbers::{put_distance, put_number};
use crate::source::{Source, put};
use crate::symbol_index::Symbols;
use m11_base::Name;

/// Which addresses a symbol may name.
#[derive(Clone, Copy)]
pub enum Scope {
    /// Its section isn't known, or it has none: all addresses from its value on.
    Unknown,
    /// It is a label: the addresses from its value up to the end of its module's contribution to its section, which is the first address after
    /// it, at most octal 377776.
    Label(u32),
    /// It is a section: likewise, up to the end of a module's contribution to it.
    Section(u32),
}

/// A name with its value: a global of a link's map, of a load map or of objects, a name in a listing, or a section.
#[derive(Clone, Copy)]
pub struct Symbol {
    /// Its name.
    pub name: Name,
    /// Its value, usually an address.
    pub value: u16,
    /// Which addresses it may name.
    pub scope: Scope,
}

// The number by which symbols that may name an address are ordered, the greatest first: those whose section is known before the others, higher
// values before lower ones, and of one value a label before a section.
fn order(symbol: &Symbol) -> u32
    ensures { result ≡ spec.order symbol.now.scope symbol.now.value }
{
    let value = u32::from(symbol.value);
    match symbol.scope {
        Scope::Unknown => value,
        Scope::Section(_) => 0o200000 + 2 * value,
        Scope::Label(_) => 0o200001 + 2 * value,
    }
}

/// Whether a symbol comes no later than another one in the order of symbols that may name an address.
pub(crate) fn goes_before(symbol: &Symbol, other: &Symbol) -> bool
    ensures { result ≡ spec.goes_before symbol.now other.now }
{
    order(other) <= order(symbol)
}

// Adds a symbol, and the distance of an address from it.
fn put_name_from(line: &mut Source, symbol: &Symbol, address: u16)
    requires { array_vec_len line.old ≤ 35 }
    ensures items { line.new.items ≡ line.old.items ++ spec.name_from symbol.now address }
    ensures size { array_vec_len line.new ≤ array_vec_len line.old + 13 }
{
    put_bare_name(line, &symbol.name.characters());
    put_distance(line, address.saturating_sub(symbol.value));
}

/// The name of an address after a prefix of at most two characters: the nearest symbol at or below it, and the distance from there
/// in octal unless it is 0, as in `PUTS+4`. Symbols whose section has the address go before those without a section. Empty if no symbol may
/// name the address.
pub fn address_name(first: &[u8], symbols: &Symbols, address: u16) -> Source
    requires { length first.now ≤ 2 }
    ensures items { result.items ≡ spec.address_name first.now symbols.now address }
    ensures size { array_vec_len result ≤ length first.now + 13 }
{
    let mut line = Source::new();
    if let Some(symbol) = symbols.nearest(address) {
        put(&mut line, first);
        put_name_from(&mut line, &symbol, address);
    }
    line
}

// Whether a symbol may stand for an address in an operand: its name can be written, and its section is known or its value is the address.
fn stands_for(address: u16, symbol: &Symbol) -> bool
    ensures { result ≡ spec.stands_for address symbol.now }
{
    let is_placed = match symbol.scope {
        Scope::Unknown => false,
        Scope::Label(_) | Scope::Section(_) => true,
    };
    is_written(symbol.name) && (is_placed || symbol.value == address)
}

/// Adds an address as an operand shows it: its nearest symbol and the distance from there, if that symbol may stand for it, and otherwise the
/// address in octal.
pub(crate) fn put_address(line: &mut Source, symbols: &Symbols, address: u16)
    requires { array_vec_len line.old ≤ 35 }
    ensures text { line.new.items ≡ line.old.items ++ spec.address_text symbols.now address }
    ensures room { array_vec_len line.new ≤ array_vec_len line.old + 13 }
{
    match symbols.nearest(address) {
        Some(symbol) if stands_for(address, &symbol) => put_name_from(line, &symbol, address),
        _ => put_number(line, address),
    }
}

/// An address as an operand shows it: its nearest symbol and the distance from there, if that symbol's section is known or its value is the
/// address; otherwise the address in octal.
pub fn address_source(symbols: &Symbols, address: u16) -> Source
    ensures items { result.items ≡ spec.address_text symbols.now address }
    ensures size { array_vec_len result ≤ 13 }
{
    let mut line = Source::new();
    put_address(&mut line, symbols, address);
    line
}

/// A word in octal, without leading zeros.
pub fn number_source(word: u16) -> Source
    ensures items { result.items ≡ number_text word }
    ensures size { array_vec_len result ≤ 6 }
{
    let mut line = Source::new();
    put_number(&mut line, word);
    line
}

/// A name as it is written, up to its first space.
pub fn name_source(name: Name) -> Source
    ensures items { result.items ≡ bare_name (name_text name) }
    ensures size { array_vec_len result ≤ 6 }
{
    let mut line = Source::new();
    put_bare_name(&mut line, &name.characters());
    line
}

// Whether a symbol has this name, as it is written.
fn is_called(symbol: &Symbol, name: &[u8]) -> bool
    ensures { result ≡ spec.is_called name.now symbol.now }
{
    is_bare(&symbol.name.characters(), name)
}

/// The value of the first symbol with this name, such as `PUTS`; `None` if no symbol has it.
pub fn value_named(symbols: &[Symbol], name: &[u8]) -> Option<u16>
    ensures { result ≡ spec.value_named name.now symbols.now }
{
    let mut found = None;
    let mut rest = symbols;
    'symbols: while let [others @ .., symbol] = rest {
        if is_called(symbol, name) {
            found = Some(symbol.value);
        }
        rest = others;
    }
    found
}
