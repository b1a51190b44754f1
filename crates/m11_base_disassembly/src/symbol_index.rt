//! A list of symbols with an index: for each address the place of its nearest symbol in the list.

ghost use Rattle.std.specs.Prelude.{◌≡◌, ℕ, List, [], ◌∷◌, IfOk, None, Some, length, option_copied};
ghost use Rattle.std.specs.List.{slice_get};
ghost use Rattle.m11_base_disassembly.specs.SymbolIndex as spec;
ghost use Rattle.m11_base_disassembly.specs.Symbols.{nearest};

use crate::symbols::{Scope, Symbol, goes_before};
use std::alloc::{AllocError, Global};
use std::marker::Model;

// The number of addresses.
const ADDRESSES: usize = 65536;

/// A list of symbols, in which the nearest one of each address is found at once. Contracts see the list alone.
#[derive(Drop)]
pub struct Symbols {
    list: Vec<Symbol>,
    // For each address the place of its nearest symbol in the list, or the list's length if no symbol may name it; empty if the list is.
    places: Vec<usize>,
}

impl Model for Symbols {
    ghost use Rattle.std.specs.Prelude.{List};
    ghost use Rattle.m11_base_disassembly.specs.SymbolIndex.{Finds};
    ghost use Rattle.m11_base_disassembly.specs.declared.symbols.Symbol.{Symbol};

    ghost Value = { List Symbol };

    ghost view = { λ symbols. symbols.list.items };

    ghost invariant = { λ symbols. Finds symbols.list.items symbols.places.items symbols.list.items };
}

// The end of the addresses that a symbol may name: the first address after them, or 65,536 if there is none.
fn end_of(symbol: &Symbol) -> usize
    ensures { result ≡ spec.end_of symbol.now.scope }
{
    match symbol.scope {
        Scope::Unknown => ADDRESSES,
        Scope::Label(end) | Scope::Section(end) => ADDRESSES.min(end as usize),
    }
}

// Whether a symbol is put in place of the one that was found among the symbols after it, if it may name the address.
fn takes(symbol: &Symbol, later: Option<&Symbol>) -> bool
    ensures { result ≡ spec.takes symbol.now (option_copied later.entry) }
{
    match later {
        None => true,
        Some(other) => goes_before(symbol, other),
    }
}

// Whether a symbol names no further address, since the one that was found among the symbols after it goes before it and reaches as far.
fn is_over(symbol: &Symbol, later: Option<&Symbol>) -> bool
    ensures { result ≡ spec.is_over symbol.now (option_copied later.entry) }
{
    match later {
        None => false,
        Some(other) => !goes_before(symbol, other) && end_of(symbol) <= end_of(other),
    }
}

// The symbol of a list at the place that an index has for an address.
fn found<'a>(list: &'a [Symbol], places: &[usize], address: usize) -> Option<&'a Symbol>
    ensures { option_copied result ≡ spec.found list.now places.now address }
{
    let place = *places.get(address)?;
    list.get(place)
}

// Enters the symbol at this place of the list, after all symbols after it were entered.
fn enter(places: &mut [usize], list: &[Symbol], place: usize, symbol: &Symbol)
    requires room { length places.old ≡ 65536 }
    requires there { slice_get list.now place ≡ Some symbol.now }
    ensures { (later : List Symbol) → spec.Finds list.now places.old later → spec.Finds list.now places.new (symbol.now ∷ later) }
{
    'addresses: for address in usize::from(symbol.value)..end_of(symbol) {
        let later = found(list, places, address);
        if is_over(symbol, later) {
            return;
        }
        if takes(symbol, later) {
            places[address] = place;
        }
    }
}

// Enters all symbols of a list, from the last one to the first.
fn enter_all(places: &mut [usize], list: &[Symbol])
    requires room { length places.old ≡ 65536 }
    requires none { spec.Finds list.now places.old [] }
    ensures { spec.Finds list.now places.new list.now }
{
    let mut rest = list;
    'symbols: while let [others @ .., symbol] = rest {
        enter(places, list, others.len(), symbol);
        rest = others;
    }
}

// An index of this many addresses in which no address has a symbol of the list. Fails if memory is refused.
#[tactic(auto, using(crate::proofs::Entered::finds_none))]
fn unnamed(alloc: Global, list: &[Symbol], count: usize) -> Result<Vec<usize>, AllocError>
    ensures none { IfOk result (λ places. (address : ℕ) → spec.found list.now places.items address ≡ None) }
    ensures room { IfOk result (λ places. length places.items ≡ count) }
{
    vec![in alloc; list.len(); count]
}

impl Symbols {
    /// No symbols, without an index.
    pub fn none(alloc: Global) -> Symbols
        ensures { result ≡ [] }
    {
        Symbols {
            list: Vec::new(alloc),
            places: Vec::new(alloc),
        }
    }

    /// These symbols, with an index, which takes 524,288 bytes unless there are no symbols. Error: memory was refused.
    pub fn new(alloc: Global, list: Vec<Symbol>) -> Result<Symbols, AllocError>
        ensures { IfOk result (λ symbols. symbols ≡ list.items) }
    {
        if list.is_empty() {
            return Ok(Symbols::none(alloc));
        }
        let mut places = unnamed(alloc, &list, ADDRESSES)?;
        enter_all(&mut places, &list);
        Ok(Symbols { list, places })
    }

    /// The list.
    pub fn as_slice(&self) -> &[Symbol]
        ensures { result.now ≡ self.now }
    {
        self.list.as_slice()
    }

    /// The nearest symbol of an address.
    pub(crate) fn nearest(&self, address: u16) -> Option<Symbol>
        ensures { result ≡ nearest address self.now }
    {
        found(&self.list, &self.places, usize::from(address)).copied()
    }
}
