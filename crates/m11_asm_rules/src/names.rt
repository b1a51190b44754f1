//! The values of symbols in a line. (MACRO-11 Language Reference Manual, "Symbols", "Local symbols" and "Current location counter".)

ghost use Rattle.std.specs.Prelude.{◌≡◌, Option, option_copied};
ghost use Rattle.m11_scan.specs.Views.{bits_of};
ghost use Rattle.m11_scan.specs.ErrorFlags.{flag_if};
ghost use Rattle.m11_scan_expressions.specs.Quantities.{absolute, quantity};
ghost use Rattle.m11_asm_rules.specs.Contents.{register_flags};
ghost use Rattle.m11_asm_rules.specs.Meanings.{empty_map, flag_D, meaning_of, quantity_of, value_of_symbol, undefined};
ghost use Rattle.m11_asm_rules.specs.declared.meanings.Context.TheVariants.{LocalOnly};
ghost use Rattle.m11_asm_rules.specs.Tables.{firm_table, kind_here};
ghost use Rattle.m11_asm_rules.specs.Definitions.{firm_standing};
ghost use Rattle.m11_asm_rules.specs.Asking.{asked, counted, firm_asked, given_by};
ghost use Rattle.m11_unfold_rules.specs.Definedness.{flag_U};

use crate::definitions::{Definition, Key, Standing};
use crate::map::Map;
use crate::meanings::Context;
use crate::table::Table;
use m11_scan::{ErrorFlags, Radix};
use m11_scan_expressions::{Kind, Names, Symbol, Value};
use std::marker::Model;

/// The symbols that a line uses at one kind of place. `.` is the location passed to `new`, in the current section; any other symbol has the
/// value of its last definition before the line, or else that of its definition in the map. Without either, a name refers to another object
/// if the place allows that; otherwise the symbol is 0, flagged U.
#[derive(Drop)]
pub struct NamesAt<'a> {
    map: &'a Map<'a>,
    context: Context,
    table: &'a Table,
    location: u16,
}

impl<'a> Model for NamesAt<'a> {
    ghost use Rattle.m11_asm_rules.specs.Asking.{LookupContext, asked};

    ghost Value = { LookupContext };

    ghost view = { λ n. asked n.map.now n.context n.table.now n.location };
}

impl<'a> NamesAt<'a> {
    /// The symbols that a line may use at this kind of place, under a map and with the table of the lines before it; `.` is this location.
    pub fn new(map: &'a Map<'a>, context: Context, table: &'a Table, location: u16) -> NamesAt<'a>
        ensures { result ≡ asked map.now context table.now location }
    {
        NamesAt {
            map,
            context,
            table,
            location,
        }
    }
}

impl<'a> Names for NamesAt<'a> {
    ghost base = { λ n. n.table.modes.radix };

    ghost value_of_symbol = { λ n symbol. value_of_symbol n.map n.context n.table n.location symbol };

    fn radix(&self) -> Radix {
        self.table.modes().radix
    }

    // speed: inline, since this is called for each symbol of an expression, and a call would pass its result through memory.
    #[inline(always)]
    fn meaning(&self, symbol: Symbol) -> Value {
        match symbol {
            Symbol::Ordinary(name) => {
                let other = undefined(self.context, Symbol::Ordinary(name));
                meaning_of(self.map, other, self.table, &Key::Named(name))
            }
            Symbol::Local(number) => {
                let other = undefined(self.context, Symbol::Local(number));
                let block = self.table.modes().block;
                meaning_of(self.map, other, self.table, &Key::Numbered(block, number))
            }
            Symbol::Counter => counter_value(self.table, self.location),
        }
    }
}

/// The firm symbols of the preceding lines, on which sizes, locations, conditions and repeats depend. `.` is the location passed to `new`,
/// in the current section; any symbol that isn't firm counts as 0, flagged U.
#[derive(Drop)]
pub struct FirmNames<'a> {
    table: &'a Table,
    location: u16,
}

impl<'a> Model for FirmNames<'a> {
    ghost use Rattle.m11_asm_rules.specs.Asking.{FirmContext, firm_asked};

    ghost Value = { FirmContext };

    ghost view = { λ n. firm_asked n.table.now n.location };
}

impl<'a> FirmNames<'a> {
    /// The firm symbols of a table; `.` is this location.
    pub fn new(table: &'a Table, location: u16) -> FirmNames<'a>
        ensures { result ≡ firm_asked table.now location }
    {
        FirmNames { table, location }
    }
}

impl<'a> Names for FirmNames<'a> {
    ghost base = { λ n. n.table.modes.radix };

    ghost value_of_symbol = { λ n symbol. value_of_symbol empty_map LocalOnly (firm_table n.table) n.location symbol };

    fn radix(&self) -> Radix {
        self.table.modes().radix
    }

    // speed: inline, since this is called for each symbol of an expression, and a call would pass its result through memory.
    #[inline(always)]
    fn meaning(&self, symbol: Symbol) -> Value {
        match symbol {
            Symbol::Ordinary(name) => firm_meaning_of(self.table, &Key::Named(name)),
            Symbol::Local(number) => {
                let block = self.table.modes().block;
                firm_meaning_of(self.table, &Key::Numbered(block, number))
            }
            Symbol::Counter => counter_value(self.table, self.location),
        }
    }
}

// The value of `.`: this location in the current section.
fn counter_value(table: &Table, location: u16) -> Value
    ensures { quantity result ≡ counted location (kind_here table.now) }
{
    Value {
        number: location,
        kind: table.kind_here(),
        flags: ErrorFlags::none(),
    }
}

// The value of a definition; if the value isn't known, 0, flagged U. Either is flagged D as well if the key is doubly defined.
fn value_of(standing: Standing, is_doubly_defined: bool) -> Value
    ensures { quantity result ≡ quantity_of (flag_if is_doubly_defined flag_D) standing }
{
    let flags = ErrorFlags::D.when(is_doubly_defined);
    match standing {
        Standing::Known(number, kind) => Value {
            number,
            kind,
            flags,
        },
        Standing::Unknown => Value::absolute(0, flags.with(ErrorFlags::U)),
    }
}

// The value of a symbol without a definition: a reference to another object, if the symbol is a name and a reference is allowed; otherwise
// 0, flagged U.
fn undefined(context: Context, symbol: Symbol) -> Value
    ensures { quantity result ≡ undefined context symbol }
{
    match (context, symbol) {
        (Context::MayBeGlobal, Symbol::Ordinary(name)) => Value {
            number: 0,
            kind: Kind::Reference(name),
            flags: ErrorFlags::none(),
        },
        _ => Value::absolute(0, ErrorFlags::U),
    }
}

// The value of a definition that was found, flagged D if its key is doubly defined; `other` if none was found.
fn value_or(found: Option<&Definition>, is_doubly_defined: bool, other: Value) -> Value
    ensures { quantity result ≡ given_by is_doubly_defined (quantity other) (option_copied found.entry) }
{
    match found {
        Some(definition) => value_of(definition.standing, is_doubly_defined),
        None => other,
    }
}

// The value of a key by its last definition before the line, or else by its definition in the map, flagged D if the key is doubly defined
// there; `other` if there is neither.
// speed: inline, since this is called for each symbol of an expression, and a call would pass its result through memory.
#[inline(always)]
fn meaning_of(map: &Map<'_>, other: Value, table: &Table, key: &Key) -> Value
    ensures { quantity result ≡ meaning_of map.now (quantity other) table.now key.now }
{
    match table.definition(key) {
        Some(definition) => value_of(definition.standing, table.is_doubly_defined(key)),
        None => value_or(map.definition(key), map.is_doubly_defined(key), other),
    }
}

// The value of a definition if it is firm; otherwise unknown.
fn firm_standing(definition: &Definition) -> Standing
    ensures { result ≡ firm_standing definition.now.is_firm definition.now.standing }
{
    if definition.is_firm {
        definition.standing
    } else {
        Standing::Unknown
    }
}

// The value of a key by its last definition before the line, if that is firm; otherwise 0, flagged U. The value is flagged D too if the
// key is doubly defined.
// speed: inline, since this is called for each symbol of an expression, and a call would pass its result through memory.
#[inline(always)]
fn firm_meaning_of(table: &Table, key: &Key) -> Value
    ensures { quantity result ≡ meaning_of empty_map (absolute 0 flag_U) (firm_table table.now) key.now }
{
    match table.definition(key) {
        Some(definition) => value_of(firm_standing(definition), table.is_doubly_defined(key)),
        None => Value::absolute(0, ErrorFlags::U),
    }
}

/// R for a register, in a place where no register is allowed; otherwise no flag.
pub fn register_flags(kind: Kind) -> ErrorFlags
    ensures { bits_of result ≡ register_flags kind }
{
    ErrorFlags::R.when(kind.is_register())
}
