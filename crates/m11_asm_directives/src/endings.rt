//! `.END`. (MACRO-11 Language Reference Manual, ".END directive".)

ghost use Rattle.std.specs.Prelude.{◌≡◌, List, Option, option_map};
ghost use Rattle.std.specs.Int.RustNames.{bit_and};
ghost use Rattle.m11_scan.specs.Views.{bits_of};
ghost use Rattle.m11_scan_expressions.specs.Quantities.{quantity};
ghost use Rattle.m11_scan_expressions.specs.Tokens.{expression_of};
ghost use Rattle.m11_asm_rules.specs.Exports as spec;
ghost use Rattle.m11_asm_directives.specs.Settings.{effect_model};
ghost use Rattle.m11_scan_statements.specs.declared.spans.Span.{Span};

use crate::assigning::known_value;
use crate::settings::{Effect, Setting};
use bitflags::Flags;
use m11_asm_operands::argument_flags;
use m11_asm_rules::{Map, Table, register_flags};
use m11_scan::{ErrorFlags, Line};
use m11_scan_expressions::{Expr, Value, expr_at};

/// The transfer address of an `.END`, as `known_value` returns it; None for an `.END` without an expression.
pub fn transfer(map: &Map<'_>, table: &Table, line: &Line, place: Expr) -> Option<Value>
    ensures { option_map quantity result ≡ spec.transfer map.now table.now (expression_of line.now.text place) }
{
    if place.is_empty(line) {
        None
    } else {
        Some(known_value(map, table, line, place))
    }
}

// A, D, R and U: they depend on names.
const DECIDED_BY_NAMES: u16 = 0o24005;

// N, Q and T: the text of an expression decides them, whatever the values of its names.
const DECIDED_BY_TEXT: u16 = 0o12200;

/// The flags of the transfer address that depend on names, with R for a register; none without an address.
pub fn transfer_flags(address: Option<Value>) -> ErrorFlags
    ensures { bits_of result ≡ spec.transfer_flags (option_map quantity address) }
{
    match address {
        Some(value) => among(
            value.flags.with(register_flags(value.kind)),
            DECIDED_BY_NAMES,
        ),
        None => ErrorFlags::none(),
    }
}

/// The flags of the transfer address that depend on its text alone; none without an address.
pub fn expression_flags(address: Option<Value>) -> ErrorFlags
    ensures { bits_of result ≡ spec.expression_flags (option_map quantity address) }
{
    match address {
        Some(value) => among(value.flags, DECIDED_BY_TEXT),
        None => ErrorFlags::none(),
    }
}

fn among(flags: ErrorFlags, set: u16) -> ErrorFlags
    ensures { bits_of result ≡ bit_and (bits_of flags) set }
{
    ErrorFlags::from_bits_retain(flags.bits() & set)
}

/// Reads an `.END`: its expression is the transfer address, if it has one.
pub fn ending(line: &Line, start: u8) -> Effect
    ensures { (names : List (Option Span)) → effect_model line.now.text names result ≡ spec.ending line.now.text start }
{
    let read = expr_at(line, start);
    Effect {
        setting: Setting::Transfer(read.expr),
        flags: argument_flags(line, start, read.end),
    }
}
