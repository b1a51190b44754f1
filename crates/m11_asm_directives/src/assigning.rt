//! `name=e`, `name==e` and `.=e`. (MACRO-11 Language Reference Manual, "Direct assignment statements" and "Current location counter".)

ghost use Rattle.std.specs.Prelude.{◌≡◌, if◌then◌else◌, option_copied, IfOk};
ghost use Rattle.m11_scan.specs.Cutting.{tokens_from};
ghost use Rattle.m11_scan.specs.ErrorFlags.{flag_A, flag_Q, flag_if};
ghost use Rattle.m11_scan_expressions.specs.Expressions.{symbols, value};
ghost use Rattle.m11_scan_expressions.specs.LeftOvers.{has_token};
ghost use Rattle.m11_scan_expressions.specs.Remarks.{with_symbols};
ghost use Rattle.m11_scan_expressions.specs.Tokens.{expression_of};
ghost use Rattle.m11_scan.specs.Views.{bits_of};
ghost use Rattle.m11_scan_expressions.specs.Quantities.{quantity};
ghost use Rattle.m11_asm_rules.specs.Assigning as spec;
ghost use Rattle.m11_asm_rules.specs.Meanings.{known_at};
ghost use Rattle.m11_asm_rules.specs.Relocations.{is_here};
ghost use Rattle.m11_asm_rules.specs.Tables.{location};
ghost use Rattle.m11_asm_rules.specs.declared.meanings.Context.TheVariants.{LocalOnly};
ghost use Rattle.m11_asm_directives.specs.Changes.{moves};

use crate::changes::Move;
use m11_asm_rules::{
    Context, Definition, FirmNames, Key, Map, NamesAt, Standing, Table, register_flags,
};
use m11_base::Name;
use m11_scan::{ErrorFlags, Line, read_name};
use m11_scan_expressions::{Expr, Remarks, Value, has_token};
use m11_scan_statements::Span;
use std::alloc::AllocError;

/// The name before the `=` of an assignment, if it is valid.
pub fn target(line: &Line, name: Span) -> Option<Name>
    ensures { result ≡ spec.target line.now.text name }
{
    read_name(name.text(line))
}

/// The flags of an assignment: M for the name of a label, U for a global name whose value is unknown at the end of the first pass, and
/// those of the value. Without a valid name, only those of the value.
pub fn assignment_flags(
    map: &Map<'_>,
    table: &Table,
    line: &Line,
    name: Option<Name>,
    place: Expr,
) -> ErrorFlags
    ensures { bits_of result ≡ spec.assignment_flags map.now table.now name (expression_of line.now.text place) }
{
    let value = known_value(map, table, line, place);
    target_flags(map, table, name).with(value.flags)
}

/// The value of an expression. An undefined name in the expression counts as 0, flagged U, and isn't a reference to another module.
pub fn known_value(map: &Map<'_>, table: &Table, line: &Line, place: Expr) -> Value
    ensures { quantity result ≡ value (known_at map.now LocalOnly table.now (location table.now)) (expression_of line.now.text place) }
{
    let names = NamesAt::new(map, Context::LocalOnly, table, table.location());
    place.value(line, &names)
}

/// The value of an expression, as `known_value` returns it. The symbols in the expression are added to `remarks`, in order. Error: memory
/// for the symbols was refused.
pub fn read_known_value(
    map: &Map<'_>,
    table: &Table,
    line: &Line,
    place: Expr,
    remarks: &mut Remarks,
) -> Result<Value, AllocError>
    ensures value { IfOk result (λ read. quantity read
        ≡ value (known_at map.now LocalOnly table.now (location table.now)) (expression_of line.now.text place)) }
    ensures remarks { IfOk result (λ _. remarks.new ≡ with_symbols remarks.old (symbols (expression_of line.now.text place))) }
{
    let names = NamesAt::new(map, Context::LocalOnly, table, table.location());
    let value = place.read_value(line, &names, remarks)?;
    Ok(value)
}

/// Q if a token follows the expression that ends before the column `end`; otherwise no flag.
pub fn after_expression(line: &Line, end: u8) -> ErrorFlags
    ensures { bits_of result ≡ flag_if (has_token (tokens_from line.now.text end)) flag_Q }
{
    ErrorFlags::Q.when(has_token(line, end))
}

fn target_flags(map: &Map<'_>, table: &Table, name: Option<Name>) -> ErrorFlags
    ensures { bits_of result ≡ spec.target_flags map.now table.now name }
{
    match name {
        Some(name) => definition_flags(map, table, name),
        None => ErrorFlags::none(),
    }
}

/// The flags M and U of a line that defines this name by an assignment, `.NARG` or `.NCHR`: M for the name of a label, and U for a global
/// name whose value is unknown at the end of the first pass.
pub fn definition_flags(map: &Map<'_>, table: &Table, name: Name) -> ErrorFlags
    ensures { bits_of result ≡ spec.definition_flags map.now table.now name }
{
    label_flags(table, name).with(globl_flags(map, name))
}

// M for the name of a label.
fn label_flags(table: &Table, name: Name) -> ErrorFlags
    ensures { bits_of result ≡ spec.label_flags table.now name }
{
    ErrorFlags::M.when(table.is_labelled(&Key::Named(name)))
}

// U for a global name whose value is unknown at the end of the first pass.
fn globl_flags(map: &Map<'_>, name: Name) -> ErrorFlags
    ensures { bits_of result ≡ spec.globl_flags map.now name }
{
    let is_unknown = is_unknown(map.definition(&Key::Named(name)));
    ErrorFlags::U.when(map.is_exported(name) && is_unknown)
}

fn is_unknown(definition: Option<&Definition>) -> bool
    ensures { result ≡ spec.is_unknown (option_copied definition.entry) }
{
    match definition {
        Some(definition) => is_unknown_as(definition.standing),
        None => false,
    }
}

fn is_unknown_as(standing: Standing) -> bool
    ensures { result ≡ spec.is_unknown_as standing }
{
    match standing {
        Standing::Known(_, _) => false,
        Standing::Unknown => true,
    }
}

/// The move of the location counter by `.=`; None if the value of its expression isn't a location of the current section.
pub fn counter_move(table: &Table, line: &Line, place: Expr) -> Option<Move>
    ensures { moves result ≡ spec.counter_change table.now (expression_of line.now.text place) }
{
    let value = counter_value(table, line, place);
    if table.is_here(value.kind) {
        Some(Move::Goes(value.number))
    } else {
        None
    }
}

/// The flags of `.=`: those of its value, R for a register, and A for any value that isn't a location of the current section.
pub fn counter_flags(table: &Table, line: &Line, place: Expr) -> ErrorFlags
    ensures { bits_of result ≡ spec.counter_flags table.now (expression_of line.now.text place) }
{
    let value = counter_value(table, line, place);
    let register = register_flags(value.kind);
    value.flags.with(register.with(outside_flags(table, value)))
}

// A for a value that isn't a location of the current section.
fn outside_flags(table: &Table, value: Value) -> ErrorFlags
    ensures { bits_of result ≡ (if is_here table.now value.kind then 0 else flag_A) }
{
    if table.is_here(value.kind) {
        ErrorFlags::none()
    } else {
        ErrorFlags::A
    }
}

// The value of the expression of `.=`, which depends on firm names alone.
fn counter_value(table: &Table, line: &Line, place: Expr) -> Value
    ensures { quantity result ≡ spec.counter_value table.now (expression_of line.now.text place) }
{
    place.value(line, &FirmNames::new(table, table.location()))
}
