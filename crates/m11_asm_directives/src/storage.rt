//! Lists of words and bytes, reserved room, and directives without arguments. (MACRO-11 Language Reference Manual, ".WORD directive",
//! ".BYTE directive", ".BLKB and .BLKW directives", ".LIMIT directive", ".EVEN directive" and ".ODD directive".)

ghost use Rattle.std.specs.Prelude.{◌≡◌, ◌≤◌, ◌∷◌, length, List, IfOk};
ghost use Rattle.m11_scan_expressions.specs.Expressions.{value};
ghost use Rattle.m11_scan_expressions.specs.Tokens.{Expression, expression_of};
ghost use Rattle.m11_asm_directives.specs.Stored.{storage_model, storing_model};
ghost use Rattle.m11_asm_operands.specs.Elements.{elements_model};
ghost use Rattle.m11_asm_rules.specs.Elements.{argument_flags, elements_at};
ghost use Rattle.m11_scan_expressions.specs.LeftOvers.{left_over};
ghost use Rattle.m11_base.specs.Devices.{Bytes};
ghost use Rattle.m11_asm_rules.specs.Actions.{Store, does};
ghost use Rattle.m11_asm_rules.specs.Contents.{element_value, followed_by};
ghost use Rattle.m11_asm_rules.specs.Meanings.{firm_known, known_at};
ghost use Rattle.m11_asm_rules.specs.Storage as spec;
ghost use Rattle.m11_asm_rules.specs.declared.meanings.Context.TheVariants.{MayBeGlobal};
ghost use Rattle.m11_scan.specs.Views.{bits_of};
ghost use Rattle.m11_scan_expressions.specs.Quantities.{quantity};

use crate::stored::{Arguments, Storage, Storing};
use m11_asm_operands::{
    Elements, Emission, LineContext, argument_flags, emit_byte, emit_word, further,
};
use m11_asm_rules::{FirmNames, Table};
use m11_scan::{ErrorFlags, Line};
use m11_scan_expressions::{Expr, Value, expr_at, left_over};
use std::alloc::AllocError;

/// Reads the list of a `.WORD`: a word for each of its elements.
pub fn words(arguments: &mut Arguments, line: &Line, start: u8) -> Storing
    ensures { storing_model line.now.text arguments.new result ≡ spec.words line.now.text start }
{
    Storing {
        flags: read_elements(&mut arguments.elements, line, start),
        storage: Storage::WordList,
    }
}

/// Reads the list of a `.BYTE`: a byte for each of its elements.
pub fn bytes(arguments: &mut Arguments, line: &Line, start: u8) -> Storing
    ensures { storing_model line.now.text arguments.new result ≡ spec.bytes line.now.text start }
{
    Storing {
        flags: read_elements(&mut arguments.elements, line, start),
        storage: Storage::ByteList,
    }
}

// Reads the elements of a list, and returns I for characters skipped in the list, and the flags of what is left over after it.
fn read_elements(elements: &mut Elements, line: &Line, start: u8) -> ErrorFlags
    ensures list { elements_model line.now.text elements.new.list.items ≡ (elements_at line.now.text start).list }
    ensures flags { bits_of result ≡ argument_flags line.now.text start (elements_at line.now.text start).end }
{
    elements.read(line, start);
    argument_flags(line, start, elements.end)
}

// The number of elements of a list: at most 133.
pub(crate) fn element_count(elements: &Elements) -> u32
    ensures count { (line : Bytes) → result ≡ length (elements_model line elements.now.list.items) }
    ensures most { result ≤ 133 }
{
    elements.list.as_slice().len() as u32
}

// Emits elements as words, beginning at the location of the line, with their flags. Error: memory may be refused.
pub(crate) fn emit_words(
    emission: &mut Emission,
    line_context: &LineContext,
    elements: &[Expr],
) -> Result<(), AllocError>
    ensures { IfOk result (λ _. emission.new ≡ followed_by emission.old
        (spec.words_from line_context.now.map line_context.now.table line_context.now.location (elements_model line_context.now.line elements.now))) }
{
    let mut location = line_context.location();
    'elements: for element in elements {
        location = emit_element_word(emission, line_context, location, *element)?;
    }
    Ok(())
}

// Emits an element as a word, with its flags, and returns the location after it. Error: memory may be refused.
fn emit_element_word(
    emission: &mut Emission,
    line_context: &LineContext,
    location: u16,
    element: Expr,
) -> Result<u16, AllocError>
    ensures { IfOk result (λ next. (elements : List Expression)
        → followed_by emission.new (spec.words_from line_context.now.map line_context.now.table next elements)
        ≡ followed_by emission.old (spec.words_from line_context.now.map line_context.now.table location
        (expression_of line_context.now.line element ∷ elements))) }
{
    let value = element_value(line_context, location, element);
    emit_word(emission, line_context, false, location, value)?;
    Ok(further(location, 2))
}

// Emits elements as bytes, beginning at the location of the line, with their flags. Error: memory may be refused.
pub(crate) fn emit_bytes(
    emission: &mut Emission,
    line_context: &LineContext,
    elements: &[Expr],
) -> Result<(), AllocError>
    ensures { IfOk result (λ _. emission.new ≡ followed_by emission.old
        (spec.bytes_from line_context.now.map line_context.now.table line_context.now.location (elements_model line_context.now.line elements.now))) }
{
    let mut location = line_context.location();
    'elements: for element in elements {
        location = emit_element_byte(emission, line_context, location, *element)?;
    }
    Ok(())
}

// Emits an element as a byte, with its flags, and returns the location after it. Error: memory may be refused.
fn emit_element_byte(
    emission: &mut Emission,
    line_context: &LineContext,
    location: u16,
    element: Expr,
) -> Result<u16, AllocError>
    ensures { IfOk result (λ next. (elements : List Expression)
        → followed_by emission.new (spec.bytes_from line_context.now.map line_context.now.table next elements)
        ≡ followed_by emission.old (spec.bytes_from line_context.now.map line_context.now.table location
        (expression_of line_context.now.line element ∷ elements))) }
{
    let value = element_value(line_context, location, element);
    emit_byte(emission, line_context, location, value)?;
    Ok(further(location, 1))
}

// The value of an element at its own location, which is the value of `.` in it. An empty element counts as 0.
fn element_value(line_context: &LineContext, location: u16, element: Expr) -> Value
    ensures { quantity result ≡ element_value
        (known_at line_context.now.map MayBeGlobal line_context.now.table location) (expression_of line_context.now.line element) }
{
    if element.is_empty(line_context.line()) {
        Value::absolute(0, ErrorFlags::none())
    } else {
        line_context.at(location).reference(element)
    }
}

/// Reads a directive that has no arguments, such as `.EVEN`, and that stores or reserves `storage`. Any text after its name is left over.
pub fn without_arguments(storage: Storage, line: &Line, start: u8) -> Storing
    ensures { (arguments : Arguments) → storing_model line.now.text arguments result
        ≡ does (Store (storage_model line.now.text arguments storage)) (left_over line.now.text start) }
{
    Storing {
        storage,
        flags: left_over(line, start),
    }
}

/// Reads a `.BLKB` or `.BLKW`: the number of units to reserve, of `unit` bytes each.
pub fn room(unit: u8, line: &Line, start: u8) -> Storing
    ensures { (arguments : Arguments) → storing_model line.now.text arguments result ≡ spec.room unit line.now.text start }
{
    let count = expr_at(line, start);
    Storing {
        storage: Storage::Room(unit, count.expr),
        flags: argument_flags(line, start, count.end),
    }
}

// The number of bytes or words of a block: 1 without an expression. It depends on firm names alone.
pub(crate) fn block_count(table: &Table, location: u16, line: &Line, count: Expr) -> u16
    ensures { result ≡ spec.block_count (firm_known table.now location) (expression_of line.now.text count) }
{
    if count.is_empty(line) {
        1
    } else {
        firm_value(table, location, line, count).number
    }
}

fn firm_value(table: &Table, location: u16, line: &Line, count: Expr) -> Value
    ensures { quantity result ≡ value (firm_known table.now location) (expression_of line.now.text count) }
{
    count.value(line, &FirmNames::new(table, location))
}

// The flags of the count of a block, with R for a register, and A for any other value that isn't absolute; none without an expression.
pub(crate) fn count_flags(table: &Table, location: u16, line: &Line, count: Expr) -> ErrorFlags
    ensures { bits_of result ≡ spec.count_flags (firm_known table.now location) (expression_of line.now.text count) }
{
    if count.is_empty(line) {
        return ErrorFlags::none();
    }
    let value = firm_value(table, location, line, count);
    value.flags.with(value.kind.absence())
}
