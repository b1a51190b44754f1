//! The fields of an instruction in a line, and the size of the instruction in bytes. (PDP-11/40 Processor Handbook, "Instruction set";
//! MACRO-11 Language Reference Manual, "Operand field".)

ghost use Rattle.std.specs.Prelude.{◌≡◌, ◌≤◌, if◌then◌else◌, Some, None};
ghost use Rattle.m11_base.specs.Devices.{Bytes};
ghost use Rattle.m11_scan.specs.Views.{bits_of};
ghost use Rattle.m11_scan_expressions.specs.Expressions.{known_by};
ghost use Rattle.m11_scan_expressions.specs.Tokens.{expression_of, is_empty};
ghost use Rattle.m11_unfold_rules.specs.Immediate.{column_after_comma};
ghost use Rattle.m11_asm_rules.specs.Fields as spec;
ghost use Rattle.m11_asm_rules.specs.Operands as operand;
ghost use Rattle.m11_asm_operands.specs.Reads.{bytes_in, field_at_model, field_model, fields_model};
ghost use Rattle.m11_asm_rules.specs.declared.fields.Field.TheVariants.{Missing};
ghost use Rattle.m11_asm_rules.specs.declared.fields.FieldKind.TheVariants.{Operand};

use crate::forms::{form_of, size_of};
use crate::operands::operand_at;
use m11_asm_rules::{Field, FieldKind, Form};
use m11_base::Op;
use m11_scan::{ErrorFlags, Line};
use m11_scan_expressions::{Expr, ExprAt, Names, expr_at};
use m11_unfold_rules::after_comma;

/// The fields of an instruction: at most two.
#[derive(Clone, Copy)]
pub struct Fields {
    /// The first field.
    pub first: Field<Expr>,
    /// The second field.
    pub second: Field<Expr>,
    /// The column after the last field, or where the fields would begin if there are none.
    pub end: u8,
    /// A if an operand, a register, a target or a `)` is missing.
    pub flags: ErrorFlags,
}

// A field as it is read from a line.
#[derive(Clone, Copy)]
pub struct FieldAt {
    pub(crate) field: Field<Expr>,
    // The column after the field.
    pub(crate) end: u8,
    pub(crate) flags: ErrorFlags,
}

impl Fields {
    /// No fields.
    pub fn new() -> Fields
        ensures { (line : Bytes) → fields_model line result ≡ spec.no_fields 0 }
    {
        Fields {
            first: Field::Missing,
            second: Field::Missing,
            end: 0,
            flags: ErrorFlags::none(),
        }
    }

    /// Reads the fields of an operation, which begin at a column of a line; a comma separates two fields. The forms of operands depend on
    /// `names`, which decides whether an expression is a register.
    // speed: in place, since a returned value is copied piece by piece
    pub fn read<N: Names>(&mut self, line: &Line, start: u8, operation: Op, names: &N)
        ensures { fields_model line.now.text self.new
            ≡ spec.fields_at (known_by (N.base names.now) (N.value_of_symbol names.now)) line.now.text start operation }
    {
        let first = field_at(line, start, first_kind(operation), names);
        self.first = first.field;
        let second = field_after(line, first.end, second_kind(operation), names);
        self.second = second.field;
        self.end = second.end;
        self.flags = first.flags.with(second.flags);
    }
}

// The kind of the first field of an operation.
fn first_kind(operation: Op) -> FieldKind
    ensures { result ≡ spec.first_kind operation }
{
    match operation {
        Op::Double(_, _) | Op::Extended(_) | Op::Single(_, _) | Op::Call => FieldKind::Operand,
        Op::Register(_) | Op::Sob | Op::Rts => FieldKind::Register,
        Op::Number(_) => FieldKind::Number,
        Op::Branch(_) => FieldKind::Target,
        Op::Bare(_) | Op::Condition(_) | Op::Return | Op::Codes(_, _) => FieldKind::NoField,
    }
}

// The kind of the second field of an operation.
fn second_kind(operation: Op) -> FieldKind
    ensures { result ≡ spec.second_kind operation }
{
    match operation {
        Op::Double(_, _) | Op::Register(_) => FieldKind::Operand,
        Op::Extended(_) => FieldKind::Register,
        Op::Sob => FieldKind::Target,
        _ => FieldKind::NoField,
    }
}

// The second field, which comes after a comma; without a comma it is missing.
// speed: inline, since most instructions have one field, or none, and then nothing is called.
#[inline(always)]
fn field_after<N: Names>(line: &Line, end: u8, kind: FieldKind, names: &N) -> FieldAt
    ensures { field_at_model line.now.text result ≡ spec.field_after
        (known_by (N.base names.now) (N.value_of_symbol names.now)) line.now.text end kind }
{
    match kind {
        FieldKind::NoField => missing(kind, end),
        _ => field_by(line, end, kind, names),
    }
}

// The field of this kind after a comma; without a comma it is missing.
// speed: a call, since an inlined result would be copied piece by piece.
#[inline(never)]
fn field_by<N: Names>(line: &Line, end: u8, kind: FieldKind, names: &N) -> FieldAt
    ensures { field_at_model line.now.text result ≡ elim (column_after_comma line.now.text end) [
      | Some next ↦ spec.field_at (known_by (N.base names.now) (N.value_of_symbol names.now)) line.now.text next kind
      | None ↦ spec.missing_field end kind
    ] }
{
    match after_comma(line, end) {
        Some(next) => field_at(line, next, kind, names),
        None => missing(kind, end),
    }
}

// A missing field: A for an operand, a register or a target. A number may be left out.
fn missing(kind: FieldKind, end: u8) -> FieldAt
    ensures field { (line : Bytes) → field_at_model line result ≡ spec.missing_field end kind }
    ensures end { result.end ≡ end }
{
    match kind {
        FieldKind::Operand => field_read(Field::Operand(Form::Absent), end, ErrorFlags::A),
        FieldKind::Register | FieldKind::Target => field_read(Field::Missing, end, ErrorFlags::A),
        FieldKind::Number | FieldKind::NoField => {
            field_read(Field::Missing, end, ErrorFlags::none())
        }
    }
}

fn field_read(field: Field<Expr>, end: u8, flags: ErrorFlags) -> FieldAt
    ensures { result ≡ record { field = field; end = end; flags = flags } }
{
    FieldAt { field, end, flags }
}

// The field of this kind at a column.
fn field_at<N: Names>(line: &Line, start: u8, kind: FieldKind, names: &N) -> FieldAt
    ensures { field_at_model line.now.text result ≡ spec.field_at
        (known_by (N.base names.now) (N.value_of_symbol names.now)) line.now.text start kind }
{
    match kind {
        FieldKind::Operand => operand(line, start, names),
        FieldKind::Register => {
            let at = expr_at(line, start);
            expression(line, start, at, Field::Register(at.expr), ErrorFlags::A)
        }
        FieldKind::Target => {
            let at = expr_at(line, start);
            expression(line, start, at, Field::Target(at.expr), ErrorFlags::A)
        }
        FieldKind::Number => {
            let at = expr_at(line, start);
            expression(line, start, at, Field::Number(at.expr), ErrorFlags::none())
        }
        FieldKind::NoField => field_read(Field::Missing, start, ErrorFlags::none()),
    }
}

// The operand at a column.
fn operand<N: Names>(line: &Line, start: u8, names: &N) -> FieldAt
    ensures { field_at_model line.now.text result ≡ spec.field_at
        (known_by (N.base names.now) (N.value_of_symbol names.now)) line.now.text start Operand }
{
    let read = operand_at(line, start);
    field_read(
        Field::Operand(form_of(line, read.operand, names)),
        read.end,
        read.flags,
    )
}

// A field with the expression that was read at a column. Without an expression it is a missing field, with these flags.
fn expression(line: &Line, start: u8, at: ExprAt, field: Field<Expr>, flags: ErrorFlags) -> FieldAt
    ensures { field_at_model line.now.text result ≡ (if is_empty (expression_of line.now.text at.expr)
        then spec.field_read Missing start (bits_of flags) else spec.field_read (field_model line.now.text field) at.end 0) }
{
    if at.expr.is_empty(line) {
        field_read(Field::Missing, start, flags)
    } else {
        field_read(field, at.end, ErrorFlags::none())
    }
}

/// The size of an instruction in bytes, by its fields: 2, 4 or 6.
#[tactic(auto, using(crate::proofs::Sizes::size_of_model))]
pub fn instruction_size(fields: &Fields) -> u16
    ensures { (line : Bytes) → result ≡ operand.instruction_size (spec.forms_of (fields_model line fields.now)) }
{
    2 + bytes_of(&fields.first) + bytes_of(&fields.second)
}

// The number of bytes that a field has after the code word: 0 or 2.
fn bytes_of(field: &Field<Expr>) -> u16
    ensures bytes { result ≡ bytes_in field.now }
    ensures most { result ≤ 2 }
{
    match field {
        Field::Operand(form) => size_of(form),
        _ => 0,
    }
}
