//! The operands, registers, offsets and numbers in the code of an instruction, and the flags of its fields. (PDP-11/40 Processor Handbook,
//! "Instruction set"; MACRO-11 Language Reference Manual, "Diagnostic error message summary", A, R and T.)

ghost use Rattle.std.specs.Prelude.{◌≡◌, ◌<◌, ◌%◌, IsTrue, nat_le};
ghost use Rattle.m11_base.specs.Devices.{Bytes};
ghost use Rattle.m11_asm_operands.specs.Reads.{field_model};
ghost use Rattle.m11_base.specs.Encoding as encoding;
ghost use Rattle.m11_base.specs.declared.instruction.Op.TheVariants as op;
ghost use Rattle.m11_asm_operands.specs.CodeValues.{field_value};
ghost use Rattle.m11_asm_operands.specs.LineContext.{line_context_of};
ghost use Rattle.m11_asm_operands.specs.ListedOperations.{is_listed};
ghost use Rattle.m11_asm_rules.specs.Branches.{branch_offset, branch_reaches, loop_offset, loop_reaches};
ghost use Rattle.m11_asm_rules.specs.Codes as spec;
ghost use Rattle.m11_asm_rules.specs.Codes.{LineContext as Stated};
ghost use Rattle.m11_scan.specs.ErrorFlags.{flag_T, flag_if};
ghost use Rattle.m11_scan.specs.Views.{bits_of};
ghost use Rattle.m11_scan_expressions.specs.Expressions as expressions;
ghost use Rattle.m11_scan_expressions.specs.Quantities.{quantity};
ghost use Rattle.m11_asm_rules.specs.declared.fields.Field.TheVariants as content;

use crate::branches::{branch_offset, branch_reaches, loop_offset, loop_reaches};
use crate::fields::Fields;
use crate::line_context::LineContext;
use crate::operand_fields::{as_register_flags, form_flags, operand_of, register};
use m11_asm_rules::{Field, register_flags};
use m11_base::{BareOp, Insn, Mode, NumberOp, Op, Operand, Register, RegisterOp};
use m11_scan::ErrorFlags;
use m11_scan_expressions::{Expr, Value};

// The operand in a field with this value; R0 if the field has none.
fn operand_in(field: &Field<Expr>, value: &Value) -> Operand
    ensures { (line_context : Stated) (line : Bytes) → quantity value.now ≡ field_value line_context (field_model line field.now)
        → result ≡ spec.operand_in line_context (field_model line field.now) }
{
    match field {
        Field::Operand(form) => operand_of(form, value),
        _ => Operand {
            mode: Mode::Register,
            register: Register::R0,
        },
    }
}

// The register in a field with this value; R0 if the field has none.
fn register_in(field: &Field<Expr>, value: &Value) -> Register
    ensures { (line_context : Stated) (line : Bytes) → quantity value.now ≡ field_value line_context (field_model line field.now)
        → result ≡ spec.register_in line_context (field_model line field.now) }
{
    match field {
        Field::Register(_) => register(value),
        _ => Register::R0,
    }
}

// The offset of a branch to the target in a field with this value; 0 if the field has none.
fn branch_in(line_context: &LineContext, field: &Field<Expr>, value: &Value) -> u8
    requires { quantity value.now ≡ field_value (line_context_of line_context.now) (field_model line_context.now.line field.now) }
    ensures { result ≡ elim (field_model line_context.now.line field.now) [
      | content.Target target ↦ branch_offset line_context.now.table line_context.now.location
          (expressions.value (line_context_of line_context.now).known target)
      | _ ↦ 0
    ] }
{
    match field {
        Field::Target(_) => branch_offset(line_context.table(), line_context.location(), value),
        _ => 0,
    }
}

// The offset of SOB to the target in a field with this value; 0 if the field has none.
fn loop_in(line_context: &LineContext, field: &Field<Expr>, value: &Value) -> u8
    requires { quantity value.now ≡ field_value (line_context_of line_context.now) (field_model line_context.now.line field.now) }
    ensures offset { result ≡ elim (field_model line_context.now.line field.now) [
      | content.Target target ↦ loop_offset line_context.now.table line_context.now.location
          (expressions.value (line_context_of line_context.now).known target)
      | _ ↦ 0
    ] }
    ensures below { result < 64 }
{
    match field {
        Field::Target(_) => loop_offset(line_context.table(), line_context.location(), value),
        _ => 0,
    }
}

// The number in a field with this value, cut to the bits that the code has for it; 0 if the field has none.
fn number_in(operation: NumberOp, field: &Field<Expr>, value: &Value) -> u8
    ensures number { (line_context : Stated) (line : Bytes) → quantity value.now ≡ field_value line_context (field_model line field.now)
        → result ≡ elim (field_model line field.now) [
          | content.Number count ↦ expressions.number line_context.known count % encoding.number_limit operation
          | _ ↦ 0
        ] }
    ensures below { result < encoding.number_limit operation }
{
    match field {
        Field::Number(_) => (value.number % number_limit(operation)) as u8,
        _ => 0,
    }
}

// One more than the greatest number that the code has bits for.
fn number_limit(operation: NumberOp) -> u16
    ensures { result ≡ encoding.number_limit operation }
{
    match operation {
        NumberOp::Mark => 0o100,
        NumberOp::Emt | NumberOp::Trap => 0o400,
    }
}

// The instruction with this operation, these fields and their values. It can be encoded, since the operation is in the list of
// instructions.
pub(crate) fn instruction(
    line_context: &LineContext,
    operation: Op,
    fields: &Fields,
    first: &Value,
    second: &Value,
) -> Insn
    requires listed { IsTrue (is_listed operation) }
    requires first { quantity first.now ≡ field_value (line_context_of line_context.now) (field_model line_context.now.line fields.now.first) }
    requires second { quantity second.now ≡ field_value (line_context_of line_context.now) (field_model line_context.now.line fields.now.second) }
    ensures instruction { result ≡ spec.instruction (line_context_of line_context.now) operation
        (field_model line_context.now.line fields.now.first) (field_model line_context.now.line fields.now.second) }
    ensures fits { IsTrue (encoding.fits result) }
{
    match operation {
        Op::Double(operation, size) => Insn::Double(
            operation,
            size,
            operand_in(&fields.first, first),
            operand_in(&fields.second, second),
        ),
        Op::Extended(operation) => Insn::Extended(
            operation,
            register_in(&fields.second, second),
            operand_in(&fields.first, first),
        ),
        Op::Register(operation) => Insn::Register(
            operation,
            register_in(&fields.first, first),
            operand_in(&fields.second, second),
        ),
        Op::Sob => Insn::Sob(
            register_in(&fields.first, first),
            loop_in(line_context, &fields.second, second),
        ),
        Op::Single(operation, size) => {
            Insn::Single(operation, size, operand_in(&fields.first, first))
        }
        Op::Rts => Insn::Rts(register_in(&fields.first, first)),
        Op::Number(operation) => {
            Insn::Number(operation, number_in(operation, &fields.first, first))
        }
        Op::Bare(operation) => Insn::Bare(operation),
        Op::Condition(_) => Insn::Bare(BareOp::Halt),
        Op::Branch(operation) => {
            let offset = branch_in(line_context, &fields.first, first);
            Insn::Branch(operation, offset.cast_signed())
        }
        Op::Call => Insn::Register(
            RegisterOp::Jsr,
            Register::Pc,
            operand_in(&fields.first, first),
        ),
        Op::Return => Insn::Rts(Register::Pc),
        Op::Codes(operation, codes) => Insn::Condition(operation, codes),
    }
}

// Whether a branch or SOB reaches its target.
fn reaches(line_context: &LineContext, operation: Op, target: &Value) -> bool
    ensures { result ≡ elim operation [
      | op.Sob ↦ loop_reaches line_context.now.table line_context.now.location (quantity target.now)
      | _ ↦ branch_reaches line_context.now.table line_context.now.location (quantity target.now)
    ] }
{
    match operation {
        Op::Sob => loop_reaches(line_context.table(), line_context.location(), target),
        _ => branch_reaches(line_context.table(), line_context.location(), target),
    }
}

// T for a number too large for the bits that the code has for it.
fn limit_flags(operation: Op, number: u16) -> ErrorFlags
    ensures { bits_of result ≡ elim operation [
      | op.Number numbering ↦ flag_if (nat_le (encoding.number_limit numbering) number) flag_T
      | _ ↦ 0
    ] }
{
    match operation {
        Op::Number(operation) => ErrorFlags::T.when(number >= number_limit(operation)),
        _ => ErrorFlags::none(),
    }
}

// The flags of a number in the code, with R for a register, A for any other value that isn't absolute, and T for a number too large for its
// bits.
fn numbered_flags(operation: Op, value: &Value) -> ErrorFlags
    ensures { bits_of result ≡ spec.numbered_flags operation (quantity value.now) }
{
    value
        .flags
        .with(value.kind.absence())
        .with(limit_flags(operation, value.number))
}

// The flags of a target with this value, with R for a register, and A if the target is out of reach.
fn targeted_flags(line_context: &LineContext, operation: Op, value: &Value) -> ErrorFlags
    ensures { bits_of result ≡ spec.targeted_flags (line_context_of line_context.now) operation (quantity value.now) }
{
    let flags = value.flags.with(register_flags(value.kind));
    flags.with(ErrorFlags::A.when(!reaches(line_context, operation, value)))
}

// The flags of a field with this value. The flag A for a missing field isn't among them; it is in `Fields::flags`.
pub(crate) fn field_flags(
    line_context: &LineContext,
    operation: Op,
    field: &Field<Expr>,
    value: &Value,
) -> ErrorFlags
    requires { quantity value.now ≡ field_value (line_context_of line_context.now) (field_model line_context.now.line field.now) }
    ensures { bits_of result ≡ spec.field_flags (line_context_of line_context.now) operation (field_model line_context.now.line field.now) }
{
    match field {
        Field::Operand(form) => form_flags(form, value),
        Field::Register(_) => as_register_flags(value),
        Field::Target(_) => targeted_flags(line_context, operation, value),
        Field::Number(_) => numbered_flags(operation, value),
        Field::Missing => ErrorFlags::none(),
    }
}
