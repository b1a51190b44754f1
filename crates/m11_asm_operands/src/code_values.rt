//! The values that the code of an instruction needs: those of its registers, targets and numbers, each evaluated once. (PDP-11/40
//! Processor Handbook, "Instruction set" and "Addressing modes".)

ghost use Rattle.std.specs.Prelude.{◌≡◌};
ghost use Rattle.m11_asm_operands.specs.Reads.{field_model, form_model};
ghost use Rattle.m11_asm_operands.specs.CodeValues as spec;
ghost use Rattle.m11_asm_operands.specs.LineContext.{line_context_of};
ghost use Rattle.m11_scan_expressions.specs.Quantities.{quantity};

use crate::line_context::LineContext;
use m11_asm_rules::{Field, Form};
use m11_scan::ErrorFlags;
use m11_scan_expressions::{Expr, Value};

// The value of a field from which the instruction's code needs no register, target or number: 0.
fn no_value() -> Value
    ensures { quantity result ≡ spec.no_value }
{
    Value::absolute(0, ErrorFlags::none())
}

// The value of the register of a form, or 0 if the form has none.
fn form_value(line_context: &LineContext, form: &Form<Expr>) -> Value
    ensures { quantity result ≡ spec.form_value (line_context_of line_context.now) (form_model line_context.now.line form.now) }
{
    match form {
        Form::Absent | Form::AfterCounter(_, _) => no_value(),
        Form::InRegister(_, register) => line_context.value(*register),
        Form::Indexed(_, register, _) => line_context.value(*register),
        Form::Unindexed(register) => line_context.value(*register),
    }
}

// The value of the register, the target or the number of a field, or 0 if the field has none.
// speed: a call would pass the value through memory.
#[inline(always)]
pub(crate) fn field_value(line_context: &LineContext, field: &Field<Expr>) -> Value
    ensures { quantity result ≡ spec.field_value (line_context_of line_context.now) (field_model line_context.now.line field.now) }
{
    match field {
        Field::Operand(form) => form_value(line_context, form),
        Field::Register(register) => line_context.value(*register),
        Field::Target(target) => line_context.value(*target),
        Field::Number(number) => line_context.value(*number),
        Field::Missing => no_value(),
    }
}
