//! Registers and operands in the code of an instruction, and the words after the code word. (PDP-11/40 Processor Handbook, "Addressing
//! modes"; MACRO-11 Language Reference Manual, "Diagnostic error message summary", R.)

ghost use Rattle.std.specs.Prelude.{◌≡◌, ◌%◌, IfOk};
ghost use Rattle.m11_scan_expressions.specs.Expressions.{value};
ghost use Rattle.m11_scan_expressions.specs.Tokens.{expression_of};
ghost use Rattle.m11_base.specs.Devices.{Bytes};
ghost use Rattle.m11_base.specs.Operand.{register_of};
ghost use Rattle.m11_asm_operands.specs.Reads.{form_model};
ghost use Rattle.m11_asm_operands.specs.CodeValues.{form_value};
ghost use Rattle.m11_asm_operands.specs.LineContext.{line_context_of};
ghost use Rattle.m11_asm_rules.specs.Codes as spec;
ghost use Rattle.m11_asm_rules.specs.Codes.{LineContext as Stated};
ghost use Rattle.m11_asm_rules.specs.Contents.{followed_by, word};
ghost use Rattle.m11_scan.specs.Views.{bits_of};
ghost use Rattle.m11_scan_expressions.specs.Quantities.{quantity};

use crate::emission::Emission;
use crate::line_context::LineContext;
use crate::values::emit_word;
use m11_asm_rules::Form;
use m11_base::{Mode, Operand, Register};
use m11_scan::ErrorFlags;
use m11_scan_expressions::{Expr, Value};
use std::alloc::AllocError;

// The register whose number is that of the value, modulo 8.
pub(crate) fn register(value: &Value) -> Register
    ensures { result ≡ register_of (value.now.number % 8) }
{
    Register::of_bits(value.number)
}

// The flags of a value as a register: its own, and R if the value isn't a register.
pub(crate) fn as_register_flags(value: &Value) -> ErrorFlags
    ensures { bits_of result ≡ spec.as_register_flags (quantity value.now) }
{
    let flags = value.flags;
    flags.with(ErrorFlags::R.when(!value.kind.is_register()))
}

fn operand(mode: Mode, register: Register) -> Operand
    ensures { result ≡ spec.operand mode register }
{
    Operand { mode, register }
}

// The mode and the register of a form whose register has this value; R0 for a missing operand, and PC for a form without a register of its
// own.
pub(crate) fn operand_of(form: &Form<Expr>, value: &Value) -> Operand
    ensures { (line_context : Stated) (line : Bytes) → quantity value.now ≡ form_value line_context (form_model line form.now)
        → result ≡ spec.operand_of line_context (form_model line form.now) }
{
    match form {
        Form::Absent => operand(Mode::Register, Register::R0),
        Form::InRegister(mode, _) => operand(*mode, register(value)),
        Form::Indexed(mode, _, _) => operand(*mode, register(value)),
        Form::Unindexed(_) => operand(Mode::IndexDeferred, register(value)),
        Form::AfterCounter(mode, _) => operand(*mode, Register::Pc),
    }
}

// The flags of a form whose register has this value; none if the form has no register.
pub(crate) fn form_flags(form: &Form<Expr>, value: &Value) -> ErrorFlags
    ensures { (line_context : Stated) (line : Bytes) → quantity value.now ≡ form_value line_context (form_model line form.now)
        → bits_of result ≡ spec.form_flags line_context (form_model line form.now) }
{
    match form {
        Form::Absent | Form::AfterCounter(_, _) => ErrorFlags::none(),
        Form::InRegister(_, _) | Form::Indexed(_, _, _) | Form::Unindexed(_) => {
            as_register_flags(value)
        }
    }
}

// Whether a mode used with PC is relative or relative deferred: the word after the code word is a distance, which is added to PC.
fn is_relative(mode: Mode) -> bool
    ensures { result ≡ spec.is_relative mode }
{
    matches!(mode, Mode::Index | Mode::IndexDeferred)
}

// Emits the word that a form has after the code word, if it has one, at the word's own location, with its flags. In the expression of the
// word, `.` is the location of the instruction. Error: memory may be refused.
#[tactic(auto, using(crate::proofs::Joining::followed_nothing))]
pub(crate) fn emit_form(
    emission: &mut Emission,
    line_context: &LineContext,
    location: u16,
    form: &Form<Expr>,
) -> Result<(), AllocError>
    ensures { IfOk result (λ _. emission.new ≡ followed_by emission.old
        (spec.form_words (line_context_of line_context.now) location (form_model line_context.now.line form.now))) }
{
    match form {
        Form::Absent | Form::InRegister(_, _) => Ok(()),
        Form::Indexed(_, _, index) => {
            emit_reference(emission, line_context, false, location, *index)
        }
        Form::Unindexed(_) => emission.add_fixed_word(0),
        Form::AfterCounter(mode, number) => {
            emit_reference(
                emission,
                line_context,
                is_relative(*mode),
                location,
                *number,
            )
        }
    }
}

// Emits a word for an expression of the line, with its flags, as `emit_word` does. Error: memory may be refused.
fn emit_reference(
    emission: &mut Emission,
    line_context: &LineContext,
    is_relative: bool,
    location: u16,
    place: Expr,
) -> Result<(), AllocError>
    ensures { IfOk result (λ _. emission.new ≡ followed_by emission.old (word line_context.now.table is_relative
        location (value (line_context_of line_context.now).refers (expression_of line_context.now.line place)))) }
{
    let value = line_context.reference(place);
    emit_word(emission, line_context, is_relative, location, value)
}
