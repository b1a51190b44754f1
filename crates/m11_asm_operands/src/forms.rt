//! The forms of operands: their modes, their registers, and the words after the code word. (PDP-11/40 Processor Handbook, "Addressing
//! modes".)

ghost use Rattle.std.specs.Prelude.{◌≡◌, ◌≤◌, ◌*◌};
ghost use Rattle.m11_scan_expressions.specs.Expressions.{known_by, value};
ghost use Rattle.m11_scan_expressions.specs.Kinds.{is_register};
ghost use Rattle.m11_scan_expressions.specs.Tokens.{expression_of};
ghost use Rattle.m11_asm_rules.specs.Operands as spec;
ghost use Rattle.m11_asm_operands.specs.Reads.{form_model, written_operand_model};

use m11_asm_rules::{Form, WrittenOperand};
use m11_base::Mode;
use m11_scan::Line;
use m11_scan_expressions::{Expr, Names};

// The form of an operand. Whether an expression is a register depends on `names`.
// speed: a call would pass its result through memory.
#[inline(always)]
pub(crate) fn form_of<N: Names>(line: &Line, operand: WrittenOperand<Expr>, names: &N) -> Form<Expr>
    ensures { form_model line.now.text result
        ≡ spec.form_of (known_by (N.base names.now) (N.value_of_symbol names.now)) (written_operand_model line.now.text operand) }
{
    match operand {
        WrittenOperand::Absent => Form::Absent,
        WrittenOperand::Plain(is_deferred, place) => {
            if is_register(line, place, names) {
                Form::InRegister(direct(is_deferred), place)
            } else {
                Form::AfterCounter(indexed(is_deferred), place)
            }
        }
        WrittenOperand::Pointed(true, register) => Form::Unindexed(register),
        WrittenOperand::Pointed(false, register) => {
            Form::InRegister(Mode::RegisterDeferred, register)
        }
        WrittenOperand::Stepped(is_deferred, register) => {
            Form::InRegister(autoincrement(is_deferred), register)
        }
        WrittenOperand::Before(is_deferred, register) => {
            Form::InRegister(autodecrement(is_deferred), register)
        }
        WrittenOperand::Indexed(is_deferred, index, register) => {
            Form::Indexed(indexed(is_deferred), register, index)
        }
        WrittenOperand::Immediate(is_deferred, number) => {
            Form::AfterCounter(autoincrement(is_deferred), number)
        }
    }
}

// Whether an expression is a register.
// speed: a call would pass the value through memory.
#[inline(always)]
fn is_register<N: Names>(line: &Line, place: Expr, names: &N) -> bool
    ensures { result ≡ is_register
        (value (known_by (N.base names.now) (N.value_of_symbol names.now)) (expression_of line.now.text place)).kind }
{
    place.value(line, names).kind.is_register()
}

fn autoincrement(is_deferred: bool) -> Mode
    ensures { result ≡ spec.autoincrement is_deferred }
{
    if is_deferred {
        Mode::AutoincrementDeferred
    } else {
        Mode::Autoincrement
    }
}

fn autodecrement(is_deferred: bool) -> Mode
    ensures { result ≡ spec.autodecrement is_deferred }
{
    if is_deferred {
        Mode::AutodecrementDeferred
    } else {
        Mode::Autodecrement
    }
}

fn indexed(is_deferred: bool) -> Mode
    ensures { result ≡ spec.indexed is_deferred }
{
    if is_deferred {
        Mode::IndexDeferred
    } else {
        Mode::Index
    }
}

fn direct(is_deferred: bool) -> Mode
    ensures { result ≡ spec.direct is_deferred }
{
    if is_deferred {
        Mode::RegisterDeferred
    } else {
        Mode::Register
    }
}

// The number of bytes that an operand of this form has after the code word: 0 or 2.
pub(crate) fn size_of(form: &Form<Expr>) -> u16
    ensures size { result ≡ spec.words_of form.now * 2 }
    ensures most { result ≤ 2 }
{
    match form {
        Form::Absent | Form::InRegister(_, _) => 0,
        Form::Indexed(_, _, _) | Form::Unindexed(_) | Form::AfterCounter(_, _) => 2,
    }
}
