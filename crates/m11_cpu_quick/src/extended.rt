//! MUL, DIV, ASH and ASHC. (PDP-11/40 Processor Handbook, "Extended instruction set".)

ghost use Rattle.std.specs.Prelude.{◌≡◌, ◌<◌, ℕ, IfSome, None};
ghost use Rattle.m11_base.specs.Operand.{register_number};
ghost use Rattle.m11_base.specs.declared.instruction.ExtendedOp.TheVariants.{Mul};
ghost use Rattle.m11_base.specs.declared.operand.Size.TheVariants.{Word};
ghost use Rattle.m11_cpu_machine.specs.Extended.{divided, extended, extended_by};
ghost use Rattle.m11_cpu_quick.specs.Beside.{shown};
ghost use Rattle.m11_cpu_quick.specs.Forms.{IsForm};
ghost use Rattle.m11_cpu_quick.specs.Near.{NearEnds, SameStopAndTrace};

use crate::forms::Form;
use crate::operands::{held, hold, value_of};
use m11_base::{ExtendedOp, Operand, Register, Size};
use m11_cpu_arithmetic::{Division, divide, shift, shift_pair};
use m11_cpu_machine::{Machine, low_word_of};

/// Executes MUL of one of R0 to R5. Returns the program counter after it; or None, with nothing changed, if the source has the form
/// `Other`, or an access to it would involve a device or a trap.
#[inline(always)]
pub(crate) fn multiply(
    machine: &mut Machine,
    register: Register,
    form: Form,
    source: Operand,
    registers: &mut [u16; 8],
    counter: u16,
) -> Option<u16>
    requires general { register_number register < 6 }
    requires source { IsForm form Word source }
    ensures some { IfSome result (λ after. NearEnds (extended Mul register source)
        (shown counter registers.old machine.old) (shown after registers.new machine.new)) }
    ensures keeps { SameStopAndTrace machine.old machine.new }
    ensures none { result ≡ None → machine.new ≡ machine.old }
    ensures registers { result ≡ None → registers.new ≡ registers.old }
{
    let (value, after) = value_of(machine, form, Size::Word, source, registers, counter)?;
    let product = m11_cpu_arithmetic::multiply(held(register, registers), value);
    hold(register, product.high, registers);
    hold(low_word_of(register), product.low, registers);
    machine.set_codes(product.codes);
    Some(after)
}

/// Executes an instruction of the extended set on one of R0 to R5 and a source of any form. Returns the program counter after it; or
/// None, with nothing changed, if the source has the form `Other`, or an access to it would involve a device or a trap.
// speed: the compiler inlines it, since it has one caller.
#[inline]
pub(crate) fn extended_of_any(
    machine: &mut Machine,
    operation: ExtendedOp,
    register: Register,
    source: Operand,
    registers: &mut [u16; 8],
    counter: u16,
) -> Option<u16>
    requires { register_number register < 6 }
    ensures some { IfSome result (λ after. NearEnds (extended operation register source)
        (shown counter registers.old machine.old) (shown after registers.new machine.new)) }
    ensures keeps { SameStopAndTrace machine.old machine.new }
    ensures none { result ≡ None → machine.new ≡ machine.old }
    ensures registers { result ≡ None → registers.new ≡ registers.old }
{
    let form = Form::of(Size::Word, source);
    let (value, after) = value_of(machine, form, Size::Word, source, registers, counter)?;
    extend(machine, operation, register, value, registers);
    Some(after)
}

// Executes an instruction of the extended set with a fetched source.
#[inline(always)]
fn extend(
    machine: &mut Machine,
    operation: ExtendedOp,
    register: Register,
    source: u16,
    registers: &mut [u16; 8],
)
    requires { register_number register < 6 }
    ensures done { (counter : ℕ) → extended_by operation register source (shown counter registers.old machine.old)
        ≡ shown counter registers.new machine.new }
    ensures keeps { SameStopAndTrace machine.old machine.new }
{
    let odd = low_word_of(register);
    match operation {
        ExtendedOp::Mul => {
            let product = m11_cpu_arithmetic::multiply(held(register, registers), source);
            hold(register, product.high, registers);
            hold(odd, product.low, registers);
            machine.set_codes(product.codes);
        }
        ExtendedOp::Div => divide_by(machine, register, source, registers),
        ExtendedOp::Ash => {
            let shifted = shift(held(register, registers), source);
            hold(register, shifted.value, registers);
            machine.set_codes(shifted.codes);
        }
        ExtendedOp::Ashc => {
            let shifted = shift_pair(held(register, registers), held(odd, registers), source);
            hold(register, shifted.high, registers);
            hold(odd, shifted.low, registers);
            machine.set_codes(shifted.codes);
        }
    }
}

// Executes DIV with a fetched divisor. A refused division only sets the condition codes.
#[inline(always)]
fn divide_by(machine: &mut Machine, register: Register, divisor: u16, registers: &mut [u16; 8])
    requires { register_number register < 6 }
    ensures done { (counter : ℕ) → divided register divisor (shown counter registers.old machine.old)
        ≡ shown counter registers.new machine.new }
    ensures keeps { SameStopAndTrace machine.old machine.new }
{
    let odd = low_word_of(register);
    match divide(held(register, registers), held(odd, registers), divisor) {
        Division::Done {
            quotient,
            remainder,
            codes,
        } => {
            hold(register, quotient, registers);
            hold(odd, remainder, registers);
            machine.set_codes(codes);
        }
        Division::Refused(codes) => machine.set_codes(codes),
    }
}
