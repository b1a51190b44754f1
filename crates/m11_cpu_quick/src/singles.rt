//! Single operand instructions, with an operand of a known form or of any form. (PDP-11/40 Processor Handbook, "Instruction set":
//! single operand instructions.)

ghost use Rattle.std.specs.Prelude.{◌≡◌, ℕ, List, IfSome, None, Some, true};
ghost use Rattle.m11_base.specs.declared.instruction.SingleOp.TheVariants as one;
ghost use Rattle.m11_base.specs.declared.operand.Operand.{Operand};
ghost use Rattle.m11_cpu_machine.specs.Addressing.{location_of};
ghost use Rattle.m11_cpu_machine.specs.DestinationUse.{use_by_single};
ghost use Rattle.m11_cpu_machine.specs.SingleOperands.{change_single, single, test_operand, write};
ghost use Rattle.m11_cpu_machine.specs.declared.addressing.OperandLocation.TheVariants.{InMemory};
ghost use Rattle.m11_cpu_quick.specs.Beside.{shown};
ghost use Rattle.m11_cpu_quick.specs.Forms.{IsForm};
ghost use Rattle.m11_cpu_quick.specs.Near.{NearEnds, SameStopAndTrace, Yields, is_plain};
ghost use Rattle.m11_cpu_quick.specs.declared.forms.Form.TheVariants as form;

use crate::forms::Form;
use crate::near::{plain, status_at, store_plain};
use crate::operands::{address_of, following, held, hold, low, value_of, with_low};
use m11_base::{Operand, SingleOp, Size};
use m11_cpu_machine::{DestinationUse, Machine, use_by_single};

/// Executes an operation on one operand. Returns the program counter after it; or None, with nothing changed, if the operation is JMP, or
/// if the operand has the form `Other`, or an access to it would involve a device or a trap.
// speed: the functions called here have `inline` alone. With `inline(always)` on them this one would be so large that the
// compiler drops its hint, and all operations would share one call.
#[inline(always)]
pub(crate) fn single(
    machine: &mut Machine,
    operation: SingleOp,
    size: Size,
    form: Form,
    operand: Operand,
    registers: &mut [u16; 8],
    counter: u16,
) -> Option<u16>
    requires { IsForm form size operand }
    ensures some { IfSome result (λ after. NearEnds (single operation size operand)
        (shown counter registers.old machine.old) (shown after registers.new machine.new)) }
    ensures keeps { SameStopAndTrace machine.old machine.new }
    ensures none { result ≡ None → machine.new ≡ machine.old }
    ensures registers { result ≡ None → registers.new ≡ registers.old }
{
    match use_by_single(operation) {
        None => None,
        Some(DestinationUse::Writes) => {
            let after = write(machine, operation, size, form, operand, registers, counter)?;
            Some(after)
        }
        Some(DestinationUse::Reads) => {
            let after = test(machine, operation, size, form, operand, registers, counter)?;
            Some(after)
        }
        Some(DestinationUse::Changes) => {
            let after = change(machine, operation, size, form, operand, registers, counter)?;
            Some(after)
        }
    }
}

// Executes CLR, CLRB or SXT, which don't read the operand. Returns None in the cases that `single` names.
#[inline]
fn write(
    machine: &mut Machine,
    operation: SingleOp,
    size: Size,
    form: Form,
    operand: Operand,
    registers: &mut [u16; 8],
    counter: u16,
) -> Option<u16>
    requires { IsForm form size operand }
    ensures some { IfSome result (λ after. NearEnds (write operation size operand)
        (shown counter registers.old machine.old) (shown after registers.new machine.new)) }
    ensures keeps { SameStopAndTrace machine.old machine.new }
    ensures none { result ≡ None → machine.new ≡ machine.old }
    ensures registers { result ≡ None → registers.new ≡ registers.old }
{
    let computed = m11_cpu_arithmetic::single(operation, size, 0, machine.codes());
    match form {
        Form::Register => {
            let old = held(operand.register, registers);
            hold(
                operand.register,
                with_low(size, old, computed.value),
                registers,
            );
            machine.set_codes(computed.codes);
            Some(counter)
        }
        _ => {
            let (address, after) = address_of(machine, form, size, operand, registers, counter)?;
            store_plain(machine, size, address, computed.value);
            machine.set_codes(computed.codes);
            Some(after)
        }
    }
}

// Executes TST or TSTB, which store nothing. Returns None in the cases that `single` names.
#[inline]
fn test(
    machine: &mut Machine,
    operation: SingleOp,
    size: Size,
    form: Form,
    operand: Operand,
    registers: &mut [u16; 8],
    counter: u16,
) -> Option<u16>
    requires { IsForm form size operand }
    ensures some { IfSome result (λ after. NearEnds (test_operand operation size operand)
        (shown counter registers.old machine.old) (shown after registers.new machine.new)) }
    ensures keeps { SameStopAndTrace machine.old machine.new }
    ensures none { result ≡ None → machine.new ≡ machine.old }
    ensures registers { result ≡ None → registers.new ≡ registers.old }
{
    let (value, after) = value_of(machine, form, size, operand, registers, counter)?;
    let computed = m11_cpu_arithmetic::single(operation, size, value, machine.codes());
    machine.set_codes(computed.codes);
    Some(after)
}

// Executes an operation that reads and writes its operand. Returns None in the cases that `single` names.
#[inline]
fn change(
    machine: &mut Machine,
    operation: SingleOp,
    size: Size,
    form: Form,
    operand: Operand,
    registers: &mut [u16; 8],
    counter: u16,
) -> Option<u16>
    requires { IsForm form size operand }
    ensures some { IfSome result (λ after. NearEnds (change_single operation size operand)
        (shown counter registers.old machine.old) (shown after registers.new machine.new)) }
    ensures keeps { SameStopAndTrace machine.old machine.new }
    ensures none { result ≡ None → machine.new ≡ machine.old }
    ensures registers { result ≡ None → registers.new ≡ registers.old }
{
    match form {
        Form::Register => {
            let old = held(operand.register, registers);
            let computed = m11_cpu_arithmetic::single(
                operation,
                size,
                low(size, old),
                machine.codes(),
            );
            hold(
                operand.register,
                with_low(size, old, computed.value),
                registers,
            );
            machine.set_codes(computed.codes);
            Some(counter)
        }
        _ => {
            let (address, after) = address_of(machine, form, size, operand, registers, counter)?;
            let value = plain(machine, size, address);
            let computed = m11_cpu_arithmetic::single(operation, size, value, machine.codes());
            store_plain(machine, size, address, computed.value);
            machine.set_codes(computed.codes);
            Some(after)
        }
    }
}

/// Executes an operation on one operand of any form. Returns the program counter after it; or None, with nothing changed, if the
/// operation is JMP, or if the operand has the form `Other`, or an access to it would involve a trap, or a device in any other way than
/// `poll` does.
// speed: the compiler inlines it, since it has one caller. The value is computed in one place, whatever is read and written.
#[inline]
pub(crate) fn single_of_any(
    machine: &mut Machine,
    operation: SingleOp,
    size: Size,
    operand: Operand,
    registers: &mut [u16; 8],
    counter: u16,
) -> Option<u16>
    ensures some { IfSome result (λ after. NearEnds (single operation size operand)
        (shown counter registers.old machine.old) (shown after registers.new machine.new)) }
    ensures keeps { SameStopAndTrace machine.old machine.new }
    ensures none { result ≡ None → machine.new ≡ machine.old }
    ensures registers { result ≡ None → registers.new ≡ registers.old }
{
    match use_by_single(operation) {
        None => None,
        Some(usage) => {
            let form = Form::of(size, operand);
            let after = single_by_use(
                machine, operation, usage, size, form, operand, registers, counter,
            )?;
            Some(after)
        }
    }
}

// Executes an operation on one operand of any form; `usage` says whether the operation reads it, writes it, or both. Returns None
// in the cases that `single_of_any` names.
#[inline(always)]
fn single_by_use(
    machine: &mut Machine,
    operation: SingleOp,
    usage: DestinationUse,
    size: Size,
    form: Form,
    operand: Operand,
    registers: &mut [u16; 8],
    counter: u16,
) -> Option<u16>
    requires usage { use_by_single operation ≡ Some usage }
    requires form_is { IsForm form size operand }
    ensures some { IfSome result (λ after. NearEnds (single operation size operand)
        (shown counter registers.old machine.old) (shown after registers.new machine.new)) }
    ensures keeps { SameStopAndTrace machine.old machine.new }
    ensures none { result ≡ None → machine.new ≡ machine.old }
    ensures registers { result ≡ None → registers.new ≡ registers.old }
{
    match form {
        Form::Register => {
            single_in_register(machine, operation, usage, size, operand, registers);
            Some(counter)
        }
        _ => match address_of(machine, form, size, operand, registers, counter) {
            Some((address, after)) => {
                single_in_memory(machine, operation, usage, size, address);
                Some(after)
            }
            None => poll(machine, operation, size, form, operand, registers, counter),
        },
    }
}

// Executes TST or TSTB of a status register of the console at an absolute address, as programs do to poll the console. None, with nothing
// changed, for any other operation or operand, or if the receiver would have to ask for a byte.
#[inline(always)]
fn poll(
    machine: &mut Machine,
    operation: SingleOp,
    size: Size,
    form: Form,
    operand: Operand,
    registers: &[u16; 8],
    counter: u16,
) -> Option<u16>
    requires { IsForm form size operand }
    ensures some { IfSome result (λ after. NearEnds (single operation size operand)
        (shown counter registers.now machine.old) (shown after registers.now machine.new)) }
    ensures keeps { SameStopAndTrace machine.old machine.new }
    ensures none { result ≡ None → machine.new ≡ machine.old }
{
    match form {
        Form::Absolute => match operation {
            SingleOp::Tst => {
                let after = test_status(machine, size, operand, registers, counter)?;
                Some(after)
            }
            _ => None,
        },
        _ => None,
    }
}

// Executes TST or TSTB of a status register of the console at an absolute address. None, with nothing changed, if the address can't be read
// from memory or isn't that of a status register, or if the receiver would have to ask for a byte.
#[tactic(auto, using(crate::proofs::ResultsPut::byte_fits))]
#[inline(always)]
fn test_status(
    machine: &mut Machine,
    size: Size,
    operand: Operand,
    registers: &[u16; 8],
    counter: u16,
) -> Option<u16>
    requires { IsForm form.Absolute size operand }
    ensures some { IfSome result (λ after. NearEnds (single one.Tst size operand)
        (shown counter registers.now machine.old) (shown after registers.now machine.new)) }
    ensures keeps { SameStopAndTrace machine.old machine.new }
    ensures none { result ≡ None → machine.new ≡ machine.old }
{
    let address = following(machine, Size::Word, counter)?;
    let value = status_at(machine, address)?;
    let computed = m11_cpu_arithmetic::single(SingleOp::Tst, size, value, machine.codes());
    machine.set_codes(computed.codes);
    Some(counter.wrapping_add(2))
}

// Executes an operation on a register; `usage` says whether the operation reads it, writes it, or both.
#[inline(always)]
fn single_in_register(
    machine: &mut Machine,
    operation: SingleOp,
    usage: DestinationUse,
    size: Size,
    operand: Operand,
    registers: &mut [u16; 8],
)
    requires usage { use_by_single operation ≡ Some usage }
    requires form_is { IsForm form.Register size operand }
    ensures done { (counter : ℕ) → NearEnds (single operation size operand)
        (shown counter registers.old machine.old) (shown counter registers.new machine.new) }
    ensures keeps { SameStopAndTrace machine.old machine.new }
{
    let old = held(operand.register, registers);
    let computed = m11_cpu_arithmetic::single(operation, size, low(size, old), machine.codes());
    match usage {
        DestinationUse::Writes => {
            hold(
                operand.register,
                with_low(size, old, computed.value),
                registers,
            );
            machine.set_codes(computed.codes);
        }
        DestinationUse::Reads => machine.set_codes(computed.codes),
        DestinationUse::Changes => {
            hold(
                operand.register,
                with_low(size, old, computed.value),
                registers,
            );
            machine.set_codes(computed.codes);
        }
    }
}

// Executes an operation on the word or byte in memory at this address; `usage` says whether the operation reads it, writes it, or both.
#[inline(always)]
fn single_in_memory(
    machine: &mut Machine,
    operation: SingleOp,
    usage: DestinationUse,
    size: Size,
    address: u16,
)
    requires usage { use_by_single operation ≡ Some usage }
    requires plain { is_plain size address machine.old.memory ≡ true }
    ensures done { (operand : Operand) (before after : ℕ) (registers stepped : List ℕ)
        → Yields (location_of operand size) (shown before registers machine.old) (InMemory address) (shown after stepped machine.old)
        → NearEnds (single operation size operand) (shown before registers machine.old) (shown after stepped machine.new) }
    ensures keeps { SameStopAndTrace machine.old machine.new }
{
    let value = plain(machine, size, address);
    let computed = m11_cpu_arithmetic::single(operation, size, value, machine.codes());
    match usage {
        DestinationUse::Writes => {
            store_plain(machine, size, address, computed.value);
            machine.set_codes(computed.codes);
        }
        DestinationUse::Reads => machine.set_codes(computed.codes),
        DestinationUse::Changes => {
            store_plain(machine, size, address, computed.value);
            machine.set_codes(computed.codes);
        }
    }
}
