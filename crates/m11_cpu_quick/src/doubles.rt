//! Double operand instructions, with operands of known forms or of any form. (PDP-11/40 Processor Handbook, "Instruction set": double
//! operand instructions.)

ghost use Rattle.std.specs.Prelude.{◌≡◌, ◌<◌, ℕ, List, IfSome, None, true};
ghost use Rattle.m11_cpu_arithmetic.specs.Sizes.{size_limit};
ghost use Rattle.m11_base.specs.Operand.{register_number};
ghost use Rattle.m11_base.specs.declared.operand.Size.TheVariants.{Word};
ghost use Rattle.m11_cpu_machine.specs.DoubleOperands.{double, double_at, exclusive_or};
ghost use Rattle.m11_cpu_machine.specs.declared.addressing.OperandLocation.TheVariants.{InMemory, InRegister};
ghost use Rattle.m11_cpu_quick.specs.Beside.{moved, shown};
ghost use Rattle.m11_cpu_quick.specs.Forms.{IsForm};
ghost use Rattle.m11_cpu_quick.specs.Near.{NearEnds, SameStopAndTrace, double_onto, is_plain};
ghost use Rattle.m11_cpu_quick.specs.declared.forms.Form.TheVariants as form;

use crate::forms::Form;
use crate::near::{plain, store_plain};
use crate::operands::{address_of, held, hold, low, value_of, with_low};
use m11_base::{DoubleOp, Operand, Register, Size};
use m11_cpu_machine::{DestinationUse, Machine, sign_extended, use_by_double};

/// Executes an operation whose destination is a register. Returns the program counter after it; or None, with nothing changed, if the
/// source has the form `Other`, or an access to it would involve a device or a trap.
#[inline(always)]
pub(crate) fn double_to_register(
    machine: &mut Machine,
    operation: DoubleOp,
    size: Size,
    source_form: Form,
    source: Operand,
    destination: Operand,
    registers: &mut [u16; 8],
    counter: u16,
) -> Option<u16>
    requires source { IsForm source_form size source }
    requires destination { IsForm form.Register size destination }
    ensures some { IfSome result (λ after. NearEnds (double operation size source destination)
        (shown counter registers.old machine.old) (shown after registers.new machine.new)) }
    ensures keeps { SameStopAndTrace machine.old machine.new }
    ensures none { result ≡ None → machine.new ≡ machine.old }
    ensures registers { result ≡ None → registers.new ≡ registers.old }
{
    let (value, after) = value_of(machine, source_form, size, source, registers, counter)?;
    double_into_register(
        machine,
        operation,
        size,
        value,
        destination.register,
        registers,
    );
    Some(after)
}

/// Executes an operation whose destination is in memory. Returns the program counter after it; or None, with nothing changed, if the
/// destination is a register, if an operand has the form `Other`, or if an access to one would involve a device or a trap.
// speed: with `inline(always)` here `to_memory` would be so large that the compiler drops the hint on it, and all operations
// would share one call.
#[inline]
pub(crate) fn double_to_memory(
    machine: &mut Machine,
    operation: DoubleOp,
    size: Size,
    source_form: Form,
    destination_form: Form,
    source: Operand,
    destination: Operand,
    registers: &mut [u16; 8],
    counter: u16,
) -> Option<u16>
    requires source { IsForm source_form size source }
    requires destination { IsForm destination_form size destination }
    ensures some { IfSome result (λ after. NearEnds (double operation size source destination)
        (shown counter registers.old machine.old) (shown after registers.new machine.new)) }
    ensures keeps { SameStopAndTrace machine.old machine.new }
    ensures none { result ≡ None → machine.new ≡ machine.old }
    ensures registers { result ≡ None → registers.new ≡ registers.old }
{
    // Only the source's register is saved: if all were copied, each step would wait for the last store into them.
    let before = held(source.register, registers);
    let (value, middle) = value_of(machine, source_form, size, source, registers, counter)?;
    match address_of(
        machine,
        destination_form,
        size,
        destination,
        registers,
        middle,
    ) {
        Some((address, after)) => {
            double_into_memory(machine, operation, size, value, address);
            Some(after)
        }
        None => {
            hold(source.register, before, registers);
            None
        }
    }
}

/// Executes an operation on operands of any form. Returns the program counter after it; or None, with nothing changed, if an operand has
/// the form `Other`, or an access to one would involve a device or a trap.
// speed: the compiler inlines it, since it has one caller.
#[inline]
pub(crate) fn double_of_any(
    machine: &mut Machine,
    operation: DoubleOp,
    size: Size,
    source: Operand,
    destination: Operand,
    registers: &mut [u16; 8],
    counter: u16,
) -> Option<u16>
    ensures some { IfSome result (λ after. NearEnds (double operation size source destination)
        (shown counter registers.old machine.old) (shown after registers.new machine.new)) }
    ensures keeps { SameStopAndTrace machine.old machine.new }
    ensures none { result ≡ None → machine.new ≡ machine.old }
    ensures registers { result ≡ None → registers.new ≡ registers.old }
{
    let from = Form::of(size, source);
    let to = Form::of(size, destination);
    let kept = held(source.register, registers);
    let (value, middle) = value_of(machine, from, size, source, registers, counter)?;
    match double_onto(
        machine,
        operation,
        size,
        value,
        to,
        destination,
        registers,
        middle,
    ) {
        Some(after) => Some(after),
        None => {
            hold(source.register, kept, registers);
            None
        }
    }
}

/// Executes XOR of a register other than the program counter and a destination of any form. Returns the program counter after it; or
/// None, with nothing changed, if the destination has the form `Other`, or an access to it would involve a device or a trap.
// speed: the compiler inlines it, since it has one caller.
#[inline]
pub(crate) fn exclusive_or_of_any(
    machine: &mut Machine,
    register: Register,
    form: Form,
    destination: Operand,
    registers: &mut [u16; 8],
    counter: u16,
) -> Option<u16>
    requires general { register_number register < 7 }
    requires form_is { IsForm form Word destination }
    ensures some { IfSome result (λ after. NearEnds (exclusive_or register destination)
        (shown counter registers.old machine.old) (shown after registers.new machine.new)) }
    ensures keeps { SameStopAndTrace machine.old machine.new }
    ensures none { result ≡ None → machine.new ≡ machine.old }
    ensures registers { result ≡ None → registers.new ≡ registers.old }
{
    let source = held(register, registers);
    match form {
        Form::Register => {
            let value = held(destination.register, registers);
            let computed = m11_cpu_arithmetic::exclusive_or(source, value, machine.codes());
            hold(destination.register, computed.value, registers);
            machine.set_codes(computed.codes);
            Some(counter)
        }
        _ => {
            let (address, after) = address_of(
                machine,
                form,
                Size::Word,
                destination,
                registers,
                counter,
            )?;
            let value = plain(machine, Size::Word, address);
            let computed = m11_cpu_arithmetic::exclusive_or(source, value, machine.codes());
            store_plain(machine, Size::Word, address, computed.value);
            machine.set_codes(computed.codes);
            Some(after)
        }
    }
}

// Executes an operation on a fetched source and a destination of any form. Returns the program counter after it; or None, with nothing
// changed, if the destination has the form `Other`, or an access to it would involve a device or a trap.
#[inline(always)]
fn double_onto(
    machine: &mut Machine,
    operation: DoubleOp,
    size: Size,
    source: u16,
    form: Form,
    destination: Operand,
    registers: &mut [u16; 8],
    counter: u16,
) -> Option<u16>
    requires form_is { IsForm form size destination }
    requires fits { source < size_limit size }
    ensures some { IfSome result (λ after. NearEnds (double_onto operation size source destination)
        (shown counter registers.old machine.old) (shown after registers.new machine.new)) }
    ensures keeps { SameStopAndTrace machine.old machine.new }
    ensures none { result ≡ None → machine.new ≡ machine.old }
    ensures registers { result ≡ None → registers.new ≡ registers.old }
{
    match form {
        Form::Register => {
            double_into_register(
                machine,
                operation,
                size,
                source,
                destination.register,
                registers,
            );
            Some(counter)
        }
        _ => {
            let (address, after) = address_of(
                machine,
                form,
                size,
                destination,
                registers,
                counter,
            )?;
            double_into_memory(machine, operation, size, source, address);
            Some(after)
        }
    }
}

// Executes an operation on a fetched source and a register other than the program counter.
#[inline(always)]
fn double_into_register(
    machine: &mut Machine,
    operation: DoubleOp,
    size: Size,
    source: u16,
    register: Register,
    registers: &mut [u16; 8],
)
    requires general { register_number register < 7 }
    requires fits { source < size_limit size }
    ensures done { (counter : ℕ) → NearEnds (double_at operation size source (InRegister register))
        (shown counter registers.old machine.old) (shown counter registers.new machine.new) }
    ensures keeps { SameStopAndTrace machine.old machine.new }
{
    let old = held(register, registers);
    let computed = m11_cpu_arithmetic::double(
        operation,
        size,
        source,
        low(size, old),
        machine.codes(),
    );
    match use_by_double(operation) {
        DestinationUse::Writes => {
            hold(register, moved(size, source), registers);
            machine.set_codes(computed.codes);
        }
        DestinationUse::Reads => machine.set_codes(computed.codes),
        DestinationUse::Changes => {
            hold(register, with_low(size, old, computed.value), registers);
            machine.set_codes(computed.codes);
        }
    }
}

// Executes an operation on a fetched source and the word or byte in memory at this address.
#[inline(always)]
fn double_into_memory(
    machine: &mut Machine,
    operation: DoubleOp,
    size: Size,
    source: u16,
    address: u16,
)
    requires plain { is_plain size address machine.old.memory ≡ true }
    requires fits { source < size_limit size }
    ensures done { (counter : ℕ) (registers : List ℕ) → NearEnds (double_at operation size source (InMemory address))
        (shown counter registers machine.old) (shown counter registers machine.new) }
    ensures keeps { SameStopAndTrace machine.old machine.new }
{
    let value = plain(machine, size, address);
    let computed = m11_cpu_arithmetic::double(operation, size, source, value, machine.codes());
    match use_by_double(operation) {
        DestinationUse::Writes => {
            store_plain(machine, size, address, source);
            machine.set_codes(computed.codes);
        }
        DestinationUse::Reads => machine.set_codes(computed.codes),
        DestinationUse::Changes => {
            store_plain(machine, size, address, computed.value);
            machine.set_codes(computed.codes);
        }
    }
}

// The value that MOV or MOVB stores in a register: the word, or the byte sign-extended to a word.
#[inline(always)]
fn moved(size: Size, value: u16) -> u16
    ensures { result ≡ moved size value }
{
    match size {
        Size::Word => value,
        Size::Byte => sign_extended(value),
    }
}
