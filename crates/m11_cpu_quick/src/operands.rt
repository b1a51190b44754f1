//! Operands of each form. The registers are passed separately from the machine, and the program counter separately from the
//! registers. (PDP-11/40 Processor Handbook, "Addressing modes".)

ghost use Rattle.std.specs.Prelude.{◌≡◌, ◌<◌, IfSome, None, true, slice_index, slice_set};
ghost use Rattle.m11_cpu_arithmetic.specs.Sizes.{size_limit};
ghost use Rattle.m11_base.specs.Operand.{register_number};
ghost use Rattle.m11_cpu_machine.specs.Addressing.{fetch_operand, location_of};
ghost use Rattle.m11_cpu_machine.specs.declared.addressing.OperandLocation.TheVariants.{InMemory};
ghost use Rattle.m11_cpu_quick.specs.Beside.{low, shown, with_low};
ghost use Rattle.m11_cpu_quick.specs.Forms.{IsForm};
ghost use Rattle.m11_cpu_quick.specs.Near.{Yields, is_plain, plain_at};

use crate::forms::{Form, bytes_of};
use crate::near::{is_plain, plain};
use m11_base::{Operand, Register, Size};
use m11_cpu_machine::{Machine, without_low_byte};

/// The word or byte at the address `counter`; None if reading it would involve a device or a trap.
#[inline(always)]
pub(crate) fn following(machine: &Machine, size: Size, counter: u16) -> Option<u16>
    ensures plain { IfSome result (λ _. is_plain size counter machine.now.memory ≡ true) }
    ensures value { IfSome result (λ value. value ≡ plain_at size counter machine.now.memory) }
    ensures fits { IfSome result (λ value. value < size_limit size) }
{
    match size {
        Size::Word => machine.memory.word_at(counter),
        Size::Byte => {
            if is_plain(machine, size, counter) {
                Some(plain(machine, size, counter))
            } else {
                None
            }
        }
    }
}

/// The effective address of an operand, and the program counter after the operand; or None, with nothing changed, if an access would
/// involve a device or a trap, or for the forms `Register` and `Other`. Only the operand's own register may change.
#[tactic(auto, using(crate::proofs::OperandsFound::put_back, crate::proofs::OperandsFound::kept_back))]
#[inline(always)]
pub(crate) fn address_of(
    machine: &Machine,
    form: Form,
    size: Size,
    operand: Operand,
    registers: &mut [u16; 8],
    counter: u16,
) -> Option<(u16, u16)>
    requires { IsForm form size operand }
    ensures some { IfSome result (λ found. Yields (location_of operand size) (shown counter registers.old machine.now)
        (InMemory found.0) (shown found.1 registers.new machine.now)) }
    ensures plain { IfSome result (λ found. is_plain size found.0 machine.now.memory ≡ true) }
    ensures back { slice_set registers.new (register_number operand.register)
        (slice_index registers.old (register_number operand.register)) ≡ registers.old }
    ensures none { result ≡ None → registers.new ≡ registers.old }
{
    let register = operand.register;
    match form {
        Form::Deferred => {
            let address = held(register, registers);
            if !is_plain(machine, size, address) {
                return None;
            }
            Some((address, counter))
        }
        Form::Increment => {
            let address = held(register, registers);
            if !is_plain(machine, size, address) {
                return None;
            }
            hold(register, address.wrapping_add(bytes_of(size)), registers);
            Some((address, counter))
        }
        Form::Decrement => {
            let address = held(register, registers).wrapping_sub(bytes_of(size));
            if !is_plain(machine, size, address) {
                return None;
            }
            hold(register, address, registers);
            Some((address, counter))
        }
        Form::Index => {
            let index = following(machine, Size::Word, counter)?;
            let address = index.wrapping_add(held(register, registers));
            if !is_plain(machine, size, address) {
                return None;
            }
            Some((address, counter.wrapping_add(2)))
        }
        Form::IncrementPointer => {
            let pointer = held(register, registers);
            let address = following(machine, Size::Word, pointer)?;
            if !is_plain(machine, size, address) {
                return None;
            }
            hold(register, pointer.wrapping_add(2), registers);
            Some((address, counter))
        }
        Form::DecrementPointer => {
            let pointer = held(register, registers).wrapping_sub(2);
            let address = following(machine, Size::Word, pointer)?;
            if !is_plain(machine, size, address) {
                return None;
            }
            hold(register, pointer, registers);
            Some((address, counter))
        }
        Form::IndexPointer => {
            let index = following(machine, Size::Word, counter)?;
            let pointer = index.wrapping_add(held(register, registers));
            let address = following(machine, Size::Word, pointer)?;
            if !is_plain(machine, size, address) {
                return None;
            }
            Some((address, counter.wrapping_add(2)))
        }
        Form::RelativePointer => {
            let index = following(machine, Size::Word, counter)?;
            let after = counter.wrapping_add(2);
            let pointer = index.wrapping_add(after);
            let address = following(machine, Size::Word, pointer)?;
            if !is_plain(machine, size, address) {
                return None;
            }
            Some((address, after))
        }
        Form::Absolute => {
            let address = following(machine, Size::Word, counter)?;
            if !is_plain(machine, size, address) {
                return None;
            }
            Some((address, counter.wrapping_add(2)))
        }
        Form::Relative => {
            let index = following(machine, Size::Word, counter)?;
            let after = counter.wrapping_add(2);
            let address = index.wrapping_add(after);
            if !is_plain(machine, size, address) {
                return None;
            }
            Some((address, after))
        }
        Form::Immediate => {
            if !is_plain(machine, size, counter) {
                return None;
            }
            Some((counter, counter.wrapping_add(2)))
        }
        Form::Register | Form::Other => None,
    }
}

/// The value of an operand, and the program counter after the operand; or None, with nothing changed, if an access would involve a device
/// or a trap, or for the form `Other`. Only the operand's own register may change.
#[tactic(auto, using(crate::proofs::OperandsFound::put_back, crate::proofs::OperandsFound::kept_back))]
#[inline(always)]
pub(crate) fn value_of(
    machine: &Machine,
    form: Form,
    size: Size,
    operand: Operand,
    registers: &mut [u16; 8],
    counter: u16,
) -> Option<(u16, u16)>
    requires { IsForm form size operand }
    ensures some { IfSome result (λ found. Yields (fetch_operand operand size) (shown counter registers.old machine.now)
        found.0 (shown found.1 registers.new machine.now)) }
    ensures fits { IfSome result (λ found. found.0 < size_limit size) }
    ensures back { slice_set registers.new (register_number operand.register)
        (slice_index registers.old (register_number operand.register)) ≡ registers.old }
    ensures none { result ≡ None → registers.new ≡ registers.old }
{
    match form {
        Form::Register => Some((low(size, held(operand.register, registers)), counter)),
        Form::Immediate => {
            let value = following(machine, size, counter)?;
            Some((value, counter.wrapping_add(2)))
        }
        _ => {
            let (address, after) = address_of(machine, form, size, operand, registers, counter)?;
            Some((plain(machine, size, address), after))
        }
    }
}

/// The value of a register in `registers`. That of the program counter has no meaning, since the program counter is passed separately.
#[inline(always)]
pub(crate) fn held(register: Register, registers: &[u16; 8]) -> u16
    ensures { result ≡ slice_index registers.now (register_number register) }
{
    registers[usize::from(register.number())]
}

/// Stores a word in a register.
#[inline(always)]
pub(crate) fn hold(register: Register, value: u16, registers: &mut [u16; 8])
    ensures { registers.new ≡ slice_set registers.old (register_number register) value }
{
    registers[usize::from(register.number())] = value;
}

/// The word itself for a word operand, or its low byte for a byte operand.
#[inline(always)]
pub(crate) fn low(size: Size, value: u16) -> u16
    ensures low { result ≡ low size value }
    ensures fits { result < size_limit size }
{
    match size {
        Size::Word => value,
        Size::Byte => value % 256,
    }
}

/// The value of a register after a result is stored in it. A byte leaves the high byte unchanged.
#[inline(always)]
pub(crate) fn with_low(size: Size, old: u16, value: u16) -> u16
    ensures { result ≡ with_low size old value }
{
    match size {
        Size::Word => value,
        Size::Byte => without_low_byte(old) + value % 256,
    }
}
