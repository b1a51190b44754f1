//! Branches, SOB, jumps, subroutine calls and returns. (PDP-11/40 Processor Handbook, "Instruction set": program control.)

ghost use Rattle.std.specs.Prelude.{◌≡◌, ◌<◌, ◌%◌, IfSome, None};
ghost use Rattle.std.specs.Int.{cast_signed, w8};
ghost use Rattle.m11_base.specs.Operand.{register_number};
ghost use Rattle.m11_base.specs.declared.operand.Register.TheVariants.{Pc};
ghost use Rattle.m11_base.specs.declared.operand.Size.TheVariants.{Word};
ghost use Rattle.m11_cpu_machine.specs.declared.machine.Machine.{Machine};
ghost use Rattle.m11_cpu_machine.specs.Execution.{return_from_trap};
ghost use Rattle.m11_cpu_machine.specs.Jumps.{branched, call, counted_down, jump, return_by};
ghost use Rattle.m11_cpu_quick.specs.Beside.{shown};
ghost use Rattle.m11_cpu_quick.specs.Forms.{IsForm};
ghost use Rattle.m11_cpu_quick.specs.Near.{NearEnds, SameStopAndTrace};

use crate::forms::Form;
use crate::near::{is_plain, plain, store_plain};
use crate::operands::{address_of, following, held, hold};
use m11_base::{BranchOp, Operand, Register, Size};
use m11_cpu_arithmetic::is_taken;
use m11_cpu_machine::{Machine, ProcessorStatus, words_on};

/// Executes the branch with this word, and returns the program counter after it. A branch that is taken also stores its target in
/// `registers`: without this store the compiler uses a conditional move, and each step waits for the condition codes.
#[inline(always)]
pub(crate) fn execute_branch(
    machine: &Machine,
    operation: BranchOp,
    word: u16,
    registers: &mut [u16; 8],
    counter: u16,
) -> u16
    ensures { shown result registers.new machine.now
        ≡ branched operation (cast_signed w8 (word % 0o400)) (shown counter registers.old machine.now) }
{
    if is_taken(operation, machine.codes()) {
        let target = words_on(counter, ((word % 0o400) as u8).cast_signed());
        hold(Register::Pc, target, registers);
        target
    } else {
        counter
    }
}

/// Executes the SOB with this word, and returns the program counter after it. An SOB that goes back also stores its target in
/// `registers`, as a branch that is taken does.
#[inline(always)]
pub(crate) fn count_down(
    register: Register,
    word: u16,
    registers: &mut [u16; 8],
    counter: u16,
) -> u16
    requires { register_number register < 7 }
    ensures { (machine : Machine) → shown result registers.new machine
        ≡ counted_down register (word % 0o100) (shown counter registers.old machine) }
{
    let left = held(register, registers).wrapping_sub(1);
    hold(register, left, registers);
    if left == 0 {
        counter
    } else {
        let target = counter.wrapping_sub(word % 0o100 * 2);
        hold(Register::Pc, target, registers);
        target
    }
}

/// Executes JMP and returns its target. None, with nothing changed, if the form is `Register` or `Other`, if the target isn't the address
/// of a word in memory, or if finding it would involve a device or a trap.
#[inline(always)]
pub(crate) fn jump(
    machine: &Machine,
    form: Form,
    operand: Operand,
    registers: &mut [u16; 8],
    counter: u16,
) -> Option<u16>
    requires { IsForm form Word operand }
    ensures some { IfSome result (λ target. NearEnds (jump operand)
        (shown counter registers.old machine.now) (shown target registers.new machine.now)) }
    ensures none { result ≡ None → registers.new ≡ registers.old }
{
    let (target, _) = address_of(machine, form, Size::Word, operand, registers, counter)?;
    Some(target)
}

/// Executes JSR PC and returns its target. None, with nothing changed, if the form is `Register` or `Other`, if the target or the new top
/// of the stack isn't the address of a word in memory, or if finding the target would involve a device or a trap.
#[inline(always)]
pub(crate) fn call(
    machine: &mut Machine,
    form: Form,
    operand: Operand,
    registers: &mut [u16; 8],
    counter: u16,
) -> Option<u16>
    requires { IsForm form Word operand }
    ensures some { IfSome result (λ target. NearEnds (call Pc operand)
        (shown counter registers.old machine.old) (shown target registers.new machine.new)) }
    ensures keeps { SameStopAndTrace machine.old machine.new }
    ensures none { result ≡ None → machine.new ≡ machine.old }
    ensures registers { result ≡ None → registers.new ≡ registers.old }
{
    let before = held(operand.register, registers);
    let (target, after) = address_of(machine, form, Size::Word, operand, registers, counter)?;
    let top = held(Register::Sp, registers).wrapping_sub(2);
    if !is_plain(machine, Size::Word, top) {
        hold(operand.register, before, registers);
        return None;
    }
    hold(Register::Sp, top, registers);
    store_plain(machine, Size::Word, top, after);
    Some(target)
}

/// Executes JSR of one of R0 to R5 and returns its target. None, with nothing changed, if the form is `Register` or `Other`, if the target
/// or the new top of the stack isn't the address of a word in memory, or if finding the target would involve a device or a trap.
// speed: the compiler inlines it, since it has one caller.
#[inline]
pub(crate) fn call_through(
    machine: &mut Machine,
    register: Register,
    form: Form,
    operand: Operand,
    registers: &mut [u16; 8],
    counter: u16,
) -> Option<u16>
    requires general { register_number register < 6 }
    requires form_is { IsForm form Word operand }
    ensures some { IfSome result (λ target. NearEnds (call register operand)
        (shown counter registers.old machine.old) (shown target registers.new machine.new)) }
    ensures keeps { SameStopAndTrace machine.old machine.new }
    ensures none { result ≡ None → machine.new ≡ machine.old }
    ensures registers { result ≡ None → registers.new ≡ registers.old }
{
    let before = held(operand.register, registers);
    let (target, after) = address_of(machine, form, Size::Word, operand, registers, counter)?;
    let top = held(Register::Sp, registers).wrapping_sub(2);
    if !is_plain(machine, Size::Word, top) {
        hold(operand.register, before, registers);
        return None;
    }
    let pushed = held(register, registers);
    hold(Register::Sp, top, registers);
    store_plain(machine, Size::Word, top, pushed);
    hold(register, after, registers);
    Some(target)
}

/// Executes RTS PC and returns the popped word; or None, with nothing changed, if the top of the stack isn't a word in memory.
#[inline(always)]
pub(crate) fn return_by_counter(
    machine: &Machine,
    registers: &mut [u16; 8],
    counter: u16,
) -> Option<u16>
    ensures some { IfSome result (λ target. NearEnds (return_by Pc)
        (shown counter registers.old machine.now) (shown target registers.new machine.now)) }
    ensures none { result ≡ None → registers.new ≡ registers.old }
{
    let top = held(Register::Sp, registers);
    if !is_plain(machine, Size::Word, top) {
        return None;
    }
    hold(Register::Sp, top.wrapping_add(2), registers);
    Some(plain(machine, Size::Word, top))
}

/// Executes RTS of one of R0 to R5 and returns the old value of that register; or None, with nothing changed, if the top of the stack
/// isn't a word in memory.
#[inline(always)]
pub(crate) fn return_through(
    machine: &Machine,
    register: Register,
    registers: &mut [u16; 8],
    counter: u16,
) -> Option<u16>
    requires { register_number register < 6 }
    ensures some { IfSome result (λ target. NearEnds (return_by register)
        (shown counter registers.old machine.now) (shown target registers.new machine.now)) }
    ensures none { result ≡ None → registers.new ≡ registers.old }
{
    let target = held(register, registers);
    let top = held(Register::Sp, registers);
    if !is_plain(machine, Size::Word, top) {
        return None;
    }
    let popped = plain(machine, Size::Word, top);
    hold(Register::Sp, top.wrapping_add(2), registers);
    hold(register, popped, registers);
    Some(target)
}

/// Executes RTI and returns the popped program counter; or None, with nothing changed, if the two words to pop aren't in memory at even
/// addresses, or if the popped status word would change T.
#[inline(always)]
pub(crate) fn return_from_trap(
    machine: &mut Machine,
    registers: &mut [u16; 8],
    counter: u16,
) -> Option<u16>
    ensures some { IfSome result (λ target. NearEnds return_from_trap
        (shown counter registers.old machine.old) (shown target registers.new machine.new)) }
    ensures keeps { SameStopAndTrace machine.old machine.new }
    ensures none { result ≡ None → machine.new ≡ machine.old }
    ensures registers { result ≡ None → registers.new ≡ registers.old }
{
    let top = held(Register::Sp, registers);
    let second = top.wrapping_add(2);
    let target = following(machine, Size::Word, top)?;
    let bits = following(machine, Size::Word, second)?;
    let status = ProcessorStatus::of_bits(bits);
    if status.trace != machine.status.trace {
        return None;
    }
    hold(Register::Sp, second, registers);
    hold(Register::Sp, second.wrapping_add(2), registers);
    machine.status = status;
    Some(target)
}
