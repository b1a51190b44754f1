//! Instructions without a kind of their own: those whose operands have rarer forms, and those with rarer operations. They are decoded anew
//! in each step, but their steps are still part of the loop of quick steps. All other instructions are left to the general step, and so are
//! those that would trap or access a device, except polls of the console. (PDP-11/40 Processor Handbook, "Instruction set".)

ghost use Rattle.std.specs.Prelude.{◌≡◌, IfSome, None};
ghost use Rattle.m11_base.specs.Instructions.{meaning};
ghost use Rattle.m11_base.specs.OperationTables.{operation_by_tables};
ghost use Rattle.m11_base.specs.declared.instruction.Insn.TheVariants as instruction;
ghost use Rattle.m11_cpu_quick.specs.Near.{SameStopAndTrace};
ghost use Rattle.m11_cpu_quick.specs.Quick.{Executes};

use crate::arms::Code;
use crate::doubles::{double_of_any, exclusive_or_of_any};
use crate::extended::extended_of_any;
use crate::forms::Form;
use crate::jumps::{call_through, return_from_trap, return_through};
use crate::singles::single_of_any;
use m11_base::{
    BareOp, ConditionCodes, ConditionOp, DoubleOp, ExtendedOp, Insn, Operand, Register, RegisterOp,
    SingleOp, Size, decode,
};
use m11_cpu_machine::Machine;

/// Executes an instruction without a kind of its own, and returns the program counter after it; or None, with nothing changed, if it is
/// left to the general step.
#[inline(always)]
pub(crate) fn rarer(machine: &mut Machine, code: Code, registers: &mut [u16; 8]) -> Option<u16>
    ensures some { IfSome result (λ after.
        Executes code.word code.counter registers.old machine.old after registers.new machine.new) }
    ensures keeps { SameStopAndTrace machine.old machine.new }
    ensures none { result ≡ None → machine.new ≡ machine.old }
    ensures registers { result ≡ None → registers.new ≡ registers.old }
{
    match decode(code.word) {
        Insn::Double(operation, size, source, destination) => rarer_double(
            machine,
            operation,
            size,
            source,
            destination,
            code,
            registers,
        ),
        Insn::Single(operation, size, operand) => rarer_single(
            machine, operation, size, operand, code, registers,
        ),
        Insn::Extended(operation, register, source) => rarer_extended(
            machine, operation, register, source, code, registers,
        ),
        Insn::Register(operation, register, operand) => on_register(
            machine, operation, register, operand, code, registers,
        ),
        Insn::Rts(register) => rarer_return(machine, register, code, registers),
        Insn::Condition(operation, codes) => on_codes(machine, operation, codes, code, registers),
        Insn::Bare(operation) => rarer_bare(machine, operation, code, registers),
        _ => None,
    }
}

// Executes a double operand instruction with operands of any form. None, with nothing changed, if it is left to the general step.
#[inline(always)]
fn rarer_double(
    machine: &mut Machine,
    operation: DoubleOp,
    size: Size,
    source: Operand,
    destination: Operand,
    code: Code,
    registers: &mut [u16; 8],
) -> Option<u16>
    requires { meaning (operation_by_tables code.word) code.word ≡ instruction.Double operation size source destination }
    ensures some { IfSome result (λ after.
        Executes code.word code.counter registers.old machine.old after registers.new machine.new) }
    ensures keeps { SameStopAndTrace machine.old machine.new }
    ensures none { result ≡ None → machine.new ≡ machine.old }
    ensures registers { result ≡ None → registers.new ≡ registers.old }
{
    let after = double_of_any(
        machine,
        operation,
        size,
        source,
        destination,
        registers,
        code.counter,
    )?;
    Some(after)
}

// Executes a single operand instruction with an operand of any form. None, with nothing changed, if it is left to the general step.
#[inline(always)]
fn rarer_single(
    machine: &mut Machine,
    operation: SingleOp,
    size: Size,
    operand: Operand,
    code: Code,
    registers: &mut [u16; 8],
) -> Option<u16>
    requires { meaning (operation_by_tables code.word) code.word ≡ instruction.Single operation size operand }
    ensures some { IfSome result (λ after.
        Executes code.word code.counter registers.old machine.old after registers.new machine.new) }
    ensures keeps { SameStopAndTrace machine.old machine.new }
    ensures none { result ≡ None → machine.new ≡ machine.old }
    ensures registers { result ≡ None → registers.new ≡ registers.old }
{
    let after = single_of_any(machine, operation, size, operand, registers, code.counter)?;
    Some(after)
}

// Executes MUL, DIV, ASH or ASHC of one of R0 to R5. None, with nothing changed, if it is left to the general step, as it is for SP
// and PC.
#[inline(always)]
fn rarer_extended(
    machine: &mut Machine,
    operation: ExtendedOp,
    register: Register,
    source: Operand,
    code: Code,
    registers: &mut [u16; 8],
) -> Option<u16>
    requires { meaning (operation_by_tables code.word) code.word ≡ instruction.Extended operation register source }
    ensures some { IfSome result (λ after.
        Executes code.word code.counter registers.old machine.old after registers.new machine.new) }
    ensures keeps { SameStopAndTrace machine.old machine.new }
    ensures none { result ≡ None → machine.new ≡ machine.old }
    ensures registers { result ≡ None → registers.new ≡ registers.old }
{
    if register.number() >= 6 {
        return None;
    }
    let after = extended_of_any(
        machine,
        operation,
        register,
        source,
        registers,
        code.counter,
    )?;
    Some(after)
}

// Executes JSR or XOR of one of R0 to R5. None, with nothing changed, if it is left to the general step, as it is for SP and PC.
#[inline(always)]
fn on_register(
    machine: &mut Machine,
    operation: RegisterOp,
    register: Register,
    operand: Operand,
    code: Code,
    registers: &mut [u16; 8],
) -> Option<u16>
    requires { meaning (operation_by_tables code.word) code.word ≡ instruction.Register operation register operand }
    ensures some { IfSome result (λ after.
        Executes code.word code.counter registers.old machine.old after registers.new machine.new) }
    ensures keeps { SameStopAndTrace machine.old machine.new }
    ensures none { result ≡ None → machine.new ≡ machine.old }
    ensures registers { result ≡ None → registers.new ≡ registers.old }
{
    if register.number() >= 6 {
        return None;
    }
    let form = Form::of(Size::Word, operand);
    match operation {
        RegisterOp::Jsr => {
            let target = call_through(machine, register, form, operand, registers, code.counter)?;
            Some(target)
        }
        RegisterOp::Xor => {
            let after = exclusive_or_of_any(
                machine,
                register,
                form,
                operand,
                registers,
                code.counter,
            )?;
            Some(after)
        }
    }
}

// Executes RTS of one of R0 to R5. None, with nothing changed, if it is left to the general step, as it is for SP and PC.
#[inline(always)]
fn rarer_return(
    machine: &mut Machine,
    register: Register,
    code: Code,
    registers: &mut [u16; 8],
) -> Option<u16>
    requires { meaning (operation_by_tables code.word) code.word ≡ instruction.Rts register }
    ensures some { IfSome result (λ after.
        Executes code.word code.counter registers.old machine.old after registers.new machine.new) }
    ensures keeps { SameStopAndTrace machine.old machine.new }
    ensures none { result ≡ None → machine.new ≡ machine.old }
    ensures registers { result ≡ None → registers.new ≡ registers.old }
{
    if register.number() >= 6 {
        return None;
    }
    let target = return_through(machine, register, registers, code.counter)?;
    Some(target)
}

// Clears or sets the named condition codes. Never returns None.
#[inline(always)]
fn on_codes(
    machine: &mut Machine,
    operation: ConditionOp,
    named: ConditionCodes,
    code: Code,
    registers: &mut [u16; 8],
) -> Option<u16>
    requires { meaning (operation_by_tables code.word) code.word ≡ instruction.Condition operation named }
    ensures some { IfSome result (λ after.
        Executes code.word code.counter registers.old machine.old after registers.new machine.new) }
    ensures keeps { SameStopAndTrace machine.old machine.new }
    ensures none { result ≡ None → machine.new ≡ machine.old }
    ensures registers { result ≡ None → registers.new ≡ registers.old }
{
    machine.apply_conditions(operation, named);
    Some(code.counter)
}

// Executes RTI. None, with nothing changed, if it is left to the general step, as all other instructions without operands are.
#[inline(always)]
fn rarer_bare(
    machine: &mut Machine,
    operation: BareOp,
    code: Code,
    registers: &mut [u16; 8],
) -> Option<u16>
    requires { meaning (operation_by_tables code.word) code.word ≡ instruction.Bare operation }
    ensures some { IfSome result (λ after.
        Executes code.word code.counter registers.old machine.old after registers.new machine.new) }
    ensures keeps { SameStopAndTrace machine.old machine.new }
    ensures none { result ≡ None → machine.new ≡ machine.old }
    ensures registers { result ≡ None → registers.new ≡ registers.old }
{
    match operation {
        BareOp::Rti => {
            let target = return_from_trap(machine, registers, code.counter)?;
            Some(target)
        }
        _ => None,
    }
}
