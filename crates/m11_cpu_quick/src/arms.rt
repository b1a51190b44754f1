//! Execution of instructions by their kinds. Each function returns the program counter after the instruction; or None, with nothing
//! changed, if an access would involve a device or a trap. The entry of `registers` for the program counter has no meaning.

ghost use Rattle.std.specs.Prelude.{◌≡◌, IfSome, None};
ghost use Rattle.m11_base.specs.declared.instruction.SingleOp.TheVariants as one;
ghost use Rattle.m11_base.specs.declared.operand.Size.TheVariants as size;
ghost use Rattle.m11_cpu_quick.specs.Kinds.{Describes, DescribesDouble, IsBranch, IsCall, IsCount, IsDouble, IsOnCarry, IsProduct, IsReturn, IsSingle};
ghost use Rattle.m11_cpu_quick.specs.Near.{SameStopAndTrace};
ghost use Rattle.m11_cpu_quick.specs.Quick.{Executes};
ghost use Rattle.m11_cpu_quick.specs.declared.forms.Form.TheVariants as form;

use crate::double_kinds::DoubleKind;
use crate::doubles::{double_to_memory, double_to_register};
use crate::extended::multiply;
use crate::forms::Form;
use crate::forms::Form::{
    Absolute, Decrement, Deferred, Immediate, Increment, Index, IndexPointer, Register, Relative,
};
use crate::jumps::{call, count_down, execute_branch, jump, return_by_counter};
use crate::kinds::Kind;
use crate::singles::single;
use m11_base::DoubleOp::{Add, Bic, Bis, Bit, Cmp, Mov, Sub};
use m11_base::SingleOp::{Adc, Asl, Asr, Clr, Com, Dec, Inc, Neg, Rol, Ror, Sbc, Swab, Sxt, Tst};
use m11_base::Size::{Byte, Word};
use m11_base::{BranchOp, ConditionCodes, ConditionOp, DoubleOp, Operand, SingleOp, Size};
use m11_cpu_machine::Machine;

/// The word of an instruction, and the program counter after this word.
#[derive(Clone, Copy)]
pub(crate) struct Code {
    pub(crate) word: u16,
    pub(crate) counter: u16,
}

/// Executes an instruction of this kind. Also returns None for `Rarer` and `Unseen`, which have no arm of their own.
#[inline(always)]
pub(crate) fn act(
    machine: &mut Machine,
    kind: Kind,
    code: Code,
    registers: &mut [u16; 8],
) -> Option<u16>
    requires { Describes kind code.word }
    ensures some { IfSome result (λ after.
        Executes code.word code.counter registers.old machine.old after registers.new machine.new) }
    ensures keeps { SameStopAndTrace machine.old machine.new }
    ensures none { result ≡ None → machine.new ≡ machine.old }
    ensures registers { result ≡ None → registers.new ≡ registers.old }
{
    match kind {
        Kind::Double(double) => act_on_two(machine, double, code, registers),
        _ => act_on_others(machine, kind, code, registers),
    }
}

// Executes a double operand instruction of this kind. Also returns None for `Rarer`, which has no arm of its own.
// speed: one match, so that a step jumps once to its arm. The compiler inlines a function with one caller if it has fewer than some 3,000
// instructions, so the kinds are split into two functions.
#[inline]
#[rattlefmt::skip]
fn act_on_two(
    machine: &mut Machine,
    kind: DoubleKind,
    code: Code,
    registers: &mut [u16; 8],
) -> Option<u16>
    requires { DescribesDouble kind code.word }
    ensures some { IfSome result (λ after.
        Executes code.word code.counter registers.old machine.old after registers.new machine.new) }
    ensures keeps { SameStopAndTrace machine.old machine.new }
    ensures none { result ≡ None → machine.new ≡ machine.old }
    ensures registers { result ≡ None → registers.new ≡ registers.old }
{
    match kind {
        DoubleKind::MovRegisterRegister => to_register(machine, Mov, Word, Register, code, registers),
        DoubleKind::MovDeferredRegister => to_register(machine, Mov, Word, Deferred, code, registers),
        DoubleKind::MovIncrementRegister => to_register(machine, Mov, Word, Increment, code, registers),
        DoubleKind::MovIndexRegister => to_register(machine, Mov, Word, Index, code, registers),
        DoubleKind::MovIndexPointerRegister => to_register(machine, Mov, Word, IndexPointer, code, registers),
        DoubleKind::MovAbsoluteRegister => to_register(machine, Mov, Word, Absolute, code, registers),
        DoubleKind::MovRelativeRegister => to_register(machine, Mov, Word, Relative, code, registers),
        DoubleKind::MovImmediateRegister => to_register(machine, Mov, Word, Immediate, code, registers),
        DoubleKind::MovRegisterDeferred => to_memory(machine, Mov, Word, Register, Deferred, code, registers),
        DoubleKind::MovRegisterIncrement => to_memory(machine, Mov, Word, Register, Increment, code, registers),
        DoubleKind::MovRegisterDecrement => to_memory(machine, Mov, Word, Register, Decrement, code, registers),
        DoubleKind::MovRegisterIndex => to_memory(machine, Mov, Word, Register, Index, code, registers),
        DoubleKind::MovRegisterAbsolute => to_memory(machine, Mov, Word, Register, Absolute, code, registers),
        DoubleKind::MovRegisterRelative => to_memory(machine, Mov, Word, Register, Relative, code, registers),
        DoubleKind::MovDeferredDeferred => to_memory(machine, Mov, Word, Deferred, Deferred, code, registers),
        DoubleKind::MovDeferredDecrement => to_memory(machine, Mov, Word, Deferred, Decrement, code, registers),
        DoubleKind::MovIncrementDeferred => to_memory(machine, Mov, Word, Increment, Deferred, code, registers),
        DoubleKind::MovIncrementIncrement => to_memory(machine, Mov, Word, Increment, Increment, code, registers),
        DoubleKind::MovIncrementIndex => to_memory(machine, Mov, Word, Increment, Index, code, registers),
        DoubleKind::MovIndexDeferred => to_memory(machine, Mov, Word, Index, Deferred, code, registers),
        DoubleKind::MovIndexDecrement => to_memory(machine, Mov, Word, Index, Decrement, code, registers),
        DoubleKind::MovIndexIndex => to_memory(machine, Mov, Word, Index, Index, code, registers),
        DoubleKind::MovRelativeDecrement => to_memory(machine, Mov, Word, Relative, Decrement, code, registers),
        DoubleKind::MovImmediateDeferred => to_memory(machine, Mov, Word, Immediate, Deferred, code, registers),
        DoubleKind::MovImmediateDecrement => to_memory(machine, Mov, Word, Immediate, Decrement, code, registers),
        DoubleKind::MovImmediateIndex => to_memory(machine, Mov, Word, Immediate, Index, code, registers),
        DoubleKind::MovImmediateAbsolute => to_memory(machine, Mov, Word, Immediate, Absolute, code, registers),
        DoubleKind::MovImmediateRelative => to_memory(machine, Mov, Word, Immediate, Relative, code, registers),
        DoubleKind::CmpRegisterRegister => to_register(machine, Cmp, Word, Register, code, registers),
        DoubleKind::CmpDeferredRegister => to_register(machine, Cmp, Word, Deferred, code, registers),
        DoubleKind::CmpIncrementRegister => to_register(machine, Cmp, Word, Increment, code, registers),
        DoubleKind::CmpIndexRegister => to_register(machine, Cmp, Word, Index, code, registers),
        DoubleKind::CmpRelativeRegister => to_register(machine, Cmp, Word, Relative, code, registers),
        DoubleKind::CmpImmediateRegister => to_register(machine, Cmp, Word, Immediate, code, registers),
        DoubleKind::CmpRegisterIndex => to_memory(machine, Cmp, Word, Register, Index, code, registers),
        DoubleKind::CmpRegisterRelative => to_memory(machine, Cmp, Word, Register, Relative, code, registers),
        DoubleKind::CmpRegisterImmediate => to_memory(machine, Cmp, Word, Register, Immediate, code, registers),
        DoubleKind::CmpIncrementIncrement => to_memory(machine, Cmp, Word, Increment, Increment, code, registers),
        DoubleKind::CmpIndexIndex => to_memory(machine, Cmp, Word, Index, Index, code, registers),
        DoubleKind::CmpIndexImmediate => to_memory(machine, Cmp, Word, Index, Immediate, code, registers),
        DoubleKind::BitRegisterRegister => to_register(machine, Bit, Word, Register, code, registers),
        DoubleKind::BitImmediateRegister => to_register(machine, Bit, Word, Immediate, code, registers),
        DoubleKind::BitImmediateIndex => to_memory(machine, Bit, Word, Immediate, Index, code, registers),
        DoubleKind::BicRegisterRegister => to_register(machine, Bic, Word, Register, code, registers),
        DoubleKind::BicImmediateRegister => to_register(machine, Bic, Word, Immediate, code, registers),
        DoubleKind::BisRegisterRegister => to_register(machine, Bis, Word, Register, code, registers),
        DoubleKind::BisIndexRegister => to_register(machine, Bis, Word, Index, code, registers),
        DoubleKind::BisImmediateRegister => to_register(machine, Bis, Word, Immediate, code, registers),
        DoubleKind::AddRegisterRegister => to_register(machine, Add, Word, Register, code, registers),
        DoubleKind::AddDeferredRegister => to_register(machine, Add, Word, Deferred, code, registers),
        DoubleKind::AddIncrementRegister => to_register(machine, Add, Word, Increment, code, registers),
        DoubleKind::AddIndexRegister => to_register(machine, Add, Word, Index, code, registers),
        DoubleKind::AddRelativeRegister => to_register(machine, Add, Word, Relative, code, registers),
        DoubleKind::AddImmediateRegister => to_register(machine, Add, Word, Immediate, code, registers),
        DoubleKind::AddRegisterIndex => to_memory(machine, Add, Word, Register, Index, code, registers),
        DoubleKind::AddRegisterRelative => to_memory(machine, Add, Word, Register, Relative, code, registers),
        DoubleKind::AddImmediateIndex => to_memory(machine, Add, Word, Immediate, Index, code, registers),
        DoubleKind::MovbRegisterRegister => to_register(machine, Mov, Byte, Register, code, registers),
        DoubleKind::MovbDeferredRegister => to_register(machine, Mov, Byte, Deferred, code, registers),
        DoubleKind::MovbIncrementRegister => to_register(machine, Mov, Byte, Increment, code, registers),
        DoubleKind::MovbIndexRegister => to_register(machine, Mov, Byte, Index, code, registers),
        DoubleKind::MovbIndexPointerRegister => to_register(machine, Mov, Byte, IndexPointer, code, registers),
        DoubleKind::MovbRegisterDeferred => to_memory(machine, Mov, Byte, Register, Deferred, code, registers),
        DoubleKind::MovbRegisterIncrement => to_memory(machine, Mov, Byte, Register, Increment, code, registers),
        DoubleKind::MovbRegisterIndex => to_memory(machine, Mov, Byte, Register, Index, code, registers),
        DoubleKind::MovbIncrementIncrement => to_memory(machine, Mov, Byte, Increment, Increment, code, registers),
        DoubleKind::MovbDecrementIncrement => to_memory(machine, Mov, Byte, Decrement, Increment, code, registers),
        DoubleKind::MovbIndexDeferred => to_memory(machine, Mov, Byte, Index, Deferred, code, registers),
        DoubleKind::MovbIndexIncrement => to_memory(machine, Mov, Byte, Index, Increment, code, registers),
        DoubleKind::MovbImmediateDeferred => to_memory(machine, Mov, Byte, Immediate, Deferred, code, registers),
        DoubleKind::MovbImmediateIndex => to_memory(machine, Mov, Byte, Immediate, Index, code, registers),
        DoubleKind::CmpbRegisterRegister => to_register(machine, Cmp, Byte, Register, code, registers),
        DoubleKind::CmpbRegisterIndex => to_memory(machine, Cmp, Byte, Register, Index, code, registers),
        DoubleKind::CmpbRegisterImmediate => to_memory(machine, Cmp, Byte, Register, Immediate, code, registers),
        DoubleKind::CmpbDeferredImmediate => to_memory(machine, Cmp, Byte, Deferred, Immediate, code, registers),
        DoubleKind::CmpbIncrementIncrement => to_memory(machine, Cmp, Byte, Increment, Increment, code, registers),
        DoubleKind::CmpbIncrementImmediate => to_memory(machine, Cmp, Byte, Increment, Immediate, code, registers),
        DoubleKind::CmpbIndexImmediate => to_memory(machine, Cmp, Byte, Index, Immediate, code, registers),
        DoubleKind::BicbImmediateDeferred => to_memory(machine, Bic, Byte, Immediate, Deferred, code, registers),
        DoubleKind::SubRegisterRegister => to_register(machine, Sub, Word, Register, code, registers),
        DoubleKind::SubIncrementRegister => to_register(machine, Sub, Word, Increment, code, registers),
        DoubleKind::SubIndexRegister => to_register(machine, Sub, Word, Index, code, registers),
        DoubleKind::SubImmediateRegister => to_register(machine, Sub, Word, Immediate, code, registers),
        DoubleKind::Rarer => None,
    }
}

// Executes an instruction of any kind but `Double`. Also returns None for `Rarer` and `Unseen`, which have no arm of their own.
#[inline]
#[rattlefmt::skip]
fn act_on_others(
    machine: &mut Machine,
    kind: Kind,
    code: Code,
    registers: &mut [u16; 8],
) -> Option<u16>
    requires { Describes kind code.word }
    ensures some { IfSome result (λ after.
        Executes code.word code.counter registers.old machine.old after registers.new machine.new) }
    ensures keeps { SameStopAndTrace machine.old machine.new }
    ensures none { result ≡ None → machine.new ≡ machine.old }
    ensures registers { result ≡ None → registers.new ≡ registers.old }
{
    match kind {
        Kind::ClrRegister => on_one(machine, Clr, Word, Register, code, registers),
        Kind::ClrDeferred => on_one(machine, Clr, Word, Deferred, code, registers),
        Kind::ClrIncrement => on_one(machine, Clr, Word, Increment, code, registers),
        Kind::ClrDecrement => on_one(machine, Clr, Word, Decrement, code, registers),
        Kind::ClrIndex => on_one(machine, Clr, Word, Index, code, registers),
        Kind::ClrRelative => on_one(machine, Clr, Word, Relative, code, registers),
        Kind::ComRegister => on_one(machine, Com, Word, Register, code, registers),
        Kind::IncRegister => on_one(machine, Inc, Word, Register, code, registers),
        Kind::IncDeferred => on_one(machine, Inc, Word, Deferred, code, registers),
        Kind::IncIndex => on_one(machine, Inc, Word, Index, code, registers),
        Kind::IncAbsolute => on_one(machine, Inc, Word, Absolute, code, registers),
        Kind::IncRelative => on_one(machine, Inc, Word, Relative, code, registers),
        Kind::DecRegister => on_one(machine, Dec, Word, Register, code, registers),
        Kind::DecDeferred => on_one(machine, Dec, Word, Deferred, code, registers),
        Kind::DecIndex => on_one(machine, Dec, Word, Index, code, registers),
        Kind::DecRelative => on_one(machine, Dec, Word, Relative, code, registers),
        Kind::NegRegister => on_one(machine, Neg, Word, Register, code, registers),
        Kind::AdcRegister => on_one(machine, Adc, Word, Register, code, registers),
        Kind::AdcIndex => on_one(machine, Adc, Word, Index, code, registers),
        Kind::SbcRegister => on_one(machine, Sbc, Word, Register, code, registers),
        Kind::TstRegister => on_one(machine, Tst, Word, Register, code, registers),
        Kind::TstDeferred => on_one(machine, Tst, Word, Deferred, code, registers),
        Kind::TstIncrement => on_one(machine, Tst, Word, Increment, code, registers),
        Kind::TstIndex => on_one(machine, Tst, Word, Index, code, registers),
        Kind::TstRelative => on_one(machine, Tst, Word, Relative, code, registers),
        Kind::RorRegister => on_one(machine, Ror, Word, Register, code, registers),
        Kind::RorIndex => on_one(machine, Ror, Word, Index, code, registers),
        Kind::RolRegister => on_one(machine, Rol, Word, Register, code, registers),
        Kind::RolIndex => on_one(machine, Rol, Word, Index, code, registers),
        Kind::AsrRegister => on_one(machine, Asr, Word, Register, code, registers),
        Kind::AslRegister => on_one(machine, Asl, Word, Register, code, registers),
        Kind::AslIndex => on_one(machine, Asl, Word, Index, code, registers),
        Kind::SxtRegister => on_one(machine, Sxt, Word, Register, code, registers),
        Kind::SwabRegister => on_one(machine, Swab, Word, Register, code, registers),
        Kind::ClrbRegister => on_one(machine, Clr, Byte, Register, code, registers),
        Kind::CombRegister => on_one(machine, Com, Byte, Register, code, registers),
        Kind::IncbRegister => on_one(machine, Inc, Byte, Register, code, registers),
        Kind::DecbRegister => on_one(machine, Dec, Byte, Register, code, registers),
        Kind::NegbRegister => on_one(machine, Neg, Byte, Register, code, registers),
        Kind::TstbRegister => on_one(machine, Tst, Byte, Register, code, registers),
        Kind::TstbDeferred => on_one(machine, Tst, Byte, Deferred, code, registers),
        Kind::TstbIncrement => on_one(machine, Tst, Byte, Increment, code, registers),
        Kind::TstbIndex => on_one(machine, Tst, Byte, Index, code, registers),
        Kind::Br => go(machine, BranchOp::Br, code, registers),
        Kind::Bne => go(machine, BranchOp::Bne, code, registers),
        Kind::Beq => go(machine, BranchOp::Beq, code, registers),
        Kind::Bge => go(machine, BranchOp::Bge, code, registers),
        Kind::Blt => go(machine, BranchOp::Blt, code, registers),
        Kind::Bgt => go(machine, BranchOp::Bgt, code, registers),
        Kind::Ble => go(machine, BranchOp::Ble, code, registers),
        Kind::Bpl => go(machine, BranchOp::Bpl, code, registers),
        Kind::Bmi => go(machine, BranchOp::Bmi, code, registers),
        Kind::Bhi => go(machine, BranchOp::Bhi, code, registers),
        Kind::Blos => go(machine, BranchOp::Blos, code, registers),
        Kind::Bvc => go(machine, BranchOp::Bvc, code, registers),
        Kind::Bvs => go(machine, BranchOp::Bvs, code, registers),
        Kind::Bcc => go(machine, BranchOp::Bcc, code, registers),
        Kind::Bcs => go(machine, BranchOp::Bcs, code, registers),
        Kind::Sob => count(machine, code, registers),
        Kind::JmpDeferred => jump_to(machine, Deferred, code, registers),
        Kind::JmpIndex => jump_to(machine, Index, code, registers),
        Kind::JmpAbsolute => jump_to(machine, Absolute, code, registers),
        Kind::JmpRelative => jump_to(machine, Relative, code, registers),
        Kind::JsrDeferred => call_to(machine, Deferred, code, registers),
        Kind::JsrIndex => call_to(machine, Index, code, registers),
        Kind::JsrAbsolute => call_to(machine, Absolute, code, registers),
        Kind::JsrRelative => call_to(machine, Relative, code, registers),
        Kind::Rts => return_to(machine, code, registers),
        Kind::Clc => on_carry(machine, ConditionOp::Clear, code, registers),
        Kind::Sec => on_carry(machine, ConditionOp::Set, code, registers),
        Kind::MulRegister => product(machine, Register, code, registers),
        Kind::MulDeferred => product(machine, Deferred, code, registers),
        Kind::MulIncrement => product(machine, Increment, code, registers),
        Kind::MulIndex => product(machine, Index, code, registers),
        Kind::MulAbsolute => product(machine, Absolute, code, registers),
        Kind::MulRelative => product(machine, Relative, code, registers),
        Kind::MulImmediate => product(machine, Immediate, code, registers),
        _ => None,
    }
}

// Executes a double operand instruction whose destination is a register.
#[inline(always)]
fn to_register(
    machine: &mut Machine,
    operation: DoubleOp,
    size: Size,
    source: Form,
    code: Code,
    registers: &mut [u16; 8],
) -> Option<u16>
    requires { IsDouble operation size source form.Register code.word }
    ensures some { IfSome result (λ after.
        Executes code.word code.counter registers.old machine.old after registers.new machine.new) }
    ensures keeps { SameStopAndTrace machine.old machine.new }
    ensures none { result ≡ None → machine.new ≡ machine.old }
    ensures registers { result ≡ None → registers.new ≡ registers.old }
{
    let from = Operand::of_bits(code.word / 0o100);
    let to = Operand::of_bits(code.word);
    let after = double_to_register(
        machine,
        operation,
        size,
        source,
        from,
        to,
        registers,
        code.counter,
    )?;
    Some(after)
}

// Executes a double operand instruction whose destination is in memory.
#[inline(always)]
fn to_memory(
    machine: &mut Machine,
    operation: DoubleOp,
    size: Size,
    source: Form,
    destination: Form,
    code: Code,
    registers: &mut [u16; 8],
) -> Option<u16>
    requires { IsDouble operation size source destination code.word }
    ensures some { IfSome result (λ after.
        Executes code.word code.counter registers.old machine.old after registers.new machine.new) }
    ensures keeps { SameStopAndTrace machine.old machine.new }
    ensures none { result ≡ None → machine.new ≡ machine.old }
    ensures registers { result ≡ None → registers.new ≡ registers.old }
{
    let from = Operand::of_bits(code.word / 0o100);
    let to = Operand::of_bits(code.word);
    let after = double_to_memory(
        machine,
        operation,
        size,
        source,
        destination,
        from,
        to,
        registers,
        code.counter,
    )?;
    Some(after)
}

// Executes a single operand instruction.
#[inline(always)]
fn on_one(
    machine: &mut Machine,
    operation: SingleOp,
    size: Size,
    form: Form,
    code: Code,
    registers: &mut [u16; 8],
) -> Option<u16>
    requires { IsSingle operation size form code.word }
    ensures some { IfSome result (λ after.
        Executes code.word code.counter registers.old machine.old after registers.new machine.new) }
    ensures keeps { SameStopAndTrace machine.old machine.new }
    ensures none { result ≡ None → machine.new ≡ machine.old }
    ensures registers { result ≡ None → registers.new ≡ registers.old }
{
    let operand = Operand::of_bits(code.word);
    let after = single(
        machine,
        operation,
        size,
        form,
        operand,
        registers,
        code.counter,
    )?;
    Some(after)
}

// Executes a branch.
#[inline(always)]
fn go(
    machine: &mut Machine,
    operation: BranchOp,
    code: Code,
    registers: &mut [u16; 8],
) -> Option<u16>
    requires { IsBranch operation code.word }
    ensures some { IfSome result (λ after.
        Executes code.word code.counter registers.old machine.old after registers.new machine.new) }
    ensures keeps { SameStopAndTrace machine.old machine.new }
    ensures none { result ≡ None → machine.new ≡ machine.old }
    ensures registers { result ≡ None → registers.new ≡ registers.old }
{
    Some(execute_branch(machine, operation, code.word, registers, code.counter))
}

// Executes SOB.
#[inline(always)]
fn count(machine: &mut Machine, code: Code, registers: &mut [u16; 8]) -> Option<u16>
    requires { IsCount code.word }
    ensures some { IfSome result (λ after.
        Executes code.word code.counter registers.old machine.old after registers.new machine.new) }
    ensures keeps { SameStopAndTrace machine.old machine.new }
    ensures none { result ≡ None → machine.new ≡ machine.old }
    ensures registers { result ≡ None → registers.new ≡ registers.old }
{
    let register = m11_base::Register::of_bits(code.word / 0o100);
    Some(count_down(register, code.word, registers, code.counter))
}

// Executes JMP.
#[inline(always)]
fn jump_to(machine: &mut Machine, form: Form, code: Code, registers: &mut [u16; 8]) -> Option<u16>
    requires { IsSingle one.Jmp size.Word form code.word }
    ensures some { IfSome result (λ after.
        Executes code.word code.counter registers.old machine.old after registers.new machine.new) }
    ensures keeps { SameStopAndTrace machine.old machine.new }
    ensures none { result ≡ None → machine.new ≡ machine.old }
    ensures registers { result ≡ None → registers.new ≡ registers.old }
{
    let operand = Operand::of_bits(code.word);
    let target = jump(machine, form, operand, registers, code.counter)?;
    Some(target)
}

// Executes JSR PC.
#[inline(always)]
fn call_to(machine: &mut Machine, form: Form, code: Code, registers: &mut [u16; 8]) -> Option<u16>
    requires { IsCall form code.word }
    ensures some { IfSome result (λ after.
        Executes code.word code.counter registers.old machine.old after registers.new machine.new) }
    ensures keeps { SameStopAndTrace machine.old machine.new }
    ensures none { result ≡ None → machine.new ≡ machine.old }
    ensures registers { result ≡ None → registers.new ≡ registers.old }
{
    let operand = Operand::of_bits(code.word);
    let target = call(machine, form, operand, registers, code.counter)?;
    Some(target)
}

// Executes RTS PC.
#[inline(always)]
fn return_to(machine: &mut Machine, code: Code, registers: &mut [u16; 8]) -> Option<u16>
    requires { IsReturn code.word }
    ensures some { IfSome result (λ after.
        Executes code.word code.counter registers.old machine.old after registers.new machine.new) }
    ensures keeps { SameStopAndTrace machine.old machine.new }
    ensures none { result ≡ None → machine.new ≡ machine.old }
    ensures registers { result ≡ None → registers.new ≡ registers.old }
{
    let target = return_by_counter(machine, registers, code.counter)?;
    Some(target)
}

// Executes CLC or SEC.
#[inline(always)]
fn on_carry(
    machine: &mut Machine,
    operation: ConditionOp,
    code: Code,
    registers: &mut [u16; 8],
) -> Option<u16>
    requires { IsOnCarry operation code.word }
    ensures some { IfSome result (λ after.
        Executes code.word code.counter registers.old machine.old after registers.new machine.new) }
    ensures keeps { SameStopAndTrace machine.old machine.new }
    ensures none { result ≡ None → machine.new ≡ machine.old }
    ensures registers { result ≡ None → registers.new ≡ registers.old }
{
    let carry = ConditionCodes {
        negative: false,
        zero: false,
        overflow: false,
        carry: true,
    };
    machine.apply_conditions(operation, carry);
    Some(code.counter)
}

// Executes MUL of one of R0 to R5.
#[inline(always)]
fn product(machine: &mut Machine, source: Form, code: Code, registers: &mut [u16; 8]) -> Option<u16>
    requires { IsProduct source code.word }
    ensures some { IfSome result (λ after.
        Executes code.word code.counter registers.old machine.old after registers.new machine.new) }
    ensures keeps { SameStopAndTrace machine.old machine.new }
    ensures none { result ≡ None → machine.new ≡ machine.old }
    ensures registers { result ≡ None → registers.new ≡ registers.old }
{
    let register = m11_base::Register::of_bits(code.word / 0o100);
    let operand = Operand::of_bits(code.word);
    let after = multiply(machine, register, source, operand, registers, code.counter)?;
    Some(after)
}
