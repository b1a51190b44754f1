//! The kinds of double operand instructions that have an arm of their own in the loop of quick steps. (PDP-11/40 Processor
//! Handbook, "Instruction set": double operand instructions.)

ghost use Rattle.std.specs.Prelude.{◌≡◌, ◌/◌, ◌%◌, Some};
ghost use Rattle.m11_base.specs.Operand.{operand_of};
ghost use Rattle.m11_base.specs.OperationTables.{operation_by_tables};
ghost use Rattle.m11_base.specs.declared.instruction.DoubleOp.TheVariants.{Add, Bic, Bis, Bit, Cmp, Mov, Sub};
ghost use Rattle.m11_base.specs.declared.instruction.Op.TheVariants as op;
ghost use Rattle.m11_base.specs.declared.operand.Size.TheVariants.{Byte, Word};
ghost use Rattle.m11_cpu_quick.specs.Forms.{IsForm};
ghost use Rattle.m11_cpu_quick.specs.Kinds.{DescribesDouble};

use crate::forms::Form;
use m11_base::{DoubleOp, Operand, Size};

/// A kind of double operand instruction: the operation and the forms of its operands, source first.
#[derive(Clone, Copy)]
pub(crate) enum DoubleKind {
    MovRegisterRegister,
    MovDeferredRegister,
    MovIncrementRegister,
    MovIndexRegister,
    MovIndexPointerRegister,
    MovAbsoluteRegister,
    MovRelativeRegister,
    MovImmediateRegister,
    MovRegisterDeferred,
    MovRegisterIncrement,
    MovRegisterDecrement,
    MovRegisterIndex,
    MovRegisterAbsolute,
    MovRegisterRelative,
    MovDeferredDeferred,
    MovDeferredDecrement,
    MovIncrementDeferred,
    MovIncrementIncrement,
    MovIncrementIndex,
    MovIndexDeferred,
    MovIndexDecrement,
    MovIndexIndex,
    MovRelativeDecrement,
    MovImmediateDeferred,
    MovImmediateDecrement,
    MovImmediateIndex,
    MovImmediateAbsolute,
    MovImmediateRelative,
    CmpRegisterRegister,
    CmpDeferredRegister,
    CmpIncrementRegister,
    CmpIndexRegister,
    CmpRelativeRegister,
    CmpImmediateRegister,
    CmpRegisterIndex,
    CmpRegisterRelative,
    CmpRegisterImmediate,
    CmpIncrementIncrement,
    CmpIndexIndex,
    CmpIndexImmediate,
    BitRegisterRegister,
    BitImmediateRegister,
    BitImmediateIndex,
    BicRegisterRegister,
    BicImmediateRegister,
    BisRegisterRegister,
    BisIndexRegister,
    BisImmediateRegister,
    AddRegisterRegister,
    AddDeferredRegister,
    AddIncrementRegister,
    AddIndexRegister,
    AddRelativeRegister,
    AddImmediateRegister,
    AddRegisterIndex,
    AddRegisterRelative,
    AddImmediateIndex,
    MovbRegisterRegister,
    MovbDeferredRegister,
    MovbIncrementRegister,
    MovbIndexRegister,
    MovbIndexPointerRegister,
    MovbRegisterDeferred,
    MovbRegisterIncrement,
    MovbRegisterIndex,
    MovbIncrementIncrement,
    MovbDecrementIncrement,
    MovbIndexDeferred,
    MovbIndexIncrement,
    MovbImmediateDeferred,
    MovbImmediateIndex,
    CmpbRegisterRegister,
    CmpbRegisterIndex,
    CmpbRegisterImmediate,
    CmpbDeferredImmediate,
    CmpbIncrementIncrement,
    CmpbIncrementImmediate,
    CmpbIndexImmediate,
    BicbImmediateDeferred,
    SubRegisterRegister,
    SubIncrementRegister,
    SubIndexRegister,
    SubImmediateRegister,
    /// Any other double operand instruction.
    Rarer,
}

impl DoubleKind {
    /// The kind of the double operand instruction with this word; `Rarer` if it has no arm of its own.
    pub(crate) fn of(word: u16, operation: DoubleOp, size: Size) -> DoubleKind
        requires { operation_by_tables word ≡ Some (op.Double operation size) }
        ensures { DescribesDouble result word }
    {
        let source = Form::of(size, Operand::of_bits(word / 0o100));
        let destination = Form::of(size, Operand::of_bits(word));
        match (operation, size) {
            (DoubleOp::Mov, Size::Word) => mov_kind(word, source, destination),
            (DoubleOp::Mov, Size::Byte) => movb_kind(word, source, destination),
            (DoubleOp::Cmp, Size::Word) => cmp_kind(word, source, destination),
            (DoubleOp::Cmp, Size::Byte) => cmpb_kind(word, source, destination),
            (DoubleOp::Bit, Size::Word) => bit_kind(word, source, destination),
            (DoubleOp::Bic, Size::Word) => bic_kind(word, source, destination),
            (DoubleOp::Bic, Size::Byte) => bicb_kind(word, source, destination),
            (DoubleOp::Bis, Size::Word) => bis_kind(word, source, destination),
            (DoubleOp::Add, Size::Word) => add_kind(word, source, destination),
            (DoubleOp::Sub, Size::Word) => sub_kind(word, source, destination),
            _ => DoubleKind::Rarer,
        }
    }
}

fn mov_kind(word: u16, source: Form, destination: Form) -> DoubleKind
    requires operation { operation_by_tables word ≡ Some (op.Double Mov Word) }
    requires source { IsForm source Word (operand_of (word / 0o100 % 0o100)) }
    requires destination { IsForm destination Word (operand_of (word % 0o100)) }
    ensures { DescribesDouble result word }
{
    match (source, destination) {
        (Form::Register, Form::Register) => DoubleKind::MovRegisterRegister,
        (Form::Deferred, Form::Register) => DoubleKind::MovDeferredRegister,
        (Form::Increment, Form::Register) => DoubleKind::MovIncrementRegister,
        (Form::Index, Form::Register) => DoubleKind::MovIndexRegister,
        (Form::IndexPointer, Form::Register) => DoubleKind::MovIndexPointerRegister,
        (Form::Absolute, Form::Register) => DoubleKind::MovAbsoluteRegister,
        (Form::Relative, Form::Register) => DoubleKind::MovRelativeRegister,
        (Form::Immediate, Form::Register) => DoubleKind::MovImmediateRegister,
        (Form::Register, Form::Deferred) => DoubleKind::MovRegisterDeferred,
        (Form::Register, Form::Increment) => DoubleKind::MovRegisterIncrement,
        (Form::Register, Form::Decrement) => DoubleKind::MovRegisterDecrement,
        (Form::Register, Form::Index) => DoubleKind::MovRegisterIndex,
        (Form::Register, Form::Absolute) => DoubleKind::MovRegisterAbsolute,
        (Form::Register, Form::Relative) => DoubleKind::MovRegisterRelative,
        (Form::Deferred, Form::Deferred) => DoubleKind::MovDeferredDeferred,
        (Form::Deferred, Form::Decrement) => DoubleKind::MovDeferredDecrement,
        (Form::Increment, Form::Deferred) => DoubleKind::MovIncrementDeferred,
        (Form::Increment, Form::Increment) => DoubleKind::MovIncrementIncrement,
        (Form::Increment, Form::Index) => DoubleKind::MovIncrementIndex,
        (Form::Index, Form::Deferred) => DoubleKind::MovIndexDeferred,
        (Form::Index, Form::Decrement) => DoubleKind::MovIndexDecrement,
        (Form::Index, Form::Index) => DoubleKind::MovIndexIndex,
        (Form::Relative, Form::Decrement) => DoubleKind::MovRelativeDecrement,
        (Form::Immediate, Form::Deferred) => DoubleKind::MovImmediateDeferred,
        (Form::Immediate, Form::Decrement) => DoubleKind::MovImmediateDecrement,
        (Form::Immediate, Form::Index) => DoubleKind::MovImmediateIndex,
        (Form::Immediate, Form::Absolute) => DoubleKind::MovImmediateAbsolute,
        (Form::Immediate, Form::Relative) => DoubleKind::MovImmediateRelative,
        _ => DoubleKind::Rarer,
    }
}

fn cmp_kind(word: u16, source: Form, destination: Form) -> DoubleKind
    requires operation { operation_by_tables word ≡ Some (op.Double Cmp Word) }
    requires source { IsForm source Word (operand_of (word / 0o100 % 0o100)) }
    requires destination { IsForm destination Word (operand_of (word % 0o100)) }
    ensures { DescribesDouble result word }
{
    match (source, destination) {
        (Form::Register, Form::Register) => DoubleKind::CmpRegisterRegister,
        (Form::Deferred, Form::Register) => DoubleKind::CmpDeferredRegister,
        (Form::Increment, Form::Register) => DoubleKind::CmpIncrementRegister,
        (Form::Index, Form::Register) => DoubleKind::CmpIndexRegister,
        (Form::Relative, Form::Register) => DoubleKind::CmpRelativeRegister,
        (Form::Immediate, Form::Register) => DoubleKind::CmpImmediateRegister,
        (Form::Register, Form::Index) => DoubleKind::CmpRegisterIndex,
        (Form::Register, Form::Relative) => DoubleKind::CmpRegisterRelative,
        (Form::Register, Form::Immediate) => DoubleKind::CmpRegisterImmediate,
        (Form::Increment, Form::Increment) => DoubleKind::CmpIncrementIncrement,
        (Form::Index, Form::Index) => DoubleKind::CmpIndexIndex,
        (Form::Index, Form::Immediate) => DoubleKind::CmpIndexImmediate,
        _ => DoubleKind::Rarer,
    }
}

fn bit_kind(word: u16, source: Form, destination: Form) -> DoubleKind
    requires operation { operation_by_tables word ≡ Some (op.Double Bit Word) }
    requires source { IsForm source Word (operand_of (word / 0o100 % 0o100)) }
    requires destination { IsForm destination Word (operand_of (word % 0o100)) }
    ensures { DescribesDouble result word }
{
    match (source, destination) {
        (Form::Register, Form::Register) => DoubleKind::BitRegisterRegister,
        (Form::Immediate, Form::Register) => DoubleKind::BitImmediateRegister,
        (Form::Immediate, Form::Index) => DoubleKind::BitImmediateIndex,
        _ => DoubleKind::Rarer,
    }
}

fn bic_kind(word: u16, source: Form, destination: Form) -> DoubleKind
    requires operation { operation_by_tables word ≡ Some (op.Double Bic Word) }
    requires source { IsForm source Word (operand_of (word / 0o100 % 0o100)) }
    requires destination { IsForm destination Word (operand_of (word % 0o100)) }
    ensures { DescribesDouble result word }
{
    match (source, destination) {
        (Form::Register, Form::Register) => DoubleKind::BicRegisterRegister,
        (Form::Immediate, Form::Register) => DoubleKind::BicImmediateRegister,
        _ => DoubleKind::Rarer,
    }
}

fn bis_kind(word: u16, source: Form, destination: Form) -> DoubleKind
    requires operation { operation_by_tables word ≡ Some (op.Double Bis Word) }
    requires source { IsForm source Word (operand_of (word / 0o100 % 0o100)) }
    requires destination { IsForm destination Word (operand_of (word % 0o100)) }
    ensures { DescribesDouble result word }
{
    match (source, destination) {
        (Form::Register, Form::Register) => DoubleKind::BisRegisterRegister,
        (Form::Index, Form::Register) => DoubleKind::BisIndexRegister,
        (Form::Immediate, Form::Register) => DoubleKind::BisImmediateRegister,
        _ => DoubleKind::Rarer,
    }
}

fn add_kind(word: u16, source: Form, destination: Form) -> DoubleKind
    requires operation { operation_by_tables word ≡ Some (op.Double Add Word) }
    requires source { IsForm source Word (operand_of (word / 0o100 % 0o100)) }
    requires destination { IsForm destination Word (operand_of (word % 0o100)) }
    ensures { DescribesDouble result word }
{
    match (source, destination) {
        (Form::Register, Form::Register) => DoubleKind::AddRegisterRegister,
        (Form::Deferred, Form::Register) => DoubleKind::AddDeferredRegister,
        (Form::Increment, Form::Register) => DoubleKind::AddIncrementRegister,
        (Form::Index, Form::Register) => DoubleKind::AddIndexRegister,
        (Form::Relative, Form::Register) => DoubleKind::AddRelativeRegister,
        (Form::Immediate, Form::Register) => DoubleKind::AddImmediateRegister,
        (Form::Register, Form::Index) => DoubleKind::AddRegisterIndex,
        (Form::Register, Form::Relative) => DoubleKind::AddRegisterRelative,
        (Form::Immediate, Form::Index) => DoubleKind::AddImmediateIndex,
        _ => DoubleKind::Rarer,
    }
}

fn movb_kind(word: u16, source: Form, destination: Form) -> DoubleKind
    requires operation { operation_by_tables word ≡ Some (op.Double Mov Byte) }
    requires source { IsForm source Byte (operand_of (word / 0o100 % 0o100)) }
    requires destination { IsForm destination Byte (operand_of (word % 0o100)) }
    ensures { DescribesDouble result word }
{
    match (source, destination) {
        (Form::Register, Form::Register) => DoubleKind::MovbRegisterRegister,
        (Form::Deferred, Form::Register) => DoubleKind::MovbDeferredRegister,
        (Form::Increment, Form::Register) => DoubleKind::MovbIncrementRegister,
        (Form::Index, Form::Register) => DoubleKind::MovbIndexRegister,
        (Form::IndexPointer, Form::Register) => DoubleKind::MovbIndexPointerRegister,
        (Form::Register, Form::Deferred) => DoubleKind::MovbRegisterDeferred,
        (Form::Register, Form::Increment) => DoubleKind::MovbRegisterIncrement,
        (Form::Register, Form::Index) => DoubleKind::MovbRegisterIndex,
        (Form::Increment, Form::Increment) => DoubleKind::MovbIncrementIncrement,
        (Form::Decrement, Form::Increment) => DoubleKind::MovbDecrementIncrement,
        (Form::Index, Form::Deferred) => DoubleKind::MovbIndexDeferred,
        (Form::Index, Form::Increment) => DoubleKind::MovbIndexIncrement,
        (Form::Immediate, Form::Deferred) => DoubleKind::MovbImmediateDeferred,
        (Form::Immediate, Form::Index) => DoubleKind::MovbImmediateIndex,
        _ => DoubleKind::Rarer,
    }
}

fn cmpb_kind(word: u16, source: Form, destination: Form) -> DoubleKind
    requires operation { operation_by_tables word ≡ Some (op.Double Cmp Byte) }
    requires source { IsForm source Byte (operand_of (word / 0o100 % 0o100)) }
    requires destination { IsForm destination Byte (operand_of (word % 0o100)) }
    ensures { DescribesDouble result word }
{
    match (source, destination) {
        (Form::Register, Form::Register) => DoubleKind::CmpbRegisterRegister,
        (Form::Register, Form::Index) => DoubleKind::CmpbRegisterIndex,
        (Form::Register, Form::Immediate) => DoubleKind::CmpbRegisterImmediate,
        (Form::Deferred, Form::Immediate) => DoubleKind::CmpbDeferredImmediate,
        (Form::Increment, Form::Increment) => DoubleKind::CmpbIncrementIncrement,
        (Form::Increment, Form::Immediate) => DoubleKind::CmpbIncrementImmediate,
        (Form::Index, Form::Immediate) => DoubleKind::CmpbIndexImmediate,
        _ => DoubleKind::Rarer,
    }
}

fn bicb_kind(word: u16, source: Form, destination: Form) -> DoubleKind
    requires operation { operation_by_tables word ≡ Some (op.Double Bic Byte) }
    requires source { IsForm source Byte (operand_of (word / 0o100 % 0o100)) }
    requires destination { IsForm destination Byte (operand_of (word % 0o100)) }
    ensures { DescribesDouble result word }
{
    match (source, destination) {
        (Form::Immediate, Form::Deferred) => DoubleKind::BicbImmediateDeferred,
        _ => DoubleKind::Rarer,
    }
}

fn sub_kind(word: u16, source: Form, destination: Form) -> DoubleKind
    requires operation { operation_by_tables word ≡ Some (op.Double Sub Word) }
    requires source { IsForm source Word (operand_of (word / 0o100 % 0o100)) }
    requires destination { IsForm destination Word (operand_of (word % 0o100)) }
    ensures { DescribesDouble result word }
{
    match (source, destination) {
        (Form::Register, Form::Register) => DoubleKind::SubRegisterRegister,
        (Form::Increment, Form::Register) => DoubleKind::SubIncrementRegister,
        (Form::Index, Form::Register) => DoubleKind::SubIndexRegister,
        (Form::Immediate, Form::Register) => DoubleKind::SubImmediateRegister,
        _ => DoubleKind::Rarer,
    }
}
