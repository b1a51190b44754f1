//! The kinds of instructions that have an arm of their own in the loop of quick steps: those that are common in programs. The kind of a
//! word is found only once, so that a step needn't decode its word again. (PDP-11/40 Processor Handbook, "Instruction set".)

ghost use Rattle.std.specs.Prelude.{◌≡◌, ◌/◌, ◌%◌, ◌<◌, Some};
ghost use Rattle.m11_base.specs.Operand.{operand_of};
ghost use Rattle.m11_base.specs.OperationTables.{operation_by_tables};
ghost use Rattle.m11_base.specs.declared.instruction.ExtendedOp.TheVariants.{Mul};
ghost use Rattle.m11_base.specs.declared.instruction.Op.TheVariants as op;
ghost use Rattle.m11_base.specs.declared.instruction.RegisterOp.TheVariants.{Jsr};
ghost use Rattle.m11_base.specs.declared.instruction.SingleOp.TheVariants.{Adc, Asl, Asr, Clr, Com, Dec, Inc, Jmp, Neg, Rol, Ror, Sbc, Swab, Sxt, Tst};
ghost use Rattle.m11_base.specs.declared.operand.Size.TheVariants.{Word};
ghost use Rattle.m11_cpu_quick.specs.Forms.{IsForm};
ghost use Rattle.m11_cpu_quick.specs.Kinds.{Describes};

use crate::double_kinds::DoubleKind;
use crate::forms::Form;
use m11_base::{
    BranchOp, ConditionOp, ExtendedOp, Op, Operand, RegisterOp, SingleOp, Size, operation,
};

/// A kind of instruction: an operation and the forms of its operands, if it has any.
#[derive(Clone, Copy)]
pub(crate) enum Kind {
    /// A double operand instruction.
    Double(DoubleKind),
    ClrRegister,
    ClrDeferred,
    ClrIncrement,
    ClrDecrement,
    ClrIndex,
    ClrRelative,
    ComRegister,
    IncRegister,
    IncDeferred,
    IncIndex,
    IncAbsolute,
    IncRelative,
    DecRegister,
    DecDeferred,
    DecIndex,
    DecRelative,
    NegRegister,
    AdcRegister,
    AdcIndex,
    SbcRegister,
    TstRegister,
    TstDeferred,
    TstIncrement,
    TstIndex,
    TstRelative,
    RorRegister,
    RorIndex,
    RolRegister,
    RolIndex,
    AsrRegister,
    AslRegister,
    AslIndex,
    SxtRegister,
    SwabRegister,
    ClrbRegister,
    CombRegister,
    IncbRegister,
    DecbRegister,
    NegbRegister,
    TstbRegister,
    TstbDeferred,
    TstbIncrement,
    TstbIndex,
    Br,
    Bne,
    Beq,
    Bge,
    Blt,
    Bgt,
    Ble,
    Bpl,
    Bmi,
    Bhi,
    Blos,
    Bvc,
    Bvs,
    Bcc,
    Bcs,
    Sob,
    JmpDeferred,
    JmpIndex,
    JmpAbsolute,
    JmpRelative,
    JsrDeferred,
    JsrIndex,
    JsrAbsolute,
    JsrRelative,
    Rts,
    Clc,
    Sec,
    MulRegister,
    MulDeferred,
    MulIncrement,
    MulIndex,
    MulAbsolute,
    MulRelative,
    MulImmediate,
    /// Any other instruction.
    Rarer,
    /// A word whose kind hasn't been found yet.
    Unseen,
}

impl Kind {
    /// The kind of the instruction with this word, never `Unseen`. If the instruction has no arm of its own, the kind is `Rarer`, or for a
    /// double operand instruction `Double(DoubleKind::Rarer)`.
    pub(crate) fn of(word: u16) -> Kind
        ensures { Describes result word }
    {
        match operation(word) {
            Some(Op::Double(operation, size)) => Kind::Double(DoubleKind::of(
                word, operation, size,
            )),
            Some(Op::Single(operation, size)) => single_kind(word, operation, size),
            Some(Op::Branch(operation)) => branch_kind(word, operation),
            Some(Op::Register(RegisterOp::Jsr)) if word / 0o100 % 0o10 == 7 => {
                call_kind(word, Form::of(Size::Word, Operand::of_bits(word)))
            }
            Some(Op::Rts) if word % 0o10 == 7 => Kind::Rts,
            Some(Op::Sob) if word / 0o100 % 0o10 < 7 => Kind::Sob,
            Some(Op::Extended(ExtendedOp::Mul)) if word / 0o100 % 0o10 < 6 => {
                product_kind(word, Form::of(Size::Word, Operand::of_bits(word)))
            }
            Some(Op::Condition(operation)) => condition_kind(word, operation),
            _ => Kind::Rarer,
        }
    }
}

fn single_kind(word: u16, operation: SingleOp, size: Size) -> Kind
    requires { operation_by_tables word ≡ Some (op.Single operation size) }
    ensures { Describes result word }
{
    match (operation, size, Form::of(size, Operand::of_bits(word))) {
        (SingleOp::Clr, Size::Word, Form::Register) => Kind::ClrRegister,
        (SingleOp::Clr, Size::Word, Form::Deferred) => Kind::ClrDeferred,
        (SingleOp::Clr, Size::Word, Form::Increment) => Kind::ClrIncrement,
        (SingleOp::Clr, Size::Word, Form::Decrement) => Kind::ClrDecrement,
        (SingleOp::Clr, Size::Word, Form::Index) => Kind::ClrIndex,
        (SingleOp::Clr, Size::Word, Form::Relative) => Kind::ClrRelative,
        (SingleOp::Com, Size::Word, Form::Register) => Kind::ComRegister,
        (SingleOp::Inc, Size::Word, Form::Register) => Kind::IncRegister,
        (SingleOp::Inc, Size::Word, Form::Deferred) => Kind::IncDeferred,
        (SingleOp::Inc, Size::Word, Form::Index) => Kind::IncIndex,
        (SingleOp::Inc, Size::Word, Form::Absolute) => Kind::IncAbsolute,
        (SingleOp::Inc, Size::Word, Form::Relative) => Kind::IncRelative,
        (SingleOp::Dec, Size::Word, Form::Register) => Kind::DecRegister,
        (SingleOp::Dec, Size::Word, Form::Deferred) => Kind::DecDeferred,
        (SingleOp::Dec, Size::Word, Form::Index) => Kind::DecIndex,
        (SingleOp::Dec, Size::Word, Form::Relative) => Kind::DecRelative,
        (SingleOp::Neg, Size::Word, Form::Register) => Kind::NegRegister,
        (SingleOp::Adc, Size::Word, Form::Register) => Kind::AdcRegister,
        (SingleOp::Adc, Size::Word, Form::Index) => Kind::AdcIndex,
        (SingleOp::Sbc, Size::Word, Form::Register) => Kind::SbcRegister,
        (SingleOp::Tst, Size::Word, Form::Register) => Kind::TstRegister,
        (SingleOp::Tst, Size::Word, Form::Deferred) => Kind::TstDeferred,
        (SingleOp::Tst, Size::Word, Form::Increment) => Kind::TstIncrement,
        (SingleOp::Tst, Size::Word, Form::Index) => Kind::TstIndex,
        (SingleOp::Tst, Size::Word, Form::Relative) => Kind::TstRelative,
        (SingleOp::Ror, Size::Word, Form::Register) => Kind::RorRegister,
        (SingleOp::Ror, Size::Word, Form::Index) => Kind::RorIndex,
        (SingleOp::Rol, Size::Word, Form::Register) => Kind::RolRegister,
        (SingleOp::Rol, Size::Word, Form::Index) => Kind::RolIndex,
        (SingleOp::Asr, Size::Word, Form::Register) => Kind::AsrRegister,
        (SingleOp::Asl, Size::Word, Form::Register) => Kind::AslRegister,
        (SingleOp::Asl, Size::Word, Form::Index) => Kind::AslIndex,
        (SingleOp::Sxt, Size::Word, Form::Register) => Kind::SxtRegister,
        (SingleOp::Swab, Size::Word, Form::Register) => Kind::SwabRegister,
        (SingleOp::Clr, Size::Byte, Form::Register) => Kind::ClrbRegister,
        (SingleOp::Com, Size::Byte, Form::Register) => Kind::CombRegister,
        (SingleOp::Inc, Size::Byte, Form::Register) => Kind::IncbRegister,
        (SingleOp::Dec, Size::Byte, Form::Register) => Kind::DecbRegister,
        (SingleOp::Neg, Size::Byte, Form::Register) => Kind::NegbRegister,
        (SingleOp::Tst, Size::Byte, Form::Register) => Kind::TstbRegister,
        (SingleOp::Tst, Size::Byte, Form::Deferred) => Kind::TstbDeferred,
        (SingleOp::Tst, Size::Byte, Form::Increment) => Kind::TstbIncrement,
        (SingleOp::Tst, Size::Byte, Form::Index) => Kind::TstbIndex,
        (SingleOp::Jmp, Size::Word, Form::Deferred) => Kind::JmpDeferred,
        (SingleOp::Jmp, Size::Word, Form::Index) => Kind::JmpIndex,
        (SingleOp::Jmp, Size::Word, Form::Absolute) => Kind::JmpAbsolute,
        (SingleOp::Jmp, Size::Word, Form::Relative) => Kind::JmpRelative,
        _ => Kind::Rarer,
    }
}

fn branch_kind(word: u16, operation: BranchOp) -> Kind
    requires { operation_by_tables word ≡ Some (op.Branch operation) }
    ensures { Describes result word }
{
    match operation {
        BranchOp::Br => Kind::Br,
        BranchOp::Bne => Kind::Bne,
        BranchOp::Beq => Kind::Beq,
        BranchOp::Bge => Kind::Bge,
        BranchOp::Blt => Kind::Blt,
        BranchOp::Bgt => Kind::Bgt,
        BranchOp::Ble => Kind::Ble,
        BranchOp::Bpl => Kind::Bpl,
        BranchOp::Bmi => Kind::Bmi,
        BranchOp::Bhi => Kind::Bhi,
        BranchOp::Blos => Kind::Blos,
        BranchOp::Bvc => Kind::Bvc,
        BranchOp::Bvs => Kind::Bvs,
        BranchOp::Bcc => Kind::Bcc,
        BranchOp::Bcs => Kind::Bcs,
    }
}

// The kind of an instruction that clears or sets condition codes: only CLC and SEC have one of their own.
fn condition_kind(word: u16, operation: ConditionOp) -> Kind
    requires { operation_by_tables word ≡ Some (op.Condition operation) }
    ensures { Describes result word }
{
    match (operation, word % 0o20) {
        (ConditionOp::Clear, 1) => Kind::Clc,
        (ConditionOp::Set, 1) => Kind::Sec,
        _ => Kind::Rarer,
    }
}

// The kind of a JSR PC with an operand of this form.
fn call_kind(word: u16, operand: Form) -> Kind
    requires operation { operation_by_tables word ≡ Some (op.Register Jsr) }
    requires counter { word / 0o100 % 0o10 ≡ 7 }
    requires operand { IsForm operand Word (operand_of (word % 0o100)) }
    ensures { Describes result word }
{
    match operand {
        Form::Deferred => Kind::JsrDeferred,
        Form::Index => Kind::JsrIndex,
        Form::Absolute => Kind::JsrAbsolute,
        Form::Relative => Kind::JsrRelative,
        _ => Kind::Rarer,
    }
}

// The kind of a MUL of one of R0 to R5 with a source of this form.
fn product_kind(word: u16, source: Form) -> Kind
    requires operation { operation_by_tables word ≡ Some (op.Extended Mul) }
    requires general { word / 0o100 % 0o10 < 6 }
    requires source { IsForm source Word (operand_of (word % 0o100)) }
    ensures { Describes result word }
{
    match source {
        Form::Register => Kind::MulRegister,
        Form::Deferred => Kind::MulDeferred,
        Form::Increment => Kind::MulIncrement,
        Form::Index => Kind::MulIndex,
        Form::Absolute => Kind::MulAbsolute,
        Form::Relative => Kind::MulRelative,
        Form::Immediate => Kind::MulImmediate,
        _ => Kind::Rarer,
    }
}
