//! Encodes instructions as words. (PDP-11/40 Processor Handbook, "Instruction set".)

ghost use Rattle.std.specs.Prelude.{◌≡◌, ◌<◌, ◌↔◌, IsTrue};
ghost use Rattle.m11_base.specs.Encoding.{IsHeld, code_of, condition_bits, fits, has_double, has_single, number_limit};
ghost use Rattle.m11_base.specs.Instructions.{HasCode, instruction_of};

use crate::decoding::is_reserved;
use crate::instruction::{ConditionCodes, DoubleOp, Insn, NumberOp, RTS, SOB, SingleOp};
use crate::operand::Size;

impl Insn {
    /// Whether the instruction has a code: the instruction list has its operation in its size, and each field fits its bits. A reserved
    /// code fits if it matches no row of the list.
    pub fn fits(&self) -> bool
        ensures fits { result ≡ fits self.now }
        ensures has_code { IsTrue result ↔ HasCode self.now }
    {
        fits_fields(self)
    }
}

/// The code of an instruction: the word that means it. Needs an instruction that fits.
pub fn encode(instruction: &Insn) -> u16
    requires { IsTrue (fits instruction.now) }
    ensures code { result ≡ code_of instruction.now }
    ensures means { instruction_of result ≡ instruction.now }
{
    code(instruction)
}

// Whether the list has the operation in its size, and each field fits its bits. A reserved code must match no row of the list.
fn fits_fields(instruction: &Insn) -> bool
    ensures fits { result ≡ fits instruction.now }
    ensures held { IsHeld instruction.now }
{
    match *instruction {
        Insn::Double(operation, size, _, _) => has_double(operation, size),
        Insn::Single(operation, size, _) => has_single(operation, size),
        Insn::Sob(_, count) => count < 0o100,
        Insn::Number(operation, number) => u16::from(number) < number_limit(operation),
        Insn::Reserved(word) => is_reserved(word),
        // proof: the offset is bound to a name, so that its range is known here
        Insn::Branch(_, _offset) => true,
        Insn::Extended(..)
        | Insn::Register(..)
        | Insn::Rts(_)
        | Insn::Bare(_)
        | Insn::Condition(..) => true,
    }
}

// The code of an instruction that fits: the bits of its operation, with its fields at their positions. The code of `Reserved` is its word.
fn code(instruction: &Insn) -> u16
    requires { IsTrue (fits instruction.now) }
    ensures code { result ≡ code_of instruction.now }
    ensures held { IsHeld instruction.now }
{
    match *instruction {
        Insn::Double(operation, size, source, destination) => {
            operation as u16 + size as u16 + source.bits() * 0o100 + destination.bits()
        }
        Insn::Extended(operation, register, source) => {
            operation as u16 + register.number() * 0o100 + source.bits()
        }
        Insn::Register(operation, register, destination) => {
            operation as u16 + register.number() * 0o100 + destination.bits()
        }
        Insn::Sob(register, count) => SOB + register.number() * 0o100 + u16::from(count),
        Insn::Single(operation, size, operand) => {
            operation as u16 + size as u16 + operand.bits()
        }
        Insn::Rts(register) => RTS + register.number(),
        Insn::Number(operation, number) => operation as u16 + u16::from(number),
        Insn::Bare(operation) => operation as u16,
        Insn::Condition(operation, codes) => operation as u16 + condition_bits(codes),
        Insn::Branch(operation, offset) => operation as u16 + u16::from(offset.cast_unsigned()),
        Insn::Reserved(word) => word,
    }
}

// Whether the list has an operation on two operands in this size.
fn has_double(operation: DoubleOp, size: Size) -> bool
    ensures { result ≡ has_double operation size }
{
    match size {
        Size::Word => true,
        Size::Byte => operation != DoubleOp::Add && operation != DoubleOp::Sub,
    }
}

// Whether the list has an operation on one operand in this size.
fn has_single(operation: SingleOp, size: Size) -> bool
    ensures { result ≡ has_single operation size }
{
    match (operation, size) {
        (SingleOp::Jmp | SingleOp::Swab | SingleOp::Sxt, Size::Byte) => false,
        _ => true,
    }
}

// The exclusive upper limit of the number in an operation's code.
fn number_limit(operation: NumberOp) -> u16
    ensures { result ≡ number_limit operation }
{
    match operation {
        NumberOp::Mark => 0o100,
        NumberOp::Emt | NumberOp::Trap => 0o400,
    }
}

// The low four bits of a code that clears or sets these condition codes: N is octal 10, Z 4, V 2, C 1.
fn condition_bits(codes: ConditionCodes) -> u16
    ensures bits { result ≡ condition_bits codes }
    ensures below { result < 0o20 }
{
    u16::from(codes.negative) * 0o10
        + u16::from(codes.zero) * 0o4
        + u16::from(codes.overflow) * 0o2
        + u16::from(codes.carry)
}
