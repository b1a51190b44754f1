//! Instructions and their operations, by the form of their operands. The value of an operation's variant is its code for words, with
//! all fields 0. (PDP-11/40 Processor Handbook, "Instruction set".)

use crate::operand::{Operand, Register, Size};

/// The operations on a source and a destination. All but `Add` and `Sub` have a form for bytes.
#[derive(Clone, Copy, PartialEq, Eq)]
pub enum DoubleOp {
    Mov = 0o010000,
    Cmp = 0o020000,
    Bit = 0o030000,
    Bic = 0o040000,
    Bis = 0o050000,
    Add = 0o060000,
    Sub = 0o160000,
}

/// The operations of the extended instruction set on a register and a source.
#[derive(Clone, Copy, PartialEq, Eq)]
pub enum ExtendedOp {
    Mul = 0o070000,
    Div = 0o071000,
    Ash = 0o072000,
    Ashc = 0o073000,
}

/// The operations on a register and a destination.
#[derive(Clone, Copy, PartialEq, Eq)]
pub enum RegisterOp {
    Jsr = 0o004000,
    Xor = 0o074000,
}

/// The operations on one operand. `Jmp`, `Swab` and `Sxt` have no form for bytes.
#[derive(Clone, Copy, PartialEq, Eq)]
pub enum SingleOp {
    Jmp = 0o000100,
    Swab = 0o000300,
    Clr = 0o005000,
    Com = 0o005100,
    Inc = 0o005200,
    Dec = 0o005300,
    Neg = 0o005400,
    Adc = 0o005500,
    Sbc = 0o005600,
    Tst = 0o005700,
    Ror = 0o006000,
    Rol = 0o006100,
    Asr = 0o006200,
    Asl = 0o006300,
    Sxt = 0o006700,
}

/// The operations with a number in the code.
#[derive(Clone, Copy, PartialEq, Eq)]
pub enum NumberOp {
    /// A number from 0 to octal 77.
    Mark = 0o006400,
    /// A number from 0 to octal 377.
    Emt = 0o104000,
    /// A number from 0 to octal 377.
    Trap = 0o104400,
}

/// The operations whose code has no fields.
#[derive(Clone, Copy, PartialEq, Eq)]
pub enum BareOp {
    Halt = 0o000000,
    Wait = 0o000001,
    Rti = 0o000002,
    Bpt = 0o000003,
    Iot = 0o000004,
    Reset = 0o000005,
    Rtt = 0o000006,
}

/// What an instruction does to the condition codes that it names.
#[derive(Clone, Copy, PartialEq, Eq)]
pub enum ConditionOp {
    Clear = 0o000240,
    Set = 0o000260,
}

/// The branches, which have their offset in the low byte of the code.
#[derive(Clone, Copy, PartialEq, Eq)]
pub enum BranchOp {
    Br = 0o000400,
    Bne = 0o001000,
    Beq = 0o001400,
    Bge = 0o002000,
    Blt = 0o002400,
    Bgt = 0o003000,
    Ble = 0o003400,
    Bpl = 0o100000,
    Bmi = 0o100400,
    Bhi = 0o101000,
    Blos = 0o101400,
    Bvc = 0o102000,
    Bvs = 0o102400,
    Bcc = 0o103000,
    Bcs = 0o103400,
}

/// The bits of SOB, above those of its register and its count.
pub(crate) const SOB: u16 = 0o077000;

/// The bits of RTS, above those of its register.
pub(crate) const RTS: u16 = 0o000200;

/// The condition codes that an instruction clears or sets.
#[derive(Clone, Copy, PartialEq, Eq)]
pub struct ConditionCodes {
    /// N.
    pub negative: bool,
    /// Z.
    pub zero: bool,
    /// V.
    pub overflow: bool,
    /// C.
    pub carry: bool,
}

#[rattlefmt::skip]
impl ConditionCodes {
    /// No condition code.
    pub const NONE: ConditionCodes = ConditionCodes { negative: false, zero: false, overflow: false, carry: false };

    /// C alone.
    pub const CARRY: ConditionCodes = ConditionCodes { negative: false, zero: false, overflow: false, carry: true };

    /// V alone.
    pub const OVERFLOW: ConditionCodes = ConditionCodes { negative: false, zero: false, overflow: true, carry: false };

    /// Z alone.
    pub const ZERO: ConditionCodes = ConditionCodes { negative: false, zero: true, overflow: false, carry: false };

    /// N alone.
    pub const NEGATIVE: ConditionCodes = ConditionCodes { negative: true, zero: false, overflow: false, carry: false };

    /// N, Z, V and C.
    pub const ALL: ConditionCodes = ConditionCodes { negative: true, zero: true, overflow: true, carry: true };
}

/// An instruction, without the words after its code.
#[derive(Clone, Copy, PartialEq, Eq)]
pub enum Insn {
    /// The source, and the destination.
    Double(DoubleOp, Size, Operand, Operand),
    /// The register of the instruction, and the source.
    Extended(ExtendedOp, Register, Operand),
    /// The register, and the destination.
    Register(RegisterOp, Register, Operand),
    /// SOB: the register, and the distance in words back from the next instruction to the target, 0 to 63.
    Sob(Register, u8),
    /// The destination.
    Single(SingleOp, Size, Operand),
    /// RTS: the register.
    Rts(Register),
    /// MARK, EMT or TRAP: the number in the code.
    Number(NumberOp, u8),
    /// The operation alone.
    Bare(BareOp),
    /// The condition codes that the instruction clears or sets.
    Condition(ConditionOp, ConditionCodes),
    /// The distance in words from the next instruction to the target, -128 to 127.
    Branch(BranchOp, i8),
    /// A word that isn't the code of an operation.
    Reserved(u16),
}

/// An operation with the form of its operands. A name in a source can mean any of these but `Condition`.
#[derive(Clone, Copy, PartialEq, Eq)]
pub enum Op {
    /// A source and a destination.
    Double(DoubleOp, Size),
    /// A source and a register.
    Extended(ExtendedOp),
    /// A register and a destination.
    Register(RegisterOp),
    /// SOB: a register and a target.
    Sob,
    /// A destination.
    Single(SingleOp, Size),
    /// RTS: a register.
    Rts,
    /// MARK, EMT or TRAP: a number.
    Number(NumberOp),
    /// No operand.
    Bare(BareOp),
    /// Condition codes to clear or to set. No name in a source means this operation.
    Condition(ConditionOp),
    /// A target.
    Branch(BranchOp),
    /// CALL: a destination. It is JSR with the program counter as its register.
    Call,
    /// RETURN: no operand. It is RTS with the program counter as its register.
    Return,
    /// No operand: a name such as CLC says by itself which condition codes are cleared or set.
    Codes(ConditionOp, ConditionCodes),
}

// An operation, with the form of its operands.
macro_rules! op {
    (Double $operation:ident $size:ident) => {
        Op::Double(DoubleOp::$operation, Size::$size)
    };
    (Extended $operation:ident) => {
        Op::Extended(ExtendedOp::$operation)
    };
    (Register $operation:ident) => {
        Op::Register(RegisterOp::$operation)
    };
    (Sob) => {
        Op::Sob
    };
    (Single $operation:ident $size:ident) => {
        Op::Single(SingleOp::$operation, Size::$size)
    };
    (Rts) => {
        Op::Rts
    };
    (Number $operation:ident) => {
        Op::Number(NumberOp::$operation)
    };
    (Bare $operation:ident) => {
        Op::Bare(BareOp::$operation)
    };
    (Condition $operation:ident) => {
        Op::Condition(ConditionOp::$operation)
    };
    (Branch $operation:ident) => {
        Op::Branch(BranchOp::$operation)
    };
    (Call) => {
        Op::Call
    };
    (Return) => {
        Op::Return
    };
    (Codes $operation:ident $bits:literal $codes:ident) => {
        Op::Codes(ConditionOp::$operation, ConditionCodes::$codes)
    };
}

pub(crate) use op;
