//! The instruction list: its rows, and other names for codes that are in it. (PDP-11/40 Processor Handbook, "Instruction set";
//! MACRO-11 Language Reference Manual, "Permanent symbol table".)

ghost use Rattle.std.specs.Prelude.{◌≡◌};
ghost use Rattle.m11_base.specs.Instructions.{rows, other_names};

use crate::instruction::{
    BareOp, BranchOp, ConditionCodes, ConditionOp, DoubleOp, ExtendedOp, NumberOp, Op, RTS,
    RegisterOp, SOB, SingleOp, op,
};
use crate::operand::Size;

/// One row of the list: the meaning of all words that have this value under this mask.
#[derive(Clone, Copy, PartialEq, Eq)]
pub struct Row {
    /// The name in a source, padded with blanks to six characters; six blanks if there is no name.
    pub name: [u8; 6],
    /// The bits of the operation; the other bits are fields.
    pub mask: u16,
    /// The value of these bits.
    pub value: u16,
    /// The operation, with the form of its operands.
    pub operation: Op,
}

// The bits of an operation's code, without its fields.
macro_rules! bits {
    (Double $operation:ident $size:ident) => {
        DoubleOp::$operation as u16 + Size::$size as u16
    };
    (Extended $operation:ident) => {
        ExtendedOp::$operation as u16
    };
    (Register $operation:ident) => {
        RegisterOp::$operation as u16
    };
    (Sob) => {
        SOB
    };
    (Single $operation:ident $size:ident) => {
        SingleOp::$operation as u16 + Size::$size as u16
    };
    (Rts) => {
        RTS
    };
    (Number $operation:ident) => {
        NumberOp::$operation as u16
    };
    (Bare $operation:ident) => {
        BareOp::$operation as u16
    };
    (Condition $operation:ident) => {
        ConditionOp::$operation as u16
    };
    (Branch $operation:ident) => {
        BranchOp::$operation as u16
    };
    (Call) => {
        RegisterOp::Jsr as u16 + 0o000700
    };
    (Return) => {
        RTS + 0o000007
    };
    (Codes $operation:ident $bits:literal $codes:ident) => {
        ConditionOp::$operation as u16 + $bits
    };
}

// A row: its name, the mask of the operation's bits, and the operation, which determines the value of these bits.
macro_rules! row {
    ($name:literal, $mask:literal, $($operation:tt)+) => {
        Row {
            name: *$name,
            mask: $mask,
            value: bits!($($operation)+),
            operation: op!($($operation)+),
        }
    };
}

// The list, in the order of the variants of `Op`.
#[rattlefmt::skip]
const ROWS: [Row; 74] = [
    row!(b"MOV   ", 0o170000, Double Mov Word),
    row!(b"CMP   ", 0o170000, Double Cmp Word),
    row!(b"BIT   ", 0o170000, Double Bit Word),
    row!(b"BIC   ", 0o170000, Double Bic Word),
    row!(b"BIS   ", 0o170000, Double Bis Word),
    row!(b"ADD   ", 0o170000, Double Add Word),
    row!(b"MOVB  ", 0o170000, Double Mov Byte),
    row!(b"CMPB  ", 0o170000, Double Cmp Byte),
    row!(b"BITB  ", 0o170000, Double Bit Byte),
    row!(b"BICB  ", 0o170000, Double Bic Byte),
    row!(b"BISB  ", 0o170000, Double Bis Byte),
    row!(b"SUB   ", 0o170000, Double Sub Word),
    row!(b"MUL   ", 0o177000, Extended Mul),
    row!(b"DIV   ", 0o177000, Extended Div),
    row!(b"ASH   ", 0o177000, Extended Ash),
    row!(b"ASHC  ", 0o177000, Extended Ashc),
    row!(b"JSR   ", 0o177000, Register Jsr),
    row!(b"XOR   ", 0o177000, Register Xor),
    row!(b"SOB   ", 0o177000, Sob),
    row!(b"JMP   ", 0o177700, Single Jmp Word),
    row!(b"SWAB  ", 0o177700, Single Swab Word),
    row!(b"CLR   ", 0o177700, Single Clr Word),
    row!(b"COM   ", 0o177700, Single Com Word),
    row!(b"INC   ", 0o177700, Single Inc Word),
    row!(b"DEC   ", 0o177700, Single Dec Word),
    row!(b"NEG   ", 0o177700, Single Neg Word),
    row!(b"ADC   ", 0o177700, Single Adc Word),
    row!(b"SBC   ", 0o177700, Single Sbc Word),
    row!(b"TST   ", 0o177700, Single Tst Word),
    row!(b"ROR   ", 0o177700, Single Ror Word),
    row!(b"ROL   ", 0o177700, Single Rol Word),
    row!(b"ASR   ", 0o177700, Single Asr Word),
    row!(b"ASL   ", 0o177700, Single Asl Word),
    row!(b"SXT   ", 0o177700, Single Sxt Word),
    row!(b"CLRB  ", 0o177700, Single Clr Byte),
    row!(b"COMB  ", 0o177700, Single Com Byte),
    row!(b"INCB  ", 0o177700, Single Inc Byte),
    row!(b"DECB  ", 0o177700, Single Dec Byte),
    row!(b"NEGB  ", 0o177700, Single Neg Byte),
    row!(b"ADCB  ", 0o177700, Single Adc Byte),
    row!(b"SBCB  ", 0o177700, Single Sbc Byte),
    row!(b"TSTB  ", 0o177700, Single Tst Byte),
    row!(b"RORB  ", 0o177700, Single Ror Byte),
    row!(b"ROLB  ", 0o177700, Single Rol Byte),
    row!(b"ASRB  ", 0o177700, Single Asr Byte),
    row!(b"ASLB  ", 0o177700, Single Asl Byte),
    row!(b"RTS   ", 0o177770, Rts),
    row!(b"MARK  ", 0o177700, Number Mark),
    row!(b"EMT   ", 0o177400, Number Emt),
    row!(b"TRAP  ", 0o177400, Number Trap),
    row!(b"HALT  ", 0o177777, Bare Halt),
    row!(b"WAIT  ", 0o177777, Bare Wait),
    row!(b"RTI   ", 0o177777, Bare Rti),
    row!(b"BPT   ", 0o177777, Bare Bpt),
    row!(b"IOT   ", 0o177777, Bare Iot),
    row!(b"RESET ", 0o177777, Bare Reset),
    row!(b"RTT   ", 0o177777, Bare Rtt),
    row!(b"      ", 0o177760, Condition Clear),
    row!(b"      ", 0o177760, Condition Set),
    row!(b"BR    ", 0o177400, Branch Br),
    row!(b"BNE   ", 0o177400, Branch Bne),
    row!(b"BEQ   ", 0o177400, Branch Beq),
    row!(b"BGE   ", 0o177400, Branch Bge),
    row!(b"BLT   ", 0o177400, Branch Blt),
    row!(b"BGT   ", 0o177400, Branch Bgt),
    row!(b"BLE   ", 0o177400, Branch Ble),
    row!(b"BPL   ", 0o177400, Branch Bpl),
    row!(b"BMI   ", 0o177400, Branch Bmi),
    row!(b"BHI   ", 0o177400, Branch Bhi),
    row!(b"BLOS  ", 0o177400, Branch Blos),
    row!(b"BVC   ", 0o177400, Branch Bvc),
    row!(b"BVS   ", 0o177400, Branch Bvs),
    row!(b"BCC   ", 0o177400, Branch Bcc),
    row!(b"BCS   ", 0o177400, Branch Bcs),
];

// Other names for codes that are in the list already. A row with `Codes` has its condition codes twice: as bits and by name.
#[rattlefmt::skip]
const OTHER_NAMES: [Row; 15] = [
    row!(b"BHIS  ", 0o177400, Branch Bcc),
    row!(b"BLO   ", 0o177400, Branch Bcs),
    row!(b"CALL  ", 0o177700, Call),
    row!(b"RETURN", 0o177777, Return),
    row!(b"NOP   ", 0o177777, Codes Clear 0o00 NONE),
    row!(b"CLC   ", 0o177777, Codes Clear 0o01 CARRY),
    row!(b"CLV   ", 0o177777, Codes Clear 0o02 OVERFLOW),
    row!(b"CLZ   ", 0o177777, Codes Clear 0o04 ZERO),
    row!(b"CLN   ", 0o177777, Codes Clear 0o10 NEGATIVE),
    row!(b"CCC   ", 0o177777, Codes Clear 0o17 ALL),
    row!(b"SEC   ", 0o177777, Codes Set 0o01 CARRY),
    row!(b"SEV   ", 0o177777, Codes Set 0o02 OVERFLOW),
    row!(b"SEZ   ", 0o177777, Codes Set 0o04 ZERO),
    row!(b"SEN   ", 0o177777, Codes Set 0o10 NEGATIVE),
    row!(b"SCC   ", 0o177777, Codes Set 0o17 ALL),
];

/// The rows of the list: one for each operation in each of its sizes.
#[tactic(auto, unfolding(crate::specs::Instructions::rows))]
pub fn rows() -> &'static [Row]
    ensures { result.now ≡ rows }
{
    &ROWS
}

/// The rows of the other names. Their codes are in the list too.
#[tactic(auto, unfolding(crate::specs::Instructions::other_names))]
pub fn other_names() -> &'static [Row]
    ensures { result.now ≡ other_names }
{
    &OTHER_NAMES
}
