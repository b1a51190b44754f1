//! Tables from the octal digits of a code to its operation. (PDP-11/40 Processor Handbook,
//! "Instruction set".)

use crate::instruction::{
    BareOp, BranchOp, ConditionOp, DoubleOp, ExtendedOp, NumberOp, Op, RegisterOp, SingleOp, op,
};
use crate::operand::Size;

// An entry with an operation.
macro_rules! entry {
    ($($operation:ident)+) => {
        Some(op!($($operation)+))
    };
}

// The operations of words, by the upper four bits. Those of words 00xxxx, 07xxxx and 10xxxx are in the other tables.
#[rattlefmt::skip]
pub(crate) static DOUBLES: [Option<Op>; 16] = [
    None, entry!(Double Mov Word), entry!(Double Cmp Word), entry!(Double Bit Word),
    entry!(Double Bic Word), entry!(Double Bis Word), entry!(Double Add Word), None,
    None, entry!(Double Mov Byte), entry!(Double Cmp Byte), entry!(Double Bit Byte),
    entry!(Double Bic Byte), entry!(Double Bis Byte), entry!(Double Sub Word), None,
];

// The operations of words 07xxxx, by the next octal digit.
#[rattlefmt::skip]
pub(crate) static EXTENDED: [Option<Op>; 8] = [
    entry!(Extended Mul), entry!(Extended Div), entry!(Extended Ash), entry!(Extended Ashc),
    entry!(Register Xor), None, None, entry!(Sob),
];

// The operations of words 000000 to 000007.
#[rattlefmt::skip]
pub(crate) static BARE: [Option<Op>; 8] = [
    entry!(Bare Halt), entry!(Bare Wait), entry!(Bare Rti), entry!(Bare Bpt),
    entry!(Bare Iot), entry!(Bare Reset), entry!(Bare Rtt), None,
];

// The operations of words 0002xx, by the next octal digit.
#[rattlefmt::skip]
pub(crate) static LAST: [Option<Op>; 8] = [
    entry!(Rts), None, None, None,
    entry!(Condition Clear), entry!(Condition Clear), entry!(Condition Set), entry!(Condition Set),
];

// The operations of the other words 00xxxx, by the next two octal digits.
#[rattlefmt::skip]
pub(crate) static LOW: [Option<Op>; 64] = [
    None, entry!(Single Jmp Word), None, entry!(Single Swab Word),
    entry!(Branch Br), entry!(Branch Br), entry!(Branch Br), entry!(Branch Br),
    entry!(Branch Bne), entry!(Branch Bne), entry!(Branch Bne), entry!(Branch Bne),
    entry!(Branch Beq), entry!(Branch Beq), entry!(Branch Beq), entry!(Branch Beq),
    entry!(Branch Bge), entry!(Branch Bge), entry!(Branch Bge), entry!(Branch Bge),
    entry!(Branch Blt), entry!(Branch Blt), entry!(Branch Blt), entry!(Branch Blt),
    entry!(Branch Bgt), entry!(Branch Bgt), entry!(Branch Bgt), entry!(Branch Bgt),
    entry!(Branch Ble), entry!(Branch Ble), entry!(Branch Ble), entry!(Branch Ble),
    entry!(Register Jsr), entry!(Register Jsr), entry!(Register Jsr), entry!(Register Jsr),
    entry!(Register Jsr), entry!(Register Jsr), entry!(Register Jsr), entry!(Register Jsr),
    entry!(Single Clr Word), entry!(Single Com Word), entry!(Single Inc Word), entry!(Single Dec Word),
    entry!(Single Neg Word), entry!(Single Adc Word), entry!(Single Sbc Word), entry!(Single Tst Word),
    entry!(Single Ror Word), entry!(Single Rol Word), entry!(Single Asr Word), entry!(Single Asl Word),
    entry!(Number Mark), None, None, entry!(Single Sxt Word),
    None, None, None, None,
    None, None, None, None,
];

// The operations of words 10xxxx, by the next two octal digits.
#[rattlefmt::skip]
pub(crate) static HIGH: [Option<Op>; 64] = [
    entry!(Branch Bpl), entry!(Branch Bpl), entry!(Branch Bpl), entry!(Branch Bpl),
    entry!(Branch Bmi), entry!(Branch Bmi), entry!(Branch Bmi), entry!(Branch Bmi),
    entry!(Branch Bhi), entry!(Branch Bhi), entry!(Branch Bhi), entry!(Branch Bhi),
    entry!(Branch Blos), entry!(Branch Blos), entry!(Branch Blos), entry!(Branch Blos),
    entry!(Branch Bvc), entry!(Branch Bvc), entry!(Branch Bvc), entry!(Branch Bvc),
    entry!(Branch Bvs), entry!(Branch Bvs), entry!(Branch Bvs), entry!(Branch Bvs),
    entry!(Branch Bcc), entry!(Branch Bcc), entry!(Branch Bcc), entry!(Branch Bcc),
    entry!(Branch Bcs), entry!(Branch Bcs), entry!(Branch Bcs), entry!(Branch Bcs),
    entry!(Number Emt), entry!(Number Emt), entry!(Number Emt), entry!(Number Emt),
    entry!(Number Trap), entry!(Number Trap), entry!(Number Trap), entry!(Number Trap),
    entry!(Single Clr Byte), entry!(Single Com Byte), entry!(Single Inc Byte), entry!(Single Dec Byte),
    entry!(Single Neg Byte), entry!(Single Adc Byte), entry!(Single Sbc Byte), entry!(Single Tst Byte),
    entry!(Single Ror Byte), entry!(Single Rol Byte), entry!(Single Asr Byte), entry!(Single Asl Byte),
    None, None, None, None,
    None, None, None, None,
    None, None, None, None,
];
