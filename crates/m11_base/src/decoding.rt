//! Decodes words into instructions. (PDP-11/40 Processor Handbook, "Instruction set".)

ghost use Rattle.std.specs.Prelude.{◌≡◌, ◌<◌, IsTrue, ◌/◌, ◌%◌, None, is_none, slice_index_or};
ghost use Rattle.m11_base.specs.OperationTables.{bare, operation_by_tables, with_next_digits};
ghost use Rattle.m11_base.specs.Encoding.{code_of, fits};
ghost use Rattle.m11_base.specs.Instructions.{HasOneMeaning, condition_codes_of, instruction_of, meaning, number_in, row_of, with_fields};

use crate::instruction::{ConditionCodes, Insn, NumberOp, Op, RegisterOp};
use crate::instruction_list::{Row, rows};
use crate::operand::{Operand, Register};
use crate::operation_tables::{BARE, DOUBLES, EXTENDED, HIGH, LAST, LOW};

/// The instruction that a word means, by the octal digits of its code; `Reserved` if the word isn't the code of an operation.
#[inline(always)]
pub fn decode(word: u16) -> Insn
    ensures instruction { result ≡ instruction_of word }
    ensures one_row { HasOneMeaning word }
    ensures again { IsTrue (fits result) × (code_of result ≡ word) }
{
    by_tables(word)
}

/// The operation that a word means, by the octal digits of its code; `None` if the word isn't the code of an operation.
#[inline(always)]
#[tactic(auto, unfolding(crate::specs::OperationTables::doubles, crate::specs::OperationTables::extended, crate::specs::OperationTables::high))]
pub fn operation(word: u16) -> Option<Op>
    ensures { result ≡ operation_by_tables word }
{
    match word / 0o10000 {
        0o00 => low_operation(word),
        0o07 => EXTENDED[usize::from(word / 0o1000 % 0o10)],
        0o10 => HIGH[usize::from(word / 0o100 % 0o100)],
        digits => DOUBLES[usize::from(digits)],
    }
}

/// The instruction that a word means, by a search of the whole list. The result equals that of `decode`, but the search is slow: use it in
/// tests.
pub fn decode_by_list(word: u16) -> Insn
    ensures { result ≡ instruction_of word }
{
    let Some(row) = row(word) else {
        return Insn::Reserved(word);
    };
    with_fields(row.operation, word)
}

// Whether a word matches no row of the list.
pub(crate) fn is_reserved(word: u16) -> bool
    ensures { result ≡ is_none (row_of word) }
{
    row(word).is_none()
}

// The row of the list that a word matches, if there is one.
fn row(word: u16) -> Option<Row>
    ensures { result ≡ row_of word }
{
    let found = rows().iter().find(|row| word & row.mask == row.value);
    found.copied()
}

// The instruction of the operation that the tables have for a word, or a reserved code if they have none.
#[inline(always)]
fn by_tables(word: u16) -> Insn
    ensures { result ≡ meaning (operation_by_tables word) word }
{
    match operation(word) {
        Some(operation) => with_fields(operation, word),
        None => Insn::Reserved(word),
    }
}

// The operation of a word 00xxxx, or `None` if the word is a reserved code.
#[inline(always)]
#[tactic(auto, unfolding(crate::specs::OperationTables::low, crate::specs::OperationTables::last))]
fn low_operation(word: u16) -> Option<Op>
    requires { word < 0o10000 }
    ensures { result ≡ with_next_digits (word / 0o100) word }
{
    match word / 0o100 {
        0o00 => bare_operation(word),
        0o02 => LAST[usize::from(word / 0o10 % 0o10)],
        digits => LOW[usize::from(digits)],
    }
}

// The operation of a word below octal 100: the whole word is the code. Words from octal 7 to 77 have no operation.
#[inline(always)]
#[tactic(auto, unfolding(crate::specs::OperationTables::bare))]
fn bare_operation(word: u16) -> Option<Op>
    ensures { result ≡ slice_index_or bare word None }
{
    if word < 0o10 {
        BARE[usize::from(word)]
    } else {
        None
    }
}

// The instruction of an operation, with the fields of a word. CALL and RETURN have the register `Pc`, and a name such as CLC has
// condition codes of its own.
#[inline(always)]
fn with_fields(operation: Op, word: u16) -> Insn
    ensures { result ≡ with_fields operation word }
{
    let register = Register::of_bits(word / 0o100);
    let operand = Operand::of_bits(word);
    match operation {
        Op::Double(operation, size) => {
            Insn::Double(operation, size, Operand::of_bits(word / 0o100), operand)
        }
        Op::Extended(operation) => Insn::Extended(operation, register, operand),
        Op::Register(operation) => Insn::Register(operation, register, operand),
        Op::Sob => Insn::Sob(register, (word % 0o100) as u8),
        Op::Single(operation, size) => Insn::Single(operation, size, operand),
        Op::Rts => Insn::Rts(operand.register),
        Op::Number(operation) => Insn::Number(operation, number(operation, word)),
        Op::Bare(operation) => Insn::Bare(operation),
        Op::Condition(operation) => Insn::Condition(operation, condition_codes(word)),
        Op::Branch(operation) => Insn::Branch(operation, ((word % 0o400) as u8).cast_signed()),
        Op::Call => Insn::Register(RegisterOp::Jsr, Register::Pc, operand),
        Op::Return => Insn::Rts(Register::Pc),
        Op::Codes(operation, codes) => Insn::Condition(operation, codes),
    }
}

// The number in the code of an operation: its low six bits for MARK, its low eight for EMT and TRAP.
fn number(operation: NumberOp, word: u16) -> u8
    ensures { result ≡ number_in operation word }
{
    match operation {
        NumberOp::Mark => (word % 0o100) as u8,
        NumberOp::Emt | NumberOp::Trap => (word % 0o400) as u8,
    }
}

// The condition codes that the low four bits of a word name: N is octal 10, Z 4, V 2, C 1.
fn condition_codes(word: u16) -> ConditionCodes
    ensures { result ≡ condition_codes_of (word % 0o20) }
{
    ConditionCodes {
        negative: word % 0o20 / 0o10 % 2 == 1,
        zero: word % 0o20 / 0o4 % 2 == 1,
        overflow: word % 0o20 / 0o2 % 2 == 1,
        carry: word % 0o20 % 2 == 1,
    }
}
