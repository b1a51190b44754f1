//! Operands as they are written in a source.

ghost use Rattle.std.specs.Prelude.{◌≡◌, ◌≤◌, ◌+◌, ◌++◌, [], false, length};
ghost use Rattle.arrayvec.specs.ArrayVec.{array_vec_len};
ghost use Rattle.m11_base.specs.declared.operand.Mode.{Mode};
ghost use Rattle.m11_base_disassembly.specs.Arguments.{argument, by_counter, by_register, words_of};
ghost use Rattle.m11_base_disassembly.specs.Numbers.{number_text};
ghost use Rattle.m11_base_disassembly.specs.References.{referred_or};
ghost use Rattle.m11_base_disassembly.specs.Texts as spec;

use crate::numbers::put_number;
use crate::references::{Reference, put_address_or, put_number_or};
use crate::source::{Source, put};
use crate::symbol_index::Symbols;
use m11_base::{Mode, Operand, Register};

/// The name of a register.
pub(crate) fn register_text(register: Register) -> &'static [u8]
    ensures text { result.now ≡ spec.register_text register }
    ensures room { length result.now ≤ 2 }
{
    match register {
        Register::R0 => b"R0",
        Register::R1 => b"R1",
        Register::R2 => b"R2",
        Register::R3 => b"R3",
        Register::R4 => b"R4",
        Register::R5 => b"R5",
        Register::Sp => b"SP",
        Register::Pc => b"PC",
    }
}

// Adds the name of a register between two texts.
fn put_between(line: &mut Source, first: &[u8], register: Register, last: &[u8])
    requires { array_vec_len line.old + (length first.now + length last.now) ≤ 46 }
    ensures text { line.new.items ≡ line.old.items ++ spec.between first.now register last.now }
    ensures room { array_vec_len line.new ≤ array_vec_len line.old + (length first.now + length last.now) + 2 }
{
    put(line, first);
    put(line, register_text(register));
    put(line, last);
}

// Adds an index, or what it refers to, and a register in parentheses.
fn put_index(line: &mut Source, reference: &Option<Reference>, number: u16, register: Register)
    requires { array_vec_len line.old ≤ 31 }
    ensures text { line.new.items ≡ line.old.items
        ++ spec.index_text (referred_or false reference.now (number_text number)) register }
    ensures room { array_vec_len line.new ≤ array_vec_len line.old + 17 }
{
    put_number_or(line, reference, number);
    put_between(line, b"(", register, b")");
}

/// Adds a text, and after it a word in octal.
pub(crate) fn put_prefixed(line: &mut Source, first: &[u8], number: u16)
    requires room { array_vec_len line.old ≤ 24 }
    requires first { length first.now ≤ 7 }
    ensures text { line.new.items ≡ line.old.items ++ spec.prefixed first.now number }
    ensures room { array_vec_len line.new ≤ array_vec_len line.old + length first.now + 6 }
{
    put(line, first);
    put_number(line, number);
}

// Adds the operand with this mode and register. `word` is the word after the instruction's code, which only some modes use, and `reference`
// what it refers to.
fn put_by_register(
    line: &mut Source,
    reference: &Option<Reference>,
    mode: Mode,
    register: Register,
    word: u16,
)
    requires { array_vec_len line.old ≤ 30 }
    ensures text { line.new.items ≡ line.old.items ++ spec.argument_text [] reference.now (by_register mode register word) }
    ensures room { array_vec_len line.new ≤ array_vec_len line.old + 18 }
{
    match mode {
        Mode::Register => put(line, register_text(register)),
        Mode::RegisterDeferred => put_between(line, b"(", register, b")"),
        Mode::Autoincrement => put_between(line, b"(", register, b")+"),
        Mode::AutoincrementDeferred => put_between(line, b"@(", register, b")+"),
        Mode::Autodecrement => put_between(line, b"-(", register, b")"),
        Mode::AutodecrementDeferred => put_between(line, b"@-(", register, b")"),
        Mode::Index => put_index(line, reference, word, register),
        Mode::IndexDeferred => {
            put(line, b"@");
            put_index(line, reference, word, register);
        }
    }
}

// Adds the operand with this mode and the program counter. `word` is the operand's word after the code, if it has one, `reference` what it
// refers to, and `after` the location after that word.
fn put_by_counter(
    line: &mut Source,
    symbols: &Symbols,
    reference: &Option<Reference>,
    mode: Mode,
    after: u16,
    word: u16,
)
    requires { array_vec_len line.old ≤ 30 }
    ensures text { line.new.items ≡ line.old.items ++ spec.argument_text symbols.now reference.now (by_counter mode after word) }
    ensures room { array_vec_len line.new ≤ array_vec_len line.old + 18 }
{
    match mode {
        Mode::Autoincrement => {
            put(line, b"#");
            put_number_or(line, reference, word);
        }
        Mode::AutoincrementDeferred => {
            put(line, b"@#");
            put_address_or(line, symbols, false, reference, word);
        }
        Mode::Index => put_address_or(line, symbols, true, reference, after.wrapping_add(word)),
        Mode::IndexDeferred => {
            put(line, b"@");
            put_address_or(line, symbols, true, reference, after.wrapping_add(word));
        }
        Mode::Register
        | Mode::RegisterDeferred
        | Mode::Autodecrement
        | Mode::AutodecrementDeferred => put_by_register(line, reference, mode, Register::Pc, word),
    }
}

/// Adds an operand. `word` is its word after the code, if it has one, and `after` is the location after that word. `reference` is what the word
/// refers to, and stands for it if it can; otherwise an address has its name, if these symbols have one for it.
#[tactic(auto, using(crate::proofs::Unnamed::by_register_alone))]
pub(crate) fn put_argument(
    line: &mut Source,
    symbols: &Symbols,
    reference: &Option<Reference>,
    operand: Operand,
    after: u16,
    word: u16,
)
    requires { array_vec_len line.old ≤ 30 }
    ensures text { line.new.items ≡ line.old.items ++ spec.argument_text symbols.now reference.now (argument operand after word) }
    ensures room { array_vec_len line.new ≤ array_vec_len line.old + 18 }
{
    match operand.register {
        Register::Pc => put_by_counter(line, symbols, reference, operand.mode, after, word),
        register => put_by_register(line, reference, operand.mode, register, word),
    }
}

/// How many words an operand has after the instruction's code: 0 or 1.
pub(crate) fn words_of(operand: Operand) -> usize
    ensures words { result ≡ words_of operand }
    ensures few { result ≤ 1 }
{
    match (operand.mode, operand.register) {
        (Mode::Index | Mode::IndexDeferred, _)
        | (Mode::Autoincrement | Mode::AutoincrementDeferred, Register::Pc) => 1,
        _ => 0,
    }
}
