//! Lines of source for instructions and for data.

ghost use Rattle.std.specs.Prelude.{◌≡◌, ◌≤◌, ◌<◌, ◌+◌, ◌++◌, ◌∷◌, [], length, slice_index};
ghost use Rattle.arrayvec.specs.ArrayVec.{array_vec_len};
ghost use Rattle.m11_base.specs.Instructions.{instruction_of};
ghost use Rattle.m11_base_disassembly.specs.Instructions as spec;
ghost use Rattle.m11_base_disassembly.specs.Statements.{DataByte, DataWord, Named};
ghost use Rattle.m11_base_disassembly.specs.Arguments.{words_of};
ghost use Rattle.m11_base_disassembly.specs.References.{no_references, reference_after};
ghost use Rattle.m11_base_disassembly.specs.Symbols.{address_text};
ghost use Rattle.m11_base_disassembly.specs.Texts.{argument_text, register_text, statement_text, words_written};

use crate::arguments::{put_argument, put_prefixed, register_text, words_of};
use crate::names::{put_bare_name, put_name, row_named};
use crate::numbers::put_number;
use crate::references::{References, put_number_or, reference_after};
use crate::source::{Source, put};
use crate::symbol_index::Symbols;
use crate::symbols::put_address;
use m11_base::{Insn, Operand, Register, Row, decode};

/// A line of source, and the number of words that it was made from.
#[derive(Clone, Drop)]
pub struct Disassembly {
    /// The line of source, without a line feed.
    pub source: Source,
    /// The number of words that the line assembles to, 1 to 3.
    pub words: usize,
}

/// The word at this index among those after the code, or 0 if it is missing.
pub(crate) fn word_at(more: &[u16], index: usize) -> u16
    ensures { result ≡ slice_index more.now index }
{
    match more.get(index) {
        Some(word) => *word,
        None => 0,
    }
}

// The target of a branch at this location, whose offset counts words from the next instruction.
fn branch_target(location: u16, offset: i8) -> u16
    ensures { result ≡ spec.branch_target location offset }
{
    location
        .wrapping_add(2)
        .wrapping_add(i16::from(offset).cast_unsigned().wrapping_mul(2))
}

/// The target of SOB at this location: this many words before the next instruction.
pub(crate) fn loop_target(location: u16, count: u8) -> u16
    ensures { result ≡ spec.loop_target location count }
{
    location.wrapping_add(2).wrapping_sub(2 * u16::from(count))
}

// How many words follow the code of an instruction: 0 to 2.
fn words_after(instruction: &Insn) -> usize
    ensures words { result ≡ spec.words_after instruction.now }
    ensures few { result ≤ 2 }
{
    match *instruction {
        Insn::Double(_, _, source, destination) => words_of(source) + words_of(destination),
        Insn::Extended(_, _, operand)
        | Insn::Register(_, _, operand)
        | Insn::Single(_, _, operand) => words_of(operand),
        Insn::Sob(..)
        | Insn::Rts(_)
        | Insn::Number(..)
        | Insn::Bare(_)
        | Insn::Condition(..)
        | Insn::Branch(..)
        | Insn::Reserved(_) => 0,
    }
}

// Adds the first operand. Its word, if it has one, is the first after the code.
fn put_first(
    line: &mut Source,
    symbols: &Symbols,
    references: &References,
    location: u16,
    more: &[u16],
    operand: Operand,
)
    requires { array_vec_len line.old ≤ 30 }
    ensures text { line.new.items ≡ line.old.items
        ++ argument_text symbols.now references.now.first (spec.first_argument location more.now operand) }
    ensures room { array_vec_len line.new ≤ array_vec_len line.old + 18 }
{
    put_argument(
        line,
        symbols,
        &references.first,
        operand,
        location.wrapping_add(4),
        word_at(more, 0),
    );
}

// Adds the second operand. Its word, if it has one, follows the code and any word of the first operand.
fn put_second(
    line: &mut Source,
    symbols: &Symbols,
    references: &References,
    location: u16,
    more: &[u16],
    first: Operand,
    operand: Operand,
)
    requires { array_vec_len line.old ≤ 30 }
    ensures text { line.new.items ≡ line.old.items
        ++ argument_text symbols.now (reference_after (words_of first) references.now)
        (spec.second_argument location more.now first operand) }
    ensures room { array_vec_len line.new ≤ array_vec_len line.old + 18 }
{
    let before = words_of(first);
    put_argument(
        line,
        symbols,
        &reference_after(before, references),
        operand,
        location.wrapping_add(4 + 2 * before as u16),
        word_at(more, before),
    );
}

/// The line of source for a word of data: what the word refers to, if it has a reference of its own that stands for it; otherwise the number in
/// octal.
pub fn word_source(references: &References, word: u16) -> Source
    ensures { result.items ≡ statement_text [] references.now (DataWord word) }
{
    let mut line = Source::new();
    put(&mut line, b".WORD  ");
    put_number_or(&mut line, &references.own, word);
    line
}

/// The line of source for a byte of data.
pub fn byte_source(byte: u8) -> Source
    ensures { result.items ≡ statement_text [] no_references (DataByte byte) }
{
    let mut line = Source::new();
    put_prefixed(&mut line, b".BYTE  ", u16::from(byte));
    line
}

// Adds the operands of a double-operand instruction.
#[tactic(auto, using(crate::proofs::Written::words_written_are))]
fn put_double(
    line: &mut Source,
    symbols: &Symbols,
    references: &References,
    location: u16,
    more: &[u16],
    source: Operand,
    destination: Operand,
)
    requires { array_vec_len line.old ≤ 11 }
    ensures text { line.new.items ≡ line.old.items
        ++ (argument_text symbols.now references.now.first (spec.first_argument location more.now source)
        ++ 44 ∷ argument_text symbols.now (reference_after (words_written (spec.first_argument location more.now source)) references.now)
        (spec.second_argument location more.now source destination)) }
    ensures room { array_vec_len line.new ≤ array_vec_len line.old + 37 }
{
    put_first(line, symbols, references, location, more, source);
    put(line, b",");
    put_second(
        line,
        symbols,
        references,
        location,
        more,
        source,
        destination,
    );
}

// Adds the operands of an instruction that has an operand and then a register.
fn put_extended(
    line: &mut Source,
    symbols: &Symbols,
    references: &References,
    location: u16,
    more: &[u16],
    register: Register,
    source: Operand,
)
    requires { array_vec_len line.old ≤ 11 }
    ensures text { line.new.items ≡ line.old.items
        ++ (argument_text symbols.now references.now.first (spec.first_argument location more.now source) ++ 44 ∷ register_text register) }
    ensures room { array_vec_len line.new ≤ array_vec_len line.old + 37 }
{
    put_first(line, symbols, references, location, more, source);
    put(line, b",");
    put(line, register_text(register));
}

// Adds the operands of an instruction that has a register and then an operand.
fn put_with_register(
    line: &mut Source,
    symbols: &Symbols,
    references: &References,
    location: u16,
    more: &[u16],
    register: Register,
    destination: Operand,
)
    requires { array_vec_len line.old ≤ 11 }
    ensures text { line.new.items ≡ line.old.items
        ++ (register_text register ++ 44 ∷ argument_text symbols.now references.now.first (spec.first_argument location more.now destination)) }
    ensures room { array_vec_len line.new ≤ array_vec_len line.old + 37 }
{
    put(line, register_text(register));
    put(line, b",");
    put_first(line, symbols, references, location, more, destination);
}

// Adds the operands of SOB: a register, and the address of the target.
fn put_loop(line: &mut Source, symbols: &Symbols, register: Register, address: u16)
    requires { array_vec_len line.old ≤ 11 }
    ensures text { line.new.items ≡ line.old.items ++ (register_text register ++ 44 ∷ address_text symbols.now address) }
    ensures room { array_vec_len line.new ≤ array_vec_len line.old + 37 }
{
    put(line, register_text(register));
    put(line, b",");
    put_address(line, symbols, address);
}

// The offset of a branch: the number of words from the next instruction to the target. It is 0 for any other instruction.
fn offset_of(instruction: Insn) -> i8
    ensures { result ≡ spec.offset_of instruction }
{
    match instruction {
        Insn::Branch(_, offset) => offset,
        _ => 0,
    }
}

/// The target of a branch at this location.
pub(crate) fn target_of(location: u16, instruction: Insn) -> u16
    ensures { result ≡ spec.branch_target location (spec.offset_of instruction) }
{
    branch_target(location, offset_of(instruction))
}

// Adds the name and the operands of an instruction.
fn put_named(
    line: &mut Source,
    symbols: &Symbols,
    references: &References,
    name: &[u8; 6],
    location: u16,
    more: &[u16],
    instruction: Insn,
)
    requires { array_vec_len line.old ≤ 4 }
    ensures { line.new.items ≡ line.old.items
        ++ statement_text symbols.now references.now (Named name.now (spec.operands_of location more.now instruction)) }
{
    match instruction {
        Insn::Double(_, _, source, destination) => {
            put_name(line, name);
            put_double(
                line,
                symbols,
                references,
                location,
                more,
                source,
                destination,
            );
        }
        Insn::Extended(_, register, source) => {
            put_name(line, name);
            put_extended(line, symbols, references, location, more, register, source);
        }
        Insn::Register(_, register, destination) => {
            put_name(line, name);
            put_with_register(
                line,
                symbols,
                references,
                location,
                more,
                register,
                destination,
            );
        }
        Insn::Sob(register, count) => {
            put_name(line, name);
            put_loop(line, symbols, register, loop_target(location, count));
        }
        Insn::Single(_, _, operand) => {
            put_name(line, name);
            put_first(line, symbols, references, location, more, operand);
        }
        Insn::Rts(register) => {
            put_name(line, name);
            put(line, register_text(register));
        }
        Insn::Number(_, number) => {
            put_name(line, name);
            put_number(line, u16::from(number));
        }
        Insn::Branch(..) => {
            put_name(line, name);
            put_address(line, symbols, target_of(location, instruction));
        }
        Insn::Bare(_) | Insn::Condition(..) | Insn::Reserved(_) => put_bare_name(line, name),
    }
}

// The line of an instruction with this name.
fn named_source(
    symbols: &Symbols,
    references: &References,
    name: &[u8; 6],
    location: u16,
    more: &[u16],
    instruction: Insn,
) -> Source
    ensures { result.items ≡ statement_text symbols.now references.now (Named name.now (spec.operands_of location more.now instruction)) }
{
    let mut line = Source::new();
    put_named(
        &mut line,
        symbols,
        references,
        name,
        location,
        more,
        instruction,
    );
    line
}

/// The row whose name is written for this word, if there is one and all words of the instruction are present.
pub(crate) fn whole_row(word: u16, more: &[u16]) -> Option<Row>
    ensures { result ≡ spec.whole_row word more.now }
{
    if words_after(&decode(word)) <= more.len() {
        row_named(word)
    } else {
        None
    }
}

/// The number of words that the line for a word and the words `more` that follow it is made from: 1 to 3.
pub fn statement_size(word: u16, more: &[u16]) -> usize
    ensures words { result ≡ spec.size_of word more.now }
    ensures some { 0 < result }
    ensures there { result ≤ 1 + length more.now }
{
    match whole_row(word, more) {
        Some(_) => 1 + words_after(&decode(word)),
        None => 1,
    }
}

/// The line of source for the word at this location and the words `more` that follow it, of which at most two are used. The line is the
/// instruction with this code; or a word of data if the code has no name or `more` lacks a word of the instruction. Assembled at this
/// location of an absolute section, the line yields exactly the words that it was made from, if the symbols have these values there. An
/// operand that is an address, and the target of a branch, is written as the nearest symbol and the distance from there, if that symbol's
/// section is known or its value is the address; otherwise in octal, as are numbers after `#`, and indexes. But a word of an operand with a
/// reference is written as what it refers to, if both are relative or neither is, and so is a word of data, which isn't relative.
pub fn disassembled(
    symbols: &Symbols,
    references: &References,
    location: u16,
    word: u16,
    more: &[u16],
) -> Disassembly
    ensures source { result.source.items ≡ statement_text symbols.now references.now (spec.statement_of location word more.now) }
    ensures words { result.words ≡ spec.size_of word more.now }
    ensures some { 0 < result.words }
    ensures there { result.words ≤ 1 + length more.now }
{
    match whole_row(word, more) {
        Some(row) => {
            let instruction = decode(word);
            Disassembly {
                source: named_source(symbols, references, &row.name, location, more, instruction),
                words: 1 + words_after(&instruction),
            }
        }
        None => Disassembly {
            source: word_source(references, word),
            words: 1,
        },
    }
}
