//! The lines of source that show what memory holds.

ghost use Rattle.std.specs.Prelude.{◌≡◌, ◌≤◌, ◌<◌, ◌+◌, ◌*◌, ◌++◌, IfOk, length, slice_index};
ghost use Rattle.arrayvec.specs.ArrayVec.{array_vec_len};
ghost use Rattle.m11_base_disassembly.specs.OperandAddresses.{addresses_of};
ghost use Rattle.m11_base_disassembly.specs.References.{no_references};
ghost use Rattle.m11_base_disassembly.specs.Texts.{statement_text};
ghost use Rattle.m11_dump_source.specs.Lines as spec;

use arrayvec::ArrayVec;
use m11_base_disassembly::{
    Addresses, Source, Symbols, addresses, byte_source, disassembled, no_references, statement_size,
};
use std::alloc::{AllocError, Global};

/// What a line shows: a byte, or a word and those that belong to its instruction.
#[derive(Clone, Copy)]
pub enum Shown {
    /// A byte of data.
    Byte(u8),
    /// A word: an instruction or data.
    Word(u16),
    /// An instruction of two words.
    TwoWords(u16, u16),
    /// An instruction of three words.
    ThreeWords(u16, u16, u16),
}

/// A line of source.
#[derive(Clone, Copy)]
pub struct Line {
    /// Where its first byte lies.
    pub address: u16,
    /// What it shows.
    pub shown: Shown,
}

// Adds the bytes of these cells up to the first cell without one, but at most `most`.
fn add_leading(found: &mut ArrayVec<u8, 6>, most: usize, cells: &[Option<u8>])
    requires { array_vec_len found.old + most ≤ 6 }
    ensures items { found.new.items ≡ found.old.items ++ spec.leading most cells.now }
{
    match cells {
        [Some(byte), others @ ..] if most > 0 => {
            found.push(*byte);
            add_leading(found, most - 1, others);
        }
        _ => {}
    }
}

// The bytes of these cells up to the first cell without one, but at most six.
fn leading(cells: &[Option<u8>]) -> ArrayVec<u8, 6>
    ensures { result.items ≡ spec.leading 6 cells.now }
{
    let mut found = ArrayVec::new();
    add_leading(&mut found, 6, cells);
    found
}

// Adds the words that bytes are.
fn add_words(found: &mut ArrayVec<u16, 3>, bytes: &[u8])
    requires { 2 * array_vec_len found.old + length bytes.now ≤ 6 }
    ensures { found.new.items ≡ found.old.items ++ spec.words_in bytes.now }
{
    match bytes {
        [low, high, others @ ..] => {
            found.push(u16::from_le_bytes([*low, *high]));
            add_words(found, others);
        }
        _ => {}
    }
}

// The words that at most six bytes are.
fn words_in(bytes: &[u8]) -> ArrayVec<u16, 3>
    requires { length bytes.now ≤ 6 }
    ensures { result.items ≡ spec.words_in bytes.now }
{
    let mut found = ArrayVec::new();
    add_words(&mut found, bytes);
    found
}

// A word and the words after it, of which there are at most two.
fn shown_words(word: u16, more: &[u16]) -> Shown
    ensures { result ≡ spec.shown_words word more.now }
{
    match more {
        [] => Shown::Word(word),
        [second] => Shown::TwoWords(word, *second),
        [second, third, ..] => Shown::ThreeWords(word, *second, *third),
    }
}

// The first of some bytes, or 0 if there are none.
fn first_of(bytes: &[u8]) -> u8
    ensures { result ≡ slice_index bytes.now 0 }
{
    match bytes {
        [byte, ..] => *byte,
        [] => 0,
    }
}

// What the line at this address shows, where these bytes, at most six, begin.
fn shown_at(address: u16, bytes: &[u8]) -> Shown
    requires { length bytes.now ≤ 6 }
    ensures { result ≡ spec.shown_at address bytes.now }
{
    let words = words_in(bytes);
    match words.as_slice() {
        [word, more @ ..] if address % 2 == 0 => {
            shown_words(*word, &more[..statement_size(*word, more) - 1])
        }
        _ => Shown::Byte(first_of(bytes)),
    }
}

// The line at this address, where these cells of memory begin.
fn line_at(address: u16, cells: &[Option<u8>]) -> Line
    ensures { result ≡ spec.line_at address (spec.leading 6 cells.now) }
{
    let bytes = leading(cells);
    Line {
        address,
        shown: shown_at(address, &bytes),
    }
}

impl Shown {
    /// How many bytes a line shows: 1 to 6.
    pub fn size(self) -> usize
        ensures size { result ≡ spec.size_shown self }
        ensures some { 0 < result }
        ensures few { result ≤ 6 }
    {
        match self {
            Shown::Byte(_) => 1,
            Shown::Word(_) => 2,
            Shown::TwoWords(..) => 4,
            Shown::ThreeWords(..) => 6,
        }
    }
}

/// The line of source, without a line feed. Addresses in it have the names of these symbols.
pub(crate) fn source_of(symbols: &Symbols, line: Line) -> Source
    ensures { result.items ≡ statement_text symbols.now no_references (spec.statement_in line) }
{
    match line.shown {
        Shown::Byte(byte) => byte_source(byte),
        Shown::Word(word) => disassembled(
            symbols,
            &no_references(),
            line.address,
            word,
            &[],
        ).source,
        Shown::TwoWords(word, second) => {
            disassembled(symbols, &no_references(), line.address, word, &[second]).source
        }
        Shown::ThreeWords(word, second, third) => {
            disassembled(
                symbols,
                &no_references(),
                line.address,
                word,
                &[second, third],
            )
            .source
        }
    }
}

/// The addresses in the operands of a line.
pub(crate) fn addresses_in(line: Line) -> Addresses
    ensures { result.items ≡ addresses_of (spec.statement_in line) }
{
    match line.shown {
        Shown::Byte(_) => Addresses::new(),
        Shown::Word(word) => addresses(line.address, word, &[]),
        Shown::TwoWords(word, second) => addresses(line.address, word, &[second]),
        Shown::ThreeWords(word, second, third) => addresses(line.address, word, &[second, third]),
    }
}

/// The lines that show what memory holds, in the order of their addresses. Fails if memory is refused.
#[tactic(auto, using(crate::proofs::LinesShown::gap_passed, crate::proofs::LinesShown::line_passed))]
pub(crate) fn lines_of(alloc: Global, memory: &[Option<u8>]) -> Result<Vec<Line>, AllocError>
    requires { length memory.now ≤ 65536 }
    ensures { IfOk result (λ lines. lines.items ≡ spec.lines_of memory.now) }
{
    let mut lines = Vec::new(alloc);
    let mut index = 0;
    'cells: while index < memory.len() {
        match memory[index] {
            None => index += 1,
            Some(_) => {
                let line = line_at(index as u16, &memory[index..]);
                lines.push(line)?;
                index += line.shown.size();
            }
        }
    }
    Ok(lines)
}
