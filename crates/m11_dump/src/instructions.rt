//! The bytes of an object's text or of a tape's block as instructions, one to a line.

ghost use Rattle.std.specs.Prelude.{◌≡◌, ◌+◌, ◌*◌, ◌≤◌, ◌<◌, ◌++◌, drop, length, take, IfOk, OnOk};
ghost use Rattle.arrayvec.specs.ArrayVec.{array_vec_len};
ghost use Rattle.m11_base_disassembly.specs.Texts.{statement_text};
ghost use Rattle.m11_dump.specs.Instructions as spec;

use crate::octets::{location_after, octal3};
use crate::words::word_of;
use arrayvec::ArrayVec;
use m11_base::octal6;
use m11_base_disassembly::{
    References, Source, Symbols, address_name, byte_source, disassembled, is_data, no_references,
    word_source,
};
use m11_obj_print::{Line, add_bytes};
use std::alloc::AllocError;

/// The lines of a text or of a block.
#[derive(Drop)]
pub(crate) struct Lines {
    /// The bytes of the lines, with their line feeds.
    pub(crate) text: Vec<u8>,
    /// How many bytes of the next text or block the lines show.
    pub(crate) over: usize,
}

// The statement at the beginning of some bytes.
#[derive(Drop)]
struct Front {
    // Its line of source, without a line feed.
    source: Source,
    // Its size in bytes, 1 to 6.
    size: usize,
}

// The first two words of these bytes, or as many as there are.
fn following(bytes: &[u8]) -> ArrayVec<u16, 2>
    ensures words { result.items ≡ spec.following bytes.now }
    ensures few { length result.items ≤ 2 }
    ensures there { 2 * length result.items ≤ length bytes.now }
{
    let mut words = ArrayVec::new();
    match bytes {
        [a, b, c, d, ..] => {
            words.push(word_of(*a, *b));
            words.push(word_of(*c, *d));
        }
        [a, b, ..] => words.push(word_of(*a, *b)),
        _ => {}
    }
    words
}

// The statement at this location, where these bytes begin, with the names that these symbols give to addresses in operands, and these references
// of its words: a word of data if its own reference stands for it; a data byte if the location is odd or only one byte is left; without bytes, a
// data byte of 0.
fn front_of(symbols: &Symbols, references: &References, location: u16, bytes: &[u8]) -> Front
    requires { 0 < length bytes.now }
    ensures source { result.source.items ≡ statement_text symbols.now references.now (spec.front_statement references.now location bytes.now) }
    ensures size { result.size ≡ spec.front_size references.now location bytes.now }
    ensures some { 0 < result.size }
    ensures few { result.size ≤ 6 }
    ensures there { result.size ≤ length bytes.now }
{
    match bytes {
        [low, high, ..] if location % 2 == 0 && is_data(&references.own) => Front {
            source: word_source(references, word_of(*low, *high)),
            size: 2,
        },
        [low, high, others @ ..] if location % 2 == 0 => {
            let found = disassembled(
                symbols,
                references,
                location,
                word_of(*low, *high),
                &following(others),
            );
            Front {
                source: found.source,
                size: 2 * found.words,
            }
        }
        [byte, ..] => Front {
            source: byte_source(*byte),
            size: 1,
        },
        [] => Front {
            source: byte_source(0),
            size: 1,
        },
    }
}

// Adds bytes as words, and a single last byte as a byte, each in octal after a blank.
fn add_cells(line: &mut Line, bytes: &[u8])
    requires { array_vec_len line.old + 7 * length bytes.now ≤ 100 }
    ensures text { line.new.items ≡ line.old.items ++ spec.cells bytes.now }
    ensures room { array_vec_len line.new ≤ array_vec_len line.old + 7 * length bytes.now }
{
    match bytes {
        [low, high, others @ ..] => {
            add_bytes(line, b" ");
            add_bytes(line, &octal6(word_of(*low, *high)));
            add_cells(line, others);
        }
        [byte] => {
            add_bytes(line, b" ");
            add_bytes(line, &octal3(*byte));
        }
        [] => {}
    }
}

// The blanks between the `count` bytes of a line and its source, which begins in column 31.
fn gap(count: usize) -> &'static [u8]
    ensures text { result.now ≡ spec.gap count }
    ensures room { length result.now ≤ 18 }
{
    match count {
        1 => b"                  ",
        2 => b"               ",
        4 => b"        ",
        _ => b" ",
    }
}

// A line: a location, the bytes there, a line of source and a comment.
fn line_by(location: u16, shown: &[u8], source: &[u8], comment: &[u8]) -> Line
    requires shown { length shown.now ≤ 6 }
    requires source { length source.now ≤ 48 }
    requires comment { length comment.now ≤ 15 }
    ensures { result.items ≡ spec.line_by location shown.now (source.now ++ comment.now) }
{
    let mut line = Line::new();
    add_bytes(&mut line, b"  ");
    add_bytes(&mut line, &octal6(location));
    add_cells(&mut line, shown);
    add_bytes(&mut line, gap(shown.len()));
    add_bytes(&mut line, source);
    add_bytes(&mut line, comment);
    add_bytes(&mut line, b"\n");
    line
}

/// Adds the line of the statement at this location, where `bytes` begin, with the names that `symbols` give to addresses in operands, these
/// references of its words, and a comment that names the location by the nearest of `symbols` at or below it, if there is one. Returns how many bytes the line shows. Fails if memory is refused.
pub(crate) fn put_line(
    text: &mut Vec<u8>,
    symbols: &Symbols,
    references: &References,
    location: u16,
    bytes: &[u8],
) -> Result<usize, AllocError>
    requires { 0 < length bytes.now }
    ensures text { OnOk result (text.new.items ≡ text.old.items ++ spec.line_text symbols.now references.now location bytes.now) }
    ensures size { IfOk result (λ size. size ≡ spec.front_size references.now location bytes.now) }
    ensures some { IfOk result (λ size. 0 < size) }
    ensures there { IfOk result (λ size. size ≤ length bytes.now) }
{
    let front = front_of(symbols, references, location, bytes);
    let name = address_name(b"\t;", symbols, location);
    let line = line_by(location, &bytes[..front.size], &front.source, &name);
    text.extend_from_slice(&line)?;
    Ok(front.size)
}

/// Adds a line with a keyword and an address. Fails if memory is refused.
pub(crate) fn put_head(text: &mut Vec<u8>, word: &[u8], address: u16) -> Result<(), AllocError>
    ensures { OnOk result (text.new.items ≡ text.old.items ++ spec.head_line word.now address) }
{
    text.extend_from_slice(word)?;
    text.extend_from_slice(&octal6(address))?;
    text.push(b'\n')?;
    Ok(())
}

/// Adds the lines of a text or block at this address. `symbols` name addresses in operands, and each line ends with a comment that names its
/// location by the nearest of them at or below it, if there is one. The first `own` of `bytes`, at most 65,536, are those of the text or block, and the
/// first `shown` of them were shown before; the others belong to the next text or block. Returns how many of the others the last
/// line shows. Fails if memory is refused.
pub(crate) fn put_lines(
    text: &mut Vec<u8>,
    symbols: &Symbols,
    address: u16,
    bytes: &[u8],
    own: usize,
    shown: usize,
) -> Result<usize, AllocError>
    requires there { own ≤ length bytes.now }
    requires few { own ≤ 65536 }
    ensures text { OnOk result (text.new.items
        ≡ text.old.items ++ spec.lines_from symbols.now spec.unreferred address 0 shown (take own bytes.now) (drop own bytes.now)) }
    ensures over { IfOk result (λ over. over ≡ spec.over_from spec.unreferred address 0 shown (take own bytes.now) (drop own bytes.now)) }
{
    let mut index = shown;
    'lines: while index < own {
        index += put_line(
            text,
            symbols,
            &no_references(),
            location_after(address, index),
            &bytes[index..],
        )?;
    }
    Ok(index - own)
}
