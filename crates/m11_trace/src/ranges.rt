//! Ranges of memory that are shown at the end of a run.

ghost use Rattle.std.specs.Prelude.{◌≡◌, ◌≤◌, ◌%◌};
ghost use Rattle.m11_cpu.specs.Messages.{PutsMessages};
ghost use Rattle.m11_trace.specs.Ranges as spec;

use crate::line::{Line, add_word, put_text};
use crate::shots::word_past;
use m11_base::Sink;
use m11_cpu::{Memory, SimFault};

/// A range of memory, between two even addresses, both included. It is empty if `last` is below `first`.
#[derive(Clone, Copy, PartialEq, Eq)]
pub struct Range {
    /// The address of the first word.
    pub first: u16,
    /// The address of the last word.
    pub last: u16,
}

// The text of the word with this index in a range. The first word and every eighth one after it begin a line with their address.
fn word_cell(first: u16, index: u16, word: u16) -> Line
    ensures { result.items ≡ spec.word_cell first index word }
{
    let mut cell = Line::new();
    if index % 8 == 0 {
        add_word(
            &mut cell,
            b"\n  ",
            first.wrapping_add(index.wrapping_mul(2)),
        );
    }
    add_word(&mut cell, b" ", word);
    cell
}

// Writes `count` words, beginning at the even address `first`, or fewer if the memory ends before the last one.
fn put_words<M: Sink>(
    messages: &mut M,
    memory: &Memory,
    first: u16,
    count: u16,
) -> Result<(), SimFault>
    requires even { first % 2 ≡ 0 }
    requires few { count ≤ 32768 }
    ensures { PutsMessages (M.text messages.old) (M.text messages.new) (M.faults messages.old) (M.faults messages.new)
        (spec.words_from memory.now first 0 count) result }
{
    let mut index = 0;
    'words: while index < count {
        match word_past(memory, first, 2 * index) {
            None => return Ok(()),
            Some(word) => {
                put_text(messages, word_cell(first, index, word).as_slice())?;
                index += 1;
            }
        }
    }
    Ok(())
}

// The number of words in a range; 0 if its last address is below its first.
fn count_of(range: &Range) -> u16
    ensures count { result ≡ spec.count_of range.now }
    ensures few { result ≤ 32768 }
{
    ((u32::from(range.last) + 2).saturating_sub(u32::from(range.first)) / 2) as u16
}

// Writes the words of a range and ends its last line.
fn put_part<M: Sink>(messages: &mut M, memory: &Memory, range: &Range) -> Result<(), SimFault>
    ensures { PutsMessages (M.text messages.old) (M.text messages.new) (M.faults messages.old) (M.faults messages.new)
        (spec.words_text memory.now range.now) result }
{
    let first = range.first - range.first % 2;
    put_words(messages, memory, first, count_of(range))?;
    put_text(messages, b"\n")
}

// The heading of a range, MEMORY and its two addresses, without the end of the line.
fn head(range: &Range) -> Line
    ensures { result.items ≡ spec.head_text range.now }
{
    let mut line = Line::new();
    add_word(&mut line, b"MEMORY ", range.first);
    add_word(&mut line, b":", range.last);
    line
}

// Writes the heading and the words of a range of memory.
fn put_range<M: Sink>(messages: &mut M, memory: &Memory, range: &Range) -> Result<(), SimFault>
    ensures { PutsMessages (M.text messages.old) (M.text messages.new) (M.faults messages.old) (M.faults messages.new)
        (spec.range_text memory.now range.now) result }
{
    put_text(messages, head(range).as_slice())?;
    put_part(messages, memory, range)
}

/// Writes ranges of memory, one after another. Error: `Write`, if the sink failed after part of them.
pub(crate) fn put_ranges<M: Sink>(
    messages: &mut M,
    memory: &Memory,
    ranges: &[Range],
) -> Result<(), SimFault>
    ensures { PutsMessages (M.text messages.old) (M.text messages.new) (M.faults messages.old) (M.faults messages.new)
        (spec.ranges_text memory.now ranges.now) result }
{
    match ranges {
        [] => Ok(()),
        [range, others @ ..] => {
            put_range(messages, memory, range)?;
            put_ranges(messages, memory, others)
        }
    }
}
