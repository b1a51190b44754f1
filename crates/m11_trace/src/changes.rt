//! The memory words that a step changed.

ghost use Rattle.std.specs.Prelude.{◌≡◌, ◌≢◌, ◌<◌, ◌≤◌, ◌+◌, ◌*◌, ◌%◌, true, OnOk, length, slice_index};
ghost use Rattle.m11_cpu.specs.Messages.{PutsMessages};
ghost use Rattle.m11_cpu_machine.specs.Memory.{bytes_of, most_words, word_at};
ghost use Rattle.m11_trace.specs.Changes.{AreAlike, HaveSameWords, memory_changes, word_text};

use crate::line::{Line, add_word, put_text};
use m11_base::Sink;
use m11_cpu::{Memory, SimFault};

/// The size of the largest memory, in words.
pub(crate) const MOST_WORDS: usize = 28672;

/// The word at an even address, or 0 past the end of the memory.
#[tactic(auto, using(crate::proofs::Copies::no_word))]
pub(crate) fn word_or_none(memory: &Memory, address: u16) -> u16
    requires { address % 2 ≡ 0 }
    ensures { result ≡ word_at memory.now address }
{
    if memory.holds(address) {
        memory.word(address)
    } else {
        0
    }
}

/// Copies a memory into `words`: the index of each word is half its address. Past the end of the memory the words are 0.
pub(crate) fn copy_words(words: &mut [u16], memory: &Memory)
    requires { length words.old ≡ most_words }
    ensures size { length words.new ≡ most_words }
    ensures same { HaveSameWords (bytes_of words.new) memory.now }
{
    'words: for index in 0..MOST_WORDS {
        words[index] = word_or_none(memory, 2 * index as u16);
    }
}

// A word with its address, as a field of a trace line.
fn word_text(address: u16, word: u16) -> Line
    ensures { result.items ≡ word_text address word }
{
    let mut text = Line::new();
    add_word(&mut text, b"\t@#", address);
    add_word(&mut text, b" ", word);
    text
}

// Whether the eight words that begin at this index equal those of the memory. Also false if the memory doesn't have all eight.
// speed: with words compared one at a time, a line takes six times as long.
#[inline(always)]
fn are_alike(words: &[u16], memory: &Memory, index: usize) -> bool
    requires size { length words.now ≡ most_words }
    requires inside { index + 8 ≤ most_words }
    ensures { result ≡ true → AreAlike words.now memory.now index (index + 8) }
{
    let address = 2 * index as u16;
    if !memory.holds(address + 14) {
        return false;
    }
    let first = (words[index] ^ memory.word(address))
        | (words[index + 1] ^ memory.word(address + 2));
    let second = (words[index + 2] ^ memory.word(address + 4))
        | (words[index + 3] ^ memory.word(address + 6));
    let third = (words[index + 4] ^ memory.word(address + 8))
        | (words[index + 5] ^ memory.word(address + 10));
    let fourth = (words[index + 6] ^ memory.word(address + 12))
        | (words[index + 7] ^ memory.word(address + 14));
    first | second | (third | fourth) == 0
}

// The index of the first word at or after index `from` that differs from that of the memory; `MOST_WORDS` if there is none.
fn changed_from(words: &[u16], memory: &Memory, from: usize) -> usize
    requires size { length words.now ≡ most_words }
    requires inside { from ≤ most_words }
    ensures after { from ≤ result }
    ensures within { result ≤ most_words }
    ensures alike { AreAlike words.now memory.now from result }
    ensures changed { result < most_words → slice_index words.now result ≢ word_at memory.now (2 * result) }
{
    let mut index = from;
    'groups: while index + 8 <= MOST_WORDS && are_alike(words, memory, index) {
        index += 8;
    }
    'words: while index < MOST_WORDS && words[index] == word_or_none(memory, 2 * index as u16) {
        index += 1;
    }
    index
}

/// Writes the memory words that differ from their copy in `before`, in order of address, and updates the copy. Error: `Write`, if the
/// sink failed after part of them.
pub(crate) fn put_changes<M: Sink>(
    messages: &mut M,
    before: &mut [u16],
    memory: &Memory,
) -> Result<(), SimFault>
    requires { length before.old ≡ most_words }
    ensures puts { PutsMessages (M.text messages.old) (M.text messages.new) (M.faults messages.old) (M.faults messages.new)
        (memory_changes (bytes_of before.old) memory.now) result }
    ensures size { length before.new ≡ most_words }
    ensures same { OnOk result (HaveSameWords (bytes_of before.new) memory.now) }
{
    let mut index = changed_from(before, memory, 0);
    'changes: while index < MOST_WORDS {
        let address = 2 * index as u16;
        let word = word_or_none(memory, address);
        put_text(messages, word_text(address, word).as_slice())?;
        before[index] = word;
        index = changed_from(before, memory, index + 1);
    }
    Ok(())
}
