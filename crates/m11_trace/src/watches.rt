//! The watched words of a traced run, and the steps that change them.

ghost use Rattle.std.specs.Prelude.{◌≡◌, length, map};
ghost use Rattle.m11_trace.specs.Stops.{watched_word};
ghost use Rattle.m11_trace.specs.Watches as spec;

use crate::changes::word_or_none;
use crate::stops::CountedAddress;
use m11_cpu::Memory;

/// A watched word between two steps.
#[derive(Clone, Copy, Default)]
pub(crate) struct Watch {
    /// The address of one of its bytes.
    pub address: u16,
    /// How many steps must still change it for the run to stop: after the step that stops the run at 1, never at 0.
    pub count: u32,
    /// The word after the latest step.
    pub word: u16,
}

// The word that contains the byte at an address; 0 if it lies past the end of memory.
fn watched_word(memory: &Memory, address: u16) -> u16
    ensures { result ≡ watched_word address memory.now }
{
    word_or_none(memory, address - address % 2)
}

// A watched word before the first step.
fn watch_of(watched: CountedAddress, memory: &Memory) -> Watch
    ensures { result ≡ spec.watch_of memory.now watched }
{
    Watch {
        address: watched.address,
        count: watched.count,
        word: watched_word(memory, watched.address),
    }
}

/// Looks at each watched word before the first step.
pub(crate) fn look(watches: &mut [Watch], watched: &[CountedAddress], memory: &Memory)
    requires { length watches.old ≡ length watched.now }
    ensures { watches.new ≡ map (spec.watch_of memory.now) watched.now }
{
    'words: for index in 0..watched.len() {
        watches[index] = watch_of(watched[index], memory);
    }
}

// Whether the run stops because the latest step changed this word: it isn't what it was before, and its count is down to 1.
fn is_last_change(watch: &Watch, memory: &Memory) -> bool
    ensures { result ≡ spec.is_last_change memory.now watch.now }
{
    watch.word != watched_word(memory, watch.address) && watch.count == 1
}

/// The address of the first of the watched words that stop the run because the latest step changed them; None if none of them does.
pub(crate) fn stopping_address(watches: &[Watch], memory: &Memory) -> Option<u16>
    ensures { result ≡ spec.stopping_address memory.now watches.now }
{
    match watches {
        [] => None,
        [watch, others @ ..] => {
            if is_last_change(watch, memory) {
                Some(watch.address)
            } else {
                stopping_address(others, memory)
            }
        }
    }
}

// A watched word after the latest step: if the step changed the word, the count is one lower, but not below 0.
fn watch_after(watch: Watch, memory: &Memory) -> Watch
    ensures { result ≡ spec.watch_after memory.now watch }
{
    let word = watched_word(memory, watch.address);
    if word == watch.word {
        return watch;
    }
    Watch {
        address: watch.address,
        count: watch.count.saturating_sub(1),
        word,
    }
}

/// Looks at each watched word after a step, and lowers the count of each that the step changed.
pub(crate) fn count_changes(watches: &mut [Watch], memory: &Memory)
    ensures { watches.new ≡ map (spec.watch_after memory.now) watches.old }
{
    'words: for index in 0..watches.len() {
        watches[index] = watch_after(watches[index], memory);
    }
}
