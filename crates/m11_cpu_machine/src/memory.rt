//! The memory: words in one vector, which contracts see as bytes.

ghost use Rattle.std.specs.Prelude.{◌≡◌, ◌<◌, ◌≤◌, ◌+◌, ◌*◌, ◌/◌, ◌%◌, ◌==◌, ◌&&◌, IfOk, IfSome, nat_lt, not, None, true, length, replicate};
ghost use Rattle.m11_cpu_machine.specs.Memory.{most_words, byte_at, word_at, with_byte, with_word};

use std::alloc::{AllocError, Global};
use std::marker::Model;

/// The memory of a machine, which begins at address 0. Each word has its low byte at an even address and its high byte at the next one. The
/// number of words never changes.
#[derive(Drop)]
pub struct Memory {
    words: Vec<u16>,
}

impl Model for Memory {
    ghost use Rattle.std.specs.Prelude.{◌≤◌, length};
    ghost use Rattle.m11_base.specs.Devices.{Bytes};
    ghost use Rattle.m11_cpu_machine.specs.Memory.{bytes_of, most_words};

    ghost Value = { Bytes };

    ghost view = { λ m. bytes_of m.words.items };

    ghost invariant = { λ m. length m.words.items ≤ most_words };
}

impl Memory {
    /// A memory of this many words, at most 28,672, all 0. Octal 160000 and the addresses above it are those of devices.
    ///
    /// Error: memory was refused.
    #[tactic(auto, using(crate::proofs::WordsAsBytes::bytes_of_none))]
    pub(crate) fn new(alloc: Global, words: u16) -> Result<Memory, AllocError>
        requires { words ≤ most_words }
        ensures { IfOk result (λ m. m ≡ replicate (2 * words) 0) }
    {
        Ok(Memory {
            words: vec![in alloc; 0; usize::from(words)]?,
        })
    }

    /// Whether the memory has a byte at this address.
    #[tactic(auto, using(crate::proofs::WordsAsBytes::length_of_bytes))]
    #[inline(always)]
    pub fn holds(&self, address: u16) -> bool
        ensures { result ≡ nat_lt address (length self.now) }
    {
        usize::from(address / 2) < self.words.len()
    }

    /// Whether this address is even and the memory has a word there.
    #[tactic(auto, using(crate::proofs::WordsAsBytes::word_inside))]
    #[inline(always)]
    pub fn holds_word(&self, address: u16) -> bool
        ensures { result ≡ (not (address % 2 == 1) && nat_lt address (length self.now)) }
    {
        usize::from(turned(address)) < self.words.len()
    }

    /// The word at an address; None if the address is odd or past the end of memory.
    #[tactic(auto, using(crate::proofs::WordsAsBytes::word_inside, crate::proofs::WordsAsBytes::whole_word))]
    #[inline(always)]
    pub fn word_at(&self, address: u16) -> Option<u16>
        ensures held { IfSome result (λ _. (not (address % 2 == 1) && nat_lt address (length self.now)) ≡ true) }
        ensures word { IfSome result (λ word. word ≡ word_at self.now address) }
    {
        let index = usize::from(turned(address));
        if index < self.words.len() {
            Some(self.words[index])
        } else {
            None
        }
    }

    /// The address `distance` bytes after another one; None if the memory has no byte there.
    #[tactic(auto, using(crate::proofs::WordsAsBytes::length_of_bytes))]
    pub fn address_past(&self, address: u16, distance: u16) -> Option<u16>
        ensures some { IfSome result (λ past. (past ≡ address + distance) × (past < length self.now)) }
        ensures none { result ≡ None → length self.now ≤ address + distance }
    {
        let past = usize::from(address) + usize::from(distance);
        if past / 2 < self.words.len() {
            Some(past as u16)
        } else {
            None
        }
    }

    /// The word at an even address inside the memory.
    #[tactic(auto, using(crate::proofs::WordsAsBytes::length_of_bytes, crate::proofs::WordsAsBytes::whole_word))]
    #[inline(always)]
    pub fn word(&self, address: u16) -> u16
        requires even { address % 2 ≡ 0 }
        requires inside { address < length self.now }
        ensures { result ≡ word_at self.now address }
    {
        self.words[usize::from(address / 2)]
    }

    /// The byte at an address inside the memory.
    #[tactic(auto, using(crate::proofs::WordsAsBytes::length_of_bytes, crate::proofs::WordsAsBytes::even_byte, crate::proofs::WordsAsBytes::odd_byte))]
    #[inline(always)]
    pub fn byte(&self, address: u16) -> u8
        requires { address < length self.now }
        ensures { result ≡ byte_at self.now address }
    {
        let word = self.words[usize::from(address / 2)];
        if address % 2 == 0 {
            (word % 256) as u8
        } else {
            (word / 256) as u8
        }
    }

    /// Stores a word at an even address inside the memory.
    #[tactic(auto, using(crate::proofs::WordsAsBytes::length_of_bytes, crate::proofs::WordsAsBytes::size_stays, crate::proofs::WordsAsBytes::put_word))]
    #[inline(always)]
    pub fn set_word(&mut self, address: u16, value: u16)
        requires even { address % 2 ≡ 0 }
        requires inside { address < length self.old }
        ensures word { self.new ≡ with_word address value self.old }
        ensures limit { length self.old ≤ 2 * most_words }
        ensures size { length self.new ≡ length self.old }
    {
        self.words[usize::from(address / 2)] = value;
    }

    /// Stores a byte at an address inside the memory.
    #[tactic(auto, using(crate::proofs::WordsAsBytes::length_of_bytes, crate::proofs::WordsAsBytes::size_stays, crate::proofs::WordsAsBytes::put_low, crate::proofs::WordsAsBytes::put_high))]
    #[inline(always)]
    pub fn set_byte(&mut self, address: u16, value: u8)
        requires { address < length self.old }
        ensures byte { self.new ≡ with_byte address value self.old }
        ensures limit { length self.old ≤ 2 * most_words }
        ensures size { length self.new ≡ length self.old }
    {
        let index = usize::from(address / 2);
        let word = self.words[index];
        if address % 2 == 0 {
            self.words[index] = word / 256 * 256 + u16::from(value);
        } else {
            self.words[index] = u16::from(value) * 256 + word % 256;
        }
    }
}

// An address rotated right by one bit: the index of its word if it is even, and past the end of any memory if it is odd.
// speed: this way one test shows that a word is there; the plain form would also test that the address is even.
#[inline(always)]
fn turned(address: u16) -> u16
    ensures { result ≡ address / 2 + address % 2 * 0o100000 }
{
    address / 2 + address % 2 * 0o100000
}
