//! The arguments of the process.

ghost use Rattle.std.specs.Prelude.{◌≡◌, IfOk, string_bytes};
ghost use Rattle.m11_cli_tasks.specs.Arguments.{refusal_line};

use std::alloc::{AllocError, AllocFailed, Global};
use std::env::{Env, FillError};

/// Why the arguments couldn't be read.
#[derive(Drop, Clone, Copy, PartialEq, Eq)]
pub enum WordsFault {
    /// Memory was refused.
    NoMemory,
    /// The word with this number isn't UTF-8. The program's name has number 0.
    NotText(usize),
}

impl From<AllocError> for WordsFault {
    fn from(_error: AllocError) -> WordsFault {
        WordsFault::NoMemory
    }
}

impl<T: Drop> From<AllocFailed<T>> for WordsFault {
    fn from(_error: AllocFailed<T>) -> WordsFault {
        WordsFault::NoMemory
    }
}

/// The program's name and its arguments, in order. Errors: `NoMemory` if memory is refused; `NotText` with the number of the first word
/// that isn't UTF-8.
pub fn words<R: Env + AllocGlobal>(rt: &R) -> Result<Vec<String>, WordsFault> {
    let mut words = Vec::new(rt.alloc());
    for number in 0..usize::MAX {
        match word(rt, number)? {
            Some(word) => words.push(word)?,
            None => break,
        }
    }
    Ok(words)
}

// The word with this number, or `None` after the last one. The buffer doubles until the word fits. Errors: `NotText`; `NoMemory`, also for
// a word that fits no buffer.
fn word<R: Env + AllocGlobal>(rt: &R, number: usize) -> Result<Option<String>, WordsFault> {
    let mut size = SHORT;
    for _ in 0..usize::BITS {
        let mut buffer = vec![in rt.alloc(); 0u8; size]?;
        match rt.arg(number, buffer.as_mut_slice()) {
            Ok(length) => {
                buffer.truncate(length);
                return match String::from_utf8(buffer) {
                    Ok(word) => Ok(Some(word)),
                    Err(_) => Err(WordsFault::NotText(number)),
                };
            }
            Err(FillError::NotPresent) => return Ok(None),
            Err(FillError::TooLong) => match size.checked_mul(2) {
                Some(twice) => size = twice,
                None => return Err(WordsFault::NoMemory),
            },
        }
    }
    Err(WordsFault::NoMemory)
}

// The size of the first buffer, in bytes; most words fit into it.
const SHORT: usize = 256;

/// The line that reports that the word with this number isn't UTF-8. Error: memory was refused.
#[tactic(auto, unfolding(crate::specs::Arguments::refusal_line))]
pub fn refusal_line(alloc: Global, number: usize) -> Result<String, AllocError>
    ensures { IfOk result (λ s. string_bytes s ≡ refusal_line number) }
{
    format!(in alloc; "error: word {number} is not valid UTF-8\n")
}
