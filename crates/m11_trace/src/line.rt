//! Buffers for lines.

ghost use Rattle.std.specs.Prelude.{◌≡◌, ◌≤◌, ◌+◌, ◌++◌, length};
ghost use Rattle.arrayvec.specs.ArrayVec.{array_vec_len};
ghost use Rattle.m11_base.specs.Octal.{octal_text};
ghost use Rattle.m11_cpu.specs.Messages.{PutsMessages};

use arrayvec::ArrayVec;
use m11_base::{Sink, octal6, put_all};
use m11_cpu::SimFault;

/// A part of a line. The part of a step's line before its memory words takes at most 180 bytes. Of these, 40 are reserved for its number:
/// the number has at most ten digits, but `itoa` promises only that a number takes at most 40 bytes.
pub(crate) type Line = ArrayVec<u8, 204>;

/// Adds bytes, for which the line must have room.
pub(crate) fn add(line: &mut Line, bytes: &[u8])
    requires { array_vec_len line.old + length bytes.now ≤ 204 }
    ensures items { line.new.items ≡ line.old.items ++ bytes.now }
    ensures size { array_vec_len line.new ≡ array_vec_len line.old + length bytes.now }
{
    line.try_extend_from_slice(bytes).unwrap();
}

/// Adds a label and a word in six octal digits.
pub(crate) fn add_word(line: &mut Line, label: &[u8], word: u16)
    requires { array_vec_len line.old + (length label.now + 6) ≤ 204 }
    ensures items { line.new.items ≡ line.old.items ++ (label.now ++ octal_text word) }
    ensures size { array_vec_len line.new ≡ array_vec_len line.old + (length label.now + 6) }
{
    add(line, label);
    add(line, &octal6(word));
}

/// Writes a text. Error: `Write`, if the sink failed after part of it.
pub(crate) fn put_text<M: Sink>(messages: &mut M, text: &[u8]) -> Result<(), SimFault>
    ensures { PutsMessages (M.text messages.old) (M.text messages.new) (M.faults messages.old) (M.faults messages.new)
        text.now result }
{
    match put_all(messages, text) {
        Ok(()) => Ok(()),
        Err(_) => Err(SimFault::Write),
    }
}
