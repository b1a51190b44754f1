//! The ends of trace lines, after their memory words.

ghost use Rattle.std.specs.Prelude.{◌≡◌, ◌≤◌, ◌∷◌, ◌++◌, [], Some, length};
ghost use Rattle.std.specs.Option.{option_map};
ghost use Rattle.m11_cpu.specs.Messages.{PutsMessages};
ghost use Rattle.m11_trace.specs.Known.{known_of};
ghost use Rattle.m11_trace.specs.Lines as spec;

use crate::known::Known;
use crate::line::{Line, add, add_word, put_text};
use crate::shots::Shot;
use m11_base::Sink;
use m11_base_disassembly::listed_text;
use m11_cpu::SimFault;

// The letter of the condition code with this weight in the processor status word, if that code is set; otherwise a hyphen.
fn code_letter(psw: u16, weight: u16, letter: u8) -> u8
    requires { 1 ≤ weight }
    ensures { result ≡ spec.code_letter psw weight letter }
{
    if psw / weight % 2 == 1 { letter } else { b'-' }
}

// The letters of N, Z, V and C, with a hyphen for each that is clear.
fn code_letters(psw: u16) -> [u8; 4]
    ensures { result ≡ spec.code_letters psw }
{
    [
        code_letter(psw, 0o10, b'N'),
        code_letter(psw, 4, b'Z'),
        code_letter(psw, 2, b'V'),
        code_letter(psw, 1, b'C'),
    ]
}

// The processor status word, with the letters of its condition codes, if the word changed; then these bytes, of which there are at most two.
fn status_and(before: u16, later: u16, bytes: &[u8]) -> Line
    requires { length bytes.now ≤ 2 }
    ensures { result.items ≡ spec.status_change before later ++ bytes.now }
{
    let mut line = Line::new();
    if before != later {
        add_word(&mut line, b"\tPSW ", later);
        add(&mut line, b" ");
        add(&mut line, &code_letters(later));
    }
    add(&mut line, bytes);
    line
}

// The text of the line that shows a step's instruction, if exactly one line of the listings does.
fn listed<'a>(known: Known<'a>, shot: &Shot) -> Option<&'a [u8]>
    ensures { option_map (λ text. text.now) result ≡ spec.listed_at (known_of known.entry) (spec.location_of shot.now) shot.now.fetched.first }
{
    match shot.fetched.first {
        Some(word) => listed_text(known.listings, shot.before.registers[7], word),
        None => None,
    }
}

// Writes a text and a line feed. Error: `Write`, if the sink failed after part of them.
fn put_ended<M: Sink>(messages: &mut M, text: &[u8]) -> Result<(), SimFault>
    ensures { PutsMessages (M.text messages.old) (M.text messages.new) (M.faults messages.old) (M.faults messages.new)
        (text.now ++ 10 ∷ []) result }
{
    put_text(messages, text)?;
    put_text(messages, b"\n")
}

// Writes the end of a trace line with a field for this text of a listing. Error: `Write`, if the sink failed after part of it.
fn put_listed<M: Sink>(
    messages: &mut M,
    before: u16,
    later: u16,
    text: &[u8],
) -> Result<(), SimFault>
    ensures { PutsMessages (M.text messages.old) (M.text messages.new) (M.faults messages.old) (M.faults messages.new)
        (spec.status_change before later ++ (spec.listed_field (Some text.now) ++ 10 ∷ [])) result }
{
    put_text(messages, status_and(before, later, b"\t;").as_slice())?;
    put_ended(messages, text)
}

/// Writes the part of a trace line after its memory words. Error: `Write`, if the sink failed after part of it.
pub(crate) fn put_end<M: Sink>(
    messages: &mut M,
    known: Known<'_>,
    shot: &Shot,
) -> Result<(), SimFault>
    ensures { PutsMessages (M.text messages.old) (M.text messages.new) (M.faults messages.old) (M.faults messages.new)
        (spec.line_end (known_of known.entry) shot.now) result }
{
    let before = shot.before.psw;
    let later = shot.later.psw;
    match listed(known, shot) {
        Some(text) => put_listed(messages, before, later, text),
        None => put_text(messages, status_and(before, later, b"\n").as_slice()),
    }
}
