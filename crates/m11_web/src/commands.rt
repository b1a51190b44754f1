//! A whole command over files in memory.

ghost use Rattle.std.specs.Prelude.{◌≡◌, ◌<◌, IfOk, map, string_bytes};
ghost use Rattle.m11_web.specs.Answers.{Answers, CarriedOut, HandsOver, ObeysDump, ObeysM11, ObeysTrace, obeys};

use crate::answers::{answer_of, hand_over};
use crate::programs::{Program, carry_out};
use crate::refusal::Refusal;
use crate::requests::request_of;
use m11_base::{Feed, MemoryFeed, MemorySink};
use m11_base_files::{MemoryFile, MemoryFiles};
use std::alloc::Global;

/// Carries out a command of `m11`. `request` has its words, its files and what its console reads. `answer` gets its exit status, what it
/// printed, its messages and the files that it made, if it has room for them. Returns the length of the answer; if that is more than
/// `answer` has, nothing was written.
///
/// Returns 0, and writes nothing, if the request is malformed, or memory was refused for reading it or for the answer. Memory that was
/// refused to the command itself is its status 5.
#[unsafe(no_mangle)]
pub extern "C" fn m11_command(alloc: Global, request: &[u8], answer: &mut [u8]) -> usize
    ensures answers { 0 < result → HandsOver (Answers ObeysM11 request.now) answer.old answer.new result }
    ensures refuses { result ≡ 0 → answer.new ≡ answer.old }
{
    answer_by(alloc, Program::M11, request, answer)
}

/// Carries out a command line of `m11-dump`, as `m11_command` does one of `m11`. It reads no input and makes no files.
#[unsafe(no_mangle)]
pub extern "C" fn m11_dump(alloc: Global, request: &[u8], answer: &mut [u8]) -> usize
    ensures answers { 0 < result → HandsOver (Answers (ObeysDump ⟦<MemoryFeed<'static> as Feed>⟧.text ⟦<MemoryFeed<'static> as Feed>⟧.faults)
        request.now) answer.old answer.new result }
    ensures refuses { result ≡ 0 → answer.new ≡ answer.old }
{
    answer_by(alloc, Program::Dump, request, answer)
}

/// Carries out a command line of `m11-trace`, as `m11_command` does one of `m11`.
#[unsafe(no_mangle)]
pub extern "C" fn m11_trace(alloc: Global, request: &[u8], answer: &mut [u8]) -> usize
    ensures answers { 0 < result → HandsOver (Answers (ObeysTrace ⟦<MemoryFeed<'static> as Feed>⟧.text ⟦<MemoryFeed<'static> as Feed>⟧.faults)
        request.now) answer.old answer.new result }
    ensures refuses { result ≡ 0 → answer.new ≡ answer.old }
{
    answer_by(alloc, Program::Trace, request, answer)
}

// Answers a request of this program, as the calls do.
fn answer_by(alloc: Global, program: Program, request: &[u8], answer: &mut [u8]) -> usize
    ensures answers { 0 < result → HandsOver (Answers (obeys ⟦<MemoryFeed<'static> as Feed>⟧.text ⟦<MemoryFeed<'static> as Feed>⟧.faults program)
        request.now) answer.old answer.new result }
    ensures refuses { result ≡ 0 → answer.new ≡ answer.old }
{
    match answered(alloc, program, request) {
        Ok(bytes) => hand_over(bytes.as_slice(), answer),
        Err(_) => 0,
    }
}

// The answer to a request. Errors: `Malformed`, `NoMemory`.
fn answered(alloc: Global, program: Program, request: &[u8]) -> Result<Vec<u8>, Refusal>
    ensures { IfOk result (λ answer. Answers (obeys ⟦<MemoryFeed<'static> as Feed>⟧.text ⟦<MemoryFeed<'static> as Feed>⟧.faults program)
        request.now answer.items) }
{
    let request = request_of(alloc, request)?;
    let answer = carried_out(
        alloc,
        program,
        request.words.as_slice(),
        request.files.as_slice(),
        request.typed,
    )?;
    Ok(answer)
}

// The answer to a command line with these files and this input. Error: `NoMemory`.
fn carried_out<'a>(
    alloc: Global,
    program: Program,
    words: &'a [String],
    files: &'a [MemoryFile],
    typed: &'a [u8],
) -> Result<Vec<u8>, Refusal>
    ensures { IfOk result (λ answer. CarriedOut (obeys ⟦<MemoryFeed<'static> as Feed>⟧.text ⟦<MemoryFeed<'static> as Feed>⟧.faults program)
        (map string_bytes words.now) files.now typed.now answer.items) }
{
    let mut files = MemoryFiles::new(alloc, files);
    let mut input = MemoryFeed::new(typed);
    let mut out = MemorySink::new(alloc);
    let mut err = MemorySink::new(alloc);
    let status = carry_out(
        alloc, program, &mut files, &mut input, &mut out, &mut err, words,
    );
    let made = files.into_made();
    let answer = answer_of(alloc, status, out.bytes(), err.bytes(), made.as_slice())?;
    Ok(answer)
}
