//! The programs, and a command line of one of them.

ghost use Rattle.std.specs.Prelude.{map, string_bytes};
ghost use Rattle.m11_cli_reports.specs.Streams.{store, streams};
ghost use Rattle.m11_web.specs.Answers.{obeys};

use m11_base::{Feed, MemoryFeed, MemorySink, Sink};
use m11_base_files::{MemoryFiles, Opens};
use std::alloc::Global;

/// The programs whose command lines can be carried out.
#[derive(Clone, Copy)]
pub(crate) enum Program {
    /// `m11`.
    M11,
    /// `m11-dump`.
    Dump,
    /// `m11-trace`.
    Trace,
}

/// Carries out a command line of this program, and returns the exit status.
pub(crate) fn carry_out<'a>(
    alloc: Global,
    program: Program,
    files: &mut MemoryFiles<'a>,
    input: &mut MemoryFeed<'a>,
    out: &mut MemorySink,
    err: &mut MemorySink,
    words: &'a [String],
) -> u8
    ensures { obeys ⟦<MemoryFeed<'a> as Feed>⟧.text ⟦<MemoryFeed<'a> as Feed>⟧.faults program (map string_bytes words.entry.now) result
        (store (⟦<MemoryFiles<'a> as Opens>⟧.files files.old) (⟦<MemoryFiles<'a> as Opens>⟧.refusals files.old))
        (store (⟦<MemoryFiles<'a> as Opens>⟧.files files.new) (⟦<MemoryFiles<'a> as Opens>⟧.refusals files.new))
        (streams ⟦<MemoryFeed<'a> as Feed>⟧ ⟦<MemorySink as Sink>⟧ ⟦<MemorySink as Sink>⟧ input.old out.old err.old)
        (streams ⟦<MemoryFeed<'a> as Feed>⟧ ⟦<MemorySink as Sink>⟧ ⟦<MemorySink as Sink>⟧ input.new out.new err.new) }
{
    match program {
        Program::M11 => m11_cli::command(alloc, files, input, out, err, words),
        Program::Dump => m11_dumper::command(alloc, files, out, err, words),
        Program::Trace => m11_tracer::command(alloc, files, input, out, err, words),
    }
}
