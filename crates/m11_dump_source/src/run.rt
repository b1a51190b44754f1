//! Writes a tape as a source.

ghost use Rattle.std.specs.Prelude.{◌≡◌, ℕ, IfOk};
ghost use Rattle.m11_base_writes.specs.States.{output_of};
ghost use Rattle.m11_obj_blocks.specs.Limited.{most_bytes, position};
ghost use Rattle.m11_dump_source.specs.Run as spec;

use crate::memory::memory_after;
use crate::texts::source_text;
use m11_base::{Feed, Sink};
use m11_base_disassembly::Symbols;
use m11_base_writes::put_or_fail;
use m11_dump::{LocatedFault, WholeTape, read_tape};
use std::alloc::{AllocError, Global};

/// Why the source of a tape isn't written.
#[derive(Clone, Copy)]
pub enum SourceFault {
    /// The tape can't be read, for the reason and at the byte that this gives, or memory was refused for its data.
    Tape(LocatedFault),
    /// A write failed, after part of the source was written.
    Write,
    /// Memory was refused after the tape was read.
    NoMemory,
}

impl From<LocatedFault> for SourceFault {
    ghost from_gives = { λ fault e. e ≡ spec.of_tape fault };

    fn from(fault: LocatedFault) -> Self {
        SourceFault::Tape(fault)
    }
}

// The source of a tape, with these names. Fails if memory is refused.
fn tape_source(alloc: Global, symbols: &Symbols, tape: &WholeTape) -> Result<Vec<u8>, AllocError>
    ensures { IfOk result (λ text. text.items ≡ spec.tape_source symbols.now tape.now) }
{
    let memory = memory_after(alloc, &tape.blocks, 65_536)?;
    source_text(alloc, symbols, tape.start, &memory)
}

/// Writes a tape as a source, which the assembler and the linker turn into what memory holds after the tape was loaded: lines of instructions
/// and data from `.ASECT` to `.END`, in the order of their addresses. Addresses that operands name have labels, as far as a line begins there:
/// the names that `symbols` give them, or else names such as `L01000`. Symbols with other values are assigned theirs at the beginning. Of
/// symbols with one name the first counts; those that a source can't define, and further values of a name, are comments at the beginning. Nothing
/// is read after the transfer block, and nothing is written before it was read.
///
/// Errors: `Tape`, if the tape can't be read; `Write`, if the sink failed, after part of the source was written; `NoMemory`.
pub fn write_source<F: Feed, S: Sink>(
    alloc: Global,
    symbols: &Symbols,
    feed: &mut F,
    sink: &mut S,
) -> Result<(), SourceFault>
    ensures { (room : ℕ) × spec.WritesSource symbols.now (position (F.text feed.old) (F.faults feed.old) most_bytes)
        (position (F.text feed.new) (F.faults feed.new) room)
        (output_of S.Sink sink.old) (output_of S.Sink sink.new) result }
{
    let tape = read_tape(alloc, feed)?;
    match tape_source(alloc, symbols, &tape) {
        Ok(text) => put_or_fail(sink, &text, SourceFault::Write),
        Err(_) => Err(SourceFault::NoMemory),
    }
}
