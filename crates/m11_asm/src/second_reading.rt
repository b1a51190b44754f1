//! The second pass: reads the sources again, and writes the outputs of their lines.

ghost use Rattle.std.specs.Prelude.{[]};
ghost use Rattle.m11_base_writes.specs.Passes.{pass_of};
ghost use Rattle.m11_asm.specs.SecondReading.{PutsAll, PutsLines};
ghost use Rattle.m11_base_writes.specs.Outputs.{Outputs, outputs_of};
ghost use Rattle.m11_asm.specs.Program.{Program, program_in};
ghost use Rattle.m11_asm.specs.Second.{SecondAfter};

use crate::done::AsmDone;
use crate::second::Second;
use crate::symbols::Symbols;
use m11_asm_faults::AsmFault;
use m11_base::{Feed, Sink};
use m11_scan::LineReader;
use std::alloc::Global;

/// Reads the sources again, up to the line in which `.END` becomes live or to the end of the last source, writes their outputs, and returns
/// the count of flagged lines.
///
/// Errors: `Read` if a feed fails, `TooMuchSource` if the sources are too long, and those of `Second::line` and `Second::end`.
pub fn read_second<F: Feed, S: Sink, T: Sink, U: Sink>(
    alloc: Global,
    feeds: &mut [F],
    symbols: Symbols,
    object: &mut S,
    listing: &mut Option<T>,
    messages: &mut U,
) -> Result<AsmDone, AsmFault>
    ensures { PutsAll (pass_of F.text F.faults feeds.old feeds.new) (program_in symbols)
        (outputs_of S.Sink T.Sink U.Sink object.old listing.old messages.old)
        (outputs_of S.Sink T.Sink U.Sink object.new listing.new messages.new) result }
{
    let mut second = Second::new(alloc, symbols)?;
    match put_lines(feeds, &mut second, object, listing, messages) {
        Ok(()) => second.end(object, listing, messages),
        Err(fault) => {
            // proof: dropping a value that owns several maps in place takes minutes to prove
            drop(second);
            Err(fault)
        }
    }
}

// Reads the lines of the sources one after another, and writes the outputs of each. Errors are those of `read_second`.
fn put_lines<F: Feed, S: Sink, T: Sink, U: Sink>(
    feeds: &mut [F],
    second: &mut Second,
    object: &mut S,
    listing: &mut Option<T>,
    messages: &mut U,
) -> Result<(), AsmFault>
    ensures { (program : Program) (old : Outputs)
        → SecondAfter program [] old (outputs_of S.Sink T.Sink U.Sink object.old listing.old messages.old) second.old
        → PutsLines (pass_of F.text F.faults feeds.old feeds.new) program old
        (outputs_of S.Sink T.Sink U.Sink object.new listing.new messages.new) second.new result }
{
    let mut reader = LineReader::new();
    'lines: loop {
        if second.has_ended() {
            return Ok(());
        }
        match reader.next(feeds) {
            Ok(true) => second.line(reader.line(), object, listing, messages)?,
            Ok(false) => return Ok(()),
            Err(fault) => return Err(AsmFault::from(fault)),
        }
    }
}
