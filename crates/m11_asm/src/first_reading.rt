//! The first pass: reads the sources, and finds the values of their names.

ghost use Rattle.std.specs.Prelude.{[]};
ghost use Rattle.m11_asm.specs.FirstReading.{GivesSymbols, ReadsLines};
ghost use Rattle.m11_base_writes.specs.Passes.{pass_of};
ghost use Rattle.m11_asm.specs.First.{FirstAfter};

use crate::first::First;
use crate::symbols::Symbols;
use m11_asm_faults::AsmFault;
use m11_base::{Feed, Seed};
use m11_scan::LineReader;
use std::alloc::Global;

/// Reads the sources up to the line in which `.END` becomes live, or to the end of the last source, and returns the result of the first
/// pass.
///
/// Errors: `Read` if a feed fails, `TooMuchSource` if the sources are too long, and those of `First::line`.
pub fn read_first<F: Feed>(alloc: Global, seed: Seed, feeds: &mut [F]) -> Result<Symbols, AsmFault>
    ensures { GivesSymbols (pass_of F.text F.faults feeds.old feeds.new) result }
{
    let mut first = First::with_seed(alloc, seed)?;
    match read_lines(feeds, &mut first) {
        Ok(()) => first.end(),
        Err(fault) => {
            // proof: dropping a value that owns several maps in place takes minutes to prove
            drop(first);
            Err(fault)
        }
    }
}

// Reads the lines of the sources, one after another. Errors are those of `read_first`.
fn read_lines<F: Feed>(feeds: &mut [F], first: &mut First) -> Result<(), AsmFault>
    ensures { FirstAfter [] first.old → ReadsLines (pass_of F.text F.faults feeds.old feeds.new) first.new result }
{
    let mut reader = LineReader::new();
    'lines: loop {
        if first.has_ended() {
            return Ok(());
        }
        match reader.next(feeds) {
            Ok(true) => first.line(reader.line())?,
            Ok(false) => return Ok(()),
            Err(fault) => return Err(AsmFault::from(fault)),
        }
    }
}
