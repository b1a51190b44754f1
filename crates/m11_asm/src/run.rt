//! A run of the assembler: it reads sources, and writes an object, a listing and messages.

ghost use Rattle.std.specs.Prelude.{◌≡◌};
ghost use Rattle.m11_asm.specs.Extents.{AsmGives};
ghost use Rattle.m11_base_writes.specs.Passes.{pass_of};
ghost use Rattle.m11_asm.specs.Run.{AsmRuns, AsmRunsOr};
ghost use Rattle.m11_base_writes.specs.Outputs.{outputs_of};

use crate::done::AsmDone;
use crate::first_reading::read_first;
use crate::second_reading::read_second;
use m11_asm_faults::AsmFault;
use m11_base::{Feed, Seed, Sink};
use std::alloc::Global;

/// Assembles sources, one after another as one text, into an object module, an optional listing, and messages. Each source is read
/// twice, and only one line of it is in memory at a time.
///
/// `first` and `second` supply the same sources, one to each pass. Only the second pass writes. No byte after the line of a live `.END` is
/// consumed, from its feed or a later one, by `Feed::next` or by `Feed::pass`. Without a live `.END` all feeds are read to their ends.
///
/// Faults: `Read` if a feed fails; `TooMuchSource` if the sources are too long; and `TooManySymbols`, `TooManySections` and `Unfold` if a
/// line exceeds a limit. The first fault in the order of the input ends the run, and nothing more is read. If the first pass fails, nothing
/// is written. The second pass exceeds a limit only if it reads other bytes than the first one. If one of these faults ends the second
/// pass, the outputs of the live lines before the fault are written. The second pass may also end with `Write`, after which nothing more is
/// written. Either pass ends with `NoMemory` if memory is refused, the second one only between two writes.
///
/// An output may hold bytes back until it is flushed. Object and listing are flushed before the count of flagged lines is written to the
/// messages. After a successful run they hold nothing back. A flush that fails ends the run with `Write` of that output.
pub fn asm_run<F: Feed, S: Sink, T: Sink, U: Sink>(
    alloc: Global,
    first: &mut [F],
    second: &mut [F],
    object: &mut S,
    listing: &mut Option<T>,
    messages: &mut U,
) -> Result<AsmDone, AsmFault>
    ensures runs { AsmRuns
        (pass_of F.text F.faults first.old first.new) (pass_of F.text F.faults second.old second.new)
        (outputs_of S.Sink T.Sink U.Sink object.old listing.old messages.old)
        (outputs_of S.Sink T.Sink U.Sink object.new listing.new messages.new) result }
    ensures untouched { AsmRunsOr ((object.new ≡ object.old) × (listing.new ≡ listing.old) × (messages.new ≡ messages.old))
        (pass_of F.text F.faults first.old first.new) (pass_of F.text F.faults second.old second.new)
        (outputs_of S.Sink T.Sink U.Sink object.old listing.old messages.old)
        (outputs_of S.Sink T.Sink U.Sink object.new listing.new messages.new) result }
    ensures gives { AsmGives (pass_of F.text F.faults first.old first.new) (pass_of F.text F.faults second.old second.new)
        (outputs_of S.Sink T.Sink U.Sink object.old listing.old messages.old)
        (outputs_of S.Sink T.Sink U.Sink object.new listing.new messages.new) result }
{
    asm_run_with_seed(
        alloc,
        Seed::fixed(),
        first,
        second,
        object,
        listing,
        messages,
    )
}

/// Like `asm_run`, with a seed for the maps of both passes.
pub fn asm_run_with_seed<F: Feed, S: Sink, T: Sink, U: Sink>(
    alloc: Global,
    seed: Seed,
    first: &mut [F],
    second: &mut [F],
    object: &mut S,
    listing: &mut Option<T>,
    messages: &mut U,
) -> Result<AsmDone, AsmFault>
    ensures runs { AsmRuns
        (pass_of F.text F.faults first.old first.new) (pass_of F.text F.faults second.old second.new)
        (outputs_of S.Sink T.Sink U.Sink object.old listing.old messages.old)
        (outputs_of S.Sink T.Sink U.Sink object.new listing.new messages.new) result }
    ensures untouched { AsmRunsOr ((object.new ≡ object.old) × (listing.new ≡ listing.old) × (messages.new ≡ messages.old))
        (pass_of F.text F.faults first.old first.new) (pass_of F.text F.faults second.old second.new)
        (outputs_of S.Sink T.Sink U.Sink object.old listing.old messages.old)
        (outputs_of S.Sink T.Sink U.Sink object.new listing.new messages.new) result }
    ensures gives { AsmGives (pass_of F.text F.faults first.old first.new) (pass_of F.text F.faults second.old second.new)
        (outputs_of S.Sink T.Sink U.Sink object.old listing.old messages.old)
        (outputs_of S.Sink T.Sink U.Sink object.new listing.new messages.new) result }
{
    let symbols = read_first(alloc, seed, first)?;
    read_second(alloc, second, symbols, object, listing, messages)
}
