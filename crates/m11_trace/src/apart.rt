//! A whole traced run whose trace lines have a sink of their own.

ghost use Rattle.std.specs.Prelude.{◌≡◌, ◌≤◌};
ghost use Rattle.m11_cpu.specs.Simulation.{request_of, run_devices};
ghost use Rattle.m11_cpu_machine.specs.Dialogue.{both, input_of, output_of};
ghost use Rattle.m11_cpu_machine.specs.Memory.{least_words, most_words};
ghost use Rattle.m11_trace.specs.Apart.{TracesApart, fault_of_steps};
ghost use Rattle.m11_trace.specs.Known.{known_of};

use crate::ending::Ending;
use crate::known::Known;
use crate::ranges::Range;
use crate::stops::Stops;
use crate::tracing::{put_stop, trace_steps};
use m11_base::{Feed, Sink};
use m11_cpu::SimFault;
use std::alloc::Global;

/// Why a run whose trace lines have a sink of their own has no ending.
#[derive(Clone, Copy, PartialEq, Eq)]
pub enum ApartFault {
    /// The trace lines couldn't be written whole.
    Lines,
    /// A fault of the run; `Write` is one of the messages.
    Run(SimFault),
}

// A fault while the steps are made: what couldn't be written then are the lines.
fn fault_of_steps(fault: SimFault) -> ApartFault
    ensures { result ≡ fault_of_steps fault }
{
    match fault {
        SimFault::Write => ApartFault::Lines,
        SimFault::NoMemory => ApartFault::Run(SimFault::NoMemory),
        SimFault::Load(fault) => ApartFault::Run(SimFault::Load(fault)),
    }
}

/// Makes the run of `trace_run`, but writes the trace lines to `lines`; only the two lines of the ending and the words of `ranges` go to
/// `messages`. Before these are written, `lines` is flushed.
///
/// Errors: `Lines`, if `lines` failed after part of the trace lines was written; no step is made after that, and `messages` gets nothing;
/// `Run` with a fault of `trace_run`, of which `Write` means that `messages` failed.
pub fn trace_apart<T: Feed, I: Feed, O: Sink, L: Sink, M: Sink>(
    alloc: Global,
    tape: &mut T,
    start: Option<u16>,
    words: u16,
    limit: u32,
    known: Known<'_>,
    first: u32,
    last: u16,
    stops: &Stops,
    ranges: &[Range],
    input: &mut I,
    output: &mut O,
    lines: &mut L,
    messages: &mut M,
) -> Result<Ending, ApartFault>
    requires least { least_words ≤ words }
    requires most { words ≤ most_words }
    ensures { TracesApart (request_of start words limit) (known_of known.entry) first last stops.now ranges.now
        (run_devices (input_of (T.text tape.old) (T.faults tape.old))
        (both (I.text input.old) (I.faults input.old) (O.text output.old) (O.faults output.old))
        (output_of (M.text messages.old) (M.faults messages.old)))
        (run_devices (input_of (T.text tape.new) (T.faults tape.new))
        (both (I.text input.new) (I.faults input.new) (O.text output.new) (O.faults output.new))
        (output_of (M.text messages.new) (M.faults messages.new)))
        (output_of (L.text lines.old) (L.faults lines.old)) (output_of (L.text lines.new) (L.faults lines.new))
        (L.held lines.new) result }
{
    let traced = match trace_steps(
        alloc, tape, start, words, limit, known, first, last, stops, input, output, lines,
    ) {
        Ok(traced) => traced,
        Err(fault) => return Err(fault_of_steps(fault)),
    };
    match lines.flush() {
        Err(_) => Err(ApartFault::Lines),
        Ok(()) => match put_stop(messages, stops, &traced.steps, ranges, &traced.machine) {
            Ok(()) => Ok(traced.steps.ending),
            Err(fault) => Err(ApartFault::Run(fault)),
        },
    }
}
