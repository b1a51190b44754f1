//! A whole traced run: a tape is loaded and started, and its steps and its end are reported.

ghost use Rattle.std.specs.Prelude.{◌≡◌, ◌≤◌, [], length};
ghost use Rattle.m11_cpu.specs.Messages.{PutsMessages};
ghost use Rattle.m11_cpu.specs.Simulation.{request_of, run_devices, started};
ghost use Rattle.m11_cpu_machine.specs.Dialogue.{both, input_of, output_of};
ghost use Rattle.m11_cpu_machine.specs.Memory.{least_words, most_words};
ghost use Rattle.m11_trace.specs.Known.{known_of};
ghost use Rattle.m11_trace.specs.Stepping.{StepsWithLines, TracesSteps, stop_text};
ghost use Rattle.m11_trace.specs.Taken.{begun};
ghost use Rattle.m11_trace.specs.Tracing.{Traces};

use crate::changes::MOST_WORDS;
use crate::ending::Ending;
use crate::known::Known;
use crate::messages::put_ending;
use crate::ranges::{Range, put_ranges};
use crate::recent::{Recent, put_recent};
use crate::steps::{Steps, steps_with_lines};
use crate::stops::{CountedAddress, Stops};
use crate::watches::Watch;
use circular_buffer::HeapCircularBuffer;
use m11_base::{Feed, Sink};
use m11_cpu::{Machine, SimFault, Stop};
use std::alloc::Global;

/// A run whose steps were made, with its trace lines written.
#[derive(Drop)]
pub(crate) struct Traced {
    /// The machine after the steps.
    pub machine: Machine,
    /// How many steps were begun, and why they ended.
    pub steps: Steps,
}

/// Loads a tape into a new machine of `words` words of memory, 4,096 to 28,672, and makes at most `limit` steps from `start`, or from the
/// tape's transfer address if `start` is None. An odd address makes no step and ends the run with `NoStart`. The machine, the console's
/// input and output and the stop are the same as those of `m11_cpu::sim_run` with the same number of words. The run also stops before a
/// step, if a step is left to make and the program counter has reached the address of a breakpoint as often as its count says, and after
/// a step that changes a watched word, if steps have changed it as often as its count says. The machine and the console are then as after
/// `m11_cpu::sim_run` with the number of steps made as its limit.
///
/// The trace line of each step whose number is `first` or more is written to `messages` as soon as the step is made. It also shows the
/// step's address as an offset from the nearest of the `known` names at or below it, if there is one, and the text of the line that shows
/// its instruction, if exactly one line of the `known` listings does. If the run has fewer than `first` steps, the trace lines of the last
/// `last` steps follow at the end, without memory words. Then come the two lines of the ending and the words of `ranges`.
///
/// Errors: `NoMemory`, if memory was refused, before anything was read; `Load`, if the tape couldn't be loaded, so that nothing was run;
/// `Write`, if `messages` failed after part of the report was written; no step is made after that. Memory is allocated only for the
/// machine, for a copy of its memory of 28,672 words, for copies of the breakpoints and of the watched words, and for the last steps.
pub fn trace_run<T: Feed, I: Feed, O: Sink, M: Sink>(
    alloc: Global,
    tape: &mut T,
    start: Option<u16>,
    words: u16,
    limit: u32,
    known: Known<'_>,
    first: u32,
    last: u16,
    stops: &Stops,
    ranges: &[Range],
    input: &mut I,
    output: &mut O,
    messages: &mut M,
) -> Result<Ending, SimFault>
    requires least { least_words ≤ words }
    requires most { words ≤ most_words }
    ensures { Traces (request_of start words limit) (known_of known.entry) first last stops.now ranges.now
        (run_devices (input_of (T.text tape.old) (T.faults tape.old))
        (both (I.text input.old) (I.faults input.old) (O.text output.old) (O.faults output.old))
        (output_of (M.text messages.old) (M.faults messages.old)))
        (run_devices (input_of (T.text tape.new) (T.faults tape.new))
        (both (I.text input.new) (I.faults input.new) (O.text output.new) (O.faults output.new))
        (output_of (M.text messages.new) (M.faults messages.new)))
        result }
{
    let traced = trace_steps(
        alloc, tape, start, words, limit, known, first, last, stops, input, output, messages,
    )?;
    put_stop(messages, stops, &traced.steps, ranges, &traced.machine)?;
    Ok(traced.steps.ending)
}

/// Loads a tape, makes the steps and writes their trace lines, or those of the last steps. Errors as for `trace_run`.
pub(crate) fn trace_steps<T: Feed, I: Feed, O: Sink, M: Sink>(
    alloc: Global,
    tape: &mut T,
    start: Option<u16>,
    words: u16,
    limit: u32,
    known: Known<'_>,
    first: u32,
    last: u16,
    stops: &Stops,
    input: &mut I,
    output: &mut O,
    messages: &mut M,
) -> Result<Traced, SimFault>
    requires least { least_words ≤ words }
    requires most { words ≤ most_words }
    ensures { TracesSteps (request_of start words limit) (known_of known.entry) first last stops.now
        (run_devices (input_of (T.text tape.old) (T.faults tape.old))
        (both (I.text input.old) (I.faults input.old) (O.text output.old) (O.faults output.old))
        (output_of (M.text messages.old) (M.faults messages.old)))
        (run_devices (input_of (T.text tape.new) (T.faults tape.new))
        (both (I.text input.new) (I.faults input.new) (O.text output.new) (O.faults output.new))
        (output_of (M.text messages.new) (M.faults messages.new)))
        result }
{
    let mut machine = Machine::new(alloc, words)?;
    let mut before = vec![in alloc; 0; MOST_WORDS]?;
    let mut waiting = stops.breakpoints.as_slice().to_vec(alloc)?;
    let mut watches = vec![in alloc; Watch::default(); stops.watched.len()]?;
    let mut recent = HeapCircularBuffer::with_capacity(alloc, usize::from(last))?;
    let transfer = machine.load(tape)?;
    let steps = started(
        &mut machine,
        start.unwrap_or(transfer.address),
        limit,
        known,
        first,
        stops,
        &mut waiting,
        &mut watches,
        &mut before,
        &mut recent,
        input,
        output,
        messages,
    )?;
    put_recent(messages, known, first, steps.count, &recent)?;
    Ok(Traced { machine, steps })
}

// Makes steps from an even address. From an odd address no step is made, and the ending is `NoStart`.
fn started<I: Feed, O: Sink, M: Sink>(
    machine: &mut Machine,
    address: u16,
    limit: u32,
    known: Known<'_>,
    first: u32,
    stops: &Stops,
    waiting: &mut [CountedAddress],
    watches: &mut [Watch],
    before: &mut [u16],
    recent: &mut Recent,
    input: &mut I,
    output: &mut O,
    messages: &mut M,
) -> Result<Steps, SimFault>
    requires waiting { waiting.old ≡ stops.now.breakpoints.items }
    requires room { length watches.old ≡ length stops.now.watched.items }
    requires size { length before.old ≡ most_words }
    requires none { recent.old.items ≡ [] }
    ensures { StepsWithLines (λ most. started address most machine.old) limit (known_of known.entry) first recent.old.capacity stops.now
        (begun address machine.old) machine.new
        (both (I.text input.old) (I.faults input.old) (O.text output.old) (O.faults output.old))
        (both (I.text input.new) (I.faults input.new) (O.text output.new) (O.faults output.new))
        (output_of (M.text messages.old) (M.faults messages.old)) (output_of (M.text messages.new) (M.faults messages.new))
        recent.new.items result }
{
    if address % 2 == 1 {
        return Ok(Steps {
            ending: Ending::Stopped(Stop::NoStart),
            count: 0,
        });
    }
    machine.start_at(address);
    steps_with_lines(
        machine, limit, known, first, stops, waiting, watches, before, recent, input, output,
        messages,
    )
}

/// Writes the two lines of the ending and the memory ranges. Error: `Write`, if the sink failed after part of them.
pub(crate) fn put_stop<M: Sink>(
    messages: &mut M,
    stops: &Stops,
    steps: &Steps,
    ranges: &[Range],
    machine: &Machine,
) -> Result<(), SimFault>
    ensures { PutsMessages (M.text messages.old) (M.text messages.new) (M.faults messages.old) (M.faults messages.new)
        (stop_text stops.now steps.now ranges.now machine.now) result }
{
    put_ending(messages, stops, steps.ending, steps.count, machine)?;
    put_ranges(messages, machine.memory(), ranges)
}
