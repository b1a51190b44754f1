//! A whole run: a tape is loaded, its program is run, and the stop of the run is reported.

ghost use Rattle.std.specs.Prelude.{◌≤◌};
ghost use Rattle.m11_cpu_machine.specs.Dialogue.{Does, both, input_of, output_of};
ghost use Rattle.m11_cpu_machine.specs.Memory.{least_words, most_words};
ghost use Rattle.m11_cpu.specs.Simulation.{Simulates, request_of, run_devices, started};

use crate::fault::SimFault;
use crate::machine::Machine;
use crate::messages::put_messages;
use crate::runs::{Ran, run_counted};
use m11_base::{Feed, Sink};
use m11_cpu_machine::Stop;
use std::alloc::Global;

/// The outcome of a run whose stop was reported. The command's exit status follows from the stop.
#[derive(Clone, Copy, PartialEq, Eq)]
pub struct SimDone {
    /// Why the run ended.
    pub stop: Stop,
}

/// Loads a tape into a new machine with `words` words of memory, 4,096 to 28,672, and makes at most `limit` steps from `start`, or from the
/// tape's transfer address if `start` is None; an odd address starts nothing. At the stop two lines go to `messages`: the stop with the
/// number of steps, and the registers with the PSW.
///
/// Faults: `NoMemory` if memory was refused, before anything was read; `Load` if the tape could not be loaded, in which case nothing was
/// run; `Write` if only a prefix of the messages, or nothing, could be written. A failing console is a stop, not a fault.
pub fn sim_run<T: Feed, I: Feed, O: Sink, M: Sink>(
    alloc: Global,
    tape: &mut T,
    start: Option<u16>,
    words: u16,
    limit: u32,
    input: &mut I,
    output: &mut O,
    messages: &mut M,
) -> Result<SimDone, SimFault>
    requires least { least_words ≤ words }
    requires most { words ≤ most_words }
    ensures { Simulates (request_of start words limit)
        (run_devices (input_of (T.text tape.old) (T.faults tape.old))
        (both (I.text input.old) (I.faults input.old) (O.text output.old) (O.faults output.old))
        (output_of (M.text messages.old) (M.faults messages.old)))
        (run_devices (input_of (T.text tape.new) (T.faults tape.new))
        (both (I.text input.new) (I.faults input.new) (O.text output.new) (O.faults output.new))
        (output_of (M.text messages.new) (M.faults messages.new)))
        result }
{
    let mut machine = Machine::new(alloc, words)?;
    let transfer = machine.load(tape)?;
    let ran = started(
        &mut machine,
        start.unwrap_or(transfer.address),
        limit,
        input,
        output,
    );
    put_messages(
        messages,
        ran.stop,
        ran.steps,
        machine.registers(),
        machine.psw(),
    )?;
    Ok(SimDone { stop: ran.stop })
}

// Makes at most `limit` steps from an even address. An odd address starts nothing: the stop is `NoStart`, after 0 steps.
#[tactic(auto, using(m11_cpu_machine::proofs::Dialogues::dialogues), unfolding(crate::specs::Simulation::started))]
fn started<F: Feed, S: Sink>(
    machine: &mut Machine,
    address: u16,
    limit: u32,
    feed: &mut F,
    sink: &mut S,
) -> Ran
    ensures { Does (started address limit machine.old)
        (both (F.text feed.old) (F.faults feed.old) (S.text sink.old) (S.faults sink.old))
        (both (F.text feed.new) (F.faults feed.new) (S.text sink.new) (S.faults sink.new))
        (result, machine.new) }
{
    if address % 2 == 1 {
        return Ran {
            stop: Stop::NoStart,
            steps: 0,
        };
    }
    machine.start_at(address);
    run_counted(&mut machine.inner, limit, feed, sink)
}
