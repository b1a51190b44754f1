//! Slices of a run: some steps of the machine of a state, with what was typed so far.

ghost use Rattle.std.specs.Prelude.{◌≡◌, ◌≤◌, IfErr, IfOk, false};
ghost use Rattle.m11_cpu.specs.Runs.{run_counted};
ghost use Rattle.m11_cpu_machine.specs.Dialogue.{Does, both};
ghost use Rattle.m11_cpu_states.specs.Slices.{Makes, Sliced};
ghost use Rattle.m11_cpu_states.specs.States.{IsState};
ghost use Rattle.m11_cpu_states.specs.declared.refusal.StateFault.TheVariants.{Malformed};

use crate::refusal::StateFault;
use crate::states::{machine_of, state_of};
use crate::typed::TypedFeed;
use m11_base::{Feed, MemorySink, Sink};
use m11_cpu_machine::{Machine, Stop, Turn};
use m11_cpu_quick::{KindTable, quick_steps};
use std::alloc::Global;

/// What a slice leaves.
#[derive(Drop)]
pub struct Slice {
    /// Why it ended; `Limit`, if the machine can go on.
    pub stop: Stop,
    /// The number of steps made.
    pub steps: u32,
    /// Whether the next step asks for a byte that isn't typed yet.
    pub waits: bool,
    /// The state after the steps.
    pub state: Vec<u8>,
    /// The bytes typed that weren't read, in order.
    pub unread: Vec<u8>,
    /// The bytes printed.
    pub printed: Vec<u8>,
}

/// Makes at most `limit` steps of the machine of a state. `typed` is what the console can read, and `is_over` says whether no byte will
/// follow. A step that asks for a byte which isn't typed yet isn't made: then as many steps as come before it are made, from the same
/// bytes.
///
/// Errors: `Malformed`, if the bytes are no state; `NoMemory`.
pub fn make_slice(
    alloc: Global,
    state: &[u8],
    typed: &[u8],
    is_over: bool,
    limit: u32,
) -> Result<Slice, StateFault>
    ensures slice { IfOk result (λ slice. Sliced is_over limit state.now typed.now slice) }
    ensures malformed { IfErr result (λ fault. (fault ≡ Malformed) → IsState state.now → ⊥) }
{
    let slice = steps_of(alloc, state, typed, is_over, limit)?;
    if is_over {
        return Ok(slice);
    }
    match slice.stop {
        Stop::InputFault if 0 < slice.steps => {
            let again = steps_of(alloc, state, typed, is_over, slice.steps - 1)?;
            Ok(Slice {
                waits: true,
                ..again
            })
        }
        _ => Ok(slice),
    }
}

// Makes at most `limit` steps of the machine of a state, whatever they ask for.
fn steps_of(
    alloc: Global,
    state: &[u8],
    typed: &[u8],
    is_over: bool,
    limit: u32,
) -> Result<Slice, StateFault>
    ensures steps { IfOk result (λ slice. Makes is_over limit state.now typed.now slice) }
    ensures waits { IfOk result (λ slice. slice.waits ≡ false) }
    ensures most { IfOk result (λ slice. slice.steps ≤ limit) }
    ensures malformed { IfErr result (λ fault. (fault ≡ Malformed) → IsState state.now → ⊥) }
{
    let mut machine = machine_of(alloc, state)?;
    let mut feed = TypedFeed::new(typed, is_over);
    let mut sink = MemorySink::new(alloc);
    let ran = run_counted(&mut machine, limit, &mut feed, &mut sink);
    Ok(Slice {
        stop: ran.stop,
        steps: ran.steps,
        waits: false,
        state: state_of(alloc, &machine)?,
        unread: Vec::from_slice(alloc, feed.unread())?,
        printed: sink.into_bytes(),
    })
}

// The outcome of a run: why it ended, and the number of steps begun.
#[derive(Clone, Copy)]
struct Ran {
    stop: Stop,
    steps: u32,
}

// Makes steps up to a stop or the limit, and counts them.
#[inline(never)]
fn run_counted<F: Feed, S: Sink>(
    machine: &mut Machine,
    limit: u32,
    feed: &mut F,
    sink: &mut S,
) -> Ran
    ensures runs { Does (run_counted limit machine.old)
        (both (F.text feed.old) (F.faults feed.old) (S.text sink.old) (S.faults sink.old))
        (both (F.text feed.new) (F.faults feed.new) (S.text sink.new) (S.faults sink.new))
        (record { stop = result.stop; steps = result.steps }, machine.new) }
    ensures most { result.steps ≤ limit }
{
    let mut kinds = KindTable::new();
    let mut done = quick_steps(machine, &mut kinds, limit);
    'steps: while done < limit {
        match machine.step(feed, sink) {
            Turn::Next => {}
            Turn::Stopped(stop) => {
                return Ran {
                    stop,
                    steps: done + 1,
                };
            }
        }
        let quick = quick_steps(machine, &mut kinds, limit - (done + 1));
        done = done + 1 + quick;
    }
    Ran {
        stop: Stop::Limit,
        steps: limit,
    }
}
