//! Steps with trace lines.

ghost use Rattle.std.specs.Prelude.{◌≡◌, ◌≤◌, ◌+◌, ◌++◌, [], OnOk, length};
ghost use Rattle.m11_cpu.specs.Messages.{PutsMessages};
ghost use Rattle.m11_cpu.specs.Runs.{run_counted};
ghost use Rattle.m11_cpu_machine.specs.Dialogue.{Does, both, output_of};
ghost use Rattle.m11_cpu_machine.specs.Memory.{bytes_of, most_words};
ghost use Rattle.m11_cpu_machine.specs.Steps.{step};
ghost use Rattle.m11_trace.specs.Changes.{HaveSameWords, CopyMatches, memory_changes};
ghost use Rattle.m11_trace.specs.Known.{known_of};
ghost use Rattle.m11_trace.specs.Lines.{line_end, line_with};
ghost use Rattle.m11_trace.specs.Shots.{shot_of};
ghost use Rattle.m11_trace.specs.Stepping.{StepsWithLines};
ghost use Rattle.m11_trace.specs.Taken.{line_from};

use crate::changes::{copy_words, put_changes};
use crate::ending::Ending;
use crate::ends::put_end;
use crate::known::Known;
use crate::line::put_text;
use crate::lines::line_front;
use crate::recent::{Recent, keep};
use crate::shots::{Shot, counter_of, fetched_at, view_of};
use crate::stops::{CountedAddress, Stops, count_down, is_due};
use crate::watches::{Watch, count_changes, look, stopping_address};
use m11_base::{Feed, Sink};
use m11_cpu::{Machine, Memory, SimFault, Stop, Turn};

/// The outcome of traced steps.
#[derive(Clone, Copy)]
pub(crate) struct Steps {
    /// Why the steps ended.
    pub ending: Ending,
    /// How many steps were begun.
    pub count: u32,
}

// Makes one step, and records what its trace line shows.
fn record_step<I: Feed, O: Sink>(
    machine: &mut Machine,
    input: &mut I,
    output: &mut O,
) -> (Turn, Shot)
    ensures does { Does (step machine.old)
        (both (I.text input.old) (I.faults input.old) (O.text output.old) (O.faults output.old))
        (both (I.text input.new) (I.faults input.new) (O.text output.new) (O.faults output.new))
        (result.0, machine.new) }
    ensures shot { result.1 ≡ shot_of machine.old machine.new }
{
    let fetched = fetched_at(machine.memory(), counter_of(machine));
    let before = view_of(machine);
    let turn = machine.step(input, output);
    let shot = Shot {
        fetched,
        before,
        later: view_of(machine),
    };
    (turn, shot)
}

// Copies the memory if the next step is the first that has a trace line, since changes by earlier steps aren't shown.
fn ready(first: u32, count: u32, before: &mut [u16], memory: &Memory)
    requires { length before.old ≡ most_words }
    ensures size { length before.new ≡ most_words }
    ensures same { first ≤ count + 1 → CopyMatches first count before.old memory.now → HaveSameWords (bytes_of before.new) memory.now }
{
    if count == first.saturating_sub(1) {
        copy_words(before, memory);
    }
}

// Writes the memory words that a step changed and the end of its trace line, and updates the copy of the memory in `before`.
fn put_rest<M: Sink>(
    messages: &mut M,
    known: Known<'_>,
    shot: &Shot,
    before: &mut [u16],
    memory: &Memory,
) -> Result<(), SimFault>
    requires { length before.old ≡ most_words }
    ensures puts { PutsMessages (M.text messages.old) (M.text messages.new) (M.faults messages.old) (M.faults messages.new)
        (memory_changes (bytes_of before.old) memory.now ++ line_end (known_of known.entry) shot.now) result }
    ensures size { length before.new ≡ most_words }
    ensures same { OnOk result (HaveSameWords (bytes_of before.new) memory.now) }
{
    put_changes(messages, before, memory)?;
    put_end(messages, known, shot)
}

// Writes the trace line of a step, and updates the copy of the memory in `before`.
fn put_line<M: Sink>(
    messages: &mut M,
    known: Known<'_>,
    number: u32,
    shot: &Shot,
    before: &mut [u16],
    memory: &Memory,
) -> Result<(), SimFault>
    requires { length before.old ≡ most_words }
    ensures puts { PutsMessages (M.text messages.old) (M.text messages.new) (M.faults messages.old) (M.faults messages.new)
        (line_with (known_of known.entry) number shot.now (memory_changes (bytes_of before.old) memory.now)) result }
    ensures size { length before.new ≡ most_words }
    ensures same { OnOk result (HaveSameWords (bytes_of before.new) memory.now) }
{
    put_text(messages, line_front(known.symbols, number, shot).as_slice())?;
    put_rest(messages, known, shot, before, memory)
}

// Writes the trace line of a step, and updates the copy of the memory in `before`, if the step's number is `first` or more.
fn put_line_from<M: Sink>(
    messages: &mut M,
    known: Known<'_>,
    first: u32,
    number: u32,
    shot: &Shot,
    before: &mut [u16],
    memory: &Memory,
) -> Result<(), SimFault>
    requires { length before.old ≡ most_words }
    ensures puts { PutsMessages (M.text messages.old) (M.text messages.new) (M.faults messages.old) (M.faults messages.new)
        (line_from first number (line_with (known_of known.entry) number shot.now (memory_changes (bytes_of before.old) memory.now))) result }
    ensures size { length before.new ≡ most_words }
    ensures same { OnOk result (CopyMatches first number before.new memory.now) }
{
    if first > number {
        return Ok(());
    }
    put_line(messages, known, number, shot, before, memory)
}

/// Makes at most `limit` steps, up to a stop of the machine or one of `stops`, and writes a trace line for each step whose number is
/// `first` or more, with what is `known` of addresses. `before` has room for a copy of the memory, which is made before the first step that has
/// a line and updated with each line. `waiting` has the breakpoints, whose counts are lowered as the program counter reaches them;
/// `watches` has room for the watched words. `recent` then has the last steps. Allocates no memory.
///
/// Error: `Write`, if a line couldn't be written whole. No step is made after that.
pub(crate) fn steps_with_lines<I: Feed, O: Sink, M: Sink>(
    machine: &mut Machine,
    limit: u32,
    known: Known<'_>,
    first: u32,
    stops: &Stops,
    waiting: &mut [CountedAddress],
    watches: &mut [Watch],
    before: &mut [u16],
    recent: &mut Recent,
    input: &mut I,
    output: &mut O,
    messages: &mut M,
) -> Result<Steps, SimFault>
    requires waiting { waiting.old ≡ stops.now.breakpoints.items }
    requires room { length watches.old ≡ length stops.now.watched.items }
    requires none { recent.old.items ≡ [] }
    requires size { length before.old ≡ most_words }
    ensures { StepsWithLines (λ most. run_counted most machine.old) limit (known_of known.entry) first recent.old.capacity stops.now machine.old machine.new
        (both (I.text input.old) (I.faults input.old) (O.text output.old) (O.faults output.old))
        (both (I.text input.new) (I.faults input.new) (O.text output.new) (O.faults output.new))
        (output_of (M.text messages.old) (M.faults messages.old)) (output_of (M.text messages.new) (M.faults messages.new))
        recent.new.items result }
{
    let mut count = 0;
    look(watches, stops.watched.as_slice(), machine.memory());
    'steps: while count < limit {
        let address = counter_of(machine);
        if is_due(waiting, address) {
            return Ok(Steps {
                ending: Ending::Reached,
                count,
            });
        }
        count_down(waiting, address);
        ready(first, count, before, machine.memory());
        let (turn, shot) = record_step(machine, input, output);
        count += 1;
        put_line_from(
            messages,
            known,
            first,
            count,
            &shot,
            before,
            machine.memory(),
        )?;
        keep(recent, shot);
        match turn {
            Turn::Next => {
                if let Some(address) = stopping_address(watches, machine.memory()) {
                    return Ok(Steps {
                        ending: Ending::Changed(address),
                        count,
                    });
                }
                count_changes(watches, machine.memory());
            }
            Turn::Stopped(stop) => {
                return Ok(Steps {
                    ending: Ending::Stopped(stop),
                    count,
                });
            }
        }
    }
    Ok(Steps {
        ending: Ending::Stopped(Stop::Limit),
        count,
    })
}
