//! The last steps of a run.

ghost use Rattle.std.specs.Prelude.{◌≡◌, ◌∷◌, ◌<◌, ◌-◌, [], nat_lt, if◌then◌else◌, Some, length, slice_get, take};
ghost use Rattle.m11_cpu.specs.Messages.{PutsMessages};
ghost use Rattle.m11_trace.specs.Known.{known_of};
ghost use Rattle.m11_trace.specs.Lines.{short_line};
ghost use Rattle.m11_trace.specs.Taken.{shots_text};

use crate::ends::put_end;
use crate::known::Known;
use crate::line::put_text;
use crate::lines::line_front;
use crate::shots::Shot;
use circular_buffer::HeapCircularBuffer;
use m11_base::Sink;
use m11_cpu::SimFault;

/// The last steps, as many as its capacity at most, the latest first.
pub(crate) type Recent = HeapCircularBuffer<Shot>;

/// Adds the latest step, in place of the oldest one if there is no room for one more.
pub(crate) fn keep(recent: &mut Recent, shot: Shot)
    ensures items { recent.new.items ≡ take recent.old.capacity (shot ∷ recent.old.items) }
    ensures capacity { recent.new.capacity ≡ recent.old.capacity }
{
    recent.push_front(shot);
}

// The step with this index; the latest has index 0.
fn shot_at(recent: &Recent, index: usize) -> Shot
    requires { index < length recent.now.items }
    ensures { slice_get recent.now.items index ≡ Some result }
{
    *recent.get(index).unwrap()
}

// Writes the trace line of the step with this number, without memory words.
fn put_short<M: Sink>(
    messages: &mut M,
    known: Known<'_>,
    number: u32,
    shot: &Shot,
) -> Result<(), SimFault>
    ensures { PutsMessages (M.text messages.old) (M.text messages.new) (M.faults messages.old) (M.faults messages.new)
        (short_line (known_of known.entry) number shot.now) result }
{
    put_text(messages, line_front(known.symbols, number, shot).as_slice())?;
    put_end(messages, known, shot)
}

// Writes the trace line, without memory words, of the step that came `earlier` steps before the one with this number.
fn put_shot<M: Sink>(
    messages: &mut M,
    known: Known<'_>,
    number: u32,
    earlier: usize,
    shot: &Shot,
) -> Result<(), SimFault>
    ensures { PutsMessages (M.text messages.old) (M.text messages.new) (M.faults messages.old) (M.faults messages.new)
        (short_line (known_of known.entry) (number - earlier) shot.now) result }
{
    let number = (number as usize).saturating_sub(earlier) as u32;
    put_short(messages, known, number, shot)
}

// Writes the trace lines of steps, without memory words, in the order in which they were made. The latest has this number.
fn put_shots<M: Sink>(
    messages: &mut M,
    known: Known<'_>,
    number: u32,
    recent: &Recent,
) -> Result<(), SimFault>
    ensures { PutsMessages (M.text messages.old) (M.text messages.new) (M.faults messages.old) (M.faults messages.new)
        (shots_text (known_of known.entry) number recent.now.items) result }
{
    let mut left = recent.len();
    'shots: while left > 0 {
        left -= 1;
        put_shot(messages, known, number, left, &shot_at(recent, left))?;
    }
    Ok(())
}

/// Writes the trace lines of the last steps, without memory words, if the run has fewer than `first` steps, and so has written no trace
/// line. Error: `Write`, if the sink failed after part of them.
pub(crate) fn put_recent<M: Sink>(
    messages: &mut M,
    known: Known<'_>,
    first: u32,
    count: u32,
    recent: &Recent,
) -> Result<(), SimFault>
    ensures { PutsMessages (M.text messages.old) (M.text messages.new) (M.faults messages.old) (M.faults messages.new)
        (if nat_lt count first then shots_text (known_of known.entry) count recent.now.items else []) result }
{
    if count < first {
        put_shots(messages, known, count, recent)
    } else {
        Ok(())
    }
}
