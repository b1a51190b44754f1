//! The report at the end of a traced run. No memory is allocated for it.

ghost use Rattle.std.specs.Prelude.{◌≤◌, ◌++◌, codes, length};
ghost use Rattle.m11_base.specs.Octal.{octal_text};
ghost use Rattle.m11_cpu.specs.Messages.{PutsMessages, end_text};
ghost use Rattle.m11_cpu_machine.specs.Machine.{psw_in};
ghost use Rattle.m11_trace.specs.Messages.{ending_text};

use crate::ending::Ending;
use crate::line::put_text;
use crate::stops::Stops;
use m11_base::{Sink, octal6};
use m11_cpu::{Machine, SimFault, put_end};

// Writes the two lines of an ending with this keyword.
fn put_named<M: Sink>(
    messages: &mut M,
    name: &[u8],
    steps: u32,
    machine: &Machine,
) -> Result<(), SimFault>
    requires { length name.now ≤ 12 }
    ensures { PutsMessages (M.text messages.old) (M.text messages.new) (M.faults messages.old) (M.faults messages.new)
        (end_text name.now steps machine.now.registers (psw_in machine.now)) result }
{
    put_end(messages, name, steps, machine.registers(), machine.psw())
}

// Writes the two lines of an ending by a change of the watched word with this address, which they name.
fn put_change<M: Sink>(
    messages: &mut M,
    address: u16,
    steps: u32,
    machine: &Machine,
) -> Result<(), SimFault>
    ensures { PutsMessages (M.text messages.old) (M.text messages.new) (M.faults messages.old) (M.faults messages.new)
        (end_text (codes "CHANGED " ++ octal_text address) steps machine.now.registers (psw_in machine.now)) result }
{
    put_text(messages, b"CHANGED ")?;
    put_named(messages, &octal6(address), steps, machine)
}

/// Writes the two lines of an ending: its keyword, with the address of the changed word if several are watched, and `steps`; and the
/// registers and the processor status word. Error: `Write`, if the sink failed after part of them.
pub(crate) fn put_ending<M: Sink>(
    messages: &mut M,
    stops: &Stops,
    ending: Ending,
    steps: u32,
    machine: &Machine,
) -> Result<(), SimFault>
    ensures { PutsMessages (M.text messages.old) (M.text messages.new) (M.faults messages.old) (M.faults messages.new)
        (ending_text stops.now ending steps machine.now) result }
{
    match ending {
        Ending::Stopped(stop) => put_named(messages, stop.name().as_bytes(), steps, machine),
        Ending::Reached => put_named(messages, b"REACHED", steps, machine),
        Ending::Changed(address) => {
            if stops.watched.len() > 1 {
                put_change(messages, address, steps, machine)
            } else {
                put_named(messages, b"CHANGED", steps, machine)
            }
        }
    }
}
