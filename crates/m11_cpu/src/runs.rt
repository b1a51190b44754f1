//! Runs: steps up to a stop or a limit.

ghost use Rattle.m11_cpu_machine.specs.Dialogue.{Does, both};
ghost use Rattle.m11_cpu.specs.Runs.{run, run_counted};

use crate::machine::Machine;
use m11_base::{Feed, Sink};
use m11_cpu_machine::{Stop, Turn};
use m11_cpu_quick::{KindTable, quick_steps};

/// The outcome of a run.
#[derive(Clone, Copy)]
pub struct Ran {
    /// Why the run ended.
    pub stop: Stop,
    /// The number of steps begun.
    pub steps: u32,
}

impl Machine {
    /// Makes steps until one stops the machine, and returns the stop; or `Limit` after `limit` steps without a stop. No memory is
    /// allocated.
    ///
    /// The exchanges with `input` and `output` are those of the steps, one after another, and the machine is left as the last step leaves
    /// it.
    pub fn run<I: Feed, O: Sink>(&mut self, limit: u32, input: &mut I, output: &mut O) -> Stop
        ensures { Does (run limit self.old)
            (both (I.text input.old) (I.faults input.old) (O.text output.old) (O.faults output.old))
            (both (I.text input.new) (I.faults input.new) (O.text output.new) (O.faults output.new))
            (result, self.new) }
    {
        run_counted(&mut self.inner, limit, input, output).stop
    }
}

/// Makes steps up to a stop or the limit, and counts them.
#[inline(never)]
pub(crate) fn run_counted<F: Feed, S: Sink>(
    machine: &mut m11_cpu_machine::Machine,
    limit: u32,
    feed: &mut F,
    sink: &mut S,
) -> Ran
    ensures { Does (run_counted limit machine.old)
        (both (F.text feed.old) (F.faults feed.old) (S.text sink.old) (S.faults sink.old))
        (both (F.text feed.new) (F.faults feed.new) (S.text sink.new) (S.faults sink.new))
        (result, machine.new) }
{
    let mut kinds = KindTable::new();
    let mut done = quick_steps(machine, &mut kinds, limit);
    'steps: while done < limit {
        match machine.step(feed, sink) {
            Turn::Next => {}
            Turn::Stopped(stop) => return Ran {
                stop,
                steps: done + 1,
            },
        }
        let quick = quick_steps(machine, &mut kinds, limit - (done + 1));
        done = done + 1 + quick;
    }
    Ran {
        stop: Stop::Limit,
        steps: limit,
    }
}
