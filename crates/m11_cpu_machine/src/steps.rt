//! Steps: one instruction each, with its traps. (PDP-11/40 Processor Handbook, "Processor traps", "Trace trap".)

ghost use Rattle.m11_cpu_machine.specs.Dialogue.{Does, both, output_alone};
ghost use Rattle.m11_cpu_machine.specs.Steps.{ended, instruction, step, turned};

use crate::abort::{Abort, Vector};
use crate::execution::Ending;
use crate::machine::Machine;
use crate::stop::{Stop, Turn};
use m11_base::{Feed, Sink, decode};

impl Machine {
    /// Executes the instruction at the program counter, with the traps that it leads to.
    ///
    /// A byte is read from `feed` only when the program asks for it, never ahead of time, and a byte that the program sends goes to `sink`
    /// at once. A stop other than `Halt` and `Wait` lasts: each further step returns it and changes nothing. After `Halt` and `Wait` a
    /// further step goes on. The call allocates nothing.
    #[inline(always)]
    pub fn step<F: Feed, S: Sink>(&mut self, feed: &mut F, sink: &mut S) -> Turn
        ensures { Does (step self.old)
            (both (F.text feed.old) (F.faults feed.old) (S.text sink.old) (S.faults sink.old))
            (both (F.text feed.new) (F.faults feed.new) (S.text sink.new) (S.faults sink.new))
            (result, self.new) }
    {
        if let Some(stop) = self.stopped {
            return Turn::Stopped(stop.stop());
        }
        let ending = self.instruction(feed, sink);
        self.turned(ending, sink)
    }

    // Reads the word at the program counter and executes its instruction.
    #[inline(always)]
    fn instruction<F: Feed, S: Sink>(&mut self, feed: &mut F, sink: &mut S) -> Result<Ending, Abort>
        ensures { Does (instruction self.old)
            (both (F.text feed.old) (F.faults feed.old) (S.text sink.old) (S.faults sink.old))
            (both (F.text feed.new) (F.faults feed.new) (S.text sink.new) (S.faults sink.new))
            (result, self.new) }
    {
        let word = self.next_word(feed)?;
        self.execute(decode(word), feed, sink)
    }

    // The turn after an instruction: the next one follows, a trap is taken, or the machine stops.
    #[tactic(auto, using(crate::proofs::Dialogues::dialogues), unfolding(crate::specs::Steps::turned))]
    #[inline(always)]
    fn turned<S: Sink>(&mut self, ending: Result<Ending, Abort>, sink: &mut S) -> Turn
        ensures { Does (turned ending self.old) (output_alone (S.text sink.old) (S.faults sink.old))
            (output_alone (S.text sink.new) (S.faults sink.new)) (result, self.new) }
    {
        match ending {
            Ok(Ending::Next) => self.ended(sink),
            Ok(Ending::Untraced) => Turn::Next,
            Ok(Ending::Halts) => Turn::Stopped(Stop::Halt),
            Ok(Ending::Waits) => Turn::Stopped(Stop::Wait),
            Err(Abort::Traps(vector)) => self.trap(vector, sink),
            Err(Abort::Stops(stop)) => self.stop_by(stop),
        }
    }

    // The turn after a completed instruction that isn't RTT, HALT or WAIT: a trace trap if T is set, otherwise the next instruction.
    #[tactic(auto, using(crate::proofs::Dialogues::dialogues), unfolding(crate::specs::Steps::ended))]
    #[inline(always)]
    fn ended<S: Sink>(&mut self, sink: &mut S) -> Turn
        ensures { Does (ended self.old) (output_alone (S.text sink.old) (S.faults sink.old))
            (output_alone (S.text sink.new) (S.faults sink.new)) (result, self.new) }
    {
        if self.status.trace {
            return self.trap(Vector::Breakpoint, sink);
        }
        Turn::Next
    }
}
