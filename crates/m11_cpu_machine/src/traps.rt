//! Traps. (PDP-11/40 Processor Handbook, "Processor traps".)

ghost use Rattle.std.specs.Prelude.{◌≡◌, ◌%◌};
ghost use Rattle.m11_cpu_machine.specs.Dialogue.{Does, output_alone};
ghost use Rattle.m11_cpu_machine.specs.Memory.{word_at};
ghost use Rattle.m11_cpu_machine.specs.Traps.{push_state, stopped_by, trap, vectored};

use crate::abort::{Abort, Vector};
use crate::machine::Machine;
use crate::status::ProcessorStatus;
use crate::stop::{LastingStop, Turn};
use m11_base::{Register, Sink};

impl Machine {
    /// Takes a trap: pushes the processor status and the program counter, and then loads both from the vector. If they can't be pushed, the
    /// machine stops for good, and the vector isn't loaded.
    #[cold]
    #[inline(never)]
    pub(crate) fn trap<S: Sink>(&mut self, vector: Vector, sink: &mut S) -> Turn
        ensures { Does (trap vector self.old) (output_alone (S.text sink.old) (S.faults sink.old))
            (output_alone (S.text sink.new) (S.faults sink.new)) (result, self.new) }
    {
        match self.push_state(sink) {
            Ok(()) => {
                self.load_vector(vector);
                Turn::Next
            }
            Err(Abort::Traps(_)) => self.stop_by(LastingStop::StackFault),
            Err(Abort::Stops(stop)) => self.stop_by(stop),
        }
    }

    // Pushes the processor status and then the program counter.
    fn push_state<S: Sink>(&mut self, sink: &mut S) -> Result<(), Abort>
        ensures { Does (push_state self.old) (output_alone (S.text sink.old) (S.faults sink.old))
            (output_alone (S.text sink.new) (S.faults sink.new)) (result, self.new) }
    {
        self.push(self.status.bits(), sink)?;
        self.push(self.register(Register::Pc), sink)
    }

    // Loads the program counter and the processor status from a vector.
    fn load_vector(&mut self, vector: Vector)
        ensures { self.new ≡ vectored vector self.old }
    {
        let address = vector as u16;
        let status = self.vector_word(address + 2);
        self.set_register(Register::Pc, self.vector_word(address));
        self.status = ProcessorStatus::of_bits(status);
    }

    // A word of a vector, at an even address. Every machine has memory there; past its end the word would be 0.
    fn vector_word(&self, address: u16) -> u16
        requires { address % 2 ≡ 0 }
        ensures { result ≡ word_at self.now.memory address }
    {
        if self.memory.holds(address) {
            self.memory.word(address)
        } else {
            0
        }
    }

    /// Stops the machine for good, and returns this stop.
    pub(crate) fn stop_by(&mut self, stop: LastingStop) -> Turn
        ensures { (result, self.new) ≡ stopped_by stop self.old }
    {
        self.stopped = Some(stop);
        Turn::Stopped(stop.stop())
    }
}
