//! A law about the bytes of memory that a step may write.

ghost use Rattle.std.specs.Prelude.{List};
ghost use Rattle.m11_cpu_machine.specs.Dialogue.{Exchange, Leads};
ghost use Rattle.m11_cpu_machine.specs.Steps.{step};
ghost use Rattle.m11_cpu_machine.specs.Traps.{trap};
ghost use Rattle.m11_cpu_machine.specs.declared.abort.Vector.{Vector};
ghost use Rattle.m11_cpu_machine.specs.declared.machine.Machine.{Machine};
ghost use Rattle.m11_cpu_machine.specs.declared.stop.Turn.{Turn};
ghost use Rattle.m11_cpu_laws.specs.Writes.{MakesSteps, StaysBut, StepWrites, two_pushed};

/// A step changes neither the size of memory nor any byte of it, except two kinds of bytes. The first are those of the instruction's
/// destination in the handbook: the word or byte of the operand that it stores to, whose address is formed after a source is fetched, and
/// for JSR the word below the stack pointer. The others are the two words below the stack pointer that a trap pushes, if the instruction
/// traps or a trace trap follows it. If an instruction is aborted, by a trap or a failed device, at most registers and the console have
/// changed. (PDP-11/40 Processor Handbook, "Instruction set", "Processor traps".)
#[tactic(auto, using(crate::proofs::StepsWrite::step_writes, crate::proofs::StepsWrite::trap_writes))]
pub fn memory_stays()
    ensures step { (m m' : Machine) (turn : Turn) (exchanges : List Exchange) → MakesSteps m
        → Leads (step m) exchanges (turn, m') → StepWrites m exchanges m' }
    ensures trap { (vector : Vector) (m m' : Machine) (turn : Turn) (exchanges : List Exchange)
        → Leads (trap vector m) exchanges (turn, m') → StaysBut (two_pushed m) m m' }
{}
