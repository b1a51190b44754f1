//! Laws about the rest of a step after its instruction.

ghost use Rattle.m11_cpu_machine.specs.declared.machine.Machine.{Machine};
ghost use Rattle.m11_cpu_laws.specs.Tracing.{InstructionAborts, InstructionEnds};
ghost use Rattle.m11_cpu_laws.specs.Writes.{MakesSteps};

/// The trace trap. If the instruction at the program counter ended without an abort, and isn't RTT, HALT or WAIT, the rest of the step is
/// the trap through 14 if the instruction left T set, and nothing if it left T clear. Nothing follows RTT, HALT and WAIT. After an aborted
/// instruction only its own trap or its stop follows, whatever T is. (PDP-11/40 Processor Handbook, "Trace trap".)
#[tactic(auto, using(crate::proofs::TracesFollow::instruction_ends, crate::proofs::TracesFollow::instruction_aborts))]
pub fn trace_trap_follows()
    ensures ended { (m : Machine) → MakesSteps m → InstructionEnds m }
    ensures aborted { (m : Machine) → MakesSteps m → InstructionAborts m }
{}
