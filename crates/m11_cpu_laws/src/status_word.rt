//! Laws about storing to the processor status word and loading it.

ghost use Rattle.std.specs.Prelude.{◌≡◌, false, List, Result};
ghost use Rattle.m11_base.specs.declared.instruction.BareOp.{BareOp};
ghost use Rattle.m11_base.specs.declared.instruction.DoubleOp.{DoubleOp};
ghost use Rattle.m11_base.specs.declared.instruction.Insn.{Insn};
ghost use Rattle.m11_base.specs.declared.instruction.SingleOp.{SingleOp};
ghost use Rattle.m11_base.specs.declared.operand.Operand.{Operand};
ghost use Rattle.m11_base.specs.declared.operand.Register.{Register};
ghost use Rattle.m11_base.specs.declared.operand.Size.{Size};
ghost use Rattle.m11_cpu_machine.specs.Dialogue.{Exchange, Leads};
ghost use Rattle.m11_cpu_machine.specs.Execution.{execute};
ghost use Rattle.m11_cpu_machine.specs.declared.abort.Abort.{Abort};
ghost use Rattle.m11_cpu_machine.specs.declared.abort.Vector.{Vector};
ghost use Rattle.m11_cpu_machine.specs.declared.execution.Ending.{Ending};
ghost use Rattle.m11_cpu_machine.specs.declared.machine.Machine.{Machine};
ghost use Rattle.m11_cpu_laws.specs.StatusWord.{CallsAtStatus, DoublesAtStatus, ExclusivesAtStatus, loads_trace, ReturnsLoad, SinglesAtStatus, TrapsLoad};

/// A store to the processor status word replaces all of it except T. If the destination of an instruction, word or byte, is at
/// 177776, the result becomes the whole status word except T, and the instruction's own condition codes are lost; the same holds
/// for a register that JSR pushes there. A byte stored at 177777 is ignored, the byte there reads as 0, and the condition codes are
/// those of the instruction. (PDP-11/40 Processor Handbook, "Processor status word".)
#[tactic(auto, using(crate::proofs::StatusStored::calls_at_status))]
pub fn status_word_becomes_what_is_stored()
    ensures doubles { (operation : DoubleOp) (size : Size) (source destination : Operand) (m : Machine)
        → DoublesAtStatus operation size source destination m }
    ensures singles { (operation : SingleOp) (size : Size) (operand : Operand) (m : Machine)
        → SinglesAtStatus operation size operand m }
    ensures exclusive { (register : Register) (operand : Operand) (m : Machine) → ExclusivesAtStatus register operand m }
    ensures call { (register : Register) (operand : Operand) (m : Machine) → CallsAtStatus register operand m }
{}

/// No instruction but RTI and RTT changes T, whatever it stores or pushes, even if it is aborted. RTI and RTT load T, with the
/// whole status word, from the second word that they pop, and a trap loads the whole status word from the second word of its
/// vector. (PDP-11/40 Processor Handbook, "Trace trap", "Processor traps", RTI, RTT.)
#[tactic(auto, using(crate::proofs::StatusPreserved::trace_stays, crate::proofs::StatusPreserved::traps_load, crate::proofs::StatusStored::returns_load))]
pub fn trace_bit_stays()
    ensures stays { (code : Insn) (m m' : Machine) (came : Result Ending Abort) (exchanges : List Exchange)
        → loads_trace code ≡ false → Leads (execute code m) exchanges (came, m') → m'.status.trace ≡ m.status.trace }
    ensures returns { (operation : BareOp) (m : Machine) → ReturnsLoad operation m }
    ensures traps { (vector : Vector) (m : Machine) → TrapsLoad vector m }
{}
