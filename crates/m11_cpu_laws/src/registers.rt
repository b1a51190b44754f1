//! Laws about the registers that a step may change, and about the extended instruction set with an odd register.

ghost use Rattle.std.specs.Prelude.{[], ◌∷◌, List, ℕ, Result};
ghost use Rattle.m11_base.specs.Operand.{register_number};
ghost use Rattle.m11_base.specs.declared.instruction.Insn.{Insn};
ghost use Rattle.m11_base.specs.declared.operand.Register.{Register};
ghost use Rattle.m11_base.specs.declared.operand.Register.TheVariants.{Sp};
ghost use Rattle.m11_cpu_machine.specs.Dialogue.{Exchange, Leads};
ghost use Rattle.m11_cpu_machine.specs.Execution.{execute};
ghost use Rattle.m11_cpu_machine.specs.Addressing.{next_word};
ghost use Rattle.m11_cpu_machine.specs.Steps.{step};
ghost use Rattle.m11_cpu_machine.specs.Traps.{trap};
ghost use Rattle.m11_cpu_machine.specs.declared.abort.Abort.{Abort};
ghost use Rattle.m11_cpu_machine.specs.declared.abort.Vector.{Vector};
ghost use Rattle.m11_cpu_machine.specs.declared.execution.Ending.{Ending};
ghost use Rattle.m11_cpu_machine.specs.declared.machine.Machine.{Machine};
ghost use Rattle.m11_cpu_machine.specs.declared.stop.Turn.{Turn};
ghost use Rattle.m11_cpu_laws.specs.OddRegisters.{OddRegisters};
ghost use Rattle.m11_cpu_laws.specs.Registers.{changed_by, RegistersStay, StepRegisters};
ghost use Rattle.m11_cpu_laws.specs.Writes.{MakesSteps};

/// All registers stay unchanged except the following. Fetching a word changes at most the program counter. An instruction, even an aborted
/// one, changes at most the program counter; the registers that the modes of its operands increment or decrement; a register that it stores
/// to; for MUL, DIV and ASHC, their register R and the register whose number is R's with the lowest bit set; for ASH and SOB, their
/// register; for JSR and RTS, the register and the stack pointer; for MARK, register 5 and the stack pointer; and for RTI and RTT, the
/// stack pointer. A trap changes at most the program counter and the stack pointer. A step changes at most what its instruction changes,
/// even if that is aborted, and then the program counter and the stack pointer if a trap follows, including the trace trap. (PDP-11/40
/// Processor Handbook, "Addressing modes", "Instruction set".)
#[tactic(auto, using(crate::proofs::StepsPreserveRegisters::execute_stays, crate::proofs::StepsPreserveRegisters::trap_stays, crate::proofs::StepsPreserveRegisters::step_stays, crate::proofs::StepsPreserveRegisters::fetch_stays))]
pub fn registers_stay()
    ensures fetch { (m m' : Machine) (came : Result ℕ Abort) (exchanges : List Exchange)
        → Leads (next_word m) exchanges (came, m') → RegistersStay [] m m' }
    ensures instruction { (code : Insn) (m m' : Machine) (came : Result Ending Abort) (exchanges : List Exchange)
        → Leads (execute code m) exchanges (came, m') → RegistersStay (changed_by code) m m' }
    ensures trap { (vector : Vector) (m m' : Machine) (turn : Turn) (exchanges : List Exchange)
        → Leads (trap vector m) exchanges (turn, m') → RegistersStay (register_number Sp ∷ []) m m' }
    ensures step { (m m' : Machine) (turn : Turn) (exchanges : List Exchange) → MakesSteps m
        → Leads (step m) exchanges (turn, m') → StepRegisters m exchanges m' }
{}

/// An odd register serves as both words of its pair. MUL leaves the low word of the product in it. DIV uses it as both words of
/// the dividend and leaves the remainder in it, or leaves it unchanged if the division is refused. ASHC shifts both words
/// together, each of which is this register, and leaves the low word in it. The laws of m11_cpu_arithmetic say what these words are.
/// (PDP-11/40 Processor Handbook, "Extended instruction set".)
#[tactic(auto, using(crate::proofs::BothWords::odd_registers))]
pub fn odd_registers_are_both_words()
    ensures { (register : Register) (source : ℕ) (m : Machine) → OddRegisters register source m }
{}
