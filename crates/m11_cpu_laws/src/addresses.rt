//! Laws about addresses at which there is no word or no byte, and about which accesses of an instruction trap.

ghost use Rattle.std.specs.Prelude.{List, ℕ};
ghost use Rattle.m11_base.specs.declared.instruction.Insn.{Insn};
ghost use Rattle.m11_base.specs.declared.instruction.Insn.TheVariants as insn;
ghost use Rattle.m11_base.specs.declared.instruction.RegisterOp.TheVariants.{Jsr};
ghost use Rattle.m11_base.specs.declared.instruction.SingleOp.TheVariants.{Jmp};
ghost use Rattle.m11_base.specs.declared.operand.Operand.{Operand};
ghost use Rattle.m11_base.specs.declared.operand.Register.{Register};
ghost use Rattle.m11_base.specs.declared.operand.Size.{Size};
ghost use Rattle.m11_cpu_machine.specs.Access.{load_byte, load_word, store_byte, store_word};
ghost use Rattle.m11_cpu_machine.specs.Dialogue.{Exchange, Leads};
ghost use Rattle.m11_cpu_machine.specs.Steps.{step};
ghost use Rattle.m11_cpu_machine.specs.declared.abort.Vector.{Vector};
ghost use Rattle.m11_cpu_machine.specs.declared.machine.Machine.{Machine};
ghost use Rattle.m11_cpu_machine.specs.declared.stop.Stop.TheVariants.{StackFault};
ghost use Rattle.m11_cpu_machine.specs.declared.stop.Turn.{Turn};
ghost use Rattle.m11_cpu_machine.specs.declared.stop.Turn.TheVariants.{Stopped};
ghost use Rattle.m11_cpu_laws.specs.Accesses.{CodeTraps, InstructionTraps};
ghost use Rattle.m11_cpu_laws.specs.Writes.{MakesSteps};
ghost use Rattle.m11_cpu_laws.specs.Addresses.{no_byte_at, no_word_at, StepFaulted, StepFaults, TrapFaults, TrapsThrough10, TrapsWhere};

/// Bad addresses trap. A load or a store of a word traps through 4 if and only if the address is odd, or is neither in memory nor that of a
/// console register or of the processor status word. A load or a store of a byte does so if and only if the address is neither in memory
/// nor in the word of such a register. JMP and JSR to a register trap through 10. If no device fails at a trap's pushes, the trap stops
/// with STACK FAULT if and only if a push finds no word. A step of a machine without a lasting stop ends with STACK FAULT if and only if
/// its instruction's trap or the trace trap follows and finds no word for a push, and no device stops the step. (PDP-11/40 Processor
/// Handbook, "Processor traps", JMP, JSR.)
#[tactic(auto, using(crate::proofs::AddressesTrap::load_word_traps, crate::proofs::AddressesTrap::load_byte_traps, crate::proofs::AddressesTrap::store_word_traps, crate::proofs::AddressesTrap::store_byte_traps, crate::proofs::AddressesTrap::jump_traps, crate::proofs::AddressesTrap::call_traps, crate::proofs::AddressesTrap::trap_faults, crate::proofs::StackFaults::step_faulted, crate::proofs::StackFaults::step_faults))]
pub fn bad_addresses_trap()
    ensures loads_word { (address : ℕ) (m : Machine) → TrapsWhere (no_word_at address m) (load_word address m) }
    ensures loads_byte { (address : ℕ) (m : Machine) → TrapsWhere (no_byte_at address m) (load_byte address m) }
    ensures stores_word { (address word : ℕ) (m : Machine)
        → TrapsWhere (no_word_at address m) (store_word address word m) }
    ensures stores_byte { (address byte : ℕ) (m : Machine)
        → TrapsWhere (no_byte_at address m) (store_byte address byte m) }
    ensures jump { (size : Size) (operand : Operand) (m : Machine)
        → TrapsThrough10 (insn.Single Jmp size operand) operand m }
    ensures call { (register : Register) (operand : Operand) (m : Machine)
        → TrapsThrough10 (insn.Register Jsr register operand) operand m }
    ensures push { (vector : Vector) (m : Machine) → TrapFaults vector m }
    ensures step { (m m' : Machine) (exchanges : List Exchange) → MakesSteps m
        → Leads (step m) exchanges (Stopped StackFault, m') → StepFaulted m exchanges m' }
    ensures step_exactly { (m m' : Machine) (turn : Turn) (exchanges : List Exchange) → MakesSteps m
        → Leads (step m) exchanges (turn, m') → StepFaults m exchanges turn }
{}

/// An instruction traps through 4 only because of its accesses. First the word at the program counter is read, which traps through 4 if
/// and only if nothing is there. After that the instruction traps through 4 if and only if one of its accesses finds nothing. As in the
/// handbook, these accesses are to the index words and pointers of the instruction's operands, to the operands themselves other than the
/// destinations of JMP and JSR, and to the words that the instruction pushes and pops. The address of each access is formed after
/// everything that the instruction does before that access. (PDP-11/40 Processor Handbook, "Addressing modes", "Instruction set",
/// "Processor traps".)
pub fn accesses_alone_trap()
    ensures code { (m : Machine) → CodeTraps m }
    ensures instruction { (code : Insn) (m : Machine) → InstructionTraps code m }
{}
