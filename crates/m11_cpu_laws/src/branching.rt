//! Laws about branches, SOB and MARK.

ghost use Rattle.std.specs.Prelude.{ℕ};
ghost use Rattle.m11_base.specs.declared.instruction.BranchOp.{BranchOp};
ghost use Rattle.m11_base.specs.declared.operand.Register.{Register};
ghost use Rattle.m11_cpu_machine.specs.declared.machine.Machine.{Machine};
ghost use Rattle.m11_cpu_laws.specs.Branching.{BranchGoes, MarkGoes, SobGoes};

/// A branch whose condition holds goes forward or back by its number of words, counted from the word after the branch; a branch whose
/// condition doesn't hold changes nothing. SOB subtracts 1 from its register, and goes back by its number of words if the result isn't 0;
/// for SOB with the program counter the law covers only the result 0. If the word that MARK pops is in memory, MARK sets the stack pointer
/// to the program counter, which is past the code of MARK, plus MARK's number of words; then it goes to the address in register 5, and pops
/// register 5. The condition codes stay unchanged. (PDP-11/40 Processor Handbook, branches, SOB, MARK.)
pub fn branches_go()
    ensures branch { (operation : BranchOp) (m : Machine) → BranchGoes operation m }
    ensures sob { (register : Register) (words : ℕ) (m : Machine) → SobGoes register words m }
    ensures mark { (number : ℕ) (m : Machine) → MarkGoes number m }
{}
