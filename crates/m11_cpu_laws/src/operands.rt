//! Laws about where each mode finds its operand.

ghost use Rattle.std.specs.Prelude.{◌≡◌, length};
ghost use Rattle.m11_base.specs.declared.operand.Register.{Register};
ghost use Rattle.m11_base.specs.declared.operand.Size.{Size};
ghost use Rattle.m11_cpu_machine.specs.declared.machine.Machine.{Machine};
ghost use Rattle.m11_cpu_laws.specs.Operands.{EightModes, FormsOfCounter};

/// Each mode finds its operand where the handbook's table says, and changes its register as the table says. This holds for the eight modes
/// of any register, and for the four forms with the program counter, which are two of these modes and their deferred forms. Premise:
/// pointers and index words are in memory. (PDP-11/40 Processor Handbook, "Addressing modes", "Use of the PC as a general register".)
pub fn modes_find_their_operands()
    ensures modes { (register : Register) (size : Size) (m : Machine) → EightModes register size m }
    ensures forms { (size : Size) (m : Machine) → length m.registers ≡ 8 → FormsOfCounter size m }
{}
