//! Laws of states.

ghost use Rattle.std.specs.Prelude.{◌≡◌, length};
ghost use Rattle.m11_cpu_machine.specs.declared.machine.Machine.{Machine};
ghost use Rattle.m11_cpu_states.specs.States.{state_of};

/// Two machines with eight registers and the same state are the same machine.
pub fn a_state_is_of_one_machine()
    ensures { (m m' : Machine) → length m.registers ≡ 8 → length m'.registers ≡ 8 → state_of m ≡ state_of m' → m ≡ m' }
{}
