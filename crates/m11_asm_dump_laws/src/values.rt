//! Numbers and the names of registers in lines of a disassembly.

ghost use Rattle.std.specs.Prelude.{◌≡◌, ℕ, ◌<◌};
ghost use Rattle.m11_base.specs.declared.operand.Register.{Register};
ghost use Rattle.m11_base_disassembly.specs.Numbers.{number_text};
ghost use Rattle.m11_scan.specs.Numbers.{number_flags, number_of};
ghost use Rattle.m11_scan.specs.declared.radix.Radix.TheVariants.{Octal};
ghost use Rattle.m11_scan_expressions.specs.Expressions.{KnownSymbols, value};
ghost use Rattle.m11_scan_expressions.specs.Quantities.{absolute};
ghost use Rattle.m11_asm_dump_laws.specs.Knowledge.{KnowsRegisters, register_value};
ghost use Rattle.m11_asm_dump_laws.specs.Operands.{number_written, register_written};

/// The digits of a number, without leading zeros, spell it in octal, and nothing is flagged.
#[tactic(auto, using(crate::proofs::Digits::number_read, crate::proofs::Digits::none_flagged))]
pub fn digits_spell_their_number()
    ensures value { (number : ℕ) → number < 65536 → number_of Octal (number_text number) ≡ number }
    ensures flags { (number : ℕ) → number < 65536 → number_flags Octal (number_text number) ≡ 0 }
{}

/// Where numbers are octal and the names of registers mean registers, a number that is written is this absolute number, and the name of a
/// register is this register; neither is flagged.
#[tactic(auto, using(crate::proofs::Quantities::number_value, crate::proofs::Quantities::register_read))]
pub fn numbers_and_registers_have_their_values()
    ensures number { (known : KnownSymbols) (number : ℕ) → KnowsRegisters known → number < 65536
        → value known (number_written number) ≡ absolute number 0 }
    ensures register { (known : KnownSymbols) (register : Register) → KnowsRegisters known
        → value known (register_written register) ≡ register_value register }
{}
