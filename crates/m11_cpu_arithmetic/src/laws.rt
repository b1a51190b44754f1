//! Laws of results and condition codes, in the words of the handbook. Each is a fact about the definitions that the operations meet.
//! (PDP-11/40 Processor Handbook, "Instruction set" and "Extended instruction set".)

ghost use Rattle.std.specs.Prelude.{◌≡◌, ◌<◌, ℕ, pos, neg_ℤ};
ghost use Rattle.m11_base.specs.declared.instruction.ConditionCodes.{ConditionCodes};
ghost use Rattle.m11_base.specs.declared.operand.Size.TheVariants.{Word, Byte};
ghost use Rattle.m11_cpu_arithmetic.specs.Sizes.{signed};
ghost use Rattle.m11_cpu_arithmetic.specs.Extended.{joined, division_of};
ghost use Rattle.m11_cpu_arithmetic.specs.Shifts.{places, shift_pair_result, shift_result};
ghost use Rattle.m11_cpu_arithmetic.specs.Laws.{CompareThenBranch, Adds, double_word, Subtracts, IsPairShiftedLeft, IsPairShiftedRight, IsProduct, IsDivided, IsShiftedLeft, IsShiftedRight};

/// After CMP each branch that is named after a relation is taken if and only if the relation holds between the source and the
/// destination: BLT, BGE, BGT and BLE for signed numbers; BLO, BHIS, BHI and BLOS for unsigned ones; BEQ and BNE for both. BLO is
/// BCS, and BHIS is BCC.
pub fn branches_after_compare()
    ensures words { CompareThenBranch Word }
    ensures bytes { CompareThenBranch Byte }
{}

/// ADD of the low words, ADC to the high word of the destination and ADD of the high words together add two numbers of 32 bits. The result
/// is the sum modulo 2 to the power of 32; the sum has a carry if and only if C is set after ADC or after the last ADD.
pub fn double_precision_addition()
    ensures { (source_high source_low high low : ℕ) (codes : ConditionCodes) → source_high < 0o200000
        → source_low < 0o200000
        → high < 0o200000 → low < 0o200000 → Adds source_high source_low high low codes }
{}

/// SUB of the low words, SBC from the high word of the destination and SUB of the high words together subtract two numbers of 32 bits. The
/// result is the difference modulo 2 to the power of 32; there is a borrow if and only if C is set after SBC or after the last SUB.
pub fn double_precision_subtraction()
    ensures { (source_high source_low high low : ℕ) (codes : ConditionCodes) → source_high < 0o200000
        → source_low < 0o200000
        → high < 0o200000 → low < 0o200000 → Subtracts source_high source_low high low codes }
{}

/// The two words of the result of MUL together are the exact product of its operands, all as signed numbers.
pub fn multiplication()
    ensures { (register source : ℕ) → register < 0o200000 → source < 0o200000 → IsProduct register source }
{}

/// If DIV clears V, quotient and remainder are those of the exact numbers: the dividend is the quotient times the divisor plus the
/// remainder, which is smaller in magnitude than the divisor, and is 0 or has the dividend's sign. If DIV sets V, the divisor is 0,
/// or no two words are such a quotient and remainder.
pub fn division()
    ensures { (high low divisor : ℕ) → high < 0o200000 → low < 0o200000 → divisor < 0o200000
        → IsDivided (joined high low) (signed Word divisor) (division_of high low divisor) }
{}

/// ASH by n places to the left gives the value times 2 to the n modulo 65,536, as n doubling steps do; V is set if and only if the sign
/// after some step differs from the sign before the first, and C is the bit shifted out at the last step. ASH by n places to the right
/// gives the value, as a signed number, divided by 2 to the n and rounded down, as n halving steps do; V is clear, and C is the bit shifted
/// out at the last step. If n is 0, C is clear. ASHC does the same to the 32 bits of two words.
pub fn arithmetic_shifts()
    ensures left { (value count n : ℕ) → value < 0o200000 → places count ≡ pos n
        → IsShiftedLeft value n (shift_result value count) }
    ensures right { (value count n : ℕ) → value < 0o200000 → places count ≡ neg_ℤ (pos n)
        → IsShiftedRight value n (shift_result value count) }
    ensures pair_left { (high low count n : ℕ) → high < 0o200000 → low < 0o200000 → places count ≡ pos n
        → IsPairShiftedLeft (double_word high low) n (shift_pair_result high low count) }
    ensures pair_right { (high low count n : ℕ) → high < 0o200000 → low < 0o200000 → places count ≡ neg_ℤ (pos n)
        → IsPairShiftedRight (double_word high low) n (shift_pair_result high low count) }
{}
