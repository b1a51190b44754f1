//! The operations on a source and a destination. (PDP-11/40 Processor Handbook, "Instruction set".)

ghost use Rattle.std.specs.Prelude.{◌≡◌, ◌<◌};
ghost use Rattle.m11_cpu_arithmetic.specs.Sizes.{size_limit};
ghost use Rattle.m11_cpu_arithmetic.specs.Doubles.{sum, difference, double_result, exclusive_or_result};

use crate::results::{Computed, exact_result, with_codes};
use crate::sizes::{complement, signed};
use m11_base::{ConditionCodes, DoubleOp, Size};

/// The result of an operation on its source and its destination. `codes` are the condition codes before the operation. Byte operands are
/// below octal 400, and so is their result. The results of CMP and BIT are stored nowhere. (PDP-11/40 Processor Handbook, "Instruction
/// set": double operand instructions.)
#[tactic(auto, unfolding(crate::specs::Doubles::double_result))]
#[inline(always)]
pub fn double(
    operation: DoubleOp,
    size: Size,
    source: u16,
    destination: u16,
    codes: ConditionCodes,
) -> Computed
    requires source { source < size_limit size }
    requires destination { destination < size_limit size }
    ensures computed { result ≡ double_result operation size source destination codes }
    ensures within { result.value < size_limit size }
{
    match operation {
        DoubleOp::Mov => with_codes(size, source, false, codes.carry),
        DoubleOp::Cmp => difference(size, source, destination),
        DoubleOp::Bit => with_codes(size, source & destination, false, codes.carry),
        DoubleOp::Bic => with_codes(
            size,
            complement(size, source) & destination,
            false,
            codes.carry,
        ),
        DoubleOp::Bis => with_codes(size, source | destination, false, codes.carry),
        DoubleOp::Add => sum(size, destination, source),
        DoubleOp::Sub => difference(size, destination, source),
    }
}

/// The result of XOR on its register and its destination. `codes` are the condition codes before the operation. (PDP-11/40
/// Processor Handbook, "Instruction set": XOR.)
#[tactic(auto, unfolding(crate::specs::Doubles::exclusive_or_result))]
pub fn exclusive_or(register: u16, destination: u16, codes: ConditionCodes) -> Computed
    ensures { result ≡ exclusive_or_result register destination codes }
{
    with_codes(Size::Word, register ^ destination, false, codes.carry)
}

// The sum of two values, with its condition codes: C is the carry.
#[inline(always)]
pub(crate) fn sum(size: Size, first: u16, second: u16) -> Computed
    requires first { first < size_limit size }
    requires second { second < size_limit size }
    ensures { result ≡ sum size first second }
{
    exact_result(
        size,
        i32::from(first) + i32::from(second),
        signed(size, first) + signed(size, second),
    )
}

// The first value minus the second, with the condition codes: C is the borrow.
#[inline(always)]
pub(crate) fn difference(size: Size, first: u16, second: u16) -> Computed
    requires first { first < size_limit size }
    requires second { second < size_limit size }
    ensures { result ≡ difference size first second }
{
    exact_result(
        size,
        i32::from(first) - i32::from(second),
        signed(size, first) - signed(size, second),
    )
}
