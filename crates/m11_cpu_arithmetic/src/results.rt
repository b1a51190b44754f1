//! Results with the condition codes that they set.

ghost use Rattle.std.specs.Prelude.{◌≡◌, ◌<◌, ◌/◌, ◌%◌};
ghost use Rattle.m11_cpu_arithmetic.specs.Sizes.{size_limit};
ghost use Rattle.m11_cpu_arithmetic.specs.Results.{with_codes, exact_result, pair_of};

use crate::sizes::{is_outside, kept, overflows, signed};
use m11_base::{ConditionCodes, Size};

/// A result and the condition codes that it sets.
#[derive(Clone, Copy, PartialEq, Eq)]
pub struct Computed {
    /// A word, or a byte as a number below octal 400.
    pub value: u16,
    /// N, Z, V and C.
    pub codes: ConditionCodes,
}

/// A result of 32 bits in two words, and the condition codes that it sets.
#[derive(Clone, Copy, PartialEq, Eq)]
pub struct Pair {
    /// The upper 16 bits.
    pub high: u16,
    /// The lower 16 bits.
    pub low: u16,
    /// N, Z, V and C.
    pub codes: ConditionCodes,
}

/// The result of a division: a quotient and a remainder, or a refusal.
#[derive(Clone, Copy, PartialEq, Eq)]
pub enum Division {
    /// The quotient and the remainder, and the codes that they set.
    Done {
        quotient: u16,
        remainder: u16,
        codes: ConditionCodes,
    },
    /// The divisor is 0, or the quotient doesn't fit a signed word: the registers stay as they are, and these are the codes.
    Refused(ConditionCodes),
}

// A value with its condition codes: N if it is negative, Z if it is 0, and V and C as the arguments say.
#[inline(always)]
pub(crate) fn with_codes(size: Size, value: u16, overflow: bool, carry: bool) -> Computed
    requires { value < size_limit size }
    ensures { result ≡ with_codes size value overflow carry }
{
    Computed {
        value,
        codes: ConditionCodes {
            negative: signed(size, value) < 0,
            zero: value == 0,
            overflow,
            carry,
        },
    }
}

// A sum or a difference, from the exact unsigned number and the exact signed one: V if the signed one doesn't fit the size, C if the
// unsigned one doesn't.
#[inline(always)]
pub(crate) fn exact_result(size: Size, unsigned_number: i32, signed_number: i32) -> Computed
    ensures { result ≡ exact_result size unsigned_number signed_number }
{
    with_codes(
        size,
        kept(size, unsigned_number),
        overflows(size, signed_number),
        is_outside(size, unsigned_number),
    )
}

// A number of 32 bits in two words, with its condition codes: N if the highest bit is set, Z if all are 0, and V and C as the arguments
// say.
pub(crate) fn pair_of(number: u32, overflow: bool, carry: bool) -> Pair
    ensures { result ≡ pair_of number overflow carry }
{
    Pair {
        high: (number / 0o200000) as u16,
        low: (number % 0o200000) as u16,
        codes: ConditionCodes {
            negative: number.cast_signed() < 0,
            zero: number == 0,
            overflow,
            carry,
        },
    }
}
