//! Shifts by several places. (PDP-11/40 Processor Handbook, "Extended instruction set".)

ghost use Rattle.std.specs.Prelude.{◌≡◌, ◌<◌, ◌≤◌, ◌%◌, ◌*◌, ◌-◌, ◌^◌, pos, ◌*ℤ◌, FitsSigned};
ghost use Rattle.std.specs.Int.{w32};
ghost use Rattle.m11_cpu_arithmetic.specs.Shifts.{places, shifted, last_bit, digit, shift_result, shift_pair_result};

use crate::extended::joined;
use crate::results::{Computed, Pair, pair_of, with_codes};
use m11_base::Size;

/// The result of ASH on its register. The six lowest bits of `count`, read as a signed number, are the number of places by which the word
/// is shifted: to the left, or to the right if that number is negative. C is the last bit shifted out, or clear if there is none; V is set
/// if the sign changed at any point of the shift. (PDP-11/40 Processor Handbook, "Extended instruction set": ASH.)
#[tactic(auto, unfolding(crate::specs::Shifts::shift_result))]
pub fn shift(value: u16, count: u16) -> Computed
    ensures { result ≡ shift_result value count }
{
    let number = i64::from(value.cast_signed());
    let moved = shifted(number, count);
    with_codes(
        Size::Word,
        (moved.cast_unsigned() % 0o200000) as u16,
        moved < -0o100000 || 0o077777 < moved,
        last_bit(16, number, count),
    )
}

/// The result of ASHC on the 32 bits of two words. The six lowest bits of `count`, read as a signed number, are the number of places by
/// which the bits are shifted: to the left, or to the right if that number is negative. C is the last bit shifted out, or clear if there is
/// none; V is set if the sign changed at any point of the shift. (PDP-11/40 Processor Handbook, "Extended instruction set": ASHC.)
#[tactic(auto, unfolding(crate::specs::Shifts::shift_pair_result))]
pub fn shift_pair(high: u16, low: u16, count: u16) -> Pair
    ensures { result ≡ shift_pair_result high low count }
{
    let number = i64::from(joined(high, low));
    let moved = shifted(number, count);
    pair_of(
        (moved.cast_unsigned() % 0o40000000000) as u32,
        moved < -0o20000000000 || 0o17777777777 < moved,
        last_bit(32, number, count),
    )
}

// A signed number of at most 32 bits, shifted. The six lowest bits of `count`, read as a signed number, are the number of places by which
// it is shifted: to the left, or to the right if the number of places is negative. A shift to the right rounds down.
fn shifted(number: i64, count: u16) -> i64
    requires { FitsSigned w32 number }
    ensures { result ≡ shifted number (places count) }
{
    if count % 64 < 32 {
        moved_left(number, count % 64)
    } else {
        number >> (64 - count % 64)
    }
}

// A number of at most 32 bits, doubled `count` times.
fn moved_left(number: i64, count: u16) -> i64
    requires number { FitsSigned w32 number }
    requires count { count < 32 }
    ensures { result ≡ number *ℤ pos (2 ^ count) }
{
    number << count
}

// The last bit that `shifted` shifts out of a number of `width` bits; clear if the number of places is 0.
fn last_bit(width: u16, number: i64, count: u16) -> bool
    requires number { FitsSigned w32 number }
    requires width { width ≤ 32 }
    ensures { result ≡ last_bit width number (places count) }
{
    let count = count % 64;
    if count == 0 {
        return false;
    }
    if count < 32 {
        digit(moved_left(number, count), width)
    } else {
        digit(number, 63 - count)
    }
}

// Whether bit `power` of a number in two's complement is set; bit 0 is the lowest.
fn digit(number: i64, power: u16) -> bool
    requires { power < 64 }
    ensures { result ≡ digit number power }
{
    (number >> power).cast_unsigned() % 2 == 1
}
