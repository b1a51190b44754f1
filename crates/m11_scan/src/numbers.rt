//! The value and the error flags of a number in a source. (MACRO-11 Language Reference Manual, "Numbers".)

ghost use Rattle.std.specs.Prelude.{◌≡◌, ◌-◌, ◌%◌, ◌≤◌, nat_lt};
ghost use Rattle.m11_scan.specs.Numbers.{has_digit_outside, number_flags, number_of, spelled};
ghost use Rattle.m11_scan.specs.Views.{bits_of};

use crate::flags::ErrorFlags;
use crate::radix::Radix;

/// A number as a word, and its error flags.
#[derive(Clone, Copy, PartialEq, Eq)]
pub struct Number {
    /// The number modulo 65536.
    pub value: u16,
    /// N for a digit outside the radix, T for a number over 65535, Q if no characters follow `^R`.
    pub flags: ErrorFlags,
}

/// The number that digits spell in a radix. A character that isn't a digit counts as its code less 48, or as 0 if its code is
/// below 48. A number with a digit outside the radix is read as decimal and flagged N; one over 65535 is reduced modulo 65536 and
/// flagged T.
pub fn read_number(digits: &[u8], radix: Radix) -> Number
    ensures value { result.value ≡ number_of radix digits.now % 65536 }
    ensures flags { bits_of result.flags ≡ number_flags radix digits.now }
{
    let is_outside = has_digit_outside(digits, radix.base());
    let base = if is_outside { 10 } else { radix.base() };
    let (value, is_large) = spell(digits, base);
    let flags = ErrorFlags::T
        .when(is_large)
        .with(ErrorFlags::N.when(is_outside));
    Number { value, flags }
}

// Whether any of the digits is outside a base.
fn has_digit_outside(digits: &[u8], base: u32) -> bool
    requires { base ≤ 10 }
    ensures { result ≡ has_digit_outside base digits.now }
{
    let limit = base + 48;
    digits.iter().any(|digit| u32::from(*digit) >= limit)
}

// The number that digits spell in a base, modulo 65536, and whether the number itself is over 65535.
#[tactic(auto, using(crate::proofs::Spelling::steps))]
fn spell(digits: &[u8], base: u32) -> (u16, bool)
    requires least { 2 ≤ base }
    requires most { base ≤ 10 }
    ensures value { result.0 ≡ spelled base digits.now % 65536 }
    ensures large { result.1 ≡ nat_lt 65535 (spelled base digits.now) }
{
    let mut value: u32 = 0;
    let mut is_large = false;
    'digits: for digit in digits {
        let next = value * base + digit_value(*digit);
        if next > 65535 {
            is_large = true;
        }
        value = next % 65536;
    }
    (value as u16, is_large)
}

fn digit_value(digit: u8) -> u32
    ensures value { result ≡ digit - 48 }
    ensures most { result ≤ 255 }
{
    u32::from(digit.saturating_sub(b'0'))
}
