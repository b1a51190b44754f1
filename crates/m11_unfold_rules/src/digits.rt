//! The digits of a number. (MACRO-11 Language Reference Manual, "Numeric arguments passed as symbols" and "Automatic creation of local
//! symbols".)

ghost use Rattle.std.specs.Prelude.{◌≡◌, ◌≤◌, IfOk};
ghost use Rattle.m11_unfold_rules.specs.Digits.{digits_of, last_digits};

use std::alloc::{AllocError, Global};

// The most digits of a word: 16 in base 2.
const DIGIT_LIMIT: u8 = 16;

// The digits of a word in a base, without leading zeros; a single 0 for 0. Error: memory was refused.
pub(crate) fn digits_of(alloc: Global, base: u32, number: u16) -> Result<Vec<u8>, AllocError>
    requires least { 2 ≤ base }
    requires most { base ≤ 10 }
    ensures { IfOk result (λ digits. digits.items ≡ digits_of base number) }
{
    last_digits(alloc, base, number, DIGIT_LIMIT)
}

// The last `bound` digits of a word in a base, or all of them if it has fewer. Error: memory was refused.
fn last_digits(alloc: Global, base: u32, number: u16, bound: u8) -> Result<Vec<u8>, AllocError>
    requires least { 2 ≤ base }
    requires most { base ≤ 10 }
    ensures { IfOk result (λ digits. digits.items ≡ last_digits bound base number) }
{
    let mut digits = Vec::new(alloc);
    let mut rest = u32::from(number);
    let mut left = bound;
    'digits: while left > 0 {
        digits.insert(0, (48 + rest % base) as u8)?;
        if rest < base {
            return Ok(digits);
        }
        rest /= base;
        left -= 1;
    }
    Ok(digits)
}
