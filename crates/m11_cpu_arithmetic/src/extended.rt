//! Multiplication and division. (PDP-11/40 Processor Handbook, "Extended instruction set".)

ghost use Rattle.std.specs.Prelude.{◌≡◌, ◌≢◌, pos, int_div, int_rem};
ghost use Rattle.m11_cpu_arithmetic.specs.Extended.{joined, product_of, divided, division_of, refused_quotient, done};

use crate::results::{Division, Pair, pair_of};
use crate::sizes::{kept, overflows, signed};
use m11_base::{ConditionCodes, Size};

/// The result of MUL on its register and its source: the product's 32 bits, with their N and Z. V is clear, and C is set if the product
/// doesn't fit a signed word. (PDP-11/40 Processor Handbook, "Extended instruction set": MUL.)
#[tactic(auto, unfolding(crate::specs::Extended::product_of))]
pub fn multiply(register: u16, source: u16) -> Pair
    ensures { result ≡ product_of register source }
{
    let product = signed(Size::Word, register) * signed(Size::Word, source);
    pair_of(
        product.cast_unsigned(),
        false,
        overflows(Size::Word, product),
    )
}

/// The result of DIV on the 32 bits of two words and on its source: the quotient, rounded towards 0, and the remainder, which is 0
/// or has the sign of the dividend; or a refusal with its condition codes, if the source is 0 or the quotient doesn't fit a signed
/// word. (PDP-11/40 Processor Handbook, "Extended instruction set": DIV.)
#[tactic(auto, unfolding(crate::specs::Extended::division_of))]
pub fn divide(high: u16, low: u16, divisor: u16) -> Division
    ensures { result ≡ division_of high low divisor }
{
    if divisor == 0 {
        return Division::Refused(ConditionCodes {
            negative: false,
            zero: true,
            overflow: true,
            carry: true,
        });
    }
    divided(joined(high, low), signed(Size::Word, divisor))
}

// The number in the 32 bits of two words; the highest bit is the sign.
pub(crate) fn joined(high: u16, low: u16) -> i32
    ensures { result ≡ joined high low }
{
    (u32::from(high) * 0o200000 + u32::from(low)).cast_signed()
}

// A number divided by another one, which isn't 0; refused if the quotient doesn't fit a signed word.
fn divided(dividend: i32, divisor: i32) -> Division
    requires { divisor ≢ pos 0 }
    ensures { result ≡ divided dividend divisor }
{
    let quotient = quotient(dividend, divisor);
    if quotient < -0o100000 || 0o077777 < quotient {
        refused_quotient(quotient)
    } else {
        done(quotient as i32, remainder(dividend, divisor))
    }
}

// The quotient, rounded towards 0. The quotient of the least number and -1 doesn't fit 32 bits, so the result has 64.
fn quotient(dividend: i32, divisor: i32) -> i64
    requires { divisor ≢ pos 0 }
    ensures { result ≡ int_div dividend divisor }
{
    i64::from(dividend) / i64::from(divisor)
}

// The remainder that goes with a quotient rounded towards 0.
fn remainder(dividend: i32, divisor: i32) -> i32
    requires { divisor ≢ pos 0 }
    ensures { result ≡ int_rem dividend divisor }
{
    (i64::from(dividend) % i64::from(divisor)) as i32
}

// The refusal of a quotient that doesn't fit a signed word.
fn refused_quotient(quotient: i64) -> Division
    ensures { result ≡ refused_quotient quotient }
{
    Division::Refused(ConditionCodes {
        negative: quotient < 0,
        zero: false,
        overflow: true,
        carry: false,
    })
}

fn done(quotient: i32, remainder: i32) -> Division
    ensures { result ≡ done quotient remainder }
{
    Division::Done {
        quotient: kept(Size::Word, quotient),
        remainder: kept(Size::Word, remainder),
        codes: ConditionCodes {
            negative: quotient < 0,
            zero: quotient == 0,
            overflow: false,
            carry: false,
        },
    }
}
