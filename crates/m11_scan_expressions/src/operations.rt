//! The values of operations. (MACRO-11 Language Reference Manual, "Unary operators" and "Binary operators".)

ghost use Rattle.std.specs.Prelude.{◌≡◌};
ghost use Rattle.m11_scan.specs.Views.{bits_of};
ghost use Rattle.m11_scan_expressions.specs.Operations.{as_register, combined, complemented, division_flags, limited, negated, number_of, quotient, replaced, settled};
ghost use Rattle.m11_scan_expressions.specs.Quantities.{quantity};

use crate::kinds::{Kind, kind_of, refusal};
use crate::operators::Operator;
use crate::values::Value;
use m11_scan::ErrorFlags;

// The value of an operator applied to two values, with the flags of both and of the operation.
pub(crate) fn combined(operator: Operator, left: Value, right: Value) -> Value
    ensures { quantity result ≡ combined operator (quantity left) (quantity right) }
{
    let flags = left
        .flags
        .with(right.flags)
        .with(division_flags(operator, right.number));
    settled(
        kind_of(operator, left.kind, right.kind),
        number_of(operator, left.number, right.number),
        flags,
        left.kind.is_register() || right.kind.is_register(),
    )
}

// The number that an operator yields from two words, modulo 65536.
fn number_of(operator: Operator, left: u16, right: u16) -> u16
    ensures { result ≡ number_of operator left right }
{
    match operator {
        Operator::Add => left.wrapping_add(right),
        Operator::Subtract => left.wrapping_sub(right),
        Operator::Multiply => left.wrapping_mul(right),
        Operator::Divide => quotient(left, right),
        Operator::And => left & right,
        Operator::Or => left | right,
    }
}

// The quotient of two signed words, rounded towards 0 and taken modulo 65536, or 0 if the divisor is 0.
fn quotient(left: u16, right: u16) -> u16
    ensures { result ≡ quotient left right }
{
    if right == 0 {
        0
    } else {
        let exact = i32::from(left.cast_signed()) / i32::from(right.cast_signed());
        (exact.cast_unsigned() % 65536) as u16
    }
}

// A if the operator divides by 0, otherwise no flags.
fn division_flags(operator: Operator, divisor: u16) -> ErrorFlags
    ensures { bits_of result ≡ division_flags operator divisor }
{
    match operator {
        Operator::Divide => ErrorFlags::A.when(divisor == 0),
        _ => ErrorFlags::none(),
    }
}

// The value with this number and kind; a register above 7 becomes an absolute number flagged R. If there is no kind, the operands
// aren't allowed together, and the value is absolute, flagged R if one of them is a register, otherwise A.
fn settled(kind: Option<Kind>, number: u16, flags: ErrorFlags, has_register: bool) -> Value
    ensures { quantity result ≡ settled kind number (bits_of flags) has_register }
{
    match kind {
        Some(kind) => limited(Value {
            number,
            kind,
            flags,
        }),
        None => Value::absolute(number, flags.with(refusal(has_register))),
    }
}

// The value unchanged, but a register above 7 becomes an absolute number flagged R.
fn limited(value: Value) -> Value
    ensures { quantity result ≡ limited (quantity value) }
{
    if value.kind.is_register() && value.number > 7 {
        Value::absolute(value.number, value.flags.with(ErrorFlags::R))
    } else {
        value
    }
}

// The value of `-` before a term with this value: absolute, with the number negated modulo 65536. R is added to the flags for a register,
// and A for another kind that isn't absolute.
pub(crate) fn negated(value: Value) -> Value
    ensures { quantity result ≡ negated (quantity value) }
{
    replaced(value, 0u16.wrapping_sub(value.number))
}

// The value of `^C` before a term with this value: absolute, with every bit of the number inverted. R is added to the flags for a register,
// and A for another kind that isn't absolute.
pub(crate) fn complemented(value: Value) -> Value
    ensures { quantity result ≡ complemented (quantity value) }
{
    replaced(value, 0o177777 - value.number)
}

// An absolute value with this number and the flags of the old value. If the old value isn't absolute, R is added for a register,
// and A for another kind.
fn replaced(value: Value, number: u16) -> Value
    ensures { quantity result ≡ replaced (quantity value) number }
{
    Value::absolute(number, value.flags.with(value.kind.absence()))
}

// The register with this number, or above 7 an absolute number flagged R. A value that isn't absolute is flagged R if it is a
// register, otherwise A.
pub(crate) fn as_register(value: Value) -> Value
    ensures { quantity result ≡ as_register (quantity value) }
{
    limited(Value {
        number: value.number,
        kind: Kind::Register,
        flags: value.flags.with(value.kind.absence()),
    })
}
