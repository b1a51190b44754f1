//! Prefixes of a term. (MACRO-11 Language Reference Manual, "Unary operators", "Terms" and "Radix and numeric control".)

ghost use Rattle.std.specs.Prelude.{◌≡◌};
ghost use Rattle.m11_scan_expressions.specs.Prefixes.{applied, prefix_of, radix_under};
ghost use Rattle.m11_scan_expressions.specs.Quantities.{quantity};

use crate::operations::{as_register, complemented, negated};
use crate::values::Value;
use m11_scan::{ErrorFlags, Radix, Sort};

// A prefix of a term.
#[derive(Clone, Copy, PartialEq, Eq)]
pub enum Prefix {
    // `+`
    Plus,
    // `-`
    Minus,
    // `^C`
    Complement,
    // `%`
    Register,
    // `^B`, `^O` or `^D`
    InRadix(Radix),
    // `<`
    Bracket,
}

pub(crate) fn prefix_of(sort: Sort) -> Option<Prefix>
    ensures { result ≡ prefix_of sort }
{
    match sort {
        Sort::Plus => Some(Prefix::Plus),
        Sort::Minus => Some(Prefix::Minus),
        Sort::Complement => Some(Prefix::Complement),
        Sort::Percent => Some(Prefix::Register),
        Sort::BinaryRadix => Some(Prefix::InRadix(Radix::Binary)),
        Sort::OctalRadix => Some(Prefix::InRadix(Radix::Octal)),
        Sort::DecimalRadix => Some(Prefix::InRadix(Radix::Decimal)),
        Sort::Less => Some(Prefix::Bracket),
        _ => None,
    }
}

// The radix of numbers in a term after a prefix.
pub(crate) fn radix_under(prefix: Prefix, radix: Radix) -> Radix
    ensures { result ≡ radix_under prefix radix }
{
    match prefix {
        Prefix::InRadix(other) => other,
        _ => radix,
    }
}

// The value of a prefix applied to the value after it. A bracket that isn't closed is flagged Q.
pub(crate) fn applied(prefix: Prefix, is_closed: bool, value: Value) -> Value
    ensures { quantity result ≡ applied prefix is_closed (quantity value) }
{
    match prefix {
        Prefix::Plus | Prefix::InRadix(_) => value,
        Prefix::Minus => negated(value),
        Prefix::Complement => complemented(value),
        Prefix::Register => as_register(value),
        Prefix::Bracket => {
            if is_closed {
                value
            } else {
                value.with_flags(ErrorFlags::Q)
            }
        }
    }
}
