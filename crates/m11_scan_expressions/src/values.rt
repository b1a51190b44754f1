//! Values of expressions.

ghost use Rattle.std.specs.Prelude.{◌≡◌};
ghost use Rattle.m11_scan.specs.Views.{bits_of};
ghost use Rattle.m11_scan_expressions.specs.Quantities.{absolute, missing, quantity, with_flags};

use crate::kinds::Kind;
use m11_scan::ErrorFlags;

/// The value of an expression.
#[derive(Clone, Copy, PartialEq, Eq)]
pub struct Value {
    /// The number, modulo 65536.
    pub number: u16,
    /// What the number is relative to.
    pub kind: Kind,
    /// The flags of the expression.
    pub flags: ErrorFlags,
}

impl Value {
    /// An absolute value with these flags.
    pub fn absolute(number: u16, flags: ErrorFlags) -> Value
        ensures { quantity result ≡ absolute number (bits_of flags) }
    {
        Value {
            number,
            kind: Kind::Absolute,
            flags,
        }
    }

    /// The value of a term that is missing: the absolute 0, flagged Q.
    pub fn missing() -> Value
        ensures { quantity result ≡ missing }
    {
        Value::absolute(0, ErrorFlags::Q)
    }

    /// The value with these flags added.
    pub fn with_flags(self, flags: ErrorFlags) -> Value
        ensures { quantity result ≡ with_flags (bits_of flags) (quantity self) }
    {
        Value {
            number: self.number,
            kind: self.kind,
            flags: self.flags.with(flags),
        }
    }
}
