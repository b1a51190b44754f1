//! The radixes of numbers. (MACRO-11 Language Reference Manual, "Radix and numeric control".)

ghost use Rattle.std.specs.Prelude.{◌≡◌, ◌≤◌};
ghost use Rattle.m11_scan.specs.Numbers.{base_of};

/// The base in which a number is written.
#[derive(Clone, Copy, PartialEq, Eq)]
pub enum Radix {
    /// Digits 0 and 1.
    Binary,
    /// Digits 0 to 7.
    Octal,
    /// Digits 0 to 9.
    Decimal,
}

impl Radix {
    /// The base as a number: 2, 8 or 10.
    pub fn base(self) -> u32
        ensures base { result ≡ base_of self }
        ensures least { 2 ≤ result }
        ensures most { result ≤ 10 }
    {
        match self {
            Radix::Binary => 2,
            Radix::Octal => 8,
            Radix::Decimal => 10,
        }
    }
}
