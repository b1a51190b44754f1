//! The error flags of a line. (MACRO-11 Language Reference Manual, "Diagnostic error message summary".)

ghost use Rattle.std.specs.Prelude.{◌≡◌, ⊤, [], ◌∷◌, codes, if◌then◌else◌};
ghost use Rattle.std.specs.Int.RustNames.{bit_or};
ghost use Rattle.m11_scan.specs.ErrorFlags.{flags_text};
ghost use Rattle.m11_scan.specs.Views.{bits_of};

use arrayvec::ArrayVec;
use bitflags::{Flag, Flags, bitflag_items};

/// A set of error flags. In contracts it is a number with a bit for each flag, in alphabetical order from the lowest bit.
#[derive(Clone, Copy, PartialEq, Eq)]
pub struct ErrorFlags(u16);

bitflag_items! {
    impl ErrorFlags: u16 {
        const A = 0o1;
        const B = 0o2;
        const D = 0o4;
        const E = 0o10;
        const I = 0o20;
        const L = 0o40;
        const M = 0o100;
        const N = 0o200;
        const O = 0o400;
        const P = 0o1000;
        const Q = 0o2000;
        const R = 0o4000;
        const T = 0o10000;
        const U = 0o20000;
    }
}

impl Flags for ErrorFlags {
    type Bits = u16;

    ghost exact = { ⊤ };

    ghost table = { (codes "A", 0o1) ∷ (codes "B", 0o2) ∷ (codes "D", 0o4) ∷ (codes "E", 0o10) ∷ (codes "I", 0o20) ∷ (codes "L", 0o40)
        ∷ (codes "M", 0o100) ∷ (codes "N", 0o200) ∷ (codes "O", 0o400) ∷ (codes "P", 0o1000) ∷ (codes "Q", 0o2000) ∷ (codes "R", 0o4000)
        ∷ (codes "T", 0o10000) ∷ (codes "U", 0o20000) ∷ [] };

    ghost set_of = { λ flags. flags.0 };

    fn flags<'a>() -> &'a [Flag<ErrorFlags>] {
        ErrorFlags::FLAGS
    }

    fn bits(&self) -> u16 {
        self.0
    }

    fn from_bits_retain(bits: u16) -> ErrorFlags {
        ErrorFlags(bits)
    }
}

// The letter of a flag, and its bit in a set.
#[derive(Clone, Copy)]
struct Row {
    flag: u8,
    bit: u16,
}

#[rattlefmt::skip]
const ROWS: [Row; 14] = [
    Row { flag: b'A', bit: 0o1 },
    Row { flag: b'B', bit: 0o2 },
    Row { flag: b'D', bit: 0o4 },
    Row { flag: b'E', bit: 0o10 },
    Row { flag: b'I', bit: 0o20 },
    Row { flag: b'L', bit: 0o40 },
    Row { flag: b'M', bit: 0o100 },
    Row { flag: b'N', bit: 0o200 },
    Row { flag: b'O', bit: 0o400 },
    Row { flag: b'P', bit: 0o1000 },
    Row { flag: b'Q', bit: 0o2000 },
    Row { flag: b'R', bit: 0o4000 },
    Row { flag: b'T', bit: 0o10000 },
    Row { flag: b'U', bit: 0o20000 },
];

impl ErrorFlags {
    /// No flags.
    pub fn none() -> ErrorFlags
        ensures { bits_of result ≡ 0 }
    {
        ErrorFlags(0)
    }

    /// The union of the two sets.
    pub fn with(self, other: ErrorFlags) -> ErrorFlags
        ensures { bits_of result ≡ bit_or (bits_of self) (bits_of other) }
    {
        ErrorFlags(self.0 | other.0)
    }

    /// These flags if a condition holds, otherwise no flags.
    pub fn when(self, holds: bool) -> ErrorFlags
        ensures { bits_of result ≡ (if holds then bits_of self else 0) }
    {
        if holds { self } else { ErrorFlags(0) }
    }

    /// The letters of the flags in alphabetical order, each once.
    pub fn text(&self) -> ArrayVec<u8, 14>
        ensures { result.items ≡ flags_text (bits_of self.now) }
    {
        let mut text = ArrayVec::new();
        let mut rest: &[Row] = &ROWS;
        'rows: while let [row, others @ ..] = rest {
            if self.0 & row.bit == row.bit {
                text.push(row.flag);
            }
            rest = others;
        }
        text
    }
}
