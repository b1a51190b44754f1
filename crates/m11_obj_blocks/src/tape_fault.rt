//! The faults of a tape, each with its number and name.

ghost use Rattle.std.specs.Prelude.{◌≡◌};
ghost use Rattle.m11_obj_blocks.specs.Tapes.{tape_fault_number, tape_fault_name, missing};

use crate::limited::Lack;
use thiserror::Error;

/// Why no part or byte of a tape was read: the first fault in the order of the bytes. Up to 7 the numbers are those of the faults
/// of blocks; number 4 is unused.
#[derive(Clone, Copy, Debug, PartialEq, Eq, Error)]
pub enum TapeFault {
    /// 1: the feed failed.
    #[error("the device failed")]
    Device,
    /// 2: the bytes end inside a block.
    #[error("truncated block")]
    Truncated,
    /// 3: the bytes of a block don't add up to 0 modulo 256.
    #[error("bad sum")]
    BadSum,
    /// 5: a byte other than 000 after the 001 of a block.
    #[error("bad start of a block")]
    BadStart,
    /// 6: a count under 6.
    #[error("block too short")]
    TooShort,
    /// 7: an earlier call of the reader returned a fault.
    #[error("the reader failed before")]
    Failed,
    /// 8: the bytes end before the transfer block.
    #[error("no transfer block")]
    NoTransfer,
    /// 9: a byte after the first 4,194,304.
    #[error("too many bytes")]
    TooMuch,
}

impl TapeFault {
    /// The fault's number, from 1 to 9 but never 4.
    pub fn number(self) -> u8
        ensures { result ≡ tape_fault_number self }
    {
        match self {
            TapeFault::Device => 1,
            TapeFault::Truncated => 2,
            TapeFault::BadSum => 3,
            TapeFault::BadStart => 5,
            TapeFault::TooShort => 6,
            TapeFault::Failed => 7,
            TapeFault::NoTransfer => 8,
            TapeFault::TooMuch => 9,
        }
    }

    /// The fault's name, as messages print it.
    pub fn name(self) -> &'static str
        ensures { result.now ≡ tape_fault_name self }
    {
        match self {
            TapeFault::Device => "Device",
            TapeFault::Truncated => "Truncated",
            TapeFault::BadSum => "BadSum",
            TapeFault::BadStart => "BadStart",
            TapeFault::TooShort => "TooShort",
            TapeFault::Failed => "Failed",
            TapeFault::NoTransfer => "NoTransfer",
            TapeFault::TooMuch => "TooMuch",
        }
    }
}

// The fault if no byte was returned inside a block: the feed failed or ended, or the byte was past the limit.
impl From<Lack> for TapeFault {
    ghost from_gives = { λ lack e. e ≡ missing lack };

    fn from(lack: Lack) -> TapeFault {
        match lack {
            Lack::Device => TapeFault::Device,
            Lack::End => TapeFault::Truncated,
            Lack::TooMuch => TapeFault::TooMuch,
        }
    }
}
