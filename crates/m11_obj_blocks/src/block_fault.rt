//! The faults of the blocks of an object, each with its number and name.

ghost use Rattle.std.specs.Prelude.{◌≡◌};
ghost use Rattle.m11_obj_blocks.specs.Blocks.{block_fault_number, block_fault_name, missing};

use crate::limited::Lack;
use thiserror::Error;

/// Why no block was read: the first fault in the order of the bytes.
#[derive(Clone, Copy, Debug, PartialEq, Eq, Error)]
pub enum BlockFault {
    /// 1: the feed failed.
    #[error("the device failed")]
    Device,
    /// 2: the bytes end inside a block.
    #[error("truncated block")]
    Truncated,
    /// 3: the bytes of a block don't add up to 0 modulo 256.
    #[error("bad sum")]
    BadSum,
    /// 4: a length of more than 512 bytes of content.
    #[error("block too long")]
    TooLong,
    /// 5: a byte other than 000 or 001 before a block, or other than 000 after its 001.
    #[error("bad start of a block")]
    BadStart,
    /// 6: a length under 4 bytes.
    #[error("block too short")]
    TooShort,
    /// 7: an earlier call of the reader returned a fault.
    #[error("the reader failed before")]
    Failed,
    /// 8: a byte after the first 4,194,304.
    #[error("too many bytes")]
    TooMuch,
}

impl BlockFault {
    /// The fault's number, from 1 to 8.
    pub fn number(self) -> u8
        ensures { result ≡ block_fault_number self }
    {
        match self {
            BlockFault::Device => 1,
            BlockFault::Truncated => 2,
            BlockFault::BadSum => 3,
            BlockFault::TooLong => 4,
            BlockFault::BadStart => 5,
            BlockFault::TooShort => 6,
            BlockFault::Failed => 7,
            BlockFault::TooMuch => 8,
        }
    }

    /// The fault's name, as messages print it.
    pub fn name(self) -> &'static str
        ensures { result.now ≡ block_fault_name self }
    {
        match self {
            BlockFault::Device => "Device",
            BlockFault::Truncated => "Truncated",
            BlockFault::BadSum => "BadSum",
            BlockFault::TooLong => "TooLong",
            BlockFault::BadStart => "BadStart",
            BlockFault::TooShort => "TooShort",
            BlockFault::Failed => "Failed",
            BlockFault::TooMuch => "TooMuch",
        }
    }
}

// The fault if no byte was returned inside a block: the feed failed or ended, or the byte was past the limit.
impl From<Lack> for BlockFault {
    ghost from_gives = { λ lack e. e ≡ missing lack };

    fn from(lack: Lack) -> BlockFault {
        match lack {
            Lack::Device => BlockFault::Device,
            Lack::End => BlockFault::Truncated,
            Lack::TooMuch => BlockFault::TooMuch,
        }
    }
}
