//! The parts of a tape, and the state of its reader between two calls.

/// A part of a tape.
#[derive(Clone, Copy, PartialEq, Eq)]
pub enum TapePart {
    /// The header of a block. Its `count` bytes of data, 1 to 65,529, come next, one per call; they belong at `address` and the
    /// addresses after it.
    Data { address: u16, count: u16 },
    /// The transfer block, with its address. An even address is the start of the program; an odd one starts nothing.
    Start(u16),
}

/// The state of a reader of tapes between two calls.
#[derive(Clone, Copy)]
pub enum TapeStage {
    /// No block is open.
    BeforeBlock,
    /// A block is open. `left` counts the bytes of its data still to come, and `total` is the sum of its bytes so far, modulo
    /// 256.
    InBlock { left: u16, total: u8 },
    /// The transfer block with this address was read.
    AtEnd(u16),
    /// A fault was returned.
    AfterFault,
}
