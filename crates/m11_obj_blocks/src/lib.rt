//! Formatted binary, the blocks of an object, each of at most 512 bytes of content; and absolute binary, the blocks of a tape. This
//! crate makes the bytes of both, and reads both from feeds with any bytes. (RT-11 Volume and File Formats Manual, "Object
//! file format", formatted binary blocks, and "Absolute binary file format".)
#![tactic(auto)]

// What objects and tapes have in common: frames with their sums, and the limit on bytes.
mod frames;
mod limited;

pub use frames::{Block, block_bytes};

// The blocks of an object.
mod block_fault;
mod blocks;

pub use block_fault::BlockFault;
pub use blocks::{BlockReader, blocks_are_read};

// The blocks of a tape.
mod tape_fault;
mod tape_part;
mod tapes;

pub use tape_fault::TapeFault;
pub use tape_part::TapePart;
pub use tapes::{TapeReader, tape_block, tape_transfer, tapes_are_read};
