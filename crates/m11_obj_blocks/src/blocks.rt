//! Reads the blocks of an object. (RT-11 Volume and File Formats Manual, "Object file format".)

ghost use Rattle.std.specs.Prelude.{◌≡◌, ◌+◌, ◌-◌, ◌<◌, ◌≤◌, ◌↔◌, ℕ, List, length, take, true, false, Ok, Err, IfOk, IfSome, IsErr, IsTrue, MatchOption};
ghost use Rattle.std.specs.Bool.{OnTrue, OnFalse};
ghost use Rattle.std.specs.List.{AllByRecursion};
ghost use Rattle.m11_obj_blocks.specs.Frames.{content_limit, header, block, AreBlocks};
ghost use Rattle.m11_obj_blocks.specs.Limited.{position, most_bytes, Inside, Took};
ghost use Rattle.m11_obj_blocks.specs.Blocks.{first_block, IsCut, AreRead, ReadsPart, ReadsStart, ReadsFront, ReadsBlock, ReadsInto, second, count, content_of, summed};

use crate::block_fault::BlockFault;
use crate::frames::{Block, block_sum};
use crate::limited::{Lack, MOST_BYTES, next_byte, next_word, read_ready};
use byteorder::{ByteOrder, LittleEndian};
use m11_base::Feed;
use std::marker::Model;

// Reads zeros and the 001 that begins a block. Returns false if the bytes end before the 001; any other byte is `BadStart`.
fn read_start<F: Feed>(feed: &mut F, room: &mut u32) -> Result<bool, BlockFault>
    ensures { ReadsStart (position (F.text feed.old) (F.faults feed.old) room.old)
        (position (F.text feed.new) (F.faults feed.new) room.new) result }
{
    'zeros: loop {
        match next_byte(feed, room) {
            Ok(0) => {}
            Ok(1) => return Ok(true),
            Ok(_) => return Err(BlockFault::BadStart),
            Err(Lack::End) => return Ok(false),
            Err(Lack::Device) => return Err(BlockFault::Device),
            Err(Lack::TooMuch) => return Err(BlockFault::TooMuch),
        }
    }
}

fn read_second<F: Feed>(feed: &mut F, room: &mut u32) -> Result<(), BlockFault>
    ensures { ReadsPart (λ _. tt) second (position (F.text feed.old) (F.faults feed.old) room.old)
        (position (F.text feed.new) (F.faults feed.new) room.new) result }
{
    let byte = next_byte(feed, room)?;
    if byte != 0 {
        return Err(BlockFault::BadStart);
    }
    Ok(())
}

// Reads the length of a block, and returns the number of bytes of its content. A length under 4 or over 516 is a fault.
fn read_count<F: Feed>(feed: &mut F, room: &mut u32) -> Result<u16, BlockFault>
    ensures part { ReadsPart (λ n. n) count (position (F.text feed.old) (F.faults feed.old) room.old)
        (position (F.text feed.new) (F.faults feed.new) room.new) result }
    ensures fits { IfOk result (λ n. n ≤ content_limit) }
{
    let length = next_word(feed, room)?;
    if length < 4 {
        return Err(BlockFault::TooShort);
    }
    if length > 516 {
        return Err(BlockFault::TooLong);
    }
    Ok(length - 4)
}

// Reads `count` bytes into `content`, in place of the old ones.
fn read_content<F: Feed>(
    feed: &mut F,
    room: &mut u32,
    count: u16,
    content: &mut Block,
) -> Result<(), BlockFault>
    requires { count ≤ content_limit }
    ensures { ReadsPart (λ _. content.new.items) (content_of count)
        (position (F.text feed.old) (F.faults feed.old) room.old)
        (position (F.text feed.new) (F.faults feed.new) room.new) result }
{
    content.clear();
    let count = usize::from(count);
    'parts: while content.len() < count {
        let missing = count - content.len();
        if read_ready(feed, room, content, missing) == 0 {
            let byte = next_byte(feed, room)?;
            content.push(byte);
        }
    }
    Ok(())
}

// Reads the sum byte that follows a block's content, and checks it.
fn read_sum<F: Feed>(feed: &mut F, room: &mut u32, content: &Block) -> Result<(), BlockFault>
    ensures { ReadsPart (λ _. content.now.items) (summed content.now.items)
        (position (F.text feed.old) (F.faults feed.old) room.old)
        (position (F.text feed.new) (F.faults feed.new) room.new) result }
{
    let byte = next_byte(feed, room)?;
    if byte != block_sum(content) {
        return Err(BlockFault::BadSum);
    }
    Ok(())
}

// The length of a block's content, if these bytes begin with the block's first four: 001, 000 and a valid length; otherwise None.
fn front_count(bytes: &[u8]) -> Option<u16>
    ensures { IfSome result (λ n. (n ≤ content_limit) × (4 ≤ length bytes.now) × (take 4 bytes.now ≡ header n)) }
{
    match bytes {
        [1, 0, low, high, ..] => {
            let length = LittleEndian::read_u16(&[*low, *high]);
            if length < 4 || length > 516 {
                return None;
            }
            Some(length - 4)
        }
        _ => None,
    }
}

// The content of a block, if these bytes begin with the whole block, its length is valid and its sum byte is right; otherwise None.
fn whole_content(bytes: &[u8]) -> Option<&[u8]>
    ensures whole { IfSome result (λ content. (length content.now ≤ content_limit) × (length content.now + 5 ≤ length bytes.now)
        × (take (length content.now + 5) bytes.now ≡ block content.now)) }
    ensures bytes { IfSome result (λ content. AllByRecursion (λ byte. byte < 256) (block content.now)) }
{
    let end = 4 + usize::from(front_count(bytes)?);
    if bytes.len() <= end {
        return None;
    }
    let content = &bytes[4..end];
    if bytes[end] != block_sum(content) {
        return None;
    }
    Some(content)
}

// Reads a block, and stores its content in place of the old one, if the whole block is ready, valid and within the limit. Otherwise
// it reads nothing and returns false.
fn read_ready_block<F: Feed>(feed: &mut F, room: &mut u32, content: &mut Block) -> bool
    ensures reads { let old = position (F.text feed.old) (F.faults feed.old) room.old in
        let new = position (F.text feed.new) (F.faults feed.new) room.new in
        OnTrue result ((length content.new.items ≤ content_limit) × Took old new (block content.new.items)) }
    ensures leaves { OnFalse result (position (F.text feed.new) (F.faults feed.new) room.new
        ≡ position (F.text feed.old) (F.faults feed.old) room.old) }
{
    match whole_content(feed.ready()) {
        Some(bytes) => {
            let count = bytes.len() + 5;
            if (*room as usize) < count {
                return false;
            }
            content.clear();
            content.try_extend_from_slice(bytes).unwrap();
            feed.pass(count);
            *room -= count as u32;
            true
        }
        None => false,
    }
}

// Reads zeros and the four bytes before the content of a block, and returns the length of the content, or `None` if the bytes end
// before a block.
fn read_front<F: Feed>(feed: &mut F, room: &mut u32) -> Result<Option<u16>, BlockFault>
    ensures front { ReadsFront (position (F.text feed.old) (F.faults feed.old) room.old)
        (position (F.text feed.new) (F.faults feed.new) room.new) result }
    ensures fits { IfOk result (λ front. IfSome front (λ n. n ≤ content_limit)) }
{
    if !read_start(feed, room)? {
        return Ok(None);
    }
    read_second(feed, room)?;
    let count = read_count(feed, room)?;
    Ok(Some(count))
}

// Reads a block part by part, as it must where zeros come first, where only some of its bytes are ready, or where it has a fault.
// Returns false if the bytes end before a block.
fn read_parts<F: Feed>(
    feed: &mut F,
    room: &mut u32,
    content: &mut Block,
) -> Result<bool, BlockFault>
    ensures { ReadsInto content.new.items (position (F.text feed.old) (F.faults feed.old) room.old)
        (position (F.text feed.new) (F.faults feed.new) room.new) result }
{
    match read_front(feed, room)? {
        Some(count) => {
            read_content(feed, room, count, content)?;
            read_sum(feed, room, content)?;
            Ok(true)
        }
        None => Ok(false),
    }
}

// Reads a block, and stores its content in place of the old one. Returns false if the bytes end before a block.
// speed: a block that is ready is read in one look; part by part it would take seven calls of the feed.
fn read_block<F: Feed>(
    feed: &mut F,
    room: &mut u32,
    content: &mut Block,
) -> Result<bool, BlockFault>
    ensures { ReadsInto content.new.items (position (F.text feed.old) (F.faults feed.old) room.old)
        (position (F.text feed.new) (F.faults feed.new) room.new) result }
{
    if read_ready_block(feed, room, content) {
        return Ok(true);
    }
    read_parts(feed, room, content)
}

/// A reader reads exactly the blocks in the bytes, one after another. It finds that the bytes end inside a block if and only if the
/// remaining bytes are zeros and then part of a block: at least its first byte, but not all of it.
#[tactic(auto, using(crate::proofs::BlockFrames::blocks_read, crate::proofs::BlockFrames::blocks_framed, crate::proofs::BlockCuts::cut_read, crate::proofs::BlockCuts::read_cut))]
pub fn blocks_are_read()
    ensures read { (contents : List (List ℕ)) (bytes : List ℕ)
        → AreBlocks contents bytes → AreRead contents bytes }
    ensures framed { (contents : List (List ℕ)) (bytes : List ℕ)
        → AllByRecursion (λ byte. byte < 256) bytes
        → AreRead contents bytes → AreBlocks contents bytes }
    // bytes end inside a block if and only if they are zeros and then part of a block
    ensures cut { (bytes : List ℕ) → IsCut bytes → first_block bytes ≡ Err Inside }
    ensures inside { (bytes : List ℕ) → AllByRecursion (λ byte. byte < 256) bytes
        → first_block bytes ≡ Err Inside → IsCut bytes }
{}

/// A reader of the blocks of one object, in order, from a feed. It allocates nothing.
#[derive(Drop)]
pub struct BlockReader {
    room: u32,
    has_failed: bool,
}

impl Model for BlockReader {
    ghost use Rattle.m11_obj_blocks.specs.Blocks.{BlockReading};

    ghost Value = { BlockReading };

    ghost view = { λ s. record { room = s.room; has_failed = s.has_failed } };
}

impl BlockReader {
    /// A reader at the start of an object.
    pub fn new() -> BlockReader
        ensures { result ≡ record { room = most_bytes; has_failed = false } }
    {
        BlockReader {
            room: MOST_BYTES,
            has_failed: false,
        }
    }

    /// The number of bytes that the reader has read from its feed: 0 to 4,194,304. A byte past the limit isn't counted.
    pub fn bytes_read(&self) -> u32
        ensures { result ≡ most_bytes - self.now.room }
    {
        MOST_BYTES.saturating_sub(self.room)
    }

    /// Reads the next block, and returns its content, or `None` if the bytes end before a block. Zeros before a block are skipped.
    /// After the end the next call asks the feed again. A fault is the first in the order of the bytes; after it each call
    /// returns `Failed` and reads nothing.
    pub fn next<F: Feed>(&mut self, feed: &mut F) -> Result<Option<Block>, BlockFault>
        ensures reads { OnFalse self.old.has_failed (ReadsBlock (λ b. b.items)
            (position (F.text feed.old) (F.faults feed.old) self.old.room)
            (position (F.text feed.new) (F.faults feed.new) self.new.room) result) }
        ensures failed { OnTrue self.old.has_failed
            ((result ≡ Err BlockFault.Failed) × (self.new ≡ self.old) × (feed.new ≡ feed.old)) }
        ensures fails { IsTrue self.new.has_failed ↔ IsErr result }
    {
        let mut block = Block::new();
        match self.next_into(feed, &mut block) {
            Ok(true) => Ok(Some(block)),
            Ok(false) => Ok(None),
            Err(fault) => Err(fault),
        }
    }

    /// Reads the next block as `next` does, but stores its content in `block`, and returns whether there is one. If there is none,
    /// or if a fault is returned, `block` may hold anything.
    pub fn next_into<F: Feed>(
        &mut self,
        feed: &mut F,
        block: &mut Block,
    ) -> Result<bool, BlockFault>
        ensures reads { OnFalse self.old.has_failed (ReadsInto block.new.items
            (position (F.text feed.old) (F.faults feed.old) self.old.room)
            (position (F.text feed.new) (F.faults feed.new) self.new.room) result) }
        ensures failed { OnTrue self.old.has_failed
            ((result ≡ Err BlockFault.Failed) × (self.new ≡ self.old) × (feed.new ≡ feed.old)) }
        ensures fails { IsTrue self.new.has_failed ↔ IsErr result }
    {
        if self.has_failed {
            return Err(BlockFault::Failed);
        }
        let returned = read_block(feed, &mut self.room, block);
        self.has_failed = returned.is_err();
        returned
    }
}
