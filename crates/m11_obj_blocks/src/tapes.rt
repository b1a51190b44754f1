//! Writes and reads tapes. (RT-11 Volume and File Formats Manual, "Absolute binary file format".)

ghost use Rattle.std.specs.Prelude.{◌≡◌, ◌+◌, ◌-◌, ◌<◌, ◌≤◌, ◌∷◌, ◌++◌, ◌%◌, ℕ, List, [], length, sum, IfOk, MatchResult, Ok, Err};
ghost use Rattle.std.specs.List.{AllByRecursion};
ghost use Rattle.m11_obj_blocks.specs.Frames.{word};
ghost use Rattle.m11_obj_blocks.specs.Limited.{position, most_bytes};
ghost use Rattle.m11_obj_blocks.specs.declared.tape_part.TapeStage.TheVariants.{BeforeBlock, InBlock, AfterFault};
ghost use Rattle.m11_obj_blocks.specs.declared.tape_part.TapePart.TheVariants.{Start};
ghost use Rattle.m11_obj_blocks.specs.Tapes.{tape_header, tape_block, data_limit, total_of, IsTape, AreRead, opened, IsReadAgain, ReadsPart, start, second, count, summed, transfer, first_part, next_part, stage_after, stage_within, data_byte, PartFits, left_of, count_of, HasStopped, ReadsNext, ReadsByte};

use crate::frames::{closing_byte, front, sum_of, summed_bytes};
use crate::limited::{Lack, MOST_BYTES, next_byte, next_word};
use crate::tape_fault::TapeFault;
use crate::tape_part::{TapePart, TapeStage};
use byteorder::{ByteOrder, LittleEndian};
use m11_base::Feed;
use std::alloc::{AllocError, Global};
use std::marker::Model;

// The six bytes before `count` bytes of data for an address.
fn header(address: u16, count: u16) -> [u8; 6]
    requires { count ≤ data_limit }
    ensures { result ≡ tape_header address count }
{
    let [one, zero, low, high] = front(count + 6);
    let mut position = [0; 2];
    LittleEndian::write_u16(&mut position, address);
    [one, zero, low, high, position[0], position[1]]
}

/// The block of a tape with these bytes, 1 to 65,529 of them, for an address and the addresses after it. Error: memory was refused.
#[tactic(auto, unfolding(crate::specs::Tapes::tape_block))]
pub fn tape_block(alloc: Global, address: u16, bytes: &[u8]) -> Result<Vec<u8>, AllocError>
    requires some { 0 < length bytes.now }
    requires fits { length bytes.now ≤ data_limit }
    ensures bytes { IfOk result (λ v. v.items ≡ tape_block address bytes.now) }
    ensures sum { IfOk result (λ v. sum v.items % 256 ≡ 0) }
    // whatever bytes follow the block, a reader reads these bytes of data back
    ensures again { IfOk result (λ v. (rest : List ℕ) → IsReadAgain address bytes.now v.items rest) }
{
    summed_bytes(alloc, &header(address, bytes.len() as u16), bytes)
}

/// The transfer block of a tape. An even address is the start of the program; an odd one starts nothing. Error: memory was
/// refused.
#[tactic(auto, using(crate::proofs::TapeFrames::transfer_again), unfolding(crate::specs::Tapes::tape_block))]
pub fn tape_transfer(alloc: Global, address: u16) -> Result<Vec<u8>, AllocError>
    ensures bytes { IfOk result (λ v. v.items ≡ tape_block address []) }
    ensures sum { IfOk result (λ v. sum v.items % 256 ≡ 0) }
    // whatever bytes follow the block, a reader reads this start back, and nothing after it
    ensures again { IfOk result (λ v.
        (rest : List ℕ) → first_part (v.items ++ rest) ≡ Ok (Start address, rest)) }
{
    summed_bytes(alloc, &header(address, 0), &[])
}

// Reads the 001 that begins a block, and skips other bytes before it. If the bytes end first, the fault is `NoTransfer`.
fn read_start<F: Feed>(feed: &mut F, room: &mut u32) -> Result<(), TapeFault>
    ensures { ReadsPart (λ _. tt) start (position (F.text feed.old) (F.faults feed.old) room.old)
        (position (F.text feed.new) (F.faults feed.new) room.new) result }
{
    'skipped: loop {
        match next_byte(feed, room) {
            Ok(1) => return Ok(()),
            Ok(_) => {}
            Err(Lack::End) => return Err(TapeFault::NoTransfer),
            Err(Lack::Device) => return Err(TapeFault::Device),
            Err(Lack::TooMuch) => return Err(TapeFault::TooMuch),
        }
    }
}

fn read_second<F: Feed>(feed: &mut F, room: &mut u32) -> Result<(), TapeFault>
    ensures { ReadsPart (λ _. tt) second (position (F.text feed.old) (F.faults feed.old) room.old)
        (position (F.text feed.new) (F.faults feed.new) room.new) result }
{
    let byte = next_byte(feed, room)?;
    if byte != 0 {
        return Err(TapeFault::BadStart);
    }
    Ok(())
}

fn read_word<F: Feed>(feed: &mut F, room: &mut u32) -> Result<u16, TapeFault>
    ensures { ReadsPart (λ n. n) word (position (F.text feed.old) (F.faults feed.old) room.old)
        (position (F.text feed.new) (F.faults feed.new) room.new) result }
{
    Ok(next_word(feed, room)?)
}

// Reads the count of a block, and returns the number of its data bytes. A count under 6 is a fault.
#[tactic(auto, unfolding(crate::specs::Tapes::count))]
fn read_count<F: Feed>(feed: &mut F, room: &mut u32) -> Result<u16, TapeFault>
    ensures part { ReadsPart (λ n. n) count (position (F.text feed.old) (F.faults feed.old) room.old)
        (position (F.text feed.new) (F.faults feed.new) room.new) result }
    ensures fits { IfOk result (λ n. n ≤ data_limit) }
{
    let length = read_word(feed, room)?;
    if length < 6 {
        return Err(TapeFault::TooShort);
    }
    Ok(length - 6)
}

// Reads the sum byte that follows bytes with this sum, and checks it.
fn read_sum<F: Feed>(feed: &mut F, room: &mut u32, total: u8) -> Result<(), TapeFault>
    ensures { ReadsPart (λ _. tt) (summed total)
        (position (F.text feed.old) (F.faults feed.old) room.old)
        (position (F.text feed.new) (F.faults feed.new) room.new) result }
{
    let byte = next_byte(feed, room)?;
    if byte != closing_byte(total) {
        return Err(TapeFault::BadSum);
    }
    Ok(())
}

// The sum of a header's bytes, modulo 256.
fn header_total(address: u16, count: u16) -> u8
    requires { count ≤ data_limit }
    ensures { result ≡ sum (tape_header address count) % 256 }
{
    sum_of(&header(address, count))
}

fn read_transfer<F: Feed>(feed: &mut F, room: &mut u32, address: u16) -> Result<TapePart, TapeFault>
    ensures part { ReadsPart (λ part. part) (transfer address)
        (position (F.text feed.old) (F.faults feed.old) room.old)
        (position (F.text feed.new) (F.faults feed.new) room.new) result }
    ensures fits { IfOk result PartFits }
{
    read_sum(feed, room, header_total(address, 0))?;
    Ok(TapePart::Start(address))
}

// Reads the header of a block of data, or the whole transfer block.
fn read_part<F: Feed>(feed: &mut F, room: &mut u32) -> Result<TapePart, TapeFault>
    ensures part { ReadsPart (λ part. part) first_part
        (position (F.text feed.old) (F.faults feed.old) room.old)
        (position (F.text feed.new) (F.faults feed.new) room.new) result }
    ensures fits { IfOk result PartFits }
{
    read_start(feed, room)?;
    read_second(feed, room)?;
    let count = read_count(feed, room)?;
    let address = read_word(feed, room)?;
    if count == 0 {
        return read_transfer(feed, room, address);
    }
    Ok(TapePart::Data { address, count })
}

// Reads the sum byte of a block whose other bytes have this sum, and then the next part.
fn read_next<F: Feed>(feed: &mut F, room: &mut u32, total: u8) -> Result<TapePart, TapeFault>
    ensures part { ReadsPart (λ part. part) (next_part total)
        (position (F.text feed.old) (F.faults feed.old) room.old)
        (position (F.text feed.new) (F.faults feed.new) room.new) result }
    ensures fits { IfOk result PartFits }
{
    read_sum(feed, room, total)?;
    read_part(feed, room)
}

fn read_byte<F: Feed>(feed: &mut F, room: &mut u32) -> Result<u8, TapeFault>
    ensures { ReadsPart (λ byte. byte) data_byte
        (position (F.text feed.old) (F.faults feed.old) room.old)
        (position (F.text feed.new) (F.faults feed.new) room.new) result }
{
    Ok(next_byte(feed, room)?)
}

// The state of a reader after it tried to read a data byte. Before that, `left` data bytes were still to come, and `total` was the sum of
// the block's bytes so far, modulo 256.
fn stage_within(left: u16, total: u8, returned: &Result<u8, TapeFault>) -> TapeStage
    requires { 0 < left }
    ensures { result ≡ stage_within left total returned.now }
{
    match returned {
        Ok(byte) => TapeStage::InBlock {
            left: left - 1,
            total: total.wrapping_add(*byte),
        },
        Err(_) => TapeStage::AfterFault,
    }
}

// The state of a reader after it has returned a part or a fault.
fn stage_after(returned: &Result<TapePart, TapeFault>) -> TapeStage
    requires { IfOk returned.now PartFits }
    ensures { result ≡ stage_after returned.now }
{
    match returned {
        Ok(TapePart::Data { address, count }) => TapeStage::InBlock {
            left: *count,
            total: header_total(*address, *count),
        },
        Ok(TapePart::Start(address)) => TapeStage::AtEnd(*address),
        Err(_) => TapeStage::AfterFault,
    }
}

/// A reader reads, part by part, exactly the tapes of the format. It counts the bytes of a block and adds them up, one per call.
#[tactic(auto, using(crate::proofs::TapeFrames::tape_read, crate::proofs::TapeFrames::tape_framed, crate::proofs::TapeFrames::opened_more, crate::proofs::TapeFrames::opened_all))]
pub fn tapes_are_read()
    ensures read { (blocks : List (ℕ × List ℕ)) (address : ℕ) (bytes : List ℕ)
        → IsTape blocks address bytes → AreRead first_part blocks address bytes }
    ensures framed { (blocks : List (ℕ × List ℕ)) (address : ℕ) (bytes : List ℕ)
        → AllByRecursion (λ byte. byte < 256) bytes
        → AreRead first_part blocks address bytes → IsTape blocks address bytes }
    // the stage of an open block after one more byte, and after all its bytes
    ensures more { (address count byte : ℕ) (taken : List ℕ)
        → stage_within (count - length taken) (sum (tape_header address count ++ taken) % 256) (Ok byte)
        ≡ opened address count (taken ++ byte ∷ []) }
    ensures all { (address : ℕ) (content : List ℕ)
        → opened address (length content) content ≡ InBlock 0 (total_of address content) }
{}

/// A reader of one tape, part by part, from a feed. It allocates nothing.
#[derive(Drop)]
pub struct TapeReader {
    room: u32,
    stage: TapeStage,
}

impl Model for TapeReader {
    ghost use Rattle.m11_obj_blocks.specs.Tapes.{TapeReading};

    ghost Value = { TapeReading };

    ghost view = { λ s. record { room = s.room; stage = s.stage } };
}

impl TapeReader {
    /// A reader at the start of a tape.
    pub fn new() -> TapeReader
        ensures { result ≡ record { room = most_bytes; stage = BeforeBlock } }
    {
        TapeReader {
            room: MOST_BYTES,
            stage: TapeStage::BeforeBlock,
        }
    }

    /// The number of bytes that the reader has read from its feed: 0 to 4,194,304. A byte past the limit isn't counted.
    pub fn bytes_read(&self) -> u32
        ensures { result ≡ most_bytes - self.now.room }
    {
        MOST_BYTES.saturating_sub(self.room)
    }

    /// Reads the next part: the header of a block of data, or the transfer block. First the sum of the preceding block is checked, if
    /// there is one. All data bytes of that block must have been read. Bytes other than 001 before a block are skipped. After the sum
    /// byte of the transfer block nothing is read: each call returns `Start` again. A fault is the first in the order of the bytes;
    /// after it each call returns `Failed` and reads nothing.
    pub fn next<F: Feed>(&mut self, feed: &mut F) -> Result<TapePart, TapeFault>
        requires { left_of self.old.stage ≡ 0 }
        ensures reads { ReadsNext self.old.stage
            (position (F.text feed.old) (F.faults feed.old) self.old.room)
            (position (F.text feed.new) (F.faults feed.new) self.new.room) self.new.stage result }
        ensures fits { IfOk result PartFits }
        ensures left { MatchResult result (λ part. left_of self.new.stage ≡ count_of part)
            (λ _. self.new.stage ≡ AfterFault) }
        ensures stays { HasStopped self.old.stage → (self.new ≡ self.old) × (feed.new ≡ feed.old) }
    {
        let returned = match self.stage {
            TapeStage::BeforeBlock => read_part(feed, &mut self.room),
            TapeStage::InBlock { total, .. } => read_next(feed, &mut self.room, total),
            TapeStage::AtEnd(address) => return Ok(TapePart::Start(address)),
            TapeStage::AfterFault => return Err(TapeFault::Failed),
        };
        self.stage = stage_after(&returned);
        returned
    }

    /// Reads the next data byte of the open block. A data byte must be left, unless a fault was returned: after a fault each call
    /// returns `Failed` and reads nothing.
    pub fn byte<F: Feed>(&mut self, feed: &mut F) -> Result<u8, TapeFault>
        requires { left_of self.old.stage ≡ 0 → self.old.stage ≡ AfterFault }
        ensures reads { ReadsByte self.old.stage
            (position (F.text feed.old) (F.faults feed.old) self.old.room)
            (position (F.text feed.new) (F.faults feed.new) self.new.room) self.new.stage result }
        ensures left { MatchResult result
            (λ _. left_of self.old.stage ≡ left_of self.new.stage + 1)
            (λ _. self.new.stage ≡ AfterFault) }
        ensures stays { HasStopped self.old.stage → (self.new ≡ self.old) × (feed.new ≡ feed.old) }
    {
        match self.stage {
            TapeStage::InBlock { left, total } => {
                let returned = read_byte(feed, &mut self.room);
                self.stage = stage_within(left, total, &returned);
                returned
            }
            TapeStage::AfterFault => Err(TapeFault::Failed),
            TapeStage::BeforeBlock | TapeStage::AtEnd(_) => unreachable!(),
        }
    }
}
