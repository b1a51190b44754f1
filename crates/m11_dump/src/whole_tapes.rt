//! Reads a whole tape into memory.

ghost use Rattle.std.specs.Prelude.{◌≡◌, ◌%◌, ℕ, sum, IfOk, MatchResult};
ghost use Rattle.m11_obj_blocks.specs.Limited.{most_bytes, position};
ghost use Rattle.m11_obj_blocks.specs.Tapes.{tape_header};
ghost use Rattle.m11_obj_blocks.specs.declared.tape_part.TapeStage.TheVariants.{InBlock};
ghost use Rattle.m11_dump.specs.Tapes.{ReadsData, StopsData};
ghost use Rattle.m11_dump.specs.WholeTapes as spec;

use crate::fault::{DumpFault, LocatedFault};
use crate::tapes::{blocks_before, placed_after, read_data};
use m11_base::Feed;
use m11_obj_blocks::{TapePart, TapeReader};
use std::alloc::Global;

/// A block of a tape.
#[derive(Drop)]
pub struct TapeBlock {
    /// The address of its first byte of data.
    pub address: u16,
    /// Its data: 1 to 65,529 bytes.
    pub bytes: Vec<u8>,
}

/// A tape.
#[derive(Drop)]
pub struct WholeTape {
    /// Its blocks of data, in their order.
    pub blocks: Vec<TapeBlock>,
    /// The address in its transfer block. An even address is the start of the program; an odd one starts nothing.
    pub start: u16,
}

// Reads the `count` bytes of data of a block whose header was read, and returns the block. Faults: `Tape`, if not all of them can be read;
// `NoMemory`.
fn read_block<F: Feed>(
    alloc: Global,
    reader: &mut TapeReader,
    feed: &mut F,
    address: u16,
    count: u16,
) -> Result<TapeBlock, DumpFault>
    requires { reader.old.stage ≡ InBlock count (sum (tape_header address count) % 256) }
    ensures address { IfOk result (λ block. block.address ≡ address) }
    ensures reads { MatchResult result
        (λ block. ReadsData (position (F.text feed.old) (F.faults feed.old) reader.old.room)
        (position (F.text feed.new) (F.faults feed.new) reader.new.room) reader.new.stage address count block.bytes.items)
        (λ fault. StopsData fault (position (F.text feed.old) (F.faults feed.old) reader.old.room)
        (position (F.text feed.new) (F.faults feed.new) reader.new.room) count) }
{
    let bytes = read_data(alloc, reader, feed, address, count)?;
    Ok(TapeBlock { address, bytes })
}

/// Reads a tape into memory, up to its transfer block. Nothing is read after the transfer block.
///
/// Errors, each with the number of its block and the byte that shows it: `Tape`, if the bytes aren't a block, or the feed failed, ended
/// without a transfer block or has more bytes than a tape may have; `NoMemory`, if memory was refused for a block. A wrong or missing sum
/// byte is a fault of its own block.
pub fn read_tape<F: Feed>(alloc: Global, feed: &mut F) -> Result<WholeTape, LocatedFault>
    ensures { (room : ℕ) × spec.ReadsTape (position (F.text feed.old) (F.faults feed.old) most_bytes)
        (position (F.text feed.new) (F.faults feed.new) room) result }
{
    let mut reader = TapeReader::new();
    let mut read: Vec<TapeBlock> = Vec::new(alloc);
    'parts: loop {
        let passed = read.len() as u64;
        let end = reader.bytes_read();
        match reader.next(feed) {
            Ok(TapePart::Data { address, count }) => {
                match read_block(alloc, &mut reader, feed, address, count) {
                    Ok(block) => match read.push(block) {
                        Ok(()) => {}
                        Err(_) => return Err(placed_after(DumpFault::NoMemory, passed, &reader)),
                    },
                    Err(fault) => return Err(placed_after(fault, passed, &reader)),
                }
            }
            Ok(TapePart::Start(start)) => return Ok(WholeTape {
                blocks: read,
                start,
            }),
            Err(fault) => {
                let fault = DumpFault::Tape(fault);
                let before = blocks_before(fault, passed, end, &reader);
                return Err(placed_after(fault, before, &reader));
            }
        }
    }
}
