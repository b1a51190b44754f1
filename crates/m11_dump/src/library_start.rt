//! Finds where the modules of a library begin.

ghost use Rattle.std.specs.Prelude.{◌≡◌, ◌-◌, ◌≤◌, ◌<◌, ◌++◌, ◌∷◌, [], ℕ, List, length, drop, IfOk, MatchOption, MatchResult};
ghost use Rattle.std.specs.Bool.{OnTrue, OnFalse};
ghost use Rattle.m11_obj_blocks.specs.Frames.{block};
ghost use Rattle.m11_obj_blocks.specs.Limited.{Took, most_bytes, position};
ghost use Rattle.m11_dump.specs.LibraryStart as spec;
ghost use Rattle.m11_dump.specs.Positions.{placed_at};

use crate::fault::{DumpFault, LocatedFault};
use crate::library_parts::{Part, part_of};
use crate::positions::placed;
use arrayvec::ArrayVec;
use byteorder::{ByteOrder, LittleEndian};
use m11_base::Feed;
use m11_link_modules::ModuleFault;
use m11_obj::{Block, BlockFault, block_bytes};
use std::alloc::{AllocError, Global};

// The last bytes that were read, at most 517: as many as a block may have.
type Window = ArrayVec<u8, 517>;

// The most bytes that are read up to the end of the first block.
const MOST_BYTES: u32 = 4_194_304;

// The content of these bytes if they are exactly one block, whose type is that of a module's record or of the library's end;
// otherwise None.
fn content_in<'a>(alloc: Global, bytes: &'a [u8]) -> Result<Option<&'a [u8]>, AllocError>
    ensures { IfOk result (λ found. MatchOption found
        ((content : List ℕ) → bytes.now ≡ block content → spec.IsListed content → ⊥)
        (λ content. (bytes.now ≡ block content.now) × spec.IsListed content.now)) }
{
    if bytes.len() < 5 || bytes.len() > 517 || bytes[0] != 1 {
        return Ok(None);
    }
    let count = usize::from(LittleEndian::read_u16(&[bytes[2], bytes[3]]));
    if count + 1 != bytes.len() {
        return Ok(None);
    }
    let content = &bytes[4..bytes.len() - 1];
    if matches!(part_of(content), Part::Other) {
        return Ok(None);
    }
    let frame = block_bytes(alloc, content)?;
    if frame.as_slice() == bytes {
        Ok(Some(content))
    } else {
        Ok(None)
    }
}

// Looks at the end of these bytes for a block whose type is that of a module's record or of the library's end. Returns whether there
// is one; its content is then in `found`.
fn find_block(alloc: Global, bytes: &[u8], found: &mut Block) -> Result<bool, AllocError>
    ensures ends { IfOk result (λ is. OnTrue is (spec.EndsWith found.new.items bytes.now)) }
    ensures none { IfOk result (λ is. OnFalse is (spec.NoneEnds bytes.now)) }
{
    'starts: for start in 0..bytes.len() {
        match content_in(alloc, &bytes[start..]) {
            Ok(Some(content)) => {
                found.clear();
                found.try_extend_from_slice(content).unwrap();
                return Ok(true);
            }
            Ok(None) => {}
            Err(error) => return Err(error),
        }
    }
    Ok(false)
}

// Adds a byte to the window. If the window is full, its oldest byte is dropped first.
fn keep(window: &mut Window, byte: u8)
    ensures room { length window.old.items < 517 → window.new.items ≡ window.old.items ++ byte ∷ [] }
    ensures full { length window.old.items ≡ 517 → window.new.items ≡ drop 1 window.old.items ++ byte ∷ [] }
    ensures fits { length window.old.items ≤ 517 }
{
    if window.is_full() {
        window.remove(0);
    }
    window.push(byte);
}

// Reads the next byte. `room` is the number of bytes that may still be read. Faults: `Block`, if the feed failed or has a byte past
// the limit; `Rule`, if it has ended.
fn next_byte<F: Feed>(feed: &mut F, room: &mut u32) -> Result<u8, DumpFault>
    ensures { let old = position (F.text feed.old) (F.faults feed.old) room.old in
        let new = position (F.text feed.new) (F.faults feed.new) room.new in
        MatchResult result (λ byte. Took old new (byte ∷ [])) (spec.LacksByte old new) }
{
    match feed.next() {
        Err(_) => Err(DumpFault::Block(BlockFault::Device)),
        Ok(None) => Err(DumpFault::Rule(ModuleFault::BadOrder)),
        Ok(Some(byte)) => {
            if *room == 0 {
                return Err(DumpFault::Block(BlockFault::TooMuch));
            }
            *room -= 1;
            Ok(byte)
        }
    }
}

// A fault in the search for the first block, placed in block 1, after the bytes read. `room` is the number of bytes that may still be
// read.
fn unfound(fault: DumpFault, room: u32) -> LocatedFault
    ensures { result ≡ placed_at fault 0 (most_bytes - room) }
{
    placed(fault, 0, u64::from(MOST_BYTES.saturating_sub(room)))
}

/// Reads up to the end of the first block whose type is that of a module's record or of the library's end, stores its content in
/// `found`, and returns the number of bytes read. Faults: `Block`, if the feed failed, or has more than 4,194,304 bytes without
/// such a block; `Rule`, if the bytes end before one; `NoMemory`, if memory was refused.
pub(crate) fn seek<F: Feed>(
    alloc: Global,
    feed: &mut F,
    found: &mut Block,
) -> Result<u32, LocatedFault>
    ensures seeks { (room : ℕ) × spec.Seeks found.new.items (position (F.text feed.old) (F.faults feed.old) most_bytes)
        (position (F.text feed.new) (F.faults feed.new) room) result }
    ensures within { IfOk result (λ count. count ≤ most_bytes) }
{
    let mut window = Window::new();
    let mut room = MOST_BYTES;
    'bytes: loop {
        match next_byte(feed, &mut room) {
            Ok(byte) => keep(&mut window, byte),
            Err(fault) => return Err(unfound(fault, room)),
        }
        match find_block(alloc, &window, found) {
            Ok(true) => return Ok(MOST_BYTES.saturating_sub(room)),
            Ok(false) => {}
            Err(_) => return Err(unfound(DumpFault::NoMemory, room)),
        }
    }
}
