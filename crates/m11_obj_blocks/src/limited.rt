//! The bytes of an object or a tape, up to their limit.

ghost use Rattle.std.specs.Prelude.{◌+◌, ◌<◌, ◌≤◌, ℕ, List, [], ◌∷◌, length, MatchResult};
ghost use Rattle.arrayvec.specs.ArrayVec.{array_vec_len};
ghost use Rattle.byteorder.specs.Endian.{little_bytes};
ghost use Rattle.m11_obj_blocks.specs.Frames.{content_limit};
ghost use Rattle.m11_obj_blocks.specs.Limited.{position, Took, TookInto, Lacks, TookThenLacks};

use crate::frames::Block;
use byteorder::{ByteOrder, LittleEndian};
use m11_base::Feed;

/// The most bytes that an object or a tape may have.
pub(crate) const MOST_BYTES: u32 = 4_194_304;

/// Why no byte was returned.
#[derive(Clone, Copy)]
pub(crate) enum Lack {
    /// The feed failed.
    Device,
    /// The feed is at its end.
    End,
    /// The byte that was read is past the limit.
    TooMuch,
}

/// Reads the next byte of a feed. `room` counts the bytes left within the limit; a byte past the limit is read but not returned.
pub(crate) fn next_byte<F: Feed>(feed: &mut F, room: &mut u32) -> Result<u8, Lack>
    ensures { let old = position (F.text feed.old) (F.faults feed.old) room.old in
        let new = position (F.text feed.new) (F.faults feed.new) room.new in
        MatchResult result (λ byte. Took old new (byte ∷ [])) (Lacks old new) }
{
    match feed.next() {
        Err(_) => Err(Lack::Device),
        Ok(None) => Err(Lack::End),
        Ok(Some(byte)) => {
            if *room == 0 {
                return Err(Lack::TooMuch);
            }
            *room -= 1;
            Ok(byte)
        }
    }
}

/// Reads the next word, its low byte first. If no high byte is returned, the low byte may have been read already.
pub(crate) fn next_word<F: Feed>(feed: &mut F, room: &mut u32) -> Result<u16, Lack>
    ensures { let old = position (F.text feed.old) (F.faults feed.old) room.old in
        let new = position (F.text feed.new) (F.faults feed.new) room.new in
        MatchResult result (λ word. Took old new (little_bytes 2 word))
        (λ lack. (given : List ℕ) × (length given < 2) × TookThenLacks old new given lack) }
{
    let low = next_byte(feed, room)?;
    let high = next_byte(feed, room)?;
    Ok(LittleEndian::read_u16(&[low, high]))
}

/// Moves ready bytes of a feed to the end of a block's content, at most `most` of them and only those within the limit. Returns the
/// number of bytes moved, which is 0 if no byte is ready or none is within the limit.
pub(crate) fn read_ready<F: Feed>(
    feed: &mut F,
    room: &mut u32,
    content: &mut Block,
    most: usize,
) -> usize
    requires { array_vec_len content.old + most ≤ content_limit }
    ensures took { TookInto (position (F.text feed.old) (F.faults feed.old) room.old)
        (position (F.text feed.new) (F.faults feed.new) room.new) content.old.items content.new.items result }
    ensures within { result ≤ most }
{
    let shown = feed.ready();
    let front = &shown[..shown.len().min(most).min(*room as usize)];
    let count = front.len();
    content.try_extend_from_slice(front).unwrap();
    feed.pass(count);
    *room -= count as u32;
    count
}
