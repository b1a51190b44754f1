//! Tells objects, libraries and tapes apart.

ghost use Rattle.std.specs.Prelude.{◌≡◌, ℕ};
ghost use Rattle.m11_obj_blocks.specs.Limited.{most_bytes, position};
ghost use Rattle.m11_obj_blocks.specs.Tapes.{ReadsPart, first_part};
ghost use Rattle.m11_dump.specs.Kind.{IsKind, is_bare, kind_by, kind_by_data, kind_by_next, kind_by_start};

use m11_base::Feed;
use m11_obj_blocks::{TapeFault, TapePart, TapeReader};

/// The kind of a file.
#[derive(Clone, Copy, PartialEq, Eq)]
pub enum Kind {
    /// An object: a list of modules, perhaps empty.
    Object,
    /// A library of objects.
    Library,
    /// An absolute loader tape.
    Tape,
}

// The kind of a file whose first block, read as a tape's, has this address and so many bytes of data.
fn kind_by_data(address: u16, count: u16) -> Kind
    ensures { result ≡ kind_by_data address count }
{
    match address {
        1 => Kind::Object,
        _ if count % 2 == 1 => Kind::Tape,
        5 => Kind::Object,
        7 => Kind::Library,
        _ => Kind::Tape,
    }
}

// The kind of a file whose first block, read as a tape's, has this address and no data.
fn kind_by_start(address: u16) -> Kind
    ensures { result ≡ kind_by_start address }
{
    match address {
        2 | 5 => Kind::Object,
        7 => Kind::Library,
        _ => Kind::Tape,
    }
}

// The kind of a file, from the result of reading its first block as a tape's; if that failed, the file is an object.
fn kind_by(first: Result<TapePart, TapeFault>) -> Kind
    ensures { result ≡ kind_by first }
{
    match first {
        Ok(TapePart::Data { address, count }) => kind_by_data(address, count),
        Ok(TapePart::Start(address)) => kind_by_start(address),
        Err(_) => Kind::Object,
    }
}

// Whether the first block has address 1 and no data.
fn is_bare(first: Result<TapePart, TapeFault>) -> bool
    ensures { result ≡ is_bare first }
{
    match first {
        Ok(TapePart::Start(address)) => address == 1,
        _ => false,
    }
}

// The kind of a file whose first block has address 1 and no data, from the result of reading the next block: a tape if the file ends
// without one, otherwise an object, even if reading failed.
fn kind_by_next(next: Result<TapePart, TapeFault>) -> Kind
    ensures { result ≡ kind_by_next next }
{
    match next {
        Err(TapeFault::NoTransfer) => Kind::Tape,
        _ => Kind::Object,
    }
}

// Reads a block as one of a tape: up to its data, or up to its end if it has no data.
fn read_block<F: Feed>(feed: &mut F) -> Result<TapePart, TapeFault>
    ensures { (room : ℕ) × ReadsPart (λ part. part) first_part (position (F.text feed.old) (F.faults feed.old) most_bytes)
        (position (F.text feed.new) (F.faults feed.new) room) result }
{
    let mut reader = TapeReader::new();
    reader.next(feed)
}

/// The kind of a file, from the first word of its first block, which is a record type in an object and a load address in a tape. The
/// file is an object if this word is 1 (a directory) or 5 (internal symbols), or if it is 2 (the end of a directory) and nothing
/// follows it in the block; a library if it is 7; otherwise a tape. But if it is 5 or 7 and an odd number of bytes follows it in the block,
/// the file is a tape; and if it is 1 and nothing follows it in the block, the file is a tape if it ends without a further block. If the first block can't be read, the file is an object. The feed is read up to the
/// end of this word, or up to the end of the block if nothing follows the word. A further block is read only if the word is 1 and
/// nothing follows it, and then in the same way.
pub fn kind_of<F: Feed>(feed: &mut F) -> Kind
    ensures { (room : ℕ) × IsKind (position (F.text feed.old) (F.faults feed.old) most_bytes)
        (position (F.text feed.new) (F.faults feed.new) room) result }
{
    let first = read_block(feed);
    if is_bare(first) {
        let next = read_block(feed);
        kind_by_next(next)
    } else {
        kind_by(first)
    }
}
