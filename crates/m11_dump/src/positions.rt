//! The byte of a file that shows a fault.

ghost use Rattle.std.specs.Prelude.{◌≡◌, ◌≤◌, ◌<◌, ◌^◌, ◌↔◌, length, Err, IsTrue};
ghost use Rattle.m11_obj_blocks.specs.Frames.{content_limit};
ghost use Rattle.m11_obj.specs.Reading.{content_of};
ghost use Rattle.m11_dump.specs.Positions as spec;

use crate::fault::{DumpFault, LocatedFault};
use m11_link_modules::ModuleFault;
use m11_obj::{Block, BlockFault, RecordFault, TapeFault, read_record};

/// The offset of the byte that shows a fault in the blocks of an object, library or tape, after `read` bytes: that of the last byte
/// if the reader refused it, otherwise `read`.
pub(crate) fn fault_byte(fault: DumpFault, read: u32) -> u64
    ensures { result ≡ spec.fault_byte fault read }
{
    let read = u64::from(read);
    match fault {
        DumpFault::Block(
            BlockFault::BadSum | BlockFault::TooLong | BlockFault::BadStart | BlockFault::TooShort,
        ) => read.saturating_sub(1),
        DumpFault::Tape(TapeFault::BadSum | TapeFault::BadStart | TapeFault::TooShort) => {
            read.saturating_sub(1)
        }
        _ => read,
    }
}

/// This fault in the block after `blocks` blocks, at this offset in the file.
pub(crate) fn placed(fault: DumpFault, blocks: u64, byte: u64) -> LocatedFault
    requires { blocks < 2 ^ 32 }
    ensures { result ≡ spec.placed_at fault blocks byte }
{
    LocatedFault {
        fault,
        block: blocks + 1,
        byte,
    }
}

// Whether reading this content as a record gives this fault.
fn has_fault(content: &Block, fault: RecordFault) -> bool
    ensures { IsTrue result ↔ (content_of content.now.items ≡ Err fault) }
{
    match read_record(content) {
        Ok(_) => false,
        Err(found) => found == fault,
    }
}

// The index of the byte that shows the fault of a block's content: the last byte of the shortest prefix that has the fault. The fault isn't
// `BadLength`, which no byte shows.
fn index_with(content: &Block, fault: RecordFault) -> usize
    requires has { content_of content.now.items ≡ Err fault }
    requires other { fault ≡ RecordFault.BadLength → ⊥ }
    ensures { spec.FirstHas fault content.now.items result }
{
    let mut beginning = Block::new();
    'beginnings: for index in 0..content.len() {
        beginning.push(content[index]);
        if has_fault(&beginning, fault) {
            return index;
        }
    }
    unreachable!()
}

// The index of the byte that shows the fault of a block's content. For `BadLength` it is the content's length.
fn index_of(content: &Block, fault: RecordFault) -> usize
    requires { content_of content.now.items ≡ Err fault }
    ensures shows { spec.FaultShowsAt fault content.now.items result }
    ensures within { result ≤ length content.now.items }
{
    match fault {
        RecordFault::BadLength => content.len(),
        _ => index_with(content, fault),
    }
}

// The offset of the first byte of a block's content, if the block ends after `read` bytes of the file.
fn content_start(content: &[u8], read: u32) -> u64
    requires { length content.now ≤ content_limit }
    ensures { result ≡ spec.content_start content.now read }
{
    let after = content.len() as u64 + 1;
    u64::from(read).saturating_sub(after)
}

/// The offset of the byte that shows the fault of a block's content, if the block ends after `read` bytes of the file.
pub(crate) fn record_byte(content: &Block, fault: RecordFault, read: u32) -> u64
    requires { content_of content.now.items ≡ Err fault }
    ensures { spec.RecordShowsAt fault content.now.items read result }
{
    content_start(content, read) + index_of(content, fault) as u64
}

/// The offset of the byte that shows that a record breaks a rule of modules, if its block ends after `read` bytes of the file: that of
/// the first byte of its content. For `NoMemory` it is `read`.
pub(crate) fn rule_byte(content: &[u8], fault: ModuleFault, read: u32) -> u64
    requires { length content.now ≤ content_limit }
    ensures { result ≡ spec.rule_byte fault content.now read }
{
    match fault {
        ModuleFault::NoMemory => u64::from(read),
        _ => content_start(content, read),
    }
}
