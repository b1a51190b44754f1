//! Dumps tapes, a block at a time.

ghost use Rattle.std.specs.Prelude.{◌≡◌, ◌%◌, ◌-◌, ◌≤◌, ◌<◌, ◌^◌, [], ℕ, length, sum, MatchResult, IfOk};
ghost use Rattle.m11_obj_blocks.specs.Limited.{most_bytes, position};
ghost use Rattle.m11_obj_blocks.specs.Tapes.{data_limit, tape_header};
ghost use Rattle.m11_obj_blocks.specs.declared.tape_part.TapeStage.TheVariants.{InBlock};
ghost use Rattle.m11_base_writes.specs.States.{output_of};
ghost use Rattle.m11_dump.specs.Positions.{fault_byte, placed_at};
ghost use Rattle.m11_dump.specs.Objects.{Puts};
ghost use Rattle.m11_dump.specs.Tapes.{AsInstructions, InOctal, tape_view};
ghost use Rattle.m11_dump.specs.Tapes as spec;

use crate::fault::{DumpFault, LocatedFault};
use crate::held::first_five;
use crate::instructions::{Lines, put_head, put_lines};
use crate::octets::location_after;
use crate::positions::{fault_byte, placed};
use crate::view::View;
use crate::words::put_data;
use m11_base::{Feed, Sink, octal6};
use m11_base_disassembly::Symbols;
use m11_base_writes::put_or_fail;
use m11_obj_blocks::{TapePart, TapeReader};
use std::alloc::{AllocError, Global};

// A block that was read and isn't shown yet.
#[derive(Drop)]
struct Held {
    // Its address.
    address: u16,
    // Its data.
    bytes: Vec<u8>,
    // How many of its first bytes the lines of the previous block show.
    shown: usize,
    // The number of blocks before it.
    before: u64,
}

// The lines of a block in octal. They show no bytes of the next block.
fn octal_lines(alloc: Global, block: &Held) -> Result<Lines, AllocError>
    requires { length block.now.bytes.items ≤ data_limit }
    ensures { IfOk result (λ lines. (lines.text.items ≡ spec.held_text InOctal block.now []) × (lines.over ≡ 0)) }
{
    let mut text = Vec::new(alloc);
    text.extend_from_slice(b"BLOCK ")?;
    text.extend_from_slice(&octal6(block.address))?;
    put_data(&mut text, block.address, &block.bytes)?;
    text.push(b'\n')?;
    Ok(Lines { text, over: 0 })
}

// The lines of a block as instructions. `beyond` holds the first bytes of the block that continues it.
fn source_lines(
    alloc: Global,
    symbols: &Symbols,
    block: &Held,
    beyond: &[u8],
) -> Result<Lines, AllocError>
    requires { length block.now.bytes.items ≤ data_limit }
    ensures { IfOk result (λ lines. (lines.text.items ≡ spec.held_text (AsInstructions symbols.now) block.now beyond.now)
        × (lines.over ≡ spec.held_over (AsInstructions symbols.now) block.now beyond.now)) }
{
    let mut text = Vec::new(alloc);
    put_head(&mut text, b"BLOCK ", block.address)?;
    let mut bytes = Vec::new(alloc);
    bytes.extend_from_slice(&block.bytes)?;
    bytes.extend_from_slice(beyond)?;
    let over = put_lines(
        &mut text,
        symbols,
        block.address,
        &bytes,
        block.bytes.len(),
        block.shown,
    )?;
    Ok(Lines { text, over })
}

// The lines of a block in this view. `beyond` holds the first bytes of the block that continues it.
fn block_lines(
    alloc: Global,
    view: View,
    symbols: &Symbols,
    block: &Held,
    beyond: &[u8],
) -> Result<Lines, AllocError>
    requires { length block.now.bytes.items ≤ data_limit }
    ensures { IfOk result (λ lines. (lines.text.items ≡ spec.held_text (tape_view view symbols.now) block.now beyond.now)
        × (lines.over ≡ spec.held_over (tape_view view symbols.now) block.now beyond.now)) }
{
    match view {
        View::Octal => octal_lines(alloc, block),
        View::Instructions => source_lines(alloc, symbols, block, beyond),
    }
}

// The line of the transfer block.
fn start_text(alloc: Global, address: u16) -> Result<Vec<u8>, AllocError>
    ensures { IfOk result (λ text. text.items ≡ spec.start_text address) }
{
    let mut text = Vec::new(alloc);
    text.extend_from_slice(b"START ")?;
    text.extend_from_slice(&octal6(address))?;
    text.push(b'\n')?;
    Ok(text)
}

// Shows the transfer block.
fn show_start<S: Sink>(alloc: Global, address: u16, sink: &mut S) -> Result<(), DumpFault>
    ensures { Puts (spec.start_text address) (output_of S.Sink sink.old) (output_of S.Sink sink.new) result }
{
    let text = start_text(alloc, address)?;
    put_or_fail(sink, &text, DumpFault::Write)
}

// Shows a block that `beyond` continues. Returns how many bytes of `beyond` its lines show.
fn show_block<S: Sink>(
    alloc: Global,
    view: View,
    symbols: &Symbols,
    block: &Held,
    beyond: &[u8],
    sink: &mut S,
) -> Result<usize, DumpFault>
    requires { length block.now.bytes.items ≤ data_limit }
    ensures text { Puts (spec.held_text (tape_view view symbols.now) block.now beyond.now) (output_of S.Sink sink.old) (output_of S.Sink sink.new) result }
    ensures over { IfOk result (λ over. over ≡ spec.held_over (tape_view view symbols.now) block.now beyond.now) }
{
    let lines = block_lines(alloc, view, symbols, block, beyond)?;
    put_or_fail(sink, &lines.text, DumpFault::Write)?;
    Ok(lines.over)
}

/// Reads the `count` bytes of data of a block whose header was read. Faults: `Tape`, if not all of them can be read; `NoMemory`.
pub(crate) fn read_data<F: Feed>(
    alloc: Global,
    reader: &mut TapeReader,
    feed: &mut F,
    address: u16,
    count: u16,
) -> Result<Vec<u8>, DumpFault>
    requires { reader.old.stage ≡ InBlock count (sum (tape_header address count) % 256) }
    ensures { MatchResult result
        (λ bytes. spec.ReadsData (position (F.text feed.old) (F.faults feed.old) reader.old.room)
        (position (F.text feed.new) (F.faults feed.new) reader.new.room) reader.new.stage address count bytes.items)
        (λ fault. spec.StopsData fault (position (F.text feed.old) (F.faults feed.old) reader.old.room)
        (position (F.text feed.new) (F.faults feed.new) reader.new.room) count) }
{
    let mut bytes = Vec::new(alloc);
    'bytes: for index in 0..count {
        match reader.byte(feed) {
            Ok(byte) => bytes.push(byte)?,
            Err(fault) => return Err(DumpFault::Tape(fault)),
        }
    }
    Ok(bytes)
}

/// This fault in the block after `blocks` blocks, at the byte that shows it: the last one read if the reader refused it, otherwise the
/// next one.
pub(crate) fn placed_after(fault: DumpFault, blocks: u64, reader: &TapeReader) -> LocatedFault
    requires { blocks < 2 ^ 32 }
    ensures { result ≡ placed_at fault blocks (fault_byte fault (most_bytes - reader.now.room)) }
{
    placed(fault, blocks, fault_byte(fault, reader.bytes_read()))
}

/// The number of blocks before the one in which this fault was found, where the next part should begin: after `passed` blocks of data, the
/// last of which has its data up to the offset `end`. The byte there is its sum byte, so that a fault at this byte is a fault of that block.
pub(crate) fn blocks_before(fault: DumpFault, passed: u64, end: u32, reader: &TapeReader) -> u64
    ensures { result ≡ spec.blocks_before passed end (fault_byte fault (most_bytes - reader.now.room)) }
{
    if fault_byte(fault, reader.bytes_read()) == u64::from(end) {
        passed.saturating_sub(1)
    } else {
        passed
    }
}

// The bytes that continue the pending block, if the next block has these bytes and this address: its first five if it begins where
// the pending block ends; otherwise, or if no block is pending, none.
fn beyond_of<'a>(held: &Option<Held>, address: u16, bytes: &'a [u8]) -> &'a [u8]
    requires { spec.HeldFits held.now }
    ensures { result.now ≡ spec.held_beyond held.now (address, bytes.now) }
{
    let follows = match held {
        Some(block) => address == location_after(block.address, block.bytes.len()),
        None => false,
    };
    if follows { first_five(bytes) } else { &[] }
}

// Shows the pending block, if there is one, which `beyond` continues. Returns how many bytes of `beyond` its lines show; 0 if no block
// is pending.
fn show_held<S: Sink>(
    alloc: Global,
    view: View,
    symbols: &Symbols,
    held: &Option<Held>,
    beyond: &[u8],
    reader: &TapeReader,
    sink: &mut S,
) -> Result<usize, LocatedFault>
    requires { spec.HeldFits held.now }
    ensures { spec.ShowsHeld (tape_view view symbols.now) held.now beyond.now (most_bytes - reader.now.room)
        (output_of S.Sink sink.old) (output_of S.Sink sink.new) result }
{
    match held {
        Some(block) => match show_block(alloc, view, symbols, block, beyond, sink) {
            Ok(over) => Ok(over),
            Err(fault) => Err(placed_after(fault, block.before, reader)),
        },
        None => Ok(0),
    }
}

// Shows the pending block, if there is one, with nothing after it, and returns this fault in the block after `before` blocks, or
// the fault of showing the pending block.
fn stopped<S: Sink>(
    alloc: Global,
    view: View,
    symbols: &Symbols,
    held: &Option<Held>,
    fault: DumpFault,
    before: u64,
    reader: &TapeReader,
    sink: &mut S,
) -> LocatedFault
    requires fits { spec.HeldFits held.now }
    requires few { before < 2 ^ 32 }
    ensures { spec.StopsHeld (tape_view view symbols.now) held.now fault before (most_bytes - reader.now.room)
        (output_of S.Sink sink.old) (output_of S.Sink sink.new) result }
{
    match show_held(alloc, view, symbols, held, &[], reader, sink) {
        Ok(_) => placed_after(fault, before, reader),
        Err(said) => said,
    }
}

// Shows the pending block, if there is one, with nothing after it, and then the transfer block.
fn show_end<S: Sink>(
    alloc: Global,
    view: View,
    symbols: &Symbols,
    held: &Option<Held>,
    address: u16,
    passed: u64,
    reader: &TapeReader,
    sink: &mut S,
) -> Result<(), LocatedFault>
    requires fits { spec.HeldFits held.now }
    requires few { passed < 2 ^ 32 }
    ensures { spec.EndsHeld (tape_view view symbols.now) held.now address passed (most_bytes - reader.now.room)
        (output_of S.Sink sink.old) (output_of S.Sink sink.new) result }
{
    show_held(alloc, view, symbols, held, &[], reader, sink)?;
    match show_start(alloc, address, sink) {
        Ok(()) => Ok(()),
        Err(fault) => Err(placed_after(fault, passed, reader)),
    }
}

/// Writes the lines of a tape's blocks, those of each block when the next one is read, and finally its start address. In a dump as
/// instructions the last line of a block includes the first words of the next block if the instruction continues there. `symbols` name
/// addresses in operands, and each line has a comment that names its address by the nearest of them at or below it, if there is one.
/// Nothing is read after the transfer block.
///
/// Errors, each with the number of its block and the byte that shows it: `Tape`, if the bytes aren't a block, or the feed failed, ended
/// without a transfer block or has more bytes than a tape may have; `Write`, if the sink failed, after part of a block's lines was
/// written; `NoMemory`, if memory was refused for a block's data or lines. A wrong or missing sum byte is a fault of its own block, whose
/// lines are written nevertheless. The lines of all blocks before a fault are written first.
pub fn dump_tape<F: Feed, S: Sink>(
    alloc: Global,
    view: View,
    symbols: &Symbols,
    feed: &mut F,
    sink: &mut S,
) -> Result<(), LocatedFault>
    ensures { (room : ℕ) × spec.DumpsTape (tape_view view symbols.now) (position (F.text feed.old) (F.faults feed.old) most_bytes)
        (position (F.text feed.new) (F.faults feed.new) room)
        (output_of S.Sink sink.old) (output_of S.Sink sink.new) result }
{
    let mut reader = TapeReader::new();
    let mut held: Option<Held> = None;
    let mut passed: u64 = 0;
    'parts: loop {
        let end = reader.bytes_read();
        match reader.next(feed) {
            Ok(TapePart::Data { address, count }) => {
                match read_data(alloc, &mut reader, feed, address, count) {
                    Ok(bytes) => {
                        let beyond = beyond_of(&held, address, &bytes);
                        let shown = show_held(alloc, view, symbols, &held, beyond, &reader, sink)?;
                        held = Some(Held {
                            address,
                            bytes,
                            shown,
                            before: passed,
                        });
                        passed += 1;
                    }
                    Err(fault) => {
                        return Err(stopped(
                            alloc, view, symbols, &held, fault, passed, &reader, sink,
                        ));
                    }
                }
            }
            Ok(TapePart::Start(address)) => {
                return show_end(alloc, view, symbols, &held, address, passed, &reader, sink);
            }
            Err(fault) => {
                let fault = DumpFault::Tape(fault);
                let before = blocks_before(fault, passed, end, &reader);
                return Err(stopped(alloc, view, symbols, &held, fault, before, &reader, sink));
            }
        }
    }
}
