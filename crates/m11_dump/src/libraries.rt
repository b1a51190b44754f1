//! Dumps libraries of objects, a block at a time.

ghost use Rattle.std.specs.Prelude.{◌≡◌, ◌<◌, ◌≤◌, ◌^◌, ℕ, List, Err, false, length};
ghost use Rattle.std.specs.List.{flat_map};
ghost use Rattle.m11_obj.specs.Reading.{record_entries};
ghost use Rattle.m11_obj_blocks.specs.Limited.{most_bytes, position};
ghost use Rattle.m11_base_writes.specs.States.{OutputState, output_of};
ghost use Rattle.m11_dump.specs.Entries.{entry_line};
ghost use Rattle.m11_dump.specs.Libraries as spec;
ghost use Rattle.m11_dump.specs.LibraryParts as parts;
ghost use Rattle.m11_dump.specs.Objects.{Puts};

use crate::fault::{DumpFault, LocatedFault};
use crate::library_parts::{Part, Stage, begins, part_of, stage_after};
use crate::library_start::seek;
use crate::positions::{fault_byte, placed, record_byte, rule_byte};
use crate::records::put_entries;
use m11_base::{Feed, Sink};
use m11_base_writes::put_or_fail;
use m11_link_modules::ModuleFault;
use m11_obj::{Block, BlockReader, Record, read_record};
use std::alloc::Global;

// Shows the entries of a directory, one to a line.
fn show_entries<S: Sink>(alloc: Global, record: &Record<'_>, sink: &mut S) -> Result<(), DumpFault>
    ensures { Puts (flat_map entry_line (record_entries «record».now)) (output_of S.Sink sink.old)
        (output_of S.Sink sink.new) result }
{
    let mut text = Vec::new(alloc);
    put_entries(&mut text, record)?;
    put_or_fail(sink, &text, DumpFault::Write)?;
    Ok(())
}

// The fault of a block that may not come here. `blocks` blocks come before it, and it ends after `read` bytes of the file.
fn out_of_order(block: &Block, blocks: u64, read: u32) -> LocatedFault
    requires few { blocks < 2 ^ 32 }
    ensures { result ≡ spec.out_of_order block.now.items blocks read }
{
    let byte = rule_byte(block, ModuleFault::BadOrder, read);
    placed(DumpFault::Rule(ModuleFault::BadOrder), blocks, byte)
}

// Accepts a directory, shows its entries and returns the stage after it. It is refused if it isn't a valid record, may not come
// here, or couldn't be shown.
fn accept_directory<S: Sink>(
    alloc: Global,
    block: &Block,
    stage: Stage,
    blocks: u64,
    read: u32,
    sink: &mut S,
) -> Result<Stage, LocatedFault>
    requires part { parts.part_of block.now.items ≡ Part.Directory }
    requires few { blocks < 2 ^ 32 }
    ensures { spec.AcceptsPart stage blocks block.now.items read (output_of S.Sink sink.old) (output_of S.Sink sink.new) result }
{
    match read_record(block) {
        Ok(record) => match stage_after(stage, Part::Directory, begins(&record)) {
            Some(next) => match show_entries(alloc, &record, sink) {
                Ok(()) => Ok(next),
                Err(fault) => Err(placed(fault, blocks, u64::from(read))),
            },
            None => Err(out_of_order(block, blocks, read)),
        },
        Err(fault) => Err(placed(
            DumpFault::Record(fault),
            blocks,
            record_byte(block, fault, read),
        )),
    }
}

// Accepts a block of which only the type is read, and returns the stage after it. It is refused if it may not come here.
fn accept_unread(
    block: &Block,
    part: Part,
    stage: Stage,
    blocks: u64,
    read: u32,
) -> Result<Stage, LocatedFault>
    requires part { parts.part_of block.now.items ≡ part }
    requires unread { parts.is_read part ≡ false }
    requires few { blocks < 2 ^ 32 }
    ensures { (output : OutputState) → spec.AcceptsPart stage blocks block.now.items read output output result }
{
    match stage_after(stage, part, false) {
        Some(next) => Ok(next),
        None => Err(out_of_order(block, blocks, read)),
    }
}

// The fault of a block whose type is neither that of a module's record nor that of the library's end: the fault of reading the block as
// a record, or else that the block is out of order.
fn refuse_other(block: &Block, blocks: u64, read: u32) -> LocatedFault
    requires part { parts.part_of block.now.items ≡ Part.Other }
    requires few { blocks < 2 ^ 32 }
    ensures { (stage : Stage) (output : OutputState) → spec.AcceptsPart stage blocks block.now.items read output output (Err result) }
{
    match read_record(block) {
        Ok(_) => out_of_order(block, blocks, read),
        Err(fault) => placed(
            DumpFault::Record(fault),
            blocks,
            record_byte(block, fault, read),
        ),
    }
}

// Accepts a block, shows its entries if it is a directory, and returns the stage after it; or refuses the block. `blocks` blocks come
// before it, and it ends after `read` bytes of the file.
fn accept_block<S: Sink>(
    alloc: Global,
    block: &Block,
    stage: Stage,
    blocks: u64,
    read: u32,
    sink: &mut S,
) -> Result<Stage, LocatedFault>
    requires { blocks < 2 ^ 32 }
    ensures { spec.AcceptsPart stage blocks block.now.items read (output_of S.Sink sink.old) (output_of S.Sink sink.new) result }
{
    match part_of(block) {
        Part::Directory => accept_directory(alloc, block, stage, blocks, read, sink),
        Part::Inner => accept_unread(block, Part::Inner, stage, blocks, read),
        Part::ModuleEnd => accept_unread(block, Part::ModuleEnd, stage, blocks, read),
        Part::LibraryEnd => accept_unread(block, Part::LibraryEnd, stage, blocks, read),
        Part::Other => Err(refuse_other(block, blocks, read)),
    }
}

// Shows the blocks after the first one, up to the library's end or the first fault. `first` is the stage after the first block, which
// ends after `before` bytes of the file.
fn list_blocks<F: Feed, S: Sink>(
    alloc: Global,
    feed: &mut F,
    first: Stage,
    before: u32,
    sink: &mut S,
) -> Result<(), LocatedFault>
    requires { before ≤ most_bytes }
    ensures { (front : List ℕ) → length front ≡ before
        → (room : ℕ) × spec.ListsBlocks front first (position (F.text feed.old) (F.faults feed.old) most_bytes)
        (position (F.text feed.new) (F.faults feed.new) room)
        (output_of S.Sink sink.old) (output_of S.Sink sink.new) result }
{
    let mut reader = BlockReader::new();
    let mut block = Block::new();
    let mut stage = first;
    let mut blocks: u64 = 1;
    'reading: loop {
        match stage {
            Stage::Over => return Ok(()),
            Stage::Between | Stage::Inside => {}
        }
        match reader.next_into(feed, &mut block) {
            Ok(true) => {
                let read = before + reader.bytes_read();
                stage = accept_block(alloc, &block, stage, blocks, read, sink)?;
                blocks += 1;
            }
            Ok(false) => {
                let read = before + reader.bytes_read();
                let fault = DumpFault::Rule(ModuleFault::BadOrder);
                return Err(placed(fault, blocks, u64::from(read)));
            }
            Err(fault) => {
                let fault = DumpFault::Block(fault);
                let read = before + reader.bytes_read();
                return Err(placed(fault, blocks, fault_byte(fault, read)));
            }
        }
    }
}

/// Writes the lines of the directories of a library's modules, block by block. The modules begin with the first block whose length
/// and sum byte are right and whose type is that of a module's record or of the library's end; all bytes before it are skipped.
/// Other blocks have no lines, and only their type is read. The rules of modules aren't applied.
///
/// Errors, each with the number of its block, where that first block is 1, and the byte that shows it: `Block`, if the bytes aren't
/// a block, the feed failed, or there are more than 4,194,304 bytes up to the end of the first block, or after it; `Record`, if a
/// directory isn't a valid record, or a block has neither a type of a module's record nor that of the library's end; `Rule`, if a
/// block comes where it may not, such as a module's first directory without the module's name, or with a name before the module
/// before has ended, or if the bytes end before the library does; `Write`, if the sink failed, after part of a block's lines was
/// written; `NoMemory`, if memory was refused. The lines of all earlier blocks are written first.
pub fn dump_library<F: Feed, S: Sink>(
    alloc: Global,
    feed: &mut F,
    sink: &mut S,
) -> Result<(), LocatedFault>
    ensures { (room : ℕ) × spec.DumpsLibrary (position (F.text feed.old) (F.faults feed.old) most_bytes)
        (position (F.text feed.new) (F.faults feed.new) room)
        (output_of S.Sink sink.old) (output_of S.Sink sink.new) result }
{
    let mut first = Block::new();
    let before = seek(alloc, feed, &mut first)?;
    let stage = accept_block(alloc, &first, Stage::Between, 0, before, sink)?;
    list_blocks(alloc, feed, stage, before, sink)
}
