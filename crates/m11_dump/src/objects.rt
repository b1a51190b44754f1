//! Dumps objects, a block at a time.

ghost use Rattle.std.specs.Prelude.{◌≡◌, ◌<◌, ◌^◌, ◌++◌, ℕ, List, []};
ghost use Rattle.m11_obj_blocks.specs.Limited.{most_bytes, position};
ghost use Rattle.m11_link_modules.specs.Parts.{Part, record_parts};
ghost use Rattle.m11_link_modules.specs.Positions.{known_of};
ghost use Rattle.m11_obj.specs.Reading.{IsRecord};
ghost use Rattle.m11_base_writes.specs.States.{output_of};
ghost use Rattle.m11_dump.specs.Objects as spec;

use crate::fault::{DumpFault, LocatedFault};
use crate::held::{HeldText, show_held};
use crate::positions::{fault_byte, placed, record_byte, rule_byte};
use crate::stand::{Stand, address_after};
use crate::taking::dump_record;
use crate::view::View;
use m11_base::{Feed, Seed, Sink};
use m11_link_modules::Rules;
use m11_obj::{Block, BlockReader, Record, RecordKind, read_record};
use std::alloc::Global;

// Whether a record is the end of a module.
fn ends_module(record: &Record<'_>) -> bool
    ensures { IsRecord «record».now → result ≡ spec.ends_module «record».now }
{
    matches!(record.kind(), RecordKind::EndOfModule)
}

// Forgets the open module if an accepted record ends it, so that the next module is checked as if it were alone.
fn leave_module(rules: &mut Rules, record: &Record<'_>)
    ensures { (parts : List Part) → IsRecord «record».now → rules.old ≡ known_of (parts ++ record_parts «record».now)
        → rules.new ≡ known_of (spec.open_after parts «record».now) }
{
    if ends_module(record) {
        rules.forget();
    }
}

// Checks a record against the rules, which then forget the open module if the record ends it. `blocks` blocks come before the
// record's block, which ends after `read` bytes of the file.
fn judge_record(
    rules: &mut Rules,
    record: &Record<'_>,
    blocks: u64,
    read: u32,
) -> Result<(), LocatedFault>
    requires { blocks < 2 ^ 32 }
    ensures { (parts : List Part) → IsRecord «record».now → rules.old ≡ known_of parts
        → spec.Judges parts rules.new «record».now blocks read result }
{
    match rules.record(record) {
        Ok(()) => {
            leave_module(rules, record);
            Ok(())
        }
        Err(fault) => {
            let byte = rule_byte(record.data(), fault, read);
            Err(placed(DumpFault::from(fault), blocks, byte))
        }
    }
}

// Checks the end of a file of `read` bytes and `blocks` blocks against the rules.
fn judge_end(rules: &mut Rules, blocks: u64, read: u32) -> Result<(), LocatedFault>
    requires { blocks < 2 ^ 32 }
    ensures { (parts : List Part) → rules.old ≡ known_of parts → spec.JudgesEnd parts blocks read result }
{
    match rules.end_of_file() {
        Ok(()) => Ok(()),
        Err(fault) => Err(placed(DumpFault::Rule(fault), blocks, u64::from(read))),
    }
}

// Shows the pending text, if there is one, with nothing after it. An error is reported in the block after `blocks` blocks, at
// offset `read`.
fn show_last<S: Sink>(
    alloc: Global,
    view: View,
    address: u16,
    held: &Option<HeldText>,
    blocks: u64,
    read: u32,
    sink: &mut S,
) -> Result<(), LocatedFault>
    requires fits { spec.HeldFits held.now }
    requires few { blocks < 2 ^ 32 }
    ensures { spec.ShowsLast view address held.now blocks read (output_of S.Sink sink.old) (output_of S.Sink sink.new) result }
{
    match show_held(alloc, view, held, &[], sink) {
        Ok(_) => Ok(()),
        Err(fault) => Err(placed(fault, blocks, u64::from(read))),
    }
}

// Shows and checks a record whose block ends after `read` bytes of the file, and returns the state after it. If the record isn't
// accepted by the rules, the text that is then pending is shown before the fault is returned.
fn accept_record<S: Sink>(
    alloc: Global,
    view: View,
    rules: &mut Rules,
    record: &Record<'_>,
    stand: Stand,
    read: u32,
    sink: &mut S,
) -> Result<Stand, LocatedFault>
    requires fits { spec.HeldFits stand.held }
    requires at { spec.HeldAt stand.address stand.held }
    requires few { stand.blocks < 2 ^ 32 }
    ensures { (parts : List Part) → IsRecord «record».now → rules.old ≡ known_of parts
        → spec.ShowsBlock view stand parts rules.new «record».now read (output_of S.Sink sink.old) (output_of S.Sink sink.new) result }
{
    let blocks = stand.blocks;
    let address = address_after(stand.address, record);
    match dump_record(alloc, view, stand.address, stand.held, record, sink) {
        Ok(held) => match judge_record(rules, record, blocks, read) {
            Ok(()) => Ok(Stand {
                address,
                blocks: blocks + 1,
                held,
            }),
            Err(said) => {
                show_last(alloc, view, address, &held, blocks, read, sink)?;
                Err(said)
            }
        },
        Err(fault) => Err(placed(fault, blocks, u64::from(read))),
    }
}

// Shows and checks the record of a block, and returns the state after it. If the block isn't a valid record, the pending text is
// shown before the fault is returned.
fn accept_block<S: Sink>(
    alloc: Global,
    view: View,
    rules: &mut Rules,
    block: &Block,
    stand: Stand,
    read: u32,
    sink: &mut S,
) -> Result<Stand, LocatedFault>
    requires fits { spec.HeldFits stand.held }
    requires at { spec.HeldAt stand.address stand.held }
    requires few { stand.blocks < 2 ^ 32 }
    ensures { (parts : List Part) → rules.old ≡ known_of parts
        → spec.ShowsBlock view stand parts rules.new block.now.items read (output_of S.Sink sink.old) (output_of S.Sink sink.new) result }
{
    match read_record(block) {
        Ok(record) => accept_record(alloc, view, rules, &record, stand, read, sink),
        Err(fault) => {
            let byte = record_byte(block, fault, read);
            show_last(
                alloc,
                view,
                stand.address,
                &stand.held,
                stand.blocks,
                read,
                sink,
            )?;
            Err(placed(DumpFault::Record(fault), stand.blocks, byte))
        }
    }
}

// Shows the pending text, if there is one, at the end of a file of `read` bytes, and checks this end.
fn end_object<S: Sink>(
    alloc: Global,
    view: View,
    rules: &mut Rules,
    stand: &Stand,
    read: u32,
    sink: &mut S,
) -> Result<(), LocatedFault>
    requires fits { spec.HeldFits stand.now.held }
    requires few { stand.now.blocks < 2 ^ 32 }
    ensures { (parts : List Part) → rules.old ≡ known_of parts
        → spec.EndsObject view stand.now parts read (output_of S.Sink sink.old) (output_of S.Sink sink.new) result }
{
    show_last(
        alloc,
        view,
        stand.address,
        &stand.held,
        stand.blocks,
        read,
        sink,
    )?;
    judge_end(rules, stand.blocks, read)
}

// Shows the pending text, if there is one, and returns the fault `said`, or the fault of showing the text.
fn stopped<S: Sink>(
    alloc: Global,
    view: View,
    stand: &Stand,
    said: LocatedFault,
    read: u32,
    sink: &mut S,
) -> LocatedFault
    requires fits { spec.HeldFits stand.now.held }
    requires few { stand.now.blocks < 2 ^ 32 }
    ensures { spec.StopsHeld view stand.now said read (output_of S.Sink sink.old) (output_of S.Sink sink.new) result }
{
    match show_last(
        alloc,
        view,
        stand.address,
        &stand.held,
        stand.blocks,
        read,
        sink,
    ) {
        Ok(()) => said,
        Err(other) => other,
    }
}

// Shows and checks the blocks of a file up to its end or the first fault. The rules must not have accepted a record yet.
fn dump_blocks<F: Feed, S: Sink>(
    alloc: Global,
    view: View,
    rules: &mut Rules,
    feed: &mut F,
    sink: &mut S,
) -> Result<(), LocatedFault>
    requires { rules.old ≡ known_of [] }
    ensures { (room : ℕ) × spec.DumpsObject view (position (F.text feed.old) (F.faults feed.old) most_bytes)
        (position (F.text feed.new) (F.faults feed.new) room)
        (output_of S.Sink sink.old) (output_of S.Sink sink.new) result }
{
    let mut reader = BlockReader::new();
    let mut block = Block::new();
    let mut stand = Stand {
        address: 0,
        blocks: 0,
        held: None,
    };
    'reading: loop {
        match reader.next_into(feed, &mut block) {
            Ok(true) => {
                let read = reader.bytes_read();
                stand = accept_block(alloc, view, rules, &block, stand, read, sink)?;
            }
            Ok(false) => {
                let read = reader.bytes_read();
                return end_object(alloc, view, rules, &stand, read, sink);
            }
            Err(fault) => {
                let fault = DumpFault::Block(fault);
                let read = reader.bytes_read();
                let said = placed(fault, stand.blocks, fault_byte(fault, read));
                return Err(stopped(alloc, view, &stand, said, read, sink));
            }
        }
    }
}

/// Writes the lines of an object's records, and checks each record against the rules of modules, each module as if it were linked
/// alone. `seed` starts the hashes of the names; no result depends on it. The lines of a text are written once the record after the
/// text and its relocations has been read, those of any other record at once. In a dump as instructions a text has its relocations
/// beside its lines, and its last line includes the first words of the next text if the instruction continues there.
///
/// Errors, each with the number of its block and the byte that shows it: `Block`, if the bytes aren't a block, or the feed failed
/// or has more bytes than an object may have; `Record`, if a block isn't a valid record; `Rule`, if a record breaks a rule, after
/// its lines were written, or if the file ends inside a module; `Write`, if the sink failed, after part of the lines of one of the
/// last three records was written; `NoMemory`, if memory was refused for those lines, for a text or for a name. `Write` and
/// `NoMemory` give the number of the block that was read last; but if the file has ended or the next block can't be read, they give the
/// number of that next block. The lines of all earlier blocks are written first.
pub fn dump_object<F: Feed, S: Sink>(
    alloc: Global,
    seed: Seed,
    view: View,
    feed: &mut F,
    sink: &mut S,
) -> Result<(), LocatedFault>
    ensures { (room : ℕ) × spec.DumpsObject view (position (F.text feed.old) (F.faults feed.old) most_bytes)
        (position (F.text feed.new) (F.faults feed.new) room)
        (output_of S.Sink sink.old) (output_of S.Sink sink.new) result }
{
    let mut rules = Rules::new(alloc, seed);
    let dumped = dump_blocks(alloc, view, &mut rules, feed, sink);
    drop(rules);
    dumped
}
