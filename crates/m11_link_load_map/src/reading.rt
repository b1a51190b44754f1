//! The reading of objects: the first pass of a link, which also records what the map needs.

ghost use Rattle.std.specs.Prelude.{◌≡◌, ℕ, List, [], IfOk};
ghost use Rattle.m11_link_layout.specs.Layout.{LayoutAfter};
ghost use Rattle.m11_base_writes.specs.Passes.{pass_of};
ghost use Rattle.m11_link_load_map.specs.Reading.{NotedBetween, NotesAll, NotesBlock, NotesObject, NotesObjects, NotedAfter};
ghost use Rattle.m11_link_modules.specs.Parts.{Part};
ghost use Rattle.m11_obj.specs.Reading.{IsRecord};

use crate::fault::ObjectsFault;
use crate::noted::{MapFact, add_block};
use m11_base::{Feed, Seed};
use m11_link_layout::{Layout, LinkFault, Plan};
use m11_obj::{Block, BlockReader};
use std::alloc::Global;

// Accepts one block, and records what the map needs from it. Errors: those of the layout, and `NoMemory`.
fn accept_block(
    layout: &mut Layout,
    noted: &mut Vec<MapFact>,
    block: &Block,
) -> Result<(), LinkFault>
    ensures notes { (bottom : ℕ) (before : List Part) → NotedAfter bottom before layout.old noted.old.items
        → NotesBlock bottom before layout.new noted.new.items block.now.items result }
    ensures is_record { IfOk result (λ _. IsRecord block.now.items) }
{
    layout.block(block)?;
    add_block(noted, block)?;
    Ok(())
}

// Reads one object, block by block, up to its first fault.
fn read_object<F: Feed>(
    feed: &mut F,
    layout: &mut Layout,
    noted: &mut Vec<MapFact>,
) -> Result<(), LinkFault>
    ensures { (bottom : ℕ) (before : List Part) → NotedAfter bottom before layout.old noted.old.items
        → NotesObject (F.text feed.old) (F.text feed.new) (F.faults feed.old) (F.faults feed.new) bottom before
        layout.new noted.new.items result }
{
    let mut reader = BlockReader::new();
    let mut block = Block::new();
    'items: while reader.next_into(feed, &mut block)? {
        accept_block(layout, noted, &block)?;
    }
    layout.end_file()
}

// Reads the objects one after another, up to the first fault.
fn read_objects<F: Feed>(
    feeds: &mut [F],
    layout: &mut Layout,
    noted: &mut Vec<MapFact>,
) -> Result<(), ObjectsFault>
    ensures { (bottom : ℕ) (before : List Part) → NotedBetween bottom before layout.old noted.old.items
        → NotesObjects (pass_of F.text F.faults feeds.old feeds.new) bottom before layout.new noted.new.items result }
{
    let mut index = 0;
    'feeds: for feed in feeds.iter_mut() {
        match read_object(feed, layout, noted) {
            Ok(()) => index += 1,
            Err(fault) => {
                return Err(ObjectsFault {
                    object_index: Some(index),
                    fault,
                });
            }
        }
    }
    Ok(())
}

/// Reads all objects, and returns the plan of a link of them. `noted`, which must be empty before, gets the other facts that the map
/// needs. Errors: those of a link's first pass, each with the object at fault, unless all objects were read.
pub(crate) fn read_all<F: Feed>(
    alloc: Global,
    seed: Seed,
    feeds: &mut [F],
    bottom: u16,
    noted: &mut Vec<MapFact>,
) -> Result<Plan, ObjectsFault>
    requires { noted.old.items ≡ [] }
    ensures { NotesAll (pass_of F.text F.faults feeds.old feeds.new) bottom noted.new.items result }
{
    let mut layout = Layout::with_seed(alloc, seed, bottom);
    match read_objects(feeds, &mut layout, noted) {
        Ok(()) => match layout.end() {
            Ok(plan) => Ok(plan),
            Err(fault) => Err(ObjectsFault {
                object_index: None,
                fault,
            }),
        },
        Err(fault) => {
            // proof: an explicit call, since an implicit drop here of a value that owns several maps takes minutes to prove
            drop(layout);
            Err(fault)
        }
    }
}
