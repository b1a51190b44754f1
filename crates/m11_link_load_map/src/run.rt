//! The whole run: reads objects and writes their load map.

ghost use Rattle.m11_base_writes.specs.Passes.{pass_of};
ghost use Rattle.m11_link_load_map.specs.Run.{LoadMapRuns, MakesMap};
ghost use Rattle.m11_base_writes.specs.States.{output_of};
ghost use Rattle.std.specs.Prelude.{Ok, Err, MatchResult};

use crate::fault::{LoadMapFault, ObjectsFault};
use crate::reading::read_all;
use crate::text::map_text;
use m11_base::{Feed, Seed, Sink};
use m11_base_writes::put_or_fail;
use m11_link_layout::LinkFault;
use std::alloc::Global;

/// Reads objects once, and writes their load map: each module's contribution to each section, at its address in a link with
/// relocatable sections beginning at `bottom`, and the globals in the order of their values.
///
/// Errors: `Objects`, with the fault of the first pass of such a link and, unless all objects were read, the object at fault; or with
/// `NoMemory` if memory is refused for the map. In both cases nothing is written, and no object after the one at fault is read.
/// `Write`, if the sink failed, after part of the map was written.
pub fn load_map_run<F: Feed, S: Sink>(
    alloc: Global,
    seed: Seed,
    objects: &mut [F],
    bottom: u16,
    sink: &mut S,
) -> Result<(), LoadMapFault>
    ensures { LoadMapRuns (pass_of F.text F.faults objects.old objects.new) bottom
        (output_of S.Sink sink.old) (output_of S.Sink sink.new) result }
{
    match map_of(alloc, seed, objects, bottom) {
        Ok(text) => put_or_fail(sink, text.as_slice(), LoadMapFault::Write),
        Err(fault) => Err(LoadMapFault::Objects(fault)),
    }
}

// Makes the load map of objects, or returns the fault of a link's first pass, or `NoMemory`.
fn map_of<F: Feed>(
    alloc: Global,
    seed: Seed,
    objects: &mut [F],
    bottom: u16,
) -> Result<Vec<u8>, ObjectsFault>
    ensures { MatchResult result
        (λ text. MakesMap (pass_of F.text F.faults objects.old objects.new) bottom (Ok text.items))
        (λ fault. MakesMap (pass_of F.text F.faults objects.old objects.new) bottom (Err fault)) }
{
    let mut noted = Vec::new(alloc);
    match read_all(alloc, seed, objects, bottom, &mut noted) {
        Ok(plan) => match map_text(alloc, &plan, noted.as_slice()) {
            Ok(text) => {
                // proof: dropping a value that owns several maps in place takes minutes to prove
                drop(plan);
                Ok(text)
            }
            Err(_) => {
                drop(plan);
                Err(ObjectsFault {
                    object_index: None,
                    fault: LinkFault::NoMemory,
                })
            }
        },
        Err(fault) => Err(fault),
    }
}
