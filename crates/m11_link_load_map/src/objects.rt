//! The names in those files of names that are objects.

ghost use Rattle.std.specs.Prelude.{◌≡◌, map};
ghost use Rattle.m11_link_load_map.specs.NameFiles as spec;

use crate::fault::ObjectsFault;
use crate::link_globals::add_globals;
use crate::name_files::NoNames;
use m11_base::{Feed, Seed};
use m11_base_disassembly::{MapFault, Symbol};
use m11_link_layout::LinkFault;
use std::alloc::Global;

// The path of the object with this index; without an index, that of the first object.
fn path_at<'a>(objects: &[&'a str], index: Option<usize>) -> &'a str
    ensures { result.now ≡ spec.path_at (map (λ path. path.now) objects.now) index }
{
    let index = match index {
        Some(index) => index,
        None => 0,
    };
    if index < objects.len() {
        objects[index]
    } else {
        ""
    }
}

// A fault of a link of objects, as a fault of a file of names.
fn fault_of(fault: LinkFault) -> MapFault
    ensures { result ≡ spec.fault_of fault }
{
    match fault {
        LinkFault::Read => MapFault::Read,
        LinkFault::NoMemory => MapFault::NoMemory,
        _ => MapFault::BadMap,
    }
}

// Why objects give no names: the path of the object at fault, and the fault.
fn none_for<'a>(objects: &[&'a str], stopped: ObjectsFault) -> NoNames<'a>
    ensures { spec.IsFor (map (λ path. path.now) objects.now) stopped result }
{
    NoNames::InFile(
        path_at(objects, stopped.object_index),
        fault_of(stopped.fault),
    )
}

/// Adds the globals of a link of the objects at these paths, which are open, to `symbols`. Without objects there are none. Error:
/// why a link of the objects is refused, with the path of the object at fault, or of the first one if no single object is at fault.
pub(crate) fn add_object_names<'a, F: Feed>(
    alloc: Global,
    seed: Seed,
    symbols: &mut Vec<Symbol>,
    bottom: u16,
    objects: &[&'a str],
    inputs: &mut [F],
) -> Result<(), NoNames<'a>>
    ensures { spec.AddsObjects F.text F.faults bottom (map (λ path. path.now) objects.now) inputs.old symbols.old.items
        symbols.new.items result }
{
    if objects.is_empty() {
        return Ok(());
    }
    match add_globals(alloc, seed, inputs, bottom, symbols) {
        Ok(()) => Ok(()),
        Err(stopped) => Err(none_for(objects, stopped)),
    }
}
