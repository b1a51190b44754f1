//! Shows the load map of objects.

ghost use Rattle.std.specs.Prelude.{◌≡◌, IfErr, IfOk, length};
ghost use Rattle.m11_dumper.specs.Mapping.{IsBelow, ShowsMap, Tells};
ghost use Rattle.m11_base_files.specs.Opens.{AreFiles, Holds};
ghost use Rattle.m11_cli_tasks.specs.Opened.{LacksFirst, LacksOne, texts};
ghost use Rattle.m11_base_writes.specs.States.{output_of};

use crate::stop::Stop;
use m11_base::Sink;
use m11_base_files::{OpenRefusal, Opens};
use m11_cli_tasks::OpenFault;
use m11_link_load_map::{LoadMapFault, ObjectsFault, load_map_run};
use std::alloc::Global;

/// Shows the load map of the objects at these paths, in this order, with relocatable sections beginning at `bottom`. All objects are
/// opened before the first is read, and all are read before anything is written. Errors: `NotOpened`, with the first path that can't
/// be opened; `InObject` or `InMap`, with the fault for which a link of the objects is refused; `Write`; `NoMemory`.
pub(crate) fn show_map<'a, F: Opens, O: Sink>(
    alloc: Global,
    files: &mut F,
    bottom: u16,
    paths: &[&'a str],
    out: &mut O,
) -> Result<(), Stop<'a>>
    ensures shows { ShowsMap F.Input.text F.Input.faults bottom (F.files files.old) (texts paths.now)
        (output_of O.Sink out.old) (output_of O.Sink out.new) result }
    ensures files { F.files files.new ≡ F.files files.old }
{
    match open_objects(alloc, files, paths) {
        Ok(opened) => {
            let mut objects = opened;
            match load_map_run(alloc, files.seed(), objects.as_mut_slice(), bottom, out) {
                Ok(()) => Ok(()),
                Err(LoadMapFault::Objects(fault)) => Err(stop_of(paths, fault)),
                Err(LoadMapFault::Write) => Err(Stop::Write),
            }
        }
        Err(OpenFault::NotOpened(path)) => Err(Stop::NotOpened(path)),
        Err(OpenFault::NoMemory) => Err(Stop::NoMemory),
    }
}

// Why the objects at these paths have no load map: the path of the object at fault, if a single object is, and the fault.
#[tactic(auto, using(crate::proofs::Told::path_at, crate::proofs::Told::one_told, crate::proofs::Told::all_told))]
fn stop_of<'a>(paths: &[&'a str], stopped: ObjectsFault) -> Stop<'a>
    requires { IsBelow stopped.object_index (length paths.now) }
    ensures { Tells (texts paths.now) stopped result }
{
    match stopped.object_index {
        Some(index) => Stop::InObject(paths[index], stopped.fault),
        None => Stop::InMap(stopped.fault),
    }
}

// Opens the objects at these paths, in order. Errors: `NotOpened` with the first path that can't be opened; `NoMemory`.
fn open_objects<'a, F: Opens>(
    alloc: Global,
    files: &mut F,
    paths: &[&'a str],
) -> Result<Vec<F::Input>, OpenFault<'a>>
    ensures are { IfOk result (λ objects. AreFiles F.Input.text (F.files files.old) (texts paths.now) objects.items) }
    ensures files { F.files files.new ≡ F.files files.old }
    ensures lacks { IfErr result (LacksFirst (F.files files.old) (texts paths.now)) }
{
    let mut objects = Vec::new(alloc);
    'paths: for path in paths {
        let object = open_object(files, *path)?;
        objects.push(object)?;
    }
    Ok(objects)
}

// Opens the object at this path. Errors: `NotOpened` with the path; `NoMemory`.
fn open_object<'a, F: Opens>(files: &mut F, path: &'a str) -> Result<F::Input, OpenFault<'a>>
    ensures opened { IfOk result (λ object. Holds (F.files files.old) path.entry.now (F.Input.text object)) }
    ensures files { F.files files.new ≡ F.files files.old }
    ensures lacks { IfErr result (LacksOne (F.files files.old) path.entry.now) }
{
    match files.open(path) {
        Ok(object) => Ok(object),
        Err(OpenRefusal::NotOpened) => Err(OpenFault::NotOpened(path)),
        Err(OpenRefusal::NoMemory) => Err(OpenFault::NoMemory),
    }
}
