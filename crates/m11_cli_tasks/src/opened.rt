//! The opening of a task's files.

ghost use Rattle.std.specs.Prelude.{◌≡◌, ◌∷◌, IfErr, IfOk, OnErr, []};
ghost use Rattle.m11_base_files.specs.Opens.{AreFiles, Holds, IsEmptied, IsEmptiedSome, creating};
ghost use Rattle.m11_cli_tasks.specs.Opened.{CountsOpening, LacksFirst, LacksOne, Names, Stops, asm_inputs, asm_outputs, fault_at, link_inputs, link_outputs, optional, sim_inputs, texts};
ghost use Rattle.m11_cli_tasks.specs.declared.opened.OpenFault.TheVariants.{NoMemory};

use crate::tasks::{AsmTask, LinkTask, SimTask};
use m11_base_files::{OpenRefusal, Opens};
use std::alloc::{AllocFailed, Global};

/// Why a file of a task couldn't be opened or created.
#[derive(Drop)]
pub enum OpenFault<'a> {
    /// The file at this path couldn't be opened or created.
    NotOpened(&'a str),
    /// Memory was refused.
    NoMemory,
}

impl<T: Drop> From<AllocFailed<T>> for OpenFault<'_> {
    ghost from_gives = { λ _ e. e ≡ NoMemory };

    fn from(_error: AllocFailed<T>) -> Self {
        OpenFault::NoMemory
    }
}

/// Inputs that are read in two passes, and opened once for each.
#[derive(Drop)]
pub struct Inputs<I> {
    /// The inputs, in order, for the first pass.
    pub first: Vec<I>,
    /// The inputs, in order, for the second pass.
    pub second: Vec<I>,
}

/// The open files of an assembly: its sources, its object, and its listing if one is asked for.
#[derive(Drop)]
pub struct AsmFiles<I, O> {
    /// The sources, in order.
    pub sources: Inputs<I>,
    /// The object, which is still empty.
    pub object: O,
    /// The listing, which is still empty, if one is asked for.
    pub listing: Option<O>,
}

/// The open files of a link: its objects, its tape, and its map if one is asked for.
#[derive(Drop)]
pub struct LinkFiles<I, O> {
    /// The objects, in order.
    pub objects: Inputs<I>,
    /// The tape, which is still empty.
    pub tape: O,
    /// The map, which is still empty, if one is asked for.
    pub map: Option<O>,
}

/// Opens the sources in order, each for both passes. Then creates the object, and after it the listing if one is asked for; a file that
/// already exists is emptied. Errors: `NotOpened` with the first path that can't be opened or created, and nothing is opened or created
/// after it; `NoMemory`.
pub fn open_asm_files<'a, F: Opens>(
    alloc: Global,
    files: &mut F,
    task: &AsmTask<'a>,
) -> Result<AsmFiles<F::Input, F::Output>, OpenFault<'a>>
    ensures first { IfOk result (λ opened.
        AreFiles F.Input.text (F.files files.old) (asm_inputs task.now) opened.sources.first.items) }
    ensures second { IfOk result (λ opened.
        AreFiles F.Input.text (F.files files.old) (asm_inputs task.now) opened.sources.second.items) }
    ensures object { IfOk result (λ opened.
        IsEmptied (F.files files.old) (F.Output.text opened.object)) }
    ensures listing { IfOk result (λ opened.
        IsEmptiedSome F.Output.text (F.files files.old) task.now.listing opened.listing) }
    ensures created { IfOk result (λ opened.
        F.files files.new ≡ creating (asm_outputs task.now) (F.files files.old)) }
    ensures stops { IfErr result (Stops (F.files files.old) (F.files files.new)
        (asm_inputs task.now) (asm_outputs task.now)) }
    ensures counts { CountsOpening (F.refusals files.old) (F.refusals files.new) result }
{
    let sources = open_inputs(alloc, files, task.sources.as_slice())?;
    let object = create(files, task.object)?;
    let listing = create_some(files, task.listing)?;
    Ok(AsmFiles {
        sources,
        object,
        listing,
    })
}

/// Opens the objects in order, each for both passes. Then creates the tape, and after it the map if one is asked for; a file that already
/// exists is emptied. Errors: `NotOpened` with the first path that can't be opened or created, and nothing is opened or created after it;
/// `NoMemory`.
pub fn open_link_files<'a, F: Opens>(
    alloc: Global,
    files: &mut F,
    task: &LinkTask<'a>,
) -> Result<LinkFiles<F::Input, F::Output>, OpenFault<'a>>
    ensures first { IfOk result (λ opened.
        AreFiles F.Input.text (F.files files.old) (link_inputs task.now) opened.objects.first.items) }
    ensures second { IfOk result (λ opened.
        AreFiles F.Input.text (F.files files.old) (link_inputs task.now) opened.objects.second.items) }
    ensures tape { IfOk result (λ opened.
        IsEmptied (F.files files.old) (F.Output.text opened.tape)) }
    ensures map { IfOk result (λ opened.
        IsEmptiedSome F.Output.text (F.files files.old) task.now.map opened.map) }
    ensures created { IfOk result (λ opened.
        F.files files.new ≡ creating (link_outputs task.now) (F.files files.old)) }
    ensures stops { IfErr result (Stops (F.files files.old) (F.files files.new)
        (link_inputs task.now) (link_outputs task.now)) }
    ensures counts { CountsOpening (F.refusals files.old) (F.refusals files.new) result }
{
    let objects = open_inputs(alloc, files, task.objects.as_slice())?;
    let tape = create(files, task.tape)?;
    let map = create_some(files, task.map)?;
    Ok(LinkFiles { objects, tape, map })
}

/// Opens the tape of a run, which is read once. Errors: `NotOpened` with its path; `NoMemory`.
#[tactic(auto, using(crate::proofs::Opening::stops_at_one))]
pub fn open_sim_file<'a, F: Opens>(
    files: &mut F,
    task: &SimTask<'a>,
) -> Result<F::Input, OpenFault<'a>>
    ensures opened { IfOk result (λ tape.
        Holds (F.files files.old) task.now.tape.now (F.Input.text tape)) }
    ensures files { F.files files.new ≡ F.files files.old }
    ensures stops { IfErr result (Stops (F.files files.old) (F.files files.new)
        (sim_inputs task.now) []) }
    ensures counts { CountsOpening (F.refusals files.old) (F.refusals files.new) result }
{
    match files.open(task.tape) {
        Ok(tape) => Ok(tape),
        Err(refusal) => Err(fault_at(refusal, task.tape)),
    }
}

// Opens inputs in order, each for both passes before the next one. Errors: `NotOpened` with the first path that can't be opened;
// `NoMemory`.
fn open_inputs<'a, F: Opens>(
    alloc: Global,
    files: &mut F,
    paths: &[&'a str],
) -> Result<Inputs<F::Input>, OpenFault<'a>>
    ensures first { IfOk result (λ inputs.
        AreFiles F.Input.text (F.files files.old) (texts paths.now) inputs.first.items) }
    ensures second { IfOk result (λ inputs.
        AreFiles F.Input.text (F.files files.old) (texts paths.now) inputs.second.items) }
    ensures files { F.files files.new ≡ F.files files.old }
    ensures lacks { IfErr result (LacksFirst (F.files files.old) (texts paths.now)) }
    ensures counts { CountsOpening (F.refusals files.old) (F.refusals files.new) result }
{
    let mut first = Vec::new(alloc);
    let mut second = Vec::new(alloc);
    'paths: for path in paths {
        let (once, again) = open_twice(files, *path)?;
        first.push(once)?;
        second.push(again)?;
    }
    Ok(Inputs { first, second })
}

// Opens an input once for each of two passes. Errors: `NotOpened` with the path; `NoMemory`.
fn open_twice<'a, F: Opens>(
    files: &mut F,
    path: &'a str,
) -> Result<(F::Input, F::Input), OpenFault<'a>>
    ensures first { IfOk result (λ inputs.
        Holds (F.files files.old) path.entry.now (F.Input.text inputs.0)) }
    ensures second { IfOk result (λ inputs.
        Holds (F.files files.old) path.entry.now (F.Input.text inputs.1)) }
    ensures files { F.files files.new ≡ F.files files.old }
    ensures lacks { IfErr result (LacksOne (F.files files.old) path.entry.now) }
    ensures counts { CountsOpening (F.refusals files.old) (F.refusals files.new) result }
{
    match files.open_twice(path) {
        Ok(inputs) => Ok(inputs),
        Err(refusal) => Err(fault_at(refusal, path)),
    }
}

// Creates the output at this path; `None` without a path. Errors: those of `create`.
fn create_some<'a, F: Opens>(
    files: &mut F,
    path: Option<&'a str>,
) -> Result<Option<F::Output>, OpenFault<'a>>
    ensures empty { IfOk result (λ output.
        IsEmptiedSome F.Output.text (F.files files.old) path.entry output) }
    ensures created { IfOk result (λ output.
        F.files files.new ≡ creating (optional path.entry) (F.files files.old)) }
    ensures kept { OnErr result (F.files files.new ≡ F.files files.old) }
    ensures named { IfErr result (Names (optional path.entry)) }
    ensures counts { CountsOpening (F.refusals files.old) (F.refusals files.new) result }
{
    match path {
        Some(path) => Ok(Some(create(files, path)?)),
        None => Ok(None),
    }
}

// Creates the output at this path, or empties the file there. Errors: `NotOpened` with the path; `NoMemory`.
fn create<'a, F: Opens>(files: &mut F, path: &'a str) -> Result<F::Output, OpenFault<'a>>
    ensures empty { IfOk result (λ output. IsEmptied (F.files files.old) (F.Output.text output)) }
    ensures created { IfOk result (λ output.
        F.files files.new ≡ creating (path.entry.now ∷ []) (F.files files.old)) }
    ensures kept { OnErr result (F.files files.new ≡ F.files files.old) }
    ensures named { IfErr result (Names (path.entry.now ∷ [])) }
    ensures counts { CountsOpening (F.refusals files.old) (F.refusals files.new) result }
{
    match files.create(path) {
        Ok(output) => Ok(output),
        Err(refusal) => Err(fault_at(refusal, path)),
    }
}

// A refusal to open or create the file at this path, as a fault.
fn fault_at<'a>(refusal: OpenRefusal, path: &'a str) -> OpenFault<'a>
    ensures { result ≡ fault_at refusal path.entry }
{
    match refusal {
        OpenRefusal::NotOpened => OpenFault::NotOpened(path),
        OpenRefusal::NoMemory => OpenFault::NoMemory,
    }
}
