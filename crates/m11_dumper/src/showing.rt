//! Shows files, one after another.

ghost use Rattle.std.specs.Prelude.{◌≡◌, ℕ};
ghost use Rattle.m11_obj_blocks.specs.Limited.{most_bytes, position};
ghost use Rattle.m11_dumper.specs.Showing.{Counts, DumpsKind, IsChosenKind, ShowsAll, ShowsDump, ShowsFile, ShowsInput, ShowsSource};
ghost use Rattle.m11_cli_tasks.specs.Opened.{texts};
ghost use Rattle.m11_base_writes.specs.States.{output_of};

use crate::lines::head_line;
use crate::paths::{Form, Look};
use crate::stop::Stop;
use m11_base::{Feed, Seed, Sink};
use m11_base_disassembly::Symbols;
use m11_base_files::{OpenRefusal, Opens};
use m11_base_writes::put_or_fail;
use m11_dump::{Kind, LocatedFault, View, dump_library, dump_object, dump_tape, kind_of};
use m11_dump_source::{SourceFault, write_source};
use std::alloc::Global;

/// Shows the files at these paths, in order, up to the first that can't be shown. The globals name the addresses of tapes. Error: why a
/// file wasn't shown.
#[tactic(auto, using(crate::proofs::Shown::more_shown, crate::proofs::Shown::not_shown))]
pub(crate) fn show_all<'a, F: Opens, O: Sink>(
    alloc: Global,
    files: &mut F,
    look: Look,
    symbols: &Symbols,
    paths: &[&'a str],
    out: &mut O,
) -> Result<(), Stop<'a>>
    ensures shows { ShowsAll look symbols.now (F.files files.old) (texts paths.now) (output_of O.Sink out.old)
        (output_of O.Sink out.new) result }
    ensures files { F.files files.new ≡ F.files files.old }
    ensures counts { Counts (F.refusals files.old) (F.refusals files.new) result }
{
    match paths {
        [] => Ok(()),
        [path, others @ ..] => {
            show_file(alloc, files, look, symbols, *path, out)?;
            show_all(alloc, files, look, symbols, others, out)
        }
    }
}

// Shows the file at this path, which is opened twice: to find its kind, and to show it. Error: why the file wasn't shown.
#[tactic(auto, using(crate::proofs::Shown::file_shown))]
fn show_file<'a, F: Opens, O: Sink>(
    alloc: Global,
    files: &mut F,
    look: Look,
    symbols: &Symbols,
    path: &'a str,
    out: &mut O,
) -> Result<(), Stop<'a>>
    ensures shows { ShowsFile look symbols.now (F.files files.old) path.entry.now (output_of O.Sink out.old)
        (output_of O.Sink out.new) result }
    ensures files { F.files files.new ≡ F.files files.old }
    ensures counts { Counts (F.refusals files.old) (F.refusals files.new) result }
{
    match files.open_twice(path) {
        Ok((mut first, mut second)) => {
            let kind = chosen_kind(look.kind, &mut first);
            let seed = files.seed();
            show_input(
                alloc,
                seed,
                &mut second,
                kind,
                look.form,
                symbols,
                path,
                out,
            )
        }
        Err(OpenRefusal::NotOpened) => Err(Stop::NotOpened(path)),
        Err(OpenRefusal::NoMemory) => Err(Stop::NoMemory),
    }
}

// The kind of a file: `said`; or, if that is None, the kind that the beginning of the file indicates. Only then is the file read.
fn chosen_kind<I: Feed>(said: Option<Kind>, input: &mut I) -> Kind
    ensures { (room : ℕ) × IsChosenKind said (position (I.text input.old) (I.faults input.old) most_bytes)
        (position (I.text input.new) (I.faults input.new) room) result }
{
    match said {
        Some(kind) => kind,
        None => kind_of(input),
    }
}

// Shows an open file of this kind in this form. Errors: those of a dump or of a source.
fn show_input<'a, I: Feed, O: Sink>(
    alloc: Global,
    seed: Seed,
    input: &mut I,
    kind: Kind,
    form: Form,
    symbols: &Symbols,
    path: &'a str,
    out: &mut O,
) -> Result<(), Stop<'a>>
    ensures { ShowsInput form symbols.now kind (I.text input.old) (I.faults input.old) path.entry.now (output_of O.Sink out.old)
        (output_of O.Sink out.new) result }
{
    match form {
        Form::Dump(view) => show_dump(alloc, seed, input, kind, view, symbols, path, out),
        Form::Source => show_source(alloc, input, kind, symbols, path, out),
    }
}

// Writes an open file as a source. Errors: `NotTape`, if it is of another kind; `InFile` with the fault at which reading it stopped; `Write`;
// `NoMemory`.
fn show_source<'a, I: Feed, O: Sink>(
    alloc: Global,
    input: &mut I,
    kind: Kind,
    symbols: &Symbols,
    path: &'a str,
    out: &mut O,
) -> Result<(), Stop<'a>>
    ensures { ShowsSource symbols.now kind (I.text input.old) (I.faults input.old) path.entry.now (output_of O.Sink out.old)
        (output_of O.Sink out.new) result }
{
    match kind {
        Kind::Object | Kind::Library => Err(Stop::NotTape(path)),
        Kind::Tape => match write_source(alloc, symbols, input, out) {
            Ok(()) => Ok(()),
            Err(SourceFault::Tape(placed)) => Err(Stop::InFile(path, placed)),
            Err(SourceFault::Write) => Err(Stop::Write),
            Err(SourceFault::NoMemory) => Err(Stop::NoMemory),
        },
    }
}

// Dumps an open file: a line with its kind and its path, and then its dump. Errors: `NoMemory` or `Write` for the line; `InFile` with the
// fault at which the dump stopped.
fn show_dump<'a, I: Feed, O: Sink>(
    alloc: Global,
    seed: Seed,
    input: &mut I,
    kind: Kind,
    view: View,
    symbols: &Symbols,
    path: &'a str,
    out: &mut O,
) -> Result<(), Stop<'a>>
    ensures { ShowsDump view symbols.now kind (I.text input.old) (I.faults input.old) path.entry.now (output_of O.Sink out.old)
        (output_of O.Sink out.new) result }
{
    let head = head_line(alloc, kind, path)?;
    put_or_fail(out, &head, Stop::Write)?;
    match dump(alloc, seed, input, kind, view, symbols, out) {
        Ok(()) => Ok(()),
        Err(placed) => Err(Stop::InFile(path, placed)),
    }
}

// Dumps a file as one of this kind. Error: the fault at which the dump stopped, and its position.
fn dump<I: Feed, O: Sink>(
    alloc: Global,
    seed: Seed,
    input: &mut I,
    kind: Kind,
    view: View,
    symbols: &Symbols,
    out: &mut O,
) -> Result<(), LocatedFault>
    ensures { (room : ℕ) × DumpsKind view symbols.now kind (position (I.text input.old) (I.faults input.old) most_bytes)
        (position (I.text input.new) (I.faults input.new) room)
        (output_of O.Sink out.old) (output_of O.Sink out.new) result }
{
    match kind {
        Kind::Object => dump_object(alloc, seed, view, input, out),
        Kind::Library => dump_library(alloc, input, out),
        Kind::Tape => dump_tape(alloc, view, symbols, input, out),
    }
}
