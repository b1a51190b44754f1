//! Files shown with names of addresses.

ghost use Rattle.std.specs.Prelude.{◌≡◌};
ghost use Rattle.m11_cli_tasks.specs.Opened.{texts};
ghost use Rattle.m11_base_writes.specs.States.{output_of};
ghost use Rattle.m11_dumper.specs.Names.{ShowsNamed, stop_of};

use crate::paths::Look;
use crate::showing::show_all;
use crate::stop::Stop;
use m11_base::Sink;
use m11_base_disassembly::Kept;
use m11_base_files::Opens;
use m11_link_load_map::{NoNames, read_names};
use std::alloc::Global;

/// Shows the files at `paths`, in order, up to the first that can't be shown. The files at `names` name the addresses, with relocatable
/// sections beginning at `bottom`; they are read before any other file is opened. Error: why there are no names, or why a file wasn't
/// shown.
pub(crate) fn show_named<'a, F: Opens, O: Sink>(
    alloc: Global,
    files: &mut F,
    look: Look,
    bottom: u16,
    names: &[&'a str],
    paths: &[&'a str],
    out: &mut O,
) -> Result<(), Stop<'a>>
    ensures shows { ShowsNamed F.Input.text F.Input.faults look bottom (texts names.now) (F.files files.old) (texts paths.now) (output_of O.Sink out.old)
        (output_of O.Sink out.new) result }
    ensures files { F.files files.new ≡ F.files files.old }
{
    match read_names(alloc, files, Kept::Names, bottom, names) {
        Ok(known) => show_all(alloc, files, look, &known.symbols, paths, out),
        Err(none) => Err(stop_of(none)),
    }
}

// Why nothing is shown, given the reason why there are no names.
fn stop_of(none: NoNames<'_>) -> Stop<'_>
    ensures { result ≡ stop_of none.entry }
{
    match none {
        NoNames::NotOpened(path) => Stop::NotOpened(path),
        NoNames::InFile(path, fault) => Stop::NoSymbols(path, fault),
    }
}
