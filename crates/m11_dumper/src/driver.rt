//! The whole work of the program, for any type that opens files and any outputs.

ghost use Rattle.std.specs.Prelude.{◌≡◌, map};
ghost use Rattle.m11_dumper.specs.Outcome.{RefusesWords, Says, Shows, Yields, has_several, status_of};
ghost use Rattle.m11_dumper.specs.declared.stop.Outcome.{Outcome};
ghost use Rattle.m11_cli_reports.specs.Reports.{words_status};
ghost use Rattle.m11_cli_tasks.specs.Opened.{texts};
ghost use Rattle.m11_base_writes.specs.States.{output_of};

use crate::lines::stop_line;
use crate::mapping::show_map;
use crate::names::show_named;
use crate::paths::{Form, Request, Show, plan};
use crate::pipe::Readership;
use crate::stop::{Outcome, Stop, status};
use m11_base::Sink;
use m11_base_files::Opens;
use m11_cli_reports::{Refusal, explain, report, report_refused};
use m11_cli_tasks::WordsFault;
use std::alloc::Global;
use std::convert::AsStr;

/// Carries out the command line `words`, whose first word is the program's name, and returns the exit status.
///
/// Opens the files and shows them on `out` one after another, up to the first that can't be shown; or shows the load map of all of
/// them. If not everything could be shown, the reason is reported on `err`, with the path of the file at fault if there is one; but
/// where nobody reads `out` any more, that isn't reported. Help goes to `out`, and a refused command line is reported on `err`. Nothing is
/// reported if memory is refused for the command line or for the report.
pub fn command<'a, F, O, E, S>(
    alloc: Global,
    files: &mut F,
    out: &mut O,
    err: &mut E,
    words: &'a [S],
) -> u8
where
    F: Opens,
    O: Sink + Readership,
    E: Sink,
    S: AsStr,
    ensures command { (outcome : Outcome) × Yields F.Input.text F.Input.faults (map S.text words.entry.now) (F.files files.old) outcome
        (output_of O.Sink out.old) (output_of O.Sink out.new) (O.Readership.unread out.new)
        (output_of E.Sink err.old) (output_of E.Sink err.new)
        × (result ≡ status_of outcome) }
    ensures files { F.files files.new ≡ F.files files.old }
{
    let outcome = outcome_of(alloc, files, out, err, words);
    status(&outcome)
}

/// Replaces `command` if the system can't supply the words of the command line: reports a word that isn't UTF-8, and returns the exit
/// status. The status is 2 for such a word, and 5 if memory was refused, which isn't reported.
pub fn command_without_words<E: Sink>(alloc: Global, fault: WordsFault, err: &mut E) -> u8
    ensures status { result ≡ words_status fault }
    ensures reported { RefusesWords fault (output_of E.Sink err.old) (output_of E.Sink err.new) }
{
    match fault {
        WordsFault::NoMemory => 5,
        WordsFault::NotText(_) => m11_cli_reports::command_without_words(alloc, fault, err),
    }
}

// Carries out the command line, prints help or reports what went wrong, and returns the outcome.
fn outcome_of<'a, F, O, E, S>(
    alloc: Global,
    files: &mut F,
    out: &mut O,
    err: &mut E,
    words: &'a [S],
) -> Outcome<'a>
where
    F: Opens,
    O: Sink + Readership,
    E: Sink,
    S: AsStr,
    ensures yields { Yields F.Input.text F.Input.faults (map S.text words.entry.now) (F.files files.old) result
        (output_of O.Sink out.old) (output_of O.Sink out.new) (O.Readership.unread out.new)
        (output_of E.Sink err.old) (output_of E.Sink err.new) }
    ensures files { F.files files.new ≡ F.files files.old }
{
    match plan(alloc, words) {
        Ok(request) => {
            let shown = show(alloc, files, &request, out);
            say(alloc, &shown, out.is_unread(), err);
            Outcome::Shown(shown)
        }
        Err(Refusal::Usage(fault)) => {
            explain(alloc, &fault, out, err);
            Outcome::Usage(fault)
        }
        Err(Refusal::Value(value)) => {
            report_refused(&value, err);
            Outcome::Refused
        }
    }
}

// Shows what a command line asks for: the contents of its files, with the names of addresses, or the load map of its objects. Error: the
// reason why not all files were shown.
fn show<'a, F: Opens, O: Sink>(
    alloc: Global,
    files: &mut F,
    request: &Request<'a>,
    out: &mut O,
) -> Result<(), Stop<'a>>
    ensures shows { Shows F.Input.text F.Input.faults request.now.show request.now.bottom (texts request.now.names.items)
        (F.files files.old) (texts request.now.paths.items) (output_of O.Sink out.old) (output_of O.Sink out.new) result }
    ensures files { F.files files.new ≡ F.files files.old }
{
    let names = request.names.as_slice();
    let paths = request.paths.as_slice();
    match request.show {
        Show::Contents(look) if has_several(look.form, paths) => Err(Stop::SeveralFiles),
        Show::Contents(look) => show_named(alloc, files, look, request.bottom, names, paths, out),
        Show::Map => show_map(alloc, files, request.bottom, paths, out),
    }
}

// Whether several files are asked for as sources: an assembly of these would end at the first `.END`.
fn has_several(form: Form, paths: &[&str]) -> bool
    ensures { result ≡ has_several form (texts paths.now) }
{
    matches!((form, paths), (Form::Source, [_, _, ..]))
}

// Reports why showing stopped early, if it did; but not that a write failed, if nobody reads the output any more. Nothing is reported if
// memory is refused for the line.
fn say<E: Sink>(alloc: Global, shown: &Result<(), Stop<'_>>, is_unread: bool, err: &mut E)
    ensures { Says is_unread shown.now (output_of E.Sink err.old) (output_of E.Sink err.new) }
{
    if let Err(stop) = shown {
        if is_unread && stop.is_write() {
            return;
        }
        if let Ok(line) = stop_line(alloc, stop) {
            report(&line, err);
        }
    }
}
