//! The files that a command line names, and what to show of them.

ghost use Rattle.std.specs.Prelude.{◌≡◌, codes, map};
ghost use Rattle.clap.specs.Words.{first_of, found_of, rows_of};
ghost use Rattle.m11_cli_reports.specs.Refusals.{of_words};
ghost use Rattle.m11_dumper.specs.Paths.{EntriesHaveResult, Plans, form_of, is_set, kind_by, look_of, show_of, view_by};

use crate::application::application_command;
use clap::ArgMatches;
use m11_cli_reports::{AddressOption, Refusal, single_reading};
use m11_cli_tasks::{all_texts, bottom_option};
use m11_dump::{Kind, View};
use std::alloc::Global;
use std::convert::AsStr;

/// What the contents of files are shown as.
#[derive(Clone, Copy)]
pub enum Form {
    /// Dumps, with the bytes of texts and of a tape's blocks in this view.
    Dump(View),
    /// Sources.
    Source,
}

/// How to show the contents of files.
#[derive(Clone, Copy)]
pub struct Look {
    /// What they are shown as.
    pub form: Form,
    /// The kind of file that each file is read as; if None, the beginning of the file decides.
    pub kind: Option<Kind>,
}

/// What to show of files.
#[derive(Clone, Copy)]
pub enum Show {
    /// The contents of each file.
    Contents(Look),
    /// The load map of objects.
    Map,
}

/// What a command line asks for.
#[derive(Drop)]
pub struct Request<'a> {
    /// What to show.
    pub show: Show,
    /// Where relocatable sections begin, in a load map and for the names in listings and objects: an even address, at most 0o157776.
    pub bottom: u16,
    /// The paths of the files that name addresses, in order. A load map doesn't use them.
    pub names: Vec<&'a str>,
    /// The paths of the files to show, in order.
    pub paths: Vec<&'a str>,
}

/// Reads a command line, whose first word is the program's name.
///
/// Errors, in this order: `Help` or `Words`, if a word asks for help or the parser refuses the words, whichever it meets first;
/// a bad bottom with its word, even if nothing uses it. `NoMemory`, if memory is refused.
pub(crate) fn plan<'a, S: AsStr>(alloc: Global, words: &'a [S]) -> Result<Request<'a>, Refusal<'a>>
    ensures { Plans (map S.text words.entry.now) result }
{
    let command = application_command(alloc)?;
    let matches = command.try_get_matches_from(words)?;
    let request = parsed_request(alloc, &matches);
    drop(matches);
    request
}

// What the parsed options and files ask for. Errors: the word of a bad bottom, or `NoMemory`.
fn parsed_request<'a>(alloc: Global, matches: &ArgMatches<'a>) -> Result<Request<'a>, Refusal<'a>>
    ensures { EntriesHaveResult (rows_of (found_of matches.now)) (of_words result) }
{
    let bottom = single_reading(
        matches,
        AddressOption::Bottom,
        "bottom",
        bottom_option(matches),
    )?;
    let names = all_texts(alloc, matches, "symbols")?;
    let paths = all_texts(alloc, matches, "files")?;
    Ok(Request {
        show: show_option(matches),
        bottom,
        names,
        paths,
    })
}

// What to show: the load map if `-m` is given, even with `-d`, `-s`, `-o` or `-t`; otherwise the contents of each file.
fn show_option(matches: &ArgMatches<'_>) -> Show
    ensures { result ≡ show_of (rows_of (found_of matches.now)) }
{
    if is_present(matches, "map") {
        Show::Map
    } else {
        Show::Contents(look_options(matches))
    }
}

// How to show the contents of files, as `-d`, `-s`, `-o` and `-t` state.
fn look_options(matches: &ArgMatches<'_>) -> Look
    ensures { result ≡ look_of (rows_of (found_of matches.now)) }
{
    Look {
        form: form_option(matches),
        kind: chosen_kind(matches),
    }
}

// The kind that all files are read as, if an option states one: objects if `-o` is given, even with `-t`.
fn chosen_kind(matches: &ArgMatches<'_>) -> Option<Kind>
    ensures { result ≡ kind_by (first_of (codes "object") (rows_of (found_of matches.now)))
        (first_of (codes "tape") (rows_of (found_of matches.now))) }
{
    if is_present(matches, "object") {
        Some(Kind::Object)
    } else if is_present(matches, "tape") {
        Some(Kind::Tape)
    } else {
        None
    }
}

// What the contents of files are shown as: sources if `-s` is given, even with `-d`; otherwise dumps.
fn form_option(matches: &ArgMatches<'_>) -> Form
    ensures { result ≡ form_of (rows_of (found_of matches.now)) }
{
    if is_present(matches, "source") {
        Form::Source
    } else {
        Form::Dump(view_option(matches))
    }
}

// How to show the bytes of texts and of a tape's blocks: as instructions if `-d` is given, otherwise in octal.
fn view_option(matches: &ArgMatches<'_>) -> View
    ensures { result ≡ view_by (first_of (codes "disassemble") (rows_of (found_of matches.now))) }
{
    if is_present(matches, "disassemble") {
        View::Instructions
    } else {
        View::Octal
    }
}

// Whether an option that takes no value is given.
#[tactic(auto, using(m11_cli_tasks::proofs::Entries::first_entry_value))]
fn is_present(matches: &ArgMatches<'_>, id: &str) -> bool
    ensures { result ≡ is_set (first_of id.now (rows_of (found_of matches.now))) }
{
    match matches.get_str(id) {
        Some(text) => text == "true",
        None => false,
    }
}
