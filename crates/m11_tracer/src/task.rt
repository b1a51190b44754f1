//! What a command line asks for.

ghost use Rattle.std.specs.Prelude.{◌≡◌, IfOk, codes, map};
ghost use Rattle.clap.specs.Words.{first_of, found_of, rows_of};
ghost use Rattle.m11_cli_reports.specs.Refusals.{of_words};
ghost use Rattle.m11_cli_tasks.specs.Tasks.{IsDoable};
ghost use Rattle.m11_cli_tasks.specs.declared.tasks.Task.TheVariants.{Sim};
ghost use Rattle.m11_tracer.specs.Places.{value_texts};
ghost use Rattle.m11_tracer.specs.Task.{EntriesHaveResult, Plans, first_shown, kept_by, last_shown, values_of};

use crate::application::application_command;
use crate::places::{Values, asked_of};
use clap::ArgMatches;
use m11_base_disassembly::Kept;
use m11_cli_reports::{AddressOption, Refusal, single_reading};
use m11_cli_tasks::{SimTask, all_texts, bottom_option, number_option, sim_task, text_argument};
use std::alloc::{AllocError, Global};
use std::convert::AsStr;

/// What a traced run is to do.
#[derive(Drop)]
pub struct TraceTask<'a> {
    /// The run itself, as for `m11 sim`.
    pub sim: SimTask<'a>,
    /// The number of the first step that has a trace line, at most 1,000,000,000. 0 is the same as 1, the first step of the run. If only the
    /// last steps are asked for, it is 1,000,000,001, which no run reaches.
    pub from: u32,
    /// How many of the last steps are shown if no step has a trace line before.
    pub last: u16,
    /// The path of the file for the trace lines; None writes them to standard error.
    pub lines: Option<&'a str>,
    /// The values of the breakpoints, the words to watch and the memory ranges. None of them is refused, whatever its names mean.
    pub values: Values<'a>,
    /// The paths of the files that name addresses, in order.
    pub names: Vec<&'a str>,
    /// What is kept of these files: the lines of listings too, if the lines of steps show their texts.
    pub kept: Kept,
    /// Where relocatable sections begin, for the names in listings and objects: an even address up to octal 157776.
    pub bottom: u16,
}

/// The highest step number that `-f` accepts.
const MOST_STEPS: u32 = 1_000_000_000;

/// The most steps that `-l` accepts, and how many are shown without it.
const MOST_LAST: u32 = 65_535;

const DEFAULT_LAST: u32 = 16;

/// Reads a command line, whose first word is the program's name.
///
/// Errors, in this order: `Help` or `Words`, if a word asks for help or the parser refuses the words, whichever it meets first;
/// the value of the start, if it is bad; the first bad value of a breakpoint, for its address or else for its count; that of a word to
/// watch; the first bad value of a memory range; the bottom. A name isn't looked up yet. `NoMemory` at any point, if memory is refused.
pub(crate) fn plan<'a, S: AsStr>(
    alloc: Global,
    words: &'a [S],
) -> Result<TraceTask<'a>, Refusal<'a>>
    ensures planned { Plans (map S.text words.entry.now) result }
    ensures doable { IfOk result (λ task. IsDoable (Sim task.sim)) }
{
    let command = application_command(alloc)?;
    let matches = command.try_get_matches_from(words)?;
    let task = parsed_task(alloc, &matches);
    drop(matches);
    task
}

// The task that the parsed options ask for. Errors: the first bad value of an option, or `NoMemory`.
fn parsed_task<'a>(alloc: Global, entries: &ArgMatches<'a>) -> Result<TraceTask<'a>, Refusal<'a>>
    ensures given { EntriesHaveResult (rows_of (found_of entries.now)) (of_words result) }
    ensures doable { IfOk result (λ task. IsDoable (Sim task.sim)) }
{
    let sim = single_reading(entries, AddressOption::Start, "start", sim_task(entries))?;
    let values = values_of(alloc, entries)?;
    asked_of(alloc, None, &values)?;
    let names = all_texts(alloc, entries, "symbols")?;
    let bottom = single_reading(
        entries,
        AddressOption::Bottom,
        "bottom",
        bottom_option(entries),
    )?;
    Ok(TraceTask {
        sim,
        from: first_shown(entries),
        last: last_shown(entries),
        lines: text_argument(entries, "output"),
        values,
        names,
        kept: kept_option(entries),
        bottom,
    })
}

// The values of the breakpoints, the words to watch and the memory ranges. Fails if memory is refused.
fn values_of<'a>(alloc: Global, entries: &ArgMatches<'a>) -> Result<Values<'a>, AllocError>
    ensures { IfOk result (λ values. value_texts values ≡ values_of (rows_of (found_of entries.now))) }
{
    Ok(Values {
        places: all_texts(alloc, entries, "place")?,
        watched: all_texts(alloc, entries, "watch")?,
        ranges: all_texts(alloc, entries, "range")?,
    })
}

// The number of the first step that has a trace line; one more than any run has, if only the last steps are asked for.
fn first_shown(entries: &ArgMatches<'_>) -> u32
    ensures { result ≡ first_shown (rows_of (found_of entries.now)) }
{
    if number_option(entries, "last", 1, MOST_LAST, 0) == 0 {
        number_option(entries, "from", 0, MOST_STEPS, 0)
    } else {
        MOST_STEPS + 1
    }
}

// How many of the last steps are shown if no step has a trace line before.
fn last_shown(entries: &ArgMatches<'_>) -> u16
    ensures { result ≡ last_shown (rows_of (found_of entries.now)) }
{
    number_option(entries, "last", 1, MOST_LAST, DEFAULT_LAST) as u16
}

// What is kept of the files of names: the lines of listings too, if their texts are to be shown.
fn kept_option(entries: &ArgMatches<'_>) -> Kept
    ensures { result ≡ kept_by (first_of (codes "text") (rows_of (found_of entries.now))) }
{
    match text_argument(entries, "text") {
        Some(text) => {
            if text == "true" {
                Kept::NamesAndLines
            } else {
                Kept::Names
            }
        }
        None => Kept::Names,
    }
}
