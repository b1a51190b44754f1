//! The task of a command line, from the options and arguments that the parser found.

ghost use Rattle.std.specs.Prelude.{◌≡◌, ◌≤◌, ◌⊎◌, [], Err, IfErr, IfOk, codes, map, option_map, unwrap_or};
ghost use Rattle.clap.specs.Words.{all_of, first_of, found_of, one_of, rows_of, subcommand_name_of, subcommand_rows_of};
ghost use Rattle.m11_cli_tasks.specs.declared.tasks.Task.TheVariants.{Link, Sim};
ghost use Rattle.m11_cli_tasks.specs.declared.usage.UsageFault.TheVariants.{NoMemory};
ghost use Rattle.m11_cli_tasks.specs.Tasks.{EntriesHaveResult, IsAsmTask, IsCommandName, IsDoable, IsLinkTask, IsSimTask, Plans, address_of, bottom_of, count_of, count_within, number_or, start_of};

use crate::commands::application_command;
use crate::usage::UsageFault;
use clap::ArgMatches;
use m11_base::read_octal;
use std::alloc::{AllocError, Global};
use std::convert::AsStr;

/// An assembly, with its paths as given on the command line.
#[derive(Drop)]
pub struct AsmTask<'a> {
    /// The path of the object.
    pub object: &'a str,
    /// The path of the listing, if one is asked for.
    pub listing: Option<&'a str>,
    /// The paths of the sources, which are assembled one after another, in order; the end of a source also ends its last line.
    pub sources: Vec<&'a str>,
}

/// A link, with its paths as given on the command line.
#[derive(Drop)]
pub struct LinkTask<'a> {
    /// The path of the tape.
    pub tape: &'a str,
    /// The path of the map, if one is asked for.
    pub map: Option<&'a str>,
    /// The first address of relocatable sections: even, at most octal 157776.
    pub bottom: u16,
    /// The paths of the objects, in order.
    pub objects: Vec<&'a str>,
}

/// A run of a tape, with its path as given on the command line.
#[derive(Drop)]
pub struct SimTask<'a> {
    /// The path of the tape.
    pub tape: &'a str,
    /// The start address that replaces the tape's own, if one is asked for: even, at most octal 157776.
    pub start: Option<u16>,
    /// The number of words of memory, 4,096 to 28,672.
    pub words: u16,
    /// The limit of steps, at most 1,000,000,000.
    pub limit: u32,
}

/// The task of a command line: one command, with all its numbers in range.
#[derive(Drop)]
pub enum Task<'a> {
    /// `asm`: to assemble.
    Asm(AsmTask<'a>),
    /// `link`: to link.
    Link(LinkTask<'a>),
    /// `sim`: to run a tape.
    Sim(SimTask<'a>),
}

/// The default of `-b`, the first address of relocatable sections.
const DEFAULT_BOTTOM: u16 = 0o1000;

/// The highest limit of steps.
const MOST_STEPS: u32 = 1_000_000_000;

/// The default of `-n`, the limit of steps.
const DEFAULT_STEPS: u32 = 1_000_000;

/// The smallest size of memory, in words.
const LEAST_WORDS: u32 = 4_096;

/// The largest size of memory, in words, and the default of `-k`.
const MOST_WORDS: u32 = 28_672;

/// The highest even address below those of device registers.
const LAST_ADDRESS: u16 = 0o157776;

/// Reads a command line, whose first word is the program's name.
///
/// Errors, in this order: `Help` or `Words`, if a word asks for help or the parser refuses the words, whichever it meets first;
/// `BadOctal`, `OddAddress` and `BadAddress`, for a bad bottom or start. `NoMemory`, if memory is refused.
pub fn plan<'a, S: AsStr>(alloc: Global, words: &'a [S]) -> Result<Task<'a>, UsageFault>
    ensures planned { Plans (map S.text words.entry.now) result }
    ensures doable { IfOk result IsDoable }
{
    let command = application_command(alloc)?;
    let matches = command.try_get_matches_from(words)?;
    let task = entered_task(alloc, &matches);
    drop(matches);
    task
}

// The task of the command that was entered. Errors: the fault of an address, or `NoMemory`.
fn entered_task<'a>(alloc: Global, matches: &ArgMatches<'a>) -> Result<Task<'a>, UsageFault>
    requires { IsCommandName (subcommand_name_of matches.now) }
    ensures given { EntriesHaveResult (subcommand_rows_of matches.now) result }
    ensures doable { IfOk result IsDoable }
{
    if let Some(entries) = matches.subcommand_matches("asm") {
        return Ok(Task::Asm(asm_task(alloc, entries)?));
    }
    if let Some(entries) = matches.subcommand_matches("link") {
        return Ok(Task::Link(link_task(alloc, entries)?));
    }
    if let Some(entries) = matches.subcommand_matches("sim") {
        return Ok(Task::Sim(sim_task(entries)?));
    }
    // The parser refuses a command line without a command.
    unreachable!()
}

// The task that the options and arguments of `asm` specify. Error: memory was refused.
fn asm_task<'a>(alloc: Global, entries: &ArgMatches<'a>) -> Result<AsmTask<'a>, AllocError>
    ensures { IfOk result (IsAsmTask (rows_of (found_of entries.now))) }
{
    Ok(AsmTask {
        object: first_text(entries, "output"),
        listing: text_argument(entries, "listing"),
        sources: all_texts(alloc, entries, "sources")?,
    })
}

// The task that the options and arguments of `link` specify. Errors: the fault of the bottom, or `NoMemory`.
fn link_task<'a>(alloc: Global, entries: &ArgMatches<'a>) -> Result<LinkTask<'a>, UsageFault>
    ensures task { IfOk result (IsLinkTask (rows_of (found_of entries.now))) }
    ensures doable { IfOk result (λ task. IsDoable (Link task)) }
    ensures fault { IfErr result (λ fault. (fault ≡ NoMemory)
        ⊎ (bottom_of (first_of (codes "bottom") (rows_of (found_of entries.now))) ≡ Err fault)) }
{
    Ok(LinkTask {
        tape: first_text(entries, "output"),
        map: text_argument(entries, "map"),
        bottom: bottom_option(entries)?,
        objects: all_texts(alloc, entries, "objects")?,
    })
}

/// The first address of relocatable sections that `-b` specifies, or octal 1000 without `-b`. Errors: those of `address`.
#[tactic(auto, using(crate::proofs::Entries::first_entry_value))]
pub fn bottom_option(entries: &ArgMatches<'_>) -> Result<u16, UsageFault>
    ensures { result ≡ bottom_of (first_of (codes "bottom") (rows_of (found_of entries.now))) }
{
    match entries.get_str("bottom") {
        Some(text) => address(text),
        None => Ok(DEFAULT_BOTTOM),
    }
}

/// The task that the options and arguments of `sim` specify. Error: the fault of the start.
pub fn sim_task<'a>(entries: &ArgMatches<'a>) -> Result<SimTask<'a>, UsageFault>
    ensures task { IfOk result (IsSimTask (rows_of (found_of entries.now))) }
    ensures doable { IfOk result (λ task. IsDoable (Sim task)) }
    ensures fault { IfErr result (λ fault.
        start_of (first_of (codes "start") (rows_of (found_of entries.now))) ≡ Err fault) }
{
    Ok(SimTask {
        tape: first_text(entries, "tape"),
        start: start_option(entries)?,
        words: number_option(entries, "words", LEAST_WORDS, MOST_WORDS, MOST_WORDS) as u16,
        limit: number_option(entries, "steps", 0, MOST_STEPS, DEFAULT_STEPS),
    })
}

// The start address, if one is asked for. Errors: those of `address`.
#[tactic(auto, using(crate::proofs::Entries::first_entry_value))]
fn start_option(entries: &ArgMatches<'_>) -> Result<Option<u16>, UsageFault>
    ensures { result ≡ start_of (first_of (codes "start") (rows_of (found_of entries.now))) }
{
    match entries.get_str("start") {
        Some(text) => Ok(Some(address(text)?)),
        None => Ok(None),
    }
}

/// The address that a text spells in octal. Errors, in this order: `BadOctal`; `OddAddress`; `BadAddress`, above octal 157776.
pub fn address(text: &str) -> Result<u16, UsageFault>
    ensures { result ≡ address_of text.now }
{
    let word = read_octal(text.as_bytes())?;
    if word % 2 == 1 {
        return Err(UsageFault::OddAddress);
    }
    if word > LAST_ADDRESS {
        return Err(UsageFault::BadAddress);
    }
    Ok(word)
}

/// The count that a text spells in decimal, 1 to 1,000,000,000. Error: `BadCount`, for any other text.
pub fn count(text: &str) -> Result<u32, UsageFault>
    ensures { result ≡ count_of text.now }
{
    match text.parse::<u32>() {
        Ok(number) => count_within(number),
        Err(_) => Err(UsageFault::BadCount),
    }
}

// A number as a count. Error: `BadCount`, unless it is 1 to 1,000,000,000.
fn count_within(number: u32) -> Result<u32, UsageFault>
    ensures { result ≡ count_within number }
{
    if 1 <= number && number <= MOST_STEPS {
        Ok(number)
    } else {
        Err(UsageFault::BadCount)
    }
}

/// The number of an option if it is from `least` to `most`, and `other` if it is out of range or the option is missing. The parser itself
/// refuses a number out of range.
pub fn number_option(entries: &ArgMatches<'_>, id: &str, least: u32, most: u32, other: u32) -> u32
    ensures number { result ≡ number_or other least most
        (one_of id.now (rows_of (found_of entries.now))) }
    ensures within { least ≤ other → other ≤ most → (least ≤ result) × (result ≤ most) }
{
    match entries.get_one::<u32>(id) {
        Some(number) if least <= number && number <= most => number,
        _ => other,
    }
}

/// The first value of an argument, if there is one.
#[tactic(auto, using(crate::proofs::Entries::first_entry_value))]
pub fn text_argument<'a>(entries: &ArgMatches<'a>, id: &str) -> Option<&'a str>
    ensures { option_map (λ text. text.now) result ≡ first_of id.now (rows_of (found_of entries.now)) }
{
    entries.get_str(id)
}

// The first value of a required argument. The parser refuses a command line without it, so the empty text is never returned.
fn first_text<'a>(entries: &ArgMatches<'a>, id: &str) -> &'a str
    ensures { result.now ≡ unwrap_or (first_of id.now (rows_of (found_of entries.now))) [] }
{
    entries.get_str(id).unwrap_or("")
}

/// The values of an argument, in order; none if the argument is missing. Error: memory was refused.
pub fn all_texts<'a>(
    alloc: Global,
    entries: &ArgMatches<'a>,
    id: &str,
) -> Result<Vec<&'a str>, AllocError>
    ensures { IfOk result (λ texts. map (λ text. text.now) texts.items
        ≡ unwrap_or (all_of id.now (rows_of (found_of entries.now))) []) }
{
    match entries.get_strs(id) {
        Some(texts) => texts.to_vec(alloc),
        None => Ok(Vec::new(alloc)),
    }
}
