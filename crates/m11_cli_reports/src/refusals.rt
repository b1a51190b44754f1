//! Refused command lines of the programs that name the word at fault, and the report of that word.

ghost use Rattle.std.specs.Prelude.{◌≡◌, [], OnErr, OnOk, unwrap_or};
ghost use Rattle.std.specs.Io.KnownBytes.{Appends};
ghost use Rattle.clap.specs.Words.{first_of, found_of, rows_of};
ghost use Rattle.m11_base.specs.Devices.{Rises};
ghost use Rattle.m11_base.specs.Sink.{AppendsPrefix};
ghost use Rattle.m11_base_writes.specs.States.{output_of};
ghost use Rattle.m11_cli_tasks.specs.declared.usage.UsageFault.TheVariants.{NoMemory};
ghost use Rattle.m11_cli_reports.specs.Refusals.{Reads, RefusalOf, option_word, reading, refused_line, refused_word, words_before_option};
ghost use Rattle.m11_cli_reports.specs.Reports.{Reports};
ghost use Rattle.m11_cli_reports.specs.declared.refusals.Refusal.TheVariants.{Usage, Value};

use clap::ArgMatches;
use m11_base::{PutFault, Sink, put_all};
use m11_cli_tasks::{UsageFault, text_argument};
use std::alloc::{AllocError, AllocFailed};

/// An option whose word is an address, for some with more after it.
#[derive(Clone, Copy)]
pub enum AddressOption {
    /// `-s`: where a run starts.
    Start,
    /// `-p`: where a run stops, with the number of times.
    Place,
    /// `-w`: the word of memory whose change stops a run.
    Watch,
    /// `-r`: a part of memory to show, from one address to another.
    Range,
    /// `-b`: where the relocatable sections begin.
    Bottom,
}

impl AddressOption {
    /// The option as a line names it: a hyphen and its letter.
    pub fn word(self) -> &'static str
        ensures { result.now ≡ option_word self }
    {
        match self {
            AddressOption::Start => "-s",
            AddressOption::Place => "-p",
            AddressOption::Watch => "-w",
            AddressOption::Range => "-r",
            AddressOption::Bottom => "-b",
        }
    }
}

/// A value of an option that is refused.
#[derive(Drop)]
pub struct RefusedValue<'a> {
    /// The option, whichever of its names the command line has.
    pub option: AddressOption,
    /// The value, whole and as the command line has it.
    pub word: &'a str,
    /// What is wrong with the value: one of the faults of addresses and counts.
    pub fault: UsageFault,
}

/// Why a command line yields no task.
#[derive(Drop)]
pub enum Refusal<'a> {
    /// Help was asked for, or the parser refuses the words, or memory was refused.
    Usage(UsageFault),
    /// The parser accepts the words, but this value is refused.
    Value(RefusedValue<'a>),
}

impl<'a> From<RefusedValue<'a>> for Refusal<'a> {
    ghost from_gives = { λ value refusal. refusal ≡ Value value };

    fn from(value: RefusedValue<'a>) -> Refusal<'a> {
        Refusal::Value(value)
    }
}

impl From<clap::Error> for Refusal<'_> {
    ghost from_gives = { RefusalOf };

    fn from(error: clap::Error) -> Self {
        Refusal::Usage(UsageFault::from(error))
    }
}

impl From<AllocError> for Refusal<'_> {
    ghost from_gives = { λ _ refusal. refusal ≡ Usage NoMemory };

    fn from(_error: AllocError) -> Self {
        Refusal::Usage(UsageFault::NoMemory)
    }
}

impl<T: Drop> From<AllocFailed<T>> for Refusal<'_> {
    ghost from_gives = { λ _ refusal. refusal ≡ Usage NoMemory };

    fn from(_error: AllocFailed<T>) -> Self {
        Refusal::Usage(UsageFault::NoMemory)
    }
}

/// What a word of an option means. Error: the option and the word, if the word has a fault.
pub fn reading<'a, T>(
    option: AddressOption,
    word: &'a str,
    meaning: Result<T, UsageFault>,
) -> Result<T, RefusedValue<'a>>
    ensures { Reads (reading option word.entry.now meaning) result }
{
    match meaning {
        Ok(meaning) => Ok(meaning),
        Err(fault) => Err(RefusedValue {
            option,
            word,
            fault,
        }),
    }
}

/// What an option means that is given at most once; `id` is its name for the parser. Error: the option and its word, if that has a fault.
pub fn single_reading<'a, T>(
    entries: &ArgMatches<'a>,
    option: AddressOption,
    id: &str,
    meaning: Result<T, UsageFault>,
) -> Result<T, RefusedValue<'a>>
    ensures { Reads (reading option (unwrap_or (first_of id.now (rows_of (found_of entries.now))) []) meaning) result }
{
    // An option that isn't given has no fault, so the empty word is never reported in its place.
    let word = text_argument(entries, id).unwrap_or("");
    reading(option, word, meaning)
}

/// Reports a refused value: the number and the name of its fault, `OF`, the option and the value. If the device fails, only a prefix of the
/// line is written. No memory is allocated.
#[tactic(auto, using(crate::proofs::Reporting::reports))]
pub fn report_refused<S: Sink>(value: &RefusedValue<'_>, sink: &mut S)
    ensures { Reports (refused_line (refused_word value.now)) (output_of S.Sink sink.old) (output_of S.Sink sink.new) }
{
    let _ = put_refused(value, sink);
}

// Writes the line for a refused value. Error: `Device`, if the sink fails or accepts none of the bytes left; a prefix of the line was put
// then, perhaps none of it.
fn put_refused<S: Sink>(value: &RefusedValue<'_>, sink: &mut S) -> Result<(), PutFault>
    ensures whole { OnOk result (Appends (S.text sink.old) (S.text sink.new) (refused_line (refused_word value.now))) }
    ensures sound { OnOk result (S.faults sink.new ≡ S.faults sink.old) }
    ensures prefix { OnErr result
        (AppendsPrefix (S.text sink.old) (S.text sink.new) (refused_line (refused_word value.now))) }
    ensures fault { OnErr result (Rises (S.faults sink.old) (S.faults sink.new)) }
{
    put_all(sink, words_before_option(&value.fault).as_bytes())?;
    put_all(sink, value.option.word().as_bytes())?;
    put_all(sink, b" ")?;
    put_all(sink, value.word.as_bytes())?;
    put_all(sink, b"\n")
}

// The words of the line for a refused value that come before the option, with a space after them.
fn words_before_option(fault: &UsageFault) -> &'static str
    ensures { result.now ≡ words_before_option fault.now }
{
    match fault {
        UsageFault::Help(_) => "?M11 USAGE 1 Help OF ",
        UsageFault::Words(_) => "?M11 USAGE 2 Words OF ",
        UsageFault::BadOctal => "?M11 USAGE 3 BadOctal OF ",
        UsageFault::OddAddress => "?M11 USAGE 4 OddAddress OF ",
        UsageFault::BadAddress => "?M11 USAGE 5 BadAddress OF ",
        UsageFault::BadCount => "?M11 USAGE 6 BadCount OF ",
        UsageFault::NoMemory => "?M11 USAGE 90 NoMemory OF ",
    }
}
