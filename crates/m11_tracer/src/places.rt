//! The addresses that the values of `-p`, `-w` and `-r` give: numbers, and names with distances.

ghost use Rattle.std.specs.Prelude.{◌≡◌, option_map};
ghost use Rattle.std.specs.List.{before_first};
ghost use Rattle.m11_cli_tasks.specs.Opened.{texts};
ghost use Rattle.m11_cli_tasks.specs.Tasks.{address_of_word};
ghost use Rattle.m11_tracer.specs.Places as spec;

use m11_base::{OctalFault, read_octal};
use m11_base_disassembly::{Symbols, value_named};
use m11_cli_reports::{AddressOption, Refusal, reading};
use m11_cli_tasks::{UsageFault, address, count};
use m11_trace::{CountedAddress, Range, Stops};
use std::alloc::Global;

/// The values of `-p`, `-w` and `-r`, each in order.
#[derive(Drop)]
pub struct Values<'a> {
    /// Those of the breakpoints.
    pub places: Vec<&'a str>,
    /// Those of the words to watch.
    pub watched: Vec<&'a str>,
    /// Those of the memory ranges to show at the end.
    pub ranges: Vec<&'a str>,
}

/// What the values of `-p`, `-w` and `-r` ask for.
#[derive(Drop)]
pub struct Asked {
    /// The breakpoints and the words to watch, with even addresses up to octal 157776 and counts of 1 to 1,000,000,000.
    pub stops: Stops,
    /// The memory ranges to show at the end, with even addresses up to octal 157776.
    pub ranges: Vec<Range>,
}

/// What these values ask for, if these symbols are the names of addresses. Without symbols any name is taken for the address 0, so that all
/// but the names is checked.
///
/// Errors, in this order: the first bad value of a breakpoint, for its address or else for its count; that of a word to watch; the first
/// bad value of a memory range. `NoMemory` at any point, if memory is refused.
pub(crate) fn asked_of<'a>(
    alloc: Global,
    symbols: Option<&Symbols>,
    values: &Values<'a>,
) -> Result<Asked, Refusal<'a>>
    ensures { spec.AsksFor (option_map (λ known. known.now) symbols.entry) (spec.value_texts values.now) result }
{
    let mut stops = Stops {
        breakpoints: Vec::new(alloc),
        watched: Vec::new(alloc),
    };
    add_counted(
        &mut stops.breakpoints,
        AddressOption::Place,
        symbols,
        values.places.as_slice(),
    )?;
    add_counted(
        &mut stops.watched,
        AddressOption::Watch,
        symbols,
        values.watched.as_slice(),
    )?;
    let mut ranges = Vec::new(alloc);
    add_ranges(&mut ranges, symbols, values.ranges.as_slice())?;
    Ok(Asked { stops, ranges })
}

// Adds the addresses with counts that these texts of an option give. Errors: the first text that gives none, or `NoMemory`.
fn add_counted<'a>(
    counted: &mut Vec<CountedAddress>,
    option: AddressOption,
    symbols: Option<&Symbols>,
    named: &[&'a str],
) -> Result<(), Refusal<'a>>
    ensures { spec.AddsCounted option (option_map (λ known. known.now) symbols.entry) (texts named.now) counted.old.items
        counted.new.items result }
{
    match named {
        [] => Ok(()),
        [text, others @ ..] => {
            counted.push(reading(option, *text, counted_of(symbols, *text))?)?;
            add_counted(counted, option, symbols, others)
        }
    }
}

// Adds the memory ranges that these texts give. Errors: the first text that gives none, or `NoMemory`.
fn add_ranges<'a>(
    ranges: &mut Vec<Range>,
    symbols: Option<&Symbols>,
    named: &[&'a str],
) -> Result<(), Refusal<'a>>
    ensures { spec.AddsRanges (option_map (λ known. known.now) symbols.entry) (texts named.now) ranges.old.items ranges.new.items result }
{
    match named {
        [] => Ok(()),
        [text, others @ ..] => {
            ranges.push(reading(AddressOption::Range, *text, range_of(symbols, *text))?)?;
            add_ranges(ranges, symbols, others)
        }
    }
}

// The parts of a text before and after its first colon; the whole text and None if it has no colon.
fn parts_of(text: &str) -> (&str, Option<&str>)
    ensures first { result.0.now ≡ before_first spec.is_colon text.now }
    ensures second { option_map (λ part. part.now) result.1 ≡ spec.part_after spec.is_colon text.now }
{
    match text.split_once(':') {
        Some((first, second)) => (first, Some(second)),
        None => (text, None),
    }
}

// The parts of a text before and after its first plus; the whole text and None if it has no plus.
fn name_and_distance(text: &str) -> (&str, Option<&str>)
    ensures first { result.0.now ≡ before_first spec.is_plus text.now }
    ensures second { option_map (λ part. part.now) result.1 ≡ spec.part_after spec.is_plus text.now }
{
    match text.split_once('+') {
        Some((first, second)) => (first, Some(second)),
        None => (text, None),
    }
}

// The address with a count that a text PLACE or PLACE:COUNT gives; PLACE alone has the count 1. Error: the fault of the address or count.
fn counted_of(symbols: Option<&Symbols>, text: &str) -> Result<CountedAddress, UsageFault>
    ensures { result ≡ spec.counted_of (option_map (λ known. known.now) symbols.entry) text.now }
{
    let (first, second) = parts_of(text);
    let address = place_of(symbols, first)?;
    match second {
        Some(times) => Ok(CountedAddress {
            address,
            count: count(times)?,
        }),
        None => Ok(CountedAddress { address, count: 1 }),
    }
}

// The memory range that a text FIRST or FIRST:LAST gives; FIRST alone is one word. Error: the fault of an address.
fn range_of(symbols: Option<&Symbols>, text: &str) -> Result<Range, UsageFault>
    ensures { result ≡ spec.range_of (option_map (λ known. known.now) symbols.entry) text.now }
{
    let (first, second) = parts_of(text);
    let first = place_of(symbols, first)?;
    match second {
        Some(last) => Ok(Range {
            first,
            last: place_of(symbols, last)?,
        }),
        None => Ok(Range { first, last: first }),
    }
}

// Whether a text begins with a letter, `$` or `.`, as names do and numbers don't.
fn begins_name(text: &str) -> bool
    ensures { result ≡ spec.begins_name text.now }
{
    match text.as_bytes() {
        [first, ..] => matches!(*first, b'A'..=b'Z' | b'$' | b'.'),
        [] => false,
    }
}

// The address that a text spells in octal, or that its name has among these symbols, with the distance after `+`. Error: `BadOctal`, for a name
// that no symbol has, or a number or a distance that isn't an octal word; `OddAddress` or `BadAddress`, for an address that is odd or past
// octal 157776.
fn place_of(symbols: Option<&Symbols>, text: &str) -> Result<u16, UsageFault>
    ensures { result ≡ spec.place_of (option_map (λ known. known.now) symbols.entry) text.now }
{
    if begins_name(text) {
        named_at(symbols, text)
    } else {
        address(text)
    }
}

// The distance that a text spells in octal; 0 if there is no text. Error: `BadOctal`.
fn distance_by(digits: Option<&str>) -> Result<u16, OctalFault>
    ensures { result ≡ spec.distance_by (option_map (λ digits. digits.now) digits.entry) }
{
    match digits {
        Some(digits) => read_octal(digits.as_bytes()),
        None => Ok(0),
    }
}

// The address of the name in a text, with the distance after `+`.
fn named_at(symbols: Option<&Symbols>, text: &str) -> Result<u16, UsageFault>
    ensures { result ≡ spec.named_at (option_map (λ known. known.now) symbols.entry) (before_first spec.is_plus text.now)
        (spec.distance_by (spec.part_after spec.is_plus text.now)) }
{
    let (name, digits) = name_and_distance(text);
    let distance = distance_by(digits)?;
    match symbols {
        Some(known) => far_from(value_named(known.as_slice(), name.as_bytes()), distance),
        None => Ok(0),
    }
}

// The address at this distance from a value. Error: `BadOctal`, if there is no value; `OddAddress` or `BadAddress`.
fn far_from(value: Option<u16>, distance: u16) -> Result<u16, UsageFault>
    ensures { result ≡ spec.far_from value distance }
{
    match value {
        Some(value) => checked(value.wrapping_add(distance)),
        None => Err(UsageFault::BadOctal),
    }
}

// A word as an address of memory. Error: `OddAddress`, if it is odd; `BadAddress`, if it is past octal 157776.
fn checked(word: u16) -> Result<u16, UsageFault>
    ensures { result ≡ address_of_word word }
{
    if word % 2 == 1 {
        Err(UsageFault::OddAddress)
    } else if word > 0o157_776 {
        Err(UsageFault::BadAddress)
    } else {
        Ok(word)
    }
}
