//! The lines of listings that show words, and the text of the one that shows the word at an address.

ghost use Rattle.std.specs.Prelude.{◌≡◌, ◌∷◌, ◌++◌, [], IfOk, List, OnOk, codes, drop, map};
ghost use Rattle.std.specs.List.{list_any};
ghost use Rattle.std.specs.Option.{option_map, option_to_list};
ghost use Rattle.std.specs.Str.{bytes_eq};
ghost use Rattle.m11_base_disassembly.specs.Fitting.{Fits};
ghost use Rattle.m11_base_disassembly.specs.Lines.{lines_of};
ghost use Rattle.m11_base_disassembly.specs.ListedLines as spec;

use crate::columns::number_at;
use crate::lines::first_line;
use crate::parts::Part;
use std::alloc::{AllocError, Global};

/// A line of a listing that shows a word.
#[derive(Drop)]
pub struct ListedLine {
    /// The location of its first word.
    pub location: u16,
    /// That word.
    pub word: u16,
    /// Its text, as the listing has it.
    pub text: Vec<u8>,
}

/// The lines of a listing that show words, and where the listing's sections lie.
#[derive(Drop)]
pub struct PlacedListing {
    /// Where its sections lie.
    pub parts: Vec<Part>,
    /// Its lines that show words, in order.
    pub lines: Vec<ListedLine>,
}

// The columns of a line from 42 on.
fn text_in(line: &[u8]) -> &[u8]
    ensures { result.now ≡ drop 42 line.now }
{
    if line.len() > 42 { &line[42..] } else { &[] }
}

// Adds what a line of a listing shows, if it shows a word. Error: memory was refused.
fn add_line(alloc: Global, lines: &mut Vec<ListedLine>, line: &[u8]) -> Result<(), AllocError>
    ensures { OnOk result (map spec.line_of lines.new.items ≡ map spec.line_of lines.old.items ++ option_to_list (spec.listed_line line.now)) }
{
    match (number_at(line, 11), number_at(line, 18)) {
        (Ok(location), Ok(word)) => {
            let mut text = Vec::new(alloc);
            text.extend_from_slice(text_in(line))?;
            lines.push(ListedLine {
                location,
                word,
                text,
            })?;
            Ok(())
        }
        _ => Ok(()),
    }
}

// Whether a line ends the lines of a listing that may show words.
fn is_table(line: &[u8]) -> bool
    ensures { result ≡ bytes_eq line.now (codes "SYMBOL TABLE") }
{
    line == b"SYMBOL TABLE".as_slice()
}

/// The lines of a listing with this text that show words. Error: memory was refused.
pub(crate) fn listed_lines(alloc: Global, text: &[u8]) -> Result<Vec<ListedLine>, AllocError>
    ensures { IfOk result (λ lines. map spec.line_of lines.items ≡ spec.listed_lines (lines_of text.now)) }
{
    let mut lines = Vec::new(alloc);
    let mut rest = text;
    'lines: while !rest.is_empty() {
        let (line, others) = first_line(rest);
        if is_table(line) {
            return Ok(lines);
        }
        add_line(alloc, &mut lines, line)?;
        rest = others;
    }
    Ok(lines)
}

// Whether this location in a section that lies here is the address, and the section holds it.
fn lies_at(address: u16, location: u16, part: &Part) -> bool
    ensures { result ≡ spec.lies_at address location part.now }
{
    part.base.wrapping_add(location) == address
        && part.base <= address
        && u32::from(address) < part.end
}

// Whether this location in one of these sections is the address.
fn lies_in(address: u16, location: u16, parts: &[Part]) -> bool
    ensures { result ≡ list_any (spec.lies_at address location) parts.now }
{
    parts.iter().any(|part| lies_at(address, location, part))
}

// Whether a line shows this word, and its location may be the address in one of these sections.
fn fits(address: u16, word: u16, parts: &[Part], line: &ListedLine) -> bool
    ensures { result ≡ spec.fits address word parts.now (spec.line_of line.now) }
{
    line.word == word && lies_in(address, line.location, parts)
}

// Which lines were found to fit.
#[derive(Clone, Copy)]
enum Fitting<'a> {
    // None of them.
    Nothing,
    // One, with this text.
    Single(&'a [u8]),
    // Two or more.
    Several,
}

// What was found, with one more line that fits.
fn with_line<'a>(found: Fitting<'a>, line: &'a ListedLine) -> Fitting<'a>
    ensures { (before : List spec.ListedLine) → Fits found.entry before → Fits result (before ++ spec.line_of line.now ∷ []) }
{
    match found {
        Fitting::Nothing => Fitting::Single(line.text.as_slice()),
        Fitting::Single(_) | Fitting::Several => Fitting::Several,
    }
}

// What was found, with the lines of one more listing that fit.
fn with_listing<'a>(
    found: Fitting<'a>,
    address: u16,
    word: u16,
    listing: &'a PlacedListing,
) -> Fitting<'a>
    ensures { (before : List spec.ListedLine) → Fits found.entry before
        → Fits result (before ++ spec.fitting_in address word (spec.listing_of listing.now)) }
{
    let parts = listing.parts.as_slice();
    let mut found = found;
    let mut rest = listing.lines.as_slice();
    'lines: while let [line, others @ ..] = rest {
        if fits(address, word, parts, line) {
            found = with_line(found, line);
        }
        rest = others;
    }
    found
}

/// The text of the line that shows the word at this address: of the one line of all listings that shows this word and whose location is the
/// address in one of its listing's sections. `None` if there is no such line, or there are several.
pub fn listed_text<'a>(listings: &'a [PlacedListing], address: u16, word: u16) -> Option<&'a [u8]>
    ensures { option_map (λ text. text.now) result ≡ spec.listed_text (map spec.listing_of listings.now) address word }
{
    let mut found = Fitting::Nothing;
    let mut rest = listings;
    'listings: while let [listing, others @ ..] = rest {
        found = with_listing(found, address, word, listing);
        rest = others;
    }
    match found {
        Fitting::Single(text) => Some(text),
        Fitting::Nothing | Fitting::Several => None,
    }
}
