//! The names in the maps of links, load maps and listings.

ghost use Rattle.std.specs.Prelude.{◌≡◌, ◌++◌, IfErr, IfOk, OnOk, map};
ghost use Rattle.m11_base.specs.Feed.{HasBytes};
ghost use Rattle.m11_base_disassembly.specs.Lines.{lines_of};
ghost use Rattle.m11_base_disassembly.specs.ListedLines.{listing_of, parts_of};
ghost use Rattle.m11_base_disassembly.specs.Maps as spec;
ghost use Rattle.m11_base_disassembly.specs.Rows.{rows_of, symbols_in};

use crate::columns::six_at;
use crate::contributions::{Contribution, add_sections, contributions_of};
use crate::kept::Kept;
use crate::lines::{after_line, first_line};
use crate::listed_lines::{PlacedListing, listed_lines};
use crate::map_fault::MapFault;
use crate::parts::parts_of;
use crate::places::place_of;
use crate::rows::{Form, is_end, may_end, row};
use crate::symbols::Symbol;
use m11_base::Feed;
use std::alloc::{AllocError, Global};

// The largest size of a text, in bytes.
const MOST_BYTES: usize = 16_777_216;

/// Reads all bytes of a file of names. Errors: `Read`, if reading failed; `TooMuch`, if there are more than 16,777,216; `NoMemory`.
pub fn read_text<F: Feed>(alloc: Global, feed: &mut F) -> Result<Vec<u8>, MapFault>
    ensures text { IfOk result (λ text. HasBytes (F.text feed.old) text.items) }
    ensures sound { IfOk result (λ _. F.faults feed.new ≡ F.faults feed.old) }
    ensures unread { IfErr result (spec.IsUnread (F.text feed.old) (F.faults feed.old) (F.faults feed.new)) }
{
    let mut text = Vec::new(alloc);
    'bytes: while text.len() <= MOST_BYTES {
        match feed.next() {
            Ok(Some(byte)) => text.push(byte)?,
            Ok(None) => return Ok(text),
            Err(_) => return Err(MapFault::Read),
        }
    }
    Err(MapFault::TooMuch)
}

/// What files of names have given so far.
#[derive(Drop)]
pub struct NamesSoFar {
    /// What is kept of them.
    pub kept: Kept,
    /// The names in maps, load maps and listings, in order, where the sections in a load map come after its globals.
    pub symbols: Vec<Symbol>,
    /// The listings with their lines, in order; none if only names are kept.
    pub listings: Vec<PlacedListing>,
    /// The contributions at which further listings may lie: those in the last load map without those of modules whose listings came after it,
    /// or none after a listing without a load map; `None` before a load map and before a listing.
    pub contributions: Option<Vec<Contribution>>,
}

// Adds the symbol of a line, if it has one. Errors: those of the line's form; `NoMemory`.
fn add_symbol(symbols: &mut Vec<Symbol>, form: Form<'_>, line: &[u8]) -> Result<(), MapFault>
    ensures { spec.AddsSymbol (rows_of form.entry) line.now symbols.old.items symbols.new.items result }
{
    match row(form, line) {
        Ok(Some(symbol)) => {
            symbols.push(symbol)?;
            Ok(())
        }
        Ok(None) => Ok(()),
        Err(fault) => Err(fault),
    }
}

// Adds the symbols of these lines, up to the line that ends them in this form, or to the end of the text in a load map. Errors: `BadMap`,
// if that line is missing or a line before it doesn't have the form; `NoMemory`. Some of the symbols may then have been added.
fn add_symbols(symbols: &mut Vec<Symbol>, form: Form<'_>, lines: &[u8]) -> Result<(), MapFault>
    ensures { spec.AddsSymbols (rows_of form.entry) (lines_of lines.now) symbols.old.items symbols.new.items result }
{
    let mut rest = lines;
    'lines: while !rest.is_empty() {
        let (line, others) = first_line(rest);
        if is_end(form, line) {
            return Ok(());
        }
        add_symbol(symbols, form, line)?;
        rest = others;
    }
    if may_end(form) {
        Ok(())
    } else {
        Err(MapFault::BadMap)
    }
}

// Adds the symbols of the lines after the line GLOBALS. Errors: `BadMap`, `NoMemory`.
fn add_globals(symbols: &mut Vec<Symbol>, form: Form<'_>, text: &[u8]) -> Result<(), MapFault>
    ensures { spec.AddsGlobals (rows_of form.entry) (lines_of text.now) symbols.old.items symbols.new.items result }
{
    match after_line(text, b"GLOBALS") {
        Some(lines) => add_symbols(symbols, form, lines),
        None => Err(MapFault::BadMap),
    }
}

// Adds the lines of a listing with this text whose names are in lines of this form, if lines are kept. Error: memory was refused.
fn keep_lines(
    alloc: Global,
    kept: Kept,
    listings: &mut Vec<PlacedListing>,
    form: Form<'_>,
    text: &[u8],
) -> Result<(), AllocError>
    ensures { OnOk result (map listing_of listings.new.items
        ≡ map listing_of listings.old.items ++ spec.kept_of kept (parts_of form.entry) (lines_of text.now)) }
{
    match kept {
        Kept::Names => Ok(()),
        Kept::NamesAndLines => {
            let parts = parts_of(alloc, form)?;
            let lines = listed_lines(alloc, text)?;
            listings.push(PlacedListing { parts, lines })?;
            Ok(())
        }
    }
}

impl NamesSoFar {
    /// Before any file: nothing. Of each file this is kept.
    pub fn new(alloc: Global, kept: Kept) -> NamesSoFar
        ensures { spec.so_far result ≡ spec.nothing kept }
    {
        NamesSoFar {
            kept,
            symbols: Vec::new(alloc),
            listings: Vec::new(alloc),
            contributions: None,
        }
    }

    // Adds the globals and the sections of a load map, and keeps its contributions. Errors: `BadMap`, `NoMemory`.
    fn add_load_map(&mut self, alloc: Global, text: &[u8]) -> Result<(), MapFault>
        ensures { spec.Leaves (spec.with_load_map (spec.so_far self.old) (lines_of text.now)) (spec.so_far self.new) result }
    {
        let contributions = contributions_of(alloc, text)?;
        add_globals(
            &mut self.symbols,
            Form::LoadMap(contributions.as_slice()),
            text,
        )?;
        add_sections(&mut self.symbols, contributions.as_slice())?;
        self.contributions = Some(contributions);
        Ok(())
    }

    // Adds the names in the symbol table of a listing with this text, in lines of this form, and its lines, if lines are kept. Errors: `BadMap`,
    // `NoMemory`.
    fn add_listed(
        &mut self,
        alloc: Global,
        form: Form<'_>,
        text: &[u8],
        table: &[u8],
    ) -> Result<(), MapFault>
        ensures { spec.Leaves (spec.with_listed (spec.so_far self.old) (spec.so_far self.old).contributions (parts_of form.entry) (lines_of text.now)
            (symbols_in (rows_of form.entry) (lines_of table.now))) (spec.so_far self.new) result }
    {
        add_symbols(&mut self.symbols, form, table)?;
        keep_lines(alloc, self.kept, &mut self.listings, form, text)?;
        Ok(())
    }

    // Adds the names of a listing that lies where the contributions of the last load map say, and its lines, if lines are kept. Errors:
    // `NoModule`, if its module isn't among them; `BadMap`, `NoMemory`.
    fn add_placed(
        &mut self,
        alloc: Global,
        contributions: &[Contribution],
        text: &[u8],
        table: &[u8],
        sections: &[u8],
    ) -> Result<(), MapFault>
        ensures { spec.Leaves (spec.with_placed (spec.so_far self.old) contributions.now (lines_of text.now) (lines_of table.now)
            (lines_of sections.now)) (spec.so_far self.new) result }
    {
        match place_of(sections, contributions) {
            Some(place) => {
                self.add_listed(alloc, Form::Placed(place.own, sections), text, table)?;
                let mut others = Vec::new(alloc);
                others.extend_from_slice(place.before)?;
                others.extend_from_slice(place.after)?;
                self.contributions = Some(others);
                Ok(())
            }
            None => Err(MapFault::NoModule),
        }
    }

    // Adds the names of a listing with this text, this symbol table and these lines of sections. Errors: `BadMap`, `NoModule`, `NoMemory`.
    fn add_listing(
        &mut self,
        alloc: Global,
        bottom: u16,
        text: &[u8],
        table: &[u8],
        sections: &[u8],
    ) -> Result<(), MapFault>
        ensures { spec.Leaves (spec.with_listing bottom (spec.so_far self.old) (lines_of text.now) (lines_of table.now) (lines_of sections.now))
            (spec.so_far self.new) result }
    {
        match self.contributions.take() {
            Some(contributions) => {
                self.add_placed(alloc, contributions.as_slice(), text, table, sections)
            }
            None => {
                self.add_listed(alloc, Form::Listing(bottom, sections), text, table)?;
                self.contributions = Some(Vec::new(alloc));
                Ok(())
            }
        }
    }

    // Adds the names in the symbol table of a listing with this text. Errors: `BadMap`, `NoModule`, `NoMemory`.
    fn add_table(
        &mut self,
        alloc: Global,
        bottom: u16,
        text: &[u8],
        table: &[u8],
    ) -> Result<(), MapFault>
        ensures { spec.Leaves (spec.with_table bottom (spec.so_far self.old) (lines_of text.now) (lines_of table.now)) (spec.so_far self.new) result }
    {
        match after_line(table, b"") {
            Some(sections) => self.add_listing(alloc, bottom, text, table, sections),
            None => Err(MapFault::BadMap),
        }
    }

    /// Adds what a text gives: the globals and the sections of a load map, the names in a listing, or the globals of a link's map; and the
    /// lines of a listing, if lines are kept. After a load map a listing lies where its module does, the first one whose contributions are
    /// those of its sections and that no listing took; without a load map its relocatable sections begin at `bottom`. Errors: `BadMap`, if the
    /// lines don't have one of these forms; `NoModule`, if a load map came before a listing and has no module for it, or another listing came
    /// before it and no load map; `NoMemory`. Some of the names may then have been added.
    pub fn add_text(&mut self, alloc: Global, bottom: u16, text: &[u8]) -> Result<(), MapFault>
        ensures { spec.Leaves (spec.with_text bottom (spec.so_far self.old) text.now) (spec.so_far self.new) result }
    {
        if six_at(text, 0) == *b"LIMIT " {
            return self.add_load_map(alloc, text);
        }
        match after_line(text, b"SYMBOL TABLE") {
            Some(table) => self.add_table(alloc, bottom, text, table),
            None => add_globals(&mut self.symbols, Form::LinkMap, text),
        }
    }
}
