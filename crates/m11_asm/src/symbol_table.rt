//! The listing lines after the source lines. (MACRO-11 Language Reference Manual, "Table of contents and symbol table".)

ghost use Rattle.std.specs.Prelude.{◌∷◌, [], map};
ghost use Rattle.m11_asm_outputs.specs.Outputs.{Writes};
ghost use Rattle.m11_base_writes.specs.Outputs.{outputs};
ghost use Rattle.m11_asm.specs.Listed.{all_to_listing};
ghost use Rattle.m11_asm_listing.specs.Messages.{count_line};
ghost use Rattle.m11_asm_listing.specs.SymbolTable.{empty_line, last_lines, section_line, symbol_line, title_line};
ghost use Rattle.m11_base_writes.specs.States.{OutputState, optional_output};

use m11_asm_faults::AsmFault;
use m11_asm_listing::{
    SectionEntry, SymbolEntry, count_line, empty_line, section_line, symbol_line, title_line,
};
use m11_base::Sink;
use m11_base_writes::put_report;

/// Writes the listing lines after the source lines, if there is a listing: the symbol table, and how many lines are flagged.
///
/// Fault: `Write` of the listing.
pub fn put_symbol_table<T: Sink>(
    listing: &mut Option<T>,
    symbols: &[SymbolEntry],
    sections: &[SectionEntry],
    count: u32,
) -> Result<(), AsmFault>
    ensures { (object messages : OutputState) → Writes
        (outputs object (optional_output T.Sink listing.old) messages)
        (outputs object (optional_output T.Sink listing.new) messages)
        (all_to_listing (last_lines symbols.now sections.now count)) result }
{
    put_title(listing)?;
    put_symbols(listing, symbols)?;
    put_empty(listing)?;
    put_sections(listing, sections)?;
    put_last(listing, count)
}

// Writes an empty line. Fault: `Write` of the listing.
fn put_empty<T: Sink>(listing: &mut Option<T>) -> Result<(), AsmFault>
    ensures { (object messages : OutputState) → Writes
        (outputs object (optional_output T.Sink listing.old) messages)
        (outputs object (optional_output T.Sink listing.new) messages) (all_to_listing (empty_line ∷ [])) result }
{
    put_report(listing, empty_line().as_slice())
}

// Writes the title of the table, after an empty line. Fault: `Write` of the listing.
fn put_title<T: Sink>(listing: &mut Option<T>) -> Result<(), AsmFault>
    ensures { (object messages : OutputState) → Writes
        (outputs object (optional_output T.Sink listing.old) messages)
        (outputs object (optional_output T.Sink listing.new) messages)
        (all_to_listing (empty_line ∷ title_line ∷ [])) result }
{
    put_empty(listing)?;
    put_report(listing, title_line().as_slice())
}

// Writes the lines of the names, one for each entry. Fault: `Write` of the listing.
fn put_symbols<T: Sink>(listing: &mut Option<T>, symbols: &[SymbolEntry]) -> Result<(), AsmFault>
    ensures { (object messages : OutputState) → Writes
        (outputs object (optional_output T.Sink listing.old) messages)
        (outputs object (optional_output T.Sink listing.new) messages)
        (all_to_listing (map symbol_line symbols.now)) result }
{
    'symbols: for symbol in symbols {
        put_report::<T, AsmFault>(listing, symbol_line(symbol).as_slice())?;
    }
    Ok(())
}

// Writes the lines of the sections, one for each entry. Fault: `Write` of the listing.
fn put_sections<T: Sink>(listing: &mut Option<T>, sections: &[SectionEntry]) -> Result<(), AsmFault>
    ensures { (object messages : OutputState) → Writes
        (outputs object (optional_output T.Sink listing.old) messages)
        (outputs object (optional_output T.Sink listing.new) messages)
        (all_to_listing (map section_line sections.now)) result }
{
    'sections: for section in sections {
        put_report::<T, AsmFault>(listing, section_line(section).as_slice())?;
    }
    Ok(())
}

// Writes how many lines are flagged, after an empty line. Fault: `Write` of the listing.
fn put_last<T: Sink>(listing: &mut Option<T>, count: u32) -> Result<(), AsmFault>
    ensures { (object messages : OutputState) → Writes
        (outputs object (optional_output T.Sink listing.old) messages)
        (outputs object (optional_output T.Sink listing.new) messages)
        (all_to_listing (empty_line ∷ count_line count ∷ [])) result }
{
    put_empty(listing)?;
    put_report(listing, count_line(count).as_slice())
}
