//! Writes the outputs of placed lines, one after another, and what follows them. (RT-11 Volume and File Formats Manual, "Object file
//! format"; MACRO-11 Language Reference Manual, "Listing control directives", "Table of contents and symbol table", "Diagnostic error
//! message summary" and ".END directive".)

ghost use Rattle.std.specs.Prelude.{◌≡◌, ◌≤◌, ◌++◌, ◌∷◌, [], List, IfOk, OnOk, length, option_map};
ghost use Rattle.m11_base.specs.Devices.{Bytes};
ghost use Rattle.m11_asm_outputs.specs.Object.{AllFit, IsOpenAfter, content_writes, head_contents, last_records, object_contents, records_closed_by};
ghost use Rattle.m11_obj.specs.Records.{EndOfModule};
ghost use Rattle.m11_asm_outputs.specs.Outputs.{Writes};
ghost use Rattle.m11_base_writes.specs.Outputs.{AreFlushed, flushes, outputs, outputs_of, to_messages};
ghost use Rattle.m11_asm_directory.specs.FirstPass.{directory_facts};
ghost use Rattle.m11_asm.specs.Listed.{listing_writes};
ghost use Rattle.m11_asm_listing.specs.Messages.{count_line};
ghost use Rattle.m11_obj.specs.declared.pieces.Piece.{Piece};
ghost use Rattle.m11_asm_passes.specs.Lines.{NumberedLine, table_at};
ghost use Rattle.m11_asm_passes.specs.Placed.{IsPlaced};
ghost use Rattle.m11_asm_rules.specs.Contents.{Emission, pieces_from};
ghost use Rattle.m11_asm_rules.specs.Exports as exports;
ghost use Rattle.m11_asm_rules.specs.Meanings.{Map};
ghost use Rattle.m11_asm_rules.specs.Sources.{end_flags};
ghost use Rattle.m11_asm_rules.specs.Tables.{Table};
ghost use Rattle.m11_asm_lines.specs.Actions.{action_in};
ghost use Rattle.m11_scan.specs.Views.{bits_of};
ghost use Rattle.m11_asm.specs.Program.{Program, program_by, directory_facts_by};
ghost use Rattle.m11_asm.specs.Writing.{WritingAfter, begun, counted, counted_last, most_counted, opened};
ghost use Rattle.m11_asm.specs.Written.{added_writes, closing_writes, flagged_count, head_before, last_location, last_writes, line_writes, message_writes, pieces_in};
ghost use Rattle.m11_unfold_rules.specs.Unfolding.{UnfoldedLine};
ghost use Rattle.m11_scan_expressions.specs.Quantities.{quantity};
ghost use Rattle.m11_base_writes.specs.States.{OutputState, optional_output, output_of};

use crate::done::AsmDone;
use crate::facts::Facts;
use crate::lines::put_listed;
use crate::placed::put_placed;
use crate::section_list::section_entries;
use crate::symbol_list::symbol_entries;
use crate::symbol_table::put_symbol_table;
use bitflags::Flags;
use m11_asm_directives::{Setting, transfer_flags};
use m11_asm_directory::{FirstPass, directory_rows};
use m11_asm_faults::AsmFault;
use m11_asm_lines::{Action, Operation, Pass, UsedSymbols};
use m11_asm_listing::{Item, SectionEntry, SymbolEntry};
use m11_asm_outputs::{open_text, put_count, put_flagged, put_head, put_last, put_pieces};
use m11_asm_passes::PlacedLine;
use m11_base::Sink;
use m11_base_writes::flush_files;
use m11_obj::{DirectoryRow, OpenText, PieceContent};
use m11_scan::ErrorFlags;
use m11_scan_expressions::Value;
use std::alloc::{AllocError, Global};
use std::marker::Model;
use std::mem;

/// The state of writing the outputs.
#[derive(Drop)]
pub struct Writing {
    alloc: Global,
    // From the first pass: the rows of the directory, the transfer address, and the entries of the symbol table.
    rows: Vec<DirectoryRow>,
    transfer: Option<Value>,
    symbols: Vec<SymbolEntry>,
    sections: Vec<SectionEntry>,
    // Room for the items of a line in the listing.
    items: Vec<Item>,
    // The open text of the object.
    text: OpenText,
    // Whether the head of the object has been written.
    has_begun: bool,
    // How many lines are flagged. The count stops at the greatest 32-bit number.
    flagged: u32,
}

impl Model for Writing {
    ghost use Rattle.std.specs.Prelude.{option_map};
    ghost use Rattle.m11_asm.specs.Writing as spec;
    ghost use Rattle.m11_scan_expressions.specs.Quantities.{quantity};

    ghost Value = { spec.Writing };

    ghost view = { λ w. record {
      rows = w.rows.items;
      transfer = option_map quantity w.transfer;
      symbols = w.symbols.items;
      sections = w.sections.items;
      text = w.text;
      has_begun = w.has_begun;
      flagged = w.flagged;
    } };
}

impl Writing {
    /// The state before the first line, from the result of a first pass. Error: memory may be refused.
    pub fn new(
        alloc: Global,
        first: &Pass,
        used_symbols: &UsedSymbols,
        facts: &Facts,
    ) -> Result<Writing, AllocError>
        ensures { IfOk result (λ writing. WritingAfter (program_by first.now used_symbols.now facts.now) [] writing) }
    {
        let first_pass = first_pass_of(first, used_symbols, facts);
        Ok(Writing {
            alloc,
            rows: directory_rows(alloc, &first_pass)?,
            transfer: facts.transfer(),
            symbols: symbol_entries(
                alloc,
                &first_pass,
                used_symbols.names(),
                used_symbols.registers(),
            )?,
            sections: section_entries(alloc, &first_pass)?,
            items: Vec::new(alloc),
            text: open_text(),
            has_begun: false,
            flagged: 0,
        })
    }

    /// Writes the outputs of a placed line: the head of the object before the first line, the records of the texts that the line's pieces
    /// close, the line's listing lines, and its message if it is flagged. `number` is the number of the source line, and `contents` is what
    /// the line emits.
    ///
    /// Errors: `Write` of an output, and `NoMemory` between two writes.
    pub fn put_line<S: Sink, T: Sink, U: Sink>(
        &mut self,
        line: &PlacedLine,
        number: u16,
        contents: &[PieceContent],
        object: &mut S,
        listing: &mut Option<T>,
        messages: &mut U,
    ) -> Result<(), AsmFault>
        ensures writes { (program : Program) (lines : List NumberedLine) (one : NumberedLine) (emission : Emission)
            → WritingAfter program lines self.old → IsPlaced program.map (table_at program.map lines) one.given line.now emission
            → emission.contents ≡ contents.now → number ≡ one.number → Writes
            (outputs_of S.Sink T.Sink U.Sink object.old listing.old messages.old)
            (outputs_of S.Sink T.Sink U.Sink object.new listing.new messages.new)
            (head_before program lines ++ line_writes program lines one) result }
        ensures stands { (program : Program) (lines : List NumberedLine) (one : NumberedLine) (emission : Emission)
            → WritingAfter program lines self.old → IsPlaced program.map (table_at program.map lines) one.given line.now emission
            → emission.contents ≡ contents.now → number ≡ one.number → IfOk result (λ _. WritingAfter program (lines ++ one ∷ []) self.new) }
    {
        self.begin(object)?;
        self.put_pieces(line, contents, object)?;
        let flags = line
            .flags
            .with(end_flags(&line.live.operation, self.transfer));
        self.list(line, flags, number, contents, listing)?;
        self.report(flags, number, line.live.line.text(), messages)
    }

    // Writes the head of the object, unless it is already written. Errors: `Write` of the object, and `NoMemory`.
    // speed: inline, since each placed line comes here, and only the first one finds no head.
    #[inline(always)]
    fn begin<S: Sink>(&mut self, object: &mut S) -> Result<(), AsmFault>
        ensures writes { (program : Program) (lines : List NumberedLine) (listing messages : OutputState)
            → WritingAfter program lines self.old → Writes
            (outputs (output_of S.Sink object.old) listing messages)
            (outputs (output_of S.Sink object.new) listing messages) (head_before program lines) result }
        ensures begins { IfOk result (λ _. self.new ≡ begun self.old) }
        ensures fit { (program : Program) (lines : List NumberedLine) → WritingAfter program lines self.old
            → IfOk result (λ _. AllFit (head_contents program.rows)) }
    {
        if self.has_begun {
            return Ok(());
        }
        put_head(self.alloc, object, self.rows.as_slice())?;
        self.has_begun = true;
        Ok(())
    }

    // Adds the pieces of a line to the open text, and writes the records of the texts that they close. Errors: `Write` of the object, and
    // `NoMemory`.
    fn put_pieces<S: Sink>(
        &mut self,
        line: &PlacedLine,
        contents: &[PieceContent],
        object: &mut S,
    ) -> Result<(), AsmFault>
        ensures writes { (before : List Piece) → IsOpenAfter before self.old.text → (listing messages : OutputState) → Writes
            (outputs (output_of S.Sink object.old) listing messages)
            (outputs (output_of S.Sink object.new) listing messages)
            (content_writes (records_closed_by before (pieces_from line.now.section line.now.location contents.now))) result }
        ensures opens { IfOk result (λ _. self.new ≡ opened self.new.text self.old) }
        ensures stands { (before : List Piece) → IsOpenAfter before self.old.text → IfOk result (λ _. IsOpenAfter
            (before ++ pieces_from line.now.section line.now.location contents.now) self.new.text) }
        ensures fit { (before : List Piece) → IsOpenAfter before self.old.text → OnOk result
            (AllFit (records_closed_by before (pieces_from line.now.section line.now.location contents.now))) }
    {
        put_pieces(
            self.alloc,
            object,
            &mut self.text,
            line.section,
            line.location,
            contents,
        )
    }

    // Writes the listing lines of a placed line, if there is a listing and the line is listed. Errors: those of `put_placed`.
    fn list<T: Sink>(
        &mut self,
        line: &PlacedLine,
        flags: ErrorFlags,
        number: u16,
        contents: &[PieceContent],
        listing: &mut Option<T>,
    ) -> Result<(), AsmFault>
        ensures writes { (map : Map) (table : Table) (given : UnfoldedLine) (emission : Emission) (object messages : OutputState)
            → IsPlaced map table given line.now emission → emission.contents ≡ contents.now → Writes
            (outputs object (optional_output T.Sink listing.old) messages)
            (outputs object (optional_output T.Sink listing.new) messages)
            (listing_writes map table (bits_of flags) number given) result }
        ensures keeps { self.new ≡ self.old }
    {
        put_placed(&mut self.items, line, flags, number, contents, listing)
    }

    // Reports and counts a line if it is flagged. Fault: `Write` of the messages.
    // speed: inline, since each placed line comes here, and few are flagged.
    #[inline(always)]
    fn report<U: Sink>(
        &mut self,
        flags: ErrorFlags,
        number: u16,
        text: &[u8],
        messages: &mut U,
    ) -> Result<(), AsmFault>
        requires { length text.now ≤ 132 }
        ensures writes { (object listing : OutputState) → Writes
            (outputs object listing (output_of U.Sink messages.old))
            (outputs object listing (output_of U.Sink messages.new))
            (message_writes (bits_of flags) number text.now) result }
        ensures counts { IfOk result (λ _. self.new
            ≡ record self.old { flagged = counted (bits_of flags) self.old.flagged }) }
    {
        if flags.is_empty() {
            return Ok(());
        }
        put_flagged(messages, flags, number, text)?;
        self.flagged = self.flagged.saturating_add(1);
        Ok(())
    }

    /// Writes what follows all lines: the head, if it isn't written yet; the added line, if `.END` didn't become live; the last text and
    /// the end of the module; and the symbol table, with the count of flagged lines after it. Then it flushes object and listing, writes
    /// the count to the messages, and returns it. `read` is the number of lines read, and `location` is the location counter after the last
    /// line.
    ///
    /// Errors: `Write` of an output, and `NoMemory` between two writes.
    pub fn end<S: Sink, T: Sink, U: Sink>(
        &mut self,
        has_ended: bool,
        read: u16,
        location: u16,
        object: &mut S,
        listing: &mut Option<T>,
        messages: &mut U,
    ) -> Result<AsmDone, AsmFault>
        ensures writes { (program : Program) (lines : List NumberedLine) → WritingAfter program lines self.old
            → location ≡ last_location program lines → flagged_count program lines has_ended ≤ most_counted → Writes
            (outputs_of S.Sink T.Sink U.Sink object.old listing.old messages.old)
            (outputs_of S.Sink T.Sink U.Sink object.new listing.new messages.new)
            (last_writes program lines (record { read = read; has_end = has_ended })) result }
        ensures counts { (program : Program) (lines : List NumberedLine) → WritingAfter program lines self.old
            → flagged_count program lines has_ended ≤ most_counted
            → IfOk result (λ done. done.flagged ≡ flagged_count program lines has_ended) }
        ensures fit { (program : Program) (lines : List NumberedLine) → WritingAfter program lines self.old
            → OnOk result (AllFit (object_contents program.rows (pieces_in program.map lines))) }
        ensures flushed { OnOk result (AreFlushed (outputs_of S.Sink T.Sink U.Sink object.new listing.new messages.new)) }
    {
        self.begin(object)?;
        self.add_line(has_ended, read, location, listing, messages)?;
        self.close(object, listing, messages)
    }

    // Writes the line that is added if `.END` didn't become live: an empty line, flagged E, in the listing and in the messages. Fault:
    // `Write` of the listing or of the messages.
    fn add_line<T: Sink, U: Sink>(
        &mut self,
        has_ended: bool,
        read: u16,
        location: u16,
        listing: &mut Option<T>,
        messages: &mut U,
    ) -> Result<(), AsmFault>
        ensures writes { (object : OutputState) → Writes
            (outputs object (optional_output T.Sink listing.old) (output_of U.Sink messages.old))
            (outputs object (optional_output T.Sink listing.new) (output_of U.Sink messages.new))
            (added_writes (record { read = read; has_end = has_ended }) location) result }
        ensures counts { IfOk result (λ _. self.new ≡ record self.old { flagged = counted_last has_ended self.old.flagged }) }
    {
        if has_ended {
            return Ok(());
        }
        put_listed(listing, ErrorFlags::E, read, location, location, &[], &[])?;
        self.report(ErrorFlags::E, read, &[], messages)
    }

    // Writes the last text, the end of the module and the symbol table, flushes object and listing, and then writes the count of flagged
    // lines to the messages. Errors are those of `end`.
    fn close<S: Sink, T: Sink, U: Sink>(
        &mut self,
        object: &mut S,
        listing: &mut Option<T>,
        messages: &mut U,
    ) -> Result<AsmDone, AsmFault>
        ensures writes { (pieces : List Piece) → IsOpenAfter pieces self.old.text → Writes
            (outputs_of S.Sink T.Sink U.Sink object.old listing.old messages.old)
            (outputs_of S.Sink T.Sink U.Sink object.new listing.new messages.new)
            (closing_writes pieces self.old.symbols self.old.sections self.old.flagged) result }
        ensures counts { IfOk result (λ done. done.flagged ≡ self.old.flagged) }
        ensures fit { (pieces : List Piece) → IsOpenAfter pieces self.old.text
            → OnOk result (AllFit (last_records pieces ++ EndOfModule ∷ [])) }
        ensures flushed { OnOk result (AreFlushed (outputs_of S.Sink T.Sink U.Sink object.new listing.new messages.new)) }
    {
        let text = mem::replace(&mut self.text, open_text());
        put_last(self.alloc, object, text)?;
        let symbols = self.symbols.as_slice();
        put_symbol_table(listing, symbols, self.sections.as_slice(), self.flagged)?;
        flush_and_count(object, listing, messages, self.flagged)?;
        Ok(AsmDone {
            flagged: self.flagged,
        })
    }
}

// Flushes object and listing, and then writes the count to the messages, so that they report no count for incomplete files. Fault: `Write`
// of an output.
fn flush_and_count<S: Sink, T: Sink, U: Sink>(
    object: &mut S,
    listing: &mut Option<T>,
    messages: &mut U,
    flagged: u32,
) -> Result<(), AsmFault>
    ensures writes { Writes
        (outputs_of S.Sink T.Sink U.Sink object.old listing.old messages.old)
        (outputs_of S.Sink T.Sink U.Sink object.new listing.new messages.new)
        (flushes ++ to_messages (count_line flagged) ∷ []) result }
    ensures flushed { OnOk result (AreFlushed (outputs_of S.Sink T.Sink U.Sink object.new listing.new messages.new)) }
{
    flush_files::<S, T, AsmFault>(object, listing)?;
    put_count(messages, flagged)
}

// What the first pass found for the directory and the symbol table.
fn first_pass_of<'a>(
    first: &'a Pass,
    used_symbols: &'a UsedSymbols,
    facts: &'a Facts,
) -> FirstPass<'a>
    ensures table { result.table.now ≡ first.now }
    ensures facts { directory_facts result ≡ directory_facts_by first.now used_symbols.now facts.now }
{
    FirstPass {
        table: first.table(),
        referred: used_symbols.referred(),
        weak: facts.weak(),
        title: facts.title(),
        identification: facts.identification(),
        transfer: facts.transfer(),
    }
}

// For `.END`, the flags of its expression that depend on names, as the first pass found them; for any other action none.
fn end_flags(operation: &Operation, transfer: Option<Value>) -> ErrorFlags
    ensures { (line : Bytes) → bits_of result
        ≡ end_flags (exports.transfer_flags (option_map quantity transfer)) (action_in line operation.now) }
{
    match operation.action {
        Action::Set(Setting::Transfer(_)) => transfer_flags(transfer),
        _ => ErrorFlags::none(),
    }
}
