//! Writes the object of an assembly, record by record. A write fails with `Write` of the object, or with `NoMemory` before a record.
//! (RT-11 Volume and File Formats Manual, "Object file format".)

ghost use Rattle.std.specs.Prelude.{◌≡◌, ◌<◌, List, [], ◌∷◌, ◌++◌, All, OnOk};
ghost use Rattle.std.specs.List.{AllByRecursion};
ghost use Rattle.std.specs.Option.{option_to_list};
ghost use Rattle.m11_obj_blocks.specs.Frames.{block};
ghost use Rattle.m11_obj.specs.Records.{Content, EndOfGsd, EndOfModule};
ghost use Rattle.m11_obj.specs.Blocks.{AreRecords};
ghost use Rattle.m11_obj.specs.OpenText.{records_in};
ghost use Rattle.m11_obj.specs.Texts.{records_of};
ghost use Rattle.m11_obj.specs.declared.directory.DirectoryRow.{DirectoryRow};
ghost use Rattle.m11_obj.specs.declared.pieces.Piece.{Piece};
ghost use Rattle.m11_asm_rules.specs.Contents.{content_size, further, pieces_from};
ghost use Rattle.m11_base_writes.specs.States.{OutputState, output_of};
ghost use Rattle.m11_asm_outputs.specs.Object.{AllFit, BlockFits, IsOpenAfter, WaitsAfter, block_writes, content_writes, head_contents, last_records, records_closed_by, records_filled_by, rest_records};
ghost use Rattle.m11_asm_outputs.specs.Outputs.{Writes};
ghost use Rattle.m11_base_writes.specs.Outputs.{outputs, to_product};

use m11_asm_faults::AsmFault;
use m11_base::{Name, Sink};
use m11_base_writes::put_product;
use m11_obj::{
    Block, DirectoryRow, OpenDirectory, OpenText, Piece, PieceContent, Record, Text, block_bytes,
};
use std::alloc::Global;

/// Writes what precedes the texts: the records of a directory with these rows, and the directory's end.
///
/// Faults: `Write` of the object, and `NoMemory` before a record.
pub fn put_head<S: Sink>(
    alloc: Global,
    object: &mut S,
    rows: &[DirectoryRow],
) -> Result<(), AsmFault>
    ensures writes { (listing messages : OutputState) → Writes
        (outputs (output_of S.Sink object.old) listing messages)
        (outputs (output_of S.Sink object.new) listing messages) (content_writes (head_contents rows.now)) result }
    ensures fit { OnOk result (AllFit (head_contents rows.now)) }
{
    let mut waiting = OpenDirectory::new();
    put_rows(alloc, object, &mut waiting, rows)?;
    put_directory_end(alloc, object, waiting)
}

// Adds these rows to the directory, and writes the records that they fill.
fn put_rows<S: Sink>(
    alloc: Global,
    object: &mut S,
    waiting: &mut OpenDirectory,
    rows: &[DirectoryRow],
) -> Result<(), AsmFault>
    ensures writes { (before : List DirectoryRow) → WaitsAfter before waiting.old → (listing messages : OutputState) → Writes
        (outputs (output_of S.Sink object.old) listing messages)
        (outputs (output_of S.Sink object.new) listing messages)
        (content_writes (records_filled_by before rows.now)) result }
    ensures waits { (before : List DirectoryRow) → WaitsAfter before waiting.old
        → OnOk result (WaitsAfter (before ++ rows.now) waiting.new) }
    ensures fit { (before : List DirectoryRow) → WaitsAfter before waiting.old
        → OnOk result (AllFit (records_filled_by before rows.now)) }
{
    'rows: for row in rows {
        put_row(alloc, object, waiting, row)?;
    }
    Ok(())
}

// Adds a row to the directory. If the last record was already full, that record is written, and the row begins another one. The row is in
// the directory even if the write fails.
fn put_row<S: Sink>(
    alloc: Global,
    object: &mut S,
    waiting: &mut OpenDirectory,
    row: &DirectoryRow,
) -> Result<(), AsmFault>
    ensures writes { (before : List DirectoryRow) → WaitsAfter before waiting.old → (listing messages : OutputState) → Writes
        (outputs (output_of S.Sink object.old) listing messages)
        (outputs (output_of S.Sink object.new) listing messages)
        (content_writes (records_filled_by before (row.now ∷ []))) result }
    ensures waits { (before : List DirectoryRow) → WaitsAfter before waiting.old
        → WaitsAfter (before ++ row.now ∷ []) waiting.new }
    ensures fit { (before : List DirectoryRow) → WaitsAfter before waiting.old → AllFit (records_filled_by before (row.now ∷ [])) }
{
    let full = waiting.accept(row);
    put_if_full(alloc, object, &full)
}

// Writes the last record of a directory, if it has one, and the directory's end.
fn put_directory_end<S: Sink>(
    alloc: Global,
    object: &mut S,
    waiting: OpenDirectory,
) -> Result<(), AsmFault>
    ensures writes { (rows : List DirectoryRow) → WaitsAfter rows waiting → (listing messages : OutputState) → Writes
        (outputs (output_of S.Sink object.old) listing messages)
        (outputs (output_of S.Sink object.new) listing messages)
        (content_writes (rest_records rows ++ EndOfGsd ∷ [])) result }
    ensures fit { (rows : List DirectoryRow) → WaitsAfter rows waiting → OnOk result (AllFit (rest_records rows ++ EndOfGsd ∷ [])) }
{
    let last = waiting.end();
    put_if_full(alloc, object, &last)?;
    put_record(alloc, object, &Record::end_of_gsd())
}

// Writes a record of a directory, if there is one.
fn put_if_full<S: Sink>(
    alloc: Global,
    object: &mut S,
    content: &Option<Block>,
) -> Result<(), AsmFault>
    ensures writes { (contents : List Content) → AreRecords (option_to_list content.now) contents
        → (listing messages : OutputState) → Writes
        (outputs (output_of S.Sink object.old) listing messages)
        (outputs (output_of S.Sink object.new) listing messages) (content_writes contents) result }
    ensures fit { (contents : List Content) → AreRecords (option_to_list content.now) contents → AllFit contents }
{
    match content {
        Some(content) => {
            what_is_read_fits(content);
            put_record(alloc, object, content)
        }
        None => Ok(()),
    }
}

/// The state before the first piece: no text is open.
pub fn open_text() -> OpenText
    ensures { IsOpenAfter [] result }
{
    OpenText::new()
}

/// Adds what a line emits, starting at a location of a section, and writes the texts that are then closed. A text is closed once a piece
/// comes that doesn't directly follow it or doesn't fit into it. What isn't written stays in the open text until a further piece closes it,
/// or `put_last` is called.
///
/// Faults: `Write` of the object, and `NoMemory` before a record. After a fault the open text is of no use.
pub fn put_pieces<S: Sink>(
    alloc: Global,
    object: &mut S,
    text: &mut OpenText,
    section: Name,
    location: u16,
    contents: &[PieceContent],
) -> Result<(), AsmFault>
    ensures writes { (before : List Piece) → IsOpenAfter before text.old → (listing messages : OutputState) → Writes
        (outputs (output_of S.Sink object.old) listing messages)
        (outputs (output_of S.Sink object.new) listing messages)
        (content_writes (records_closed_by before (pieces_from section location contents.now))) result }
    ensures opens { (before : List Piece) → IsOpenAfter before text.old
        → OnOk result (IsOpenAfter (before ++ pieces_from section location contents.now) text.new) }
    ensures fit { (before : List Piece) → IsOpenAfter before text.old
        → OnOk result (AllFit (records_closed_by before (pieces_from section location contents.now))) }
{
    let mut next = location;
    'contents: for content in contents {
        let piece = Piece {
            section,
            location: next,
            content: *content,
        };
        put_piece(alloc, object, text, &piece)?;
        next = location_after(next, content);
    }
    Ok(())
}

// The location after the contents of a piece, modulo 65536.
fn location_after(location: u16, content: &PieceContent) -> u16
    ensures { result ≡ further location (content_size content.now) }
{
    location.wrapping_add(content.byte_count() as u16)
}

// Adds a piece, and writes the text that it closes, if any. The piece is in the open text even if the write fails.
fn put_piece<S: Sink>(
    alloc: Global,
    object: &mut S,
    text: &mut OpenText,
    piece: &Piece,
) -> Result<(), AsmFault>
    ensures writes { (before : List Piece) → IsOpenAfter before text.old → (listing messages : OutputState) → Writes
        (outputs (output_of S.Sink object.old) listing messages)
        (outputs (output_of S.Sink object.new) listing messages)
        (content_writes (records_closed_by before (piece.now ∷ []))) result }
    ensures opens { (before : List Piece) → IsOpenAfter before text.old
        → IsOpenAfter (before ++ piece.now ∷ []) text.new }
    ensures fit { (before : List Piece) → IsOpenAfter before text.old → OnOk result (AllFit (records_closed_by before (piece.now ∷ []))) }
{
    // speed: most pieces close no text, and need no room for one
    if text.accept_within(piece) {
        return Ok(());
    }
    put_closing(alloc, object, text, piece)
}

// Adds a piece that may close the open text, and writes the text that it closes, if any.
// speed: a call, since inlined it would clear room for a text at each piece.
#[inline(never)]
fn put_closing<S: Sink>(
    alloc: Global,
    object: &mut S,
    text: &mut OpenText,
    piece: &Piece,
) -> Result<(), AsmFault>
    ensures writes { (before : List Piece) → IsOpenAfter before text.old → (listing messages : OutputState) → Writes
        (outputs (output_of S.Sink object.old) listing messages)
        (outputs (output_of S.Sink object.new) listing messages)
        (content_writes (records_closed_by before (piece.now ∷ []))) result }
    ensures opens { (before : List Piece) → IsOpenAfter before text.old
        → IsOpenAfter (before ++ piece.now ∷ []) text.new }
    ensures fit { (before : List Piece) → IsOpenAfter before text.old → OnOk result (AllFit (records_closed_by before (piece.now ∷ []))) }
{
    let closed = text.accept(piece);
    put_if_closed(alloc, object, &closed)
}

/// Writes what follows all pieces: the last text, if there are any pieces, and the end of the module.
///
/// Faults: `Write` of the object, and `NoMemory` before a record.
pub fn put_last<S: Sink>(alloc: Global, object: &mut S, text: OpenText) -> Result<(), AsmFault>
    ensures writes { (pieces : List Piece) → IsOpenAfter pieces text → (listing messages : OutputState) → Writes
        (outputs (output_of S.Sink object.old) listing messages)
        (outputs (output_of S.Sink object.new) listing messages)
        (content_writes (last_records pieces ++ EndOfModule ∷ [])) result }
    ensures fit { (pieces : List Piece) → IsOpenAfter pieces text → OnOk result (AllFit (last_records pieces ++ EndOfModule ∷ [])) }
{
    let last = text.end();
    put_if_closed(alloc, object, &last)?;
    put_record(alloc, object, &Record::end_of_module())
}

// Writes the records of a text, if there is one.
fn put_if_closed<S: Sink>(
    alloc: Global,
    object: &mut S,
    text: &Option<Text>,
) -> Result<(), AsmFault>
    ensures writes { (listing messages : OutputState) → Writes
        (outputs (output_of S.Sink object.old) listing messages)
        (outputs (output_of S.Sink object.new) listing messages) (content_writes (records_in text.now)) result }
    ensures fit { OnOk result (AllFit (records_in text.now)) }
{
    match text {
        Some(text) => put_text(alloc, object, text),
        None => Ok(()),
    }
}

// Writes the records of a text.
fn put_text<S: Sink>(alloc: Global, object: &mut S, text: &Text) -> Result<(), AsmFault>
    ensures writes { (listing messages : OutputState) → Writes
        (outputs (output_of S.Sink object.old) listing messages)
        (outputs (output_of S.Sink object.new) listing messages) (content_writes (records_of text.now)) result }
    ensures fit { OnOk result (AllFit (records_of text.now)) }
{
    put_blocks(alloc, object, text.records().as_slice())
}

// Writes records, given by their bytes, each as a block.
fn put_blocks<S: Sink>(alloc: Global, object: &mut S, contents: &[Block]) -> Result<(), AsmFault>
    ensures writes { (listing messages : OutputState) → Writes
        (outputs (output_of S.Sink object.old) listing messages)
        (outputs (output_of S.Sink object.new) listing messages) (block_writes contents.now) result }
    ensures fit { OnOk result (AllByRecursion BlockFits contents.now) }
{
    'contents: for content in contents {
        what_is_read_fits(content);
        put_record(alloc, object, content)?;
    }
    Ok(())
}

// States that a record read from bytes of type `u8` fits its block. The function does nothing.
fn what_is_read_fits(content: &Block)
    ensures { BlockFits content.now }
{
    are_bytes(content.as_slice());
}

// States that bytes are below 256, by their type. The function does nothing.
fn are_bytes(bytes: &[u8])
    ensures { All (λ byte. byte < 256) bytes.now }
{
    let _bytes = bytes;
}

// Writes a record, given by its bytes, as a block.
fn put_record<S: Sink>(alloc: Global, object: &mut S, content: &Block) -> Result<(), AsmFault>
    ensures { (listing messages : OutputState) → Writes
        (outputs (output_of S.Sink object.old) listing messages)
        (outputs (output_of S.Sink object.new) listing messages) (to_product (block content.now.items) ∷ []) result }
{
    let block = block_bytes(alloc, content.as_slice())?;
    put_product(object, block.as_slice())
}
