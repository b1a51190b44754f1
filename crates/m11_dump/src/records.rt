//! The lines of a record that isn't a text.

ghost use Rattle.std.specs.Prelude.{◌≡◌, ◌++◌, OnOk, IfOk};
ghost use Rattle.std.specs.List.{flat_map};
ghost use Rattle.m11_obj.specs.Reading.{content_of, record_entries, record_relocations};
ghost use Rattle.m11_dump.specs.Entries as entries;
ghost use Rattle.m11_dump.specs.Relocations as relocations;
ghost use Rattle.m11_dump.specs.Records.{lines_then};

use crate::beside::put_places;
use crate::entries::entry_line;
use crate::relocations::relocations_of;
use m11_obj::{Record, RecordKind};
use std::alloc::{AllocError, Global};

/// Adds the lines of a directory's entries. Fails if memory is refused.
pub(crate) fn put_entries(text: &mut Vec<u8>, record: &Record<'_>) -> Result<(), AllocError>
    ensures { OnOk result (text.new.items
        ≡ text.old.items ++ flat_map entries.entry_line (record_entries «record».now)) }
{
    'entries: for index in 0..record.entry_count() {
        text.extend_from_slice(&entry_line(&record.entry(index)))?;
    }
    Ok(())
}

// Adds the lines of a record's relocations, which apply to the text at this address.
fn put_relocations(
    alloc: Global,
    text: &mut Vec<u8>,
    address: u16,
    record: &Record<'_>,
) -> Result<(), AllocError>
    ensures { OnOk result (text.new.items
        ≡ text.old.items ++ flat_map (relocations.relocation_line address) (record_relocations «record».now)) }
{
    let places = relocations_of(alloc, record)?;
    put_places(text, address, &places)
}

// Adds the lines of a record; a text has none here. Relocations apply to the text before them, which lies at this address.
fn put_record(
    alloc: Global,
    text: &mut Vec<u8>,
    address: u16,
    record: &Record<'_>,
) -> Result<(), AllocError>
    ensures { OnOk result (text.new.items ≡ text.old.items ++ lines_then address (content_of «record».now)) }
{
    match record.kind() {
        RecordKind::Gsd => put_entries(text, record),
        RecordKind::EndOfGsd => text.extend_from_slice(b"END OF DIRECTORY\n"),
        RecordKind::Text => Ok(()),
        RecordKind::Relocations => put_relocations(alloc, text, address, record),
        RecordKind::InternalSymbols => text.extend_from_slice(b"INTERNAL SYMBOLS\n"),
        RecordKind::EndOfModule => text.extend_from_slice(b"END OF MODULE\n"),
    }
}

/// The lines of a record; none for a text. Relocations apply to the text before them, which lies at this address. Fails if memory is
/// refused.
pub(crate) fn record_text(
    alloc: Global,
    address: u16,
    record: &Record<'_>,
) -> Result<Vec<u8>, AllocError>
    ensures { IfOk result (λ text. text.items ≡ lines_then address (content_of «record».now)) }
{
    let mut text = Vec::new(alloc);
    put_record(alloc, &mut text, address, record)?;
    Ok(text)
}
