//! The records of an object, one after another. A text is shown once the record that follows the text and its relocations is known;
//! any other record is shown at once.

ghost use Rattle.std.specs.Prelude.{◌≡◌, IsSome, Ok, Some};
ghost use Rattle.m11_obj.specs.Reading.{record_kind, record_text};
ghost use Rattle.m11_base_writes.specs.States.{output_of};
ghost use Rattle.m11_dump.specs.Objects as spec;

use crate::fault::DumpFault;
use crate::held::{HeldText, beyond_of, show_held};
use crate::records::record_text;
use crate::relocations::relocations_of;
use crate::view::View;
use m11_base::Sink;
use m11_base_writes::put_or_fail;
use m11_obj::{Record, RecordKind};
use std::alloc::Global;

// Accepts a text: shows the pending text, if there is one, and returns this one as pending.
fn dump_text<S: Sink>(
    alloc: Global,
    view: View,
    address: u16,
    held: Option<HeldText>,
    record: &Record<'_>,
    sink: &mut S,
) -> Result<Option<HeldText>, DumpFault>
    requires fits { spec.HeldFits held }
    requires text { IsSome (record_text «record».now) }
    ensures { spec.Takes view address held «record».now (output_of S.Sink sink.old) (output_of S.Sink sink.new) result }
{
    let own = record.text_address();
    let data = record.text_bytes();
    let beyond = beyond_of(&held, own, data);
    let shown = show_held(alloc, view, &held, beyond, sink)?;
    let bytes = Vec::from_slice(alloc, data)?;
    Ok(Some(HeldText {
        address: own,
        bytes,
        shown,
        places: None,
    }))
}

// Accepts a record that is neither a text nor the relocations of the pending text: shows the pending text, if there is one, then this
// record. No text is pending afterwards.
fn dump_other<S: Sink>(
    alloc: Global,
    view: View,
    address: u16,
    held: &Option<HeldText>,
    record: &Record<'_>,
    sink: &mut S,
) -> Result<Option<HeldText>, DumpFault>
    requires fits { spec.HeldFits held.now }
    requires at { spec.HeldAt address held.now }
    requires other { spec.IsOther held.now «record».now }
    ensures { spec.Takes view address held.now «record».now (output_of S.Sink sink.old) (output_of S.Sink sink.new) result }
{
    show_held(alloc, view, held, &[], sink)?;
    let text = record_text(alloc, address, record)?;
    put_or_fail(sink, &text, DumpFault::Write)?;
    Ok(None)
}

// Accepts a relocation record after a pending text. If the text has no relocations yet, it gets these and stays pending. Otherwise the
// text is shown, then these relocations, and no text is pending.
fn take_places<S: Sink>(
    alloc: Global,
    view: View,
    address: u16,
    text: HeldText,
    record: &Record<'_>,
    sink: &mut S,
) -> Result<Option<HeldText>, DumpFault>
    requires fits { spec.HeldFits (Some text) }
    requires at { spec.HeldAt address (Some text) }
    requires kind { record_kind «record».now ≡ Ok RecordKind.Relocations }
    ensures { spec.Takes view address (Some text) «record».now (output_of S.Sink sink.old) (output_of S.Sink sink.new) result }
{
    if text.places.is_none() {
        let places = relocations_of(alloc, record)?;
        Ok(Some(HeldText {
            address: text.address,
            bytes: text.bytes,
            shown: text.shown,
            places: Some(places),
        }))
    } else {
        dump_other(alloc, view, address, &Some(text), record, sink)
    }
}

// Accepts a relocation record, with or without a pending text.
fn dump_relocations<S: Sink>(
    alloc: Global,
    view: View,
    address: u16,
    held: Option<HeldText>,
    record: &Record<'_>,
    sink: &mut S,
) -> Result<Option<HeldText>, DumpFault>
    requires fits { spec.HeldFits held }
    requires at { spec.HeldAt address held }
    requires kind { record_kind «record».now ≡ Ok RecordKind.Relocations }
    ensures { spec.Takes view address held «record».now (output_of S.Sink sink.old) (output_of S.Sink sink.new) result }
{
    match held {
        Some(text) => take_places(alloc, view, address, text, record, sink),
        None => dump_other(alloc, view, address, &None, record, sink),
    }
}

/// Accepts a record. The last text before it lies at this address, and is `held` if it isn't shown yet. Returns the text that is
/// pending afterwards, if there is one. Errors: `Write`, if the sink failed; `NoMemory`, if memory was refused.
pub(crate) fn dump_record<S: Sink>(
    alloc: Global,
    view: View,
    address: u16,
    held: Option<HeldText>,
    record: &Record<'_>,
    sink: &mut S,
) -> Result<Option<HeldText>, DumpFault>
    requires fits { spec.HeldFits held }
    requires at { spec.HeldAt address held }
    ensures { spec.Takes view address held «record».now (output_of S.Sink sink.old) (output_of S.Sink sink.new) result }
{
    match record.kind() {
        RecordKind::Text => dump_text(alloc, view, address, held, record, sink),
        RecordKind::Relocations => dump_relocations(alloc, view, address, held, record, sink),
        _ => dump_other(alloc, view, address, &held, record, sink),
    }
}
