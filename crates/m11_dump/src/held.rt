//! The last text that was read of an object, with its relocations. Both are shown once the record after them is known.

ghost use Rattle.std.specs.Prelude.{◌≡◌, ◌≤◌, ◌++◌, ◌∷◌, [], length, take, IfOk, OnOk};
ghost use Rattle.m11_obj.specs.Records.{Text};
ghost use Rattle.m11_obj_blocks.specs.Frames.{content_limit};
ghost use Rattle.m11_base_writes.specs.States.{output_of};
ghost use Rattle.m11_dump.specs.ObjectTexts as texts;
ghost use Rattle.m11_dump.specs.Objects as spec;
ghost use Rattle.m11_dump.specs.Records.{octal_lines};

use crate::beside::{put_lines_beside, put_other_places, put_places};
use crate::fault::DumpFault;
use crate::instructions::{Lines, put_head};
use crate::octets::{location_after, put_octets};
use crate::view::View;
use m11_base::{Sink, octal6};
use m11_base_writes::put_or_fail;
use m11_obj::{Relocation, Target};
use std::alloc::{AllocError, Global};

/// A text that isn't shown yet.
#[derive(Drop)]
pub(crate) struct HeldText {
    /// Its address within its section.
    pub(crate) address: u16,
    /// Its bytes.
    pub(crate) bytes: Vec<u8>,
    /// How many of its first bytes the lines of the previous text show.
    pub(crate) shown: usize,
    /// Its relocations, if they have been read.
    pub(crate) places: Option<Vec<Relocation>>,
}

// The relocations of a text; none if they haven't been read.
fn places_of(text: &HeldText) -> &[Relocation]
    ensures { result.now ≡ spec.held_places (spec.places_in text.now) }
{
    match &text.places {
        Some(places) => places.as_slice(),
        None => &[],
    }
}

// The lines of a text in octal, followed by those of its relocations. They show no bytes of the next text.
fn lines_in_octal(alloc: Global, held: &HeldText) -> Result<Lines, AllocError>
    requires { length held.now.bytes.items ≤ content_limit }
    ensures { IfOk result (λ lines. (lines.text.items ≡ spec.held_lines View.Octal held.now []) × (lines.over ≡ 0)) }
{
    let mut text = Vec::new(alloc);
    put_octal(&mut text, held.address, &held.bytes)?;
    put_places(&mut text, held.address, places_of(held))?;
    Ok(Lines { text, over: 0 })
}

// Adds the lines of a text in octal: its address and its bytes.
fn put_octal(text: &mut Vec<u8>, address: u16, bytes: &[u8]) -> Result<(), AllocError>
    requires { length bytes.now ≤ 512 }
    ensures { OnOk result (text.new.items ≡ text.old.items ++ octal_lines address bytes.now) }
{
    text.extend_from_slice(b"TEXT ")?;
    text.extend_from_slice(&octal6(address))?;
    put_octets(text, address, bytes)?;
    text.push(b'\n')?;
    Ok(())
}

// The lines of a text as instructions, with each relocation after the line of the byte that it applies to, and at the end those that
// apply to none. `beyond` holds the first bytes of the text that continues this one.
fn lines_as_source(alloc: Global, held: &HeldText, beyond: &[u8]) -> Result<Lines, AllocError>
    requires { length held.now.bytes.items ≤ content_limit }
    ensures { IfOk result (λ lines. (lines.text.items ≡ spec.held_lines View.Instructions held.now beyond.now)
        × (lines.over ≡ spec.held_over View.Instructions held.now beyond.now)) }
{
    let places = places_of(held);
    let count = held.bytes.len();
    let mut bytes = Vec::new(alloc);
    bytes.extend_from_slice(&held.bytes)?;
    bytes.extend_from_slice(beyond)?;
    let mut text = Vec::new(alloc);
    put_head(&mut text, b"TEXT ", held.address)?;
    let over = put_lines_beside(
        alloc,
        &mut text,
        held.address,
        &bytes,
        count,
        held.shown,
        places,
    )?;
    put_other_places(&mut text, held.address, count, places)?;
    Ok(Lines { text, over })
}

// The lines of a text in this view. `beyond` holds the first bytes of the text that continues it.
fn lines_of(alloc: Global, view: View, held: &HeldText, beyond: &[u8]) -> Result<Lines, AllocError>
    requires { length held.now.bytes.items ≤ content_limit }
    ensures { IfOk result (λ lines. (lines.text.items ≡ spec.held_lines view held.now beyond.now)
        × (lines.over ≡ spec.held_over view held.now beyond.now)) }
{
    match view {
        View::Octal => lines_in_octal(alloc, held),
        View::Instructions => lines_as_source(alloc, held, beyond),
    }
}

// Shows a text that `beyond` continues. Returns how many bytes of `beyond` its lines show.
fn show_text<S: Sink>(
    alloc: Global,
    view: View,
    held: &HeldText,
    beyond: &[u8],
    sink: &mut S,
) -> Result<usize, DumpFault>
    requires { length held.now.bytes.items ≤ content_limit }
    ensures text { spec.Puts (spec.held_lines view held.now beyond.now) (output_of S.Sink sink.old) (output_of S.Sink sink.new) result }
    ensures over { IfOk result (λ over. over ≡ spec.held_over view held.now beyond.now) }
{
    let lines = lines_of(alloc, view, held, beyond)?;
    put_or_fail(sink, &lines.text, DumpFault::Write)?;
    Ok(lines.over)
}

/// Shows the pending text, which `beyond` continues. Returns how many bytes of `beyond` its lines show; 0 if no text is pending.
/// Errors: `Write`, if the sink failed, after part of the lines was written; `NoMemory`, if memory was refused.
pub(crate) fn show_held<S: Sink>(
    alloc: Global,
    view: View,
    held: &Option<HeldText>,
    beyond: &[u8],
    sink: &mut S,
) -> Result<usize, DumpFault>
    requires { spec.HeldFits held.now }
    ensures { spec.ShowsHeld view held.now beyond.now (output_of S.Sink sink.old) (output_of S.Sink sink.new) result }
{
    match held {
        Some(text) => show_text(alloc, view, text, beyond, sink),
        None => Ok(0),
    }
}

// Whether a relocation with this target selects the section of the texts that follow.
fn selects(target: &Target) -> bool
    ensures { result ≡ texts.selects target.now }
{
    matches!(target, Target::LocationCounterDefinition(_, _))
}

// Whether the section stays the same after these relocations.
fn stays(places: &[Relocation]) -> bool
    ensures { result ≡ texts.stays places.now }
{
    'places: for place in places {
        if selects(&place.target) {
            return false;
        }
    }
    true
}

// The first five bytes, or all if there are fewer.
#[tactic(auto, using(std::proofs::lemmas::List::take_all))]
pub(crate) fn first_five(bytes: &[u8]) -> &[u8]
    ensures { result.now ≡ take 5 bytes.now }
{
    if bytes.len() < 5 { bytes } else { &bytes[..5] }
}

// The bytes that continue a text, if the next text has this address and these bytes: the first five of these if the next text begins
// where this one ends, otherwise none.
fn beyond_text<'a>(text: &HeldText, address: u16, bytes: &'a [u8]) -> &'a [u8]
    requires { length text.now.bytes.items ≤ content_limit }
    ensures { result.now ≡ texts.next_bytes text.now.address text.now.bytes.items (Text address bytes.now ∷ []) }
{
    if address == location_after(text.address, text.bytes.len()) {
        first_five(bytes)
    } else {
        &[]
    }
}

/// The bytes that continue the pending text, if the next text has these bytes and this address: the first five of these; but no bytes
/// if no text is pending, if a relocation of the pending text selects a section, or if the next text doesn't begin where the pending
/// one ends.
pub(crate) fn beyond_of<'a>(held: &Option<HeldText>, address: u16, bytes: &'a [u8]) -> &'a [u8]
    requires { spec.HeldFits held.now }
    ensures { result.now ≡ spec.held_beyond held.now (Text address bytes.now ∷ []) }
{
    match held {
        Some(text) => {
            if stays(places_of(text)) {
                beyond_text(text, address, bytes)
            } else {
                &[]
            }
        }
        None => &[],
    }
}
