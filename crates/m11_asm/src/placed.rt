//! The listing lines of a placed line. (MACRO-11 Language Reference Manual, "Listing control directives".)

ghost use Rattle.std.specs.Prelude.{◌≡◌, ◌++◌, ◌==◌, ◌||◌, IfOk, not};
ghost use Rattle.std.specs.Option.{option_to_list};
ghost use Rattle.std.specs.List.{flat_map};
ghost use Rattle.m11_asm_outputs.specs.Outputs.{Writes};
ghost use Rattle.m11_base_writes.specs.Outputs.{outputs};
ghost use Rattle.m11_asm_passes.specs.Placed.{IsPlaced};
ghost use Rattle.m11_asm_rules.specs.Contents.{Emission};
ghost use Rattle.m11_asm_rules.specs.Items.{content_items};
ghost use Rattle.m11_asm_rules.specs.Meanings.{Map};
ghost use Rattle.m11_asm_rules.specs.Tables.{Table};
ghost use Rattle.m11_scan.specs.Views.{bits_of};
ghost use Rattle.m11_asm.specs.Listed.{listing_writes};
ghost use Rattle.m11_unfold_rules.specs.Unfolding.{UnfoldedLine};
ghost use Rattle.m11_base_writes.specs.States.{OutputState, optional_output};

use crate::lines::put_listed;
use bitflags::Flags;
use m11_asm_faults::AsmFault;
use m11_asm_lines::add_content_items;
use m11_asm_listing::Item;
use m11_asm_passes::PlacedLine;
use m11_asm_rules::labels_keep_the_counter;
use m11_base::Sink;
use m11_obj::PieceContent;
use m11_scan::ErrorFlags;
use std::alloc::AllocError;

/// Writes the listing lines of a placed line, if there is a listing. A flagged line is always listed. Any other line is listed if the
/// listing level after it isn't below 0; a line of an expansion needs `.LIST ME` as well. `number` is the number of the source line,
/// `contents` is what the line emits, and `items` is a buffer for the items to show.
///
/// Errors: `Write` of the listing, and `NoMemory` before anything is written.
pub fn put_placed<T: Sink>(
    items: &mut Vec<Item>,
    line: &PlacedLine,
    flags: ErrorFlags,
    number: u16,
    contents: &[PieceContent],
    listing: &mut Option<T>,
) -> Result<(), AsmFault>
    ensures { (map : Map) (table : Table) (given : UnfoldedLine) (emission : Emission) (object messages : OutputState)
        → IsPlaced map table given line.now emission → emission.contents ≡ contents.now → Writes
        (outputs object (optional_output T.Sink listing.old) messages)
        (outputs object (optional_output T.Sink listing.new) messages)
        (listing_writes map table (bits_of flags) number given) result }
{
    labels_keep_the_counter();
    if listing.is_none() {
        return Ok(());
    }
    if !is_listed(line, flags) {
        return Ok(());
    }
    gather(items, contents, line.assigned)?;
    let text = line.live.line.text();
    put_listed(
        listing,
        flags,
        number,
        line.counter,
        line.location,
        items.as_slice(),
        text,
    )
}

// Whether a line with these flags is listed; a flagged one always is.
fn is_listed(line: &PlacedLine, flags: ErrorFlags) -> bool
    ensures { result ≡ not (bits_of flags == 0) || line.now.is_shown }
{
    !flags.is_empty() || line.is_shown
}

// Replaces the items with those of a line: the items that it emits, and then the one that it assigns, if any. Error: memory may be refused.
fn gather(
    items: &mut Vec<Item>,
    contents: &[PieceContent],
    assigned: Option<Item>,
) -> Result<(), AllocError>
    ensures { IfOk result (λ _. items.new.items ≡ flat_map content_items contents.now ++ option_to_list assigned) }
{
    items.clear();
    add_contents(items, contents)?;
    if let Some(item) = assigned {
        items.push(item)?;
    }
    Ok(())
}

// Adds the items that a line emits. Error: memory may be refused.
fn add_contents(items: &mut Vec<Item>, contents: &[PieceContent]) -> Result<(), AllocError>
    ensures { IfOk result (λ _. items.new.items ≡ items.old.items ++ flat_map content_items contents.now) }
{
    'contents: for content in contents {
        add_content_items(items, content)?;
    }
    Ok(())
}
