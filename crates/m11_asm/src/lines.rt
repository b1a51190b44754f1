//! The listing lines of a source line, if there is a listing. (MACRO-11 Language Reference Manual, "Listing control directives".)

ghost use Rattle.std.specs.Prelude.{◌≡◌, ◌≤◌, length, take, drop};
ghost use Rattle.m11_asm_listing.specs.Listing.{further_lines, listed_lines};
ghost use Rattle.m11_scan.specs.ErrorFlags.{flags_text};
ghost use Rattle.m11_scan.specs.Views.{bits_of};
ghost use Rattle.m11_base_writes.specs.States.{OutputState, optional_output};
ghost use Rattle.m11_asm_outputs.specs.Outputs.{Writes};
ghost use Rattle.m11_base_writes.specs.Outputs.{outputs};
ghost use Rattle.m11_asm.specs.Listed.{all_to_listing};

use m11_asm_faults::AsmFault;
use m11_asm_listing::{Item, further_line, listed_line, location_after};
use m11_base::Sink;
use m11_base_writes::put_report;
use m11_scan::ErrorFlags;

/// Writes the listing lines of a source line, if there is a listing: its flags, its number, the location counter before it, its items, and
/// its text, of at most 132 bytes. The first item is at `first_item_location`. Items past the third go on further lines, three to a line.
///
/// Fault: `Write` of the listing.
pub fn put_listed<T: Sink>(
    listing: &mut Option<T>,
    flags: ErrorFlags,
    number: u16,
    location: u16,
    first_item_location: u16,
    items: &[Item],
    text: &[u8],
) -> Result<(), AsmFault>
    requires { length text.now ≤ 132 }
    ensures { (object messages : OutputState) → Writes
        (outputs object (optional_output T.Sink listing.old) messages)
        (outputs object (optional_output T.Sink listing.new) messages)
        (all_to_listing (listed_lines (flags_text (bits_of flags)) number location first_item_location items.now text.now)) result }
{
    let line = listed_line(flags.text().as_slice(), number, location, items, text);
    put_report::<T, AsmFault>(listing, line.as_slice())?;
    let (shown, more) = three(items);
    put_further(listing, location_after(first_item_location, shown), more)
}

// The first three items, or all if there are fewer, and the others.
fn three(items: &[Item]) -> (&[Item], &[Item])
    ensures first { result.0.now ≡ take 3 items.now }
    ensures more { result.1.now ≡ drop 3 items.now }
{
    items.split_at(items.len().min(3))
}

// Writes the lines of further items, three to a line, the first item at `location`. Fault: `Write` of the listing.
fn put_further<T: Sink>(
    listing: &mut Option<T>,
    location: u16,
    items: &[Item],
) -> Result<(), AsmFault>
    ensures { (object messages : OutputState) → Writes
        (outputs object (optional_output T.Sink listing.old) messages)
        (outputs object (optional_output T.Sink listing.new) messages)
        (all_to_listing (further_lines location items.now)) result }
{
    let mut location = location;
    let mut left = items;
    'lines: while !left.is_empty() {
        put_report::<T, AsmFault>(listing, further_line(location, left).as_slice())?;
        let (shown, more) = three(left);
        location = location_after(location, shown);
        left = more;
    }
    Ok(())
}
