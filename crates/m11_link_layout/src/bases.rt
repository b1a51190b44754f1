//! The bases of sections: relocatable ones follow one another from the bottom up, and absolute ones begin at 0. (MACRO-11 Language
//! Reference Manual, ".PSECT directive".)

ghost use Rattle.std.specs.Prelude.{◌≡◌, ◌+◌, Some, None, nat_lt, if◌then◌else◌};
ghost use Rattle.m11_link_layout.specs.Plan.{Places, PlacesAll, address_limit, placed};

use crate::definition::Total;
use crate::fault::LinkFault;
use crate::tables::Tables;
use bitflags::Flags;
use m11_base::{Name, SeededMap};
use m11_obj::SectionFlags;

// The first address of the device registers: relocatable sections end there or below.
const ADDRESS_LIMIT: u32 = 0o160000;

// The address after a section of `size` bytes at `next`; None if that is past octal 160000.
fn end_of(next: u16, size: u32) -> Option<u16>
    ensures { result ≡ (if nat_lt address_limit (next + size) then None else Some (next + size)) }
{
    match u32::from(next).checked_add(size) {
        Some(end) => {
            if end > ADDRESS_LIMIT {
                None
            } else {
                Some(end as u16)
            }
        }
        None => None,
    }
}

// Places a relocatable section at `next` and returns the address after it, or an absolute one at 0 and returns `next`. Errors:
// `TooLarge`, if a relocatable section ends past octal 160000; otherwise `NoMemory`, if memory is refused.
fn place(
    bases: &mut SeededMap<Name, u16>,
    next: u16,
    name: Name,
    total: Total,
) -> Result<u16, LinkFault>
    ensures { Places (placed bases.old.entries next (name, total)) bases.new.entries result }
{
    if total.attributes.contains(SectionFlags::RELOCATABLE) {
        match end_of(next, total.size) {
            Some(end) => {
                bases.insert(name, next)?;
                Ok(end)
            }
            None => Err(LinkFault::TooLarge),
        }
    } else {
        bases.insert(name, 0)?;
        Ok(next)
    }
}

/// Places all sections: the relocatable ones one after another from the bottom up, and the absolute ones at 0. Returns the address
/// after the last relocatable one, or the bottom if there are none.
///
/// Errors: `TooLarge`, if a relocatable section ends past octal 160000; `NoMemory`, if memory is refused for a section and neither
/// that section nor one before it ends past octal 160000.
pub(crate) fn place_all(
    bases: &mut SeededMap<Name, u16>,
    bottom: u16,
    tables: &Tables,
) -> Result<u16, LinkFault>
    ensures { PlacesAll bases.old.entries bottom tables.now.sections bases.new.entries result }
{
    let mut next = bottom;
    'sections: for index in 0..tables.section_count() {
        let (name, total) = tables.section_at(index);
        next = place(bases, next, name, total)?;
    }
    Ok(next)
}
