//! Labels that aren't at their locations in the map. (MACRO-11 Language Reference Manual, "Diagnostic error message summary", P.)

ghost use Rattle.std.specs.Prelude.{◌≡◌, false, option_copied};
ghost use Rattle.m11_asm_rules.specs.Definitions.{is_defined};
ghost use Rattle.m11_asm_lines.specs.Moved as spec;
ghost use Rattle.m11_scan.specs.Views.{bits_of};

use bitflags::Flags;
use m11_asm_rules::{Definition, Key, Map, Standing, Table};
use m11_base::Name;
use m11_scan::ErrorFlags;

// P for a new label, unless its last definition in the map makes it a label at the location counter.
pub(crate) fn moved_flag(map: &Map<'_>, table: &Table, key: &Key) -> ErrorFlags
    requires { is_defined key.now table.now.definitions ≡ false }
    ensures { bits_of result ≡ spec.moved_key map.now table.now key.now }
{
    ErrorFlags::P.when(!is_location_of(table, map.definition(key)))
}

// Whether there is a definition, and it is that of a label at the location counter.
fn is_location_of(table: &Table, found: Option<&Definition>) -> bool
    ensures { result ≡ spec.is_location_of table.now (option_copied found.entry) }
{
    match found {
        Some(definition) => {
            is_in(table.section_name(), definition.label)
                && is_at(table.location(), definition.standing)
        }
        None => false,
    }
}

// Whether a label is in this section. An assigned name is in none.
fn is_in(section: Name, label: Option<Name>) -> bool
    ensures { result ≡ spec.is_in section label }
{
    match label {
        Some(other) => other == section,
        None => false,
    }
}

fn is_at(location: u16, standing: Standing) -> bool
    ensures { result ≡ spec.is_at location standing }
{
    match standing {
        Standing::Known(number, _) => number == location,
        Standing::Unknown => false,
    }
}
