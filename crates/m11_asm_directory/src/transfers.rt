//! The transfer address of an object. (RT-11 Volume and File Formats Manual, "Object file format", transfer address entry; MACRO-11
//! Language Reference Manual, ".END directive".)

ghost use Rattle.std.specs.Prelude.{◌≡◌, option_map};
ghost use Rattle.m11_asm_directory.specs.Transfers.{home, transfer_row};
ghost use Rattle.m11_scan_expressions.specs.Quantities.{quantity};

use m11_base::{Name, absolute_section};
use m11_obj::DirectoryRow;
use m11_scan_expressions::{Kind, Value};

// The section of a value: the absolute one for any value that isn't a location in a section.
fn home(kind: Kind) -> Name
    ensures { result ≡ home kind }
{
    match kind {
        Kind::Section(name) => name,
        Kind::Absolute | Kind::Register | Kind::Reference(_) => absolute_section(),
    }
}

/// The row of the transfer address. If the source has none, the row has the absolute address 1, where no program begins.
pub(crate) fn transfer_row(transfer: Option<Value>) -> DirectoryRow
    ensures { result ≡ transfer_row (option_map quantity transfer) }
{
    match transfer {
        Some(value) => DirectoryRow::Transfer {
            section: home(value.kind),
            value: value.number,
        },
        None => DirectoryRow::Transfer {
            section: absolute_section(),
            value: 1,
        },
    }
}
