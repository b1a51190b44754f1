//! The attributes in section entries. (MACRO-11 Language Reference Manual, ".PSECT directive", ".ASECT and .CSECT directives";
//! RT-11 Volume and File Formats Manual, "Object file format", GSD block.)

ghost use Rattle.std.specs.Prelude.{◌≡◌, Some, option_map};
ghost use Rattle.std.specs.Int.RustNames.{bit_and};
ghost use Rattle.m11_link_layout.specs.Sections.{attribute_bits, attributes_by, control_attributes};

use bitflags::Flags;
use m11_base::{Name, absolute_section, blank_name};
use m11_obj::{GsdEntry, GsdKind, SectionFlags};

/// The attributes of a control section: those of `.ASECT` for `. ABS.`, of `.CSECT` without a name for the blank name, of `.CSECT`
/// with a name for any other. The flags byte is ignored.
pub(crate) fn control_attributes(name: Name) -> SectionFlags
    ensures { result.0 ≡ control_attributes name }
{
    if name == absolute_section() {
        SectionFlags::OF_ABSOLUTE
    } else if name == blank_name() {
        SectionFlags::OF_PROGRAM
    } else {
        SectionFlags::OF_CONTROL
    }
}

/// The attributes in a flags byte, whose other bits are dropped.
#[tactic(auto, unfolding(bitflags::specs::Sets::known_from))]
pub(crate) fn attributes_in(flags: u8) -> SectionFlags
    ensures { result.0 ≡ bit_and flags attribute_bits }
{
    SectionFlags::from_bits_truncate(flags)
}

/// The attributes in a section's entry; `None` for an entry of another kind.
pub fn section_attributes(entry: &GsdEntry) -> Option<SectionFlags>
    ensures { option_map (λ flags. (entry.now.name, flags.0)) result ≡ attributes_by entry.now.kind entry.now }
{
    match entry.kind {
        GsdKind::ControlSection => Some(control_attributes(entry.name)),
        GsdKind::ProgramSection => Some(attributes_in(entry.flags)),
        GsdKind::ModuleName => None,
        GsdKind::InternalSymbol => None,
        GsdKind::TransferAddress => None,
        GsdKind::GlobalSymbol => None,
        GsdKind::Identification => None,
    }
}
