//! The attributes of program sections and their names. (MACRO-11 Language Reference Manual, ".PSECT directive"; RT-11 Volume and
//! File Formats Manual, "Object file format", GSD block.)

ghost use Rattle.std.specs.Prelude.{◌≡◌};
ghost use Rattle.m11_obj.specs.Attributes as spec;

use crate::flags::SectionFlags;
use bitflags::Flags;

/// An attribute, which sets or clears one bit of the flags. The opposite attribute, if there is one, does the reverse.
#[derive(Clone, Copy)]
pub struct Attribute {
    /// The name, padded with spaces to six characters.
    pub name: [u8; 6],
    /// The bit that it sets or clears.
    pub bit: SectionFlags,
    /// Whether the attribute sets the bit; otherwise it clears the bit.
    pub is_set: bool,
}

#[rattlefmt::skip]
const ATTRIBUTES: [Attribute; 11] = [
    Attribute { name: *b"RW    ", bit: SectionFlags::READ_ONLY, is_set: false },
    Attribute { name: *b"RO    ", bit: SectionFlags::READ_ONLY, is_set: true },
    Attribute { name: *b"I     ", bit: SectionFlags::DATA, is_set: false },
    Attribute { name: *b"D     ", bit: SectionFlags::DATA, is_set: true },
    Attribute { name: *b"LCL   ", bit: SectionFlags::GLOBAL, is_set: false },
    Attribute { name: *b"GBL   ", bit: SectionFlags::GLOBAL, is_set: true },
    Attribute { name: *b"ABS   ", bit: SectionFlags::RELOCATABLE, is_set: false },
    Attribute { name: *b"REL   ", bit: SectionFlags::RELOCATABLE, is_set: true },
    Attribute { name: *b"CON   ", bit: SectionFlags::OVERLAID, is_set: false },
    Attribute { name: *b"OVR   ", bit: SectionFlags::OVERLAID, is_set: true },
    Attribute { name: *b"SAV   ", bit: SectionFlags::SAVED, is_set: true },
];

/// All attributes, in the order in which a section's attributes are printed.
pub fn all_attributes() -> &'static [Attribute]
    ensures { result.now ≡ spec.attributes }
{
    &ATTRIBUTES
}

/// The attribute with this name of six characters, if there is one.
pub fn attribute_named(name: &[u8; 6]) -> Option<Attribute>
    ensures { result ≡ spec.attribute_named name.now }
{
    let mut rest = all_attributes();
    'rows: while let [row, others @ ..] = rest {
        if row.name == *name {
            return Some(*row);
        }
        rest = others;
    }
    None
}

impl Attribute {
    /// Whether a section with these flags has the attribute.
    pub fn is_in(&self, flags: SectionFlags) -> bool
        ensures { result ≡ spec.has_attribute (spec.bits_of flags) self.now }
    {
        if self.is_set {
            flags.contains(self.bit)
        } else {
            !flags.contains(self.bit)
        }
    }

    /// These flags with this attribute in place of the opposite one.
    pub fn put_in(&self, flags: SectionFlags) -> SectionFlags
        ensures { spec.bits_of result ≡ spec.with_attribute (spec.bits_of flags) self.now }
    {
        if self.is_set {
            flags.union(self.bit)
        } else {
            flags.difference(self.bit)
        }
    }
}
