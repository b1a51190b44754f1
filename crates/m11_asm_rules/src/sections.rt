//! The sections of an assembly. (MACRO-11 Language Reference Manual, "Program section directives".)

use m11_base::Name;

/// A section.
#[derive(Clone, Copy)]
pub struct Section {
    /// Its name.
    pub name: Name,
    /// The bits of its attributes, as in the flags byte of its entry in an object.
    pub attributes: u8,
}
