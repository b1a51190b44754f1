//! The sections and globals of a plan, as they are shown in a map.

use m11_base::Name;
use m11_obj::SectionFlags;

/// A section of a plan.
#[derive(Clone, Copy, PartialEq, Eq)]
pub struct PlannedSection {
    /// Its name.
    pub name: Name,
    /// Its first address; 0 if it is absolute.
    pub base: u16,
    /// Its size in bytes, with the contributions of all modules: at most 65,535.
    pub size: u16,
    /// The attributes of its first entry.
    pub attributes: SectionFlags,
}

/// A defined global.
#[derive(Clone, Copy, PartialEq, Eq)]
pub struct PlannedGlobal {
    /// Its name.
    pub name: Name,
    /// The value of its first definition.
    pub value: u16,
    /// The name of the first module that defines it.
    pub module_name: Name,
}
