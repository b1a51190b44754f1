//! The rows of a layout's tables.

use m11_base::Name;
use m11_obj::SectionFlags;

/// A section of all modules: the attributes of its first entry, and its size in bytes, counted up to octal 200000.
#[derive(Clone, Copy, PartialEq, Eq)]
pub(crate) struct Total {
    pub(crate) attributes: SectionFlags,
    pub(crate) size: u32,
}

/// The location of a global.
#[derive(Clone, Copy, PartialEq, Eq)]
pub(crate) enum GlobalLocation {
    /// At an absolute address.
    Absolute(u16),
    /// At this offset in bytes from the base of its module's contribution to this section.
    In(Name, u16),
}

/// The definition of a global: the index of its module, and its location.
#[derive(Clone, Copy, PartialEq, Eq)]
pub(crate) struct Definition {
    pub(crate) module_index: usize,
    pub(crate) location: GlobalLocation,
}

/// A transfer address, as an offset in bytes from the base of a module's contribution to a section.
#[derive(Clone, Copy, PartialEq, Eq)]
pub(crate) struct Transfer {
    pub(crate) module_index: usize,
    pub(crate) section: Name,
    pub(crate) value: u16,
}
