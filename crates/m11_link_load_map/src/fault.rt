//! Why there is no load map.

use m11_link_layout::LinkFault;

/// Why objects have no load map, and the object at fault.
#[derive(Clone, Copy, PartialEq, Eq)]
pub struct ObjectsFault {
    /// The index of the object at fault, counted from 0. None if all objects were read: the fault is then `TooLarge`, for all of
    /// them together, or `NoMemory`.
    pub object_index: Option<usize>,
    /// The fault.
    pub fault: LinkFault,
}

/// Why a load map couldn't be made or written completely.
#[derive(Clone, Copy, PartialEq, Eq)]
pub enum LoadMapFault {
    /// A link of the objects is refused with this fault, or memory was refused.
    Objects(ObjectsFault),
    /// The map couldn't be written completely.
    Write,
}
