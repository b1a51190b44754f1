//! The layout of a link: the bases of the sections of all modules, and the values of their globals. (MACRO-11 Language Reference
//! Manual, ".PSECT directive"; RT-11 Volume and File Formats Manual, "Object file format".)
#![tactic(auto)]

// The faults of a link.
mod fault;

pub use fault::LinkFault;

// The contents of objects' records: sections with their attributes, globals and modules.
mod attributes;
mod definition;
mod tables;

pub use attributes::section_attributes;

// The first pass, one block at a time.
mod layout;

pub use layout::Layout;

// The result of the first pass: the bases of sections, and the values of globals.
mod bases;
mod plan;
mod planned;

pub use plan::Plan;
pub use planned::{PlannedGlobal, PlannedSection};
