//! The load map of objects: the addresses of each module's contributions to sections, and of each global, in a link of these
//! objects. With it an address can be traced to a module and a location in its listing. (RT-11 Volume and File Formats Manual,
//! "Object file format"; the lines are this project's own.) The objects are read once, and nothing is linked. This crate also opens the
//! files that name addresses.
#![tactic(auto)]

// Reads the objects, and collects the facts that the map needs.
mod noted;
mod reading;

// The lines of the map, and its text.
mod lines;
mod text;

// The whole run and its errors.
mod fault;
mod run;

pub use fault::{LoadMapFault, ObjectsFault};
pub use run::load_map_run;

// Names of addresses: the files that hold them, and the globals of a link of the objects among these files.
mod link_globals;
mod name_files;
mod objects;

pub use name_files::{FileNames, NoNames, read_names};

// Laws: each section entry is shown once, and objects have at most one map.
mod laws;

pub use laws::{each_section_entry_is_shown_once, objects_have_one_map};
