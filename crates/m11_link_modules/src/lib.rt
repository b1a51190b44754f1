//! Modules: the records that an object is made of, in their order, and the first fault in them. (RT-11 Volume and File Formats
//! Manual, "Object file format".)
#![tactic(auto)]

// The faults of the records of an object.
mod fault;

pub use fault::ModuleFault;

// The checks of each part, and the state that they need.
mod checks;
mod entered;
mod stage;
mod text_relocation;

pub use text_relocation::TextRelocation;

// The rules for all parts of a record, with the state that they carry from record to record.
mod refusal;
mod rules;

pub use refusal::refuse;
pub use rules::Rules;

// Laws: records in order are modules, and the records of modules are in order.
mod laws;

pub use laws::{files_are_in_order, ordered_records_are_files};
