//! The faults of an assembly, of a pass as well as of a whole run. (This project's own.)
#![tactic(auto)]

mod fault;

pub use fault::AsmFault;
