//! The chain: sources are assembled, their objects linked, and the tape loaded, all in memory. The bytes of memory afterwards follow from
//! the sources alone: they are those that the lines of the sources state, provided that no section that one source calls ABS is REL in the
//! program. Calls of `command` over known files make the same of the same texts, as its contract alone says.
#![tactic(auto)]

mod chain;
mod fault;
mod laws;

pub use chain::{Chained, run_chain};
pub use fault::ChainFault;
pub use laws::{
    known_sources_decide_the_assembly, live_lines_begin_with_the_absolute_section,
    live_lines_give_consistent_sources,
};

mod stated;

pub use stated::{chains_hold_what_their_lines_state, live_lines_give_their_sources};

// Calls of `command`: over which files, one, and several.
mod command_chain;
mod commands;
mod stores;

pub use command_chain::commands_yield_what_a_chain_of_their_texts_yields;
pub use commands::{
    assemblies_leave_the_objects_of_their_sources, links_leave_the_tapes_of_their_objects,
    planned_commands_with_status_0_succeed, runs_begin_with_the_image_of_their_sources,
};
pub use stores::created_files_are_stored_before_the_others;
