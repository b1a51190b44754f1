//! The linker: it makes an absolute loader tape, a map and messages from objects. (RT-11 Volume and File Formats Manual, "Object
//! file format" and "Absolute binary file format".)
#![tactic(auto)]

// The front, written before the tape: the messages about undefined globals, and the map.
mod front;

// The output for records, after the front: messages, and texts as blocks of the tape.
mod held;
mod reporting;

// The second pass, one block at a time.
mod emit;

pub use emit::{Emit, LinkDone};

// The whole link: both passes over the objects.
mod run;

pub use m11_base::Seed;
pub use m11_link_layout::{Layout, LinkFault, Plan};
pub use run::{link_run, link_run_with_seed, objects_yield_items};

// The law that a link with the plan of the first pass writes what the definitions say.
mod laws;

pub use laws::plans_write_by_definition;
