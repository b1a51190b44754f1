//! The whole command `m11-dump`: shows the contents of objects, libraries and tapes, or the load map of objects. This crate reads the command
//! line, opens the files and shows them one after another. `m11_dump` shows the contents of a file, and `m11_link_load_map` the load map.
#![tactic(auto)]

// The command line, and the files that it names.
mod application;
mod paths;

// The program's own lines.
mod lines;
mod map_lines;

// Standard output, which may be a pipe.
mod pipe;

pub use pipe::{PipeSink, Readership};

// Files shown one after another, with names of addresses, or their load map.
mod mapping;
mod names;
mod showing;
mod stop;

pub use paths::{Form, Look, Request, Show};
pub use stop::{Outcome, Stop};

// The whole work of the program.
mod driver;

pub use driver::{command, command_without_words};
