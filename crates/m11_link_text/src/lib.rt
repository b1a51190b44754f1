//! The texts that a link writes: the lines of its messages and of its map, and the texts of objects with the values of their
//! relocations. The crate itself writes nothing to an output, and doesn't say in which order outputs are written. (RT-11 Volume and
//! File Formats Manual, "Object file format", RLD block; the lines are this project's own.)
#![tactic(auto)]

mod lines;
mod map_lines;
mod relocation;

pub use lines::{different_line, multiple_line, undefined_line};
pub use m11_obj_print::Line;
pub use map_lines::{global_line, limit_line, name_line, section_line, transfer_line};
pub use relocation::relocate;
