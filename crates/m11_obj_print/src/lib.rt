//! What the printed lines of a listing, of a map and of messages have in common: no line ends with blanks, and the attributes of a
//! section are shown by their names. The crate allocates nothing.
#![tactic(auto)]

mod attributes;
mod lines;

pub use attributes::add_attributes;
pub use lines::{Line, add_bytes, ended};
