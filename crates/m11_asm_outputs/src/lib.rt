//! Writes two outputs of an assembly: the records of the object, and the lines of the messages. No source line is read here.
#![tactic(auto)]

// The records of the object.
mod object;

pub use object::{open_text, put_head, put_last, put_pieces};

// The lines of the messages.
mod messages;

pub use messages::{put_count, put_flagged};

// Laws of an object that is written piece by piece.
mod laws;

pub use laws::{pieces_close_texts_in_turn, the_parts_are_the_object};
