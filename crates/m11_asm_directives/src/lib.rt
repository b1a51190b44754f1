//! Directives and direct assignments: what storage directives emit, with sizes and flags; what the others change for the lines after them,
//! and the facts that they state about the whole object. (MACRO-11 Language Reference Manual, "General assembler directives", "Program
//! section directives", "Listing control directives", "Direct assignment statements" and "Relocation and linking".)
#![tactic(auto)]

// What directives store at the location counter, or the room that they reserve there.
mod storage;
mod stored;

pub use storage::{bytes, room, without_arguments, words};
pub use stored::{Arguments, Storage, Storing};

// The parts of a text, and their flags.
mod flags;
mod parts;

pub use parts::{PART_LIMIT, Parts};

// Texts as bytes, and in words of RADIX-50.
mod packing;
mod radix50;
mod texts;

pub use radix50::rad50;
pub use texts::{ascii, asciz};

// Moves of the location counter, and what a directive sets.
mod changes;
mod settings;

pub use changes::Move;
pub use settings::{Effect, Setting};

// The values assigned to names and to the location counter.
mod assigning;
mod counts;

pub use assigning::{
    after_expression, assignment_flags, counter_flags, counter_move, definition_flags, known_value,
    read_known_value, target,
};
pub use counts::{narg, nchr};

// Sections, with their attributes.
mod attributes;
mod psects;

pub use attributes::{differing_flags, with_attributes};
pub use psects::{asect, csect, psect};

// What is listed, and the radix of numbers.
mod list_control;
mod radix_control;

pub use list_control::{dsabl, enabl, listing};
pub use radix_control::radix;

// Facts of the whole object: the names that it exports, its title, its identification and its transfer address.
mod endings;
mod exports;
mod idents;
mod titles;

pub use endings::{ending, expression_flags, transfer, transfer_flags};
pub use exports::{exported, listed_name};
pub use idents::ident;
pub use titles::title;
