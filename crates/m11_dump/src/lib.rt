//! Dumps files: writes the records of an object, the directories of a library or the blocks of a tape as text, up to the end of the
//! object, library or tape, or to the first fault. (RT-11 Volume and File Formats Manual, "Object file format" and "Absolute binary
//! file format"; the lines are this project's own.) The records of an object are checked against the rules of modules. At most the
//! following is held in memory: for a tape, two blocks, a copy of one and its lines; for an object, one block, one text with its
//! relocations, a copy of the text, the lines of one record, and the names that the rules need; for a library, one block with its
//! lines, and, during the search for the first block, the last bytes read, as many as a block may have. Another function reads a whole
//! tape into memory.
#![tactic(auto)]

// Whether a file is an object, a library or a tape, and how its bytes are shown.
mod kind;
mod view;

pub use kind::{Kind, kind_of};
pub use view::View;

// Bytes as octal words, as octal bytes or as instructions.
mod instructions;
mod octets;
mod words;

// An object, a block at a time: its records, their entries and relocations, and the text that isn't shown yet.
mod beside;
mod entries;
mod held;
mod objects;
mod records;
mod references;
mod relocations;
mod stand;
mod taking;

pub use objects::dump_object;

// A library of objects, a block at a time, beginning with the first block of its modules.
mod libraries;
mod library_parts;
mod library_start;

pub use libraries::dump_library;

// A tape, a block at a time, or as a whole.
mod tapes;
mod whole_tapes;

pub use tapes::dump_tape;
pub use whole_tapes::{TapeBlock, WholeTape, read_tape};

// Why a dump stops, and at which byte.
mod fault;
mod positions;

pub use fault::{DumpFault, LocatedFault};

// Laws about what is shown, and where.
mod laws;

pub use laws::{
    a_word_that_refers_is_shown_as_data, blocks_that_go_on_are_shown_as_one,
    contents_begin_at_their_reported_offsets, each_byte_is_shown_once_in_order,
    each_relocation_is_shown_once, each_word_is_shown_once_in_order,
    lines_without_names_end_with_their_statements, relocations_stand_beside_lines,
};
