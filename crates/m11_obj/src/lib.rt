//! Objects: the records in formatted binary blocks, their entries, and the attributes of sections. For the objects that an
//! assembler writes, this crate divides the pieces of a program into texts with their relocations, and the rows of a directory
//! into records. It knows neither source lines nor files, and allocates only the bytes of records. It re-exports the blocks and
//! tapes of m11_obj_blocks. (RT-11 Volume and File Formats Manual, "Object file format".)
#![tactic(auto)]

// The blocks that contain the records.
pub use m11_obj_blocks::{
    Block, BlockFault, BlockReader, TapeFault, TapePart, TapeReader, block_bytes, blocks_are_read,
    tape_block, tape_transfer, tapes_are_read,
};

// The faults of records, and the reading of fields.
mod fault;
mod reading;

pub use fault::RecordFault;

// The entries of a directory.
mod attributes;
mod flags;
mod gsd;

pub use attributes::{Attribute, all_attributes, attribute_named};
pub use flags::{SectionFlags, SymbolFlags};
pub use gsd::{Entries, GsdEntry, GsdKind};

// The relocations of a text.
mod commands;
mod relocation_walk;
mod relocations;

pub use relocation_walk::Relocations;
pub use relocations::{Relocation, Target};

// Records: written, and read from the content of a block.
mod contents;
mod records;

pub use contents::{Contents, UnreadEntries, UnreadRelocations, read_contents};
pub use records::{Record, RecordKind, read_record, record_bytes};

// The pieces of a program, and how a linker relocates each.
mod pieces;
mod relocation_list;

pub use pieces::{Piece, PieceContent, RelocationKind, StoredConstant};

// The texts that pieces are divided into.
mod open_text;
mod texts;

pub use open_text::OpenText;
pub use texts::Text;

// The records that hold the rows of a directory.
mod directory;

pub use directory::{DirectoryRow, OpenDirectory};

// Laws about what a reader finds in these records.
mod laws;

pub use laws::{
    pieces_lie_in_their_text, records_hold_the_rows, texts_are_read_again, texts_hold_the_pieces,
};
