//! The content of a block, read once. Entries and relocations are read only when the caller asks for them. (RT-11 Volume and File
//! Formats Manual, "Object file format".)

ghost use Rattle.std.specs.Prelude.{◌≡◌};
ghost use Rattle.m11_obj.specs.Contents.{ReadsContents, ReadsRelocation};
ghost use Rattle.m11_obj.specs.Reading.{Gives, checked, entries_of, relocations_of};

use crate::fault::RecordFault;
use crate::gsd::Entries;
use crate::reading::{check_relocations, first_relocation, first_type, first_word, read_entries};
use crate::records::RecordKind;
use crate::relocations::Relocation;
use m11_obj_blocks::Block;
use std::marker::Model;

/// The unread entries of a directory record. Reading them allocates nothing.
#[derive(Drop)]
pub struct UnreadEntries<'a> {
    rest: &'a [u8],
}

impl<'a> Model for UnreadEntries<'a> {
    ghost use Rattle.std.specs.Prelude.{ℕ, ◌+◌, ◌≤◌, List, length};
    ghost use Rattle.m11_obj_blocks.specs.Frames.{content_limit};

    ghost Value = { List ℕ };

    ghost view = { λ u. u.rest.now };

    // These bytes follow the two bytes of a type word in a block's content.
    ghost invariant = { λ u. length u.rest.now + 2 ≤ content_limit };
}

/// The unread relocations of a record. Reading them allocates nothing.
#[derive(Drop)]
pub struct UnreadRelocations<'a> {
    rest: &'a [u8],
}

impl<'a> Model for UnreadRelocations<'a> {
    ghost use Rattle.std.specs.Prelude.{ℕ, List};

    ghost Value = { List ℕ };

    ghost view = { λ u. u.rest.now };
}

/// The content of a block, by the type of its record.
#[derive(Drop)]
pub enum Contents<'a> {
    /// A directory, whose entries are still to be read.
    Directory(UnreadEntries<'a>),
    /// The end of the directory.
    EndOfDirectory,
    /// A text: its load address, relative to the base of the current section, and its bytes.
    Text(u16, &'a [u8]),
    /// Relocations, still to be read, of the text before them.
    Relocations(UnreadRelocations<'a>),
    /// A directory of internal symbols, whose bytes aren't read.
    InternalSymbols,
    /// The end of the module.
    EndOfModule,
}

/// The content of a block, which the result borrows. Allocates nothing.
///
/// Errors: those of `read_record`, except that the fault of an entry or a relocation is returned only when that entry or
/// relocation is read.
#[inline]
#[tactic(auto, unfolding(crate::specs::Reading::content_of, crate::specs::Reading::content_after))]
pub fn read_contents(block: &Block) -> Result<Contents<'_>, RecordFault>
    ensures { ReadsContents block.now.items result }
{
    let content = block.as_slice();
    let (kind, rest) = first_type(content)?;
    match kind {
        RecordKind::Gsd => Ok(Contents::Directory(UnreadEntries { rest })),
        RecordKind::EndOfGsd => Ok(Contents::EndOfDirectory),
        RecordKind::Text => {
            let (address, bytes) = first_word(rest)?;
            Ok(Contents::Text(address, bytes))
        }
        RecordKind::Relocations => Ok(Contents::Relocations(UnreadRelocations { rest })),
        RecordKind::InternalSymbols => Ok(Contents::InternalSymbols),
        RecordKind::EndOfModule => Ok(Contents::EndOfModule),
    }
}

impl UnreadEntries<'_> {
    /// Reads all entries, each once. Error: the first fault in the order of their bytes.
    pub fn read(&self) -> Result<Entries, RecordFault>
        ensures { Gives (λ entries. entries.items) result (entries_of self.now) }
    {
        read_entries(self.rest)
    }
}

impl UnreadRelocations<'_> {
    /// Reads the next relocation, or returns `None` after the last. Error: the first fault in the order of the remaining bytes.
    #[inline(always)]
    pub fn read_next(&mut self) -> Result<Option<Relocation>, RecordFault>
        ensures { ReadsRelocation self.old self.new result }
    {
        if self.rest.is_empty() {
            return Ok(None);
        }
        match first_relocation(self.rest) {
            Ok((relocation, rest)) => {
                self.rest = rest;
                Ok(Some(relocation))
            }
            Err(fault) => Err(fault),
        }
    }

    /// Checks that the remaining bytes are relocations. Error: the first fault in the order of the bytes.
    pub fn check(&self) -> Result<(), RecordFault>
        ensures { result ≡ checked (relocations_of self.now) }
    {
        check_relocations(self.rest)
    }
}
