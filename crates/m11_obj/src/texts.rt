//! A text of an object: its bytes with their relocations, and its records. (RT-11 Volume and File Formats Manual, "Object file
//! format", TXT and RLD blocks.)

ghost use Rattle.std.specs.Prelude.{◌≡◌, ◌+◌, ◌≤◌, [], ◌∷◌, if◌then◌else◌, length, true, IfSome};
ghost use Rattle.std.specs.Option.{option_to_list};
ghost use Rattle.m11_obj.specs.Relocations.{relocations_bytes};
ghost use Rattle.m11_obj.specs.Blocks.{AreRecords};
ghost use Rattle.m11_obj.specs.OpenText.{relocations_in, has_room_for, with_piece};
ghost use Rattle.m11_obj.specs.Pieces.{size_of};
ghost use Rattle.m11_obj.specs.RelocationList.{has_form};
ghost use Rattle.m11_obj.specs.Texts.{most_bytes, most_relocation_bytes, text_of, is_in_section, selection, relocation_records, records_of};

use crate::pieces::Piece;
use crate::records::Record;
use crate::relocation_list::{MOST_RELOCATION_BYTES, RelocationList};
use crate::relocations::{Relocation, Target};
use arrayvec::ArrayVec;
use m11_base::Name;
use m11_obj_blocks::Block;
use std::marker::Model;

/// The largest size of a text, in bytes.
const MOST_BYTES: usize = 32;

/// A text: at most 32 bytes at consecutive locations of one section, and at most 120 bytes of relocations.
#[derive(Drop)]
pub struct Text {
    // The section of the preceding text, if there is one.
    before: Option<Name>,
    section: Name,
    location: u16,
    // The location after the last byte, up to 65536.
    next: u32,
    bytes: ArrayVec<u8, MOST_BYTES>,
    relocations: RelocationList,
}

impl Model for Text {
    ghost use Rattle.m11_obj.specs.Texts.{TextParts};

    ghost Value = { TextParts };

    ghost view = { λ t. record {
      before = t.before;
      section = t.section;
      location = t.location;
      next = t.next;
      bytes = t.bytes.items;
      relocations = t.relocations;
    } };
}

// The number of bytes of a relocation, or 0 if there is none.
fn relocation_size(relocation: Option<Relocation>) -> usize
    ensures size { result ≡ length (relocations_bytes (option_to_list relocation)) }
    ensures most { result ≤ 8 }
{
    match relocation {
        None => 0,
        Some(relocation) => relocation.byte_count(),
    }
}

impl Text {
    /// A text of one piece. `before` is the section of the preceding text, if there is one.
    pub(crate) fn start(before: Option<Name>, piece: &Piece) -> Text
        ensures { result ≡ text_of before piece.now [] }
    {
        let mut text = Text {
            before,
            section: piece.section,
            location: piece.location,
            next: u32::from(piece.location),
            bytes: ArrayVec::new(),
            relocations: RelocationList::new(),
        };
        text.push(piece);
        text
    }

    pub(crate) fn section(&self) -> Name
        ensures { result ≡ self.now.section }
    {
        self.section
    }

    // The relocation that a piece has if it is added next; None if it has none.
    fn relocation(&self, piece: &Piece) -> Option<Relocation>
        ensures relocation { option_to_list result ≡ relocations_in self.now piece.now }
        ensures form { IfSome result (λ relocation. has_form relocation ≡ true) }
    {
        let displacement = 4 + self.bytes.len() as u8;
        piece.content.relocation(displacement)
    }

    /// Whether a piece can be added to this text: it follows directly, and there is room for its bytes and its relocation.
    pub(crate) fn fits(&self, piece: &Piece) -> bool
        ensures { result ≡ has_room_for self.now piece.now }
    {
        let is_next = piece.section.is_same(self.section) && u32::from(piece.location) == self.next;
        let size = self.bytes.len() + piece.content.byte_count();
        let relocations_size = self.relocations.byte_count()
            + relocation_size(self.relocation(piece));
        is_next && size <= MOST_BYTES && relocations_size <= MOST_RELOCATION_BYTES
    }

    /// Adds a piece. Requires room for its bytes and its relocation.
    pub(crate) fn push(&mut self, piece: &Piece)
        requires bytes { length self.old.bytes + size_of piece.now ≤ most_bytes }
        requires relocations { length (relocations_bytes self.old.relocations)
            + length (relocations_bytes (relocations_in self.old piece.now)) ≤ most_relocation_bytes }
        ensures { self.new ≡ with_piece self.old piece.now }
    {
        if let Some(relocation) = self.relocation(piece) {
            self.relocations.push(relocation);
        }
        piece.content.put(&mut self.bytes);
        self.next = piece.location_after();
    }

    // The record that selects the section and the location, unless the preceding text is in the same section.
    fn selection(&self) -> Option<Block>
        ensures { AreRecords (option_to_list result) (if is_in_section self.now.before self.now.section then []
            else selection self.now.section self.now.location ∷ []) }
    {
        if let Some(before) = self.before
            && before.is_same(self.section)
        {
            return None;
        }
        Some(Record::relocations(&[Relocation {
            is_byte: false,
            displacement: 0,
            target: Target::LocationCounterDefinition(self.section, self.location),
        }]))
    }

    // The record of the relocations, if there are any.
    fn relocation_record(&self) -> Option<Block>
        ensures { AreRecords (option_to_list result) (relocation_records self.now.relocations) }
    {
        let relocations = self.relocations.as_slice();
        if relocations.is_empty() {
            return None;
        }
        Some(Record::relocations(relocations))
    }

    /// The records of the text, in order, each to be written as a block: one that selects its section and location, if it is the
    /// first text or the preceding text is in another section; the text itself; and its relocations, if it has any.
    pub fn records(&self) -> ArrayVec<Block, 3>
        ensures { AreRecords result.items (records_of self.now) }
    {
        let mut records = ArrayVec::new();
        if let Some(selection) = self.selection() {
            records.push(selection);
        }
        records.push(Record::text(self.location, self.bytes.as_slice()));
        if let Some(relocations) = self.relocation_record() {
            records.push(relocations);
        }
        records
    }
}
