//! The pieces of a program: the bytes, words and pairs of limits that its lines store at locations. (MACRO-11 Language Reference
//! Manual, "Relocation and linking"; RT-11 Volume and File Formats Manual, "Object file format", RLD block.)

ghost use Rattle.std.specs.Prelude.{◌≡◌, ◌+◌, ◌≤◌, ◌++◌, length, true, IfSome};
ghost use Rattle.arrayvec.specs.ArrayVec.{array_vec_len};
ghost use Rattle.std.specs.Option.{option_to_list};
ghost use Rattle.m11_obj_blocks.specs.Frames.{word_bytes};
ghost use Rattle.m11_obj.specs.Relocations.{relocations_bytes};
ghost use Rattle.m11_obj.specs.Pieces.{target_of, standing, content_bytes, relocation_at, last_location};
ghost use Rattle.m11_obj.specs.RelocationList.{has_byte_form, has_form};
ghost use Rattle.m11_obj.specs.Texts.{most_bytes};

use crate::relocations::{Relocation, Target};
use arrayvec::ArrayVec;
use byteorder::{ByteOrder, LittleEndian};
use m11_base::Name;

/// How a linker relocates a constant. A displaced value is relative to the location after its word: the location plus 2 is subtracted.
/// The numbers of commands are octal.
#[derive(Clone, Copy, PartialEq, Eq)]
pub enum RelocationKind {
    /// Not at all: there is no relocation.
    Fixed,
    /// Command 1: it is relative to the base of its own section.
    Internal,
    /// Command 3: it is an absolute address, and displaced.
    InternalDisplaced,
    /// Commands 2 and 5: it is added to the value of a global symbol.
    Global(Name),
    /// Commands 4 and 6: it is added to the value of a global symbol, and displaced.
    GlobalDisplaced(Name),
    /// Commands 12 and 15: it is relative to the base of another section.
    Section(Name),
    /// Commands 14 and 16: it is relative to the base of another section, and displaced.
    SectionDisplaced(Name),
}

/// A constant, and how it is relocated.
#[derive(Clone, Copy, PartialEq, Eq)]
pub struct StoredConstant {
    /// A word. If the content is a byte, only the low byte is stored.
    pub constant: u16,
    /// How a linker changes it.
    pub kind: RelocationKind,
}

/// What is stored at a location.
#[derive(Clone, Copy, PartialEq, Eq)]
pub enum PieceContent {
    /// A byte: the low byte of a constant.
    Byte(StoredConstant),
    /// A word, low byte first.
    Word(StoredConstant),
    /// Command octal 11: the two limits of the program, in four bytes.
    Limits,
}

/// A piece: a byte, a word or a pair of limits at a location of a section.
#[derive(Clone, Copy, PartialEq, Eq)]
pub struct Piece {
    /// The name of its section.
    pub section: Name,
    /// The location of its first byte within the section.
    pub location: u16,
    /// The byte, word or pair of limits, and how it is relocated.
    pub content: PieceContent,
}

impl StoredConstant {
    // The target of the relocation, if there is one. A constant of 0 that would be added to a symbol or another section is left out.
    fn target(&self) -> Option<Target>
        ensures target { result ≡ target_of self.now.kind self.now.constant }
        ensures form { IfSome result (λ target. has_byte_form target ≡ true) }
    {
        let constant = self.constant;
        let is_added = constant != 0;
        match self.kind {
            RelocationKind::Fixed => None,
            RelocationKind::Internal => Some(Target::Internal(constant)),
            RelocationKind::InternalDisplaced => Some(Target::InternalDisplaced(constant)),
            RelocationKind::Global(name) if is_added => Some(Target::GlobalAdditive(
                name, constant,
            )),
            RelocationKind::Global(name) => Some(Target::Global(name)),
            RelocationKind::GlobalDisplaced(name) if is_added => {
                Some(Target::GlobalAdditiveDisplaced(name, constant))
            }
            RelocationKind::GlobalDisplaced(name) => Some(Target::GlobalDisplaced(name)),
            RelocationKind::Section(name) if is_added => Some(Target::SectionAdditive(
                name, constant,
            )),
            RelocationKind::Section(name) => Some(Target::Section(name)),
            RelocationKind::SectionDisplaced(name) if is_added => {
                Some(Target::SectionAdditiveDisplaced(name, constant))
            }
            RelocationKind::SectionDisplaced(name) => Some(Target::SectionDisplaced(name)),
        }
    }

    // The number that a text holds for this constant: the constant, or 0 if the linker replaces it.
    fn standing(&self) -> u16
        ensures { result ≡ standing self.now.kind self.now.constant }
    {
        match self.kind {
            RelocationKind::Fixed => self.constant,
            _ => 0,
        }
    }
}

impl PieceContent {
    /// The number of bytes: 1, 2 or 4.
    pub fn byte_count(&self) -> usize
        ensures count { result ≡ length (content_bytes self.now) }
        ensures least { 1 ≤ result }
        ensures most { result ≤ 4 }
    {
        match self {
            PieceContent::Byte(_) => 1,
            PieceContent::Word(_) => 2,
            PieceContent::Limits => 4,
        }
    }

    // Appends the bytes to those of a text.
    pub(crate) fn put(&self, bytes: &mut ArrayVec<u8, 32>)
        requires { array_vec_len bytes.old + length (content_bytes self.now) ≤ most_bytes }
        ensures { bytes.new.items ≡ bytes.old.items ++ content_bytes self.now }
    {
        match self {
            PieceContent::Byte(stored) => bytes.push((stored.standing() % 256) as u8),
            PieceContent::Word(stored) => put_word(bytes, stored.standing()),
            PieceContent::Limits => {
                put_word(bytes, 0);
                put_word(bytes, 0);
            }
        }
    }

    // The relocation of this content, if it has one, with this displacement.
    pub(crate) fn relocation(&self, displacement: u8) -> Option<Relocation>
        ensures relocation { result ≡ relocation_at displacement self.now }
        ensures form { IfSome result (λ relocation. has_form relocation ≡ true) }
        ensures most { length (relocations_bytes (option_to_list result)) ≤ 8 }
    {
        let (is_byte, target) = match self {
            PieceContent::Byte(stored) => (true, stored.target()?),
            PieceContent::Word(stored) => (false, stored.target()?),
            PieceContent::Limits => (false, Target::ProgramLimits),
        };
        Some(Relocation {
            is_byte,
            displacement,
            target,
        })
    }
}

fn put_word(bytes: &mut ArrayVec<u8, 32>, word: u16)
    requires { array_vec_len bytes.old + 2 ≤ most_bytes }
    ensures { bytes.new.items ≡ bytes.old.items ++ word_bytes word }
{
    let mut pair = [0; 2];
    LittleEndian::write_u16(&mut pair, word);
    bytes.push(pair[0]);
    bytes.push(pair[1]);
}

impl Piece {
    // The location after the last byte, from 1 to 65536: the location of the last byte, modulo 65536, plus 1.
    pub(crate) fn location_after(&self) -> u32
        ensures { result ≡ last_location self.now + 1 }
    {
        let location = self.location;
        let size = self.content.byte_count() as u32;
        (u32::from(location) + (size - 1)) % 65536 + 1
    }
}
