//! Entries of a relocation directory. (RT-11 Volume and File Formats Manual, "Object file format", RLD
//! block.)

ghost use Rattle.std.specs.Prelude.{◌≡◌, ◌+◌, ◌≤◌, ◌<◌, ◌^◌, ◌++◌, length, IfSome};
ghost use Rattle.arrayvec.specs.ArrayVec.{array_vec_len};
ghost use Rattle.m11_base.specs.Rad50.{IsName};
ghost use Rattle.m11_obj_blocks.specs.Frames.{content_limit};
ghost use Rattle.m11_obj.specs.Relocations.{parts_of, optional_name, optional_word, relocation_bytes, FormExists, RelocationFits};

use crate::gsd::{add_name, add_word};
use m11_base::Name;
use m11_obj_blocks::Block;

/// The value that is stored at a relocated location; or, in commands 7 and 10, the location that is selected. The base of a section
/// is that of this module's contribution to it. A displaced value is relative to the location after its word: the location plus 2 is
/// subtracted. The numbers are those of the commands, in octal.
#[derive(Clone, Copy, PartialEq, Eq)]
pub enum Target {
    /// 1: the base of the text's own section plus a constant.
    Internal(u16),
    /// 2: the value of a global symbol.
    Global(Name),
    /// 3: a constant, displaced.
    InternalDisplaced(u16),
    /// 4: the value of a global symbol, displaced.
    GlobalDisplaced(Name),
    /// 5: the value of a global symbol plus a constant.
    GlobalAdditive(Name, u16),
    /// 6: the value of a global symbol plus a constant, displaced.
    GlobalAdditiveDisplaced(Name, u16),
    /// 7: nothing is stored; selects a section and a location in it.
    LocationCounterDefinition(Name, u16),
    /// 10: nothing is stored; selects a location in the same section.
    LocationCounterModification(u16),
    /// 11: the two limits of the program, in two words.
    ProgramLimits,
    /// 12: the base of a section.
    Section(Name),
    /// 14: the base of a section, displaced.
    SectionDisplaced(Name),
    /// 15: the base of a section plus a constant.
    SectionAdditive(Name, u16),
    /// 16: the base of a section plus a constant, displaced.
    SectionAdditiveDisplaced(Name, u16),
}

// The parts of an entry that its target determines.
#[derive(Clone, Copy)]
struct EntryParts {
    command: u8,
    // The name, if there is one.
    name: Option<Name>,
    // The constant at the end, if there is one.
    constant: Option<u16>,
}

impl EntryParts {
    fn new(command: u8, name: Option<Name>, constant: Option<u16>) -> EntryParts
        ensures { result ≡ record { command = command; name = name; constant = constant } }
    {
        EntryParts {
            command,
            name,
            constant,
        }
    }
}

impl Target {
    #[rattlefmt::skip]
    fn parts(&self) -> EntryParts
        ensures command { result.command ≡ (parts_of self.now).command }
        ensures name { result.name ≡ (parts_of self.now).name }
        ensures constant { result.constant ≡ (parts_of self.now).constant }
        ensures below { result.command < 16 }
    {
        match self {
            Target::Internal(constant) => EntryParts::new(0o1, None, Some(*constant)),
            Target::Global(name) => EntryParts::new(0o2, Some(*name), None),
            Target::InternalDisplaced(constant) => EntryParts::new(0o3, None, Some(*constant)),
            Target::GlobalDisplaced(name) => EntryParts::new(0o4, Some(*name), None),
            Target::GlobalAdditive(name, constant) => EntryParts::new(0o5, Some(*name), Some(*constant)),
            Target::GlobalAdditiveDisplaced(name, constant) => EntryParts::new(0o6, Some(*name), Some(*constant)),
            Target::LocationCounterDefinition(name, constant) => EntryParts::new(0o7, Some(*name), Some(*constant)),
            Target::LocationCounterModification(constant) => EntryParts::new(0o10, None, Some(*constant)),
            Target::ProgramLimits => EntryParts::new(0o11, None, None),
            Target::Section(name) => EntryParts::new(0o12, Some(*name), None),
            Target::SectionDisplaced(name) => EntryParts::new(0o14, Some(*name), None),
            Target::SectionAdditive(name, constant) => EntryParts::new(0o15, Some(*name), Some(*constant)),
            Target::SectionAdditiveDisplaced(name, constant) => EntryParts::new(0o16, Some(*name), Some(*constant)),
        }
    }
}

/// The relocation of one location in the text before it, or the selection of a location.
#[derive(Clone, Copy, PartialEq, Eq)]
pub struct Relocation {
    /// Whether only the low byte of the value is stored, instead of the whole word.
    pub is_byte: bool,
    /// The location, as an offset in bytes from the type word of the text record, whose first data byte is at 4. The displacement
    /// has no meaning if a location is selected.
    pub displacement: u8,
    /// The value that is stored there, or the location that is selected.
    pub target: Target,
}

impl Relocation {
    /// The number of bytes of the relocation in its record: from 2 to 8.
    pub fn byte_count(&self) -> usize
        ensures { result ≡ length (relocation_bytes self.now) }
    {
        let parts = self.target.parts();
        let name = if parts.name.is_some() { 4 } else { 0 };
        let constant = if parts.constant.is_some() { 2 } else { 0 };
        2 + name + constant
    }
}

fn add_optional_name(content: &mut Block, name: Option<Name>)
    requires { array_vec_len content.old + length (optional_name name) ≤ content_limit }
    ensures bytes { content.new.items ≡ content.old.items ++ optional_name name }
    ensures fits { IfSome name IsName }
{
    if let Some(name) = name {
        add_name(content, name);
    }
}

fn add_optional_word(content: &mut Block, word: Option<u16>)
    requires { array_vec_len content.old + length (optional_word word) ≤ content_limit }
    ensures bytes { content.new.items ≡ content.old.items ++ optional_word word }
    ensures fits { IfSome word (λ w. w < 2 ^ 16) }
{
    if let Some(word) = word {
        add_word(content, word);
    }
}

// Adds a relocation's bytes to a block's content.
pub(crate) fn add_relocation(content: &mut Block, relocation: &Relocation)
    requires room { array_vec_len content.old + length (relocation_bytes relocation.now) ≤ content_limit }
    requires form { FormExists relocation.now.is_byte relocation.now.target }
    ensures bytes { content.new.items ≡ content.old.items ++ relocation_bytes relocation.now }
    ensures fits { RelocationFits relocation.now }
{
    let parts = relocation.target.parts();
    content.push(if relocation.is_byte {
        parts.command + 0o200
    } else {
        parts.command
    });
    content.push(relocation.displacement);
    add_optional_name(content, parts.name);
    add_optional_word(content, parts.constant);
}
