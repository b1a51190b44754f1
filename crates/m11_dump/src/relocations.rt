//! The lines of relocations.

ghost use Rattle.std.specs.Prelude.{◌≡◌, ◌<◌, ◌≤◌, ◌+◌, ◌++◌, length, IfOk};
ghost use Rattle.arrayvec.specs.ArrayVec.{array_vec_len};
ghost use Rattle.m11_dump.specs.Relocations as spec;
ghost use Rattle.m11_obj.specs.Reading.{record_relocations};
ghost use Rattle.m11_obj.specs.Relocations.{parts_of};

use m11_base::{Name, octal6};
use m11_obj::{Record, Relocation, Target};
use m11_obj_print::{Line, add_bytes, ended};
use std::alloc::{AllocError, Global};

// The keywords of a target, as in the manual.
fn target_word(target: &Target) -> &'static [u8]
    ensures text { result.now ≡ spec.target_word target.now }
    ensures room { length result.now ≤ 29 }
{
    match target {
        Target::Internal(_) => b"INTERNAL",
        Target::Global(_) => b"GLOBAL",
        Target::InternalDisplaced(_) => b"INTERNAL DISPLACED",
        Target::GlobalDisplaced(_) => b"GLOBAL DISPLACED",
        Target::GlobalAdditive(_, _) => b"GLOBAL ADDITIVE",
        Target::GlobalAdditiveDisplaced(_, _) => b"GLOBAL ADDITIVE DISPLACED",
        Target::LocationCounterDefinition(_, _) => b"LOCATION COUNTER DEFINITION",
        Target::LocationCounterModification(_) => b"LOCATION COUNTER MODIFICATION",
        Target::ProgramLimits => b"PROGRAM LIMITS",
        Target::Section(_) => b"SECTION",
        Target::SectionDisplaced(_) => b"SECTION DISPLACED",
        Target::SectionAdditive(_, _) => b"SECTION ADDITIVE",
        Target::SectionAdditiveDisplaced(_, _) => b"SECTION ADDITIVE DISPLACED",
    }
}

// The name of a target, if it has one.
fn name_of(target: &Target) -> Option<Name>
    ensures { result ≡ (parts_of target.now).name }
{
    match target {
        Target::Global(name)
        | Target::GlobalDisplaced(name)
        | Target::GlobalAdditive(name, _)
        | Target::GlobalAdditiveDisplaced(name, _)
        | Target::LocationCounterDefinition(name, _)
        | Target::Section(name)
        | Target::SectionDisplaced(name)
        | Target::SectionAdditive(name, _)
        | Target::SectionAdditiveDisplaced(name, _) => Some(*name),
        Target::Internal(_)
        | Target::InternalDisplaced(_)
        | Target::LocationCounterModification(_)
        | Target::ProgramLimits => None,
    }
}

// The constant of a target, if it has one.
fn constant_of(target: &Target) -> Option<u16>
    ensures { result ≡ (parts_of target.now).constant }
{
    match target {
        Target::Internal(constant)
        | Target::InternalDisplaced(constant)
        | Target::GlobalAdditive(_, constant)
        | Target::GlobalAdditiveDisplaced(_, constant)
        | Target::LocationCounterDefinition(_, constant)
        | Target::LocationCounterModification(constant)
        | Target::SectionAdditive(_, constant)
        | Target::SectionAdditiveDisplaced(_, constant) => Some(*constant),
        Target::Global(_)
        | Target::GlobalDisplaced(_)
        | Target::ProgramLimits
        | Target::Section(_)
        | Target::SectionDisplaced(_) => None,
    }
}

// Adds a blank and a name, if there is one.
fn add_name(line: &mut Line, name: Option<Name>)
    requires { array_vec_len line.old ≤ 100 }
    ensures text { line.new.items ≡ line.old.items ++ spec.optional_name name }
    ensures room { array_vec_len line.new ≤ array_vec_len line.old + 7 }
{
    if let Some(name) = name {
        add_bytes(line, b" ");
        add_bytes(line, &name.characters());
    }
}

// Adds a blank and a constant in six octal digits, if there is one.
fn add_word(line: &mut Line, word: Option<u16>)
    requires { array_vec_len line.old ≤ 110 }
    ensures text { line.new.items ≡ line.old.items ++ spec.optional_word word }
    ensures room { array_vec_len line.new ≤ array_vec_len line.old + 7 }
{
    if let Some(word) = word {
        add_bytes(line, b" ");
        add_bytes(line, &octal6(word));
    }
}

// Adds a target: its keywords, then its name and its constant if it has them.
fn add_target(line: &mut Line, target: &Target)
    requires { array_vec_len line.old ≤ 20 }
    ensures text { line.new.items ≡ line.old.items ++ spec.target_text target.now }
    ensures room { array_vec_len line.new ≤ array_vec_len line.old + 43 }
{
    add_bytes(line, target_word(target));
    add_name(line, name_of(target));
    add_word(line, constant_of(target));
}

// The keyword of a relocation that stores only the low byte; none for any other.
fn byte_word(is_byte: bool) -> &'static [u8]
    ensures text { result.now ≡ spec.byte_word is_byte }
    ensures room { length result.now ≤ 5 }
{
    if is_byte { b" BYTE" } else { b"" }
}

// The location that a displacement refers to in a text at this address. The first byte of the text has displacement 4.
fn location_of(address: u16, displacement: u8) -> u16
    ensures { result ≡ spec.location_of address displacement }
{
    address
        .wrapping_add(u16::from(displacement))
        .wrapping_add(65_532)
}

/// Whether a target's value is stored in the text: all but those of the two commands on the location counter.
pub(crate) fn stores(target: &Target) -> bool
    ensures { result ≡ spec.stores target.now }
{
    !matches!(
        target,
        Target::LocationCounterDefinition(_, _) | Target::LocationCounterModification(_)
    )
}

/// Whether a relocation stores a value that begins at the byte with this index in its text.
pub(crate) fn names_byte(index: usize, place: &Relocation) -> bool
    requires { index < 65540 }
    ensures { result ≡ spec.names_byte index place.now }
{
    stores(&place.target) && usize::from(place.displacement) == index + 4
}

// The location of a relocation in six octal digits, or six blanks if it stores nothing.
fn location_text(address: u16, relocation: &Relocation) -> [u8; 6]
    ensures { result ≡ spec.location_text address relocation.now }
{
    if stores(&relocation.target) {
        octal6(location_of(address, relocation.displacement))
    } else {
        *b"      "
    }
}

/// The line of a relocation of the text at this address: its location, its target, and whether it stores only a byte.
#[tactic(auto, using(m11_obj_print::proofs::Trimming::line_at))]
pub(crate) fn relocation_line(address: u16, relocation: &Relocation) -> Line
    ensures { result.items ≡ spec.relocation_line address relocation.now }
{
    let mut line = Line::new();
    add_bytes(&mut line, b"  ");
    add_bytes(&mut line, &location_text(address, relocation));
    add_bytes(&mut line, b" ");
    add_target(&mut line, &relocation.target);
    add_bytes(&mut line, byte_word(relocation.is_byte));
    ended(line)
}

/// The relocations of a record. Fails if memory is refused.
pub(crate) fn relocations_of(
    alloc: Global,
    record: &Record<'_>,
) -> Result<Vec<Relocation>, AllocError>
    ensures { IfOk result (λ relocations. relocations.items ≡ record_relocations «record».now) }
{
    record.each_relocation().collect(alloc)
}
