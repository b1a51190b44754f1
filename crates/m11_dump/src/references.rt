//! What the words of an object's text refer to.

ghost use Rattle.std.specs.Prelude.{◌≡◌, ◌<◌};
ghost use Rattle.m11_dump.specs.References as spec;

use crate::relocations::names_byte;
use m11_base::Name;
use m11_base_disassembly::{Reference, References};
use m11_obj::{Relocation, Target};

fn referring(name: Option<Name>, constant: u16, is_displaced: bool) -> Option<Reference>
    ensures { result ≡ spec.referring name constant is_displaced }
{
    Some(Reference {
        name,
        constant,
        is_displaced,
    })
}

// What a target refers to: a global or a section with a constant that is added, a location in the text's own section, or an absolute address;
// None for the program's limits, and for a command on the location counter.
fn reference_of(target: &Target) -> Option<Reference>
    ensures { result ≡ spec.reference_of target.now }
{
    match *target {
        Target::Internal(constant) => referring(None, constant, false),
        Target::InternalDisplaced(constant) => referring(None, constant, true),
        Target::Global(name) | Target::Section(name) => referring(Some(name), 0, false),
        Target::GlobalDisplaced(name) | Target::SectionDisplaced(name) => {
            referring(Some(name), 0, true)
        }
        Target::GlobalAdditive(name, constant) | Target::SectionAdditive(name, constant) => {
            referring(Some(name), constant, false)
        }
        Target::GlobalAdditiveDisplaced(name, constant)
        | Target::SectionAdditiveDisplaced(name, constant) => referring(Some(name), constant, true),
        Target::LocationCounterDefinition(_, _)
        | Target::LocationCounterModification(_)
        | Target::ProgramLimits => None,
    }
}

// The reference of the word that begins at the byte with this index in a text: that of the first of these relocations that stores a word there.
fn reference_at(places: &[Relocation], index: usize) -> Option<Reference>
    requires { index < 65540 }
    ensures { result ≡ spec.reference_at places.now index }
{
    match places {
        [] => None,
        [place, others @ ..] => {
            if names_byte(index, place) && !place.is_byte {
                reference_of(&place.target)
            } else {
                reference_at(others, index)
            }
        }
    }
}

/// The references of the word that begins at the byte with this index, and of the two words after it.
pub(crate) fn references_at(places: &[Relocation], index: usize) -> References
    requires { index < 65536 }
    ensures { result ≡ spec.references_at places.now index }
{
    References {
        own: reference_at(places, index),
        first: reference_at(places, index + 2),
        second: reference_at(places, index + 4),
    }
}
