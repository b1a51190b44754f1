//! Relocations that store bytes in the text before them. (RT-11 Volume and File Formats Manual, "Object file format", RLD
//! block.)

ghost use Rattle.std.specs.Prelude.{◌≡◌, ◌-◌, true, Some, None, if◌then◌else◌};
ghost use Rattle.m11_link_modules.specs.Rules.{lies_within, width_of};
ghost use Rattle.m11_link_modules.specs.TextRelocation.{in_text};

use m11_obj::{Relocation, Target};
use std::marker::Model;

/// A relocation that was checked: all bytes that it stores lie within the text before it.
#[derive(Drop)]
pub struct TextRelocation {
    relocation: Relocation,
    // speed: 16 bits instead of a `usize`, since one of these values is passed on for each relocation.
    text_length: u16,
}

impl Model for TextRelocation {
    ghost use Rattle.std.specs.Prelude.{◌≡◌, true};
    ghost use Rattle.m11_link_modules.specs.Rules.{lies_within};
    ghost use Rattle.m11_link_modules.specs.TextRelocation.{InText};

    ghost Value = { InText };

    ghost view = { λ r. record { relocation = r.relocation; text_length = r.text_length } };

    ghost invariant = { λ r. lies_within r.relocation r.text_length ≡ true };
}

impl TextRelocation {
    /// The relocation if all bytes that it stores lie within a text of this many bytes, whose first byte has displacement 4;
    /// otherwise None.
    pub(crate) fn within(relocation: &Relocation, text_length: u16) -> Option<TextRelocation>
        ensures { result ≡ (if lies_within relocation.now text_length then Some (in_text relocation.now text_length)
            else None) }
    {
        if lies_within(relocation, text_length) {
            Some(TextRelocation {
                relocation: *relocation,
                text_length,
            })
        } else {
            None
        }
    }

    /// The relocation itself.
    pub fn relocation(&self) -> &Relocation
        ensures value { result.now ≡ self.now.relocation }
        ensures within { lies_within self.now.relocation self.now.text_length ≡ true }
    {
        &self.relocation
    }

    /// The length in bytes of the text before the relocation.
    pub fn text_length(&self) -> u16
        ensures { result ≡ self.now.text_length }
    {
        self.text_length
    }

    /// The index of the first byte that the relocation stores, in the text before the relocation.
    pub fn index(&self) -> u8
        ensures { result ≡ self.now.relocation.displacement - 4 }
    {
        self.relocation.displacement - 4
    }
}

// The number of bytes that a relocation stores, commands 7 and octal 10 aside: 4 for the two limits of the program, otherwise 1 for a byte
// and 2 for a word.
fn width_of(relocation: &Relocation) -> usize
    ensures { result ≡ width_of relocation.now.is_byte relocation.now.target }
{
    match relocation.target {
        Target::ProgramLimits => 4,
        _ => { if relocation.is_byte { 1 } else { 2 } }
    }
}

// Whether all bytes that a relocation stores lie within a text of `count` bytes.
fn lies_within(relocation: &Relocation, count: u16) -> bool
    ensures { result ≡ lies_within relocation.now count }
{
    let displacement = usize::from(relocation.displacement);
    displacement >= 4 && displacement + width_of(relocation) - 4 <= usize::from(count)
}
