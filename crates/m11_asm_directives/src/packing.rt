//! Words of RADIX-50. (MACRO-11 Language Reference Manual, ".RAD50 directive".)

ghost use Rattle.std.specs.Prelude.{◌≡◌, ◌∷◌, [], IfOk, map};
ghost use Rattle.m11_asm_rules.specs.Contents.{fixed_word};
ghost use Rattle.m11_asm_rules.specs.Strings as spec;
ghost use Rattle.m11_scan.specs.Views.{bits_of};
ghost use Rattle.m11_asm_directives.specs.Packing.{codes_first, codes_of, packing, text_codes};

use m11_asm_operands::Emission;
use m11_base::Rad50;
use m11_scan::ErrorFlags;
use std::alloc::AllocError;

/// The RADIX-50 codes of a word that isn't complete yet.
#[derive(Clone, Copy, PartialEq, Eq)]
pub(crate) enum Waiting {
    /// No code.
    Nothing,
    /// The first code of a word.
    One(u16),
    /// The first two codes of a word.
    Two(u16, u16),
}

impl Waiting {
    // Adds a code, and returns the codes of the incomplete word. The third code completes a word, which is emitted. Error: memory may be
    // refused.
    pub(crate) fn with(self, code: u16, emission: &mut Emission) -> Result<Waiting, AllocError>
        ensures { IfOk result (λ after. (more : spec.Codes)
            → packing emission.new after more ≡ packing emission.old self (codes_first (code ∷ []) more)) }
    {
        match self {
            Waiting::Nothing => Ok(Waiting::One(code)),
            Waiting::One(first) => Ok(Waiting::Two(first, code)),
            Waiting::Two(first, second) => {
                emission.add_fixed_word(packed(first, second, code))?;
                Ok(Waiting::Nothing)
            }
        }
    }

    // Emits the incomplete word, filled with blanks, if it has any code. Error: memory may be refused.
    pub(crate) fn end(self, emission: &mut Emission) -> Result<(), AllocError>
        ensures { IfOk result (λ _. emission.new ≡ packing emission.old self (codes_of [] 0)) }
    {
        match self {
            Waiting::Nothing => Ok(()),
            Waiting::One(first) => emission.add_fixed_word(packed(first, 0, 0)),
            Waiting::Two(first, second) => emission.add_fixed_word(packed(first, second, 0)),
        }
    }

    // Adds the codes of characters, with A for a character without a code, and returns the codes of the incomplete word. Error: memory may
    // be refused.
    #[tactic(auto, using(crate::proofs::Packs::flagged_codes))]
    pub(crate) fn with_text(
        self,
        text: &[u8],
        emission: &mut Emission,
    ) -> Result<Waiting, AllocError>
        ensures { IfOk result (λ after. (more : spec.Codes)
            → packing emission.new after more ≡ packing emission.old self (spec.codes_then (text_codes text.now) more)) }
    {
        emission.add_flags(character_flags(text));
        self.with_characters(text, emission)
    }

    // Like `with_text`, but adds no flags. Error: memory may be refused.
    fn with_characters(self, text: &[u8], emission: &mut Emission) -> Result<Waiting, AllocError>
        ensures { IfOk result (λ after. (more : spec.Codes)
            → packing emission.new after more ≡ packing emission.old self (codes_first (map spec.character_code text.now) more)) }
    {
        let mut waiting = self;
        'characters: for character in text {
            waiting = waiting.with(character_code(*character), emission)?;
        }
        Ok(waiting)
    }
}

// The word that packs three codes, modulo 65536.
fn packed(first: u16, second: u16, third: u16) -> u16
    ensures { spec.packed first second third ≡ fixed_word result }
{
    let word = u32::from(first) * 1600 + u32::from(second) * 40 + u32::from(third);
    (word % 65536) as u16
}

// The code of a character. A character without a code counts as a blank.
fn character_code(character: u8) -> u16
    ensures { result ≡ spec.character_code character }
{
    match Rad50::code(character) {
        Some(code) => code,
        None => 0,
    }
}

// A if a text has a character without a code.
fn character_flags(text: &[u8]) -> ErrorFlags
    ensures { bits_of result ≡ spec.character_flags text.now }
{
    ErrorFlags::A.when(Rad50::has_uncoded(text))
}
