//! What a line emits, in order, with its flags. (MACRO-11 Language Reference Manual, "Diagnostic error message summary".)

ghost use Rattle.std.specs.Prelude.{◌≡◌, ◌∷◌, [], IfOk};
ghost use Rattle.m11_obj.specs.declared.pieces.PieceContent.TheVariants.{Byte, Limits, Word};
ghost use Rattle.m11_scan.specs.Views.{bits_of};
ghost use Rattle.m11_asm_rules.specs.Contents.{fixed_byte, fixed_word, followed_by, nothing, emission};

use crate::relocations::fixed;
use m11_obj::{PieceContent, StoredConstant};
use m11_scan::ErrorFlags;
use std::alloc::{AllocError, Global};
use std::marker::Model;

/// The contents of consecutive locations, and the flags of all that was emitted.
#[derive(Drop)]
pub struct Emission {
    contents: Vec<PieceContent>,
    flags: ErrorFlags,
}

impl Model for Emission {
    ghost use Rattle.m11_scan.specs.Views.{bits_of};
    ghost use Rattle.m11_asm_rules.specs.Contents.{Emission};

    ghost Value = { Emission };

    ghost view = { λ what. record { contents = what.contents.items; flags = bits_of what.flags } };
}

impl Emission {
    /// No contents and no flags.
    pub fn new(alloc: Global) -> Emission
        ensures { result ≡ nothing 0 }
    {
        Emission {
            contents: Vec::new(alloc),
            flags: ErrorFlags::none(),
        }
    }

    /// Removes all contents and flags. The memory stays allocated for the contents of the next line.
    pub fn clear(&mut self)
        ensures { self.new ≡ nothing 0 }
    {
        self.contents.clear();
        self.flags = ErrorFlags::none();
    }

    /// The contents, in order.
    pub fn contents(&self) -> &[PieceContent]
        ensures { result.now ≡ self.now.contents }
    {
        self.contents.as_slice()
    }

    /// The flags so far.
    pub fn flags(&self) -> ErrorFlags
        ensures { bits_of result ≡ self.now.flags }
    {
        self.flags
    }

    /// Adds flags.
    #[tactic(auto, using(crate::proofs::Joining::flagged))]
    pub fn add_flags(&mut self, flags: ErrorFlags)
        ensures { self.new ≡ followed_by self.old (nothing (bits_of flags)) }
    {
        self.flags = self.flags.with(flags);
    }

    /// Adds a word, with its flags. Error: memory may be refused.
    pub fn add_word(&mut self, stored: StoredConstant, flags: ErrorFlags) -> Result<(), AllocError>
        ensures { IfOk result (λ _. self.new ≡ followed_by self.old (emission (Word stored ∷ []) (bits_of flags))) }
    {
        self.contents.push(PieceContent::Word(stored))?;
        self.flags = self.flags.with(flags);
        Ok(())
    }

    /// Adds a word that the linker doesn't change. Error: memory may be refused.
    pub fn add_fixed_word(&mut self, number: u16) -> Result<(), AllocError>
        ensures { IfOk result (λ _. self.new ≡ followed_by self.old (emission (fixed_word number ∷ []) 0)) }
    {
        self.add_word(fixed(number), ErrorFlags::none())
    }

    /// Adds a byte that the linker doesn't change. Error: memory may be refused.
    pub fn add_fixed_byte(&mut self, number: u16) -> Result<(), AllocError>
        ensures { IfOk result (λ _. self.new ≡ followed_by self.old (emission (fixed_byte number ∷ []) 0)) }
    {
        self.add_byte(fixed(number), ErrorFlags::none())
    }

    /// Adds a byte, with its flags. Error: memory may be refused.
    pub fn add_byte(&mut self, stored: StoredConstant, flags: ErrorFlags) -> Result<(), AllocError>
        ensures { IfOk result (λ _. self.new ≡ followed_by self.old (emission (Byte stored ∷ []) (bits_of flags))) }
    {
        self.contents.push(PieceContent::Byte(stored))?;
        self.flags = self.flags.with(flags);
        Ok(())
    }

    /// Adds the two words of the limits of the program, which the linker fills in. Error: memory may be refused.
    pub fn add_limits(&mut self) -> Result<(), AllocError>
        ensures { IfOk result (λ _. self.new ≡ followed_by self.old (emission (Limits ∷ []) 0)) }
    {
        self.contents.extend_from_slice(&[PieceContent::Limits])?;
        Ok(())
    }
}
