//! The pending text, which is stored until all of its relocations are accepted.

ghost use Rattle.std.specs.Prelude.{◌≡◌, ◌≤◌, length};
ghost use Rattle.m11_link_text.specs.Findings.{planned};
ghost use Rattle.m11_base_writes.specs.States.{OutputState, output_of};
ghost use Rattle.m11_link.specs.Outputs.{Writes};
ghost use Rattle.m11_base_writes.specs.Outputs.{outputs};
ghost use Rattle.m11_link.specs.Written.{placed_text, text_writes, with_relocation};

use arrayvec::ArrayVec;
use m11_base::{Name, Sink};
use m11_base_writes::put_product;
use m11_link_layout::{LinkFault, Plan};
use m11_link_modules::TextRelocation;
use m11_link_text::relocate;
use m11_obj::tape_block;
use std::alloc::Global;
use std::marker::Model;

/// The index of a module, and the section that its texts go to.
#[derive(Clone, Copy, PartialEq, Eq)]
pub(crate) struct ModuleSection {
    pub(crate) module_index: usize,
    pub(crate) section: Name,
}

/// A text of at most 512 bytes at its address, with the index of its module and the base of the module's contribution to the text's
/// section.
#[derive(Drop)]
pub(crate) struct HeldText {
    module_index: usize,
    base: u16,
    address: u16,
    bytes: ArrayVec<u8, 512>,
}

impl Model for HeldText {
    ghost use Rattle.m11_link.specs.Written.{PlacedText};

    ghost Value = { PlacedText };

    ghost view = { λ t. record {
      module_index = t.module_index;
      base = t.base;
      address = t.address;
      bytes = t.bytes.items;
    } };
}

impl HeldText {
    /// An empty text of the first module, at address 0.
    pub(crate) fn new() -> HeldText {
        HeldText {
            module_index: 0,
            base: 0,
            address: 0,
            bytes: ArrayVec::new(),
        }
    }

    /// Replaces the text with these bytes at this address, which is relative to the base of the module's contribution to the
    /// section.
    pub(crate) fn hold(&mut self, plan: &Plan, location: ModuleSection, address: u16, bytes: &[u8])
        requires { length bytes.now ≤ 512 }
        ensures { self.new ≡ placed_text (planned plan.now) location.module_index location.section address bytes.now }
    {
        let base = plan.base(location.module_index, location.section);
        self.module_index = location.module_index;
        self.base = base;
        self.address = base.wrapping_add(address);
        self.bytes.clear();
        self.bytes.try_extend_from_slice(bytes).unwrap();
    }

    /// Applies one more relocation, which was checked against the length of this text: replaces the bytes at its location. A
    /// relocation that was checked against a longer text changes nothing.
    pub(crate) fn relocate(&mut self, plan: &Plan, relocation: &TextRelocation)
        ensures { relocation.now.text_length ≡ length self.old.bytes
            → self.new ≡ with_relocation (planned plan.now) self.old relocation.now.relocation }
    {
        if usize::from(relocation.text_length()) <= self.bytes.len() {
            relocate(
                plan,
                self.module_index,
                self.base,
                self.address,
                relocation,
                self.bytes.as_mut_slice(),
            );
        }
    }

    /// Writes the text as a block of the tape, or nothing if it has no bytes. Errors: `NoMemory`, if memory is refused for the
    /// block; `Write`, if the tape failed.
    pub(crate) fn put<S: Sink>(&self, alloc: Global, tape: &mut S) -> Result<(), LinkFault>
        ensures { (map messages : OutputState) → Writes
            (outputs (output_of S.Sink tape.old) map messages)
            (outputs (output_of S.Sink tape.new) map messages) (text_writes self.now) result }
    {
        if self.bytes.is_empty() {
            return Ok(());
        }
        let block = tape_block(alloc, self.address, self.bytes.as_slice())?;
        put_product(tape, block.as_slice())
    }
}
