//! The output for records, after the front: messages about entries, and texts as blocks of the tape.

ghost use Rattle.std.specs.Prelude.{◌≡◌, ◌≢◌, ◌≤◌, [], ◌∷◌, length, Some, None, is_some, IfErr};
ghost use Rattle.m11_obj_blocks.specs.Frames.{content_limit};
ghost use Rattle.m11_obj_blocks.specs.Tapes.{tape_block};
ghost use Rattle.m11_link_modules.specs.Names.{is_among};
ghost use Rattle.m11_link_modules.specs.Rules.{defines};
ghost use Rattle.m11_link_layout.specs.Sections.{attributes_by};
ghost use Rattle.m11_link.specs.Emit.{Goes, EmitBecomes, IsAsLong, directory_writes, entries_writes, held_with, held_writes, with_count, with_directory, with_entries, with_entry, with_held, with_name, with_symbol, with_text};
ghost use Rattle.m11_link_text.specs.Findings.{planned};
ghost use Rattle.m11_link.specs.Front.{front_writes};
ghost use Rattle.m11_base_writes.specs.States.{OutputState, optional_output, output_of};
ghost use Rattle.m11_link.specs.Outputs.{Writes};
ghost use Rattle.m11_base_writes.specs.Outputs.{outputs, to_messages, to_product};
ghost use Rattle.m11_link.specs.Written.{attributes_agree, different_writes, entry_writes, placed_text, symbol_writes};

use crate::front::put_front;
use crate::held::{HeldText, ModuleSection};
use bitflags::Flags;
use m11_base::{Name, SeededSet, Sink};
use m11_base_writes::{put_message, put_product};
use m11_link_layout::{LinkFault, Plan, section_attributes};
use m11_link_modules::TextRelocation;
use m11_link_text::{Line, different_line, multiple_line};
use m11_obj::{GsdEntry, GsdKind, SectionFlags, SymbolFlags, tape_transfer};
use std::alloc::Global;
use std::marker::Model;

/// The plan, the names defined so far, the pending text and the number of messages.
#[derive(Drop)]
pub(crate) struct Reporter {
    alloc: Global,
    plan: Plan,
    defined: SeededSet<Name>,
    // The pending text, if `is_held`. Its memory is reused for the next one.
    text: HeldText,
    is_held: bool,
    messages: u32,
}

impl Model for Reporter {
    ghost use Rattle.std.specs.Prelude.{Some, None, if◌then◌else◌};
    ghost use Rattle.m11_link.specs.Emit.{ReporterState};

    ghost Value = { ReporterState };

    ghost view = { λ t. record {
      plan = t.plan;
      defined = t.defined.keys;
      held = if t.is_held then Some t.text else None;
      messages = t.messages;
    } };
}

impl Reporter {
    pub(crate) fn new(alloc: Global, plan: Plan) -> Reporter
        ensures { result ≡ record { plan = plan; defined = []; held = None; messages = 0 } }
    {
        let seed = plan.seed();
        Reporter {
            alloc,
            plan,
            defined: SeededSet::with_hasher(alloc, seed),
            text: HeldText::new(),
            is_held: false,
            messages: 0,
        }
    }

    /// The number of messages so far. Those after the first 4,294,967,295 are written but not counted.
    pub(crate) fn messages(&self) -> u32
        ensures { result ≡ self.now.messages }
    {
        self.messages
    }

    /// Writes the messages about undefined globals, and the map. Error: `Write`, if an output failed.
    pub(crate) fn begin<T: Sink, U: Sink>(
        &mut self,
        map: &mut Option<T>,
        messages: &mut U,
    ) -> Result<(), LinkFault>
        ensures writes { (tape : OutputState) → Goes
            (outputs tape (optional_output T.Sink map.old) (output_of U.Sink messages.old))
            (outputs tape (optional_output T.Sink map.new) (output_of U.Sink messages.new))
            (front_writes (planned self.old.plan)) self.new
            (with_count (front_writes (planned self.old.plan)) self.old) result }
        ensures stays { is_some map.new ≡ is_some map.old }
        ensures no_memory { IfErr result (λ fault. fault ≢ LinkFault.NoMemory) }
    {
        self.messages = put_front(&self.plan, map, messages, self.messages)?;
        Ok(())
    }

    /// Accepts a directory record with these entries in the module with this index: writes the pending text, then the messages
    /// about the entries.
    ///
    /// Errors: `Write`, if an output failed; `NoMemory`, if memory is refused for a block of the tape or a name.
    pub(crate) fn report_directory<S: Sink, U: Sink>(
        &mut self,
        module_index: usize,
        entries: &[GsdEntry],
        tape: &mut S,
        messages: &mut U,
    ) -> Result<(), LinkFault>
        ensures { (map : OutputState) → Goes
            (outputs (output_of S.Sink tape.old) map (output_of U.Sink messages.old))
            (outputs (output_of S.Sink tape.new) map (output_of U.Sink messages.new))
            (directory_writes module_index entries.now self.old) self.new
            (with_directory module_index entries.now self.old) result }
    {
        self.end_text(tape)?;
        self.report_entries(module_index, entries, messages)
    }

    /// Writes the text that was pending, if there was one, and makes this one pending, since relocations may follow it.
    ///
    /// Errors: `Write`, if the tape failed; `NoMemory`, if memory is refused for the block.
    pub(crate) fn hold_text<S: Sink>(
        &mut self,
        location: ModuleSection,
        address: u16,
        bytes: &[u8],
        tape: &mut S,
    ) -> Result<(), LinkFault>
        requires { length bytes.now ≤ content_limit }
        ensures { (map messages : OutputState) → Goes
            (outputs (output_of S.Sink tape.old) map messages)
            (outputs (output_of S.Sink tape.new) map messages)
            (held_writes self.old.held) self.new
            (with_text location.module_index location.section address bytes.now self.old) result }
    {
        self.end_text(tape)?;
        self.hold(location, address, bytes);
        Ok(())
    }

    /// Writes the pending text, if there is one, as a block of the tape. No text is pending afterwards. Errors: `Write`, if the
    /// tape failed; `NoMemory`, if memory is refused for the block.
    pub(crate) fn end_text<S: Sink>(&mut self, tape: &mut S) -> Result<(), LinkFault>
        ensures { (map messages : OutputState) → Goes
            (outputs (output_of S.Sink tape.old) map messages)
            (outputs (output_of S.Sink tape.new) map messages)
            (held_writes self.old.held) self.new (with_held None self.old) result }
    {
        // proof: a match instead of `?`, so that a body that writes nothing here is refused by this contract, and not for a missing
        // name.
        match self.put_held(tape) {
            Ok(()) => {
                self.is_held = false;
                Ok(())
            }
            Err(fault) => Err(fault),
        }
    }

    // Writes the pending text, if there is one, as a block of the tape.
    fn put_held<S: Sink>(&self, tape: &mut S) -> Result<(), LinkFault>
        ensures { (map messages : OutputState) → Writes
            (outputs (output_of S.Sink tape.old) map messages)
            (outputs (output_of S.Sink tape.new) map messages) (held_writes self.now.held) result }
    {
        if self.is_held {
            self.text.put(self.alloc, tape)
        } else {
            Ok(())
        }
    }

    /// Writes the transfer block, which ends the tape. Errors: `Write`, if the tape failed; `NoMemory`, if memory is refused for
    /// the block.
    pub(crate) fn put_transfer<S: Sink>(&self, tape: &mut S) -> Result<(), LinkFault>
        ensures { (map messages : OutputState) → Writes
            (outputs (output_of S.Sink tape.old) map messages)
            (outputs (output_of S.Sink tape.new) map messages)
            (to_product (tape_block (planned self.now.plan).transfer []) ∷ []) result }
    {
        let block = tape_transfer(self.alloc, self.plan.transfer())?;
        put_product(tape, block.as_slice())
    }

    // Makes a text pending, in place of any other.
    fn hold(&mut self, location: ModuleSection, address: u16, bytes: &[u8])
        requires { length bytes.now ≤ 512 }
        ensures { self.new ≡ with_held (Some (placed_text (planned self.old.plan) location.module_index location.section
            address bytes.now)) self.old }
    {
        self.text.hold(&self.plan, location, address, bytes);
        self.is_held = true;
    }

    /// Applies a relocation to the pending text, against whose length it was checked. If no text is pending, this changes only
    /// unused memory.
    pub(crate) fn relocate(&mut self, relocation: &TextRelocation)
        ensures { IsAsLong (Some relocation.now.text_length) self.old.held → self.new
            ≡ with_held (held_with (planned self.old.plan) self.old.held relocation.now.relocation) self.old }
    {
        self.text.relocate(&self.plan, relocation);
    }

    // Writes the messages about the entries of a directory record, in the order of the entries.
    fn report_entries<U: Sink>(
        &mut self,
        module_index: usize,
        entries: &[GsdEntry],
        messages: &mut U,
    ) -> Result<(), LinkFault>
        ensures { (tape map : OutputState) → Goes
            (outputs tape map (output_of U.Sink messages.old))
            (outputs tape map (output_of U.Sink messages.new))
            (entries_writes (planned self.old.plan) module_index self.old.defined entries.now)
            self.new (with_entries module_index entries.now self.old) result }
    {
        'entries: for entry in entries {
            self.report_entry(module_index, entry, messages)?;
        }
        Ok(())
    }

    // Writes the message about an entry, if it has one. Only an entry of a section or of a global can conflict with an earlier one.
    fn report_entry<U: Sink>(
        &mut self,
        module_index: usize,
        entry: &GsdEntry,
        messages: &mut U,
    ) -> Result<(), LinkFault>
        ensures { (tape map : OutputState) → Goes
            (outputs tape map (output_of U.Sink messages.old))
            (outputs tape map (output_of U.Sink messages.new))
            (entry_writes (planned self.old.plan) module_index self.old.defined entry.now) self.new
            (with_entry module_index entry.now self.old) result }
    {
        match entry.kind {
            GsdKind::ControlSection => self.report_section(module_index, entry, messages),
            GsdKind::ProgramSection => self.report_section(module_index, entry, messages),
            GsdKind::GlobalSymbol => self.report_symbol(module_index, entry, messages),
            GsdKind::ModuleName => Ok(()),
            GsdKind::InternalSymbol => Ok(()),
            GsdKind::TransferAddress => Ok(()),
            GsdKind::Identification => Ok(()),
        }
    }

    // Reports a section's entry if its attributes differ from those of the section's first entry.
    fn report_section<U: Sink>(
        &mut self,
        module_index: usize,
        entry: &GsdEntry,
        messages: &mut U,
    ) -> Result<(), LinkFault>
        ensures { (tape map : OutputState) → Goes
            (outputs tape map (output_of U.Sink messages.old))
            (outputs tape map (output_of U.Sink messages.new))
            (different_writes (planned self.old.plan) module_index (attributes_by entry.now.kind entry.now)) self.new
            (with_count (different_writes (planned self.old.plan) module_index (attributes_by entry.now.kind entry.now))
            self.old) result }
    {
        match section_attributes(entry) {
            Some(attributes) => self.report_section_with(
                module_index,
                entry.name,
                attributes,
                messages,
            ),
            None => Ok(()),
        }
    }

    // Reports an entry of the named section with these attributes, if the section's first entry has others.
    fn report_section_with<U: Sink>(
        &mut self,
        module_index: usize,
        name: Name,
        attributes: SectionFlags,
        messages: &mut U,
    ) -> Result<(), LinkFault>
        ensures { (tape map : OutputState) → Goes
            (outputs tape map (output_of U.Sink messages.old))
            (outputs tape map (output_of U.Sink messages.new))
            (different_writes (planned self.old.plan) module_index (Some (name, attributes.0))) self.new
            (with_count (different_writes (planned self.old.plan) module_index (Some (name, attributes.0))) self.old)
            result }
    {
        if self.has_first_attributes(name, attributes) {
            return Ok(());
        }
        let line = different_line(name, self.module_name(module_index));
        self.report(messages, &line)
    }

    // Whether these are the attributes of the section's first entry. True if the first pass found no entry of the section.
    fn has_first_attributes(&self, name: Name, attributes: SectionFlags) -> bool
        ensures { result ≡ attributes_agree ((planned self.now.plan).attributes name) attributes.0 }
    {
        match self.plan.attributes(name) {
            Some(first) => attributes.bits() == first.bits(),
            None => true,
        }
    }

    // The name of a module, from the first pass: the entry with the name may still follow in this pass.
    fn module_name(&self, module_index: usize) -> Name
        ensures { result ≡ (planned self.now.plan).module_name module_index }
    {
        self.plan.module_name(module_index)
    }

    // Stores the name of a global that an entry defines, or reports the entry if the global is already defined. A reference has no
    // message.
    fn report_symbol<U: Sink>(
        &mut self,
        module_index: usize,
        entry: &GsdEntry,
        messages: &mut U,
    ) -> Result<(), LinkFault>
        ensures { (tape map : OutputState) → Goes
            (outputs tape map (output_of U.Sink messages.old))
            (outputs tape map (output_of U.Sink messages.new))
            (symbol_writes (planned self.old.plan) module_index self.old.defined entry.now) self.new
            (with_symbol module_index entry.now self.old) result }
    {
        if !is_definition(entry) {
            return Ok(());
        }
        if !self.is_defined(entry.name) {
            return self.define(entry.name);
        }
        let line = multiple_line(entry.name, self.module_name(module_index));
        self.report(messages, &line)
    }

    // Whether a global is already defined.
    fn is_defined(&self, name: Name) -> bool
        ensures { result ≡ is_among self.now.defined name }
    {
        self.defined.contains(&name)
    }

    // Adds the name of a defined global. Fails if memory is refused.
    fn define(&mut self, name: Name) -> Result<(), LinkFault>
        ensures { EmitBecomes self.new (with_name name self.old) result }
    {
        self.defined.insert(name)?;
        Ok(())
    }

    // Writes a message and counts it, up to 4,294,967,295.
    fn report<U: Sink>(&mut self, messages: &mut U, line: &Line) -> Result<(), LinkFault>
        ensures { (tape map : OutputState) → Goes
            (outputs tape map (output_of U.Sink messages.old))
            (outputs tape map (output_of U.Sink messages.new))
            (to_messages line.now.items ∷ []) self.new (with_count (to_messages line.now.items ∷ []) self.old) result }
    {
        put_message::<U, LinkFault>(messages, line.as_slice())?;
        self.messages = self.messages.saturating_add(1);
        Ok(())
    }
}

// Whether an entry defines its symbol.
fn is_definition(entry: &GsdEntry) -> bool
    ensures { result ≡ defines entry.now }
{
    SymbolFlags::from_bits_retain(entry.flags).contains(SymbolFlags::DEFINED)
}
