//! The first pass of a link, which collects the contents of records one after another.

ghost use Rattle.std.specs.Prelude.{◌≡◌, ◌∷◌, [], ℕ, List, Some, None, Ok, Err, IfErr, IfOk, map};
ghost use Rattle.std.specs.Result.{result_err};
ghost use Rattle.m11_obj.specs.Contents.{unread_content, unread_directory};
ghost use Rattle.m11_obj.specs.Reading.{AreEntries, AreRelocations, IsRecord, checked, content_of, relocations_left, relocations_of};
ghost use Rattle.m11_link_modules.specs.Grammar.{directory_parts};
ghost use Rattle.m11_link_modules.specs.Parts.{Part, EndOfDirectory, EndOfFile, EndOfModule, Relocated, Relocations, Text};
ghost use Rattle.m11_link_modules.specs.Positions.{global_of};
ghost use Rattle.m11_link_modules.specs.Steps.{RulesAccept, AcceptsOne};
ghost use Rattle.m11_link_layout.specs.Tables.{collected_after_all, with_relocated};
ghost use Rattle.m11_link_layout.specs.Plan.{LayoutEnds};
ghost use Rattle.m11_link_layout.specs.declared.fault.LinkFault.{LinkFault};
ghost use Rattle.m11_link_layout.specs.Layout.{FailsAgain, LayoutAfter, AcceptsBlock, AcceptsParts};

use crate::fault::LinkFault;
use crate::plan::{Plan, plan_of};
use crate::tables::Tables;
use m11_base::{Latch, Seed};
use m11_link_modules::{ModuleFault, Rules, refuse};
use m11_obj::{
    Block, Contents, GsdEntry, RecordFault, Relocation, UnreadEntries, UnreadRelocations,
    read_contents,
};
use std::alloc::Global;
use std::marker::Model;

/// The first pass: the modules, sections, globals and transfer addresses in all blocks so far, or the fault that was returned.
/// Texts aren't stored.
#[derive(Drop)]
pub struct Layout {
    alloc: Global,
    rules: Rules,
    tables: Tables,
    bottom: u16,
    fault: Latch<LinkFault>,
}

impl Model for Layout {
    ghost use Rattle.m11_link_layout.specs.Layout.{LayoutState};

    ghost Value = { LayoutState };

    ghost view = { λ l. record { known = l.rules; gathered = l.tables; bottom = l.bottom; fault = l.fault } };
}

impl Layout {
    /// A layout that has accepted no block. Relocatable sections will begin at `bottom`, which may be any address.
    pub fn new(alloc: Global, bottom: u16) -> Layout
        ensures { LayoutAfter bottom [] result }
    {
        Layout::with_seed(alloc, Seed::fixed(), bottom)
    }

    /// The same as `new`, with this seed for all hash maps of both passes.
    pub fn with_seed(alloc: Global, seed: Seed, bottom: u16) -> Layout
        ensures { LayoutAfter bottom [] result }
    {
        Layout {
            alloc,
            rules: Rules::new(alloc, seed),
            tables: Tables::new(alloc, seed),
            bottom,
            fault: Latch::new(),
        }
    }

    /// Accepts one block.
    ///
    /// Errors: `Record`, if the block isn't a valid record; otherwise the first fault of its parts, in their order; `NoMemory`, if
    /// memory is refused for a part, and neither that part nor one before it has a fault. After an error, every call returns it
    /// again.
    pub fn block(&mut self, block: &Block) -> Result<(), LinkFault>
        ensures takes { (bottom : ℕ) (before : List Part) → LayoutAfter bottom before self.old
            → AcceptsBlock bottom before self.new block.now.items result }
        ensures is_record { IfOk result (λ _. IsRecord block.now.items) }
        ensures again { FailsAgain self.old self.new result }
        ensures kept { self.new.fault ≡ result_err result }
    {
        self.fault.check()?;
        let taken = self.accept_block(block);
        self.fault.keep(taken)
    }

    /// Accepts the end of an object. The only new error is `BadOrder`, inside a module. After an error, every call returns it
    /// again.
    pub fn end_file(&mut self) -> Result<(), LinkFault>
        ensures takes { (bottom : ℕ) (before : List Part) → LayoutAfter bottom before self.old
            → AcceptsParts bottom before self.new (EndOfFile ∷ []) result }
        ensures inside { self.old.fault ≡ None → IfErr result (λ fault. fault ≡ LinkFault.BadOrder) }
        ensures again { FailsAgain self.old self.new result }
        ensures kept { self.new.fault ≡ result_err result }
    {
        self.fault.check()?;
        let taken = self.accept_end();
        self.fault.keep(taken)
    }

    /// Ends the first pass, and returns its results as a plan for the second.
    ///
    /// Errors, in this order: an earlier one; `BadOrder` inside a module; `TooLarge`, if a relocatable section ends past octal
    /// 160000. `NoMemory`, if memory is refused for a section and neither that section nor one before it ends past octal 160000, or
    /// if memory is refused for the lists of bases and values.
    pub fn end(self) -> Result<Plan, LinkFault>
        ensures ends { (bottom : ℕ) (before : List Part) → LayoutAfter bottom before self → LayoutEnds bottom before result }
        ensures again { (fault : LinkFault) → self.fault ≡ Some fault → result ≡ Err fault }
    {
        let mut layout = self;
        match layout.end_in_place() {
            Ok(()) => {
                // proof: if the rules are dropped in place, this function alone takes minutes to prove
                drop(layout.rules);
                plan_of(layout.alloc, layout.bottom, layout.tables)
            }
            Err(fault) => {
                drop(layout);
                Err(fault)
            }
        }
    }

    // Accepts the end of the last object, or returns an earlier fault, or `BadOrder` inside a module.
    fn end_in_place(&mut self) -> Result<(), LinkFault>
        ensures takes { (bottom : ℕ) (before : List Part) → LayoutAfter bottom before self.old
            → AcceptsParts bottom before self.new (EndOfFile ∷ []) result }
        ensures inside { self.old.fault ≡ None → IfErr result (λ fault. fault ≡ LinkFault.BadOrder) }
        ensures again { (fault : LinkFault) → self.old.fault ≡ Some fault → result ≡ Err fault }
    {
        self.fault.check()?;
        self.accept_end()
    }

    // Accepts the end of an object. The caller has checked that there was no earlier error.
    fn accept_end(&mut self) -> Result<(), LinkFault>
        ensures takes { (bottom : ℕ) (before : List Part) → LayoutAfter bottom before self.old
            → AcceptsParts bottom before self.new (EndOfFile ∷ []) result }
        ensures inside { IfErr result (λ fault. fault ≡ LinkFault.BadOrder) }
        ensures kept { self.new.fault ≡ self.old.fault }
    {
        self.rules.end_of_file()?;
        Ok(())
    }

    // Accepts one block. The caller has checked that there was no earlier error.
    fn accept_block(&mut self, block: &Block) -> Result<(), LinkFault>
        ensures takes { (bottom : ℕ) (before : List Part) → LayoutAfter bottom before self.old
            → AcceptsBlock bottom before self.new block.now.items result }
        ensures is_record { IfOk result (λ _. IsRecord block.now.items) }
        ensures kept { self.new.fault ≡ self.old.fault }
    {
        match read_contents(block)? {
            Contents::Directory(unread) => self.accept_directory(&unread),
            Contents::EndOfDirectory => self.accept_end_of_directory(),
            Contents::Text(address, bytes) => self.accept_text(address, bytes),
            Contents::Relocations(mut unread) => self.accept_relocations(&mut unread),
            Contents::InternalSymbols => Ok(()),
            Contents::EndOfModule => self.accept_end_of_module(),
        }
    }

    // Accepts a directory record from the bytes of its block. All entries are read before the first is checked, since a fault of
    // the record itself comes first.
    fn accept_directory(&mut self, unread: &UnreadEntries<'_>) -> Result<(), LinkFault>
        ensures takes { (bottom : ℕ) (before : List Part) (bytes : List ℕ) → LayoutAfter bottom before self.old
            → content_of bytes ≡ unread_directory unread.now → AcceptsBlock bottom before self.new bytes result }
        ensures are { IfOk result (λ _. AreEntries unread.now) }
        ensures kept { self.new.fault ≡ self.old.fault }
    {
        let entries = unread.read()?;
        self.accept_entries(entries.as_slice())
    }

    // Checks the entries of a directory record, and then stores them.
    fn accept_entries(&mut self, entries: &[GsdEntry]) -> Result<(), LinkFault>
        ensures takes { (bottom : ℕ) (before : List Part) → LayoutAfter bottom before self.old
            → AcceptsParts bottom before self.new (directory_parts entries.now) result }
        ensures kept { self.new.fault ≡ self.old.fault }
    {
        self.rules.directory(entries)?;
        self.tables.add_entries(self.bottom, entries)?;
        Ok(())
    }

    // Accepts the end of a directory, which adds nothing to the tables.
    fn accept_end_of_directory(&mut self) -> Result<(), LinkFault>
        ensures takes { (bottom : ℕ) (before : List Part) → LayoutAfter bottom before self.old
            → AcceptsParts bottom before self.new (EndOfDirectory ∷ []) result }
        ensures kept { self.new.fault ≡ self.old.fault }
    {
        self.rules.end_of_directory()?;
        Ok(())
    }

    // Accepts a text, which adds nothing to the tables.
    fn accept_text(&mut self, address: u16, bytes: &[u8]) -> Result<(), LinkFault>
        ensures takes { (bottom : ℕ) (before : List Part) → LayoutAfter bottom before self.old
            → AcceptsParts bottom before self.new (Text address bytes.now ∷ []) result }
        ensures kept { self.new.fault ≡ self.old.fault }
    {
        self.rules.text(address, bytes)?;
        Ok(())
    }

    // Checks the end of a module, then stores the module's name and settles the transfer address.
    fn accept_end_of_module(&mut self) -> Result<(), LinkFault>
        ensures takes { (bottom : ℕ) (before : List Part) → LayoutAfter bottom before self.old
            → AcceptsParts bottom before self.new (EndOfModule ∷ []) result }
        ensures kept { self.new.fault ≡ self.old.fault }
    {
        self.rules.end_of_module()?;
        self.tables.end_module()?;
        Ok(())
    }

    // Accepts a relocation record from the bytes of its block. A fault of the record itself comes before those of its parts.
    fn accept_relocations(&mut self, unread: &mut UnreadRelocations<'_>) -> Result<(), LinkFault>
        ensures takes { (bottom : ℕ) (before : List Part) (bytes : List ℕ) → LayoutAfter bottom before self.old
            → content_of bytes ≡ unread_content unread.old → AcceptsBlock bottom before self.new bytes result }
        ensures are { IfOk result (λ _. AreRelocations unread.old) }
        ensures kept { self.new.fault ≡ self.old.fault }
    {
        self.add_relocations(unread)??;
        Ok(())
    }

    // Checks that a relocation record may come here, then reads and checks its relocations, and stores their references to globals.
    // The outer error is a fault of the record itself, which takes precedence; the inner error is the first fault of a part.
    #[tactic(auto, using(m11_link_modules::proofs::Taking::accepted_then, m11_link_modules::proofs::Taking::refused_first), unfolding(crate::specs::Tables::collected_after))]
    fn add_relocations(
        &mut self,
        unread: &mut UnreadRelocations<'_>,
    ) -> Result<Result<(), ModuleFault>, RecordFault>
        ensures read { checked result ≡ checked (relocations_of unread.old) }
        ensures judged { IfOk result (λ judged. RulesAccept self.old.known self.new.known
            (Relocations ∷ map (λ relocation. Relocated relocation) (relocations_left unread.old)) judged) }
        ensures noted { IfOk result (λ judged. IfOk judged (λ _. self.new.gathered
            ≡ collected_after_all self.old.bottom self.old.gathered
            (Relocations ∷ map (λ relocation. Relocated relocation) (relocations_left unread.old)))) }
        ensures bottom { self.new.bottom ≡ self.old.bottom }
        ensures kept { self.new.fault ≡ self.old.fault }
    {
        match self.rules.begin_relocations() {
            Ok(()) => self.add_each_relocation(unread),
            Err(fault) => refuse(unread, fault),
        }
    }

    // Reads the relocations of a record one by one, checks each and stores its reference to a global, up to the first fault. After
    // the fault of a part the remaining relocations are still read. The outer and the inner error are those of `add_relocations`.
    fn add_each_relocation(
        &mut self,
        unread: &mut UnreadRelocations<'_>,
    ) -> Result<Result<(), ModuleFault>, RecordFault>
        ensures read { checked result ≡ checked (relocations_of unread.old) }
        ensures judged { IfOk result (λ judged. RulesAccept self.old.known self.new.known
            (map (λ relocation. Relocated relocation) (relocations_left unread.old)) judged) }
        ensures noted { IfOk result (λ judged. IfOk judged (λ _. self.new.gathered
            ≡ collected_after_all self.old.bottom self.old.gathered
            (map (λ relocation. Relocated relocation) (relocations_left unread.old)))) }
        ensures bottom { self.new.bottom ≡ self.old.bottom }
        ensures kept { self.new.fault ≡ self.old.fault }
    {
        'relocations: loop {
            match unread.read_next() {
                Ok(Some(relocation)) => match self.add_relocation(relocation) {
                    Ok(()) => {}
                    Err(fault) => return refuse(unread, fault),
                },
                Ok(None) => return Ok(Ok(())),
                Err(fault) => return Err(fault),
            }
        }
    }

    // Checks a relocation, and stores its reference to a global, if it has one.
    #[tactic(auto, unfolding(m11_link_modules::specs::Steps::AcceptsOne))]
    fn add_relocation(&mut self, relocation: Relocation) -> Result<(), ModuleFault>
        ensures judged { AcceptsOne self.old.known self.new.known (Relocated relocation) result }
        ensures noted { IfOk result (λ _. self.new.gathered ≡ with_relocated (global_of relocation.target) self.old.gathered) }
        ensures bottom { self.new.bottom ≡ self.old.bottom }
        ensures kept { self.new.fault ≡ self.old.fault }
    {
        let target = relocation.target;
        self.rules.relocation(relocation)?;
        self.tables.add_target(target)?;
        Ok(())
    }
}
