//! The second pass of a link, which writes tape, map and messages block by block.

ghost use Rattle.std.specs.Prelude.{◌≡◌, ◌≢◌, ◌≤◌, ℕ, length, ◌∷◌, ◌++◌, [], List, Some, None, Ok, Err, IfOk, false, is_some, IfErr};
ghost use Rattle.std.specs.Result.{result_err};
ghost use Rattle.m11_obj_blocks.specs.Frames.{content_limit};
ghost use Rattle.m11_obj.specs.Contents.{unread_content, unread_directory};
ghost use Rattle.m11_obj.specs.Reading.{AreEntries, AreRelocations, IsRecord, checked, content_of, relocations_left, relocations_of};
ghost use Rattle.m11_obj_blocks.specs.Tapes.{tape_block};
ghost use Rattle.m11_link_modules.specs.Grammar.{directory_parts};
ghost use Rattle.m11_link_modules.specs.Parts.{Part, EndOfDirectory, EndOfFile, EndOfModule, Relocated, Relocations, Text};
ghost use Rattle.m11_link_modules.specs.Steps.{RulesAccept, AcceptsOne};
ghost use Rattle.m11_link_layout.specs.Plan.{PlanTables};
ghost use Rattle.m11_link_layout.specs.declared.fault.LinkFault.{LinkFault};
ghost use Rattle.m11_link.specs.Emit.{EmitEnds, EmitAfter, FailsAgain, Goes, HoldsLastText, AcceptsBlock, AcceptsParts, begin_writes, begun_reporting, call_of, directory_writes, held_with, held_with_all, held_writes, relocated_parts, with_directory, with_held, with_reporting, with_text};
ghost use Rattle.m11_link_text.specs.Findings.{planned};
ghost use Rattle.m11_base_writes.specs.States.{OutputState, optional_output, output_of};
ghost use Rattle.m11_link.specs.Outputs.{Finishes, Writes};
ghost use Rattle.m11_base_writes.specs.Outputs.{outputs, outputs_of, to_product};

use crate::held::ModuleSection;
use crate::reporting::Reporter;
use m11_base::{Latch, Sink};
use m11_base_writes::flush_files;
use m11_link_layout::{LinkFault, Plan};
use m11_link_modules::{ModuleFault, Rules, refuse};
use m11_obj::{
    Block, Contents, GsdEntry, RecordFault, Relocation, UnreadEntries, UnreadRelocations,
    read_contents,
};
use std::alloc::Global;
use std::marker::Model;

/// The result of a link that is completely written.
#[derive(Clone, Copy, PartialEq, Eq)]
pub struct LinkDone {
    /// The number of messages, counted up to 4,294,967,295.
    pub messages: u32,
}

/// The second pass. It checks the blocks again, and stores at most one text.
#[derive(Drop)]
pub struct Emit {
    rules: Rules,
    reporter: Reporter,
    has_begun: bool,
    fault: Latch<LinkFault>,
}

impl Model for Emit {
    ghost use Rattle.m11_link.specs.Emit.{EmitState};

    ghost Value = { EmitState };

    ghost view = { λ e. record { known = e.rules; reporting = e.reporter; has_begun = e.has_begun; fault = e.fault } };
}

impl Emit {
    /// A pass that has accepted no block and written nothing.
    pub fn new(alloc: Global, plan: Plan) -> Emit
        ensures stands { EmitAfter plan [] result }
        ensures fresh { result.has_begun ≡ false }
    {
        Emit {
            rules: Rules::new(alloc, plan.seed()),
            reporter: Reporter::new(alloc, plan),
            has_begun: false,
            fault: Latch::new(),
        }
    }

    /// Accepts one block: writes the messages about its entries and, if the block ends the pending text, that text.
    ///
    /// The first call that isn't refused, of any method, begins by writing the messages about undefined globals and the map. Errors:
    /// `Record`, if the block isn't a valid record; otherwise the first fault of its parts, in their order; in both cases nothing is
    /// written. `Write`, if an output failed, after which nothing is written. `NoMemory`, if memory is refused for a part, and neither
    /// that part nor one before it has a fault. After an error, every call returns it again and writes nothing.
    pub fn feed<S: Sink, T: Sink, U: Sink>(
        &mut self,
        block: &Block,
        tape: &mut S,
        map: &mut Option<T>,
        messages: &mut U,
    ) -> Result<(), LinkFault>
        ensures takes { (plan : PlanTables) (before : List Part) → EmitAfter plan before self.old
            → AcceptsBlock plan before (call_of
            (outputs_of S.Sink T.Sink U.Sink tape.old map.old messages.old)
            (outputs_of S.Sink T.Sink U.Sink tape.new map.new messages.new)
            self.old self.new) block.now.items result }
        ensures again { FailsAgain self.old self.new
            (outputs_of S.Sink T.Sink U.Sink tape.old map.old messages.old)
            (outputs_of S.Sink T.Sink U.Sink tape.new map.new messages.new) result }
        ensures is_record { IfOk result (λ _. IsRecord block.now.items) }
        ensures kept { self.new.fault ≡ result_err result }
        ensures stays { is_some map.new ≡ is_some map.old }
    {
        self.fault.check()?;
        let taken = self.accept_block(block, tape, map, messages);
        self.fault.keep(taken)
    }

    /// Accepts the end of an object. Allocates nothing and writes nothing to the tape, since no text is pending between modules.
    /// Errors: `BadOrder` inside a module; `Write`, if the map or the messages failed. After an error, that error is returned
    /// again, and nothing is written.
    pub fn end_file<S: Sink, T: Sink, U: Sink>(
        &mut self,
        tape: &mut S,
        map: &mut Option<T>,
        messages: &mut U,
    ) -> Result<(), LinkFault>
        ensures takes { (plan : PlanTables) (before : List Part) → EmitAfter plan before self.old
            → AcceptsParts plan before (call_of
            (outputs_of S.Sink T.Sink U.Sink tape.old map.old messages.old)
            (outputs_of S.Sink T.Sink U.Sink tape.new map.new messages.new)
            self.old self.new) (EndOfFile ∷ []) result }
        ensures again { FailsAgain self.old self.new
            (outputs_of S.Sink T.Sink U.Sink tape.old map.old messages.old)
            (outputs_of S.Sink T.Sink U.Sink tape.new map.new messages.new) result }
        ensures kept { self.new.fault ≡ result_err result }
        ensures stays { is_some map.new ≡ is_some map.old }
        ensures untouched { tape.new ≡ tape.old }
        ensures no_memory { self.old.fault ≡ None → IfErr result (λ fault. fault ≢ LinkFault.NoMemory) }
    {
        self.fault.check()?;
        let taken = self.accept_end(map, messages);
        self.fault.keep(taken)
    }

    /// Ends the second pass: writes the transfer block, and before it the front if it wasn't written yet; then flushes the tape and
    /// the map. Returns the number of messages.
    ///
    /// Errors: the error of an earlier call, or `BadOrder` inside a module, and then nothing is written; `Write`, if an output
    /// failed, perhaps when it was flushed; `NoMemory`, if memory is refused for the transfer block.
    pub fn end<S: Sink, T: Sink, U: Sink>(
        mut self,
        tape: &mut S,
        map: &mut Option<T>,
        messages: &mut U,
    ) -> Result<LinkDone, LinkFault>
        ensures ends { (plan : PlanTables) (before : List Part) → EmitAfter plan before self → EmitEnds plan before
            (outputs_of S.Sink T.Sink U.Sink tape.old map.old messages.old)
            (outputs_of S.Sink T.Sink U.Sink tape.new map.new messages.new)
            self result }
        ensures again { (fault : LinkFault) → self.fault ≡ Some fault → (result ≡ Err fault)
            × (outputs_of S.Sink T.Sink U.Sink tape.new map.new messages.new
            ≡ outputs_of S.Sink T.Sink U.Sink tape.old map.old messages.old) }
        ensures stays { is_some map.new ≡ is_some map.old }
    {
        let done = self.end_in_place(tape, map, messages);
        // proof: if the pass is dropped in place, this function alone takes minutes to prove
        drop(self);
        done
    }

    // Does the work of `end` through a reference, so that `end` can drop the pass in one call, whatever the result is.
    fn end_in_place<S: Sink, T: Sink, U: Sink>(
        &mut self,
        tape: &mut S,
        map: &mut Option<T>,
        messages: &mut U,
    ) -> Result<LinkDone, LinkFault>
        ensures ends { (plan : PlanTables) (before : List Part) → EmitAfter plan before self.old → EmitEnds plan before
            (outputs_of S.Sink T.Sink U.Sink tape.old map.old messages.old)
            (outputs_of S.Sink T.Sink U.Sink tape.new map.new messages.new)
            self.old result }
        ensures again { (fault : LinkFault) → self.old.fault ≡ Some fault → (result ≡ Err fault)
            × (outputs_of S.Sink T.Sink U.Sink tape.new map.new messages.new
            ≡ outputs_of S.Sink T.Sink U.Sink tape.old map.old messages.old) }
        ensures stays { is_some map.new ≡ is_some map.old }
    {
        self.fault.check()?;
        self.rules.end_of_file()?;
        self.write_last(tape, map, messages)
    }

    // Does the work of `feed`, which has checked that there was no earlier error.
    fn accept_block<S: Sink, T: Sink, U: Sink>(
        &mut self,
        block: &Block,
        tape: &mut S,
        map: &mut Option<T>,
        messages: &mut U,
    ) -> Result<(), LinkFault>
        ensures takes { (plan : PlanTables) (before : List Part) → EmitAfter plan before self.old
            → AcceptsBlock plan before (call_of
            (outputs_of S.Sink T.Sink U.Sink tape.old map.old messages.old)
            (outputs_of S.Sink T.Sink U.Sink tape.new map.new messages.new)
            self.old self.new) block.now.items result }
        ensures is_record { IfOk result (λ _. IsRecord block.now.items) }
        ensures kept { self.new.fault ≡ self.old.fault }
        ensures stays { is_some map.new ≡ is_some map.old }
    {
        match read_contents(block)? {
            Contents::Directory(unread) => self.accept_directory(&unread, tape, map, messages),
            Contents::EndOfDirectory => self.accept_end_of_directory(tape, map, messages),
            Contents::Text(address, bytes) => self.accept_text(address, bytes, tape, map, messages),
            Contents::Relocations(mut unread) => self.accept_relocations(
                &mut unread,
                map,
                messages,
            ),
            Contents::InternalSymbols => self.begin(map, messages),
            Contents::EndOfModule => self.accept_end_of_module(tape, map, messages),
        }
    }

    // Accepts a directory record from the bytes of its block. All entries are read before the first is checked, since a fault of
    // the record itself comes first.
    fn accept_directory<S: Sink, T: Sink, U: Sink>(
        &mut self,
        unread: &UnreadEntries<'_>,
        tape: &mut S,
        map: &mut Option<T>,
        messages: &mut U,
    ) -> Result<(), LinkFault>
        ensures takes { (plan : PlanTables) (before : List Part) (bytes : List ℕ)
            → EmitAfter plan before self.old → content_of bytes ≡ unread_directory unread.now
            → AcceptsBlock plan before (call_of
            (outputs_of S.Sink T.Sink U.Sink tape.old map.old messages.old)
            (outputs_of S.Sink T.Sink U.Sink tape.new map.new messages.new)
            self.old self.new) bytes result }
        ensures are { IfOk result (λ _. AreEntries unread.now) }
        ensures kept { self.new.fault ≡ self.old.fault }
        ensures stays { is_some map.new ≡ is_some map.old }
    {
        let entries = unread.read()?;
        self.accept_entries(entries.as_slice(), tape, map, messages)
    }

    // Accepts a directory record with these entries. All of them are checked before anything is written.
    fn accept_entries<S: Sink, T: Sink, U: Sink>(
        &mut self,
        entries: &[GsdEntry],
        tape: &mut S,
        map: &mut Option<T>,
        messages: &mut U,
    ) -> Result<(), LinkFault>
        ensures takes { (plan : PlanTables) (before : List Part) → EmitAfter plan before self.old
            → AcceptsParts plan before (call_of
            (outputs_of S.Sink T.Sink U.Sink tape.old map.old messages.old)
            (outputs_of S.Sink T.Sink U.Sink tape.new map.new messages.new)
            self.old self.new) (directory_parts entries.now) result }
        ensures kept { self.new.fault ≡ self.old.fault }
        ensures stays { is_some map.new ≡ is_some map.old }
    {
        let module_index = self.rules.modules();
        self.rules.directory(entries)?;
        self.write_directory(module_index, entries, tape, map, messages)
    }

    // Accepts the end of a directory, then writes the pending text, if there is one.
    fn accept_end_of_directory<S: Sink, T: Sink, U: Sink>(
        &mut self,
        tape: &mut S,
        map: &mut Option<T>,
        messages: &mut U,
    ) -> Result<(), LinkFault>
        ensures takes { (plan : PlanTables) (before : List Part) → EmitAfter plan before self.old
            → AcceptsParts plan before (call_of
            (outputs_of S.Sink T.Sink U.Sink tape.old map.old messages.old)
            (outputs_of S.Sink T.Sink U.Sink tape.new map.new messages.new)
            self.old self.new) (EndOfDirectory ∷ []) result }
        ensures kept { self.new.fault ≡ self.old.fault }
        ensures stays { is_some map.new ≡ is_some map.old }
    {
        self.rules.end_of_directory()?;
        self.write_held(tape, map, messages)
    }

    // Accepts a text, which becomes the pending one. It is checked before anything is written.
    fn accept_text<S: Sink, T: Sink, U: Sink>(
        &mut self,
        address: u16,
        bytes: &[u8],
        tape: &mut S,
        map: &mut Option<T>,
        messages: &mut U,
    ) -> Result<(), LinkFault>
        requires { length bytes.now ≤ content_limit }
        ensures takes { (plan : PlanTables) (before : List Part) → EmitAfter plan before self.old
            → AcceptsParts plan before (call_of
            (outputs_of S.Sink T.Sink U.Sink tape.old map.old messages.old)
            (outputs_of S.Sink T.Sink U.Sink tape.new map.new messages.new)
            self.old self.new) (Text address bytes.now ∷ []) result }
        ensures kept { self.new.fault ≡ self.old.fault }
        ensures stays { is_some map.new ≡ is_some map.old }
    {
        let location = self.location();
        self.rules.text(address, bytes)?;
        self.write_text(location, address, bytes, tape, map, messages)
    }

    // Accepts the end of a module, then writes the pending text, if there is one.
    fn accept_end_of_module<S: Sink, T: Sink, U: Sink>(
        &mut self,
        tape: &mut S,
        map: &mut Option<T>,
        messages: &mut U,
    ) -> Result<(), LinkFault>
        ensures takes { (plan : PlanTables) (before : List Part) → EmitAfter plan before self.old
            → AcceptsParts plan before (call_of
            (outputs_of S.Sink T.Sink U.Sink tape.old map.old messages.old)
            (outputs_of S.Sink T.Sink U.Sink tape.new map.new messages.new)
            self.old self.new) (EndOfModule ∷ []) result }
        ensures kept { self.new.fault ≡ self.old.fault }
        ensures stays { is_some map.new ≡ is_some map.old }
    {
        self.rules.end_of_module()?;
        self.write_held(tape, map, messages)
    }

    // Accepts a relocation record from the bytes of its block. Each relocation's value is stored as soon as it is checked, since
    // the text that it changes is still pending. All relocations are checked before anything is written.
    fn accept_relocations<T: Sink, U: Sink>(
        &mut self,
        unread: &mut UnreadRelocations<'_>,
        map: &mut Option<T>,
        messages: &mut U,
    ) -> Result<(), LinkFault>
        ensures takes { (tape : OutputState) (plan : PlanTables) (before : List Part) (bytes : List ℕ)
            → EmitAfter plan before self.old → content_of bytes ≡ unread_content unread.old
            → AcceptsBlock plan before (call_of
            (outputs tape (optional_output T.Sink map.old) (output_of U.Sink messages.old))
            (outputs tape (optional_output T.Sink map.new) (output_of U.Sink messages.new))
            self.old self.new) bytes result }
        ensures are { IfOk result (λ _. AreRelocations unread.old) }
        ensures kept { self.new.fault ≡ self.old.fault }
        ensures stays { is_some map.new ≡ is_some map.old }
    {
        self.store_relocations(unread)??;
        self.begin(map, messages)
    }

    // Checks that a relocation record may come here, then reads and checks its relocations, and stores their values. The outer
    // error is a fault of the record itself, which takes precedence; the inner error is the first fault of a part.
    #[tactic(auto, using(m11_link_modules::proofs::Taking::accepted_then, m11_link_modules::proofs::Taking::refused_first))]
    fn store_relocations(
        &mut self,
        unread: &mut UnreadRelocations<'_>,
    ) -> Result<Result<(), ModuleFault>, RecordFault>
        ensures read { checked result ≡ checked (relocations_of unread.old) }
        ensures judged { IfOk result (λ judged. RulesAccept self.old.known self.new.known
            (Relocations ∷ relocated_parts (relocations_left unread.old)) judged) }
        ensures stored { IfOk result (λ judged. IfOk judged (λ _. HoldsLastText self.old → self.new.reporting
            ≡ with_held (held_with_all (planned self.old.reporting.plan) self.old.reporting.held
            (relocations_left unread.old)) self.old.reporting)) }
        ensures begun { self.new.has_begun ≡ self.old.has_begun }
        ensures kept { self.new.fault ≡ self.old.fault }
    {
        match self.rules.begin_relocations() {
            Ok(()) => self.store_each_relocation(unread),
            Err(fault) => refuse(unread, fault),
        }
    }

    // Reads the relocations of a record one by one, checks each and stores its value, up to the first fault. After the fault of a
    // part the remaining relocations are still read. The outer and the inner error are those of `store_relocations`.
    fn store_each_relocation(
        &mut self,
        unread: &mut UnreadRelocations<'_>,
    ) -> Result<Result<(), ModuleFault>, RecordFault>
        ensures read { checked result ≡ checked (relocations_of unread.old) }
        ensures judged { IfOk result (λ judged. RulesAccept self.old.known self.new.known
            (relocated_parts (relocations_left unread.old)) judged) }
        ensures stored { IfOk result (λ judged. IfOk judged (λ _. HoldsLastText self.old → self.new.reporting
            ≡ with_held (held_with_all (planned self.old.reporting.plan) self.old.reporting.held
            (relocations_left unread.old)) self.old.reporting)) }
        ensures begun { self.new.has_begun ≡ self.old.has_begun }
        ensures kept { self.new.fault ≡ self.old.fault }
    {
        'relocations: loop {
            match unread.read_next() {
                Ok(Some(relocation)) => match self.store_relocation(relocation) {
                    Ok(()) => {}
                    Err(fault) => return refuse(unread, fault),
                },
                Ok(None) => return Ok(Ok(())),
                Err(fault) => return Err(fault),
            }
        }
    }

    // Checks a relocation, and stores its value in the pending text. A relocation that only selects a location stores nothing.
    #[tactic(auto, unfolding(m11_link_modules::specs::Steps::AcceptsOne))]
    fn store_relocation(&mut self, relocation: Relocation) -> Result<(), ModuleFault>
        ensures judged { AcceptsOne self.old.known self.new.known (Relocated relocation) result }
        ensures stored { IfOk result (λ _. HoldsLastText self.old → self.new.reporting ≡ with_held
            (held_with (planned self.old.reporting.plan) self.old.reporting.held relocation) self.old.reporting) }
        ensures begun { self.new.has_begun ≡ self.old.has_begun }
        ensures kept { self.new.fault ≡ self.old.fault }
    {
        if let Some(stored) = self.rules.relocation(relocation)? {
            self.reporter.relocate(&stored);
        }
        Ok(())
    }

    // Returns the index of the current or next module, and the section that its texts go to.
    fn location(&self) -> ModuleSection
        ensures { result ≡ record { module_index = self.now.known.modules; section = self.now.known.section } }
    {
        ModuleSection {
            module_index: self.rules.modules(),
            section: self.rules.section(),
        }
    }

    // Writes the messages about the entries of a directory record in the module with this index; before them, the front if it
    // wasn't written yet, and the pending text.
    fn write_directory<S: Sink, T: Sink, U: Sink>(
        &mut self,
        module_index: usize,
        entries: &[GsdEntry],
        tape: &mut S,
        map: &mut Option<T>,
        messages: &mut U,
    ) -> Result<(), LinkFault>
        ensures writes { Goes
            (outputs_of S.Sink T.Sink U.Sink tape.old map.old messages.old)
            (outputs_of S.Sink T.Sink U.Sink tape.new map.new messages.new)
            (begin_writes self.old ++ directory_writes module_index entries.now (begun_reporting self.old)) self.new
            (with_reporting (with_directory module_index entries.now (begun_reporting self.old)) self.old) result }
        ensures kept { self.new.fault ≡ self.old.fault }
        ensures stays { is_some map.new ≡ is_some map.old }
    {
        self.begin(map, messages)?;
        self.reporter
            .report_directory(module_index, entries, tape, messages)
    }

    // Writes the pending text, if there is one; before it, the front if it wasn't written yet.
    fn write_held<S: Sink, T: Sink, U: Sink>(
        &mut self,
        tape: &mut S,
        map: &mut Option<T>,
        messages: &mut U,
    ) -> Result<(), LinkFault>
        ensures writes { Goes
            (outputs_of S.Sink T.Sink U.Sink tape.old map.old messages.old)
            (outputs_of S.Sink T.Sink U.Sink tape.new map.new messages.new)
            (begin_writes self.old ++ held_writes (begun_reporting self.old).held) self.new
            (with_reporting (with_held None (begun_reporting self.old)) self.old) result }
        ensures kept { self.new.fault ≡ self.old.fault }
        ensures stays { is_some map.new ≡ is_some map.old }
    {
        self.begin(map, messages)?;
        self.reporter.end_text(tape)
    }

    // Writes the text that was pending, if there was one, and before it the front if it wasn't written yet. Then makes this text
    // pending.
    fn write_text<S: Sink, T: Sink, U: Sink>(
        &mut self,
        location: ModuleSection,
        address: u16,
        bytes: &[u8],
        tape: &mut S,
        map: &mut Option<T>,
        messages: &mut U,
    ) -> Result<(), LinkFault>
        requires { length bytes.now ≤ content_limit }
        ensures writes { Goes
            (outputs_of S.Sink T.Sink U.Sink tape.old map.old messages.old)
            (outputs_of S.Sink T.Sink U.Sink tape.new map.new messages.new)
            (begin_writes self.old ++ held_writes (begun_reporting self.old).held) self.new
            (with_reporting (with_text location.module_index location.section address bytes.now
            (begun_reporting self.old)) self.old) result }
        ensures kept { self.new.fault ≡ self.old.fault }
        ensures stays { is_some map.new ≡ is_some map.old }
    {
        self.begin(map, messages)?;
        self.reporter.hold_text(location, address, bytes, tape)
    }

    // Does the work of `end_file`, which has checked that there was no earlier error. No text is pending after a whole module.
    fn accept_end<T: Sink, U: Sink>(
        &mut self,
        map: &mut Option<T>,
        messages: &mut U,
    ) -> Result<(), LinkFault>
        ensures takes { (tape : OutputState) (plan : PlanTables) (before : List Part) → EmitAfter plan before self.old
            → AcceptsParts plan before (call_of
            (outputs tape (optional_output T.Sink map.old) (output_of U.Sink messages.old))
            (outputs tape (optional_output T.Sink map.new) (output_of U.Sink messages.new))
            self.old self.new) (EndOfFile ∷ []) result }
        ensures kept { self.new.fault ≡ self.old.fault }
        ensures stays { is_some map.new ≡ is_some map.old }
        ensures no_memory { IfErr result (λ fault. fault ≢ LinkFault.NoMemory) }
    {
        self.rules.end_of_file()?;
        self.begin(map, messages)
    }

    // Writes the transfer block, and before it the front if it wasn't written yet, then flushes the tape and the map. Returns the
    // number of messages.
    fn write_last<S: Sink, T: Sink, U: Sink>(
        &mut self,
        tape: &mut S,
        map: &mut Option<T>,
        messages: &mut U,
    ) -> Result<LinkDone, LinkFault>
        ensures finishes { Finishes
            (outputs_of S.Sink T.Sink U.Sink tape.old map.old messages.old)
            (outputs_of S.Sink T.Sink U.Sink tape.new map.new messages.new)
            (begin_writes self.old ++ to_product (tape_block (planned (begun_reporting self.old).plan).transfer []) ∷ [])
            result }
        ensures count { IfOk result (λ done. done.messages ≡ (begun_reporting self.old).messages) }
        ensures stays { is_some map.new ≡ is_some map.old }
    {
        let done = self.write_transfer(tape, map, messages)?;
        flush_files::<S, T, LinkFault>(tape, map)?;
        Ok(done)
    }

    // Writes the transfer block, and before it the front if it wasn't written yet. Returns the number of messages.
    fn write_transfer<S: Sink, T: Sink, U: Sink>(
        &mut self,
        tape: &mut S,
        map: &mut Option<T>,
        messages: &mut U,
    ) -> Result<LinkDone, LinkFault>
        ensures writes { Writes
            (outputs_of S.Sink T.Sink U.Sink tape.old map.old messages.old)
            (outputs_of S.Sink T.Sink U.Sink tape.new map.new messages.new)
            (begin_writes self.old ++ to_product (tape_block (planned (begun_reporting self.old).plan).transfer []) ∷ [])
            result }
        ensures count { IfOk result (λ done. done.messages ≡ (begun_reporting self.old).messages) }
        ensures stays { is_some map.new ≡ is_some map.old }
    {
        self.begin(map, messages)?;
        self.reporter.put_transfer(tape)?;
        Ok(LinkDone {
            messages: self.reporter.messages(),
        })
    }

    // Writes the front, namely the messages about undefined globals and the map, if it wasn't written yet. Only calls that aren't
    // refused do this, so a second pass that is refused at once leaves the outputs unchanged.
    fn begin<T: Sink, U: Sink>(
        &mut self,
        map: &mut Option<T>,
        messages: &mut U,
    ) -> Result<(), LinkFault>
        ensures writes { (tape : OutputState) → Goes
            (outputs tape (optional_output T.Sink map.old) (output_of U.Sink messages.old))
            (outputs tape (optional_output T.Sink map.new) (output_of U.Sink messages.new))
            (begin_writes self.old) self.new (with_reporting (begun_reporting self.old) self.old) result }
        ensures kept { self.new.fault ≡ self.old.fault }
        ensures stays { is_some map.new ≡ is_some map.old }
        ensures no_memory { IfErr result (λ fault. fault ≢ LinkFault.NoMemory) }
    {
        if self.has_begun {
            return Ok(());
        }
        self.reporter.begin(map, messages)?;
        self.has_begun = true;
        Ok(())
    }
}
