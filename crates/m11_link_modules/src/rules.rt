//! The rules that records must follow to be modules, with the state that the rules carry from record to record.

ghost use Rattle.std.specs.Prelude.{◌≡◌, ◌∷◌, [], List, Result, Ok, Err, IfErr, IfOk, is_some, map, true};
ghost use Rattle.m11_base.specs.Names.{absolute_name};
ghost use Rattle.m11_obj.specs.Reading.{record_entries, record_relocations};
ghost use Rattle.m11_link_modules.specs.Laws.{AcceptsAfter};
ghost use Rattle.m11_link_modules.specs.Parts.{Part, Directory, Entry, EndOfDirectory, Text, Relocations, Relocated, EndOfModule, EndOfFile, record_parts};
ghost use Rattle.m11_link_modules.specs.Positions.{adds_name, global_of, known_of};
ghost use Rattle.m11_link_modules.specs.Rules.{outcome_of};
ghost use Rattle.m11_link_modules.specs.Steps.{Notes, RulesAccept, AcceptsOne, with_section, with_global, with_entry, with_target};
ghost use Rattle.m11_link_modules.specs.TextRelocation.{stored_in};

use crate::checks::{check_begin, check_entry, check_relocation, check_text};
use crate::entered::EnteredSections;
use crate::fault::ModuleFault;
use crate::stage::Stage;
use crate::text_relocation::TextRelocation;
use m11_base::{Name, Seed, SeededSet, absolute_section};
use m11_obj::{GsdEntry, GsdKind, Record, RecordKind, Relocation, Target};
use std::alloc::Global;
use std::marker::Model;

/// What is known of the records so far: enough to judge the next one. No text is stored.
#[derive(Drop)]
pub struct Rules {
    stage: Stage,
    modules: usize,
    sections: SeededSet<Name>,
    globals: SeededSet<Name>,
    entered: EnteredSections,
    section: Name,
    text: Option<u16>,
}

impl Model for Rules {
    ghost use Rattle.m11_link_modules.specs.Positions.{RulesState};
    ghost use Rattle.m11_link_modules.specs.Rules.{InLimits};

    ghost Value = { RulesState };

    ghost view = { λ r. record {
      stage = r.stage;
      modules = r.modules;
      sections = r.sections.keys;
      globals = r.globals.keys;
      entered = r.entered;
      section = r.section;
      text = r.text;
    } };

    ghost invariant = { λ r. InLimits r.stage r.modules };
}

impl Rules {
    /// The rules before the first record. `seed` is the seed of the hash tables.
    #[tactic(auto, unfolding(crate::specs::Positions::known_of, crate::specs::Positions::stage_after, crate::specs::Positions::modules_in, crate::specs::Positions::section_names, crate::specs::Positions::global_names, crate::specs::Positions::distinct, crate::specs::Positions::sections_in, crate::specs::Positions::this_module, crate::specs::Positions::current_section, crate::specs::Positions::text_length))]
    pub fn new(alloc: Global, seed: Seed) -> Rules
        ensures { result ≡ known_of [] }
    {
        Rules {
            stage: Stage::Between,
            modules: 0,
            sections: SeededSet::with_hasher(alloc, seed),
            globals: SeededSet::with_hasher(alloc, seed),
            entered: EnteredSections::new(alloc, seed),
            section: absolute_section(),
            text: None,
        }
    }

    /// Forgets all records: the rules are again those before the first one, even if there was a fault.
    #[tactic(auto, unfolding(crate::specs::Positions::known_of, crate::specs::Positions::stage_after, crate::specs::Positions::modules_in, crate::specs::Positions::section_names, crate::specs::Positions::global_names, crate::specs::Positions::distinct, crate::specs::Positions::sections_in, crate::specs::Positions::this_module, crate::specs::Positions::current_section, crate::specs::Positions::text_length))]
    pub fn forget(&mut self)
        ensures { self.new ≡ known_of [] }
    {
        self.leave_module();
        self.modules = 0;
        self.sections.clear();
        self.globals.clear();
    }

    /// The number of modules that have ended, which is the index of the current or next module.
    pub fn modules(&self) -> usize
        ensures { result ≡ self.now.modules }
    {
        self.modules
    }

    /// The section that texts go to: the one selected last in this module, or `. ABS.` if none was.
    pub fn section(&self) -> Name
        ensures { result ≡ self.now.section }
    {
        self.section
    }

    /// Accepts one record.
    ///
    /// Faults: the first in the order of the record's parts; within a part, in this order: `BadOrder`, `NoText`, `BadDisplacement`,
    /// `UnknownSection`, `TextOutside`, then a limit. `NoMemory` if memory is refused for a name, and neither the name's part nor a
    /// part before it has a fault. After a fault nothing is known of the rules until `forget` is called.
    #[tactic(auto, using(crate::proofs::KnownAfter::accepted_after))]
    pub fn record(&mut self, record: &Record<'_>) -> Result<(), ModuleFault>
        ensures { (before : List Part) → self.old ≡ known_of before
            → AcceptsAfter before self.new (record_parts «record».now) result }
    {
        self.accept_record(record)
    }

    /// Accepts the end of a file. `BadOrder` inside a module is its only fault.
    #[tactic(auto, using(crate::proofs::KnownAfter::accepted_after, crate::proofs::Taking::accepted_one))]
    pub fn end_of_file(&mut self) -> Result<(), ModuleFault>
        ensures takes { (before : List Part) → self.old ≡ known_of before
            → AcceptsAfter before self.new (EndOfFile ∷ []) result }
        ensures inside { IfErr result (λ fault. fault ≡ ModuleFault.BadOrder) }
    {
        self.accept_end_of_file()
    }

    // Accepts one record, or returns the first fault of its parts, or `NoMemory`.
    #[tactic(auto, using(crate::proofs::Taking::accepted_one, crate::proofs::Taking::none_taken))]
    fn accept_record(&mut self, record: &Record<'_>) -> Result<(), ModuleFault>
        ensures { RulesAccept self.old self.new (record_parts «record».now) result }
    {
        match record.kind() {
            RecordKind::Gsd => self.directory_record(record),
            RecordKind::EndOfGsd => self.end_of_directory(),
            RecordKind::Text => self.text(record.text_address(), record.text_bytes()),
            RecordKind::Relocations => self.relocations(record),
            RecordKind::InternalSymbols => Ok(()),
            RecordKind::EndOfModule => self.end_of_module(),
        }
    }

    // Accepts the end of a file between modules. `BadOrder` inside a module.
    #[tactic(auto, unfolding(crate::specs::Steps::AcceptsOne, crate::specs::Steps::known_after, crate::specs::Rules::fault_known))]
    fn accept_end_of_file(&mut self) -> Result<(), ModuleFault>
        ensures takes { AcceptsOne self.old self.new EndOfFile result }
        ensures inside { IfErr result (λ fault. fault ≡ ModuleFault.BadOrder) }
    {
        match self.stage {
            Stage::Between => Ok(()),
            _ => Err(ModuleFault::BadOrder),
        }
    }

    // Accepts the beginning of a directory record. Between modules it begins a module. Faults: `BadOrder` in the body of a module,
    // then `TooManyModules`.
    #[tactic(auto, unfolding(crate::specs::Steps::AcceptsOne, crate::specs::Steps::known_after, crate::specs::Rules::fault_known))]
    fn begin_directory(&mut self) -> Result<(), ModuleFault>
        ensures { AcceptsOne self.old self.new Directory result }
    {
        check_begin(self.stage, self.modules)?;
        self.stage = Stage::InDirectory;
        Ok(())
    }

    /// Accepts the end of a directory. This call does what `record` does for such a record.
    ///
    /// Faults: `BadOrder` in the body of a module, then `TooManyModules` if it would begin the 33rd module.
    #[tactic(auto, unfolding(crate::specs::Steps::AcceptsOne, crate::specs::Steps::known_after, crate::specs::Rules::fault_known))]
    pub fn end_of_directory(&mut self) -> Result<(), ModuleFault>
        ensures { AcceptsOne self.old self.new EndOfDirectory result }
    {
        check_begin(self.stage, self.modules)?;
        self.stage = Stage::InBody;
        Ok(())
    }

    /// Accepts a text, whose address is an offset in bytes in the section that texts go to. This call does what `record` does for a
    /// text record. It is for a caller that has already read the record.
    ///
    /// Faults: `BadOrder` outside the body of a module, then `TextOutside`.
    #[tactic(auto, unfolding(crate::specs::Steps::AcceptsOne, crate::specs::Steps::known_after, crate::specs::Rules::fault_known))]
    pub fn text(&mut self, address: u16, bytes: &[u8]) -> Result<(), ModuleFault>
        ensures { AcceptsOne self.old self.new (Text address bytes.now) result }
    {
        if self.stage != Stage::InBody {
            return Err(ModuleFault::BadOrder);
        }
        let size = self.entered.size_of(self.section).unwrap_or(0);
        let text_length = check_text(size, address, bytes)?;
        self.text = Some(text_length);
        Ok(())
    }

    /// Accepts the end of a module. This call does what `record` does for such a record. `BadOrder` outside the body of a module.
    #[tactic(auto, unfolding(crate::specs::Steps::AcceptsOne, crate::specs::Steps::known_after, crate::specs::Rules::fault_known))]
    pub fn end_of_module(&mut self) -> Result<(), ModuleFault>
        ensures { AcceptsOne self.old self.new EndOfModule result }
    {
        if self.stage != Stage::InBody {
            return Err(ModuleFault::BadOrder);
        }
        self.leave_module();
        self.modules += 1;
        Ok(())
    }

    // Leaves the current module, if there is one, without counting it. Afterwards no module is open, and nothing is known of one.
    fn leave_module(&mut self)
        ensures { self.new ≡ record self.old { stage = Stage.Between; entered = []; section = absolute_name; text = None } }
    {
        self.stage = Stage::Between;
        self.entered.clear();
        self.section = absolute_section();
        self.text = None;
    }

    /// Accepts a directory record. This call does what `record` does for a record of these entries. It is for a caller that has
    /// already read them.
    ///
    /// Faults: `BadOrder` in the body of a module, then `TooManyModules` if it would begin the 33rd module; then the first fault of
    /// the entries, in their order; within an entry `BadOrder`, `UnknownSection`, then a limit. `NoMemory` as in `record`.
    #[tactic(auto, using(crate::proofs::Taking::accepted_then, crate::proofs::Taking::refused_first))]
    pub fn directory(&mut self, entries: &[GsdEntry]) -> Result<(), ModuleFault>
        ensures { RulesAccept self.old self.new (Directory ∷ map (λ entry. Entry entry) entries.now) result }
    {
        self.begin_directory()?;
        self.entries(entries)
    }

    // Accepts the entries of a directory record, which were already read.
    fn entries(&mut self, entries: &[GsdEntry]) -> Result<(), ModuleFault>
        ensures { RulesAccept self.old self.new (map (λ entry. Entry entry) entries.now) result }
    {
        'entries: for entry in entries {
            self.entry(entry)?;
        }
        Ok(())
    }

    // Accepts a directory record and its entries.
    #[tactic(auto, using(crate::proofs::Taking::accepted_then, crate::proofs::Taking::refused_first))]
    fn directory_record(&mut self, record: &Record<'_>) -> Result<(), ModuleFault>
        ensures { RulesAccept self.old self.new
            (Directory ∷ map (λ entry. Entry entry) (record_entries «record».now)) result }
    {
        self.begin_directory()?;
        self.each_entry(record)
    }

    // Reads the entries of a directory record one by one, and accepts each.
    fn each_entry(&mut self, record: &Record<'_>) -> Result<(), ModuleFault>
        ensures { RulesAccept self.old self.new (map (λ entry. Entry entry) (record_entries «record».now)) result }
    {
        'entries: for index in 0..record.entry_count() {
            self.entry(&record.entry(index))?;
        }
        Ok(())
    }

    // Checks an entry, then stores the name of its section or global.
    #[tactic(auto, unfolding(crate::specs::Steps::AcceptsOne, crate::specs::Steps::known_after, crate::specs::Rules::fault_known))]
    fn entry(&mut self, entry: &GsdEntry) -> Result<(), ModuleFault>
        ensures { AcceptsOne self.old self.new (Entry entry.now) result }
    {
        check_entry(entry, &mut self.entered, &self.sections, &self.globals)?;
        self.add_entry(entry)
    }

    // Stores the section or the global of an entry, and nothing for an entry of another kind. `NoMemory` if memory is refused.
    fn add_entry(&mut self, entry: &GsdEntry) -> Result<(), ModuleFault>
        ensures noted { Notes self.new (with_entry entry.now.kind entry.now self.old) result }
        ensures adds { IfErr result (λ _. adds_name (Entry entry.now) ≡ true) }
    {
        match entry.kind {
            GsdKind::ControlSection => self.add_section(entry),
            GsdKind::ProgramSection => self.add_section(entry),
            GsdKind::GlobalSymbol => self.add_global(entry.name),
            _ => Ok(()),
        }
    }

    // Stores a section's name, and its size in this module. `NoMemory` if memory is refused.
    fn add_section(&mut self, entry: &GsdEntry) -> Result<(), ModuleFault>
        ensures { Notes self.new (with_section entry.now self.old) result }
    {
        self.sections.insert(entry.name)?;
        self.entered.insert(entry.name, entry.value)?;
        Ok(())
    }

    // Stores the name of a global, unless it is known already. `NoMemory` if memory is refused.
    fn add_global(&mut self, name: Name) -> Result<(), ModuleFault>
        ensures { Notes self.new (with_global name self.old) result }
    {
        self.globals.insert(name)?;
        Ok(())
    }

    /// Accepts one relocation of a record whose beginning was accepted. `begin_relocations`, and then this call for each
    /// relocation, do what one call of `record` does. They are for a caller that uses a relocation as soon as it is judged: a
    /// relocation that stores bytes is returned with the length of the text before it; for any other the result is None.
    ///
    /// Faults: `NoText`, `BadDisplacement`, `UnknownSection`, `TooManyGlobals`, and `NoMemory` if memory is refused for the name of
    /// a global, and there is no other fault.
    // speed: inline, and `check_relocation` too: a call would pass each judged relocation on in memory.
    #[inline(always)]
    #[tactic(auto, unfolding(crate::specs::Steps::AcceptsOne, crate::specs::Steps::known_after, crate::specs::Rules::fault_known))]
    pub fn relocation(
        &mut self,
        relocation: Relocation,
    ) -> Result<Option<TextRelocation>, ModuleFault>
        ensures takes { AcceptsOne self.old self.new (Relocated relocation) (outcome_of result) }
        ensures stored { IfOk result (λ stored. stored ≡ stored_in relocation self.old.text) }
    {
        let stored = check_relocation(&relocation, &mut self.entered, self.text, &self.globals)?;
        self.add_target(relocation.target)?;
        Ok(stored)
    }

    // Stores the section that a location counter definition selects, or the name of a global in a target, and nothing for any other
    // target. `NoMemory` if memory is refused.
    fn add_target(&mut self, target: Target) -> Result<(), ModuleFault>
        ensures noted { Notes self.new (with_target target self.old) result }
        ensures adds { IfErr result (λ _. is_some (global_of target) ≡ true) }
    {
        match target {
            Target::LocationCounterDefinition(name, _) => {
                self.section = name;
                Ok(())
            }
            Target::Global(name) => self.add_global(name),
            Target::GlobalDisplaced(name) => self.add_global(name),
            Target::GlobalAdditive(name, _) => self.add_global(name),
            Target::GlobalAdditiveDisplaced(name, _) => self.add_global(name),
            _ => Ok(()),
        }
    }

    // Accepts a relocation record and its relocations.
    #[tactic(auto, using(crate::proofs::Taking::accepted_then, crate::proofs::Taking::refused_first))]
    fn relocations(&mut self, record: &Record<'_>) -> Result<(), ModuleFault>
        ensures { RulesAccept self.old self.new
            (Relocations ∷ map (λ relocation. Relocated relocation) (record_relocations «record».now)) result }
    {
        self.begin_relocations()?;
        self.each_relocation(record)
    }

    /// Accepts the beginning of a relocation record. `BadOrder` outside the body of a module.
    #[tactic(auto, unfolding(crate::specs::Steps::AcceptsOne, crate::specs::Steps::known_after, crate::specs::Rules::fault_known))]
    pub fn begin_relocations(&mut self) -> Result<(), ModuleFault>
        ensures { AcceptsOne self.old self.new Relocations result }
    {
        match self.stage {
            Stage::InBody => Ok(()),
            _ => Err(ModuleFault::BadOrder),
        }
    }

    // Reads the relocations of a record one by one, and accepts each.
    fn each_relocation(&mut self, record: &Record<'_>) -> Result<(), ModuleFault>
        ensures { RulesAccept self.old self.new (map (λ relocation. Relocated relocation) (record_relocations «record».now)) result }
    {
        'relocations: for relocation in record.each_relocation() {
            self.relocation(relocation)?;
        }
        Ok(())
    }
}
