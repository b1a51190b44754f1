//! The results of the first pass of a link, as a plan for the second.

ghost use Rattle.std.specs.Prelude.{◌≡◌, ◌+◌, ◌%◌, ◌<◌, IfErr, IfOk, Some, length, min, slice_get};
ghost use Rattle.std.specs.Option.{option_map};
ghost use Rattle.m11_link_layout.specs.Plan.{Plans, contribution_bases, definition_values, planned_attributes, planned_base, planned_globals, planned_module, planned_section_base, planned_sections, planned_transfer, planned_value, value_at};
ghost use Rattle.m11_link_layout.specs.Sections.{most_size};

use crate::bases::place_all;
use crate::definition::GlobalLocation;
use crate::fault::LinkFault;
use crate::planned::{PlannedGlobal, PlannedSection};
use crate::tables::Tables;
use m11_base::{Name, Seed, SeededMap};
use m11_obj::SectionFlags;
use std::alloc::Global;
use std::marker::Model;

/// The bases of sections and of modules' contributions to them, the values of globals, the transfer address and the limits; and
/// what else the map and the messages show: attributes of sections, references to globals and names of modules.
#[derive(Drop)]
pub struct Plan {
    pub(crate) tables: Tables,
    pub(crate) bases: SeededMap<Name, u16>,
    // The bases of contributions and the values of globals, in the order of the tables. Both lists are empty if there are no
    // sections.
    // speed: computed once, so that no relocation computes one of them again.
    contribution_bases: Vec<u16>,
    values: Vec<u16>,
    pub(crate) bottom: u16,
    pub(crate) top: u16,
}

impl Model for Plan {
    ghost use Rattle.m11_link_layout.specs.Plan.{PlanTables, Lists};

    ghost Value = { PlanTables };

    ghost view = { λ p. record { gathered = p.tables; bases = p.bases.entries; bottom = p.bottom; top = p.top } };

    ghost invariant = { λ p. Lists
        (record { gathered = p.tables; bases = p.bases.entries; bottom = p.bottom; top = p.top })
        p.contribution_bases.items p.values.items };
}

// The highest number in a word. No section of a plan is larger.
const MOST_SIZE: u32 = 0o177777;

// The size in bytes of a section in the map: at most octal 177777.
fn reported_size(size: u32) -> u16
    ensures { result ≡ min most_size size }
{
    size.min(MOST_SIZE) as u16
}

// The address `offset` bytes after a base, modulo octal 200000.
fn moved(base: u16, offset: u32) -> u16
    ensures { result ≡ (base + offset) % 0o200000 }
{
    ((u32::from(base) + offset % 0o200000) % 0o200000) as u16
}

/// The plan for the collected tables. Errors: `TooLarge`, if a relocatable section ends past octal 160000; `NoMemory`, if memory is
/// refused for a section or, if there are sections, for the lists of bases and values.
pub(crate) fn plan_of(alloc: Global, bottom: u16, tables: Tables) -> Result<Plan, LinkFault>
    ensures { Plans bottom tables result }
{
    let mut bases = SeededMap::with_hasher(alloc, tables.seed());
    match place_all(&mut bases, bottom, &tables) {
        Ok(top) => {
            let mut plan = Plan {
                tables,
                bases,
                contribution_bases: Vec::new(alloc),
                values: Vec::new(alloc),
                bottom,
                top,
            };
            match plan.list(alloc) {
                Ok(()) => Ok(plan),
                Err(fault) => {
                    drop(plan);
                    Err(fault)
                }
            }
        }
        Err(fault) => {
            // proof: dropping values that own several maps in place takes minutes to prove
            drop(bases);
            drop(tables);
            Err(fault)
        }
    }
}

impl Plan {
    /// The seed of the hash maps of the first pass, for those of the second.
    pub fn seed(&self) -> Seed {
        self.tables.seed()
    }

    /// The base of the contribution that the module with this index makes to a section; 0 if the module has no entry for the section.
    pub fn base(&self, module_index: usize, section: Name) -> u16
        ensures { result ≡ planned_base self.now module_index section }
    {
        match self.tables.contribution(module_index, section) {
            Some((index, offset)) => match self.contribution_bases.get(index) {
                Some(base) => *base,
                None => moved(self.section_base(section), offset),
            },
            None => 0,
        }
    }

    // The base of a section; 0 if there is no section with this name.
    fn section_base(&self, section: Name) -> u16
        ensures { result ≡ planned_section_base self.now section }
    {
        self.bases.get(&section).copied().unwrap_or(0)
    }

    /// The value of a global; None if no module defines it.
    pub fn value(&self, name: Name) -> Option<u16>
        ensures { result ≡ planned_value self.now name }
    {
        let index = self.tables.definition_index(name)?;
        match self.values.get(index) {
            Some(value) => Some(*value),
            None => Some(self.defined_value(index)),
        }
    }

    // The value of the defined global at this index, which must be below the number of defined globals.
    fn defined_value(&self, index: usize) -> u16
        requires { index < length self.now.gathered.definitions }
        ensures { slice_get (definition_values self.now) index ≡ Some result }
    {
        let (_, definition) = self.tables.definition_at(index);
        self.value_at(definition.module_index, definition.location)
    }

    // Lists the bases of contributions and the values of globals. Without sections there are no contributions, and all globals are
    // absolute: nothing is listed, and no memory is allocated. Fails if memory is refused.
    fn list(&mut self, alloc: Global) -> Result<(), LinkFault>
        ensures same { self.new ≡ self.old }
        ensures no_memory { IfErr result (λ fault. fault ≡ LinkFault.NoMemory) }
        ensures some { IfErr result (λ _. 0 < length self.old.gathered.sections) }
    {
        if self.tables.section_count() == 0 {
            return Ok(());
        }
        self.contribution_bases = self.listed_bases(alloc)?;
        self.values = self.listed_values(alloc)?;
        Ok(())
    }

    // The bases of all contributions, in the order of their table. Fails if memory is refused.
    fn listed_bases(&self, alloc: Global) -> Result<Vec<u16>, LinkFault>
        ensures bases { IfOk result (λ bases. bases.items ≡ contribution_bases self.now) }
        ensures no_memory { IfErr result (λ fault. fault ≡ LinkFault.NoMemory) }
    {
        let count = self.tables.contribution_count();
        let mut listed = Vec::with_capacity(alloc, count)?;
        'contributions: for index in 0..count {
            let (section, offset) = self.tables.contribution_at(index);
            listed.push(moved(self.section_base(section), offset))?;
        }
        Ok(listed)
    }

    // The values of all defined globals, in the order of first definitions. Fails if memory is refused.
    fn listed_values(&self, alloc: Global) -> Result<Vec<u16>, LinkFault>
        ensures values { IfOk result (λ values. values.items ≡ definition_values self.now) }
        ensures no_memory { IfErr result (λ fault. fault ≡ LinkFault.NoMemory) }
    {
        let count = self.tables.definition_count();
        let mut listed = Vec::with_capacity(alloc, count)?;
        'globals: for index in 0..count {
            listed.push(self.defined_value(index))?;
        }
        Ok(listed)
    }

    // The value of a global that a module defines at this location, modulo octal 200000.
    fn value_at(&self, module_index: usize, location: GlobalLocation) -> u16
        ensures { result ≡ value_at self.now module_index location }
    {
        match location {
            GlobalLocation::Absolute(value) => value,
            GlobalLocation::In(section, value) => self
                .base(module_index, section)
                .wrapping_add(value),
        }
    }

    /// The transfer address: the first even one of all modules, or 1, which starts no program.
    pub fn transfer(&self) -> u16
        ensures { result ≡ planned_transfer self.now }
    {
        match self.tables.transfer() {
            Some(transfer) => self
                .base(transfer.module_index, transfer.section)
                .wrapping_add(transfer.value),
            None => 1,
        }
    }

    /// The bottom, where the relocatable sections begin, and the address after the last of them, which is the bottom if there are
    /// none.
    pub fn limits(&self) -> (u16, u16)
        ensures { result ≡ (self.now.bottom, self.now.top) }
    {
        (self.bottom, self.top)
    }

    /// The number of sections.
    #[tactic(auto, using(crate::proofs::PlannedLists::sections_counted))]
    pub fn section_count(&self) -> usize
        ensures { result ≡ length (planned_sections self.now) }
    {
        self.tables.section_count()
    }

    /// The section at this index in the order of first entries. The index must be below the number of sections.
    #[tactic(auto, using(crate::proofs::PlannedLists::sections_counted, crate::proofs::PlannedLists::section_found))]
    pub fn section_at(&self, index: usize) -> PlannedSection
        requires { index < length (planned_sections self.now) }
        ensures { slice_get (planned_sections self.now) index ≡ Some result }
    {
        let (name, total) = self.tables.section_at(index);
        PlannedSection {
            name,
            base: self.section_base(name),
            size: reported_size(total.size),
            attributes: total.attributes,
        }
    }

    /// The attributes of a section's first entry; None if no module has an entry for the section.
    pub fn attributes(&self, section: Name) -> Option<SectionFlags>
        ensures { option_map (λ attributes. attributes.0) result ≡ planned_attributes self.now section }
    {
        let total = self.tables.total(section)?;
        Some(total.attributes)
    }

    /// The number of defined globals.
    #[tactic(auto, using(crate::proofs::PlannedLists::globals_counted))]
    pub fn global_count(&self) -> usize
        ensures { result ≡ length (planned_globals self.now) }
    {
        self.tables.definition_count()
    }

    /// The defined global at this index in the order of first definitions. The index must be below the number of defined globals.
    #[tactic(auto, using(crate::proofs::PlannedLists::globals_counted, crate::proofs::PlannedLists::global_found))]
    pub fn global_at(&self, index: usize) -> PlannedGlobal
        requires { index < length (planned_globals self.now) }
        ensures { slice_get (planned_globals self.now) index ≡ Some result }
    {
        let (name, definition) = self.tables.definition_at(index);
        PlannedGlobal {
            name,
            value: self.value_at(definition.module_index, definition.location),
            module_name: self.module_name(definition.module_index),
        }
    }

    /// The number of globals that modules refer to.
    pub fn reference_count(&self) -> usize
        ensures { result ≡ length self.now.gathered.references }
    {
        self.tables.reference_count()
    }

    /// The name of the referenced global at this index in the order of first references, and whether it has a strong reference. The
    /// index must be below the number of referenced globals.
    pub fn reference_at(&self, index: usize) -> (Name, bool)
        requires { index < length self.now.gathered.references }
        ensures { slice_get self.now.gathered.references index ≡ Some result }
    {
        self.tables.reference_at(index)
    }

    /// The name of the module with this index; blank past the last module.
    pub fn module_name(&self, module_index: usize) -> Name
        ensures { result ≡ planned_module self.now module_index }
    {
        self.tables.module_name(module_index)
    }
}
