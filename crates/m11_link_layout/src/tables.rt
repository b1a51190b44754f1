//! The tables that a layout collects from records.

ghost use Rattle.std.specs.Prelude.{◌≡◌, ◌≤◌, ◌<◌, IfErr, IfSome, Some, get_or, is_some, option_map, length, map, slice_get, true};
ghost use Rattle.m11_link_modules.specs.Parts.{Entry};
ghost use Rattle.std.specs.Map.{lookup};
ghost use Rattle.m11_base.specs.Names.{blank_name};
ghost use Rattle.m11_base.specs.Rad50.{is_same_name};
ghost use Rattle.m11_link_modules.specs.Positions.{global_of};
ghost use Rattle.m11_link_layout.specs.Tables.{LiesAt, TablesBecome, is_contribution, contributed, collected_after_all, nothing_collected, entered_total, is_concatenated, is_even_after, is_relocated, joined, next_offset, settled, total_after, with_definition, with_end, with_entry, with_name, with_reference, with_relocated, with_contribution, with_section, with_settled, with_symbol, with_total, with_transfer, with_weak};
ghost use Rattle.m11_link_layout.specs.Globals.{location_of};
ghost use Rattle.m11_link_layout.specs.Sections.{control_attributes};

use crate::attributes::{attributes_in, control_attributes};
use crate::definition::{Definition, GlobalLocation, Total, Transfer};
use bitflags::Flags;
use m11_base::{Name, Seed, SeededMap, SeededSet, absolute_section, blank_name};
use m11_obj::{GsdEntry, GsdKind, SectionFlags, SymbolFlags, Target};
use std::alloc::{AllocError, Global};
use std::marker::Model;

/// The sections, globals, references, modules and transfer address of all records so far. The items of each list are in the order
/// in which they first came. Texts aren't stored.
#[derive(Drop)]
pub(crate) struct Tables {
    sections: SeededMap<Name, Total>,
    contributions: SeededMap<(usize, Name), u32>,
    names: Vec<Name>,
    name: Option<Name>,
    section: Option<Name>,
    weak: SeededSet<Name>,
    definitions: SeededMap<Name, Definition>,
    references: SeededMap<Name, bool>,
    transfer: Option<Transfer>,
    // What `transfer` becomes if the current module enters `. ABS.` later, as a relocatable section.
    moved: Option<Transfer>,
}

impl Model for Tables {
    ghost use Rattle.m11_link_layout.specs.Tables.{LayoutTables};

    ghost Value = { LayoutTables };

    ghost view = { λ t. record {
      sections = t.sections.entries;
      contributions = t.contributions.entries;
      names = t.names.items;
      name = t.name;
      section = t.section;
      weak = t.weak.keys;
      definitions = t.definitions.entries;
      references = t.references.entries;
      transfer = t.transfer;
      moved = t.moved;
    } };
}

// The size of a contribution to a section with these attributes: rounded up to even if the section is relocatable.
fn contributed(attributes: SectionFlags, size: u16) -> u32
    ensures size { result ≡ contributed attributes.0 size }
    ensures most { result ≤ 65536 }
{
    let size = u32::from(size);
    if attributes.contains(SectionFlags::RELOCATABLE) {
        size + size % 2
    } else {
        size
    }
}

// Whether the contributions of a section are concatenated: it is relocatable and not overlaid.
fn is_concatenated(attributes: SectionFlags) -> bool
    ensures { result ≡ is_concatenated attributes.0 }
{
    attributes.contains(SectionFlags::RELOCATABLE) && !attributes.contains(SectionFlags::OVERLAID)
}

// The size of a section after one more contribution, at most octal 200000: the sum if contributions are concatenated, otherwise the
// greater of the two sizes.
fn joined(attributes: SectionFlags, before: u32, size: u16) -> u32
    ensures { result ≡ joined attributes.0 before size }
{
    let size = contributed(attributes, size);
    let joined = if is_concatenated(attributes) {
        before.min(SIZE_CAP) + size
    } else {
        before.max(size)
    };
    joined.min(SIZE_CAP)
}

// The limit of sizes, past all addresses: a relocatable section of this size is too large, whatever the bottom is.
const SIZE_CAP: u32 = 0o200000;

// A section after one more entry for it. It keeps the attributes of its first entry.
fn total_after(found: Option<Total>, attributes: SectionFlags, size: u16) -> Total
    ensures { result ≡ total_after found attributes.0 size }
{
    match found {
        None => Total {
            attributes,
            size: contributed(attributes, size).min(SIZE_CAP),
        },
        Some(total) => Total {
            attributes: total.attributes,
            size: joined(total.attributes, total.size, size),
        },
    }
}

// The offset of the next contribution in a section: 0 unless contributions are concatenated.
fn next_offset(found: Option<Total>) -> u32
    ensures { result ≡ next_offset found }
{
    match found {
        None => 0,
        Some(total) => {
            if is_concatenated(total.attributes) {
                total.size
            } else {
                0
            }
        }
    }
}

// Whether the address `value` bytes after the base of a contribution is even. A relocated base is even if and only if the bottom
// is, and an absolute base is 0.
fn is_even_after(is_relocated: bool, bottom: u16, value: u16) -> bool
    ensures { result ≡ is_even_after is_relocated bottom value }
{
    if is_relocated {
        (u32::from(bottom) + u32::from(value)) % 2 == 0
    } else {
        value % 2 == 0
    }
}

// Whether a section is relocated; `assumed` if the module hasn't entered it.
fn is_relocated(total: Option<Total>, assumed: bool) -> bool
    ensures { result ≡ is_relocated total assumed }
{
    match total {
        None => assumed,
        Some(total) => total.attributes.contains(SectionFlags::RELOCATABLE),
    }
}

// The location that an entry defines: in the section that the module entered last if the entry is relocatable; otherwise, or if the
// module has entered none, absolute.
fn location_of(section: Option<Name>, entry: &GsdEntry) -> GlobalLocation
    ensures { result ≡ location_of section entry.now }
{
    let flags = SymbolFlags::from_bits_retain(entry.flags);
    match section {
        Some(section) if flags.contains(SymbolFlags::RELOCATABLE) => {
            GlobalLocation::In(section, entry.value)
        }
        _ => GlobalLocation::Absolute(entry.value),
    }
}

impl Tables {
    /// The tables before the first record.
    pub(crate) fn new(alloc: Global, seed: Seed) -> Tables
        ensures { result ≡ nothing_collected }
    {
        Tables {
            sections: SeededMap::with_hasher(alloc, seed),
            contributions: SeededMap::with_hasher(alloc, seed),
            names: Vec::new(alloc),
            name: None,
            section: None,
            weak: SeededSet::with_hasher(alloc, seed),
            definitions: SeededMap::with_hasher(alloc, seed),
            references: SeededMap::with_hasher(alloc, seed),
            transfer: None,
            moved: None,
        }
    }

    /// The seed of the hash maps.
    pub(crate) fn seed(&self) -> Seed {
        *self.sections.hasher()
    }

    /// The number of sections.
    pub(crate) fn section_count(&self) -> usize
        ensures { result ≡ length self.now.sections }
    {
        self.sections.len()
    }

    /// The name and the total of the section at this index in the order of first entries. The index must be below the number of
    /// sections.
    pub(crate) fn section_at(&self, index: usize) -> (Name, Total)
        requires { index < length self.now.sections }
        ensures { slice_get self.now.sections index ≡ Some result }
    {
        match self.sections.get_index(index) {
            Some((name, total)) => (*name, *total),
            None => unreachable!(),
        }
    }

    /// The total of the section with this name; None if no module has entered it.
    pub(crate) fn total(&self, name: Name) -> Option<Total>
        ensures { result ≡ lookup (is_same_name name) self.now.sections }
    {
        self.sections.get(&name).copied()
    }

    /// The index of a module's contribution to a section in the table of contributions, and the contribution's offset in bytes in
    /// the section; None if the module makes none.
    pub(crate) fn contribution(&self, module_index: usize, section: Name) -> Option<(usize, u32)>
        ensures offset { option_map (λ found. found.1) result
            ≡ lookup (is_contribution (module_index, section)) self.now.contributions }
        ensures at { IfSome result (λ found. LiesAt (module_index, section) found.0 found.1 self.now.contributions) }
    {
        match self.contributions.get_full(&(module_index, section)) {
            Some((index, _, offset)) => Some((index, *offset)),
            None => None,
        }
    }

    /// The number of contributions.
    pub(crate) fn contribution_count(&self) -> usize
        ensures { result ≡ length self.now.contributions }
    {
        self.contributions.len()
    }

    /// The section of the contribution at this index, and the contribution's offset in bytes in the section. The index must be
    /// below the number of contributions.
    pub(crate) fn contribution_at(&self, index: usize) -> (Name, u32)
        requires { index < length self.now.contributions }
        ensures { option_map (λ entry. (entry.0.1, entry.1)) (slice_get self.now.contributions index) ≡ Some result }
    {
        match self.contributions.get_index(index) {
            Some((key, offset)) => (key.1, *offset),
            None => unreachable!(),
        }
    }

    /// The index of a global in the order of first definitions; None if no module defines it.
    pub(crate) fn definition_index(&self, name: Name) -> Option<usize>
        ensures found { is_some result ≡ is_some (lookup (is_same_name name) self.now.definitions) }
        ensures at { IfSome result (λ index. slice_get (map (λ entry. entry.1) self.now.definitions) index
            ≡ lookup (is_same_name name) self.now.definitions) }
        ensures within { IfSome result (λ index. index < length self.now.definitions) }
    {
        self.definitions.get_index_of(&name)
    }

    /// The number of defined globals.
    pub(crate) fn definition_count(&self) -> usize
        ensures { result ≡ length self.now.definitions }
    {
        self.definitions.len()
    }

    /// The name and the definition of the global at this index in the order of first definitions. The index must be below the
    /// number of defined globals.
    pub(crate) fn definition_at(&self, index: usize) -> (Name, Definition)
        requires { index < length self.now.definitions }
        ensures { slice_get self.now.definitions index ≡ Some result }
    {
        match self.definitions.get_index(index) {
            Some((name, definition)) => (*name, *definition),
            None => unreachable!(),
        }
    }

    /// The number of globals that modules refer to.
    pub(crate) fn reference_count(&self) -> usize
        ensures { result ≡ length self.now.references }
    {
        self.references.len()
    }

    /// The name of the referenced global at this index in the order of first references, and whether it has a strong reference. The
    /// index must be below the number of referenced globals.
    pub(crate) fn reference_at(&self, index: usize) -> (Name, bool)
        requires { index < length self.now.references }
        ensures { slice_get self.now.references index ≡ Some result }
    {
        match self.references.get_index(index) {
            Some((name, is_strong)) => (*name, *is_strong),
            None => unreachable!(),
        }
    }

    /// The name of the ended module with this index; blank past the last ended module.
    pub(crate) fn module_name(&self, module_index: usize) -> Name
        ensures { result ≡ get_or self.now.names module_index blank_name }
    {
        match self.names.get(module_index) {
            Some(name) => *name,
            None => blank_name(),
        }
    }

    /// The first even transfer address so far, given the sections that the current module has entered; None if there is no even one.
    pub(crate) fn transfer(&self) -> Option<Transfer>
        ensures { result ≡ settled self.now }
    {
        if is_relocated(self.entered_total(absolute_section()), false) {
            self.moved
        } else {
            self.transfer
        }
    }

    /// Stores the entries of a directory record, which the rules have accepted. Fails if memory is refused.
    pub(crate) fn add_entries(
        &mut self,
        bottom: u16,
        entries: &[GsdEntry],
    ) -> Result<(), AllocError>
        ensures { TablesBecome self.new (collected_after_all bottom self.old (map (λ entry. Entry entry) entries.now)) result }
    {
        'entries: for entry in entries {
            self.add_entry(bottom, entry)?;
        }
        Ok(())
    }

    // Stores the new total of a section.
    fn add_total(&mut self, name: Name, total: Total) -> Result<(), AllocError>
        ensures { TablesBecome self.new (with_total name total self.old) result }
    {
        self.sections.insert(name, total)?;
        Ok(())
    }

    // Stores the offset of this module's contribution to a section, which becomes the section entered last.
    fn add_contribution(&mut self, name: Name, offset: u32) -> Result<(), AllocError>
        ensures { TablesBecome self.new (with_contribution name offset self.old) result }
    {
        self.contributions.insert((self.names.len(), name), offset)?;
        self.section = Some(name);
        Ok(())
    }

    // Stores a section's entry: the section's new total, and this module's contribution.
    fn add_section(&mut self, entry: &GsdEntry, attributes: SectionFlags) -> Result<(), AllocError>
        ensures { TablesBecome self.new (with_section entry.now attributes.0 self.old) result }
    {
        let found = self.total(entry.name);
        self.add_total(entry.name, total_after(found, attributes, entry.value))?;
        self.add_contribution(entry.name, next_offset(found))
    }

    // Stores a reference to a global. A global with one strong reference stays strong.
    fn add_reference(&mut self, name: Name, is_strong: bool) -> Result<(), AllocError>
        ensures { TablesBecome self.new (with_reference name is_strong self.old) result }
    {
        let was_strong = self.references.get(&name).copied().unwrap_or(false);
        if was_strong {
            return Ok(());
        }
        self.references.insert(name, is_strong)?;
        Ok(())
    }

    // Stores a definition of a global, unless the global has one already.
    fn add_definition(&mut self, entry: &GsdEntry) -> Result<(), AllocError>
        ensures { TablesBecome self.new (with_definition entry.now self.old) result }
    {
        match self.definitions.get(&entry.name) {
            Some(_) => Ok(()),
            None => {
                let definition = Definition {
                    module_index: self.names.len(),
                    location: location_of(self.section, entry),
                };
                self.definitions.insert(entry.name, definition)?;
                Ok(())
            }
        }
    }

    // Stores the weak reference of an entry. Later relocations of this module then refer to the name weakly too.
    fn add_weak(&mut self, name: Name) -> Result<(), AllocError>
        ensures { TablesBecome self.new (with_weak name self.old) result }
    {
        self.add_reference(name, false)?;
        self.weak.insert(name)?;
        Ok(())
    }

    // Stores a global symbol's entry: a definition, a weak reference or a strong one.
    fn add_symbol(&mut self, entry: &GsdEntry) -> Result<(), AllocError>
        ensures { TablesBecome self.new (with_symbol entry.now self.old) result }
    {
        let flags = SymbolFlags::from_bits_retain(entry.flags);
        if flags.contains(SymbolFlags::DEFINED) {
            self.add_definition(entry)
        } else if flags.contains(SymbolFlags::WEAK) {
            self.add_weak(entry.name)
        } else {
            self.add_reference(entry.name, true)
        }
    }

    // The total of the section with this name; None if this module hasn't entered it.
    fn entered_total(&self, name: Name) -> Option<Total>
        ensures { result ≡ entered_total self.now name }
    {
        match self.contributions.get(&(self.names.len(), name)) {
            Some(_) => self.total(name),
            None => None,
        }
    }

    // Stores a transfer address in `transfer` if it is the first even one given the sections entered so far, and in `moved` if it is
    // the first even one in case this module enters `. ABS.` later, as a relocatable section.
    fn add_transfer(&mut self, bottom: u16, entry: &GsdEntry)
        ensures { self.new ≡ with_transfer bottom entry.now self.old }
    {
        let total = self.entered_total(entry.name);
        let module_index = self.names.len();
        let section = entry.name;
        let value = entry.value;
        if self.transfer.is_none() && is_even_after(is_relocated(total, false), bottom, value) {
            self.transfer = Some(Transfer {
                module_index,
                section,
                value,
            });
        }
        if self.moved.is_none() && is_even_after(is_relocated(total, true), bottom, value) {
            self.moved = Some(Transfer {
                module_index,
                section,
                value,
            });
        }
    }

    // Chooses between the two transfer addresses, once all sections of this module are known.
    fn settle(&mut self)
        ensures { self.new ≡ with_settled self.old }
    {
        if is_relocated(self.entered_total(absolute_section()), false) {
            self.transfer = self.moved;
        } else {
            self.moved = self.transfer;
        }
    }

    // Stores the module's name, unless it has one already.
    fn add_name(&mut self, name: Name)
        ensures { self.new ≡ with_name name self.old }
    {
        if self.name.is_none() {
            self.name = Some(name);
        }
    }

    // Stores an entry of a directory. Internal symbols and identifications add nothing.
    fn add_entry(&mut self, bottom: u16, entry: &GsdEntry) -> Result<(), AllocError>
        ensures { TablesBecome self.new (with_entry bottom entry.now.kind entry.now self.old) result }
    {
        match entry.kind {
            GsdKind::ModuleName => {
                self.add_name(entry.name);
                Ok(())
            }
            GsdKind::ControlSection => self.add_section(entry, control_attributes(entry.name)),
            GsdKind::ProgramSection => self.add_section(entry, attributes_in(entry.flags)),
            GsdKind::TransferAddress => {
                self.add_transfer(bottom, entry);
                Ok(())
            }
            GsdKind::GlobalSymbol => self.add_symbol(entry),
            GsdKind::InternalSymbol => Ok(()),
            GsdKind::Identification => Ok(()),
        }
    }

    /// Stores the reference that a relocation's target makes to a global, if it makes one. Fails if memory is refused.
    pub(crate) fn add_target(&mut self, target: Target) -> Result<(), AllocError>
        ensures noted { TablesBecome self.new (with_relocated (global_of target) self.old) result }
        ensures adds { IfErr result (λ _. is_some (global_of target) ≡ true) }
    {
        match target {
            Target::Global(name) => self.add_relocated(name),
            Target::GlobalDisplaced(name) => self.add_relocated(name),
            Target::GlobalAdditive(name, _) => self.add_relocated(name),
            Target::GlobalAdditiveDisplaced(name, _) => self.add_relocated(name),
            _ => Ok(()),
        }
    }

    // Stores a relocation's reference to a global. The reference is weak if an earlier entry of this module refers to the name weakly.
    fn add_relocated(&mut self, name: Name) -> Result<(), AllocError>
        ensures { TablesBecome self.new (with_relocated (Some name) self.old) result }
    {
        let is_weak = self.weak.contains(&name);
        self.add_reference(name, !is_weak)
    }

    /// Ends a module: settles the transfer address, stores the module's name, which is blank if no entry has one, and forgets what
    /// is known of this module alone. Fails if memory is refused.
    pub(crate) fn end_module(&mut self) -> Result<(), AllocError>
        ensures { TablesBecome self.new (with_end self.old) result }
    {
        let name = match self.name {
            Some(name) => name,
            None => blank_name(),
        };
        self.settle();
        self.names.push(name)?;
        self.name = None;
        self.section = None;
        self.weak.clear();
        Ok(())
    }
}
