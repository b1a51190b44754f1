//! The table that the lines of a source fill. (MACRO-11 Language Reference Manual, "Symbols and expressions", "Local symbols", "Current
//! location counter" and "Program section directives".)

ghost use Rattle.std.specs.Prelude.{◌≡◌, ◌<◌, ◌≤◌, ◌+◌, IfErr, IfOk, IfSome, None, false, get_or, length, max, option_copied, slice_set};
ghost use Rattle.std.specs.List.{list_any};
ghost use Rattle.m11_base.specs.Names.{blank_name, name_in_words};
ghost use Rattle.m11_base.specs.Rad50.{is_same_name};
ghost use Rattle.m11_asm_rules.specs.Changes.{in_number, with_location, with_move, with_section, with_modes};
ghost use Rattle.m11_asm_rules.specs.Definitions.{has_key, is_defined, is_labelled, last_definition, no_definitions, register};
ghost use Rattle.m11_asm_rules.specs.Labels.{with_block, with_definition, with_doubly_defined, with_global};
ghost use Rattle.m11_asm_rules.specs.Limits.{local_count, most_defined_names, most_local_symbols, most_sections, name_count};
ghost use Rattle.m11_asm_rules.specs.Meanings.{is_firm, is_firm_in};
ghost use Rattle.m11_asm_rules.specs.Locations.{Goes, Steps};
ghost use Rattle.m11_asm_rules.specs.Psects.{known_section};
ghost use Rattle.m11_asm_rules.specs.Relocations.{is_here, is_moved};
ghost use Rattle.m11_asm_rules.specs.Sections.{number_of, numbered, of_program, section};
ghost use Rattle.m11_asm_rules.specs.Tables.{first_table, kind_here, location, location_of, section_name, size_of};
ghost use Rattle.m11_asm_rules.specs.declared.definitions.Key.TheVariants.{Named, Numbered};
ghost use Rattle.m11_asm_rules.specs.Entries.{empty_table, with_new_section, with_registers};

use crate::definitions::{Definition, Key, Standing};
use crate::modes::Modes;
use crate::sections::Section;
use arrayvec::ArrayVec;
use bitflags::Flags;
use m11_base::{Name, Seed, SeededMap, SeededSet, absolute_section, blank_name};
use m11_obj::SectionFlags;
use m11_scan::Radix;
use m11_scan_expressions::{Kind, Symbol};
use std::alloc::{AllocError, Global};
use std::marker::Model;

/// The state that the lines so far leave for the next one. It holds the last definition of each name and local symbol, says which of
/// them are doubly defined and which names are global, and has the attributes, location counter and size of each section, and the modes.
/// It has at most 4,096 names besides those of the registers, 16,384 local symbols and 64 sections.
#[derive(Drop)]
pub struct Table {
    names: SeededMap<Name, Definition>,
    local_symbols: SeededMap<(u64, u16), Definition>,
    doubly_defined_names: SeededSet<Name>,
    doubly_defined_symbols: SeededSet<(u64, u16)>,
    globals: SeededSet<Name>,
    // The attribute bits of each section, by its name; sections are numbered in the order of these entries.
    sections: SeededMap<Name, u8>,
    // Indexed by section number: the location counters, and the greatest location that each counter had after a line.
    counters: ArrayVec<u16, 64>,
    sizes: ArrayVec<u16, 64>,
    modes: Modes,
}

impl Model for Table {
    ghost use Rattle.std.specs.Prelude.{◌≡◌, ◌≤◌, length, map};
    ghost use Rattle.m11_asm_rules.specs.Limits.{most_defined_names, most_local_symbols, most_sections};
    ghost use Rattle.m11_asm_rules.specs.Tables.{Table as LineTable};
    ghost use Rattle.m11_asm_rules.specs.Entries.{section_in};

    ghost Value = { LineTable };

    ghost view = { λ t. record {
      definitions = record { names = t.names.entries; local_symbols = t.local_symbols.entries };
      doubly_defined = record { names = t.doubly_defined_names.keys; local_symbols = t.doubly_defined_symbols.keys };
      globals = t.globals.keys;
      sections = map section_in t.sections.entries;
      counters = t.counters.items;
      sizes = t.sizes.items;
      modes = t.modes;
    } };

    ghost invariant = { λ t. (length t.names.entries ≤ most_defined_names) × (length t.local_symbols.entries ≤ most_local_symbols)
        × (length t.sections.entries ≤ most_sections) × (length t.counters.items ≡ length t.sections.entries)
        × (length t.sizes.items ≡ length t.sections.entries) };
}

impl Table {
    /// The table before the first line: the names of the registers, the absolute section, and the blank one, in which assembly begins.
    /// Error: memory may be refused.
    pub fn new(alloc: Global, seed: Seed) -> Result<Table, AllocError>
        ensures { IfOk result (λ table. table ≡ first_table) }
    {
        let mut table = Table::empty(alloc, seed);
        match table.begin() {
            Ok(()) => Ok(table),
            Err(error) => {
                // proof: dropping a value that owns several maps in place takes minutes to prove
                drop(table);
                Err(error)
            }
        }
    }

    // Adds to an empty table the sections and names with which each source begins. Error: memory may be refused.
    fn begin(&mut self) -> Result<(), AllocError>
        requires { self.old ≡ empty_table }
        ensures { IfOk result (λ _. self.new ≡ first_table) }
    {
        self.add_section(absolute_section(), SectionFlags::OF_ABSOLUTE.bits())?;
        self.add_section(blank_name(), SectionFlags::OF_PROGRAM.bits())?;
        self.add_registers()?;
        Ok(())
    }

    // A table without names or sections, in the modes in force before the first line.
    fn empty(alloc: Global, seed: Seed) -> Table
        ensures { result ≡ empty_table }
    {
        Table {
            names: SeededMap::with_hasher(alloc, seed),
            local_symbols: SeededMap::with_hasher(alloc, seed),
            doubly_defined_names: SeededSet::with_hasher(alloc, seed),
            doubly_defined_symbols: SeededSet::with_hasher(alloc, seed),
            globals: SeededSet::with_hasher(alloc, seed),
            sections: SeededMap::with_hasher(alloc, seed),
            counters: ArrayVec::new(),
            sizes: ArrayVec::new(),
            modes: Modes {
                section: 1,
                block: 0,
                radix: Radix::Octal,
                listed: 0,
                unlisted: 0,
                shows_expansions: false,
            },
        }
    }

    // Adds the names of the registers, as if they were assigned, to a table without definitions. Error: memory may be refused.
    fn add_registers(&mut self) -> Result<(), AllocError>
        requires { self.old.definitions ≡ no_definitions }
        ensures { IfOk result (λ _. self.new ≡ with_registers self.old) }
    {
        self.add_register(b"R0    ", 0)?;
        self.add_register(b"R1    ", 1)?;
        self.add_register(b"R2    ", 2)?;
        self.add_register(b"R3    ", 3)?;
        self.add_register(b"R4    ", 4)?;
        self.add_register(b"R5    ", 5)?;
        self.add_register(b"SP    ", 6)?;
        self.add_register(b"PC    ", 7)?;
        Ok(())
    }

    fn add_register(&mut self, name: &[u8; 6], number: u16) -> Result<(), AllocError>
        requires { name_count self.old < most_defined_names }
        ensures inserts { IfOk result (λ _. self.new ≡ with_definition (Named (name_in_words name.now)) (register number) self.old) }
        ensures names { IfOk result (λ _. name_count self.new ≤ name_count self.old + 1) }
    {
        self.insert_name(name_in_words(name), register(number))?;
        Ok(())
    }

    /// The seed of the hashes in the table's maps and sets.
    pub fn seed(&self) -> Seed {
        *self.names.hasher()
    }

    /// The modes in force at the next line.
    pub fn modes(&self) -> Modes
        ensures { result ≡ self.now.modes }
    {
        self.modes
    }

    /// The section with this number, or the blank section if no section has it.
    pub fn section(&self, number: u16) -> Section
        ensures { result ≡ numbered number self.now.sections }
    {
        self.section_at(usize::from(number))
    }

    // The section with this number, which may have more than 16 bits; the blank section if no section has it.
    fn section_at(&self, number: usize) -> Section
        ensures { result ≡ numbered number self.now.sections }
    {
        match self.sections.get_index(number) {
            Some((name, attributes)) => Section {
                name: *name,
                attributes: *attributes,
            },
            None => blank_section(),
        }
    }

    /// The name of the current section.
    pub fn section_name(&self) -> Name
        ensures { result ≡ section_name self.now }
    {
        self.section(self.modes.section).name
    }

    /// States the limits on names, local symbols and sections, which hold for each table, even after a refusal. The function does
    /// nothing.
    #[inline(always)]
    pub fn counts_are_within_the_limits(&self)
        ensures names { name_count self.now ≤ most_defined_names }
        ensures symbols { local_count self.now ≤ most_local_symbols }
        ensures sections { length self.now.sections ≤ most_sections }
    {
        let _names = &self.names;
    }

    /// How many names are defined, including those of the registers.
    #[inline(always)]
    pub fn name_count(&self) -> usize
        ensures { result ≡ name_count self.now }
    {
        self.names.len()
    }

    /// How many local symbols are defined.
    #[inline(always)]
    pub fn local_symbol_count(&self) -> usize
        ensures { result ≡ local_count self.now }
    {
        self.local_symbols.len()
    }

    /// How many sections there are.
    pub fn section_count(&self) -> usize
        ensures { result ≡ length self.now.sections }
    {
        self.sections.len()
    }

    /// The number of the section with this name, if there is one.
    pub fn section_number(&self, name: Name) -> Option<usize>
        ensures number { result ≡ number_of name self.now.sections }
        ensures within { IfSome result (λ number. number < length self.now.sections) }
    {
        self.sections.get_index_of(&name)
    }

    /// The section with this name, if there is one.
    pub fn section_named(&self, name: Name) -> Option<Section>
        ensures { result ≡ known_section name self.now.sections }
    {
        match self.section_number(name) {
            Some(number) => Some(self.section_at(number)),
            None => None,
        }
    }

    /// Whether the current section is relocatable, which means that a linker moves it.
    pub fn is_moved(&self) -> bool
        ensures { result ≡ is_moved self.now }
    {
        let section = self.section(self.modes.section);
        section.attributes & SectionFlags::RELOCATABLE.bits() != 0
    }

    /// Whether a value of this kind belongs to the current section; in an ABS section every absolute number and every register does.
    pub fn is_here(&self, kind: Kind) -> bool
        ensures { result ≡ is_here self.now kind }
    {
        match kind {
            Kind::Absolute | Kind::Register => !self.is_moved(),
            Kind::Section(name) => name == self.section_name(),
            Kind::Reference(_) => false,
        }
    }

    /// The location counter of the current section.
    pub fn location(&self) -> u16
        ensures { result ≡ location self.now }
    {
        number_at(self.counters.as_slice(), self.modes.section)
    }

    /// The size in bytes of the section with this number: the greatest location that its counter had after any line. It is 0 if there is
    /// no such section.
    pub fn size(&self, number: u16) -> u16
        ensures { result ≡ size_of number self.now }
    {
        number_at(self.sizes.as_slice(), number)
    }

    /// The kind of the locations in the current section: absolute in an ABS section, otherwise relative to it.
    pub fn kind_here(&self) -> Kind
        ensures { result ≡ kind_here self.now }
    {
        let section = self.section(self.modes.section);
        if section.attributes & SectionFlags::RELOCATABLE.bits() == 0 {
            Kind::Absolute
        } else {
            Kind::Section(section.name)
        }
    }

    /// The last definition of a key, if it has one.
    // speed: inline, since this is called for each symbol of an expression, and a call would pass the key through memory.
    #[inline(always)]
    pub fn definition(&self, key: &Key) -> Option<&Definition>
        ensures { option_copied result ≡ last_definition key.now self.now.definitions }
    {
        match key {
            Key::Named(name) => self.name_definition(*name),
            Key::Numbered(block, number) => self.symbol_definition(*block, *number),
        }
    }

    fn name_definition(&self, name: Name) -> Option<&Definition>
        ensures { option_copied result ≡ last_definition (Named name) self.now.definitions }
    {
        self.names.get(&name)
    }

    // speed: a call, so that looking up a name is short
    #[inline(never)]
    fn symbol_definition(&self, block: u64, number: u16) -> Option<&Definition>
        ensures { option_copied result ≡ last_definition (Numbered block number) self.now.definitions }
    {
        self.local_symbols.get(&(block, number))
    }

    /// Whether a key has a definition.
    pub fn is_defined(&self, key: &Key) -> bool
        ensures { result ≡ is_defined key.now self.now.definitions }
    {
        self.definition(key).is_some()
    }

    /// Whether the last definition of a key is a label's.
    pub fn is_labelled(&self, key: &Key) -> bool
        ensures { result ≡ is_labelled key.now self.now.definitions }
    {
        match self.definition(key) {
            Some(definition) => definition.label.is_some(),
            None => false,
        }
    }

    /// Whether a key is doubly defined.
    // speed: inline, since this is called for each symbol of an expression, and a call would pass its result through memory.
    #[inline(always)]
    pub fn is_doubly_defined(&self, key: &Key) -> bool
        ensures { result ≡ has_key key.now self.now.doubly_defined }
    {
        match key {
            Key::Named(name) => is_among(&self.doubly_defined_names, *name),
            Key::Numbered(block, number) => self
                .doubly_defined_symbols
                .contains(&(*block, *number)),
        }
    }

    /// Whether some line made a name global.
    pub fn is_global(&self, name: Name) -> bool
        ensures { result ≡ list_any (λ global. is_same_name global name) self.now.globals }
    {
        self.globals.contains(&name)
    }

    /// The names that lines made global, each once.
    pub fn globals(&self) -> &[Name]
        ensures { result.now ≡ self.now.globals }
    {
        self.globals.as_slice()
    }

    /// Whether the last definition of a symbol is firm; false for a symbol without one, true for `.`.
    pub fn is_firm(&self, symbol: Symbol) -> bool
        ensures { result ≡ is_firm self.now symbol }
    {
        match symbol {
            Symbol::Counter => true,
            Symbol::Ordinary(name) => self.is_firm_key(&Key::Named(name)),
            Symbol::Local(number) => { self.is_firm_key(&Key::Numbered(self.modes.block, number)) }
        }
    }

    // Whether the last definition of a name or a local symbol is firm; false without one.
    fn is_firm_key(&self, key: &Key) -> bool
        ensures { result ≡ is_firm_in (last_definition key.now self.now.definitions) }
    {
        match self.definition(key) {
            Some(definition) => definition.is_firm,
            None => false,
        }
    }
}

impl Table {
    /// Selects a section, and begins a new block of local symbols. A new section gets these attributes; there must be room for it.
    /// Error: memory may be refused, and then the table is as before.
    pub fn select(&mut self, name: Name, attributes: u8) -> Result<(), AllocError>
        requires { number_of name self.old.sections ≡ None → length self.old.sections < most_sections }
        ensures selects { IfOk result (λ _. self.new ≡ with_section name attributes self.old) }
        ensures unchanged { IfErr result (λ _. self.new ≡ self.old) }
    {
        match self.section_number(name) {
            Some(number) => self.enter(number as u16),
            None => {
                let number = self.sections.len() as u16;
                self.add_section(name, attributes)?;
                self.enter(number);
            }
        }
        Ok(())
    }

    // Adds a new section, whose counter and size are 0; there must be room for it. Error: memory may be refused, and then the table is as
    // before.
    fn add_section(&mut self, name: Name, attributes: u8) -> Result<(), AllocError>
        requires absent { number_of name self.old.sections ≡ None }
        requires room { length self.old.sections < most_sections }
        ensures adds { IfOk result (λ _. self.new ≡ with_new_section (section name attributes) self.old) }
        ensures unchanged { IfErr result (λ _. self.new ≡ self.old) }
    {
        self.sections.insert(name, attributes)?;
        self.counters.push(0);
        self.sizes.push(0);
        Ok(())
    }

    // Makes the section with this number the current one, and begins a new block of local symbols.
    fn enter(&mut self, number: u16)
        ensures { self.new ≡ with_modes (in_number number self.old.modes) self.old }
    {
        self.modes.section = number;
        self.modes.block = self.modes.block.saturating_add(1);
    }

    /// Makes a definition the last one of a name. If the name has none yet, there must be room for it. Error: memory may be refused, and
    /// then the table is as before.
    pub fn insert_name(&mut self, name: Name, definition: Definition) -> Result<(), AllocError>
        requires { is_defined (Named name) self.old.definitions ≡ false → name_count self.old < most_defined_names }
        ensures inserts { IfOk result (λ _. self.new ≡ with_definition (Named name) definition self.old) }
        ensures unchanged { IfErr result (λ _. self.new ≡ self.old) }
    {
        // proof: copied field by field, since the checker knows the types of the fields
        let definition = Definition {
            standing: definition.standing,
            is_firm: definition.is_firm,
            label: definition.label,
        };
        self.names.insert(name, definition)?;
        Ok(())
    }

    /// Makes a definition the last one of a local symbol. If the symbol has none yet, there must be room for it. Error: memory may be
    /// refused, and then the table is as before.
    pub fn insert_symbol(
        &mut self,
        block: u64,
        number: u16,
        definition: Definition,
    ) -> Result<(), AllocError>
        requires { is_defined (Numbered block number) self.old.definitions ≡ false → local_count self.old < most_local_symbols }
        ensures inserts { IfOk result (λ _. self.new ≡ with_definition (Numbered block number) definition self.old) }
        ensures unchanged { IfErr result (λ _. self.new ≡ self.old) }
    {
        // proof: copied field by field, since the checker knows the types of the fields
        let definition = Definition {
            standing: definition.standing,
            is_firm: definition.is_firm,
            label: definition.label,
        };
        self.local_symbols.insert((block, number), definition)?;
        Ok(())
    }

    /// Marks a key as doubly defined. Error: memory may be refused, and then the table is as before.
    pub fn double(&mut self, key: &Key) -> Result<(), AllocError>
        ensures doubles { IfOk result (λ _. self.new ≡ with_doubly_defined key.now self.old) }
        ensures unchanged { IfErr result (λ _. self.new ≡ self.old) }
    {
        match key {
            Key::Named(name) => self.double_name(*name),
            Key::Numbered(block, number) => self.double_symbol(*block, *number),
        }
    }

    fn double_name(&mut self, name: Name) -> Result<(), AllocError>
        ensures doubles { IfOk result (λ _. self.new ≡ with_doubly_defined (Named name) self.old) }
        ensures unchanged { IfErr result (λ _. self.new ≡ self.old) }
    {
        self.doubly_defined_names.insert(name)?;
        Ok(())
    }

    fn double_symbol(&mut self, block: u64, number: u16) -> Result<(), AllocError>
        ensures doubles { IfOk result (λ _. self.new ≡ with_doubly_defined (Numbered block number) self.old) }
        ensures unchanged { IfErr result (λ _. self.new ≡ self.old) }
    {
        self.doubly_defined_symbols.insert((block, number))?;
        Ok(())
    }

    /// Makes a name global. Error: memory may be refused, and then the table is as before.
    pub fn export(&mut self, name: Name) -> Result<(), AllocError>
        ensures exports { IfOk result (λ _. self.new ≡ with_global name self.old) }
        ensures unchanged { IfErr result (λ _. self.new ≡ self.old) }
    {
        self.globals.insert(name)?;
        Ok(())
    }

    /// Begins a new block of local symbols.
    pub fn open_block(&mut self)
        ensures { self.new ≡ with_block self.old }
    {
        self.modes.block = self.modes.block.saturating_add(1);
    }

    /// Sets the modes in force at the next line.
    pub fn set(&mut self, modes: Modes)
        ensures { self.new ≡ with_modes modes self.old }
    {
        self.modes = modes;
    }

    /// Sets the location counter of the current section, and raises the section's size to at least that location.
    pub fn go_to(&mut self, location: u16)
        ensures { self.new ≡ with_move (Goes location) self.old }
    {
        self.place(location);
    }

    /// Moves the location counter of the current section on by this many bytes, modulo 65536, and raises the section's size to at least the
    /// new location.
    pub fn step(&mut self, size: u32)
        ensures { self.new ≡ with_move (Steps size) self.old }
    {
        let location = (u64::from(self.location()) + u64::from(size)) % 65536;
        self.place(location as u16);
    }

    // Sets the location counter of the current section, and raises the section's size to at least that location.
    fn place(&mut self, location: u16)
        ensures { self.new ≡ with_location location self.old }
    {
        let section = self.modes.section;
        set_at(&mut self.counters, section, location);
        raise_at(&mut self.sizes, section, location);
    }
}

// Whether a name is in a set.
// speed: the set is empty in most sources, and then the name isn't hashed.
#[inline(always)]
fn is_among(names: &SeededSet<Name>, name: Name) -> bool
    ensures { result ≡ list_any (is_same_name name) names.now.keys }
{
    match names.as_slice() {
        [] => false,
        _ => names.contains(&name),
    }
}

// The entry for a section in a list; 0 if there is none.
fn number_at(numbers: &[u16], section: u16) -> u16
    ensures { result ≡ get_or numbers.now section 0 }
{
    match numbers.get(usize::from(section)) {
        Some(number) => *number,
        None => 0,
    }
}

// Sets the entry for a section in a list, if there is one.
fn set_at(numbers: &mut ArrayVec<u16, 64>, section: u16, number: u16)
    ensures { numbers.new.items ≡ slice_set numbers.old.items section number }
{
    match numbers.get_mut(usize::from(section)) {
        Some(place) => *place = number,
        None => {}
    }
}

// Raises the entry for a section in a list, if there is one, to at least this number.
fn raise_at(numbers: &mut ArrayVec<u16, 64>, section: u16, number: u16)
    ensures { numbers.new.items ≡ slice_set numbers.old.items section (max (get_or numbers.old.items section 0) number) }
{
    match numbers.get_mut(usize::from(section)) {
        Some(place) => *place = (*place).max(number),
        None => {}
    }
}

// The definition of the name of the register with this number, 0 to 7.
fn register(number: u16) -> Definition
    ensures { result ≡ register number }
{
    Definition {
        standing: Standing::Known(number, Kind::Register),
        is_firm: true,
        label: None,
    }
}

// The section used in place of a missing one: the blank one.
fn blank_section() -> Section
    ensures { result ≡ section blank_name of_program }
{
    Section {
        name: blank_name(),
        attributes: SectionFlags::OF_PROGRAM.bits(),
    }
}

fn name_in_words(name: &[u8; 6]) -> Name
    ensures { result ≡ name_in_words name.now }
{
    match Name::pack(name) {
        Some(name) => name,
        None => blank_name(),
    }
}
