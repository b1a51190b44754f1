//! The state of one pass over a source. (MACRO-11 Language Reference Manual, "Symbols and expressions" and "Program section directives".)

ghost use Rattle.std.specs.Prelude.{◌≡◌, ◌≤◌, IfOk, IfErr, length};
ghost use Rattle.m11_asm_faults.specs.declared.fault.AsmFault.TheVariants.{NoMemory};
ghost use Rattle.m11_asm_directives.specs.Changes.{move_model};
ghost use Rattle.m11_asm_rules.specs.Changes.{with_move, with_section, with_modes, with_value};
ghost use Rattle.m11_asm_rules.specs.Labels.{with_block, with_definition, with_doubly_defined, with_global};
ghost use Rattle.m11_asm_rules.specs.Limits.{has_too_many, local_count, most_defined_names, most_local_symbols, most_sections, name_count};
ghost use Rattle.m11_asm_rules.specs.Tables.{first_table};
ghost use Rattle.m11_asm_lines.specs.Faults.{Overfills, OverfillsFirst};
ghost use Rattle.m11_asm_rules.specs.declared.definitions.Definition.{Definition as AnyDefinition};
ghost use Rattle.m11_asm_rules.specs.declared.definitions.Key.TheVariants.{Named, Numbered};

use m11_asm_directives::Move;
use m11_asm_faults::AsmFault;
use m11_asm_rules::{Definition, Key, Modes, Table};
use m11_base::{Name, Seed};
use std::alloc::{AllocError, Global};
use std::marker::Model;

/// The most names that a table may define, including those of the eight registers.
const MOST_DEFINED_NAMES: usize = 4104;

/// The most local symbols that a table may define.
const MOST_LOCAL_SYMBOLS: usize = 16384;

/// The most sections that a table may have, including the absolute one and the blank one.
const MOST_SECTIONS: usize = 64;

/// The state of one pass over a source: the table. The table's limits are checked before anything grows.
#[derive(Drop)]
pub struct Pass {
    pub(crate) alloc: Global,
    pub(crate) table: Table,
}

impl Model for Pass {
    ghost use Rattle.m11_asm_rules.specs.Tables.{Table as LineTable};

    ghost Value = { LineTable };

    ghost view = { λ p. p.table };
}

impl Pass {
    /// The state before the first line. Error: memory may be refused.
    pub fn new(alloc: Global, seed: Seed) -> Result<Pass, AllocError>
        ensures { IfOk result (λ pass. pass ≡ first_table) }
    {
        Ok(Pass {
            alloc,
            table: Table::new(alloc, seed)?,
        })
    }

    /// States the limits on names, local symbols and sections, which hold even after a refusal. The function does nothing.
    #[inline(always)]
    pub fn counts_are_within_the_limits(&self)
        ensures names { name_count self.now ≤ most_defined_names }
        ensures symbols { local_count self.now ≤ most_local_symbols }
        ensures sections { length self.now.sections ≤ most_sections }
    {
        self.table.counts_are_within_the_limits();
    }

    /// The seed of the hashes in the table's maps and sets.
    pub fn seed(&self) -> Seed {
        self.table.seed()
    }

    /// The table after the lines so far.
    pub fn table(&self) -> &Table
        ensures { result.now ≡ self.now }
    {
        &self.table
    }

    // Sets the last definition of a name. Errors: `TooManySymbols` if more than 4,104 names would be defined, and `NoMemory`.
    pub(crate) fn define_name(&mut self, name: Name, definition: Definition) -> Result<(), AsmFault>
        ensures defines { IfOk result (λ _. self.new ≡ with_definition (Named name) definition self.old) }
        ensures refuses { IfErr result (λ fault. OverfillsFirst fault (with_definition (Named name) definition self.old)) }
    {
        self.table.counts_are_within_the_limits();
        if self.lacks_room(name) {
            return Err(AsmFault::TooManySymbols);
        }
        self.table.insert_name(name, definition)?;
        Ok(())
    }

    // Whether a name can't be defined, since it is new and 4,104 names are defined.
    // speed: the count is tested first, so that a name is looked up only once, when it is inserted; most sources have far fewer names
    #[inline(always)]
    pub(crate) fn lacks_room(&self, name: Name) -> bool
        ensures { (definition : AnyDefinition) → result ≡ has_too_many (with_definition (Named name) definition self.now) }
    {
        self.table.counts_are_within_the_limits();
        self.table.name_count() >= MOST_DEFINED_NAMES && !self.table.is_defined(&Key::Named(name))
    }

    // Sets the last definition of a local symbol. Errors: `TooManySymbols` if more than 16,384 local symbols would be defined, and
    // `NoMemory`.
    pub(crate) fn define_symbol(
        &mut self,
        block: u64,
        number: u16,
        definition: Definition,
    ) -> Result<(), AsmFault>
        ensures defines { IfOk result (λ _. self.new ≡ with_definition (Numbered block number) definition self.old) }
        ensures refuses { IfErr result (λ fault. OverfillsFirst fault (with_definition (Numbered block number) definition self.old)) }
    {
        self.table.counts_are_within_the_limits();
        if self.table.local_symbol_count() >= MOST_LOCAL_SYMBOLS
            && !self.table.is_defined(&Key::Numbered(block, number))
        {
            return Err(AsmFault::TooManySymbols);
        }
        self.table.insert_symbol(block, number, definition)?;
        Ok(())
    }

    // Assigns a definition to a name, and makes the name global if `is_global` is true. The name of a label becomes doubly defined instead.
    // Errors: `TooManySymbols` and `NoMemory`.
    // speed: inline, since a call would pass the definition through memory.
    #[inline(always)]
    pub(crate) fn assign(
        &mut self,
        name: Name,
        is_global: bool,
        definition: Definition,
    ) -> Result<(), AsmFault>
        ensures assigns { IfOk result (λ _. self.new ≡ with_value name is_global definition self.old) }
        ensures refuses { IfErr result (λ fault. Overfills fault (with_value name is_global definition self.old)) }
    {
        self.counts_are_within_the_limits();
        if self.table.is_labelled(&Key::Named(name)) {
            return self.double(&Key::Named(name));
        }
        self.define_name(name, definition)?;
        self.counts_are_within_the_limits();
        if is_global {
            self.export(name)?;
        }
        Ok(())
    }

    // Marks a key as doubly defined. Error: `NoMemory`.
    pub(crate) fn double(&mut self, key: &Key) -> Result<(), AsmFault>
        ensures doubles { IfOk result (λ _. self.new ≡ with_doubly_defined key.now self.old) }
        ensures refuses { IfErr result (λ fault. fault ≡ NoMemory) }
    {
        self.table.double(key)?;
        Ok(())
    }

    // Makes a name global. Error: `NoMemory`.
    pub(crate) fn export(&mut self, name: Name) -> Result<(), AsmFault>
        ensures exports { IfOk result (λ _. self.new ≡ with_global name self.old) }
        ensures refuses { IfErr result (λ fault. fault ≡ NoMemory) }
    {
        self.table.export(name)?;
        Ok(())
    }

    // Begins a new block of local symbols.
    pub(crate) fn open_block(&mut self)
        ensures { self.new ≡ with_block self.old }
    {
        self.table.open_block();
    }

    // Sets the modes for the lines that follow.
    pub(crate) fn set(&mut self, modes: Modes)
        ensures { self.new ≡ with_modes modes self.old }
    {
        self.table.set(modes);
    }

    // Selects a section, and begins a new block of local symbols. A new section gets these attributes. Errors: `TooManySections` if there
    // would be more than 64 sections, and `NoMemory`.
    pub(crate) fn select(&mut self, name: Name, attributes: u8) -> Result<(), AsmFault>
        ensures selects { IfOk result (λ _. self.new ≡ with_section name attributes self.old) }
        ensures refuses { IfErr result (λ fault. Overfills fault (with_section name attributes self.old)) }
    {
        self.table.counts_are_within_the_limits();
        if self.table.section_count() >= MOST_SECTIONS
            && self.table.section_number(name).is_none()
        {
            return Err(AsmFault::TooManySections);
        }
        self.table.select(name, attributes)?;
        Ok(())
    }

    // Moves the counter of the current section on, or sets it.
    pub(crate) fn count(&mut self, step: Move)
        ensures { self.new ≡ with_move (move_model step) self.old }
    {
        match step {
            Move::Steps(size) => self.table.step(size),
            Move::Goes(location) => self.table.go_to(location),
        }
    }
}
