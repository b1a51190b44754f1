//! The contributions of modules to sections, as a load map shows them, and the names that follow from them.

ghost use Rattle.std.specs.Prelude.{◌≡◌, ◌⊎◌, ◌++◌, IfErr, IfOk, OnOk, Ok, Err, Some, codes};
ghost use Rattle.std.specs.Str.{bytes_eq};
ghost use Rattle.m11_base_disassembly.specs.Contributions as spec;
ghost use Rattle.m11_base_disassembly.specs.Lines.{lines_of};
ghost use Rattle.m11_base_disassembly.specs.declared.map_fault.MapFault.TheVariants.{NoMemory};

use crate::columns::{column, name_at, number_at};
use crate::lines::{after_line, first_line};
use crate::map_fault::MapFault;
use crate::symbols::{Scope, Symbol};
use m11_base::{Name, absolute_section, blank_name};
use std::alloc::{AllocError, Global};

/// A module's contribution to a section, as a line of a load map shows it.
#[derive(Clone, Copy)]
pub struct Contribution {
    /// The address of its first byte.
    pub base: u16,
    /// Its size, in bytes.
    pub size: u16,
    /// The name of the section.
    pub section: Name,
    /// The name of the module.
    pub module_name: Name,
}

// The contribution in a line of a load map. Error: `BadMap`, if the line doesn't have the form of such a line.
fn contribution_in(line: &[u8]) -> Result<Contribution, MapFault>
    ensures { result ≡ spec.contribution_in line.now }
{
    let has_blanks = column(line, 0) == b' '
        && column(line, 1) == b' '
        && column(line, 8) == b' '
        && column(line, 15) == b' '
        && column(line, 22) == b' ';
    if !has_blanks {
        return Err(MapFault::BadMap);
    }
    match (
        number_at(line, 2),
        number_at(line, 9),
        name_at(line, 16),
        name_at(line, 23),
    ) {
        (Ok(base), Ok(size), Some(section), Some(module_name)) => Ok(Contribution {
            base,
            size,
            section,
            module_name,
        }),
        _ => Err(MapFault::BadMap),
    }
}

// Whether a line ends the contributions.
fn is_globals(line: &[u8]) -> bool
    ensures { result ≡ bytes_eq line.now (codes "GLOBALS") }
{
    line == b"GLOBALS".as_slice()
}

// The contributions in the lines up to the line GLOBALS. Errors: `BadMap`, if there is no such line, or one before it isn't a contribution's;
// `NoMemory`.
fn contributions_in(alloc: Global, lines: &[u8]) -> Result<Vec<Contribution>, MapFault>
    ensures found { IfOk result (λ found. spec.contributions_in (lines_of lines.now) ≡ Ok found.items) }
    ensures fault { IfErr result (λ fault. (fault ≡ NoMemory) ⊎ (spec.contributions_in (lines_of lines.now) ≡ Err fault)) }
{
    let mut found = Vec::new(alloc);
    let mut rest = lines;
    'lines: while !rest.is_empty() {
        let (line, others) = first_line(rest);
        if is_globals(line) {
            return Ok(found);
        }
        match contribution_in(line) {
            Ok(contribution) => found.push(contribution)?,
            Err(fault) => return Err(fault),
        }
        rest = others;
    }
    Err(MapFault::BadMap)
}

/// The contributions that a load map with this text shows, in the order of their lines; none if it has no line SECTIONS. Errors: `BadMap`, if
/// the lines after it up to the line GLOBALS don't have the form of such lines, or there is no line GLOBALS after it; `NoMemory`.
pub(crate) fn contributions_of(alloc: Global, text: &[u8]) -> Result<Vec<Contribution>, MapFault>
    ensures found { IfOk result (λ found. spec.contributions_of (lines_of text.now) ≡ Ok found.items) }
    ensures fault { IfErr result (λ fault. (fault ≡ NoMemory) ⊎ (spec.contributions_of (lines_of text.now) ≡ Err fault)) }
{
    match after_line(text, b"SECTIONS") {
        Some(lines) => contributions_in(alloc, lines),
        None => Ok(Vec::new(alloc)),
    }
}

impl Contribution {
    /// The first address after it.
    pub(crate) fn end(&self) -> u32
        ensures { result ≡ spec.end_of self.now }
    {
        u32::from(self.base) + u32::from(self.size)
    }

    /// Whether it is in the section `. ABS.`.
    pub(crate) fn is_absolute(&self) -> bool
        ensures { result ≡ spec.is_absolute self.now }
    {
        self.section == absolute_section()
    }

    // Whether a global of a module with this value may be a label in it.
    fn may_define(&self, module_name: Name, value: u16) -> bool
        ensures { result ≡ spec.may_define module_name value self.now }
    {
        self.module_name == module_name
            && self.base <= value
            && u32::from(value) < self.end()
            && !self.is_absolute()
    }

    // Whether it names its section.
    fn names_section(&self) -> bool
        ensures { result ≡ spec.names_section self.now }
    {
        self.size != 0
            && !self.is_absolute()
            && !(self.section == blank_name() && self.module_name == blank_name())
    }

    // The name for its addresses, as one of all contributions of a load map.
    fn section_symbol(&self, all: &[Contribution]) -> Symbol
        ensures { result ≡ spec.section_symbol all.now self.now }
    {
        let scope = Scope::Section(self.end());
        if self.section == blank_name() {
            Symbol {
                name: self.module_name,
                value: self.base,
                scope,
            }
        } else {
            Symbol {
                name: self.section,
                value: section_base(self.section, self.base, all),
                scope,
            }
        }
    }
}

/// Which addresses a global of a module with this value may name: as a label those of the first contribution that may define it, if there is
/// one.
pub(crate) fn scope_of(
    module_name: Option<Name>,
    value: u16,
    contributions: &[Contribution],
) -> Scope
    ensures { result ≡ spec.scope_of module_name value contributions.now }
{
    match module_name {
        Some(module_name) => scope_in(module_name, value, contributions),
        None => Scope::Unknown,
    }
}

// The same for a module with this name.
fn scope_in(module_name: Name, value: u16, contributions: &[Contribution]) -> Scope
    ensures { result ≡ spec.scope_of (Some module_name) value contributions.now }
{
    let mut rest = contributions;
    'contributions: while let [contribution, others @ ..] = rest {
        if contribution.may_define(module_name, value) {
            return Scope::Label(contribution.end());
        }
        rest = others;
    }
    Scope::Unknown
}

// The address at which a section begins, that of the first contribution to it; `base` if there is none.
fn section_base(section: Name, base: u16, contributions: &[Contribution]) -> u16
    ensures { result ≡ spec.section_base section base contributions.now }
{
    let mut rest = contributions;
    'contributions: while let [contribution, others @ ..] = rest {
        if contribution.section == section {
            return contribution.base;
        }
        rest = others;
    }
    base
}

/// Adds the names of the sections of a load map with these contributions. Error: memory was refused.
pub(crate) fn add_sections(
    symbols: &mut Vec<Symbol>,
    contributions: &[Contribution],
) -> Result<(), AllocError>
    ensures { OnOk result (symbols.new.items ≡ symbols.old.items ++ spec.section_symbols contributions.now contributions.now) }
{
    let mut rest = contributions;
    'contributions: while let [contribution, others @ ..] = rest {
        if contribution.names_section() {
            symbols.push(contribution.section_symbol(contributions))?;
        }
        rest = others;
    }
    Ok(())
}
