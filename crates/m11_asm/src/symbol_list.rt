//! The names of the symbol table. (MACRO-11 Language Reference Manual, "Table of contents and symbol table" and ".GLOBL directive".)

ghost use Rattle.std.specs.Prelude.{◌≡◌, ◌++◌, IfOk, map};
ghost use Rattle.m11_asm_directory.specs.FirstPass.{directory_facts};
ghost use Rattle.m11_asm_directory.specs.Names.{ordered};
ghost use Rattle.m11_asm.specs.Symbols as spec;

use crate::symbol_values::value_of;
use m11_asm_directory::{FirstPass, ordered_names, ordered_names_are_in_order};
use m11_asm_listing::{SymbolEntry, SymbolValue};
use m11_asm_rules::Key;
use m11_base::{Name, SeededSet};
use std::alloc::{AllocError, Global};

// Whether lines refer to a name and no line defines it.
fn is_needed(first: &FirstPass<'_>, name: Name) -> bool
    ensures { result ≡ spec.is_needed (directory_facts first.now) name }
{
    first.referred.contains(&name) && first.table.definition(&Key::Named(name)).is_none()
}

// Whether lines made a name global, or another object has to define it.
fn is_global(first: &FirstPass<'_>, name: Name) -> bool
    ensures { result ≡ spec.is_global (directory_facts first.now) name }
{
    ordered_names_are_in_order();
    first.table.is_global(name) || is_needed(first, name)
}

// The entry of a name, with the value of its last definition; without a definition the value is unknown.
fn symbol_entry(first: &FirstPass<'_>, name: Name) -> SymbolEntry
    ensures { result ≡ spec.symbol_entry (directory_facts first.now) name }
{
    let is_global = is_global(first, name);
    match first.table.definition(&Key::Named(name)) {
        Some(definition) => SymbolEntry {
            name,
            is_assigned: definition.label.is_none(),
            value: value_of(first.table, *definition),
            is_global,
        },
        None => SymbolEntry {
            name,
            is_assigned: false,
            value: SymbolValue::Unknown,
            is_global,
        },
    }
}

// Adds the entries of the names in a list. Error: memory may be refused.
fn push_symbols(
    entries: &mut Vec<SymbolEntry>,
    first: &FirstPass<'_>,
    names: &[Name],
) -> Result<(), AllocError>
    ensures { IfOk result (λ _. entries.new.items
        ≡ entries.old.items ++ map (spec.symbol_entry (directory_facts first.now)) names.now) }
{
    let mut rest = names;
    'names: while let [name, others @ ..] = rest {
        entries.push(symbol_entry(first, *name))?;
        rest = others;
    }
    Ok(())
}

// The names of two lists, each once, in the order of their two RADIX-50 words. Error: memory may be refused.
fn joined_names(alloc: Global, names: &[Name], registers: &[Name]) -> Result<Vec<Name>, AllocError>
    ensures { IfOk result (λ list. list.items ≡ ordered (names.now ++ registers.now)) }
{
    let mut list = Vec::from_slice(alloc, names)?;
    list.extend_from_slice(registers)?;
    ordered_names(alloc, list.as_slice())
}

/// The entries of the names and registers that lines use, in the order of the two RADIX-50 words of each name. Error: memory may be
/// refused.
#[tactic(auto, unfolding(crate::specs::Symbols::symbol_entries))]
pub fn symbol_entries(
    alloc: Global,
    first: &FirstPass<'_>,
    names: &SeededSet<Name>,
    registers: &SeededSet<Name>,
) -> Result<Vec<SymbolEntry>, AllocError>
    ensures { IfOk result (λ entries. entries.items
        ≡ spec.symbol_entries (directory_facts first.now) (names.now.keys ++ registers.now.keys)) }
{
    let list = joined_names(alloc, names.as_slice(), registers.as_slice())?;
    let mut entries = Vec::new(alloc);
    push_symbols(&mut entries, first, list.as_slice())?;
    Ok(entries)
}
