//! Globals that another object has to define. (RT-11 Volume and File Formats Manual, "Object file format", global symbol entry; MACRO-11
//! Language Reference Manual, ".GLOBL directive" and ".WEAK directive".)

ghost use Rattle.std.specs.Prelude.{◌≡◌, ◌++◌, IfOk, filter};
ghost use Rattle.m11_asm_rules.specs.Assigning.{is_unknown_as};
ghost use Rattle.m11_asm_directory.specs.FirstPass.{directory_facts};
ghost use Rattle.m11_asm_directory.specs.Names.{has_name};
ghost use Rattle.m11_asm_directory.specs.References.{is_open, reference_rows, references};
ghost use Rattle.m11_obj.specs.declared.directory.DirectoryRow.TheVariants as row;

use crate::first_pass::FirstPass;
use crate::names::ordered_names;
use m11_asm_rules::{Key, Standing, Table};
use m11_base::{Name, SeededSet};
use m11_obj::DirectoryRow;
use std::alloc::{AllocError, Global};

fn is_unknown(standing: Standing) -> bool
    ensures { result ≡ is_unknown_as standing }
{
    matches!(&standing, Standing::Unknown)
}

// Whether a name is open: no line defines it, or it is global and its value isn't known.
fn is_open(table: &Table, name: Name) -> bool
    ensures { result ≡ is_open table.now name }
{
    match table.definition(&Key::Named(name)) {
        Some(definition) => is_unknown(definition.standing) && table.is_global(name),
        None => true,
    }
}

// Adds the open names of a list. Error: memory was refused.
fn push_open(needed: &mut Vec<Name>, table: &Table, names: &[Name]) -> Result<(), AllocError>
    ensures { IfOk result (λ _. needed.new.items ≡ needed.old.items ++ filter (is_open table.now) names.now) }
{
    let mut rest = names;
    'names: while let [name, others @ ..] = rest {
        if is_open(table, *name) {
            needed.push(*name)?;
        }
        rest = others;
    }
    Ok(())
}

/// The names that another object has to define, each once, in order. Error: memory was refused.
pub(crate) fn references(alloc: Global, first: &FirstPass<'_>) -> Result<Vec<Name>, AllocError>
    ensures { IfOk result (λ names. names.items ≡ references (directory_facts first.now)) }
{
    let mut needed = Vec::new(alloc);
    push_open(&mut needed, first.table, first.referred.as_slice())?;
    push_open(&mut needed, first.table, first.table.globals())?;
    ordered_names(alloc, needed.as_slice())
}

fn reference_row(weak: &SeededSet<Name>, name: Name) -> DirectoryRow
    ensures { result ≡ row.Reference name (has_name name weak.now.keys) }
{
    DirectoryRow::Reference {
        name,
        is_weak: weak.contains(&name),
    }
}

/// Adds the rows of references: a reference is weak if its name is among the weak ones. Error: memory was refused.
pub(crate) fn push_references(
    rows: &mut Vec<DirectoryRow>,
    weak: &SeededSet<Name>,
    names: &[Name],
) -> Result<(), AllocError>
    ensures { IfOk result (λ _. rows.new.items ≡ rows.old.items ++ reference_rows weak.now.keys names.now) }
{
    let mut rest = names;
    'names: while let [name, others @ ..] = rest {
        rows.push(reference_row(weak, *name))?;
        rest = others;
    }
    Ok(())
}
