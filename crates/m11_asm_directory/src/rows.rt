//! The rows of an object's directory, in order. (RT-11 Volume and File Formats Manual, "Object file format", GSD block; MACRO-11
//! Language Reference Manual, ".TITLE directive" and ".IDENT directive".)

ghost use Rattle.std.specs.Prelude.{◌≡◌, ◌<◌, ◌++◌, IfOk, unwrap_or};
ghost use Rattle.m11_asm_directory.specs.FirstPass.{directory_facts};
ghost use Rattle.m11_asm_directory.specs.Names.{ordered};
ghost use Rattle.m11_asm_directory.specs.References.{references};
ghost use Rattle.m11_asm_directory.specs.Rows.{all_section_rows, directory_rows, identification_rows, main_name, section_rows};
ghost use Rattle.m11_asm_rules.specs.Sections.{numbered};
ghost use Rattle.m11_obj.specs.declared.directory.DirectoryRow.TheVariants as row;

use crate::definitions::push_definitions;
use crate::first_pass::FirstPass;
use crate::names::ordered_names;
use crate::references::{push_references, references};
use crate::transfers::transfer_row;
use bitflags::Flags;
use m11_asm_rules::Section;
use m11_base::{Name, blank_name};
use m11_obj::{DirectoryRow, SectionFlags};
use std::alloc::{AllocError, Global};

fn main_name() -> Name
    ensures { result ≡ main_name }
{
    match Name::pack(b".MAIN.") {
        Some(name) => name,
        None => blank_name(),
    }
}

// The row of the module; without a title its name is `.MAIN.`.
fn module_row(title: Option<Name>) -> DirectoryRow
    ensures { result ≡ row.Module (unwrap_or title main_name) }
{
    match title {
        Some(name) => DirectoryRow::Module(name),
        None => DirectoryRow::Module(main_name()),
    }
}

fn section_row(section: Section, size: u16) -> DirectoryRow
    ensures { result ≡ row.Section section.name (record { 0 = section.attributes }) size }
{
    DirectoryRow::Section {
        name: section.name,
        flags: SectionFlags::from_bits_retain(section.attributes),
        size,
    }
}

// Adds the row of a section, and the rows after it: the globals that it defines and, after the absolute section, the references. Error:
// memory was refused.
fn push_section(
    rows: &mut Vec<DirectoryRow>,
    first: &FirstPass<'_>,
    number: u16,
    globals: &[Name],
    needed: &[Name],
) -> Result<(), AllocError>
    requires globals { globals.now ≡ ordered first.now.table.now.globals }
    requires needed { needed.now ≡ references (directory_facts first.now) }
    ensures { IfOk result (λ _. rows.new.items ≡ rows.old.items
        ++ section_rows (directory_facts first.now) (number, numbered number first.now.table.now.sections)) }
{
    let section = first.table.section(number);
    let size = first.table.size(number);
    let name = section.name;
    rows.push(section_row(section, size))?;
    push_definitions(rows, first.table, name, globals)?;
    if number == 0 {
        push_references(rows, first.weak, needed)?;
    }
    Ok(())
}

// Adds the rows of all sections, in the order of their numbers. Error: memory was refused.
fn push_sections(
    rows: &mut Vec<DirectoryRow>,
    first: &FirstPass<'_>,
    globals: &[Name],
    needed: &[Name],
) -> Result<(), AllocError>
    requires globals { globals.now ≡ ordered first.now.table.now.globals }
    requires needed { needed.now ≡ references (directory_facts first.now) }
    ensures { IfOk result (λ _. rows.new.items ≡ rows.old.items ++ all_section_rows (directory_facts first.now)) }
{
    first.table.counts_are_within_the_limits();
    let count = first.table.section_count();
    'sections: for number in 0..count {
        push_section(rows, first, number as u16, globals, needed)?;
    }
    Ok(())
}

fn push_identification(
    rows: &mut Vec<DirectoryRow>,
    identification: Option<Name>,
) -> Result<(), AllocError>
    ensures { IfOk result (λ _. rows.new.items ≡ rows.old.items ++ identification_rows identification) }
{
    if let Some(name) = identification {
        rows.push(DirectoryRow::Identification(name))?;
    }
    Ok(())
}

/// The rows of the directory of a source: its module; its identification, if there is one; its sections, each followed by the globals that
/// it defines, and the absolute one also by the references; and the transfer address. Error: memory was refused.
pub fn directory_rows(alloc: Global, first: &FirstPass<'_>) -> Result<Vec<DirectoryRow>, AllocError>
    ensures { IfOk result (λ rows. rows.items ≡ directory_rows (directory_facts first.now)) }
{
    let globals = ordered_names(alloc, first.table.globals())?;
    let needed = references(alloc, first)?;
    let mut rows = Vec::new(alloc);
    rows.push(module_row(first.title))?;
    push_identification(&mut rows, first.identification)?;
    push_sections(&mut rows, first, globals.as_slice(), needed.as_slice())?;
    rows.push(transfer_row(first.transfer))?;
    Ok(rows)
}
