//! The directory rows of defined globals, each after the row of the section of its value. (RT-11 Volume and File Formats Manual,
//! "Object file format", global symbol entry; MACRO-11 Language Reference Manual, ".GLOBL directive".)

ghost use Rattle.std.specs.Prelude.{◌≡◌, ◌++◌, IfOk};
ghost use Rattle.m11_asm_directory.specs.Definitions.{definition_rows, is_relocatable, lies_in, row_by};
ghost use Rattle.m11_asm_rules.specs.Definitions.{last_definition};
ghost use Rattle.m11_asm_rules.specs.declared.definitions.Key.TheVariants.{Named};
ghost use Rattle.m11_obj.specs.declared.directory.DirectoryRow.TheVariants as row;

use m11_asm_rules::{Key, Standing, Table};
use m11_base::{Name, absolute_section};
use m11_obj::DirectoryRow;
use m11_scan_expressions::Kind;
use std::alloc::AllocError;

fn definition(name: Name, is_relocatable: bool, value: u16) -> DirectoryRow
    ensures { result ≡ row.Definition name is_relocatable value }
{
    DirectoryRow::Definition {
        name,
        is_relocatable,
        value,
    }
}

// Whether a value of this kind belongs to a section. An absolute value belongs to the absolute section; a register or a reference belongs
// to no section.
fn lies_in(section: Name, kind: &Kind) -> bool
    ensures { result ≡ lies_in section kind.now }
{
    match kind {
        Kind::Absolute => absolute_section() == section,
        Kind::Section(other) => *other == section,
        Kind::Register | Kind::Reference(_) => false,
    }
}

// Whether a value of this kind moves with its section.
fn is_relocatable(kind: &Kind) -> bool
    ensures { result ≡ is_relocatable kind.now }
{
    matches!(kind, Kind::Section(_))
}

// The row of a global among those that follow a section's row; None unless the value of its last definition is known and belongs to the
// section.
fn definition_row(table: &Table, section: Name, name: Name) -> Option<DirectoryRow>
    ensures { result ≡ row_by section name (last_definition (Named name) table.now.definitions) }
{
    match table.definition(&Key::Named(name)) {
        Some(last) => match last.standing {
            Standing::Known(value, kind) if lies_in(section, &kind) => {
                Some(definition(name, is_relocatable(&kind), value))
            }
            _ => None,
        },
        None => None,
    }
}

/// Adds the rows of the names in a list whose values are known and belong to a section, in the order of the list. Error: memory was
/// refused.
pub(crate) fn push_definitions(
    rows: &mut Vec<DirectoryRow>,
    table: &Table,
    section: Name,
    names: &[Name],
) -> Result<(), AllocError>
    ensures { IfOk result (λ _. rows.new.items ≡ rows.old.items ++ definition_rows table.now section names.now) }
{
    let mut rest = names;
    'names: while let [name, others @ ..] = rest {
        if let Some(row) = definition_row(table, section, *name) {
            rows.push(row)?;
        }
        rest = others;
    }
    Ok(())
}
