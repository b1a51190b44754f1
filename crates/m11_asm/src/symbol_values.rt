//! The values that the symbol table shows. (MACRO-11 Language Reference Manual, "Table of contents and symbol table".)

ghost use Rattle.std.specs.Prelude.{◌≡◌, Some};
ghost use Rattle.m11_scan_expressions.specs.declared.kinds.Kind.TheVariants as kind;
ghost use Rattle.m11_asm.specs.Values as spec;

use m11_asm_listing::SymbolValue;
use m11_asm_rules::{Definition, Standing, Table};
use m11_base::Name;
use m11_scan_expressions::Kind;

// The value of the location `number` in the section `name`, with the number of that section; an absolute number if the table doesn't have
// the section, which never happens.
fn location_value(table: &Table, number: u16, name: Name) -> SymbolValue
    ensures { result ≡ spec.known_value table.now.sections number (kind.Section name) }
{
    table.counts_are_within_the_limits();
    match table.section_number(name) {
        Some(section) => SymbolValue::Relocatable {
            location: number,
            section: section as u8,
        },
        None => SymbolValue::Absolute(number),
    }
}

fn known_value(table: &Table, number: u16, kind: Kind) -> SymbolValue
    ensures { result ≡ spec.known_value table.now.sections number kind }
{
    match kind {
        Kind::Section(name) => location_value(table, number, name),
        Kind::Register => SymbolValue::Register(number),
        Kind::Absolute | Kind::Reference(_) => SymbolValue::Absolute(number),
    }
}

/// The value of a definition, as the symbol table shows it.
pub(crate) fn value_of(table: &Table, definition: Definition) -> SymbolValue
    ensures { result ≡ spec.symbol_value table.now.sections (Some definition) }
{
    match definition.standing {
        Standing::Known(number, kind) => known_value(table, number, kind),
        Standing::Unknown => SymbolValue::Unknown,
    }
}
