//! The relocation of the values that a line emits. (MACRO-11 Language Reference Manual, "Relocation and linking"; RT-11 Volume and File
//! Formats Manual, "Object file format", RLD block.)

ghost use Rattle.std.specs.Prelude.{◌≡◌};
ghost use Rattle.m11_scan_expressions.specs.Quantities.{quantity};
ghost use Rattle.m11_asm_rules.specs.Relocations as spec;

use crate::line_context::LineContext;
use m11_asm_rules::Table;
use m11_base::Name;
use m11_obj::{RelocationKind, StoredConstant};
use m11_scan_expressions::{Kind, Value};
use std::marker::Model;

// The relocations of a value: in a byte, or in a word that isn't a relative operand; in a relative operand in a REL section; and in a
// relative operand in an ABS section.
#[derive(Clone, Copy)]
pub(crate) struct Row {
    in_word: RelocationKind,
    in_relocatable: RelocationKind,
    in_absolute: RelocationKind,
}

impl Model for Row {
    ghost use Rattle.m11_asm_rules.specs.Relocations.{Row};

    ghost Value = { Row };

    ghost view = { λ r. record { in_word = r.in_word; in_relocatable = r.in_relocatable; in_absolute = r.in_absolute } };

    ghost inverse = { λ r. record { in_word = r.in_word; in_relocatable = r.in_relocatable; in_absolute = r.in_absolute } };
}

impl Row {
    // The row of a value in the line's own section.
    pub(crate) fn here() -> Row
        ensures { result ≡ spec.row_of spec.Here }
    {
        Row {
            in_word: RelocationKind::Internal,
            in_relocatable: RelocationKind::Fixed,
            in_absolute: RelocationKind::Fixed,
        }
    }

    // The row of an absolute number.
    pub(crate) fn zero() -> Row
        ensures { result ≡ spec.row_of spec.Zero }
    {
        Row {
            in_word: RelocationKind::Fixed,
            in_relocatable: RelocationKind::InternalDisplaced,
            in_absolute: RelocationKind::Fixed,
        }
    }

    // The row of a value in another section.
    pub(crate) fn in_section(name: Name) -> Row
        ensures { result ≡ spec.row_of (spec.InSection name) }
    {
        Row {
            in_word: RelocationKind::Section(name),
            in_relocatable: RelocationKind::SectionDisplaced(name),
            in_absolute: RelocationKind::SectionDisplaced(name),
        }
    }

    // The row of a value relative to a name that another object defines.
    pub(crate) fn in_object(name: Name) -> Row
        ensures { result ≡ spec.row_of (spec.InObject name) }
    {
        Row {
            in_word: RelocationKind::Global(name),
            in_relocatable: RelocationKind::GlobalDisplaced(name),
            in_absolute: RelocationKind::GlobalDisplaced(name),
        }
    }

    // The relocation of the value, in a relative operand (`is_relative`) or elsewhere, in a section that the linker moves (`is_moved`) or
    // doesn't.
    pub(crate) fn relocation(self, is_relative: bool, is_moved: bool) -> RelocationKind
        ensures { result ≡ spec.relocation_by is_relative is_moved self }
    {
        match (is_relative, is_moved) {
            (false, _) => self.in_word,
            (true, true) => self.in_relocatable,
            (true, false) => self.in_absolute,
        }
    }
}

// The row of a value in the context of a line. A register counts as an absolute number, since none is allowed where values are emitted.
fn row_of(table: &Table, kind: &Kind) -> Row
    ensures { result ≡ spec.row_of (spec.origin_of table.now kind.now) }
{
    match kind {
        Kind::Absolute | Kind::Register => Row::zero(),
        Kind::Section(name) => section_row(table, *name),
        Kind::Reference(name) => Row::in_object(*name),
    }
}

// The row of a value in a section.
fn section_row(table: &Table, name: Name) -> Row
    ensures { result ≡ spec.row_of (spec.origin_of table.now (Kind.Section name)) }
{
    if name == table.section_name() {
        Row::here()
    } else {
        Row::in_section(name)
    }
}

// The relocation of a value of this kind.
fn relocation_of(table: &Table, is_relative: bool, kind: Kind) -> RelocationKind
    ensures { result ≡ spec.relocation_by is_relative (spec.is_moved table.now) (spec.row_of (spec.origin_of table.now kind)) }
{
    row_of(table, &kind).relocation(is_relative, table.is_moved())
}

// What a location contains for a value: a constant and its relocation.
pub(crate) fn stored(
    line_context: &LineContext,
    is_relative: bool,
    location: u16,
    value: Value,
) -> StoredConstant
    ensures { result ≡ spec.stored line_context.now.table is_relative location (quantity value) }
{
    let kind = relocation_of(line_context.table(), is_relative, value.kind);
    stored_as(is_relative, kind, location, value.number)
}

/// The distance in bytes from the location after a word to a target, modulo 65536.
pub fn distance(location: u16, target: u16) -> u16
    ensures { result ≡ spec.distance location target }
{
    ((u32::from(target) + 131072 - (u32::from(location) + 2)) % 65536) as u16
}

// A value at a location, with its relocation. For a relative operand that the linker doesn't change, the distance of its target from the
// location after the word is stored.
pub(crate) fn stored_as(
    is_relative: bool,
    kind: RelocationKind,
    location: u16,
    number: u16,
) -> StoredConstant
    ensures { result ≡ spec.stored_as is_relative kind location number }
{
    match kind {
        RelocationKind::Fixed if is_relative => fixed(distance(location, number)),
        _ => StoredConstant {
            constant: number,
            kind,
        },
    }
}

/// A number that the linker doesn't change.
pub fn fixed(number: u16) -> StoredConstant
    ensures { result ≡ spec.fixed number }
{
    StoredConstant {
        constant: number,
        kind: RelocationKind::Fixed,
    }
}
