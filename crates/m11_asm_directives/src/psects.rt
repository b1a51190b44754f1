//! `.ASECT`, `.CSECT` and `.PSECT`. (MACRO-11 Language Reference Manual, "Program section directives".)

ghost use Rattle.std.specs.Prelude.{◌≡◌};
ghost use Rattle.m11_scan_statements.specs.Listed.{is_comma};
ghost use Rattle.m11_asm_rules.specs.Psects as spec;
ghost use Rattle.m11_asm_directives.specs.Settings.{effect_model};
ghost use Rattle.m11_asm_directives.specs.SectionNames.{section_model};

use crate::attributes::has_unnamed;
use crate::exports::names_flags;
use crate::settings::{Effect, Setting, refused};
use m11_asm_operands::{ListedNames, argument_flags};
use m11_base::{Name, absolute_section, blank_name};
use m11_obj::SectionFlags;
use m11_scan::{ErrorFlags, Line, Sort, next_token};
use m11_scan_expressions::left_over;
use m11_unfold_rules::{NameAt, after_comma, name_at};

/// The name of a section at a column of a line.
#[derive(Clone, Copy)]
pub enum SectionAt {
    /// No name.
    Unnamed,
    /// A name, and the column after it.
    Named(NameAt),
    /// Something that isn't a name.
    Bad,
}

// Reads the name of a section at a column. There is no name if no token is left, or if a comma comes first. Anything else that isn't a name
// is bad.
fn section_at(line: &Line, start: u8) -> SectionAt
    ensures { section_model result ≡ spec.section_at line.now.text start }
{
    match next_token(line, start) {
        None => SectionAt::Unnamed,
        Some(token) if is_comma(token.sort) => SectionAt::Unnamed,
        Some(_) => match name_at(line, start) {
            Some(name) => SectionAt::Named(name),
            None => SectionAt::Bad,
        },
    }
}

fn is_comma(sort: Sort) -> bool
    ensures { result ≡ is_comma sort }
{
    matches!(sort, Sort::Comma)
}

/// Reads a `.PSECT`, which selects the section with its name, or the blank section without a name. A new section gets the attributes in the
/// list. An element that isn't the name of an attribute is flagged A. With a bad name the directive does nothing, and is flagged A.
pub fn psect(names: &mut ListedNames, line: &Line, start: u8) -> Effect
    ensures { effect_model line.now.text names.new.list.items result ≡ spec.psect line.now.text start }
{
    match section_at(line, start) {
        SectionAt::Unnamed => selecting(names, line, start, start, blank_name()),
        SectionAt::Named(name) => selecting(names, line, start, name.end, name.name),
        SectionAt::Bad => refused(line, start),
    }
}

// Selects the section with this name. The attributes follow a comma at `end`, where the name ends. An element that isn't the name of an
// attribute is flagged A.
fn selecting(names: &mut ListedNames, line: &Line, start: u8, end: u8, name: Name) -> Effect
    ensures { effect_model line.now.text names.new.list.items result
        ≡ spec.selecting line.now.text start name (spec.attributes_at line.now.text end) }
{
    read_attributes(names, line, end);
    let unnamed = ErrorFlags::A.when(has_unnamed(line, names.list.as_slice()));
    Effect {
        setting: Setting::Select(name, SectionFlags::OF_PROGRAM),
        flags: unnamed.with(names_flags(line, start, names)),
    }
}

// Reads the attributes, which follow a comma; without a comma there are none.
fn read_attributes(names: &mut ListedNames, line: &Line, end: u8)
    ensures list { names.new.list.items ≡ (spec.attributes_at line.now.text end).list }
    ensures end { names.new.end ≡ (spec.attributes_at line.now.text end).end }
{
    match after_comma(line, end) {
        Some(next) => names.read(line, next),
        None => names.leave_none(end),
    }
}

/// Reads a `.CSECT`, which selects the section with its name, or the blank section without a name. A new section with a name gets the
/// attributes RW, I, GBL, REL and OVR. With a bad name the directive does nothing, and is flagged A.
pub fn csect(names: &mut ListedNames, line: &Line, start: u8) -> Effect
    ensures { effect_model line.now.text names.new.list.items result ≡ spec.csect line.now.text start }
{
    names.leave_none(start);
    match section_at(line, start) {
        SectionAt::Unnamed => Effect {
            setting: Setting::Select(blank_name(), SectionFlags::OF_PROGRAM),
            flags: left_over(line, start),
        },
        SectionAt::Named(name) => Effect {
            setting: Setting::Select(name.name, SectionFlags::OF_CONTROL),
            flags: argument_flags(line, start, name.end),
        },
        SectionAt::Bad => refused(line, start),
    }
}

/// Reads an `.ASECT`, which selects the absolute section. Any text after its name is left over.
pub fn asect(names: &mut ListedNames, line: &Line, start: u8) -> Effect
    ensures { effect_model line.now.text names.new.list.items result ≡ spec.asect line.now.text start }
{
    names.leave_none(start);
    Effect {
        setting: Setting::Select(absolute_section(), SectionFlags::OF_ABSOLUTE),
        flags: left_over(line, start),
    }
}
