//! Where the listing of a module lies in a link, by the contributions of a load map.

ghost use Rattle.std.specs.Prelude.{◌≡◌, ◌++◌, MatchOption, None, Some, IfErr};
ghost use Rattle.m11_base_disassembly.specs.Lines.{lines_of};
ghost use Rattle.m11_base_disassembly.specs.Places as spec;
ghost use Rattle.m11_base_disassembly.specs.declared.map_fault.MapFault.TheVariants.{BadMap};

use crate::columns::{column, name_at, number_at, six_at, symbol_with, three_at};
use crate::contributions::Contribution;
use crate::lines::first_line;
use crate::map_fault::MapFault;
use crate::symbols::{Scope, Symbol};
use m11_base::Name;

// Whether a line of a listing's sections and a contribution show the same section with the same size.
fn is_shown(line: &[u8], contribution: &Contribution) -> bool
    ensures { result ≡ spec.is_shown line.now contribution.now }
{
    match (name_at(line, 0), number_at(line, 7)) {
        (Some(section), Ok(size)) => contribution.section == section && contribution.size == size,
        _ => false,
    }
}

// Whether these contributions begin with one of another module than that with this name.
fn begin_another(module_name: Name, contributions: &[Contribution]) -> bool
    ensures { result ≡ spec.begin_another module_name contributions.now }
{
    match contributions {
        [] => true,
        [contribution, ..] => {
            contribution.module_name != module_name || contribution.is_absolute()
        }
    }
}

// These contributions, if they begin with one of another module than that with this name.
fn if_another(module_name: Name, contributions: &[Contribution]) -> Option<&[Contribution]>
    ensures { MatchOption result (spec.if_another module_name contributions.now ≡ None)
        (λ rest. spec.if_another module_name contributions.now ≡ Some rest.now) }
{
    if begin_another(module_name, contributions) {
        Some(contributions)
    } else {
        None
    }
}

// The contributions after those of the module with this name, if its contributions come first and are those of a listing's sections.
fn after_module<'a>(
    module_name: Name,
    sections: &[u8],
    contributions: &'a [Contribution],
) -> Option<&'a [Contribution]>
    ensures { MatchOption result (spec.after_module module_name (lines_of sections.now) contributions.now ≡ None)
        (λ rest. spec.after_module module_name (lines_of sections.now) contributions.now ≡ Some rest.now) }
{
    let mut lines = sections;
    let mut rest = contributions;
    'lines: while !lines.is_empty() {
        let (line, others) = first_line(lines);
        if line.is_empty() {
            return if_another(module_name, rest);
        }
        match rest {
            [contribution, after @ ..]
                if contribution.module_name == module_name && is_shown(line, contribution) => {
                rest = after;
            }
            _ => return None,
        }
        lines = others;
    }
    if_another(module_name, rest)
}

/// The place of a listing among the contributions of a load map.
#[derive(Clone, Copy)]
pub(crate) struct Place<'a> {
    /// The contributions before those of its module.
    pub(crate) before: &'a [Contribution],
    /// The contributions from the first one of its module on.
    pub(crate) own: &'a [Contribution],
    /// The contributions after those of its module.
    pub(crate) after: &'a [Contribution],
}

/// The place of a listing with these lines of sections: the first module whose contributions are those of its sections; `None` if there is
/// none.
pub(crate) fn place_of<'a>(sections: &[u8], contributions: &'a [Contribution]) -> Option<Place<'a>>
    ensures { MatchOption result (spec.place_of (lines_of sections.now) contributions.now ≡ None)
        (λ place. spec.place_of (lines_of sections.now) contributions.now
        ≡ Some (spec.place_with place.own.now (place.before.now ++ place.after.now))) }
{
    let mut own = contributions;
    'contributions: while let [contribution, others @ ..] = own {
        if let Some(after) = after_module(contribution.module_name, sections, own) {
            let before = &contributions[..contributions.len() - own.len()];
            return Some(Place { before, own, after });
        }
        own = others;
    }
    None
}

// The contribution of the section with this number: the one at the place that its line has among the lines of sections. `None` if no line has
// the number, or there are fewer contributions.
fn contribution_at(number: &[u8; 3], sections: &[u8], own: &[Contribution]) -> Option<Contribution>
    ensures { result ≡ spec.contribution_at number.now (lines_of sections.now) own.now }
{
    let mut lines = sections;
    let mut rest = own;
    'lines: while !lines.is_empty() {
        let (line, others) = first_line(lines);
        match rest {
            [] => return None,
            [contribution, after @ ..] => {
                if three_at(line, 14) == *number {
                    return Some(*contribution);
                }
                rest = after;
            }
        }
        lines = others;
    }
    None
}

// The label at a location in a contribution. Error: `BadMap`, if one of the three is missing.
fn label_with(
    contribution: Option<Contribution>,
    name: Option<Name>,
    location: Result<u16, MapFault>,
) -> Result<Option<Symbol>, MapFault>
    ensures { result ≡ spec.label_with contribution name location }
{
    match (contribution, name, location) {
        (Some(contribution), Some(name), Ok(location)) => Ok(Some(Symbol {
            name,
            value: contribution.base.wrapping_add(location),
            scope: Scope::Label(contribution.end()),
        })),
        _ => Err(MapFault::BadMap),
    }
}

/// The symbol in a line of a symbol table, if the contributions from those of the listing's module on are these: a label in its section's
/// contribution, or a number; `None` if its value is unknown or it is a register. Error: `BadMap`, if the line doesn't have the form of
/// such a line, or the symbol's section has no contribution.
pub(crate) fn placed_symbol(
    own: &[Contribution],
    sections: &[u8],
    line: &[u8],
) -> Result<Option<Symbol>, MapFault>
    ensures symbol { result ≡ spec.placed_symbol own.now (lines_of sections.now) line.now }
    ensures bad { IfErr result (λ fault. fault ≡ BadMap) }
{
    let mark = column(line, 16);
    if six_at(line, 9) == *b"******" || mark == b'%' {
        return Ok(None);
    }
    let name = name_at(line, 0);
    let value = number_at(line, 9);
    match mark {
        b'R' => label_with(
            contribution_at(&three_at(line, 19), sections, own),
            name,
            value,
        ),
        b' ' => symbol_with(name, value),
        _ => Err(MapFault::BadMap),
    }
}
