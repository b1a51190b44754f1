//! The lines of a text that give symbols.

ghost use Rattle.std.specs.Prelude.{◌≡◌, IfErr};
ghost use Rattle.m11_base_disassembly.specs.Rows as spec;
ghost use Rattle.m11_base_disassembly.specs.declared.map_fault.MapFault.TheVariants.{BadMap};

use crate::columns::{column, name_at, number_at, symbol_with};
use crate::contributions::{Contribution, scope_of};
use crate::listings::listed_symbol;
use crate::map_fault::MapFault;
use crate::places::placed_symbol;
use crate::symbols::Symbol;

/// Which lines of a text give symbols, and how.
#[derive(Clone, Copy)]
pub(crate) enum Form<'a> {
    /// The lines of a link's map up to the line UNDEFINED.
    LinkMap,
    /// The lines of a load map up to its end; with its contributions.
    LoadMap(&'a [Contribution]),
    /// The lines of a listing's symbol table up to an empty line; with the address where relocatable sections begin, and the lines of
    /// sections.
    Listing(u16, &'a [u8]),
    /// The same with a load map, which shows the contributions from those of the listing's module on; with these, and the lines of sections.
    Placed(&'a [Contribution], &'a [u8]),
}

// The global of a line of a link's map: the name, a blank, the value, and a blank. Any other line is `BadMap`.
fn linked_global(line: &[u8]) -> Result<Option<Symbol>, MapFault>
    ensures symbol { result ≡ spec.linked_global line.now }
    ensures bad { IfErr result (λ fault. fault ≡ BadMap) }
{
    if column(line, 6) == b' ' && column(line, 13) == b' ' {
        symbol_with(name_at(line, 0), number_at(line, 7))
    } else {
        Err(MapFault::BadMap)
    }
}

// The global of a line of a load map with these contributions: two blanks, the value, a blank, the name, a blank, and the name of its module.
// Any other line is `BadMap`.
fn loaded_global(contributions: &[Contribution], line: &[u8]) -> Result<Option<Symbol>, MapFault>
    ensures symbol { result ≡ spec.loaded_global contributions.now line.now }
    ensures bad { IfErr result (λ fault. fault ≡ BadMap) }
{
    let has_blanks = column(line, 0) == b' '
        && column(line, 1) == b' '
        && column(line, 8) == b' '
        && column(line, 15) == b' ';
    if !has_blanks {
        return Err(MapFault::BadMap);
    }
    match (name_at(line, 9), number_at(line, 2)) {
        (Some(name), Ok(value)) => Ok(Some(Symbol {
            name,
            value,
            scope: scope_of(name_at(line, 16), value, contributions),
        })),
        _ => Err(MapFault::BadMap),
    }
}

/// The symbol of a line, or `None` if its name has no address. Error: `BadMap`, if the line doesn't have this form.
pub(crate) fn row(form: Form<'_>, line: &[u8]) -> Result<Option<Symbol>, MapFault>
    ensures symbol { result ≡ (spec.rows_of form.entry).symbol line.now }
    ensures bad { IfErr result (λ fault. fault ≡ BadMap) }
{
    match form {
        Form::LinkMap => linked_global(line),
        Form::LoadMap(contributions) => loaded_global(contributions, line),
        Form::Listing(bottom, sections) => listed_symbol(bottom, sections, line),
        Form::Placed(own, sections) => placed_symbol(own, sections, line),
    }
}

/// Whether a line ends the lines that give symbols.
pub(crate) fn is_end(form: Form<'_>, line: &[u8]) -> bool
    ensures { result ≡ (spec.rows_of form.entry).is_end line.now }
{
    match form {
        Form::LinkMap => line == b"UNDEFINED".as_slice(),
        Form::LoadMap(_) => false,
        Form::Listing(_, _) | Form::Placed(_, _) => line.is_empty(),
    }
}

/// Whether the end of the text may end the lines that give symbols.
pub(crate) fn may_end(form: Form<'_>) -> bool
    ensures { result ≡ (spec.rows_of form.entry).may_end }
{
    match form {
        Form::LoadMap(_) => true,
        Form::LinkMap | Form::Listing(_, _) | Form::Placed(_, _) => false,
    }
}
