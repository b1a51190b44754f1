//! Where the sections of a listing lie.

ghost use Rattle.std.specs.Prelude.{◌≡◌, IfOk};
ghost use Rattle.m11_base_disassembly.specs.Lines.{lines_of};
ghost use Rattle.m11_base_disassembly.specs.ListedLines as spec;

use crate::columns::number_at;
use crate::contributions::Contribution;
use crate::lines::first_line;
use crate::listings::{next_base, own_base};
use crate::map_fault::MapFault;
use crate::rows::Form;
use std::alloc::{AllocError, Global};

/// Where a section of a listing lies.
#[derive(Clone, Copy)]
pub struct Part {
    /// The address of its first byte.
    pub base: u16,
    /// The first address after it, at most octal 377776.
    pub end: u32,
}

// Where the sections of a listing lie, if the contributions from those of its module on are these. Error: memory was refused.
fn placed_parts(
    alloc: Global,
    own: &[Contribution],
    sections: &[u8],
) -> Result<Vec<Part>, AllocError>
    ensures { IfOk result (λ parts. parts.items ≡ spec.placed_parts own.now (lines_of sections.now)) }
{
    let mut parts = Vec::new(alloc);
    let mut lines = sections;
    let mut rest = own;
    'lines: while !lines.is_empty() {
        let (line, others) = first_line(lines);
        match rest {
            [contribution, after @ ..] if !line.is_empty() => {
                parts.push(Part {
                    base: contribution.base,
                    end: contribution.end(),
                })?;
                rest = after;
            }
            _ => return Ok(parts),
        }
        lines = others;
    }
    Ok(parts)
}

// Where the section that a line describes lies, if the next relocatable section begins at `base`. Error: `BadMap`, if the line describes none.
fn listed_part(base: u16, line: &[u8]) -> Result<Part, MapFault>
    ensures { result ≡ spec.listed_part base line.now }
{
    match (own_base(base, line), number_at(line, 7)) {
        (Ok(base), Ok(size)) => Ok(Part {
            base,
            end: u32::from(base) + u32::from(size),
        }),
        _ => Err(MapFault::BadMap),
    }
}

// Where the sections of a listing lie, if relocatable ones begin at `bottom`. Error: memory was refused.
fn listed_parts(alloc: Global, bottom: u16, sections: &[u8]) -> Result<Vec<Part>, AllocError>
    ensures { IfOk result (λ parts. parts.items ≡ spec.listed_parts bottom (lines_of sections.now)) }
{
    let mut parts = Vec::new(alloc);
    let mut base = bottom;
    let mut rest = sections;
    'lines: while !rest.is_empty() {
        let (line, others) = first_line(rest);
        if line.is_empty() {
            return Ok(parts);
        }
        match next_base(base, line) {
            Ok(next) => match listed_part(base, line) {
                Ok(part) => {
                    parts.push(part)?;
                    base = next;
                }
                Err(_) => return Ok(parts),
            },
            Err(_) => return Ok(parts),
        }
        rest = others;
    }
    Ok(parts)
}

/// Where the sections of a listing whose names are in these lines lie; none if the lines aren't those of a listing. Error: memory was refused.
pub(crate) fn parts_of(alloc: Global, form: Form<'_>) -> Result<Vec<Part>, AllocError>
    ensures { IfOk result (λ parts. parts.items ≡ spec.parts_of form.entry) }
{
    match form {
        Form::Listing(bottom, sections) => listed_parts(alloc, bottom, sections),
        Form::Placed(own, sections) => placed_parts(alloc, own, sections),
        Form::LinkMap | Form::LoadMap(_) => Ok(Vec::new(alloc)),
    }
}
