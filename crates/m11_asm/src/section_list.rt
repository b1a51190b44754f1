//! The sections of the symbol table. (MACRO-11 Language Reference Manual, "Table of contents and symbol table" and "Program section
//! directives".)

ghost use Rattle.std.specs.Prelude.{◌≡◌, ◌<◌, IfOk};
ghost use Rattle.m11_asm_directory.specs.FirstPass.{directory_facts};
ghost use Rattle.m11_asm_rules.specs.Sections.{numbered};
ghost use Rattle.m11_asm.specs.Sections as spec;

use bitflags::Flags;
use m11_asm_directory::FirstPass;
use m11_asm_listing::SectionEntry;
use m11_obj::SectionFlags;
use std::alloc::{AllocError, Global};

// The entry of the section with this number.
fn section_entry(first: &FirstPass<'_>, number: u16) -> SectionEntry
    requires { number < 64 }
    ensures { result ≡ spec.section_entry (directory_facts first.now) (number, numbered number first.now.table.now.sections) }
{
    let section = first.table.section(number);
    SectionEntry {
        name: section.name,
        size: first.table.size(number),
        number: number as u8,
        attributes: SectionFlags::from_bits_retain(section.attributes),
    }
}

/// The entries of the sections, at most 64, in the order of their numbers. Error: memory may be refused.
pub fn section_entries(
    alloc: Global,
    first: &FirstPass<'_>,
) -> Result<Vec<SectionEntry>, AllocError>
    ensures { IfOk result (λ entries. entries.items ≡ spec.section_entries (directory_facts first.now)) }
{
    first.table.counts_are_within_the_limits();
    let mut entries = Vec::new(alloc);
    let count = first.table.section_count();
    'sections: for number in 0..count {
        entries.push(section_entry(first, number as u16))?;
    }
    Ok(entries)
}
