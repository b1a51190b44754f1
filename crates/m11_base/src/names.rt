//! Names of sections that a source needn't name: the absolute one and the blank one. (MACRO-11 Language Reference Manual, ".ASECT
//! and .CSECT directives".)

ghost use Rattle.std.specs.Prelude.{◌≡◌, Some, codes};
ghost use Rattle.m11_base.specs.Names.{absolute_name, blank_name};
ghost use Rattle.m11_base.specs.Rad50.{name_of};

use crate::rad50::Name;

/// The name of the absolute section, `. ABS.`. Each module has this section.
pub fn absolute_section() -> Name
    ensures { result ≡ absolute_name }
{
    match Name::pack(b". ABS.") {
        Some(name) => name,
        None => unreachable!(),
    }
}

/// Six blanks: the name of the section in which assembly begins, and of a linked module if its object file gives it no name.
#[tactic(auto, unfolding(crate::specs::Rad50::alphabet, crate::specs::Rad50::code_of))]
pub fn blank_name() -> Name
    ensures words { result ≡ blank_name }
    ensures blanks { name_of (codes "      ") ≡ Some result }
{
    match Name::from_words(0, 0) {
        Some(name) => name,
        None => unreachable!(),
    }
}
