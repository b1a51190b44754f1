//! The lines of a load map.

ghost use Rattle.std.specs.Prelude.{◌≡◌};
ghost use Rattle.m11_link_load_map.specs.LoadMap as spec;

use m11_base::{Name, octal6};
use m11_obj_print::{Line, add_bytes, ended};

/// The line for a module's contribution to a section: its address and size, the section and the module.
#[tactic(auto, using(m11_obj_print::proofs::Trimming::line_at))]
pub(crate) fn section_line(base: u16, size: u16, section: Name, module_name: Name) -> Line
    ensures { result.items ≡ spec.section_line base size section module_name }
{
    let mut line = Line::new();
    add_bytes(&mut line, b"  ");
    add_bytes(&mut line, &octal6(base));
    add_bytes(&mut line, b" ");
    add_bytes(&mut line, &octal6(size));
    add_bytes(&mut line, b" ");
    add_bytes(&mut line, &section.characters());
    add_bytes(&mut line, b" ");
    add_bytes(&mut line, &module_name.characters());
    ended(line)
}

/// The line for a global: its value, its name, and the first module that defines it.
#[tactic(auto, using(m11_obj_print::proofs::Trimming::line_at))]
pub(crate) fn global_line(value: u16, name: Name, module_name: Name) -> Line
    ensures { result.items ≡ spec.global_line value name module_name }
{
    let mut line = Line::new();
    add_bytes(&mut line, b"  ");
    add_bytes(&mut line, &octal6(value));
    add_bytes(&mut line, b" ");
    add_bytes(&mut line, &name.characters());
    add_bytes(&mut line, b" ");
    add_bytes(&mut line, &module_name.characters());
    ended(line)
}
