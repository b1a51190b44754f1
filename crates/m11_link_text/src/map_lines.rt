//! The lines of a link's map. They show names with six characters and numbers with six octal digits, and have no blanks at the end.

ghost use Rattle.std.specs.Prelude.{◌≡◌, ◌≤◌};
ghost use Rattle.arrayvec.specs.ArrayVec.{array_vec_len};
ghost use Rattle.m11_link_text.specs.Lines as spec;

use m11_base::{Name, octal6};
use m11_obj::SectionFlags;
use m11_obj_print::{Line, add_attributes, add_bytes, ended};

// A name and two words in octal, with a blank after each of the three.
fn columns(name: Name, first: u16, second: u16) -> Line
    ensures text { result.items ≡ spec.columns name first second }
    ensures room { array_vec_len result ≤ 21 }
{
    let mut line = Line::new();
    add_bytes(&mut line, &name.characters());
    add_bytes(&mut line, b" ");
    add_bytes(&mut line, &octal6(first));
    add_bytes(&mut line, b" ");
    add_bytes(&mut line, &octal6(second));
    add_bytes(&mut line, b" ");
    line
}

/// The line of a section: its name, its base, its size in bytes, and its attributes.
pub fn section_line(name: Name, base: u16, size: u16, attributes: SectionFlags) -> Line
    ensures { result.items ≡ spec.section_line name base size attributes.0 }
{
    let mut line = columns(name, base, size);
    add_attributes(&mut line, attributes);
    ended(line)
}

/// The line of a defined global: its name, its value, and the first module that defines it.
pub fn global_line(name: Name, value: u16, module_name: Name) -> Line
    ensures { result.items ≡ spec.global_line name value module_name }
{
    let mut line = Line::new();
    add_bytes(&mut line, &name.characters());
    add_bytes(&mut line, b" ");
    add_bytes(&mut line, &octal6(value));
    add_bytes(&mut line, b" ");
    add_bytes(&mut line, &module_name.characters());
    ended(line)
}

/// The line of an undefined global: its name.
pub fn name_line(global: Name) -> Line
    ensures { result.items ≡ spec.name_line global }
{
    let mut line = Line::new();
    add_bytes(&mut line, &global.characters());
    ended(line)
}

/// The line of the transfer address.
pub fn transfer_line(address: u16) -> Line
    ensures { result.items ≡ spec.transfer_line address }
{
    let mut line = Line::new();
    add_bytes(&mut line, b"TRANSFER ");
    add_bytes(&mut line, &octal6(address));
    ended(line)
}

/// The line of the limits: the first address of the relocatable sections, and the address after the last relocatable section.
pub fn limit_line(bottom: u16, top: u16) -> Line
    ensures { result.items ≡ spec.limit_line bottom top }
{
    let mut line = Line::new();
    add_bytes(&mut line, b"LIMIT ");
    add_bytes(&mut line, &octal6(bottom));
    add_bytes(&mut line, b" ");
    add_bytes(&mut line, &octal6(top));
    ended(line)
}
