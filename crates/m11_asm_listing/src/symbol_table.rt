//! The symbol table: the names that a source uses, and its sections.

ghost use Rattle.std.specs.Prelude.{◌≡◌, ◌≤◌, ◌+◌, ◌++◌, codes, if◌then◌else◌};
ghost use Rattle.arrayvec.specs.ArrayVec.{array_vec_len};
ghost use Rattle.m11_asm_listing.specs.Columns.{blanks};
ghost use Rattle.m11_asm_listing.specs.SymbolTable as spec;
ghost use Rattle.m11_base.specs.Octal.{octal_text};
ghost use Rattle.m11_base.specs.Rad50.{name_text};

use crate::columns::{add_blanks, add_right};
use itoa::Buffer;
use m11_base::{Name, octal6};
use m11_obj::SectionFlags;
use m11_obj_print::{Line, add_attributes, add_bytes, ended};

/// The value of a name at the end of the first pass.
#[derive(Clone, Copy, PartialEq, Eq)]
pub enum SymbolValue {
    /// No value: the name is undefined, or the value of its last definition is unknown.
    Unknown,
    /// An absolute number.
    Absolute(u16),
    /// A location in a section, and the number of the section.
    Relocatable { location: u16, section: u8 },
    /// The number of a register.
    Register(u16),
}

/// An entry of the table for a name.
#[derive(Clone, Copy, PartialEq, Eq)]
pub struct SymbolEntry {
    /// The name, of six characters.
    pub name: Name,
    /// Whether the name is defined, and its last definition isn't that of a label.
    pub is_assigned: bool,
    /// The value at the end of the first pass.
    pub value: SymbolValue,
    /// Whether lines made the name global, or another object has to define it.
    pub is_global: bool,
}

/// An entry of the table for a section.
#[derive(Clone, Copy, PartialEq, Eq)]
pub struct SectionEntry {
    /// The section's name, of six characters.
    pub name: Name,
    /// The size in bytes: the greatest location that the section's counter had after a line.
    pub size: u16,
    /// The section's number, from 0 to 63: 0 for the absolute section, 1 for the blank one, and the next numbers for the others, in the
    /// order in which they appear.
    pub number: u8,
    /// The attributes from the first directive that names the section; later ones change none. Those of the absolute and the blank section
    /// are fixed.
    pub attributes: SectionFlags,
}

/// The empty line between the parts of a listing.
pub fn empty_line() -> Line
    ensures { result.items ≡ spec.empty_line }
{
    let mut line = Line::new();
    add_bytes(&mut line, b"\n");
    line
}

/// The title of the symbol table.
pub fn title_line() -> Line
    ensures { result.items ≡ spec.title_line }
{
    let mut line = Line::new();
    add_bytes(&mut line, b"SYMBOL TABLE\n");
    line
}

// The characters after a name: ` = ` if the name is assigned, otherwise three blanks.
fn assignment(is_assigned: bool) -> &'static [u8; 3]
    ensures { result.now ≡ (if is_assigned then codes " = " else codes "   ") }
{
    if is_assigned { b" = " } else { b"   " }
}

// The six octal digits of a value, or six asterisks for an unknown one.
fn value_digits(value: SymbolValue) -> [u8; 6]
    ensures { result ≡ spec.value_column value }
{
    match value {
        SymbolValue::Unknown => *b"******",
        SymbolValue::Absolute(number) => octal6(number),
        SymbolValue::Relocatable {
            location,
            section: _,
        } => octal6(location),
        SymbolValue::Register(number) => octal6(number),
    }
}

// The character for the kind of a value: `R` for a relocatable one, `%` for a register, otherwise a blank.
fn kind_character(value: SymbolValue) -> u8
    ensures { result ≡ spec.kind_character value }
{
    match value {
        SymbolValue::Unknown | SymbolValue::Absolute(_) => b' ',
        SymbolValue::Relocatable { .. } => b'R',
        SymbolValue::Register(_) => b'%',
    }
}

// `G` for a global name, otherwise a blank.
fn scope_character(is_global: bool) -> u8
    ensures { result ≡ (if is_global then 0o107 else 0o40) }
{
    if is_global { b'G' } else { b' ' }
}

// Adds the number of the section that a relocatable value belongs to, or three blanks for any other value.
fn add_section_number(line: &mut Line, value: SymbolValue)
    requires { array_vec_len line.old ≤ 100 }
    ensures items { line.new.items ≡ line.old.items ++ spec.section_column value }
    ensures size { array_vec_len line.new ≡ array_vec_len line.old + 3 }
{
    match value {
        SymbolValue::Relocatable {
            location: _,
            section,
        } => add_number(line, section),
        SymbolValue::Unknown => add_blanks(line, 3),
        SymbolValue::Absolute(_) => add_blanks(line, 3),
        SymbolValue::Register(_) => add_blanks(line, 3),
    }
}

// Adds the number of a section in decimal, aligned to the right in a column of 3 characters.
fn add_number(line: &mut Line, number: u8)
    requires { array_vec_len line.old ≤ 100 }
    ensures items { line.new.items ≡ line.old.items ++ spec.number_column number }
    ensures size { array_vec_len line.new ≡ array_vec_len line.old + 3 }
{
    add_right(line, 3, Buffer::new().format(number).as_bytes());
}

/// The line of a name in the symbol table.
pub fn symbol_line(symbol: &SymbolEntry) -> Line
    ensures { result.items ≡ spec.symbol_line symbol.now }
{
    let mut line = Line::new();
    add_bytes(&mut line, &symbol.name.characters());
    add_bytes(&mut line, assignment(symbol.is_assigned));
    add_bytes(&mut line, &value_digits(symbol.value));
    let kind = kind_character(symbol.value);
    let scope = scope_character(symbol.is_global);
    add_bytes(&mut line, &[b' ', kind, scope, b' ']);
    add_section_number(&mut line, symbol.value);
    ended(line)
}

// The columns of a section before its attributes: its name, its size in octal and its number, with a blank after each.
fn section_columns(section: &SectionEntry) -> Line
    ensures items { result.items ≡ name_text section.now.name ++ blanks 1 ++ octal_text section.now.size ++ blanks 1
        ++ spec.number_column section.now.number ++ blanks 1 }
    ensures size { array_vec_len result ≡ 18 }
{
    let mut line = Line::new();
    add_bytes(&mut line, &section.name.characters());
    add_bytes(&mut line, b" ");
    add_bytes(&mut line, &octal6(section.size));
    add_bytes(&mut line, b" ");
    add_number(&mut line, section.number);
    add_bytes(&mut line, b" ");
    line
}

/// The line of a section in the symbol table.
pub fn section_line(section: &SectionEntry) -> Line
    ensures { result.items ≡ spec.section_line section.now }
{
    let mut line = section_columns(section);
    add_attributes(&mut line, section.attributes);
    ended(line)
}
