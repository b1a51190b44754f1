//! The lines of a directory's entries.

ghost use Rattle.std.specs.Prelude.{◌≡◌, ◌≤◌, ◌+◌, ◌++◌, length};
ghost use Rattle.arrayvec.specs.ArrayVec.{array_vec_len};
ghost use Rattle.m11_dump.specs.Entries as spec;
ghost use Rattle.m11_obj.specs.declared.gsd.GsdKind.TheVariants.{GlobalSymbol, ProgramSection};

use bitflags::Flags;
use m11_base::octal6;
use m11_obj::{GsdEntry, GsdKind, SectionFlags, SymbolFlags};
use m11_obj_print::{Line, add_attributes, add_bytes, ended};

// The keyword of a global symbol's entry, which says whether the entry defines the symbol or only refers to it; padded with blanks
// to ten characters.
fn symbol_word(flags: SymbolFlags) -> &'static [u8]
    ensures text { result.now ≡ spec.entry_word GlobalSymbol flags.0 }
    ensures room { length result.now ≤ 10 }
{
    if flags.contains(SymbolFlags::DEFINED) {
        b"GLOBAL    "
    } else {
        b"REFERENCE "
    }
}

// The keyword of an entry, padded with blanks to ten characters.
fn entry_word(entry: &GsdEntry) -> &'static [u8]
    ensures text { result.now ≡ spec.entry_word entry.now.kind entry.now.flags }
    ensures room { length result.now ≤ 10 }
{
    match entry.kind {
        GsdKind::ModuleName => b"MODULE    ",
        GsdKind::ControlSection => b"CSECT     ",
        GsdKind::InternalSymbol => b"INTERNAL  ",
        GsdKind::TransferAddress => b"TRANSFER  ",
        GsdKind::GlobalSymbol => symbol_word(SymbolFlags::from_bits_retain(entry.flags)),
        GsdKind::ProgramSection => b"SECTION   ",
        GsdKind::Identification => b"IDENT     ",
    }
}

// Adds a blank and a value in six octal digits.
fn add_value(line: &mut Line, value: u16)
    requires { array_vec_len line.old ≤ 160 }
    ensures text { line.new.items ≡ line.old.items ++ spec.value_text value }
    ensures room { array_vec_len line.new ≤ array_vec_len line.old + 7 }
{
    add_bytes(line, b" ");
    add_bytes(line, &octal6(value));
}

// The keyword that says whether the value of a global symbol is relocatable or absolute.
fn relocation_word(flags: SymbolFlags) -> &'static [u8]
    ensures text { result.now ≡ spec.relocation_word flags.0 }
    ensures room { length result.now ≤ 4 }
{
    if flags.contains(SymbolFlags::RELOCATABLE) {
        b" REL"
    } else {
        b" ABS"
    }
}

// The keyword of a weak global symbol, which may stay undefined; none for any other.
fn weak_word(flags: SymbolFlags) -> &'static [u8]
    ensures text { result.now ≡ spec.weak_word flags.0 }
    ensures room { length result.now ≤ 5 }
{
    if flags.contains(SymbolFlags::WEAK) {
        b" WEAK"
    } else {
        b""
    }
}

// Adds the value of a global symbol that is defined here, and whether it is relocatable or absolute.
fn add_definition(line: &mut Line, flags: SymbolFlags, value: u16)
    requires { array_vec_len line.old ≤ 100 }
    ensures text { line.new.items ≡ line.old.items ++ (spec.value_text value ++ spec.relocation_word flags.0) }
    ensures room { array_vec_len line.new ≤ array_vec_len line.old + 11 }
{
    add_value(line, value);
    add_bytes(line, relocation_word(flags));
}

// Adds what follows the name of a global symbol: its value and whether that is relocatable or absolute, if it is defined here; and
// a keyword if it is weak.
fn add_symbol(line: &mut Line, flags: SymbolFlags, value: u16)
    requires { array_vec_len line.old ≤ 100 }
    ensures text { line.new.items ≡ line.old.items ++ spec.symbol_text flags.0 value }
    ensures room { array_vec_len line.new ≤ array_vec_len line.old + 16 }
{
    if flags.contains(SymbolFlags::DEFINED) {
        add_definition(line, flags, value);
        add_bytes(line, weak_word(flags));
    } else {
        add_bytes(line, weak_word(flags));
    }
}

// Adds what follows the name of a section: its size in bytes and its attributes.
fn add_section(line: &mut Line, flags: SectionFlags, value: u16)
    requires { array_vec_len line.old ≤ 100 }
    ensures text { line.new.items ≡ line.old.items ++ spec.entry_rest ProgramSection flags.0 value }
    ensures room { array_vec_len line.new ≤ array_vec_len line.old + 28 }
{
    add_value(line, value);
    add_bytes(line, b" ");
    add_attributes(line, flags);
}

// Adds what follows the name of an entry: its value and the keywords of its flags, if its kind has them; a reference to a global symbol
// has no value.
fn add_rest(line: &mut Line, entry: &GsdEntry)
    requires { array_vec_len line.old ≤ 100 }
    ensures text { line.new.items ≡ line.old.items
        ++ spec.entry_rest entry.now.kind entry.now.flags entry.now.value }
    ensures room { array_vec_len line.new ≤ array_vec_len line.old + 28 }
{
    match entry.kind {
        GsdKind::ModuleName | GsdKind::Identification => {}
        GsdKind::ControlSection | GsdKind::InternalSymbol | GsdKind::TransferAddress => {
            add_value(line, entry.value);
        }
        GsdKind::GlobalSymbol => {
            add_symbol(
                line,
                SymbolFlags::from_bits_retain(entry.flags),
                entry.value,
            );
        }
        GsdKind::ProgramSection => {
            add_section(
                line,
                SectionFlags::from_bits_retain(entry.flags),
                entry.value,
            );
        }
    }
}

/// The line of an entry: its keyword and its name, then its value and the keywords of its flags, if its kind has them; a reference to a
/// global symbol has no value. Blanks at the end of the line are left out.
#[tactic(auto, using(m11_obj_print::proofs::Trimming::line_at))]
pub(crate) fn entry_line(entry: &GsdEntry) -> Line
    ensures { result.items ≡ spec.entry_line entry.now }
{
    let mut line = Line::new();
    add_bytes(&mut line, entry_word(entry));
    add_bytes(&mut line, &entry.name.characters());
    add_rest(&mut line, entry);
    ended(line)
}
