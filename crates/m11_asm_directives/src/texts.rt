//! `.ASCII` and `.ASCIZ`. (MACRO-11 Language Reference Manual, ".ASCII directive" and ".ASCIZ directive".)

ghost use Rattle.std.specs.Prelude.{◌≡◌, ◌≤◌, ◌∷◌, true, false, List, IfOk, map};
ghost use Rattle.m11_asm_rules.specs.Contents as contents;
ghost use Rattle.m11_asm_rules.specs.Contents.{followed_by};
ghost use Rattle.m11_asm_rules.specs.Strings as spec;
ghost use Rattle.m11_asm_directives.specs.Stored.{storing_model};
ghost use Rattle.m11_asm_rules.specs.Actions.{TextPart};

use crate::flags::text_flags;
use crate::parts::{Parts, part_size, parts_size};
use crate::stored::{Arguments, Storage, Storing};
use m11_asm_operands::{Emission, LineContext, emit_byte, further};
use m11_scan::Line;
use m11_scan_expressions::expr_starting;
use m11_scan_statements::{Part, PartKind};
use std::alloc::AllocError;

/// Reads an `.ASCII`: a text whose characters and expressions are stored as bytes.
pub fn ascii(arguments: &mut Arguments, line: &Line, start: u8) -> Storing
    ensures { storing_model line.now.text arguments.new result ≡ spec.text false line.now.text start }
{
    text(arguments, line, start, false)
}

/// Reads an `.ASCIZ`: a text whose characters and expressions are stored as bytes, with a zero byte after them.
pub fn asciz(arguments: &mut Arguments, line: &Line, start: u8) -> Storing
    ensures { storing_model line.now.text arguments.new result ≡ spec.text true line.now.text start }
{
    text(arguments, line, start, true)
}

fn text(arguments: &mut Arguments, line: &Line, start: u8, is_ended: bool) -> Storing
    ensures { storing_model line.now.text arguments.new result ≡ spec.text is_ended line.now.text start }
{
    arguments.parts.read(line, start);
    Storing {
        storage: Storage::Text(is_ended),
        flags: text_flags(line, start, &arguments.parts),
    }
}

// The size of a text in bytes, with the zero byte after it if it has one: at most 16,831.
pub(crate) fn text_size(line: &Line, parts: &Parts, is_ended: bool) -> u32
    ensures size { result ≡ spec.text_size (spec.contents_of line.now.text parts.now.list.items) is_ended }
    ensures most { result ≤ 16831 }
{
    let size = u32::from(parts_size(line, parts));
    if is_ended { size + 1 } else { size }
}

// Emits the bytes of a text, beginning at the location of the line, with the flags of its expressions, and then a zero byte if `is_ended`
// is true. Error: memory may be refused.
pub(crate) fn emit_text(
    emission: &mut Emission,
    line_context: &LineContext,
    parts: &[Part],
    is_ended: bool,
) -> Result<(), AllocError>
    ensures { IfOk result (λ _. emission.new ≡ followed_by emission.old (spec.text_bytes line_context.now.map line_context.now.table
        line_context.now.location (spec.contents_of line_context.now.line parts.now) is_ended)) }
{
    emit_parts(emission, line_context, line_context.location(), parts)?;
    emit_last(emission, is_ended)
}

// Emits the zero byte after the parts of a text, if `is_ended` is true. Error: memory may be refused.
fn emit_last(emission: &mut Emission, is_ended: bool) -> Result<(), AllocError>
    ensures { IfOk result (λ _. emission.new
        ≡ followed_by emission.old (contents.emission (map contents.fixed_byte (spec.last_byte is_ended)) 0)) }
{
    if is_ended {
        emission.add_fixed_byte(0)
    } else {
        Ok(())
    }
}

// Emits the bytes of parts, one part after the other, beginning at a location, with the flags of their expressions. Error: memory may be
// refused.
fn emit_parts(
    emission: &mut Emission,
    line_context: &LineContext,
    location: u16,
    parts: &[Part],
) -> Result<(), AllocError>
    ensures { IfOk result (λ _. emission.new ≡ followed_by emission.old
        (spec.parts_bytes line_context.now.map line_context.now.table location (spec.contents_of line_context.now.line parts.now))) }
{
    let mut location = location;
    'parts: for part in parts {
        location = emit_part(emission, line_context, location, *part)?;
    }
    Ok(())
}

// Emits the bytes and flags of a part, and returns the location after the bytes. Error: memory may be refused.
fn emit_part(
    emission: &mut Emission,
    line_context: &LineContext,
    location: u16,
    part: Part,
) -> Result<u16, AllocError>
    ensures { IfOk result (λ next. (parts : List TextPart)
        → followed_by emission.new (spec.parts_bytes line_context.now.map line_context.now.table next parts)
        ≡ followed_by emission.old (spec.parts_bytes line_context.now.map line_context.now.table location
        (spec.content_in line_context.now.line part ∷ parts))) }
{
    emit_part_bytes(emission, line_context, location, part)?;
    Ok(further(location, part_size(line_context.line(), part)))
}

// Emits the bytes of a part. An expression is a byte, as in `.BYTE`, with its flags; `.` in it is the location of that byte. Error: memory
// may be refused.
fn emit_part_bytes(
    emission: &mut Emission,
    line_context: &LineContext,
    location: u16,
    part: Part,
) -> Result<(), AllocError>
    ensures { IfOk result (λ _. emission.new ≡ followed_by emission.old
        (spec.part_bytes line_context.now.map line_context.now.table location (spec.content_in line_context.now.line part))) }
{
    match part.kind {
        PartKind::Text => emit_characters(emission, part.inside.text(line_context.line())),
        PartKind::Expression => {
            let coded = expr_starting(line_context.line(), part.inside.start);
            let value = line_context.at(location).reference(coded);
            emit_byte(emission, line_context, location, value)
        }
    }
}

// Emits each character as a byte. Error: memory may be refused.
fn emit_characters(emission: &mut Emission, text: &[u8]) -> Result<(), AllocError>
    ensures { IfOk result (λ _. emission.new ≡ followed_by emission.old (contents.emission (map contents.fixed_byte text.now) 0)) }
{
    'characters: for character in text {
        emission.add_fixed_byte(u16::from(*character))?;
    }
    Ok(())
}
