//! `.RAD50`. (MACRO-11 Language Reference Manual, ".RAD50 directive".)

ghost use Rattle.std.specs.Prelude.{◌≡◌, ◌≤◌, [], IfOk};
ghost use Rattle.m11_asm_operands.specs.LineContext.{line_context_of};
ghost use Rattle.m11_asm_rules.specs.Contents.{followed_by};
ghost use Rattle.m11_asm_rules.specs.Strings as spec;
ghost use Rattle.m11_scan.specs.Views.{bits_of};
ghost use Rattle.m11_asm_directives.specs.Packing.{codes_of, packing};
ghost use Rattle.m11_asm_directives.specs.Stored.{storing_model};
ghost use Rattle.m11_scan_expressions.specs.Quantities.{quantity};

use crate::flags::text_flags;
use crate::packing::Waiting;
use crate::parts::{Parts, parts_size};
use crate::stored::{Arguments, Storage, Storing};
use m11_asm_operands::{Emission, LineContext};
use m11_scan::{ErrorFlags, Line};
use m11_scan_expressions::{Value, expr_starting};
use m11_scan_statements::{Part, PartKind};
use std::alloc::AllocError;

/// Reads a `.RAD50`: a text whose characters and expressions are stored as RADIX-50 codes, three to a word.
pub fn rad50(arguments: &mut Arguments, line: &Line, start: u8) -> Storing
    ensures { storing_model line.now.text arguments.new result ≡ spec.rad50 line.now.text start }
{
    arguments.parts.read(line, start);
    Storing {
        storage: Storage::PackedText,
        flags: text_flags(line, start, &arguments.parts),
    }
}

// The size in bytes of a text in RADIX-50: a word for every three codes, and another word if one or two codes are left. At most 11,220.
pub(crate) fn packed_size(line: &Line, parts: &Parts) -> u32
    ensures size { result ≡ spec.packed_size (spec.contents_of line.now.text parts.now.list.items) }
    ensures most { result ≤ 11220 }
{
    (u32::from(parts_size(line, parts)) + 2) / 3 * 2
}

// Emits the words of a text in RADIX-50, with its flags. Blanks fill the last word. Error: memory may be refused.
pub(crate) fn emit_packed(
    emission: &mut Emission,
    line_context: &LineContext,
    parts: &[Part],
) -> Result<(), AllocError>
    ensures { IfOk result (λ _. emission.new ≡ followed_by emission.old (spec.packed_text line_context.now.map line_context.now.table
        line_context.now.location (spec.contents_of line_context.now.line parts.now))) }
{
    let waiting = pack_parts(emission, line_context, Waiting::Nothing, parts)?;
    waiting.end(emission)
}

// Adds the codes and the flags of parts, one part after the other, and returns the codes of the incomplete word. Error: memory may be
// refused.
fn pack_parts(
    emission: &mut Emission,
    line_context: &LineContext,
    waiting: Waiting,
    parts: &[Part],
) -> Result<Waiting, AllocError>
    ensures { IfOk result (λ after. packing emission.new after (codes_of [] 0) ≡ packing emission.old waiting
        (spec.parts_codes (line_context_of line_context.now).known (spec.contents_of line_context.now.line parts.now))) }
{
    let mut waiting = waiting;
    'parts: for part in parts {
        waiting = pack_part(emission, line_context, waiting, *part)?;
    }
    Ok(waiting)
}

// Adds the codes of a part, those of its characters or one for its expression, and its flags. Returns the codes of the incomplete word.
// Error: memory may be refused.
fn pack_part(
    emission: &mut Emission,
    line_context: &LineContext,
    waiting: Waiting,
    part: Part,
) -> Result<Waiting, AllocError>
    ensures { IfOk result (λ after. (more : spec.Codes) → packing emission.new after more ≡ packing emission.old waiting
        (spec.codes_then (spec.part_codes (line_context_of line_context.now).known (spec.content_in line_context.now.line part)) more)) }
{
    match part.kind {
        PartKind::Text => waiting.with_text(part.inside.text(line_context.line()), emission),
        PartKind::Expression => {
            let coded = expr_starting(line_context.line(), part.inside.start);
            pack_value(emission, waiting, line_context.value(coded))
        }
    }
}

// Adds the code of an expression, the low six bits of its number, and its flags. Returns the codes of the incomplete word. Error: memory
// may be refused.
fn pack_value(
    emission: &mut Emission,
    waiting: Waiting,
    value: Value,
) -> Result<Waiting, AllocError>
    ensures { IfOk result (λ after. (more : spec.Codes)
        → packing emission.new after more ≡ packing emission.old waiting (spec.codes_then (spec.value_codes (quantity value)) more)) }
{
    let code = value.number % 0o100;
    emission.add_flags(value_flags(value));
    waiting.with(code, emission)
}

// The flags of an expression, with R for a register, A for any other value that isn't absolute, and T for a number over octal 47.
fn value_flags(value: Value) -> ErrorFlags
    ensures { bits_of result ≡ (spec.value_codes (quantity value)).flags }
{
    let flags = value.flags.with(value.kind.absence());
    flags.with(ErrorFlags::T.when(value.number > 0o47))
}
