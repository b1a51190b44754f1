//! The flags of the parts of a text, and of the text around them. (MACRO-11 Language Reference Manual, ".ASCII directive" and "Diagnostic
//! error message summary", A, I and Q.)

ghost use Rattle.std.specs.Prelude.{◌≡◌, [], ◌∷◌, List};
ghost use Rattle.std.specs.Int.RustNames.{bit_or};
ghost use Rattle.m11_asm_rules.specs.Strings as spec;
ghost use Rattle.m11_scan.specs.ErrorFlags.{flag_A};
ghost use Rattle.m11_scan.specs.Views.{bits_of};
ghost use Rattle.m11_scan_statements.specs.Parts.{part_flags};
ghost use Rattle.m11_scan_expressions.specs.LeftOvers.{skip_flags};
ghost use Rattle.m11_scan_statements.specs.declared.parts.Part.{Part};
ghost use Rattle.m11_scan_statements.specs.declared.parts.PartKind.TheVariants as kind;
ghost use Rattle.m11_asm_directives.specs.Seen.{parts_model};

use crate::parts::Parts;
use m11_scan::{ErrorFlags, Line};
use m11_scan_expressions::{left_over, skip_flags};
use m11_scan_statements::{Part, PartKind};

// The flags of a text: A if it has no part, those of its parts, and those of what is left over.
pub(crate) fn text_flags(line: &Line, start: u8, parts: &Parts) -> ErrorFlags
    ensures { bits_of result ≡ spec.text_flags line.now.text start (parts_model parts.now) }
{
    let list = parts.list.as_slice();
    let flags = empty_flags(list).with(parts_flags(line, start, list));
    flags.with(left_over(line, parts.end))
}

// A for a text without a part.
fn empty_flags(parts: &[Part]) -> ErrorFlags
    ensures { bits_of result ≡ elim parts.now [ [] ↦ flag_A | _ ↦ 0 ] }
{
    match parts {
        [] => ErrorFlags::A,
        _ => ErrorFlags::none(),
    }
}

// The flags of the parts after a column, and I for characters skipped since that column.
fn parts_flags(line: &Line, start: u8, parts: &[Part]) -> ErrorFlags
    ensures { bits_of result ≡ spec.parts_flags line.now.text start parts.now }
{
    let mut flags = ErrorFlags::none();
    let mut column = start;
    'parts: for part in parts {
        flags = with_part(flags, line, column, *part);
        column = part.end;
    }
    flags
}

// These flags, with those that `flags_of` returns for a part after a column.
fn with_part(flags: ErrorFlags, line: &Line, column: u8, part: Part) -> ErrorFlags
    ensures { (parts : List Part) → bit_or (bits_of result) (spec.parts_flags line.now.text part.end parts)
        ≡ bit_or (bits_of flags) (spec.parts_flags line.now.text column (part ∷ parts)) }
{
    flags.with(flags_of(line, column, part))
}

// The flags of a part, and of the characters skipped since a column before it.
fn flags_of(line: &Line, column: u8, part: Part) -> ErrorFlags
    ensures { bits_of result ≡ bit_or (spec.skipped_flags line.now.text column part) (part_flags part) }
{
    skipped_flags(line, column, part).with(part.flags())
}

// I for a character skipped between a column and a part, or in the part's expression.
fn skipped_flags(line: &Line, column: u8, part: Part) -> ErrorFlags
    ensures { bits_of result ≡ spec.skipped_flags line.now.text column part }
{
    let begin = part.inside.start.saturating_sub(1);
    skip_flags(line, column, begin).with(inside_flags(line, part))
}

fn inside_flags(line: &Line, part: Part) -> ErrorFlags
    ensures { bits_of result
        ≡ elim part.kind [ kind.Text ↦ 0 | kind.Expression ↦ skip_flags line.now.text part.inside.start part.end ] }
{
    match part.kind {
        PartKind::Text => ErrorFlags::none(),
        PartKind::Expression => skip_flags(line, part.inside.start, part.end),
    }
}
