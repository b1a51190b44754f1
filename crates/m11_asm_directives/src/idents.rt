//! `.IDENT`. (MACRO-11 Language Reference Manual, ".IDENT directive".)

ghost use Rattle.std.specs.Prelude.{◌≡◌, List, Option, take};
ghost use Rattle.m11_scan.specs.Views.{bits_of};
ghost use Rattle.m11_scan_statements.specs.declared.spans.Span.{Span};
ghost use Rattle.m11_asm_rules.specs.Exports as spec;
ghost use Rattle.m11_asm_rules.specs.Strings.{character_flags, six_codes};
ghost use Rattle.m11_asm_directives.specs.Codes.{coded, coded_at};
ghost use Rattle.m11_asm_directives.specs.Settings.{effect_model};

use crate::settings::{Effect, Setting, refused};
use m11_base::{Name, Rad50};
use m11_scan::{ErrorFlags, Line};
use m11_scan_expressions::{left_over, skip_flags};
use m11_scan_statements::{Part, PartKind, next_part};

/// Reads an `.IDENT`: the first six characters of its text identify the module. A character without a RADIX-50 code counts as a blank, and
/// is flagged A. Without a text, or with an expression in place of the text, the directive does nothing, and is flagged A.
pub fn ident(line: &Line, start: u8) -> Effect
    ensures { (names : List (Option Span)) → effect_model line.now.text names result ≡ spec.ident line.now.text start }
{
    match next_part(line, start, true) {
        Some(part) => match part.kind {
            PartKind::Text => Effect {
                setting: Setting::Identify(coded_name(part.inside.text(line))),
                flags: text_flags(line, start, part),
            },
            PartKind::Expression => refused(line, start),
        },
        None => refused(line, start),
    }
}

// The first six characters of a text as a name, filled with blanks. The result is never None, since each of the six has a code.
fn coded_name(text: &[u8]) -> Option<Name>
    ensures { result ≡ spec.name_of_codes (six_codes text.now) }
{
    let six = first_six(text);
    Name::pack(&[
        coded_at(six, 0),
        coded_at(six, 1),
        coded_at(six, 2),
        coded_at(six, 3),
        coded_at(six, 4),
        coded_at(six, 5),
    ])
}

fn first_six(text: &[u8]) -> &[u8]
    ensures { result.now ≡ take 6 text.now }
{
    &text[..text.len().min(6)]
}

// The character of a text at an index; a blank if that character has no code, or if the text ends before the index.
fn coded_at(text: &[u8], index: usize) -> u8
    ensures { result ≡ coded_at text.now index }
{
    match text.get(index) {
        Some(character) => coded(*character),
        None => b' ',
    }
}

fn coded(character: u8) -> u8
    ensures { result ≡ coded character }
{
    match Rad50::code(character) {
        Some(_) => character,
        None => b' ',
    }
}

// The flags of a text: I for characters skipped before it, A if its closing delimiter is missing or one of its first six characters has no
// RADIX-50 code, and those of what is left over.
fn text_flags(line: &Line, start: u8, part: Part) -> ErrorFlags
    ensures { bits_of result ≡ spec.text_flags line.now.text start part }
{
    let inside = part.inside.start.saturating_sub(1);
    let coded = character_flags(first_six(part.inside.text(line)));
    skip_flags(line, start, inside)
        .with(part.flags())
        .with(coded.with(left_over(line, part.end)))
}

// A if a text has a character without a code.
fn character_flags(text: &[u8]) -> ErrorFlags
    ensures { bits_of result ≡ character_flags text.now }
{
    ErrorFlags::A.when(Rad50::has_uncoded(text))
}
