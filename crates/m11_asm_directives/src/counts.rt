//! `.NARG` and `.NCHR`. (MACRO-11 Language Reference Manual, ".NARG directive" and ".NCHR directive".)

ghost use Rattle.std.specs.Prelude.{◌≡◌, List, Option, length, Some, None};
ghost use Rattle.m11_scan.specs.Views.{bits_of};
ghost use Rattle.m11_scan_statements.specs.Actuals.{separator_at};
ghost use Rattle.m11_unfold_rules.specs.Conditions.{text_of};
ghost use Rattle.m11_asm_rules.specs.Actions.{NoAction, SetNumber};
ghost use Rattle.m11_asm_rules.specs.Counts as spec;
ghost use Rattle.m11_base.specs.Devices.{Bytes};
ghost use Rattle.m11_asm_directives.specs.Settings.{effect_model, setting_model};
ghost use Rattle.m11_scan_statements.specs.declared.spans.Span.{Span};

use crate::settings::{Effect, Setting, refused};
use m11_asm_operands::argument_flags;
use m11_base::Name;
use m11_scan::{ErrorFlags, Line};
use m11_scan_expressions::{bad_flags, flags_before, left_over};
use m11_scan_statements::{Actual, Separator, next_actual, separator_at};
use m11_unfold_rules::{actual_flags, name_at};

/// Reads a `.NARG`, which assigns its name the number of actuals of the innermost macro call. Outside a macro it does nothing, and is
/// flagged O; without a name it does nothing, and is flagged A. Both flags are possible.
pub fn narg(arguments: Option<u16>, line: &Line, start: u8) -> Effect
    ensures { (names : List (Option Span)) → effect_model line.now.text names result ≡ spec.narg arguments line.now.text start }
{
    let outside = ErrorFlags::O.when(arguments.is_none());
    match name_at(line, start) {
        Some(name) => Effect {
            setting: counted(name.name, arguments),
            flags: outside.with(argument_flags(line, start, name.end)),
        },
        None => Effect {
            setting: Setting::Nothing,
            flags: outside.with(bad_flags(line, start)),
        },
    }
}

fn counted(name: Name, arguments: Option<u16>) -> Setting
    ensures { (line : Bytes) (names : List (Option Span)) → setting_model line names result
        ≡ elim arguments [ Some count ↦ SetNumber name count | None ↦ NoAction ] }
{
    match arguments {
        Some(count) => Setting::SetNumber(name, count),
        None => Setting::Nothing,
    }
}

/// Reads a `.NCHR`, which assigns its name the number of characters of its text. Without a name it does nothing, and is flagged A. A
/// missing text counts as 0 characters, and is flagged A unless a comma comes before it.
pub fn nchr(line: &Line, start: u8) -> Effect
    ensures { (names : List (Option Span)) → effect_model line.now.text names result ≡ spec.nchr line.now.text start }
{
    match name_at(line, start) {
        Some(name) => Effect {
            setting: Setting::SetNumber(name.name, text_length(line, text_at(line, name.end))),
            flags: flags_before(line, start).with(flags_after(line, name.end)),
        },
        None => refused(line, start),
    }
}

// The text after a name and its separator; None if there is no text.
fn text_at(line: &Line, end: u8) -> Option<Actual>
    ensures { result ≡ spec.text_at line.now.text end }
{
    next_actual(line, separator_at(line, end).end, false)
}

// The number of characters of a text: 0 without a text.
fn text_length(line: &Line, text: Option<Actual>) -> u16
    ensures { result ≡ elim text [ Some actual ↦ length (text_of line.now.text actual) | None ↦ 0 ] }
{
    match text {
        Some(actual) => actual.inside.text(line).len() as u16,
        None => 0,
    }
}

// The flags of the text after the name, and of what is left over. If the text is missing, A in place of its flags, unless a comma follows
// the name.
fn flags_after(line: &Line, end: u8) -> ErrorFlags
    ensures { bits_of result
        ≡ spec.text_flags line.now.text (separator_at line.now.text end) (spec.text_at line.now.text end) }
{
    match text_at(line, end) {
        Some(actual) => actual_flags(&actual).with(left_over(line, actual.end)),
        None => missing_flags(line, separator_at(line, end)),
    }
}

// The flags if the text is missing: A unless a comma follows the name, and the flags of what is left over.
fn missing_flags(line: &Line, separator: Separator) -> ErrorFlags
    ensures { bits_of result ≡ spec.text_flags line.now.text separator None }
{
    let flags = left_over(line, separator.end);
    if separator.has_comma {
        flags
    } else {
        ErrorFlags::A.with(flags)
    }
}
