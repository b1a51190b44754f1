//! `.RADIX`. (MACRO-11 Language Reference Manual, "Radix control".)

ghost use Rattle.std.specs.Prelude.{◌≡◌, List, Option};
ghost use Rattle.m11_scan.specs.Numbers.{number_of};
ghost use Rattle.m11_scan.specs.Views.{bits_of};
ghost use Rattle.m11_scan.specs.declared.radix.Radix.TheVariants.{Decimal};
ghost use Rattle.m11_scan_expressions.specs.Terms.{front_of};
ghost use Rattle.m11_asm_rules.specs.Control as spec;
ghost use Rattle.m11_asm_directives.specs.Settings.{effect_model};
ghost use Rattle.m11_scan_statements.specs.declared.spans.Span.{Span};
ghost use Rattle.m11_asm_directives.specs.Numbers.{is_large};

use crate::settings::{Effect, Setting, refused};
use bitflags::Flags;
use m11_asm_operands::argument_flags;
use m11_scan::{ErrorFlags, Line, Radix, Sort, next_token, read_number};
use m11_scan_expressions::left_over;

/// Reads a `.RADIX`, which sets the radix to 2, 8 or 10, or to 8 without an argument. The argument is a decimal number, with or without a
/// period after it. With any other argument the directive does nothing, and is flagged A.
pub fn radix(line: &Line, start: u8) -> Effect
    ensures { (names : List (Option Span)) → effect_model line.now.text names result ≡ spec.radix line.now.text start }
{
    match next_token(line, start) {
        Some(token) => match radix_in(token.sort, token.text(line)) {
            Some(radix) => Effect {
                setting: Setting::SetRadix(radix),
                flags: argument_flags(line, start, token.end),
            },
            None => refused(line, start),
        },
        None => Effect {
            setting: Setting::SetRadix(Radix::Octal),
            flags: left_over(line, start),
        },
    }
}

// The radix that a token specifies, if any.
fn radix_in(sort: Sort, text: &[u8]) -> Option<Radix>
    ensures { result ≡ spec.radix_in sort text.now }
{
    match sort {
        Sort::Number => radix_of(text),
        Sort::DecimalNumber => radix_of(front_of(text)),
        _ => None,
    }
}

// All but the last character.
fn front_of(text: &[u8]) -> &[u8]
    ensures { result.now ≡ front_of text.now }
{
    &text[..text.len().saturating_sub(1)]
}

// The radix that is written in decimal digits: 2, 8 or 10; None for any other number.
fn radix_of(digits: &[u8]) -> Option<Radix>
    ensures { result ≡ spec.radix_of (number_of Decimal digits.now) }
{
    let number = read_number(digits, Radix::Decimal);
    if is_large(number.flags) {
        None
    } else {
        radix_of_word(number.value)
    }
}

// Whether the flags of a number contain T: the number is over 65535.
fn is_large(flags: ErrorFlags) -> bool
    ensures { result ≡ is_large (bits_of flags) }
{
    flags.bits() & ErrorFlags::T.bits() != 0
}

fn radix_of_word(number: u16) -> Option<Radix>
    ensures { result ≡ spec.radix_of number }
{
    match number {
        2 => Some(Radix::Binary),
        8 => Some(Radix::Octal),
        10 => Some(Radix::Decimal),
        _ => None,
    }
}
