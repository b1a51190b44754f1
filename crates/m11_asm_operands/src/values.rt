//! Values as words and bytes. (MACRO-11 Language Reference Manual, "Expressions" and "Diagnostic error message summary", R and T.)

ghost use Rattle.std.specs.Prelude.{◌≡◌, ◌==◌, ◌||◌, IfOk};
ghost use Rattle.m11_asm_rules.specs.Contents as spec;
ghost use Rattle.m11_asm_rules.specs.Contents.{followed_by};
ghost use Rattle.m11_scan.specs.Views.{bits_of};
ghost use Rattle.m11_scan_expressions.specs.Quantities.{quantity};

use crate::emission::Emission;
use crate::line_context::LineContext;
use crate::relocations::stored;
use m11_asm_rules::register_flags;
use m11_scan::ErrorFlags;
use m11_scan_expressions::Value;
use std::alloc::AllocError;

/// The location `size` bytes after another, modulo 65536.
pub fn further(location: u16, size: u16) -> u16
    ensures { result ≡ spec.further location size }
{
    location.wrapping_add(size)
}

// T for a number that doesn't fit in a byte: its high byte is neither 000 nor 377 (octal).
pub(crate) fn byte_flags(number: u16) -> ErrorFlags
    ensures { bits_of result ≡ spec.byte_flags number }
{
    ErrorFlags::T.when(!is_byte_high(number / 256))
}

fn is_byte_high(number: u16) -> bool
    ensures { result ≡ (number == 0 || number == 0o377) }
{
    number == 0 || number == 0o377
}

/// Emits a value as a word, with its flags, and R for a register. If `is_relative` is true, the word is the distance from the location
/// after it to the value; the linker computes that distance unless it is known here. Error: memory may be refused.
pub fn emit_word(
    emission: &mut Emission,
    line_context: &LineContext,
    is_relative: bool,
    location: u16,
    value: Value,
) -> Result<(), AllocError>
    ensures { IfOk result (λ _. emission.new ≡ followed_by emission.old
        (spec.word line_context.now.table is_relative location (quantity value))) }
{
    let flags = value.flags.with(register_flags(value.kind));
    emission.add_word(stored(line_context, is_relative, location, value), flags)
}

/// Emits a value as a byte, with its flags, R for a register, and T if its number doesn't fit in a byte, whatever the value is relative to.
/// Error: memory may be refused.
pub fn emit_byte(
    emission: &mut Emission,
    line_context: &LineContext,
    location: u16,
    value: Value,
) -> Result<(), AllocError>
    ensures { IfOk result (λ _. emission.new ≡ followed_by emission.old
        (spec.byte line_context.now.table location (quantity value))) }
{
    let flags = value
        .flags
        .with(register_flags(value.kind))
        .with(byte_flags(value.number));
    emission.add_byte(stored(line_context, false, location, value), flags)
}
