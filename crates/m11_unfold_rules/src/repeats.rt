//! The number of rounds of `.REPT`. (MACRO-11 Language Reference Manual, "Repeat block directive".)

ghost use Rattle.std.specs.Prelude.{◌≡◌, ◌<◌, if◌then◌else◌, IfOk};
ghost use Rattle.m11_unfold_rules.specs.Conditions.{is_negative};
ghost use Rattle.m11_scan_expressions.specs.Expressions.{known_by};
ghost use Rattle.m11_scan_expressions.specs.Remarks.{joined};
ghost use Rattle.m11_unfold_rules.specs.Repeats as spec;

use crate::conditions::is_negative;
use m11_scan::{ErrorFlags, Line};
use m11_scan_expressions::{Names, Remarks, has_expression, left_over, number_at};
use std::alloc::AllocError;

/// Reads the number of rounds of a `.REPT` at a column: 0 to 32767. A negative number means 0; a missing one means 0 and is flagged A.
/// A left-over token is flagged Q, and a skipped character I. These flags, and the flags and symbols of the number, are added to the
/// remarks. Error: memory was refused.
pub fn rept_count<N: Names>(
    line: &Line,
    column: u8,
    names: &N,
    remarks: &mut Remarks,
) -> Result<u16, AllocError>
    ensures count { IfOk result (λ count. count
        ≡ spec.rept_count (known_by (N.base names.now) (N.value_of_symbol names.now)) line.now.text column) }
    ensures remarks { IfOk result (λ _. remarks.new ≡ joined remarks.old
        (spec.remarks (known_by (N.base names.now) (N.value_of_symbol names.now)) line.now.text column)) }
    ensures most { IfOk result (λ count. count < 32768) }
{
    if !has_expression(line, column) {
        remarks.add_flags(ErrorFlags::A.with(left_over(line, column)));
        return Ok(0);
    }
    let number = number_at(line, column, names, remarks)?;
    let rest = left_over(line, number.end);
    remarks.add_flags(number.flags.with(rest));
    Ok(rounds_of(number.value))
}

fn rounds_of(number: u16) -> u16
    ensures rounds { result ≡ (if is_negative number then 0 else number) }
    ensures most { result < 32768 }
{
    if is_negative(number) { 0 } else { number }
}
