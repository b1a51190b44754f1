//! The actuals of a macro call and of the list of an `.IRP`. (MACRO-11 Language Reference Manual, "Arguments in macro definitions
//! and macro calls" and "Numeric arguments passed as symbols".)

ghost use Rattle.std.specs.Prelude.{◌≡◌, ◌∷◌, [], true, IfOk};
ghost use Rattle.std.specs.Option.{is_some};
ghost use Rattle.m11_scan_statements.specs.Actuals.{next_actual};
ghost use Rattle.m11_unfold_rules.specs.Actuals as spec;
ghost use Rattle.m11_unfold_rules.specs.Actuals.{texts_of};
ghost use Rattle.m11_scan_expressions.specs.Expressions.{known_by};
ghost use Rattle.m11_scan_expressions.specs.Remarks.{joined};

use crate::conditions::actual_flags;
use crate::digits::digits_of;
use m11_scan::{ErrorFlags, Line};
use m11_scan_expressions::{Names, Remarks, number_at};
use m11_scan_statements::{Actual, ActualKind, next_actual, separator_at};
use std::alloc::{AllocError, Global};

/// The texts of the actuals at or after a column of a line, at most `wanted` of them. A further actual is flagged Q and ignored, with
/// the rest of the line. An actual without its `>` is flagged A. The text of a `\` and an expression is the digits of the expression's
/// number, in the current radix. These flags, and the flags and symbols of such expressions, are added to the remarks. Error: memory
/// was refused.
pub fn actuals_from<N: Names>(
    alloc: Global,
    line: &Line,
    column: u8,
    wanted: usize,
    names: &N,
    remarks: &mut Remarks,
) -> Result<Vec<Vec<u8>>, AllocError>
    ensures texts { IfOk result (λ texts. texts_of texts.items ≡ (spec.actuals_from
        (known_by (N.base names.now) (N.value_of_symbol names.now)) line.now.text wanted column).texts) }
    ensures remarks { IfOk result (λ _. remarks.new ≡ joined remarks.old (spec.actuals_from
        (known_by (N.base names.now) (N.value_of_symbol names.now)) line.now.text wanted column).remarks) }
{
    let mut texts = Vec::new(alloc);
    let mut begin = column;
    let mut left = wanted;
    'actuals: while left > 0 {
        let Some(actual) = next_actual(line, begin, true) else {
            return Ok(texts);
        };
        texts.push(text_of(alloc, line, &actual, names, remarks)?)?;
        begin = separator_at(line, actual.end).end;
        left -= 1;
    }
    remarks.add_flags(ErrorFlags::Q.when(has_actual(line, begin)));
    Ok(texts)
}

// Whether an actual follows at or after a column.
fn has_actual(line: &Line, column: u8) -> bool
    ensures { result ≡ is_some (next_actual line.now.text column true) }
{
    match next_actual(line, column, true) {
        Some(_) => true,
        None => false,
    }
}

// The text of an actual: its characters, or after `\` the digits of the expression's number. The actual's flags and symbols are
// added to the remarks. Error: memory was refused.
pub(crate) fn text_of<N: Names>(
    alloc: Global,
    line: &Line,
    actual: &Actual,
    names: &N,
    remarks: &mut Remarks,
) -> Result<Vec<u8>, AllocError>
    ensures text { IfOk result (λ text. text.items ∷ [] ≡ (spec.given_by
        (known_by (N.base names.now) (N.value_of_symbol names.now)) line.now.text actual.now).texts) }
    ensures remarks { IfOk result (λ _. remarks.new ≡ joined remarks.old (spec.given_by
        (known_by (N.base names.now) (N.value_of_symbol names.now)) line.now.text actual.now).remarks) }
{
    match actual.kind {
        ActualKind::Bare | ActualKind::Bracketed => characters(alloc, line, actual, remarks),
        ActualKind::Digits => numeral(alloc, line, actual.inside.start, names, remarks),
    }
}

// The characters of an actual. A is added to the remarks if the actual lacks its `>`. Error: memory was refused.
fn characters(
    alloc: Global,
    line: &Line,
    actual: &Actual,
    remarks: &mut Remarks,
) -> Result<Vec<u8>, AllocError>
    ensures text { IfOk result (λ text. text.items ∷ [] ≡ (spec.characters line.now.text actual.now).texts) }
    ensures remarks { IfOk result (λ _. remarks.new
        ≡ joined remarks.old (spec.characters line.now.text actual.now).remarks) }
{
    remarks.add_flags(actual_flags(actual));
    actual.inside.text(line).to_vec(alloc)
}

// The digits, in the current radix, of the number of the expression at a column. The flags and symbols of the expression are added
// to the remarks. Error: memory was refused.
fn numeral<N: Names>(
    alloc: Global,
    line: &Line,
    column: u8,
    names: &N,
    remarks: &mut Remarks,
) -> Result<Vec<u8>, AllocError>
    ensures text { IfOk result (λ text. text.items ∷ [] ≡ (spec.numeral
        (known_by (N.base names.now) (N.value_of_symbol names.now)) line.now.text column).texts) }
    ensures remarks { IfOk result (λ _. remarks.new ≡ joined remarks.old (spec.numeral
        (known_by (N.base names.now) (N.value_of_symbol names.now)) line.now.text column).remarks) }
{
    let number = number_at(line, column, names, remarks)?;
    remarks.add_flags(number.flags);
    digits_of(alloc, names.radix().base(), number.value)
}
