//! `.IIF`: a condition, a comma, and a statement. (MACRO-11 Language Reference Manual, "Immediate conditional assembly
//! directive".)

ghost use Rattle.std.specs.Prelude.{◌≡◌, IfOk};
ghost use Rattle.m11_scan.specs.Cutting.{tokens_from};
ghost use Rattle.m11_scan.specs.Views.{bits_of};
ghost use Rattle.m11_scan_statements.specs.Listed.{is_comma};
ghost use Rattle.m11_scan_expressions.specs.Expressions.{known_by};
ghost use Rattle.m11_unfold_rules.specs.Immediate as spec;
ghost use Rattle.m11_scan_expressions.specs.Remarks.{joined};

use crate::conditions::condition;
use m11_scan::{ErrorFlags, Line, Sort, next_token};
use m11_scan_expressions::{Names, Remarks, left_over, skip_flags};
use std::alloc::AllocError;

/// The result of `.IIF`.
#[derive(Clone, Copy, PartialEq, Eq)]
pub struct Immediate {
    /// Whether the condition is true. If not, the statement is ignored.
    pub holds: bool,
    /// The column after the comma, where the statement begins; the statement extends to the end of the line. None without a
    /// comma.
    pub statement: Option<u8>,
}

/// Evaluates the condition of an `.IIF` at a column, and finds the statement after the comma. Without a comma the line is flagged A,
/// and also Q if a token is left over. A skipped character before the statement is flagged I. These flags, and the flags and symbols
/// of the condition, are added to the remarks. Error: memory was refused.
pub fn iif<N: Names>(
    line: &Line,
    column: u8,
    names: &N,
    remarks: &mut Remarks,
) -> Result<Immediate, AllocError>
    ensures immediate { IfOk result (λ immediate. immediate
        ≡ spec.immediate (known_by (N.base names.now) (N.value_of_symbol names.now)) line.now.text column) }
    ensures remarks { IfOk result (λ _. remarks.new ≡ joined remarks.old
        (spec.remarks (known_by (N.base names.now) (N.value_of_symbol names.now)) line.now.text column)) }
{
    let verdict = condition(line, column, names, remarks)?;
    let end = verdict.end;
    let statement = after_comma(line, end);
    remarks.add_flags(comma_flags(line, end, statement));
    Ok(Immediate {
        holds: verdict.holds,
        statement,
    })
}

/// The column after the comma, if the first token at or after this column is a comma.
pub fn after_comma(line: &Line, column: u8) -> Option<u8>
    ensures { result ≡ spec.after_comma (tokens_from line.now.text column) }
{
    match next_token(line, column) {
        Some(token) if is_comma(token.sort) => Some(token.end),
        _ => None,
    }
}

fn is_comma(sort: Sort) -> bool
    ensures { result ≡ is_comma sort }
{
    matches!(sort, Sort::Comma)
}

// I for a skipped character before the comma. Without a comma: A, and also Q for a left-over token and I for a skipped character.
fn comma_flags(line: &Line, column: u8, statement: Option<u8>) -> ErrorFlags
    ensures { bits_of result ≡ spec.comma_flags line.now.text column statement }
{
    match statement {
        Some(end) => skip_flags(line, column, end),
        None => ErrorFlags::A.with(left_over(line, column)),
    }
}
