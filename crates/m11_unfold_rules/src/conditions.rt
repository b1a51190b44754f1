//! The conditions of `.IF` and `.IIF`. (MACRO-11 Language Reference Manual, "Conditional assembly block directives".)

ghost use Rattle.std.specs.Prelude.{◌≡◌, ◌==◌, length, IfOk};
ghost use Rattle.std.specs.List.{prefix_len};
ghost use Rattle.m11_scan.specs.Classes.{is_blank};
ghost use Rattle.m11_scan.specs.Cutting.{tokens_from};
ghost use Rattle.m11_scan.specs.Views.{bits_of, lexeme};
ghost use Rattle.m11_scan_statements.specs.Actuals.{separator_at};
ghost use Rattle.m11_unfold_rules.specs.Conditions as spec;
ghost use Rattle.m11_unfold_rules.specs.Conditions.{IsFound, verdict_of, remarks_in};
ghost use Rattle.m11_scan_expressions.specs.Expressions.{known_by};
ghost use Rattle.m11_scan_expressions.specs.Remarks.{joined, with_symbols};

use crate::definedness::{is_as, names_at};
use m11_scan::{
    Class, Condition, ErrorFlags, Line, Sort, Token, next_token, read_condition, run_length,
};
use m11_scan_expressions::{
    Names, Remarks, begins_expression, number_from, rest_flags, skip_flags,
};
use m11_scan_statements::{Actual, next_actual, separator_at};
use std::alloc::AllocError;

/// The result of a condition.
#[derive(Clone, Copy, PartialEq, Eq)]
pub struct Verdict {
    /// Whether the condition is true.
    pub holds: bool,
    /// The column after the condition, or the end of the line if its name, or a name of DF or NDF, is bad or missing.
    pub end: u8,
}

// The result of a condition, with its flags.
#[derive(Clone, Copy, PartialEq, Eq)]
pub struct Finding {
    pub(crate) holds: bool,
    pub(crate) end: u8,
    pub(crate) flags: ErrorFlags,
}

/// Evaluates the condition at a column of a line: its name and its arguments. It is false, and flagged A, if its name is missing or
/// unknown, a name of DF or NDF is bad, or an argument is missing. But a missing argument of B or NB counts as empty, and so does a
/// missing second argument of IDN or DIF after a comma. An argument without its `>` is flagged A, and a character that is skipped outside
/// texts is flagged I. These flags, the flags of an expression, and the symbols of the arguments are added to the remarks. Error: memory
/// was refused.
pub fn condition<N: Names>(
    line: &Line,
    column: u8,
    names: &N,
    remarks: &mut Remarks,
) -> Result<Verdict, AllocError>
    ensures verdict { IfOk result (λ verdict. verdict ≡ verdict_of
        (spec.condition (known_by (N.base names.now) (N.value_of_symbol names.now)) line.now.text column)) }
    ensures remarks { IfOk result (λ _. remarks.new ≡ joined remarks.old (remarks_in
        (spec.condition (known_by (N.base names.now) (N.value_of_symbol names.now)) line.now.text column))) }
{
    let finding = named_at(line, column, names, remarks)?;
    remarks.add_flags(finding.flags);
    Ok(Verdict {
        holds: finding.holds,
        end: finding.end,
    })
}

// Evaluates the condition at a column, with I for a skipped character before its name. A missing condition is false, and flagged A. The
// symbols of the arguments are added to the remarks; the flags are only returned. Error: memory was refused.
fn named_at<N: Names>(
    line: &Line,
    column: u8,
    names: &N,
    remarks: &mut Remarks,
) -> Result<Finding, AllocError>
    ensures found { IfOk result (λ finding. IsFound finding (spec.condition
        (known_by (N.base names.now) (N.value_of_symbol names.now)) line.now.text column)) }
    ensures remarks { IfOk result (λ _. remarks.new ≡ with_symbols remarks.old (spec.condition
        (known_by (N.base names.now) (N.value_of_symbol names.now)) line.now.text column).symbols) }
{
    match next_token(line, column) {
        Some(name) => {
            let before = skip_flags(line, column, name.start);
            let finding = asked_by(line, name, names, remarks)?;
            Ok(Finding {
                flags: before.with(finding.flags),
                ..finding
            })
        }
        None => {
            let end = line.end();
            Ok(Finding {
                flags: rest_flags(line, column).with(ErrorFlags::A),
                ..refused(end)
            })
        }
    }
}

// Evaluates the condition that a token names, on the arguments after the token. An unknown condition is false, and flagged A. The symbols
// of the arguments are added to the remarks. Error: memory was refused.
fn asked_by<N: Names>(
    line: &Line,
    name: Token,
    names: &N,
    remarks: &mut Remarks,
) -> Result<Finding, AllocError>
    ensures found { IfOk result (λ finding. IsFound finding (spec.asked_at
        (known_by (N.base names.now) (N.value_of_symbol names.now)) line.now.text (lexeme line.now.text name))) }
    ensures remarks { IfOk result (λ _. remarks.new ≡ with_symbols remarks.old (spec.asked_at
        (known_by (N.base names.now) (N.value_of_symbol names.now)) line.now.text (lexeme line.now.text name)).symbols) }
{
    let begin = separator_at(line, name.end).end;
    match condition_of(name.sort, name.text(line)) {
        Some(condition) => asked(line, begin, condition, names, remarks),
        None => Ok(refused(line.end())),
    }
}

// The condition that a token names, if it names one.
fn condition_of(sort: Sort, text: &[u8]) -> Option<Condition>
    ensures { result ≡ spec.condition_of sort text.now }
{
    match sort {
        Sort::Name => read_condition(text),
        _ => None,
    }
}

// Evaluates a condition on its arguments, which begin at or after a column. The symbols of the arguments are added to the remarks.
// Error: memory was refused.
fn asked<N: Names>(
    line: &Line,
    column: u8,
    condition: Condition,
    names: &N,
    remarks: &mut Remarks,
) -> Result<Finding, AllocError>
    ensures found { IfOk result (λ finding. IsFound finding (spec.asked
        (known_by (N.base names.now) (N.value_of_symbol names.now)) line.now.text column condition)) }
    ensures remarks { IfOk result (λ _. remarks.new ≡ with_symbols remarks.old (spec.asked
        (known_by (N.base names.now) (N.value_of_symbol names.now)) line.now.text column condition).symbols) }
{
    match condition {
        Condition::Defined => defined(line, column, true, names, remarks),
        Condition::NotDefined => defined(line, column, false, names, remarks),
        Condition::Blank => Ok(blank(line, column, true)),
        Condition::NotBlank => Ok(blank(line, column, false)),
        Condition::Identical => Ok(same(line, column, true)),
        Condition::Different => Ok(same(line, column, false)),
        _ => numeric(line, column, condition, names, remarks),
    }
}

// False, and flagged A: the result for a missing or unknown condition, or a missing argument.
fn refused(end: u8) -> Finding
    ensures { IsFound result (spec.refused end) }
{
    Finding {
        holds: false,
        end,
        flags: ErrorFlags::A,
    }
}

// EQ NE GT LT GE LE: compares the expression at a column with 0. Without an expression the result is false, and flagged A. The symbols in
// the expression are added to the remarks. Error: memory was refused.
#[tactic(auto, using(m11_scan_expressions::proofs::Beginning::begins))]
fn numeric<N: Names>(
    line: &Line,
    column: u8,
    condition: Condition,
    names: &N,
    remarks: &mut Remarks,
) -> Result<Finding, AllocError>
    ensures found { IfOk result (λ finding. IsFound finding (spec.numeric
        (known_by (N.base names.now) (N.value_of_symbol names.now)) line.now.text column condition)) }
    ensures remarks { IfOk result (λ _. remarks.new ≡ with_symbols remarks.old (spec.numeric
        (known_by (N.base names.now) (N.value_of_symbol names.now)) line.now.text column condition).symbols) }
{
    match next_token(line, column) {
        Some(token) if begins_expression(token.sort) => {
            let number = number_from(line, column, token, names, remarks)?;
            Ok(Finding {
                holds: passes(condition, number.value),
                end: number.end,
                flags: number.flags,
            })
        }
        _ => Ok(refused(column)),
    }
}

// Whether this condition is true of the number, if it is EQ, NE, GT, LT, GE or LE; false for any other condition.
fn passes(condition: Condition, number: u16) -> bool
    ensures { result ≡ spec.passes condition number }
{
    match condition {
        Condition::Zero => number == 0,
        Condition::NotZero => !(number == 0),
        Condition::Positive => !(number == 0 || is_negative(number)),
        Condition::Negative => is_negative(number),
        Condition::NotNegative => !is_negative(number),
        Condition::NotPositive => number == 0 || is_negative(number),
        _ => false,
    }
}

// Whether a word is negative as a signed number.
pub(crate) fn is_negative(number: u16) -> bool
    ensures { result ≡ spec.is_negative number }
{
    number >= 0o100000
}

// DF NDF: tests whether the names at a column are defined. If one is bad or missing, the result is false, and flagged A. The symbols read
// are added to the remarks. Error: memory was refused.
fn defined<N: Names>(
    line: &Line,
    column: u8,
    wants_defined: bool,
    names: &N,
    remarks: &mut Remarks,
) -> Result<Finding, AllocError>
    ensures found { IfOk result (λ finding. IsFound finding (spec.defined
        (known_by (N.base names.now) (N.value_of_symbol names.now)) line.now.text column wants_defined)) }
    ensures remarks { IfOk result (λ _. remarks.new ≡ with_symbols remarks.old (spec.defined
        (known_by (N.base names.now) (N.value_of_symbol names.now)) line.now.text column wants_defined).symbols) }
{
    let tested = names_at(line, column, wants_defined, names, remarks)?;
    let skipped = skip_flags(line, column, tested.end);
    match tested.verdict {
        Some(verdict) => Ok(Finding {
            holds: verdict,
            end: tested.end,
            flags: skipped,
        }),
        None => Ok(Finding {
            holds: false,
            end: tested.end,
            flags: ErrorFlags::A.with(skipped),
        }),
    }
}

// B NB: whether an argument has only blanks and tabs, or for NB, whether it has any other character. A missing argument counts as
// empty.
fn blank(line: &Line, column: u8, wants_blank: bool) -> Finding
    ensures { IsFound result (spec.blank line.now.text column wants_blank) }
{
    match next_actual(line, column, false) {
        Some(actual) => Finding {
            holds: is_as(wants_blank, is_blank_text(actual.inside.text(line))),
            end: actual.end,
            flags: actual_flags(&actual),
        },
        None => Finding {
            holds: wants_blank,
            end: column,
            flags: ErrorFlags::none(),
        },
    }
}

fn is_blank_text(text: &[u8]) -> bool
    ensures { result ≡ (prefix_len is_blank text.now == length text.now) }
{
    run_length(text, Class::Blank) == text.len()
}

/// A if an argument lacks its `>`, otherwise no flags.
pub fn actual_flags(actual: &Actual) -> ErrorFlags
    ensures { bits_of result ≡ spec.actual_flags actual.now }
{
    ErrorFlags::A.when(!actual.is_closed)
}

// IDN DIF: compares two arguments byte for byte. If the first argument is missing, or both the second one and the comma before it are
// missing, the result is false, and flagged A.
fn same(line: &Line, column: u8, wants_same: bool) -> Finding
    ensures { IsFound result (spec.same line.now.text column wants_same) }
{
    match next_actual(line, column, false) {
        Some(first) => second_at(line, wants_same, first),
        None => refused(column),
    }
}

// Compares the first argument of IDN or DIF with the second. A second argument that is missing after a comma counts as empty. If the
// comma is missing too, the result is false, and flagged A.
fn second_at(line: &Line, wants_same: bool, first: Actual) -> Finding
    ensures { IsFound result (spec.second_at line.now.text wants_same first
        (separator_at line.now.text first.end)) }
{
    let separator = separator_at(line, first.end);
    let text = first.inside.text(line);
    let flags = actual_flags(&first);
    match next_actual(line, separator.end, false) {
        Some(second) => Finding {
            holds: is_as(wants_same, text == second.inside.text(line)),
            end: second.end,
            flags: flags.with(actual_flags(&second)),
        },
        None if separator.has_comma => Finding {
            holds: is_as(wants_same, text.is_empty()),
            end: separator.end,
            flags,
        },
        None => refused(separator.end),
    }
}
