//! Expressions at a column of a line. (MACRO-11 Language Reference Manual, "Expressions".)

ghost use Rattle.std.specs.Prelude.{◌≡◌, IfOk, IfSome};
ghost use Rattle.m11_scan.specs.Ends.{expression_end};
ghost use Rattle.m11_scan.specs.Views.{bits_of};
ghost use Rattle.m11_scan_expressions.specs.Quantities.{quantity};
ghost use Rattle.m11_scan_expressions.specs.Expressions as spec;
ghost use Rattle.m11_scan_expressions.specs.Expressions.{IsAlone, IsNext, known_by};
ghost use Rattle.m11_scan_expressions.specs.Remarks.{with_symbols};

use crate::expression_ends::{SingleTerm, single_at, single_from};
use crate::expressions::{expression_value, term_value};
use crate::left_overs::skip_flags;
use crate::names::Names;
use crate::remarks::Remarks;
use crate::values::Value;
use m11_scan::{ErrorFlags, Line, Token, expression_at};
use std::alloc::AllocError;

/// The number of an expression that must be absolute.
#[derive(Clone, Copy, PartialEq, Eq)]
pub struct ExpressionNumber {
    /// The number, whatever its kind.
    pub value: u16,
    /// The flags of the expression's value, R for a register or A for another kind that isn't absolute, and I for a skipped
    /// character before the expression's end.
    pub flags: ErrorFlags,
    /// The column after the expression.
    pub end: u8,
}

/// The number of the expression at a column, its flags, and the column after the expression. Only an absolute number is allowed: a
/// register is flagged R, and a value of another kind A. Without an expression the number is 0, flagged Q. The symbols in the
/// expression are added to the remarks; the flags are only returned.
///
/// Error: memory for the symbols was refused.
pub fn number_at<N: Names>(
    line: &Line,
    column: u8,
    names: &N,
    remarks: &mut Remarks,
) -> Result<ExpressionNumber, AllocError>
    ensures value { IfOk result (λ number. number.value
        ≡ spec.number_at (known_by (N.base names.now) (N.value_of_symbol names.now)) line.now.text column) }
    ensures flags { IfOk result (λ number. bits_of number.flags
        ≡ spec.number_flags (known_by (N.base names.now) (N.value_of_symbol names.now)) line.now.text column) }
    ensures end { IfOk result (λ number. number.end ≡ expression_end line.now.text column) }
    ensures remarks { IfOk result (λ _. remarks.new ≡ with_symbols remarks.old (spec.symbols_at line.now.text column)) }
{
    number_by(line, column, single_at(line, column), names, remarks)
}

/// The number of the expression at a column, as `number_at` returns it. `token` is the first token at or after the column.
///
/// Error: memory for the symbols was refused.
// speed: a call would pass tokens through memory.
#[inline(always)]
pub fn number_from<N: Names>(
    line: &Line,
    column: u8,
    token: Token,
    names: &N,
    remarks: &mut Remarks,
) -> Result<ExpressionNumber, AllocError>
    requires { IsNext line.now.text column token }
    ensures value { IfOk result (λ number. number.value
        ≡ spec.number_at (known_by (N.base names.now) (N.value_of_symbol names.now)) line.now.text column) }
    ensures flags { IfOk result (λ number. bits_of number.flags
        ≡ spec.number_flags (known_by (N.base names.now) (N.value_of_symbol names.now)) line.now.text column) }
    ensures end { IfOk result (λ number. number.end ≡ expression_end line.now.text column) }
    ensures remarks { IfOk result (λ _. remarks.new ≡ with_symbols remarks.old (spec.symbols_at line.now.text column)) }
{
    number_by(
        line,
        column,
        single_from(line, column, token),
        names,
        remarks,
    )
}

// The number of the expression at a column, as `number_at` returns it. `single` has the expression's token, if the expression is a
// single term. Error: memory for the symbols was refused.
// speed: a call would pass tokens through memory.
#[inline(always)]
fn number_by<N: Names>(
    line: &Line,
    column: u8,
    single: Option<SingleTerm>,
    names: &N,
    remarks: &mut Remarks,
) -> Result<ExpressionNumber, AllocError>
    requires alone { IfSome single (λ single. IsAlone line.now.text column single.term) }
    requires end { IfSome single (λ single. single.term.end ≡ expression_end line.now.text column) }
    ensures value { IfOk result (λ number. number.value
        ≡ spec.number_at (known_by (N.base names.now) (N.value_of_symbol names.now)) line.now.text column) }
    ensures flags { IfOk result (λ number. bits_of number.flags
        ≡ spec.number_flags (known_by (N.base names.now) (N.value_of_symbol names.now)) line.now.text column) }
    ensures end { IfOk result (λ number. number.end ≡ expression_end line.now.text column) }
    ensures remarks { IfOk result (λ _. remarks.new ≡ with_symbols remarks.old (spec.symbols_at line.now.text column)) }
{
    let read = read_expression(line, column, single, names, remarks)?;
    let value = read.value;
    let flags = value
        .flags
        .with(value.kind.absence())
        .with(skip_flags(line, column, read.end));
    Ok(ExpressionNumber {
        value: value.number,
        flags,
        end: read.end,
    })
}

// The value of an expression and the column after it.
#[derive(Clone, Copy)]
pub(crate) struct Reading {
    pub(crate) value: Value,
    pub(crate) end: u8,
}

// Reads the expression at a column. `single` has the expression's token, if the expression is a single term. The symbols in the
// expression are added to the remarks. Error: memory for the symbols was refused.
// speed: a call would pass tokens through memory.
#[inline(always)]
fn read_expression<N: Names>(
    line: &Line,
    column: u8,
    single: Option<SingleTerm>,
    names: &N,
    remarks: &mut Remarks,
) -> Result<Reading, AllocError>
    requires alone { IfSome single (λ single. IsAlone line.now.text column single.term) }
    requires end { IfSome single (λ single. single.term.end ≡ expression_end line.now.text column) }
    ensures value { IfOk result (λ read. quantity read.value
        ≡ spec.value_at (known_by (N.base names.now) (N.value_of_symbol names.now)) line.now.text column) }
    ensures end { IfOk result (λ read. read.end ≡ expression_end line.now.text column) }
    ensures remarks { IfOk result (λ _. remarks.new ≡ with_symbols remarks.old (spec.symbols_at line.now.text column)) }
{
    match single {
        Some(single) => {
            remarks.add_symbols(&[single.term], line)?;
            Ok(Reading {
                value: term_value(&single.term, line, names),
                end: single.term.end,
            })
        }
        None => read_tokens(line, column, names, remarks),
    }
}

// Reads the expression at a column, of any length, and cuts each token once. The symbols in the expression are added to the
// remarks. Error: memory for the symbols was refused.
// speed: not inlined, since the caller would clear room for the tokens even for an expression of one token.
#[inline(never)]
pub(crate) fn read_tokens<N: Names>(
    line: &Line,
    column: u8,
    names: &N,
    remarks: &mut Remarks,
) -> Result<Reading, AllocError>
    ensures value { IfOk result (λ read. quantity read.value
        ≡ spec.value_at (known_by (N.base names.now) (N.value_of_symbol names.now)) line.now.text column) }
    ensures end { IfOk result (λ read. read.end ≡ expression_end line.now.text column) }
    ensures remarks { IfOk result (λ _. remarks.new ≡ with_symbols remarks.old (spec.symbols_at line.now.text column)) }
{
    let expression = expression_at(line, column);
    let tokens = expression.tokens.as_slice();
    remarks.add_symbols(tokens, line)?;
    Ok(Reading {
        value: expression_value(tokens, line, names),
        end: expression.end,
    })
}

// The value of the expression at a column, of any length.
// speed: not inlined, since the caller would clear room for the tokens even for an expression of one token.
#[inline(never)]
pub(crate) fn long_value<N: Names>(line: &Line, column: u8, names: &N) -> Value
    ensures { quantity result
        ≡ spec.value_at (known_by (N.base names.now) (N.value_of_symbol names.now)) line.now.text column }
{
    expression_value(expression_at(line, column).tokens.as_slice(), line, names)
}

// Adds the symbols in the expression at a column, of any length, to the remarks. Error: memory for the symbols was refused.
// speed: not inlined, since the caller would clear room for the tokens even for an expression of one token.
#[inline(never)]
pub(crate) fn read_all_symbols(
    line: &Line,
    column: u8,
    remarks: &mut Remarks,
) -> Result<(), AllocError>
    ensures { IfOk result (λ _. remarks.new ≡ with_symbols remarks.old (spec.symbols_at line.now.text column)) }
{
    remarks.add_symbols(expression_at(line, column).tokens.as_slice(), line)
}
