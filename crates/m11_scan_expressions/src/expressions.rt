//! Values of expressions. (MACRO-11 Language Reference Manual, "Expressions".)

ghost use Rattle.std.specs.Prelude.{◌≡◌, ◌≤◌, [], ◌∷◌, length, map, take};
ghost use Rattle.m11_scan.specs.Expressions.{begin, role_of, sort_of};
ghost use Rattle.m11_scan.specs.declared.expressions.Role.TheVariants.{Term};
ghost use Rattle.m11_scan_expressions.specs.Reaches.{part_length, term_length};
ghost use Rattle.m11_scan_expressions.specs.Quantities.{quantity};
ghost use Rattle.m11_scan_expressions.specs.Values.{items_of, value_as_term, value_of};

use crate::expression_ends::is_term;
use crate::names::Names;
use crate::operations::combined;
use crate::prefixes::{Prefix, applied, prefix_of, radix_under};
use crate::reaches::{bracketed_length, operator_after, term_length};
use crate::terms::atom;
use crate::values::Value;
use m11_scan::{Line, Radix, Token};

// The value of the expression that these tokens of a line make up.
pub(crate) fn expression_value<N: Names>(tokens: &[Token], line: &Line, names: &N) -> Value
    ensures { quantity result
        ≡ value_of (N.base names.now) (items_of (N.value_of_symbol names.now) line.now.text tokens.now) }
{
    expression(tokens, names.radix(), false, line, names).value
}

// The value of an expression of one token, which must be a term.
pub(crate) fn term_value<N: Names>(token: &Token, line: &Line, names: &N) -> Value
    requires { role_of token.now.sort ≡ Term }
    ensures { quantity result
        ≡ value_of (N.base names.now) (items_of (N.value_of_symbol names.now) line.now.text (token.now ∷ [])) }
{
    atom(token, names.radix(), line, names)
}

// The value of the first tokens of a list, and the number of these tokens.
#[derive(Clone, Copy, PartialEq, Eq)]
pub struct Part {
    pub(crate) value: Value,
    pub(crate) length: usize,
}

// The value and the number of tokens of the expression that consists of all these tokens or, in a bracket, of those before its
// `>`. Operators are applied from left to right.
#[cycle(expression)]
fn expression<N: Names>(
    tokens: &[Token],
    radix: Radix,
    in_bracket: bool,
    line: &Line,
    names: &N,
) -> Part
    ensures length { result.length ≡ part_length in_bracket 0 (map sort_of tokens.now) }
    ensures value { quantity result.value
        ≡ value_of radix (items_of (N.value_of_symbol names.now) line.now.text (take result.length tokens.now)) }
    ensures within { result.length ≤ length tokens.now }
{
    let first = first_term(tokens, radix, in_bracket, line, names);
    let mut value = first.value;
    let mut length = first.length;
    'operators: while let Some(operator) = operator_after(&tokens[length..]) {
        let next = term(&tokens[length + 1..], radix, in_bracket, line, names);
        value = combined(operator, value, next.value);
        length += next.length + 1;
    }
    Part { value, length }
}

// The value and the number of tokens of the first term of an expression, or of a term after a prefix. The term may be missing.
// speed: inline, so that a bracket at the beginning of an expression takes one call, and two signs in a row take one.
#[cycle(expression)]
#[inline(always)]
fn first_term<N: Names>(
    tokens: &[Token],
    radix: Radix,
    in_bracket: bool,
    line: &Line,
    names: &N,
) -> Part
    ensures length { result.length ≡ term_length in_bracket begin (map sort_of tokens.now) }
    ensures value { quantity result.value
        ≡ value_as_term radix (items_of (N.value_of_symbol names.now) line.now.text (take result.length tokens.now)) }
    ensures within { result.length ≤ length tokens.now }
{
    if let [first, rest @ ..] = tokens {
        if let Some(prefix) = prefix_of(first.sort) {
            match prefix {
                Prefix::Bracket => {
                    let inner = expression(rest, radix, true, line, names);
                    let value = applied(prefix, inner.length < rest.len(), inner.value);
                    let length = 1 + bracketed_length(rest, inner.length, in_bracket);
                    return Part { value, length };
                }
                _ => {
                    let part = term(rest, radix_under(prefix, radix), in_bracket, line, names);
                    let value = applied(prefix, false, part.value);
                    let length = 1 + part.length;
                    return Part { value, length };
                }
            }
        }
    }
    term(tokens, radix, in_bracket, line, names)
}

// The value and the number of tokens of the term that these tokens begin with. The term may be missing.
// speed: inline, since most terms are one token, for which a call would save and restore more registers than it uses.
#[cycle(expression)]
#[inline(always)]
fn term<N: Names>(tokens: &[Token], radix: Radix, in_bracket: bool, line: &Line, names: &N) -> Part
    ensures length { result.length ≡ term_length in_bracket begin (map sort_of tokens.now) }
    ensures value { quantity result.value
        ≡ value_as_term radix (items_of (N.value_of_symbol names.now) line.now.text (take result.length tokens.now)) }
    ensures within { result.length ≤ length tokens.now }
{
    if let [first, rest @ ..] = tokens {
        if is_term(first.sort) {
            let value = atom(first, radix, line, names);
            let length = 1 + term_length(rest, false, in_bracket);
            return Part { value, length };
        }
    }
    any_term(tokens, radix, in_bracket, line, names)
}

// The value and the number of tokens of the term that these tokens begin with, whatever its form. The term may be missing.
#[cycle(expression)]
fn any_term<N: Names>(
    tokens: &[Token],
    radix: Radix,
    in_bracket: bool,
    line: &Line,
    names: &N,
) -> Part
    ensures length { result.length ≡ term_length in_bracket begin (map sort_of tokens.now) }
    ensures value { quantity result.value
        ≡ value_as_term radix (items_of (N.value_of_symbol names.now) line.now.text (take result.length tokens.now)) }
    ensures within { result.length ≤ length tokens.now }
{
    match tokens {
        [] => Part {
            value: Value::missing(),
            length: 0,
        },
        [first, rest @ ..] => match prefix_of(first.sort) {
            Some(prefix) => match prefix {
                Prefix::Bracket => {
                    let inner = expression(rest, radix, true, line, names);
                    Part {
                        value: applied(prefix, inner.length < rest.len(), inner.value),
                        length: 1 + bracketed_length(rest, inner.length, in_bracket),
                    }
                }
                _ => {
                    let part = first_term(
                        rest,
                        radix_under(prefix, radix),
                        in_bracket,
                        line,
                        names,
                    );
                    Part {
                        value: applied(prefix, false, part.value),
                        length: 1 + part.length,
                    }
                }
            },
            None => Part {
                value: atom(first, radix, line, names),
                length: term_length(tokens, true, in_bracket),
            },
        },
    }
}
