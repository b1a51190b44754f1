//! The names of DF and NDF. (MACRO-11 Language Reference Manual, "Conditional assembly block directives".)

ghost use Rattle.std.specs.Prelude.{◌≡◌, ◌<◌, ◌∷◌, [], drop, length, option_to_list, IfOk, IfSome};
ghost use Rattle.m11_scan.specs.Cutting.{text_between, tokens_from};
ghost use Rattle.m11_scan_expressions.specs.Quantities.{quantity};
ghost use Rattle.m11_scan_expressions.specs.Terms.{symbol_in};
ghost use Rattle.m11_unfold_rules.specs.Definedness as spec;
ghost use Rattle.m11_scan_expressions.specs.Expressions.{known_by};
ghost use Rattle.m11_scan_expressions.specs.Remarks.{with_symbols};

use bitflags::Flags;
use m11_scan::{ErrorFlags, Line, Sort, Token, next_token};
use m11_scan_expressions::{Names, Remarks, Symbol, Value, next_symbol};
use std::alloc::AllocError;

// The operator between two names.
#[derive(Clone, Copy, PartialEq, Eq)]
pub enum Joint {
    // `&`
    And,
    // `!`
    Or,
}

// The result of the names so far, and the operator before the next one.
#[derive(Clone, Copy, PartialEq, Eq)]
pub struct SoFar {
    pub(crate) holds: bool,
    pub(crate) joint: Joint,
}

// The operator between two names, and the column after it.
#[derive(Clone, Copy, PartialEq, Eq)]
pub struct JointAt {
    pub(crate) joint: Joint,
    pub(crate) end: u8,
}

// The result of a list of names.
#[derive(Clone, Copy, PartialEq, Eq)]
pub(crate) struct NamesVerdict {
    // The result; None if one of the names is bad or missing.
    pub verdict: Option<bool>,
    // The column after the names, or the end of the line if one is bad or missing.
    pub end: u8,
}

// Tests whether each name at a column is defined, or undefined for NDF, and combines the results by the `&` and `!` between the names, from
// left to right. There is no result if a name is bad or missing. The symbols read are added to the remarks. Error: memory was refused.
pub(crate) fn names_at<N: Names>(
    line: &Line,
    column: u8,
    wants_defined: bool,
    names: &N,
    remarks: &mut Remarks,
) -> Result<NamesVerdict, AllocError>
    ensures verdict { IfOk result (λ tested. tested.verdict ≡ (spec.names_at
        (known_by (N.base names.now) (N.value_of_symbol names.now)) wants_defined line.now.text column).verdict) }
    ensures end { IfOk result (λ tested. tested.end ≡ (spec.names_at
        (known_by (N.base names.now) (N.value_of_symbol names.now)) wants_defined line.now.text column).end) }
    ensures remarks { IfOk result (λ _. remarks.new ≡ with_symbols remarks.old (spec.names_at
        (known_by (N.base names.now) (N.value_of_symbol names.now)) wants_defined line.now.text column).symbols) }
{
    let mut before = None;
    let mut begin = column;
    'names: while let Some(name) = next_token(line, begin) {
        let Some(verdict) = name_verdict(line, name, wants_defined, names, remarks)? else {
            return Ok(at_bad(line));
        };
        let verdict = joined_to(before, verdict);
        let Some(next) = joint_after(line, name) else {
            return Ok(NamesVerdict {
                verdict: Some(verdict),
                end: name.end,
            });
        };
        before = Some(SoFar {
            holds: verdict,
            joint: next.joint,
        });
        begin = next.end;
    }
    Ok(at_bad(line))
}

// The result for the symbol that a token refers to, or None if the token refers to no symbol. The symbol is added to the remarks. Error:
// memory was refused.
fn name_verdict<N: Names>(
    line: &Line,
    token: Token,
    wants_defined: bool,
    names: &N,
    remarks: &mut Remarks,
) -> Result<Option<bool>, AllocError>
    ensures verdict { IfOk result (λ verdict. verdict ≡ spec.verdict_of
        (known_by (N.base names.now) (N.value_of_symbol names.now)) wants_defined
        (symbol_in token.sort (text_between line.now.text token.start token.end))) }
    ensures remarks { IfOk result (λ _. remarks.new ≡ with_symbols remarks.old
        (option_to_list (symbol_in token.sort (text_between line.now.text token.start token.end)))) }
{
    match symbol_of(line, token) {
        Some(symbol) => Ok(Some(symbol_verdict(&symbol, wants_defined, names, remarks)?)),
        None => Ok(None),
    }
}

// Whether a symbol is defined, or undefined for NDF. The symbol is added to the remarks. Error: memory was refused.
fn symbol_verdict<N: Names>(
    symbol: &Symbol,
    wants_defined: bool,
    names: &N,
    remarks: &mut Remarks,
) -> Result<bool, AllocError>
    ensures verdict { IfOk result (λ verdict. verdict
        ≡ spec.tested (known_by (N.base names.now) (N.value_of_symbol names.now)) wants_defined symbol.now) }
    ensures remarks { IfOk result (λ _. remarks.new ≡ with_symbols remarks.old (symbol.now ∷ [])) }
{
    remarks.add_symbol(*symbol)?;
    Ok(tested(names, *symbol, wants_defined))
}

fn at_bad(line: &Line) -> NamesVerdict
    ensures verdict { result.verdict ≡ None }
    ensures end { result.end ≡ length line.now.text }
{
    NamesVerdict {
        verdict: None,
        end: line.end(),
    }
}

// The symbol that a token refers to, if any.
fn symbol_of(line: &Line, token: Token) -> Option<Symbol>
    ensures { result ≡ symbol_in token.sort (text_between line.now.text token.start token.end) }
{
    let tokens = [token];
    match next_symbol(&tokens, line) {
        Some((symbol, _)) => Some(symbol),
        None => None,
    }
}

// Whether a symbol is defined, or undefined for NDF.
fn tested<N: Names>(names: &N, symbol: Symbol, wants_defined: bool) -> bool
    ensures { result ≡ spec.tested (known_by (N.base names.now) (N.value_of_symbol names.now)) wants_defined symbol }
{
    is_as(wants_defined, is_defined(names.meaning(symbol)))
}

// Whether `found` equals `wanted`: `found` itself, or its negation if `wanted` is false.
pub(crate) fn is_as(wanted: bool, found: bool) -> bool
    ensures { result ≡ spec.is_as wanted found }
{
    if wanted { found } else { !found }
}

fn is_defined(meaning: Value) -> bool
    ensures { result ≡ spec.is_defined (quantity meaning) }
{
    meaning.flags.bits() & ErrorFlags::U.bits() == 0
}

// The result of a name combined with the result of the names before it, by the operator between them. Unchanged if no names are before it.
fn joined_to(before: Option<SoFar>, verdict: bool) -> bool
    ensures { result ≡ spec.joined_to before verdict }
{
    match before {
        Some(so_far) => match so_far.joint {
            Joint::And => so_far.holds && verdict,
            Joint::Or => so_far.holds || verdict,
        },
        None => verdict,
    }
}

// The operator that follows a name, if the next token is one.
fn joint_after(line: &Line, name: Token) -> Option<JointAt>
    ensures joint { result ≡ spec.joint_in (tokens_from line.now.text name.end) }
    ensures rest { IfSome result (λ next. drop 1 (tokens_from line.now.text name.end) ≡ tokens_from line.now.text next.end) }
    ensures after { IfSome result (λ next. name.end < next.end) }
{
    let mark = next_token(line, name.end)?;
    let joint = joining(mark.sort)?;
    Some(JointAt {
        joint,
        end: mark.end,
    })
}

fn joining(sort: Sort) -> Option<Joint>
    ensures { result ≡ spec.joining sort }
{
    match sort {
        Sort::And => Some(Joint::And),
        Sort::Or => Some(Joint::Or),
        _ => None,
    }
}
