//! The number of tokens of a term, and the operator after it. (MACRO-11 Language Reference Manual, "Terms" and "Expressions".)

ghost use Rattle.std.specs.Prelude.{◌≡◌, ◌<◌, ◌≤◌, false, length, map};
ghost use Rattle.m11_scan.specs.Expressions.{sort_of};
ghost use Rattle.m11_scan_expressions.specs.Prefixes.{bracket_length};
ghost use Rattle.m11_scan_expressions.specs.Reaches.{ends_before, ends_term, opened, operator_after, outside, term_length};
ghost use Rattle.m11_scan_expressions.specs.Splits.{after, operator_of};

use crate::operators::Operator;
use m11_scan::{Role, Sort, Token, Within, role_of};

// The number of these tokens up to the end of a term. `is_due` says whether a term is due at their beginning; otherwise a term was read
// before them. A `>` that closes no `<` among them ends the term if `in_bracket`.
// speed: inline, since usually the first token ends the term.
#[inline(always)]
pub(crate) fn term_length(tokens: &[Token], is_due: bool, in_bracket: bool) -> usize
    ensures length { result ≡ term_length in_bracket (outside is_due) (map sort_of tokens.now) }
    ensures within { result ≤ length tokens.now }
{
    let mut count = 0;
    let mut within = Within { depth: 0, is_due };
    let mut rest = tokens;
    'tokens: while let [token, others @ ..] = rest {
        let role = role_of(token.sort);
        if ends_term(in_bracket, within, role) {
            return count;
        }
        within = after(role, within);
        count += 1;
        rest = others;
    }
    count
}

// The number of tokens after a `<` up to the end of the term that the `<` begins: the `inside` tokens before the `>`, the `>` itself, and
// any further tokens of the term. If the `>` is missing, the number of all tokens.
// speed: inline, since usually the token after the `>` ends the term.
#[inline(always)]
pub(crate) fn bracketed_length(tokens: &[Token], inside: usize, in_bracket: bool) -> usize
    requires { inside ≡ bracket_length 0 (map sort_of tokens.now) }
    ensures length { result ≡ term_length in_bracket opened (map sort_of tokens.now) }
    ensures within { result ≤ length tokens.now }
{
    if inside < tokens.len() {
        inside + 1 + term_length(&tokens[inside + 1..], false, in_bracket)
    } else {
        tokens.len()
    }
}

// Whether a term ends before a token with this role. A term doesn't end inside its own brackets.
fn ends_term(in_bracket: bool, within: Within, role: Role) -> bool
    ensures { result ≡ ends_term in_bracket within role }
{
    within.depth == 0 && ends_before(in_bracket, within.is_due, role)
}

// Whether a term ends before a token outside its own brackets: an operator, a sign where no term is due, or, in a bracket, the
// `>` that closes it.
fn ends_before(in_bracket: bool, is_due: bool, role: Role) -> bool
    ensures { result ≡ ends_before in_bracket is_due role }
{
    match role {
        Role::Operator => true,
        Role::Sign => !is_due,
        Role::Closes => in_bracket,
        _ => false,
    }
}

// The state of an expression after a token with this role.
fn after(role: Role, within: Within) -> Within
    requires { within.depth < usize.MAX }
    ensures { result ≡ after role within }
{
    let (depth, is_due) = match role {
        Role::Term => (within.depth, false),
        Role::Prefix | Role::Sign | Role::Operator => (within.depth, true),
        Role::Opens => (within.depth + 1, true),
        Role::Closes => (within.depth.saturating_sub(1), false),
        Role::Foreign => (within.depth, within.is_due),
    };
    Within { depth, is_due }
}

// The operator at the beginning of the tokens after a term, if there is one.
pub(crate) fn operator_after(tokens: &[Token]) -> Option<Operator>
    ensures { result ≡ operator_after (map sort_of tokens.now) }
{
    match tokens {
        [token, ..] => operator_of(token.sort),
        [] => None,
    }
}

// The operator whose token, after a term, has this sort; None if there is no such operator.
fn operator_of(sort: Sort) -> Option<Operator>
    ensures { result ≡ operator_of false sort }
{
    match sort {
        Sort::Plus => Some(Operator::Add),
        Sort::Minus => Some(Operator::Subtract),
        Sort::Times => Some(Operator::Multiply),
        Sort::Over => Some(Operator::Divide),
        Sort::And => Some(Operator::And),
        Sort::Or => Some(Operator::Or),
        _ => None,
    }
}
