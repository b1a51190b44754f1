//! Whether a line has an expression at a column, where it ends, and whether it is a single term. (MACRO-11 Language Reference
//! Manual, "Expressions".)

ghost use Rattle.std.specs.Prelude.{◌≡◌, ◌∷◌, [], IfSome, MatchOption};
ghost use Rattle.std.specs.Option.{is_some};
ghost use Rattle.m11_scan.specs.Cutting.{tokens_from};
ghost use Rattle.m11_scan.specs.Ends.{expression_end};
ghost use Rattle.m11_scan.specs.Expressions.{begin, goes_on, role_of};
ghost use Rattle.m11_scan.specs.Views.{lexeme};
ghost use Rattle.m11_scan_expressions.specs.Expressions as spec;
ghost use Rattle.m11_scan_expressions.specs.Expressions.{IsAlone, IsNext};

use m11_scan::{Line, Role, Sort, Token, expression_end, next_token, role_of};

/// Whether an expression begins at a column of a line: whether the next token can begin one.
#[tactic(auto, using(crate::proofs::Beginning::begins))]
pub fn has_expression(line: &Line, column: u8) -> bool
    ensures { result ≡ spec.has_expression line.now.text column }
{
    match next_token(line, column) {
        Some(token) => begins_expression(token.sort),
        None => false,
    }
}

/// Whether an expression can begin with a token of this sort.
pub fn begins_expression(sort: Sort) -> bool
    ensures { result ≡ is_some (goes_on (role_of sort) begin) }
{
    match role_of(sort) {
        Role::Closes | Role::Foreign => false,
        _ => true,
    }
}

// The end of the expression at a column.
#[derive(Clone, Copy)]
pub struct ExpressionEnd {
    // The column after the expression.
    pub(crate) end: u8,
    // The next token after the expression, if any.
    pub(crate) next: Option<Token>,
    // The expression's token, if the expression is a single term.
    pub(crate) term: Option<Token>,
}

// The end of the expression at a column. `token` is the first token at or after the column; if it can't begin an expression, the
// end is the column itself.
// speed: a call would pass two tokens through memory.
#[inline(always)]
pub(crate) fn expression_end_from(line: &Line, column: u8, token: Token) -> ExpressionEnd
    requires { IsNext line.now.text column token }
    ensures end { result.end ≡ expression_end line.now.text column }
    ensures next { MatchOption result.next (tokens_from line.now.text result.end ≡ [])
        (λ token. tokens_from line.now.text result.end ≡ lexeme line.now.text token ∷ tokens_from line.now.text token.end) }
    ensures term { IfSome result.term (λ term. IsAlone line.now.text column term) }
{
    match single_from(line, column, token) {
        Some(single) => ExpressionEnd {
            end: single.term.end,
            next: single.next,
            term: Some(single.term),
        },
        None => long_expression_end(line, column),
    }
}

// The end of an expression that isn't a single term. Its tokens, if it has any, are cut one after another.
fn long_expression_end(line: &Line, column: u8) -> ExpressionEnd
    ensures end { result.end ≡ expression_end line.now.text column }
    ensures next { MatchOption result.next (tokens_from line.now.text result.end ≡ [])
        (λ token. tokens_from line.now.text result.end ≡ lexeme line.now.text token ∷ tokens_from line.now.text token.end) }
    ensures term { IfSome result.term (λ term. IsAlone line.now.text column term) }
{
    let end = expression_end(line, column);
    ExpressionEnd {
        end,
        next: next_token(line, end),
        term: None,
    }
}

// An expression of one token, which is a term, and the next token after it, if any.
#[derive(Clone, Copy)]
pub struct SingleTerm {
    pub(crate) term: Token,
    pub(crate) next: Option<Token>,
}

// The expression at a column, if it is a single term, with the next token after it, if any.
// speed: the saving and restoring of registers in a call would cost more than the check.
#[inline(always)]
pub(crate) fn single_at(line: &Line, column: u8) -> Option<SingleTerm>
    ensures alone { IfSome result (λ single. IsAlone line.now.text column single.term) }
    ensures found { is_some result ≡ spec.is_single (tokens_from line.now.text column) }
    ensures end { IfSome result (λ single. single.term.end ≡ expression_end line.now.text column) }
{
    let token = next_token(line, column)?;
    single_from(line, column, token)
}

// The expression at a column, with the next token after it, if any. `term` is the first token at or after the column. Returns None
// unless `term` is a term and the expression consists of it alone.
// speed: the saving and restoring of registers in a call would cost more than the check.
#[inline(always)]
pub(crate) fn single_from(line: &Line, column: u8, term: Token) -> Option<SingleTerm>
    requires { IsNext line.now.text column term }
    ensures alone { IfSome result (λ single. IsAlone line.now.text column single.term) }
    ensures found { is_some result ≡ spec.is_single (tokens_from line.now.text column) }
    ensures end { IfSome result (λ single. single.term.end ≡ expression_end line.now.text column) }
    ensures next { IfSome result (λ single. MatchOption single.next (tokens_from line.now.text single.term.end ≡ [])
        (λ token. tokens_from line.now.text single.term.end ≡ lexeme line.now.text token ∷ tokens_from line.now.text token.end)) }
{
    if !is_term(term.sort) {
        return None;
    }
    let next = next_token(line, term.end);
    if joins(next) {
        None
    } else {
        Some(SingleTerm { term, next })
    }
}

pub(crate) fn is_term(sort: Sort) -> bool
    ensures { result ≡ spec.is_term (role_of sort) }
{
    matches!(role_of(sort), Role::Term)
}

// Whether the token after a term, if there is one, joins this term to another.
fn joins(next: Option<Token>) -> bool
    ensures { result ≡ spec.joins_next next }
{
    match next {
        Some(token) => matches!(role_of(token.sort), Role::Sign | Role::Operator),
        None => false,
    }
}
