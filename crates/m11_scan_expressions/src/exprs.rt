//! Stored expressions. Each is found in its line only once. Its value and its symbols are found later, from the line and the stored
//! expression, without a column. (MACRO-11 Language Reference Manual, "Expressions".)

ghost use Rattle.std.specs.Prelude.{◌≡◌, [], ◌∷◌, IfOk, MatchOption};
ghost use Rattle.m11_scan.specs.Cutting.{tokens_from};
ghost use Rattle.m11_scan.specs.Ends.{expression_end};
ghost use Rattle.m11_scan.specs.Views.{lexeme};
ghost use Rattle.m11_scan_expressions.specs.Expressions as spec;
ghost use Rattle.m11_scan_expressions.specs.Expressions.{IsNext, known_by};
ghost use Rattle.m11_scan_expressions.specs.Quantities.{quantity};
ghost use Rattle.m11_scan_expressions.specs.Remarks.{with_symbols};
ghost use Rattle.m11_scan_expressions.specs.Tokens.{expression, expression_of, is_empty};

use crate::expression_ends::{begins_expression, expression_end_from, has_expression, is_term};
use crate::expressions::{expression_value, term_value};
use crate::expressions_at::{long_value, read_all_symbols, read_tokens};
use crate::names::Names;
use crate::remarks::Remarks;
use crate::values::Value;
use m11_scan::{Line, Token, next_token};
use std::alloc::AllocError;

/// An expression of a line.
// speed: four bytes, so that it is passed by value.
#[derive(Clone, Copy, Default)]
pub enum Expr {
    /// No expression.
    #[default]
    Empty,
    /// A single token, which is a term.
    Term(Token),
    /// The expression at this column of the line, whatever its tokens. It may be empty.
    Tokens(u8),
}

/// An expression and what follows it.
#[derive(Clone, Copy)]
pub struct ExprAt {
    /// The expression.
    pub expr: Expr,
    /// The column after the expression.
    pub end: u8,
    /// The next token after the expression, if any.
    pub next: Option<Token>,
}

/// The expression at a column of a line. It is empty, and ends at that column, if there is no next token or the next token can't
/// begin an expression.
// speed: a call would pass two tokens through memory.
#[inline(always)]
#[tactic(auto, using(crate::proofs::Empties::none_before, crate::proofs::Empties::none_at_end))]
pub fn expr_at(line: &Line, column: u8) -> ExprAt
    ensures expr { expression_of line.now.text result.expr ≡ expression line.now.text column }
    ensures end { result.end ≡ expression_end line.now.text column }
    ensures next { MatchOption result.next (tokens_from line.now.text result.end ≡ [])
        (λ token. tokens_from line.now.text result.end ≡ lexeme line.now.text token ∷ tokens_from line.now.text token.end) }
{
    match next_token(line, column) {
        Some(token) => {
            if begins_expression(token.sort) {
                expr_from(line, column, token)
            } else {
                nothing_at(line, column, Some(token))
            }
        }
        None => nothing_at(line, column, None),
    }
}

// The empty expression at a column. `next` is the first token at or after the column, if any.
// speed: a call would pass a token through memory.
#[inline(always)]
#[tactic(auto, using(crate::proofs::Empties::ends_there))]
fn nothing_at(line: &Line, column: u8, next: Option<Token>) -> ExprAt
    requires none { expression line.now.text column ≡ [] }
    requires next { MatchOption next (tokens_from line.now.text column ≡ [])
        (λ token. tokens_from line.now.text column ≡ lexeme line.now.text token ∷ tokens_from line.now.text token.end) }
    ensures expr { expression_of line.now.text result.expr ≡ expression line.now.text column }
    ensures end { result.end ≡ expression_end line.now.text column }
    ensures next { MatchOption result.next (tokens_from line.now.text result.end ≡ [])
        (λ token. tokens_from line.now.text result.end ≡ lexeme line.now.text token ∷ tokens_from line.now.text token.end) }
{
    ExprAt {
        expr: Expr::Empty,
        end: column,
        next,
    }
}

/// The expression at a column. `token` is the first token at or after the column. If this token can't begin an expression, the expression
/// is empty and ends at the column.
// speed: a call would pass two tokens through memory.
#[inline(always)]
#[tactic(auto, using(crate::proofs::Empties::one_term))]
pub fn expr_from(line: &Line, column: u8, token: Token) -> ExprAt
    requires { IsNext line.now.text column token }
    ensures expr { expression_of line.now.text result.expr ≡ expression line.now.text column }
    ensures end { result.end ≡ expression_end line.now.text column }
    ensures next { MatchOption result.next (tokens_from line.now.text result.end ≡ [])
        (λ token. tokens_from line.now.text result.end ≡ lexeme line.now.text token ∷ tokens_from line.now.text token.end) }
{
    let reached = expression_end_from(line, column, token);
    let expr = match reached.term {
        Some(term) => Expr::Term(term),
        None => Expr::Tokens(column),
    };
    ExprAt {
        expr,
        end: reached.end,
        next: reached.next,
    }
}

/// The expression at a column, without what follows it.
pub fn expr_starting(line: &Line, column: u8) -> Expr
    ensures { expression_of line.now.text result ≡ expression line.now.text column }
{
    expr_at(line, column).expr
}

impl Expr {
    /// The value of the expression. An empty one has the value of a missing term: 0, flagged Q.
    // speed: a call would pass the value through memory.
    #[inline(always)]
    pub fn value<N: Names>(self, line: &Line, names: &N) -> Value
        ensures { quantity result
            ≡ spec.value (known_by (N.base names.now) (N.value_of_symbol names.now)) (expression_of line.now.text self) }
    {
        match self {
            Expr::Empty => Value::missing(),
            Expr::Term(token) => single_value(line, token, names),
            Expr::Tokens(column) => long_value(line, column, names),
        }
    }

    /// Whether the expression has no tokens.
    pub fn is_empty(self, line: &Line) -> bool
        ensures { result ≡ is_empty (expression_of line.now.text self) }
    {
        match self {
            Expr::Empty => true,
            Expr::Term(_) => false,
            Expr::Tokens(column) => !has_expression(line, column),
        }
    }

    /// Adds the symbols in the expression to the remarks, in order. Error: memory for the symbols was refused.
    pub fn read_symbols(self, line: &Line, remarks: &mut Remarks) -> Result<(), AllocError>
        ensures { IfOk result
            (λ _. remarks.new ≡ with_symbols remarks.old (spec.symbols (expression_of line.now.text self))) }
    {
        match self {
            Expr::Empty => Ok(()),
            Expr::Term(token) => remarks.add_symbols(&[token], line),
            Expr::Tokens(column) => read_all_symbols(line, column, remarks),
        }
    }

    /// The value of the expression, as `value` returns it. The symbols in the expression are added to the remarks, as by
    /// `read_symbols`. Error: memory for the symbols was refused.
    // speed: each token of a long expression is cut once for both.
    pub fn read_value<N: Names>(
        self,
        line: &Line,
        names: &N,
        remarks: &mut Remarks,
    ) -> Result<Value, AllocError>
        ensures value { IfOk result (λ value. quantity value
            ≡ spec.value (known_by (N.base names.now) (N.value_of_symbol names.now)) (expression_of line.now.text self)) }
        ensures remarks { IfOk result
            (λ _. remarks.new ≡ with_symbols remarks.old (spec.symbols (expression_of line.now.text self))) }
    {
        match self {
            Expr::Empty | Expr::Term(_) => {
                self.read_symbols(line, remarks)?;
                Ok(self.value(line, names))
            }
            Expr::Tokens(column) => {
                let read = read_tokens(line, column, names, remarks)?;
                Ok(read.value)
            }
        }
    }
}

// The value of an expression of one token. In an expression that was read from a line, this token is a term.
#[inline(always)]
fn single_value<N: Names>(line: &Line, token: Token, names: &N) -> Value
    ensures { quantity result
        ≡ spec.value (known_by (N.base names.now) (N.value_of_symbol names.now)) (expression_of line.now.text (Expr.Term token)) }
{
    if is_term(token.sort) {
        term_value(&token, line, names)
    } else {
        expression_value(&[token], line, names)
    }
}
