//! The end of an expression in a line, and its tokens. (MACRO-11 Language Reference Manual, "Expressions".)

ghost use Rattle.std.specs.Prelude.{◌≡◌, ◌≤◌, map};
ghost use Rattle.m11_scan.specs.Ends.{expression_at, expression_end};
ghost use Rattle.m11_scan.specs.Views.{lexeme};

use crate::cutting::{Token, next_token};
use crate::expressions::{Within, goes_on, role_of};
use crate::line::{LINE_LIMIT, Line};
use arrayvec::ArrayVec;

/// The column after the expression at a column of a line, or that column itself if no expression begins there.
pub fn expression_end(line: &Line, column: u8) -> u8
    ensures end { result ≡ expression_end line.now.text column }
    ensures least { column ≤ result }
{
    let mut within = Within {
        depth: 0,
        is_due: true,
    };
    let mut end = column;
    'tokens: while let Some(token) = next_token(line, end) {
        match goes_on(role_of(token.sort), within) {
            Some(next) => within = next,
            None => return end,
        }
        end = token.end;
    }
    end
}

/// The tokens of an expression.
#[derive(Drop)]
pub struct Expression {
    /// The tokens, in order.
    pub tokens: ArrayVec<Token, LINE_LIMIT>,
    /// The column after the last token. If there are no tokens, the column at which an expression was looked for.
    pub end: u8,
}

/// The tokens of the expression at a column of a line, and the column after it. There are no tokens if no expression begins there.
pub fn expression_at(line: &Line, column: u8) -> Expression
    ensures tokens { map (lexeme line.now.text) result.tokens.items ≡ expression_at line.now.text column }
    ensures end { result.end ≡ expression_end line.now.text column }
{
    let mut within = Within {
        depth: 0,
        is_due: true,
    };
    let mut tokens = ArrayVec::new();
    let mut end = column;
    'tokens: while let Some(token) = next_token(line, end) {
        match goes_on(role_of(token.sort), within) {
            Some(next) => within = next,
            None => return Expression { tokens, end },
        }
        tokens.push(token);
        end = token.end;
    }
    Expression { tokens, end }
}
