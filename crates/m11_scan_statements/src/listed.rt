//! Names in a list, such as the list of a `.GLOBL`. (MACRO-11 Language Reference Manual, ".GLOBL directive".)

ghost use Rattle.std.specs.Prelude.{◌≡◌};
ghost use Rattle.m11_scan.specs.Cutting.{tokens_from};
ghost use Rattle.m11_scan.specs.Views.{lexeme};
ghost use Rattle.m11_scan_statements.specs.Listed as spec;

use crate::labels::is_counter;
use crate::spans::Span;
use m11_scan::{Line, Sort, Token, next_token};

/// An element of a list of names.
#[derive(Clone, Copy, PartialEq, Eq)]
pub struct ListedName {
    /// The name, if the element is a name other than `.`. Any other element, even an empty one, is skipped and flagged A.
    pub name: Option<Span>,
    /// Whether a comma ends the element, so that another element follows.
    pub goes_on: bool,
    /// The column after the element and its comma, if it has one.
    pub end: u8,
}

/// The element of a list of names that begins at a column of a line. If no comma follows it, the list ends, and the rest of the line
/// is left over.
pub fn listed_name(line: &Line, column: u8) -> ListedName
    ensures { result ≡ spec.listed_name column (tokens_from line.now.text column) }
{
    match next_token(line, column) {
        Some(token) if is_name(line, token) => after_name(line, token),
        _ => passed_over(line, column),
    }
}

// Whether a token is a name other than `.`.
pub(crate) fn is_name(line: &Line, token: Token) -> bool
    ensures { result ≡ spec.is_name (lexeme line.now.text token) }
{
    match token.sort {
        Sort::Name => !is_counter(token.text(line)),
        _ => false,
    }
}

fn after_name(line: &Line, name: Token) -> ListedName
    ensures { result ≡ spec.after_name (lexeme line.now.text name) (tokens_from line.now.text name.end) }
{
    let span = Span {
        start: name.start,
        end: name.end,
    };
    match next_token(line, name.end) {
        Some(token) if is_comma(token.sort) => element(Some(span), true, token.end),
        _ => element(Some(span), false, name.end),
    }
}

fn element(name: Option<Span>, goes_on: bool, end: u8) -> ListedName
    ensures { result ≡ spec.element name goes_on end }
{
    ListedName { name, goes_on, end }
}

fn is_comma(sort: Sort) -> bool
    ensures { result ≡ spec.is_comma sort }
{
    matches!(sort, Sort::Comma)
}

// An element that isn't a name. It extends to the next comma, or without a comma to the last token of the line, where the list ends.
fn passed_over(line: &Line, column: u8) -> ListedName
    ensures { result ≡ spec.passed_over column (tokens_from line.now.text column) }
{
    let mut end = column;
    'tokens: while let Some(token) = next_token(line, end) {
        if is_comma(token.sort) {
            return element(None, true, token.end);
        }
        end = token.end;
    }
    element(None, false, end)
}
