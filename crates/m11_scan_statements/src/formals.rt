//! The formals of a macro. (MACRO-11 Language Reference Manual, "Arguments in macro definitions and macro calls" and "Automatic
//! creation of local symbols".)

ghost use Rattle.std.specs.Prelude.{◌≡◌};
ghost use Rattle.m11_scan_statements.specs.Formals as spec;
ghost use Rattle.m11_scan_statements.specs.declared.formals.NextFormal.TheVariants.{Named};

use crate::listed::is_name;
use crate::spans::Span;
use m11_scan::{Line, Token, next_token, text_between};

/// A formal in a line.
#[derive(Clone, Copy, PartialEq, Eq)]
pub struct Formal {
    /// The formal's name.
    pub name: Span,
    /// Whether a `?` directly precedes the name, so that an empty actual becomes a created local symbol.
    pub is_created: bool,
}

/// The next item in a list of formals.
#[derive(Clone, Copy, PartialEq, Eq)]
pub enum NextFormal {
    /// The end of the list: no token is left.
    Ends,
    /// A token that isn't a name, or is `.`. It ends the list and is flagged A.
    Bad,
    /// A formal.
    Named(Formal),
}

/// The next item in a list of formals, at or after a column of a line.
pub fn next_formal(line: &Line, column: u8) -> NextFormal
    ensures { result ≡ spec.next_formal line.now.text column }
{
    match next_token(line, column) {
        Some(token) if is_name(line, token) => named(token, follows_question(line, token.start)),
        Some(_) => NextFormal::Bad,
        None => NextFormal::Ends,
    }
}

// Whether a `?` directly precedes a column.
fn follows_question(line: &Line, column: u8) -> bool
    ensures { result ≡ spec.follows_question line.now.text column }
{
    text_between(line, column.saturating_sub(1), column) == b"?".as_slice()
}

fn named(token: Token, is_created: bool) -> NextFormal
    ensures { result ≡ Named (record { name = record { start = token.start; end = token.end }; is_created = is_created }) }
{
    NextFormal::Named(Formal {
        name: Span {
            start: token.start,
            end: token.end,
        },
        is_created,
    })
}
