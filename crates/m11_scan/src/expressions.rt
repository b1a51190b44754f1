//! Where an expression ends: the roles of tokens, and the state after each. (MACRO-11 Language Reference Manual, "Terms" and
//! "Expressions".)

ghost use Rattle.std.specs.Prelude.{◌≡◌, ◌+◌, ◌<◌, ◌≤◌, IfSome};
ghost use Rattle.m11_scan.specs.Expressions.{goes_on, role_of, within_if};

use crate::sort::Sort;

/// The role of a token in an expression.
#[derive(Clone, Copy, PartialEq, Eq)]
pub enum Role {
    /// A term: a name, a number, or characters after `'`, `"` or `^R`.
    Term,
    /// `^B`, `^O`, `^D`, `^C` or `%`, before a term.
    Prefix,
    /// `+` or `-`, before a term or between two terms.
    Sign,
    /// `*`, `/`, `&` or `!`, between two terms.
    Operator,
    /// `<`
    Opens,
    /// `>`
    Closes,
    /// Not part of an expression.
    Foreign,
}

/// The state after some of the tokens of an expression.
#[derive(Clone, Copy, PartialEq, Eq)]
pub struct Within {
    /// The number of `<` that aren't closed yet.
    pub depth: usize,
    /// Whether a term is due next; it may be missing.
    pub is_due: bool,
}

// The state after a token with this role, or none if the expression ends before it.
pub(crate) fn goes_on(role: Role, within: Within) -> Option<Within>
    requires { within.depth < usize.MAX }
    ensures within { result ≡ goes_on role within }
    ensures deep { IfSome result (λ next. next.depth ≤ within.depth + 1) }
{
    match role {
        Role::Term => within_if(within.is_due, within.depth, false),
        Role::Prefix => within_if(within.is_due, within.depth, true),
        Role::Sign | Role::Operator => within_if(true, within.depth, true),
        Role::Opens => within_if(within.is_due, within.depth + 1, true),
        Role::Closes => {
            if within.depth == 0 {
                None
            } else {
                within_if(true, within.depth - 1, false)
            }
        }
        Role::Foreign => None,
    }
}

fn within_if(holds: bool, depth: usize, is_due: bool) -> Option<Within>
    ensures { result ≡ within_if holds depth is_due }
{
    if holds {
        Some(Within { depth, is_due })
    } else {
        None
    }
}

/// The role of a token of this sort.
pub fn role_of(sort: Sort) -> Role
    ensures { result ≡ role_of sort }
{
    match sort {
        Sort::Name
        | Sort::Number
        | Sort::DecimalNumber
        | Sort::LocalSymbol
        | Sort::Character
        | Sort::TwoCharacters
        | Sort::Packed => Role::Term,
        Sort::BinaryRadix
        | Sort::OctalRadix
        | Sort::DecimalRadix
        | Sort::Complement
        | Sort::Percent => Role::Prefix,
        Sort::Plus | Sort::Minus => Role::Sign,
        Sort::Times | Sort::Over | Sort::And | Sort::Or => Role::Operator,
        Sort::Less => Role::Opens,
        Sort::Greater => Role::Closes,
        Sort::NumberSign
        | Sort::At
        | Sort::Open
        | Sort::Close
        | Sort::Comma
        | Sort::Colon
        | Sort::TwoColons
        | Sort::Equals
        | Sort::TwoEquals => Role::Foreign,
    }
}
