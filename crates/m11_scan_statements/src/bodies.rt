//! The body of a line: what follows its labels. (MACRO-11 Language Reference Manual, "Operator field", "Direct assignment statements"
//! and ".WORD directive".)

ghost use Rattle.std.specs.Prelude.{◌≡◌, [], ◌∷◌, drop, MatchOption};
ghost use Rattle.m11_scan.specs.Cutting.{tokens_from};
ghost use Rattle.m11_scan.specs.Views.{lexeme};
ghost use Rattle.m11_scan.specs.declared.sort.Sort.TheVariants as sorts;
ghost use Rattle.m11_scan_statements.specs.Bodies as spec;
ghost use Rattle.m11_scan_statements.specs.declared.bodies.Body.TheVariants.{Assign};

use crate::labels::is_counter;
use crate::listed::is_name;
use crate::spans::Span;
use m11_scan::{Class, Line, Sort, Token, is_of, next_token, run_length, skipped_between};

/// An assignment to a name.
#[derive(Clone, Copy, PartialEq, Eq)]
pub struct Assignment {
    /// The name.
    pub name: Span,
    /// Whether the name becomes global, by `==`.
    pub is_global: bool,
    /// The column after the `=` or `==`, where the value begins.
    pub value: u8,
}

/// The body of a line: what follows its labels.
#[derive(Clone, Copy, PartialEq, Eq)]
pub enum Body {
    /// Nothing but blanks, tabs, skipped characters and a comment.
    Nothing,
    /// `name=e` or `name==e`.
    Assign(Assignment),
    /// `.=e`, with the column after the `=`.
    SetCounter(u8),
    /// A name in the operator field, whether or not an operator has that name. Its operands aren't read.
    Operate(Span),
    /// Anything else: words, as in a `.WORD` whose name is left out, with the column where they begin.
    Words(u8),
}

// The body that begins at or after a column of a line. `next` is the first token at or after that column, if there is one.
pub(crate) fn body_at(line: &Line, column: u8, next: Option<Token>) -> Body
    requires { MatchOption next (tokens_from line.now.text column ≡ [])
        (λ token. tokens_from line.now.text column ≡ lexeme line.now.text token ∷ tokens_from line.now.text token.end) }
    ensures { result ≡ spec.body_in line.now.text (tokens_from line.now.text column) }
{
    match next {
        Some(first) => begun_body(line, first),
        None => Body::Nothing,
    }
}

// The body that begins with this token: an assignment, or else an operator or words.
fn begun_body(line: &Line, first: Token) -> Body
    ensures { result ≡ spec.body_in line.now.text
        (lexeme line.now.text first ∷ tokens_from line.now.text first.end) }
{
    match assignment_to(line, first) {
        Some(body) => body,
        None => operation(line, first),
    }
}

// The assignment that the next token after `target` makes to `target`, if that token makes one and only blanks and tabs are between the
// two.
fn assignment_to(line: &Line, target: Token) -> Option<Body>
    ensures { result
        ≡ spec.assignment_to line.now.text (lexeme line.now.text target) (tokens_from line.now.text target.end) }
{
    let end = target.end;
    // speed: most lines have an operand here, and no token needs to be cut
    if begins_operand(line, end) {
        return None;
    }
    let equals = next_token(line, end)?;
    // speed: most tokens aren't `=`, so this is tested before the characters between the tokens
    let body = assigned(line, target, equals)?;
    if skipped_between(line, end, equals.start) {
        None
    } else {
        Some(body)
    }
}

// Whether a line, after the blanks and tabs at a column, ends or goes on with a character for which `is_operand_start` is true.
fn begins_operand(line: &Line, column: u8) -> bool
    ensures { result ≡ spec.begins_operand (drop column line.now.text) }
{
    let text = line.text();
    let column = usize::from(column);
    // speed: an early return, which is quicker than the empty slice of `text_from`
    if column >= text.len() {
        return true;
    }
    let rest = &text[column..];
    match &rest[run_length(rest, Class::Blank)..] {
        [first, ..] => is_operand_start(*first),
        [] => true,
    }
}

// Whether a character begins a name, a number, or an operand with `#`, `@`, `(` or `-`.
fn is_operand_start(byte: u8) -> bool
    ensures { result ≡ spec.is_operand_start byte }
{
    is_of(byte, Class::Name) || matches!(byte, b'#' | b'@' | b'(' | b'-')
}

fn assigned(line: &Line, target: Token, equals: Token) -> Option<Body>
    ensures { result ≡ spec.set_by target.sort equals.sort (lexeme line.now.text target) equals.end }
{
    match target.sort {
        Sort::Name => name_set(line, target, equals),
        _ => None,
    }
}

// The assignment that `=` or `==` makes to a name, if the token after the name is one of them. There is none for `==` after `.`.
fn name_set(line: &Line, name: Token, equals: Token) -> Option<Body>
    ensures { result ≡ spec.set_by sorts.Name equals.sort (lexeme line.now.text name) equals.end }
{
    match equals.sort {
        Sort::Equals if is_counter(name.text(line)) => Some(Body::SetCounter(equals.end)),
        Sort::Equals => Some(assigning(name, false, equals.end)),
        Sort::TwoEquals if !is_counter(name.text(line)) => {
            Some(assigning(name, true, equals.end))
        }
        _ => None,
    }
}

fn assigning(name: Token, is_global: bool, value: u8) -> Body
    ensures { result ≡ Assign (record {
      name = record { start = name.start; end = name.end };
      is_global = is_global;
      value = value;
    }) }
{
    Body::Assign(Assignment {
        name: Span {
            start: name.start,
            end: name.end,
        },
        is_global,
        value,
    })
}

// The body that begins with this token and isn't an assignment: an operator if the token is a name other than `.`, otherwise words.
fn operation(line: &Line, first: Token) -> Body
    ensures { result ≡ spec.operation (lexeme line.now.text first) }
{
    if is_name(line, first) {
        Body::Operate(Span {
            start: first.start,
            end: first.end,
        })
    } else {
        Body::Words(first.start)
    }
}
