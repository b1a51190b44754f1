//! The tokens of a line. (MACRO-11 Language Reference Manual, "Symbols and expressions".)

ghost use Rattle.std.specs.Prelude.{◌≡◌, ◌-◌, ◌<◌, ◌≤◌, List, [], ◌∷◌, None, drop, length, IfSome, MatchOption};
ghost use Rattle.m11_scan.specs.Cutting.{Lexeme, text_between, tokens_from};
ghost use Rattle.m11_scan.specs.Line.{line_limit};
ghost use Rattle.m11_scan.specs.Views.{lexeme};

use crate::line::Line;
use crate::pieces::first_piece;
use crate::sort::{Form, Sort};

/// A token of a line.
#[derive(Clone, Copy, PartialEq, Eq, Default)]
pub struct Token {
    /// What kind of token it is, such as a name, a number or a mark.
    pub sort: Sort,
    /// The column of its first character in the line, counted from 0.
    pub start: u8,
    /// The column after its last character.
    pub end: u8,
}

impl Token {
    /// The token's characters in the line that it was cut from; none if the line ends before the token does.
    pub fn text<'a>(&self, line: &'a Line) -> &'a [u8]
        ensures { result.now ≡ text_between line.now.text self.now.start self.now.end }
    {
        text_between(line, self.start, self.end)
    }
}

/// The characters of a line from `start` up to but not including `end`; none if `end` is before `start` or past the line's end.
pub fn text_between(line: &Line, start: u8, end: u8) -> &[u8]
    ensures { result.now ≡ text_between line.now.text start end }
{
    let start = usize::from(start);
    let end = usize::from(end);
    let text = line.text();
    if start <= end && end <= text.len() {
        &text[start..end]
    } else {
        &[]
    }
}

/// The characters of a line at and after a column; none if the column is past the line's end.
pub fn text_from(line: &Line, column: u8) -> &[u8]
    ensures text { result.now ≡ drop column line.now.text }
    ensures fits { length result.now ≤ line_limit - column }
{
    let text = line.text();
    &text[usize::from(column).min(text.len())..]
}

/// The first token of a line at or after a column, if there is one; the characters before the column don't count. There is none if the
/// column is past the line's end.
pub fn next_token(line: &Line, column: u8) -> Option<Token>
    ensures token { MatchOption result (tokens_from line.now.text column ≡ [])
        (λ token. tokens_from line.now.text column ≡ lexeme line.now.text token ∷ tokens_from line.now.text token.end) }
    ensures column { IfSome result (λ token. column ≤ token.start) }
    ensures begins { IfSome result (λ token. token.start < token.end) }
    ensures within { IfSome result (λ token. token.end ≤ line_limit) }
{
    let text = line.text();
    let mut begin = usize::from(column);
    'pieces: while begin < text.len() {
        let piece = first_piece(&text[begin..]);
        let end = begin + piece.length;
        if let Form::Cut(sort) = piece.form {
            return Some(Token {
                sort,
                start: begin as u8,
                end: end as u8,
            });
        }
        begin = end;
    }
    None
}

/// The token that begins at a column of a line, if there is one; the characters before the column don't count.
pub fn token_at(line: &Line, column: u8) -> Option<Token>
    ensures token { IfSome result (λ token. tokens_from line.now.text column
        ≡ lexeme line.now.text token ∷ tokens_from line.now.text token.end) }
    ensures later { result ≡ None → (token : Lexeme) → (tokens : List Lexeme)
        → tokens_from line.now.text column ≡ token ∷ tokens → column < token.start }
    ensures column { IfSome result (λ token. token.start ≡ column) }
    ensures begins { IfSome result (λ token. column < token.end) }
    ensures within { IfSome result (λ token. token.end ≤ line_limit) }
{
    let text = line.text();
    let begin = usize::from(column);
    if begin >= text.len() {
        return None;
    }
    let piece = first_piece(&text[begin..]);
    match piece.form {
        Form::Cut(sort) => Some(Token {
            sort,
            start: column,
            end: column + piece.length as u8,
        }),
        _ => None,
    }
}
