//! The labels of a line. (MACRO-11 Language Reference Manual, "Label field" and "Local symbols".)

ghost use Rattle.std.specs.Prelude.{◌≡◌, ◌+◌, ◌<◌, ◌≤◌, [], ◌∷◌, IfSome, MatchOption};
ghost use Rattle.m11_scan.specs.Cutting.{tokens_from};
ghost use Rattle.m11_scan.specs.Line.{line_limit};
ghost use Rattle.m11_scan.specs.Views.{lexeme};
ghost use Rattle.m11_scan.specs.declared.sort.Sort.TheVariants as sorts;
ghost use Rattle.m11_scan_statements.specs.Labels as spec;
ghost use Rattle.m11_scan_statements.specs.Statements.{has_outside, is_outside};

use crate::spans::Span;
use arrayvec::ArrayVec;
use bitflags::Flags;
use m11_scan::{
    Class, ErrorFlags, Line, Radix, Sort, Token, next_token, read_number, run_length, token_at,
};

/// The kind of a label.
#[derive(Clone, Copy, PartialEq, Eq, Default)]
pub enum LabelKind {
    /// A name with `:`.
    #[default]
    Ordinary,
    /// A name with `::`, which makes it global.
    Global,
    /// A local symbol with its number, 1 to 65535. `::` after it counts as `:`.
    Local(u16),
    /// A local symbol with another number. It defines nothing.
    Outside,
}

/// A label in a line.
#[derive(Clone, Copy, PartialEq, Eq, Default)]
pub struct Label {
    /// What it defines: a name, a global name, a local symbol or nothing.
    pub kind: LabelKind,
    /// The name or the local symbol.
    pub name: Span,
    /// The column after its `:` or `::`.
    pub end: u8,
}

/// The most labels that a line can have, since each takes at least two of the line's 132 characters.
pub const LABEL_LIMIT: usize = 66;

/// The labels at the beginning of a line, in order.
pub fn labels_of(line: &Line) -> ArrayVec<Label, LABEL_LIMIT>
    ensures { result.items ≡ spec.labels_at line.now.text }
{
    let mut list = ArrayVec::new();
    let mut end = 0;
    'labels: while let Some(label) = label_at(line, end) {
        list.push(label);
        end = label.end;
    }
    list
}

// The end of a line's labels, the facts about them that a statement needs, and the token after them.
#[derive(Clone, Copy)]
pub(crate) struct LabelField {
    // The column after the last label; 0 if there is none.
    pub end: u8,
    // The label, if there is exactly one.
    pub single: Option<Label>,
    // Whether any label is a local symbol whose number isn't 1 to 65535.
    pub has_outside: bool,
    // The first token after the labels, if there is one.
    pub next: Option<Token>,
}

// The label field of a line. Without a label the field ends at column 0.
pub(crate) fn label_field(line: &Line) -> LabelField
    ensures end { result.end ≡ spec.labels_end line.now.text }
    ensures outside { result.has_outside ≡ has_outside (spec.labels_at line.now.text) }
    ensures unlabelled { result.end ≡ 0 → spec.labels_at line.now.text ≡ [] }
    ensures single { IfSome result.single (λ label. spec.labels_at line.now.text ≡ label ∷ []) }
    ensures next { MatchOption result.next (tokens_from line.now.text result.end ≡ [])
        (λ token. tokens_from line.now.text result.end ≡ lexeme line.now.text token ∷ tokens_from line.now.text token.end) }
{
    let mut end = 0;
    let mut single = None;
    let mut has_outside = false;
    let mut next = next_token(line, 0);
    'labels: while let Some(name) = next {
        match label_by(line, name) {
            Some(label) => {
                single = if end == 0 { Some(label) } else { None };
                has_outside = has_outside || is_outside(label.kind);
                end = label.end;
                next = next_token(line, end);
            }
            None => {
                return LabelField {
                    end,
                    single,
                    has_outside,
                    next,
                };
            }
        }
    }
    LabelField {
        end,
        single,
        has_outside,
        next,
    }
}

fn is_outside(kind: LabelKind) -> bool
    ensures { result ≡ is_outside kind }
{
    matches!(kind, LabelKind::Outside)
}

// The label that begins with the first token at or after a column, if there is one.
fn label_at(line: &Line, column: u8) -> Option<Label>
    ensures label { MatchOption result (spec.labels_in (tokens_from line.now.text column) ≡ [])
        (λ label. spec.labels_in (tokens_from line.now.text column)
        ≡ label ∷ spec.labels_in (tokens_from line.now.text label.end)) }
    ensures after { IfSome result (λ label. column + 2 ≤ label.end) }
    ensures within { IfSome result (λ label. label.end ≤ line_limit) }
{
    let name = next_token(line, column)?;
    label_by(line, name)
}

// The label that begins with this token, if there is one.
// speed: inline, since this is called for each line, most lines have no label, and a call would pass the result through memory.
#[inline(always)]
fn label_by(line: &Line, name: Token) -> Option<Label>
    ensures label { MatchOption result
        (spec.labels_in (lexeme line.now.text name ∷ tokens_from line.now.text name.end) ≡ [])
        (λ label. spec.labels_in (lexeme line.now.text name ∷ tokens_from line.now.text name.end)
        ≡ label ∷ spec.labels_in (tokens_from line.now.text label.end)) }
    ensures after { IfSome result (λ label. name.end < label.end) }
    ensures within { IfSome result (λ label. label.end ≤ line_limit) }
{
    // the colon of a label comes directly after its name
    let colon = token_at(line, name.end)?;
    label_of(line, name, colon)
}

// The label that a token and the next one form, if they form one.
// speed: inline, since a call would pass the label through memory.
#[inline(always)]
fn label_of(line: &Line, name: Token, colon: Token) -> Option<Label>
    ensures label { result ≡ spec.label_of (lexeme line.now.text name) (lexeme line.now.text colon) }
    ensures end { IfSome result (λ label. label.end ≡ colon.end) }
{
    if name.end != colon.start {
        return None;
    }
    let kind = kind_of(name.sort, colon.sort, name.text(line))?;
    Some(Label {
        kind,
        name: Span {
            start: name.start,
            end: name.end,
        },
        end: colon.end,
    })
}

fn kind_of(sort: Sort, colon: Sort, text: &[u8]) -> Option<LabelKind>
    ensures { result ≡ spec.kind_of sort colon text.now }
{
    match sort {
        Sort::Name => name_kind(colon, text),
        Sort::LocalSymbol => local_kind(colon, text),
        _ => None,
    }
}

// Whether a name is the location counter `.`, which can't be defined.
pub(crate) fn is_counter(text: &[u8]) -> bool
    ensures { result ≡ spec.is_counter text.now }
{
    matches!(text, [b'.'])
}

fn name_kind(colon: Sort, text: &[u8]) -> Option<LabelKind>
    ensures { result ≡ spec.kind_of sorts.Name colon text.now }
{
    match colon {
        Sort::Colon if !is_counter(text) => Some(LabelKind::Ordinary),
        Sort::TwoColons if !is_counter(text) => Some(LabelKind::Global),
        _ => None,
    }
}

fn local_kind(colon: Sort, text: &[u8]) -> Option<LabelKind>
    ensures { result ≡ spec.kind_of sorts.LocalSymbol colon text.now }
{
    match colon {
        Sort::Colon | Sort::TwoColons => Some(numbered(text)),
        _ => None,
    }
}

// The kind of a label that is a local symbol with this text, digits and a `$`: local if its number is 1 to 65535, otherwise outside.
fn numbered(text: &[u8]) -> LabelKind
    ensures { result ≡ spec.numbered text.now }
{
    let digits = &text[..run_length(text, Class::Digit)];
    let number = read_number(digits, Radix::Decimal);
    let is_large = number.flags.contains(ErrorFlags::T);
    if is_large || number.value == 0 {
        LabelKind::Outside
    } else {
        LabelKind::Local(number.value)
    }
}
