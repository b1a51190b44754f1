//! Lists of expressions and of names. (MACRO-11 Language Reference Manual, ".WORD directive", ".BYTE directive" and ".GLOBL directive".)

ghost use Rattle.std.specs.Prelude.{◌≡◌, []};
ghost use Rattle.m11_asm_operands.specs.Elements.{AreElements, end_of_comma};
ghost use Rattle.m11_scan.specs.Views.{bits_of};
ghost use Rattle.m11_scan_statements.specs.Listed.{is_comma};
ghost use Rattle.m11_asm_rules.specs.Elements as spec;

use arrayvec::ArrayVec;
use m11_scan::{ErrorFlags, LINE_LIMIT, Line, Sort, Token};
use m11_scan_expressions::{Expr, expr_at, left_over, skip_flags};
use m11_scan_statements::{Span, listed_name};

/// The most elements that a list may have: one more than the most characters that a line may have.
pub const ELEMENT_LIMIT: usize = LINE_LIMIT + 1;

/// The elements of a list of expressions.
#[derive(Drop)]
pub struct Elements {
    /// The elements, in order.
    pub list: ArrayVec<Expr, ELEMENT_LIMIT>,
    /// The column after the last element.
    pub end: u8,
}

/// The elements of a list of names.
#[derive(Drop)]
pub struct ListedNames {
    /// The names, in order; `None` for an element that isn't a name.
    pub list: ArrayVec<Option<Span>, ELEMENT_LIMIT>,
    /// The column after the last element, or where the list would begin if it has none.
    pub end: u8,
}

impl Elements {
    /// An empty list, with room for elements. It is reused for all lines, since clearing room for a list takes longer than reading it.
    pub fn new() -> Elements {
        Elements {
            list: ArrayVec::new(),
            end: 0,
        }
    }

    /// Reads the elements of a list that begins at a column of a line, in place of those read before. The list has at least one element,
    /// and ends after an element that no comma follows.
    pub fn read(&mut self, line: &Line, column: u8)
        ensures { AreElements line.now.text column self.new }
    {
        self.list.clear();
        let mut begin = column;
        let mut left = line.text().len() + 1;
        'elements: while left > 0 {
            let read = expr_at(line, begin);
            self.list.push(read.expr);
            match after_comma(read.next) {
                Some(next) => begin = next,
                None => {
                    self.end = read.end;
                    return;
                }
            }
            left -= 1;
        }
        self.end = begin;
    }
}

impl ListedNames {
    /// An empty list, with room for names. It is reused for all lines.
    pub fn new() -> ListedNames
        ensures { result.list.items ≡ [] }
    {
        ListedNames {
            list: ArrayVec::new(),
            end: 0,
        }
    }

    /// Reads the elements of a list that begins at a column of a line, in place of those read before. The list has at least one element,
    /// and ends after an element that no comma follows.
    pub fn read(&mut self, line: &Line, column: u8)
        ensures list { self.new.list.items ≡ (spec.names_at line.now.text column).list }
        ensures end { self.new.end ≡ (spec.names_at line.now.text column).end }
    {
        self.list.clear();
        let mut begin = column;
        let mut left = line.text().len() + 1;
        'names: while left > 0 {
            let element = listed_name(line, begin);
            self.list.push(element.name);
            begin = element.end;
            if !element.goes_on {
                self.end = element.end;
                return;
            }
            left -= 1;
        }
        self.end = begin;
    }

    /// Makes the list empty, with `column` as the column where it ends.
    pub fn leave_none(&mut self, column: u8)
        ensures list { self.new.list.items ≡ [] }
        ensures end { self.new.end ≡ column }
    {
        self.list.clear();
        self.end = column;
    }
}

/// I for characters skipped in the arguments, which begin at the column `start` and end before the column `end`, and the flags of what is
/// left over after them.
pub fn argument_flags(line: &Line, start: u8, end: u8) -> ErrorFlags
    ensures { bits_of result ≡ spec.argument_flags line.now.text start end }
{
    skip_flags(line, start, end).with(left_over(line, end))
}

// The column after a token that is a comma; None for any other token, and without a token.
fn after_comma(token: Option<Token>) -> Option<u8>
    ensures { result ≡ end_of_comma token }
{
    match token {
        Some(token) if is_comma(token.sort) => Some(token.end),
        _ => None,
    }
}

fn is_comma(sort: Sort) -> bool
    ensures { result ≡ is_comma sort }
{
    matches!(sort, Sort::Comma)
}
