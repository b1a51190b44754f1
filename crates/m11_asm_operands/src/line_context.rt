//! The context of a line: its location and the names known there. (MACRO-11 Language Reference Manual, "Symbols" and "Expressions".)

ghost use Rattle.std.specs.Prelude.{◌≡◌};
ghost use Rattle.m11_scan_expressions.specs.Expressions as expressions;
ghost use Rattle.m11_scan_expressions.specs.Tokens.{expression_of};
ghost use Rattle.m11_asm_operands.specs.LineContext.{line_context_of, standpoint};
ghost use Rattle.m11_scan_expressions.specs.Quantities.{quantity};

use m11_asm_rules::{Context, Map, NamesAt, Table};
use m11_scan::Line;
use m11_scan_expressions::{Expr, Value};
use std::marker::Model;

/// The context of a line: the final values of the names of the whole source, the table after the line's labels, the location, and the line.
#[derive(Drop)]
pub struct LineContext<'a> {
    map: &'a Map<'a>,
    table: &'a Table,
    location: u16,
    line: &'a Line,
}

impl<'a> Model for LineContext<'a> {
    ghost use Rattle.m11_asm_operands.specs.LineContext.{Standpoint, standpoint};

    ghost Value = { Standpoint };

    ghost view = { λ s. standpoint s.map.now s.table.now s.location s.line.now.text };
}

impl<'a> LineContext<'a> {
    /// The context of a line at a location.
    pub fn new(map: &'a Map<'a>, table: &'a Table, location: u16, line: &'a Line) -> LineContext<'a>
        ensures { result ≡ standpoint map.now table.now location line.now.text }
    {
        LineContext {
            map,
            table,
            location,
            line,
        }
    }

    /// The context at another location of the line.
    pub fn at(&self, location: u16) -> LineContext<'a>
        ensures { result ≡ standpoint self.now.map self.now.table location self.now.line }
    {
        LineContext {
            map: self.map,
            table: self.table,
            location,
            line: self.line,
        }
    }

    /// The final values of the names of the whole source.
    pub fn map(&self) -> &Map<'a>
        ensures { result.now ≡ self.now.map }
    {
        self.map
    }

    /// The table after the line's labels.
    pub fn table(&self) -> &Table
        ensures { result.now ≡ self.now.table }
    {
        self.table
    }

    /// The location at which the line, or an element of its list, stores something.
    pub fn location(&self) -> u16
        ensures { result ≡ self.now.location }
    {
        self.location
    }

    /// The line.
    pub fn line(&self) -> &Line
        ensures { result.now.text ≡ self.now.line }
    {
        self.line
    }

    /// The value of an expression of the line, used as a register, a target, a number or a code of `.RAD50`. An undefined name counts as 0,
    /// with the flag U.
    // speed: a call would pass the value through memory.
    #[inline(always)]
    pub fn value(&self, place: Expr) -> Value
        ensures { quantity result
            ≡ expressions.value (line_context_of self.now).known (expression_of self.now.line place) }
    {
        let names = NamesAt::new(self.map, Context::LocalOnly, self.table, self.location);
        place.value(self.line, &names)
    }

    /// The value of an expression of the line, used as a word or a byte. An undefined name refers to another object.
    // speed: a call would pass the value through memory.
    #[inline(always)]
    pub fn reference(&self, place: Expr) -> Value
        ensures { quantity result
            ≡ expressions.value (line_context_of self.now).refers (expression_of self.now.line place) }
    {
        let names = NamesAt::new(self.map, Context::MayBeGlobal, self.table, self.location);
        place.value(self.line, &names)
    }
}
