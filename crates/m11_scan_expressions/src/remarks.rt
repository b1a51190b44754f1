//! The further results of reading the arguments of a directive or of a call. (MACRO-11 Language Reference Manual, "Diagnostic
//! error message summary" and "Symbols".)

ghost use Rattle.std.specs.Prelude.{◌≡◌, ◌∷◌, [], IfOk};
ghost use Rattle.m11_scan.specs.Views.{bits_of};
ghost use Rattle.m11_scan_expressions.specs.Symbols.{symbols_of};
ghost use Rattle.m11_scan_expressions.specs.Remarks.{no_remarks, with_flags, with_symbols};

use crate::names::Symbol;
use crate::symbols::next_symbol;
use m11_scan::{ErrorFlags, Line, Token};
use std::alloc::{AllocError, Global};
use std::marker::Model;

/// The flags of arguments, and the symbols in them, in order. Each call that reads arguments adds their flags and symbols.
#[derive(Drop)]
pub struct Remarks {
    flags: ErrorFlags,
    symbols: Vec<Symbol>,
}

impl Model for Remarks {
    ghost use Rattle.m11_scan.specs.Views.{bits_of};
    ghost use Rattle.m11_scan_expressions.specs.Remarks.{Remarks};

    ghost Value = { Remarks };

    ghost view = { λ remarks. record { flags = bits_of remarks.flags; symbols = remarks.symbols.items } };
}

impl Remarks {
    /// No flags and no symbols.
    pub fn new(alloc: Global) -> Remarks
        ensures { result ≡ no_remarks }
    {
        Remarks {
            flags: ErrorFlags::none(),
            symbols: Vec::new(alloc),
        }
    }

    /// The flags so far.
    pub fn flags(&self) -> ErrorFlags
        ensures { bits_of result ≡ self.now.flags }
    {
        self.flags
    }

    /// The symbols so far, in the order in which they were read.
    pub fn symbols(&self) -> &[Symbol]
        ensures { result.now ≡ self.now.symbols }
    {
        self.symbols.as_slice()
    }

    /// Adds flags.
    pub fn add_flags(&mut self, flags: ErrorFlags)
        ensures { self.new ≡ with_flags self.old (bits_of flags) }
    {
        self.flags = self.flags.with(flags);
    }

    /// Adds a symbol. Error: memory for it was refused.
    pub fn add_symbol(&mut self, symbol: Symbol) -> Result<(), AllocError>
        ensures { IfOk result (λ _. self.new ≡ with_symbols self.old (symbol ∷ [])) }
    {
        self.symbols.push(symbol)?;
        Ok(())
    }

    // Adds the symbols in these tokens of a line, in order. Error: memory for one of them was refused.
    pub(crate) fn add_symbols(&mut self, tokens: &[Token], line: &Line) -> Result<(), AllocError>
        ensures { IfOk result (λ _. self.new ≡ with_symbols self.old (symbols_of line.now.text tokens.now)) }
    {
        let mut rest = tokens;
        'symbols: while let Some((symbol, others)) = next_symbol(rest, line) {
            self.add_symbol(symbol)?;
            rest = others;
        }
        Ok(())
    }
}
