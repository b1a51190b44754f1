//! The result of the first pass of a source. (MACRO-11 Language Reference Manual, "Symbols and expressions" and ".END directive".)

ghost use Rattle.std.specs.Prelude.{◌≡◌};

use crate::facts::Facts;
use m11_asm_lines::{Pass, UsedSymbols};
use std::marker::Model;

/// The result of the first pass of a source: the values of its names, the names that its lines use, and the other facts about the module.
#[derive(Drop)]
pub struct Symbols {
    pass: Pass,
    used_symbols: UsedSymbols,
    facts: Facts,
}

impl Model for Symbols {
    ghost use Rattle.m11_asm.specs.First as spec;

    ghost Value = { spec.Symbols };

    ghost view = { λ s. record { table = s.pass; used_names = s.used_symbols; facts = s.facts } };
}

impl Symbols {
    // The result of a pass over all lines.
    pub(crate) fn new(pass: Pass, used_symbols: UsedSymbols, facts: Facts) -> Symbols
        ensures { result ≡ record { table = pass; used_names = used_symbols; facts = facts } }
    {
        Symbols {
            pass,
            used_symbols,
            facts,
        }
    }

    /// The state of the pass after the last line, the names that the lines use, and the other facts of the lines.
    pub fn into_parts(self) -> (Pass, UsedSymbols, Facts)
        ensures pass { result.0 ≡ self.table }
        ensures used_symbols { result.1 ≡ self.used_names }
        ensures facts { result.2 ≡ self.facts }
    {
        (self.pass, self.used_symbols, self.facts)
    }
}
