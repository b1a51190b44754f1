//! The names that a pass counts besides those that its table defines. (MACRO-11 Language Reference Manual, "Symbols".)

ghost use Rattle.std.specs.Prelude.{◌≡◌, ◌≤◌, IfErr, length};
ghost use Rattle.std.specs.List.{flat_map};
ghost use Rattle.m11_asm_faults.specs.declared.fault.AsmFault.TheVariants.{NoMemory};
ghost use Rattle.m11_asm_rules.specs.Limits.{most_names};
ghost use Rattle.m11_asm_rules.specs.SymbolUses.{label_uses};
ghost use Rattle.m11_asm_lines.specs.Counting.{Counts, FitsUpToCounted, used_names_in, names_counted};

use crate::used_symbols::UsedSymbols;
use m11_asm_faults::AsmFault;
use m11_base::Seed;
use m11_scan::Line;
use m11_scan_statements::Label;
use std::alloc::Global;

/// The names that a pass counts besides those that its table defines.
#[derive(Drop)]
pub enum Counting {
    /// The names that its lines use, in a first pass.
    SymbolUses(UsedSymbols),
    /// No other names, in a second pass, which doesn't collect the names that its lines use.
    Definitions,
}

impl Counting {
    /// States the limit on counted names, which holds even after a refusal. The function does nothing.
    #[inline(always)]
    pub fn names_are_within_the_limit(&self)
        ensures { length (names_counted self.now) ≤ most_names }
    {
        match self {
            Counting::SymbolUses(used_symbols) => used_symbols.names_are_within_the_limit(),
            Counting::Definitions => (),
        }
    }

    /// Adds the names of the labels of a line in a first pass; in a second one it does nothing. Errors are those of
    /// `UsedSymbols::add_labels`.
    #[inline(always)]
    pub fn add_labels(&mut self, line: &Line, labels: &[Label]) -> Result<(), AsmFault>
        ensures counts { Counts (flat_map (label_uses line.now.text) labels.now) self.old self.new result }
        ensures limit_first { IfErr result (λ fault. fault ≡ NoMemory → FitsUpToCounted line.now.text labels.now self.old) }
    {
        match self {
            Counting::SymbolUses(used_symbols) => used_symbols.add_labels(line, labels),
            Counting::Definitions => Ok(()),
        }
    }

    /// The names that lines used: none after a second pass, which doesn't collect them.
    pub fn into_used(self, alloc: Global) -> UsedSymbols
        ensures { result ≡ used_names_in self }
    {
        match self {
            Counting::SymbolUses(used_symbols) => used_symbols,
            Counting::Definitions => UsedSymbols::new(alloc, Seed::fixed()),
        }
    }
}
