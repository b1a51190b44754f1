//! The names that lines use. (MACRO-11 Language Reference Manual, "Table of contents and symbol table" and ".GLOBL directive".)

ghost use Rattle.std.specs.Prelude.{◌≡◌, ◌<◌, ◌≤◌, ◌∷◌, [], IfOk, IfErr, length, true};
ghost use Rattle.m11_asm_rules.specs.Limits.{most_names};
ghost use Rattle.m11_asm_rules.specs.SymbolUses.{symbol_use};
ghost use Rattle.m11_asm_lines.specs.Faults.{Refuses};
ghost use Rattle.m11_asm_lines.specs.UsedSymbols as spec;
ghost use Rattle.m11_asm_lines.specs.UsedSymbols.{Adds, in_context, no_used_names, with_name_used, with_all, with_referred};
ghost use Rattle.m11_asm_faults.specs.declared.fault.AsmFault.TheVariants.{NoMemory};

use m11_asm_faults::AsmFault;
use m11_asm_rules::Context;
use m11_base::{Name, Seed, SeededSet};
use m11_scan_expressions::Symbol;
use std::alloc::{AllocError, Global};
use std::marker::Model;

/// The most names that a source may use besides those of the registers.
const MOST_NAMES: usize = 4096;

/// The names that lines use, each once, in order of appearance: at most 4,096 besides those of the registers.
#[derive(Drop)]
pub struct UsedSymbols {
    pub(crate) alloc: Global,
    // The names besides those of the registers.
    names: SeededSet<Name>,
    registers: SeededSet<Name>,
    // The names used in places where an undefined name would refer to another object.
    referred: SeededSet<Name>,
}

impl Model for UsedSymbols {
    ghost use Rattle.std.specs.Prelude.{◌≤◌, length};
    ghost use Rattle.m11_asm_rules.specs.Limits.{most_names};
    ghost use Rattle.m11_asm_lines.specs.UsedSymbols.{UsedNames};

    ghost Value = { UsedNames };

    ghost view = { λ m. record { names = m.names.keys; registers = m.registers.keys; referred = m.referred.keys } };

    ghost invariant = { λ m. length m.names.keys ≤ most_names };
}

impl UsedSymbols {
    /// No names, before the first line.
    pub fn new(alloc: Global, seed: Seed) -> UsedSymbols
        ensures { result ≡ no_used_names }
    {
        UsedSymbols {
            alloc,
            names: SeededSet::with_hasher(alloc, seed),
            registers: SeededSet::with_hasher(alloc, seed),
            referred: SeededSet::with_hasher(alloc, seed),
        }
    }

    /// States the limit on names, which holds even after a refusal. The function does nothing.
    #[inline(always)]
    pub fn names_are_within_the_limit(&self)
        ensures { length self.now.names ≤ most_names }
    {
        let _names = &self.names;
    }

    /// The names besides those of the registers.
    pub fn names(&self) -> &SeededSet<Name>
        ensures { result.now.keys ≡ self.now.names }
    {
        &self.names
    }

    /// The names of registers that lines use.
    pub fn registers(&self) -> &SeededSet<Name>
        ensures { result.now.keys ≡ self.now.registers }
    {
        &self.registers
    }

    /// The names used in places where an undefined name would refer to another object.
    pub fn referred(&self) -> &SeededSet<Name>
        ensures { result.now.keys ≡ self.now.referred }
    {
        &self.referred
    }

    /// Adds the names among the symbols that a line uses in a context, in order.
    ///
    /// Errors: `TooManySymbols` if there would be more than 4,096 names besides those of the registers, and `NoMemory`. Memory may be
    /// refused at a symbol before the one that exceeds the limit.
    // speed: inline, since every line comes here, and most lines read no symbols.
    #[inline(always)]
    pub fn add_all(&mut self, symbols: &[Symbol], context: Context) -> Result<(), AsmFault>
        ensures { Adds (in_context context symbols.now) self.old self.new result }
    {
        match symbols {
            [] => Ok(()),
            _ => self.add_each(symbols, context),
        }
    }

    fn add_each(&mut self, symbols: &[Symbol], context: Context) -> Result<(), AsmFault>
        ensures { Adds (in_context context symbols.now) self.old self.new result }
    {
        match symbols {
            [] => Ok(()),
            [symbol, others @ ..] => {
                self.add(*symbol, context)?;
                self.add_each(others, context)
            }
        }
    }

    /// Adds a used symbol, if it is a name: a local symbol and `.` aren't counted. Errors are those of `add_all`, but `NoMemory` is
    /// returned only if the names with this one are within the limit.
    pub fn add(&mut self, symbol: Symbol, context: Context) -> Result<(), AsmFault>
        ensures adds { Adds (symbol_use context symbol ∷ []) self.old self.new result }
        ensures limit_first { IfErr result (λ fault. fault ≡ NoMemory
            → length (with_all (symbol_use context symbol ∷ []) self.old).names ≤ most_names) }
    {
        match symbol {
            Symbol::Ordinary(name) => self.add_name(name, context),
            Symbol::Local(_) | Symbol::Counter => Ok(()),
        }
    }

    fn add_name(&mut self, name: Name, context: Context) -> Result<(), AsmFault>
        ensures adds { Adds (symbol_use context (Symbol.Ordinary name) ∷ []) self.old self.new result }
        ensures limit_first { IfErr result (λ fault. fault ≡ NoMemory → length (with_name_used name self.old).names ≤ most_names) }
    {
        self.insert_name(name)?;
        self.names_are_within_the_limit();
        self.insert_reference(name, context)?;
        Ok(())
    }

    // Adds a used name to the names of registers or to the other names. The limit is checked before anything grows. Errors:
    // `TooManySymbols` and `NoMemory`.
    #[tactic(auto, using(crate::proofs::Gathering::noted_register, crate::proofs::Gathering::noted_other))]
    fn insert_name(&mut self, name: Name) -> Result<(), AsmFault>
        ensures inserts { IfOk result (λ _. self.new ≡ with_name_used name self.old) }
        ensures refuses { IfErr result (λ fault. Refuses fault (most_names < length (with_name_used name self.old).names) ⊥) }
        ensures limit_first { IfErr result (λ fault. fault ≡ NoMemory → length (with_name_used name self.old).names ≤ most_names) }
    {
        if is_register(name) {
            self.names_are_within_the_limit();
            self.insert_register(name)?;
            Ok(())
        } else {
            self.count_name(name)
        }
    }

    // Adds a name to the references, if an undefined name would refer to another object in this context. Error: memory may be refused.
    fn insert_reference(&mut self, name: Name, context: Context) -> Result<(), AllocError>
        ensures { IfOk result (λ _. self.new ≡ with_referred name context self.old) }
    {
        match context {
            Context::MayBeGlobal => self.insert_referred(name),
            Context::LocalOnly => Ok(()),
        }
    }

    fn insert_referred(&mut self, name: Name) -> Result<(), AllocError>
        ensures { IfOk result (λ _. self.new ≡ record self.old { referred = spec.with_name name self.old.referred }) }
    {
        self.referred.insert(name)?;
        Ok(())
    }

    fn insert_register(&mut self, name: Name) -> Result<(), AllocError>
        ensures { IfOk result (λ _. self.new ≡ record self.old { registers = spec.with_name name self.old.registers }) }
    {
        self.registers.insert(name)?;
        Ok(())
    }

    // Adds a name that isn't a register's. Errors: `TooManySymbols` if there would be more than 4,096 such names, and `NoMemory`.
    fn count_name(&mut self, name: Name) -> Result<(), AsmFault>
        ensures inserts { IfOk result (λ _. self.new ≡ record self.old { names = spec.with_name name self.old.names }) }
        ensures refuses { IfErr result (λ fault. Refuses fault
            (most_names < length (spec.with_name name self.old.names)) ⊥) }
        ensures limit_first { IfErr result (λ fault. fault ≡ NoMemory
            → length (spec.with_name name self.old.names) ≤ most_names) }
    {
        // speed: the count is tested first, so that a name is looked up only once, when it is inserted; most sources have far fewer names
        if self.names.len() >= MOST_NAMES && !self.names.contains(&name) {
            return Err(AsmFault::TooManySymbols);
        }
        self.names.insert(name)?;
        Ok(())
    }
}

// Whether a name is the name of a register.
#[tactic(auto, unfolding(m11_base::specs::Rad50::code_of, m11_base::specs::Rad50::alphabet))]
fn is_register(name: Name) -> bool
    ensures { result ≡ spec.is_register name }
{
    let (first, second) = name.words();
    second == 0 && is_register_word(first)
}

// Whether a word packs the first three characters of `R0` to `R5`, `SP` or `PC`.
fn is_register_word(word: u16) -> bool
    ensures { result ≡ spec.is_register_word word }
{
    matches!(
        word,
        0o72460 | 0o72530 | 0o72600 | 0o72650 | 0o72720 | 0o72770 | 0o74500 | 0o62170
    )
}
