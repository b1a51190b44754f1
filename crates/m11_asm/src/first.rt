//! The first pass of a source, line by line. (MACRO-11 Language Reference Manual, "Source program format", "Symbols and expressions" and
//! ".END directive".)

ghost use Rattle.std.specs.Prelude.{◌≡◌, [], List, None, Some, Err, IfOk, false};
ghost use Rattle.std.specs.Result.{result_err};
ghost use Rattle.m11_scan.specs.Line.{SourceLine};
ghost use Rattle.m11_asm_passes.specs.Lines.{NumberedLine};
ghost use Rattle.m11_asm.specs.First.{AreFactsOf, FirstAfter, FirstReadsLine, PlacesLeft, symbols_of};
ghost use Rattle.m11_asm.specs.LinesDone.{LiveLinesDone};
ghost use Rattle.m11_asm_lines.specs.Counting.{none_used};
ghost use Rattle.m11_asm_rules.specs.Meanings.{empty_map};

use crate::facts::Facts;
use crate::numbers::number_after;
use crate::symbols::Symbols;
use m11_asm_faults::AsmFault;
use m11_asm_lines::{Counting, UsedSymbols};
use m11_asm_passes::{LiveLine, SourcePass, Turn, the_calls_place_the_lines_of_a_source};
use m11_base::{Latch, Seed};
use m11_scan::Line;
use std::alloc::{AllocError, Global};
use std::marker::Model;

/// The first pass of a source. The source's lines are fed one after another, up to the one in which `.END` becomes live. After a fault
/// each call returns it again.
#[derive(Drop)]
pub struct First {
    pass: SourcePass,
    facts: Facts,
    // How many lines were read.
    read: u16,
    has_ended: bool,
    fault: Latch<AsmFault>,
    // Room for a live line, reused for each one.
    live: LiveLine,
}

impl Model for First {
    ghost use Rattle.m11_asm.specs.First.{FirstState};
    ghost use Rattle.m11_asm.specs.LinesDone.{GoesOn};

    ghost Value = { FirstState };

    ghost view = { λ f. record {
      pass_state = f.pass.pass_state;
      facts = f.facts;
      read = f.read;
      has_ended = f.has_ended;
      fault = f.fault;
    } };

    ghost invariant = { λ f. GoesOn f.fault f.has_ended f.pass };
}

impl First {
    /// A pass before the first line. Error: memory may be refused.
    pub fn new(alloc: Global) -> Result<First, AllocError>
        ensures { IfOk result (λ first. FirstAfter [] first) }
    {
        First::with_seed(alloc, Seed::fixed())
    }

    /// A pass before the first line, with the seed for all maps of both passes. Error: memory may be refused.
    pub fn with_seed(alloc: Global, seed: Seed) -> Result<First, AllocError>
        ensures { IfOk result (λ first. FirstAfter [] first) }
    {
        let counting = Counting::SymbolUses(UsedSymbols::new(alloc, seed));
        Ok(First {
            pass: SourcePass::new(alloc, seed, counting)?,
            facts: Facts::new(alloc, seed),
            read: 0,
            has_ended: false,
            fault: Latch::new(),
            live: LiveLine::new(),
        })
    }

    /// Reads the next line of the source, unless `.END` has become live.
    ///
    /// Errors: `TooMuchSource` at a line past the 65,535th; `Unfold` at a limit of unfolding; `TooManySymbols`; `TooManySections`; and
    /// `NoMemory`. If several limits are exceeded, the error is that of the first one, in the order of the lines, and within a line in this
    /// order: the limits on its labels, those on unfolding its operator, and those on what the operator uses and changes.
    pub fn line(&mut self, line: &Line) -> Result<(), AsmFault>
        ensures takes { (source : List SourceLine) → FirstAfter source self.old → FirstReadsLine source line.now self.old self.new result }
        ensures again { (fault : AsmFault) → self.old.fault ≡ Some fault → (result ≡ Err fault) × (self.new ≡ self.old) }
        ensures fault { self.new.fault ≡ result_err result }
    {
        the_calls_place_the_lines_of_a_source();
        self.fault.check()?;
        if self.has_ended {
            return Ok(());
        }
        let read = self.fault.keep(number_after(self.read))?;
        self.read = read;
        self.pass.feed(line);
        let taken = place_left(&mut self.pass, &mut self.facts, &mut self.live);
        self.has_ended = self.fault.keep(taken)?;
        Ok(())
    }

    /// Whether `.END` became live.
    pub fn has_ended(&self) -> bool
        ensures { result ≡ self.now.has_ended }
    {
        self.has_ended
    }

    /// The result of the pass, after the last line.
    ///
    /// Error: the fault that ended the pass, if there was one.
    pub fn end(self) -> Result<Symbols, AsmFault>
        ensures symbols { IfOk result (λ symbols. symbols ≡ symbols_of self) }
        ensures fault { result_err result ≡ self.fault }
    {
        match self.fault.check() {
            Ok(()) => {
                let (pass, used_symbols) = self.pass.end();
                Ok(Symbols::new(pass, used_symbols, self.facts))
            }
            Err(fault) => {
                // proof: dropping a value that owns several maps in place takes minutes to prove
                drop(self);
                Err(fault)
            }
        }
    }
}

// Carries out the remaining live lines of the line fed last, adds their facts, and returns whether `.END` became live. `live` has room for
// one live line at a time. Errors: those of `First::line` except `TooMuchSource`.
fn place_left(
    pass: &mut SourcePass,
    facts: &mut Facts,
    live: &mut LiveLine,
) -> Result<bool, AsmFault>
    requires { pass.old.fault ≡ None }
    ensures takes { (source : List SourceLine) (lines : List NumberedLine)
        → LiveLinesDone empty_map none_used (AreFactsOf facts.old) source lines pass.old.pass_state
        → PlacesLeft source pass.new.pass_state facts.new result }
    ensures goes_on { IfOk result (λ _. pass.new.fault ≡ None) }
    ensures needs { IfOk result (λ has_ended. has_ended ≡ false → pass.new.pass_state.unfolder.stage.left ≡ []) }
{
    the_calls_place_the_lines_of_a_source();
    'lines: loop {
        match pass.define(live)? {
            Turn::NeedLine => return Ok(false),
            Turn::End => return Ok(true),
            Turn::Line => facts.add_line(live, pass.table())?,
        }
        // speed: most lines of a source are a single live line, for which another turn would only find that none is left
        if pass.needs_line() {
            return Ok(false);
        }
    }
}
