//! One pass over a source. (MACRO-11 Language Reference Manual, "Source program format" and "Symbols and expressions".)

ghost use Rattle.std.specs.Prelude.{◌≡◌, [], None, Some, Err, IfOk};
ghost use Rattle.std.specs.Result.{result_err};
ghost use Rattle.m11_scan.specs.Line.{no_line};
ghost use Rattle.m11_asm_lines.specs.Counting.{used_names_in};
ghost use Rattle.m11_unfold.specs.Unfolder.{needs_line};
ghost use Rattle.m11_unfold_rules.specs.Stages.{start};
ghost use Rattle.m11_asm_passes.specs.Placed.{live_in};
ghost use Rattle.m11_asm_passes.specs.States.{PassAfter, fed};
ghost use Rattle.m11_asm_passes.specs.Turns.{IsEmpty, IsNext, SaysLive, SaysPlaced, Turns};
ghost use Rattle.m11_asm_rules.specs.Meanings.{Map as Meanings, empty_map};

use crate::operating::section_name;
use crate::placed::{LiveLine, PlacedLine};
use crate::state::State;
use crate::turns::Turn;
use m11_asm_faults::AsmFault;
use m11_asm_lines::{Counting, Pass, UsedSymbols};
use m11_asm_rules::{Map, Table};
use m11_base::{Latch, Seed};
use m11_obj::PieceContent;
use m11_scan::Line;
use std::alloc::{AllocError, Global};
use std::marker::Model;

/// One pass over a source. Lines are fed in order. `next` places each live line; `define` handles it without emitting anything. Limits:
/// 4,096 defined names besides those of the registers, as many used names if they are counted, 16,384 local symbols, 64 sections, and
/// the limits of the unfolder. After a fault, `next` and `define` return that fault again.
#[derive(Drop)]
pub struct SourcePass {
    alloc: Global,
    state: State,
    fault: Latch<AsmFault>,
}

impl Model for SourcePass {
    ghost use Rattle.m11_asm_passes.specs.States.{GoesOnUntil, SourcePassState, pass_state_of};

    ghost Value = { SourcePassState };

    ghost view = { λ p. record { pass_state = pass_state_of p.state; fault = p.fault } };

    ghost invariant = { λ p. GoesOnUntil p.fault p.state.unfolder.fault };
}

impl SourcePass {
    /// A pass before the first line. `counting` has the used names counted so far, to which the pass adds those that its lines use; or it
    /// says that only defined names are counted. Error: memory may be refused.
    pub fn new(alloc: Global, seed: Seed, counting: Counting) -> Result<SourcePass, AllocError>
        ensures stands { IfOk result (λ pass. (map : Meanings) → PassAfter map counting [] [] pass.pass_state) }
        ensures begins { IfOk result (λ pass. pass.pass_state.unfolder.stage ≡ start []) }
        ensures goes_on { IfOk result (λ pass. pass.fault ≡ None) }
    {
        Ok(SourcePass {
            alloc,
            state: State::new(alloc, seed, counting)?,
            fault: Latch::new(),
        })
    }

    /// Feeds the next line of the source. Nothing may be left to unfold: call it at the start and after `NeedLine`.
    pub fn feed(&mut self, line: &Line)
        requires { self.old.pass_state.unfolder.stage.left ≡ [] }
        ensures { self.new ≡ record { pass_state = fed line.now self.old.pass_state; fault = self.old.fault } }
    {
        self.state.unfolder.feed(line);
    }

    /// Room for the lines that this pass places: a line without characters.
    pub fn room_for_line(&self) -> PlacedLine
        ensures { result.live.line ≡ no_line }
    {
        PlacedLine::new(section_name(&self.state.pass))
    }

    /// Goes on to the next live line, if there is one, with the final values of the names of the whole source in `map`. A line that becomes
    /// live is placed, and stored in `placed`.
    ///
    /// Errors: `TooManySymbols`, `TooManySections`, or `Unfold` at a limit of unfolding, whichever limit is exceeded first. Within a line,
    /// the limits on its labels come first, then those on the unfolding of its operator, then those on what the operator uses and changes.
    /// `NoMemory` if memory is refused.
    pub fn next(&mut self, map: &Map<'_>, placed: &mut PlacedLine) -> Result<Turn, AsmFault>
        ensures turns { self.old.fault ≡ None → Turns map.now self.old.pass_state self.new.pass_state (live_in placed.new.live)
            (SaysPlaced map.now placed.new self.new.pass_state.emission) result }
        ensures again { (fault : AsmFault) → self.old.fault ≡ Some fault → result ≡ Err fault }
        ensures fault { self.new.fault ≡ result_err result }
        ensures empty { IsEmpty self.new.pass_state.unfolder.stage result }
        ensures next { self.old.fault ≡ None → IsNext self.old.pass_state.unfolder.stage.taken self.new.pass_state.unfolder.stage result }
    {
        self.fault.check()?;
        let turn = self.state.next(map, placed);
        self.fault.keep(turn)
    }

    /// Goes on to the next live line of a first pass, if there is one, with an empty map. A line that becomes live is stored in `live`, and
    /// nothing is emitted. Errors: those of `next`.
    pub fn define(&mut self, live: &mut LiveLine) -> Result<Turn, AsmFault>
        ensures turns { self.old.fault ≡ None → Turns empty_map self.old.pass_state self.new.pass_state (live_in live.new)
            (SaysLive live.new) result }
        ensures again { (fault : AsmFault) → self.old.fault ≡ Some fault → result ≡ Err fault }
        ensures fault { self.new.fault ≡ result_err result }
        ensures empty { IsEmpty self.new.pass_state.unfolder.stage result }
        ensures next { self.old.fault ≡ None → IsNext self.old.pass_state.unfolder.stage.taken self.new.pass_state.unfolder.stage result }
    {
        self.fault.check()?;
        let turn = self.state.define_next(live);
        self.fault.keep(turn)
    }

    /// Whether nothing is left to unfold and `.END` hasn't become live, in which case `next` and `define` return `NeedLine`, or the fault
    /// again if the pass has failed.
    pub fn needs_line(&self) -> bool
        ensures { result ≡ needs_line self.now.pass_state.unfolder.stage }
    {
        self.state.unfolder.needs_line()
    }

    /// The table after the lines so far.
    pub fn table(&self) -> &Table
        ensures { result.now ≡ self.now.pass_state.table }
    {
        self.state.pass.table()
    }

    /// Returns the table of the pass, and the used names that were counted; no names if only defined names are counted.
    pub fn end(self) -> (Pass, UsedSymbols)
        ensures pass { result.0 ≡ self.pass_state.table }
        ensures used_symbols { result.1 ≡ used_names_in self.pass_state.counting }
    {
        let state = self.state;
        (state.pass, state.counting.into_used(self.alloc))
    }

    /// What the last placed line emits; nothing before the first one.
    pub fn contents(&self) -> &[PieceContent]
        ensures { result.now ≡ self.now.pass_state.emission.contents }
    {
        self.state.emission.contents()
    }
}
