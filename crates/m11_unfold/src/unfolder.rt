//! The unfolder of a source. (MACRO-11 Language Reference Manual, "Macro directives" and "Conditional assembly directives".)

ghost use Rattle.std.specs.Prelude.{◌≡◌, ◌∷◌, [], false, None, Some, Err};
ghost use Rattle.std.specs.Result.{result_err};
ghost use Rattle.m11_unfold_rules.specs.Directives.{operator as line_operator};
ghost use Rattle.m11_scan_expressions.specs.Expressions.{known_by};
ghost use Rattle.m11_unfold_bodies.specs.Left as lefts;
ghost use Rattle.m11_unfold_rules.specs.Stages.{start};
ghost use Rattle.m11_unfold.specs.Kept.{IsKept};
ghost use Rattle.m11_unfold.specs.Unfolder as spec;
ghost use Rattle.m11_unfold.specs.Views.{stage_of};

use crate::state::State;
use crate::steps::{Act, Step};
use crate::taking::MoveResult;
use m11_base::{Latch, Seed};
use m11_scan::Line;
use m11_scan_expressions::{Names, Remarks};
use m11_scan_statements::Span;
use m11_unfold_rules::UnfoldFault;
use std::alloc::Global;
use std::marker::Model;

/// Unfolds a source line by line: `next` yields each line that becomes live, and `act` executes its operator. At most
/// 200,000 lines are read, 16 expansions open, 256 macros defined, 65,536 bytes of bodies stored and 32 conditions open, even after a
/// fault; each body is stored once. After a fault, `next` and `act` return that fault again.
#[derive(Drop)]
pub struct Unfolder {
    alloc: Global,
    state: State,
    fault: Latch<UnfoldFault>,
}

impl Model for Unfolder {
    ghost use Rattle.m11_unfold.specs.Kept.{IsKept};
    ghost use Rattle.m11_unfold.specs.Unfolder as spec;
    ghost use Rattle.m11_unfold.specs.Views.{stage_of};

    ghost Value = { spec.UnfolderState };

    ghost view = { λ u. record {
      stage = stage_of u.state;
      has_statement = u.state.left.has_statement;
      fault = u.fault;
    } };

    ghost invariant = { λ u. IsKept (stage_of u.state) };
}

impl Unfolder {
    /// An unfolder before the first line of a source, with a fixed seed for its map of macros.
    pub fn new(alloc: Global) -> Unfolder
        ensures { result ≡ record { stage = start []; has_statement = false; fault = None } }
    {
        Unfolder::with_seed(alloc, Seed::fixed())
    }

    /// An unfolder before the first line of a source, with a seed for its map of macros.
    pub fn with_seed(alloc: Global, seed: Seed) -> Unfolder
        ensures { result ≡ record { stage = start []; has_statement = false; fault = None } }
    {
        Unfolder {
            alloc,
            state: State::new(alloc, seed),
            fault: Latch::new(),
        }
    }

    /// States that every unfolder stays within the limits of unfolding, even after a fault. The function does nothing.
    #[inline(always)]
    pub fn is_within_the_limits(&self)
        ensures { IsKept self.now.stage }
    {
        let _alloc = &self.alloc;
    }

    /// Feeds the next line of the source. Nothing may be left to unfold, as at the start and after `NeedLine`.
    pub fn feed(&mut self, line: &Line)
        requires { self.old.stage.left ≡ [] }
        ensures { self.new ≡ record {
          stage = record self.old.stage { left = lefts.Line line.now ∷ [] };
          has_statement = false;
          fault = self.old.fault;
        } }
    {
        self.state.left.feed(line);
    }

    /// Advances to the next live line, or until a line of the source is needed or `.END` became live. A live line is stored in `line`,
    /// with actuals in place of formals. Pass it to `act` before the next call.
    ///
    /// Errors: `TooManyLines` before the 200,001st line is read, `TooMuchText` before bodies exceed 65,536 bytes, `TooManyMacros`
    /// before the 257th name is defined, `TooDeep` before a repeat opens the 17th expansion, and `NoMemory` at a line of a body
    /// within these limits.
    pub fn next(&mut self, line: &mut Line) -> Result<Step, UnfoldFault>
        ensures steps { self.old.fault ≡ None → spec.Steps self.old.stage self.new.stage line.new result }
        ensures again { (fault : UnfoldFault) → self.old.fault ≡ Some fault → result ≡ Err fault }
        ensures fault { self.new.fault ≡ result_err result }
        ensures empty { spec.IsEmpty self.new.stage result }
        ensures free { spec.IsFree self.new.has_statement result }
        ensures kept { IsKept self.new.stage }
    {
        self.fault.check()?;
        let step = self.state.next_live(self.alloc, line);
        self.fault.keep(step)
    }

    /// Whether nothing is left to unfold and `.END` hasn't become live, in which case `next` returns `NeedLine`, or the fault again if the
    /// unfolding has failed.
    pub fn needs_line(&self) -> bool
        ensures { result ≡ spec.needs_line self.now.stage }
    {
        !self.state.has_ended && self.state.left.is_empty()
    }

    /// Executes the operator of the line that the last `next` yielded. `operator` is the operator's span in the line, or None if the line
    /// has none, and `names` has the symbols that are known once the line's labels are defined.
    ///
    /// Errors: `TooDeep` if a call would open the 17th expansion, before an argument is read; otherwise `NoMemory`.
    pub fn act<N: Names>(
        &mut self,
        line: &Line,
        operator: Option<Span>,
        names: &N,
    ) -> Result<Act, UnfoldFault>
        requires free { self.old.has_statement ≡ false }
        requires operator { operator ≡ line_operator line.now.text }
        ensures acts { self.old.fault ≡ None → spec.Acts (known_by (N.base names.now) (N.value_of_symbol names.now))
            line.now.text self.old.stage self.new.stage result }
        ensures again { (fault : UnfoldFault) → self.old.fault ≡ Some fault → result ≡ Err fault }
        ensures fault { self.new.fault ≡ result_err result }
        ensures kept { IsKept self.new.stage }
    {
        self.fault.check()?;
        let arguments = self.state.left.argument_count();
        let mut remarks = Remarks::new(self.alloc);
        let acted = self
            .state
            .act(self.alloc, line, operator, names, &mut remarks);
        let is_own = self.fault.keep(acted)?;
        Ok(Act {
            is_own,
            remarks,
            arguments,
        })
    }
}

impl State {
    // Advances to the next live line, or until nothing is left to unfold. Errors: those of `Unfolder::next`.
    pub(crate) fn next_live(&mut self, alloc: Global, line: &mut Line) -> Result<Step, UnfoldFault>
        requires { IsKept (stage_of self.old) }
        ensures steps { spec.Steps (stage_of self.old) (stage_of self.new) line.new result }
        ensures empty { spec.IsEmpty (stage_of self.new) result }
        ensures kept { IsKept (stage_of self.new) }
        ensures free { spec.IsFree self.new.left.has_statement result }
    {
        // speed: most lines are those of the source itself, and are live; only the others need a call
        if self.read_live_line(line) {
            Ok(Step::Line(false))
        } else {
            self.move_on(alloc, line)
        }
    }

    // Makes moves until a line becomes live or nothing is left. Errors: those of `Unfolder::next`.
    // speed: a call, since few lines need more than one move.
    #[inline(never)]
    fn move_on(&mut self, alloc: Global, line: &mut Line) -> Result<Step, UnfoldFault>
        requires { IsKept (stage_of self.old) }
        ensures steps { spec.Steps (stage_of self.old) (stage_of self.new) line.new result }
        ensures empty { spec.IsEmpty (stage_of self.new) result }
        ensures kept { IsKept (stage_of self.new) }
        ensures free { spec.IsFree self.new.left.has_statement result }
    {
        'moves: loop {
            match self.advance(alloc, line)? {
                MoveResult::Passes => {}
                MoveResult::Gives(is_expanded) => return Ok(Step::Line(is_expanded)),
                MoveResult::NothingLeft => return Ok(self.rested()),
            }
        }
    }

    // The step when nothing is left to unfold: `End` after a live `.END`, otherwise `NeedLine`.
    fn rested(&self) -> Step
        ensures { result ≡ spec.rested self.now.has_ended }
    {
        if self.has_ended {
            Step::End
        } else {
            Step::NeedLine
        }
    }
}
