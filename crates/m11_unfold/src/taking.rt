//! The next move of an unfolding. (MACRO-11 Language Reference Manual, "Macro definition" and "Conditional assembly block directives".)

ghost use Rattle.std.specs.Prelude.{◌≡◌, ◌+◌, ◌<◌, ◌≤◌, false, true, length, None, Some, Ok, IfErr, IfOk, is_some};
ghost use Rattle.m11_unfold_bodies.specs.Bodies.{size_of};
ghost use Rattle.m11_unfold_bodies.specs.Left.{bytes_held, depth, is_expanding, most_expansions};
ghost use Rattle.m11_scan.specs.Line.{line_limit};
ghost use Rattle.m11_unfold_rules.specs.Limits.{line_fault, most_bytes};
ghost use Rattle.m11_unfold_rules.specs.Stages as stages;
ghost use Rattle.m11_unfold_rules.specs.Taking as spec;
ghost use Rattle.m11_unfold.specs.Kept.{IsKept};
ghost use Rattle.m11_unfold.specs.Steps.{Closes, Enters, IsFree, Moves, Results, with_line};
ghost use Rattle.m11_unfold.specs.Views.{stage_of};
ghost use Rattle.m11_unfold.specs.Purposes.{IsPurpose, purpose_of};

use crate::macros::Macro;
use crate::opening::{ClosedBody, Opening, Purpose};
use crate::skipping::{nesting_of, skip};
use crate::state::State;
use m11_base::Name;
use m11_scan::Line;
use m11_unfold_bodies::{Conditions, EXPANSION_LIMIT, LineOrEnd, Mark, Rounds, Template, Texts};
use m11_unfold_rules::{MacroFormal, UnfoldFault};
use std::alloc::{AllocError, Global};
use std::rc::Rc;

// The most lines that may be read: from the source, from expansions, and from `.IIF`s.
const LINE_MOST: u32 = 200_000;

// The most bytes that all bodies together may have; the end of each line counts as one.
const BYTE_MOST: u64 = 65_536;

// The most macros that may be defined.
const MACRO_MOST: usize = 256;

// The result of one move.
#[derive(Clone, Copy)]
pub enum MoveResult {
    // Nothing is left to unfold, or `.END` became live.
    NothingLeft,
    // A line was read or an expansion ended, and no line became live.
    Passes,
    // A line became live. The value says whether it comes from an expansion.
    Gives(bool),
}

impl State {
    // Reads the next line if it is the source's own, is within the limit on lines, and becomes live. Returns whether it read such a line;
    // if not, nothing has changed.
    // speed: a shorter `advance` for this case, which is the case of most lines.
    #[inline(always)]
    pub(crate) fn read_live_line(&mut self, line: &mut Line) -> bool
        ensures moves { result ≡ true → Moves (stage_of self.old) (stage_of self.new) line.new (Ok (MoveResult.Gives false)) }
        ensures free { result ≡ true → self.new.left.has_statement ≡ false }
        ensures unchanged { result ≡ false → self.new ≡ self.old }
    {
        if self.has_ended || self.opening.is_some() || self.taken >= LINE_MOST {
            return false;
        }
        if self.conditions.is_skipping() || !self.left.take_source_line(line) {
            return false;
        }
        self.taken += 1;
        true
    }

    // Makes one move. A line that is read is stored in `line`. Errors: those of `Unfolder::next`.
    pub(crate) fn advance(
        &mut self,
        alloc: Global,
        line: &mut Line,
    ) -> Result<MoveResult, UnfoldFault>
        requires { IsKept (stage_of self.old) }
        ensures moves { Moves (stage_of self.old) (stage_of self.new) line.new result }
        ensures kept { IfErr result (λ _. IsKept (stage_of self.new)) }
        ensures free { IsFree self.new.left.has_statement result }
    {
        if self.has_ended {
            return Ok(MoveResult::NothingLeft);
        }
        // speed: most lines are those of the source itself, and need no further call
        if self.left.take_source_line(line) {
            return self.handle_line(alloc, line, false);
        }
        if self.left.is_empty() {
            return Ok(MoveResult::NothingLeft);
        }
        self.advance_within(alloc, line)
    }

    // Makes one move where an expansion may be open, or the statement of an `.IIF` may come next. Errors: those of `Unfolder::next`.
    // speed: a call, since the end of an expansion contains conditions, and their room on the stack would be cleared for each
    // line.
    #[inline(never)]
    fn advance_within(&mut self, alloc: Global, line: &mut Line) -> Result<MoveResult, UnfoldFault>
        requires kept { IsKept (stage_of self.old) }
        requires goes_on { self.old.has_ended ≡ false }
        ensures moves { Moves (stage_of self.old) (stage_of self.new) line.new result }
        ensures kept { IfErr result (λ _. IsKept (stage_of self.new)) }
        ensures free { IsFree self.new.left.has_statement result }
    {
        match self.left.take(line) {
            Some(LineOrEnd::Line(is_expanded)) => self.handle_line(alloc, line, is_expanded),
            Some(LineOrEnd::End(mark)) => {
                self.opening = None;
                self.conditions = mark.conditions;
                Ok(MoveResult::Passes)
            }
            None => Ok(MoveResult::NothingLeft),
        }
    }

    // Handles one line that was removed from what is left: the line belongs to the open body, is skipped, or becomes live. Errors: those
    // of `Unfolder::next`.
    // speed: inline, since this is called for each line of a source.
    #[tactic(auto, using(crate::proofs::Falling::kept_untaken, crate::proofs::Falling::kept_taken))]
    #[inline(always)]
    fn handle_line(
        &mut self,
        alloc: Global,
        line: &Line,
        is_expanded: bool,
    ) -> Result<MoveResult, UnfoldFault>
        requires kept { IsKept (with_line line.now (stage_of self.old)) }
        requires free { self.old.left.has_statement ≡ false }
        requires expanded { is_expanded ≡ is_expanding self.old.left.left }
        ensures moves { Results (line_fault (with_line line.now (stage_of self.old)) line.now.text) (is_some self.old.opening)
            (spec.line_move self.old.opening line.now (spec.one_taken self.old.left.left (stage_of self.old)))
            (stage_of self.new) line.now result }
        ensures kept { IfErr result (λ _. IsKept (stage_of self.new)) }
        ensures free { self.new.left.has_statement ≡ false }
    {
        if self.taken >= LINE_MOST {
            return Err(UnfoldFault::TooManyLines);
        }
        self.taken += 1;
        if self.opening.is_some() {
            return match self.add_body_line(alloc, line) {
                Ok(()) => Ok(MoveResult::Passes),
                Err(fault) => Err(fault),
            };
        }
        if skip(&mut self.conditions, line) {
            Ok(MoveResult::Passes)
        } else {
            Ok(MoveResult::Gives(is_expanded))
        }
    }

    // Adds one line to the open body, or closes that body with it. Without an open body it does nothing. Errors: `TooMuchText`,
    // `TooManyMacros` or `TooDeep`; `NoMemory`.
    // speed: a call, since room for a body on the stack would be cleared for each line.
    #[inline(never)]
    fn add_body_line(&mut self, alloc: Global, line: &Line) -> Result<(), UnfoldFault>
        requires kept { IsKept (stage_of self.old) }
        requires open { is_some self.old.opening ≡ true }
        requires free { self.old.left.has_statement ≡ false }
        ensures takes { (opening : stages.Opening) → self.old.opening ≡ Some opening
            → Enters (record (stage_of self.old) { opening = Some opening }) opening line.now.text (stage_of self.new) result }
        ensures kept { IfErr result (λ _. IsKept (stage_of self.new)) }
        ensures free { self.new.left.has_statement ≡ false }
    {
        match self.opening.take() {
            Some(opening) => self.add_to_body(alloc, opening, line),
            None => Ok(()),
        }
    }

    // Adds a line to a body, or closes the body if the line ends it. Errors: those of `add_body_line`, and then no body is open.
    #[tactic(auto, using(crate::proofs::Falling::kept_dropped))]
    fn add_to_body(
        &mut self,
        alloc: Global,
        opening: Opening,
        line: &Line,
    ) -> Result<(), UnfoldFault>
        requires kept { IsKept (record (stage_of self.old) { opening = Some opening }) }
        requires open { self.old.opening ≡ None }
        requires free { self.old.left.has_statement ≡ false }
        ensures takes { Enters (record (stage_of self.old) { opening = Some opening }) opening line.now.text
            (stage_of self.new) result }
        ensures kept { IfErr result (λ _. IsKept (stage_of self.new)) }
        ensures free { self.new.left.has_statement ≡ false }
    {
        let mut opening = opening;
        let nesting = nesting_of(line);
        if opening.is_closed_by(nesting) {
            return self.close(alloc, opening.into_closed());
        }
        if self.bytes_with(opening.bytes(), line) > BYTE_MOST {
            return Err(UnfoldFault::TooMuchText);
        }
        opening.take(line.text(), nesting)?;
        self.opening = Some(opening);
        Ok(())
    }

    // The number of bytes in all bodies, including the open one and one more line of it; the end of each line counts as one.
    fn bytes_with(&self, taken: u32, line: &Line) -> u64
        requires { self.now.defined_bytes + bytes_held self.now.left.left + taken ≤ most_bytes }
        ensures { result ≡ self.now.defined_bytes + bytes_held self.now.left.left + taken + (length line.now.text + 1) }
    {
        u64::from(self.defined_bytes)
            + self.left.bytes_held()
            + u64::from(taken)
            + line.text().len() as u64
            + 1
    }

    // Closes a body: defines its macro, inserts its rounds before what is left, or discards it. Errors: `TooManyMacros` or `TooDeep`;
    // `NoMemory`.
    fn close(&mut self, alloc: Global, closed: ClosedBody) -> Result<(), UnfoldFault>
        requires few { IsPurpose closed.purpose }
        requires bytes { size_of closed.body ≡ closed.bytes }
        requires room { self.old.defined_bytes + closed.bytes ≤ most_bytes }
        requires kept { IsKept (stage_of self.old) }
        requires free { self.old.left.has_statement ≡ false }
        ensures closes { Closes (purpose_of closed.purpose) closed.body (stage_of self.old) (stage_of self.new) result }
        ensures kept { IfErr result (λ _. IsKept (stage_of self.new)) }
        ensures free { self.new.left.has_statement ≡ false }
    {
        let ClosedBody {
            purpose,
            body,
            bytes,
        } = closed;
        match purpose {
            Purpose::Defines(name, formals) => self.define(alloc, name, formals, body, bytes),
            Purpose::Repeats(formals, rounds) => self.repeat(alloc, formals, rounds, body, bytes),
            Purpose::Drops => Ok(()),
        }
    }

    // Defines a macro, or replaces its earlier definition. Errors: `TooManyMacros` at the 257th name; `NoMemory`.
    fn define(
        &mut self,
        alloc: Global,
        name: Name,
        formals: Vec<MacroFormal>,
        body: Texts,
        bytes: u32,
    ) -> Result<(), UnfoldFault>
        requires few { length formals.items ≤ line_limit }
        requires bytes { size_of body ≡ bytes }
        requires room { self.old.defined_bytes + bytes ≤ most_bytes }
        ensures closes { Closes (stages.Defines name formals.items) body (stage_of self.old) (stage_of self.new) result }
        ensures unchanged { IfErr result (λ _. stage_of self.new ≡ stage_of self.old) }
        ensures left { self.new.left ≡ self.old.left }
    {
        if self.macros.get(&name).is_none() && self.macros.len() >= MACRO_MOST {
            return Err(UnfoldFault::TooManyMacros);
        }
        self.macros.insert(name, Macro::new(alloc, formals, body)?)?;
        self.defined_bytes += bytes;
        Ok(())
    }

    // Inserts the rounds of a repeat before what is left. Errors: `TooDeep` at the 17th open expansion; `NoMemory`.
    fn repeat(
        &mut self,
        alloc: Global,
        formals: Vec<Name>,
        rounds: Rounds,
        body: Texts,
        bytes: u32,
    ) -> Result<(), UnfoldFault>
        requires bytes { size_of body ≡ bytes }
        requires kept { IsKept (stage_of self.old) }
        requires free { self.old.left.has_statement ≡ false }
        ensures closes { Closes (stages.Repeats formals.items rounds) body (stage_of self.old) (stage_of self.new)
            result }
        ensures kept { IfErr result (λ _. IsKept (stage_of self.new)) }
        ensures free { self.new.left.has_statement ≡ false }
    {
        if self.left.depth() >= EXPANSION_LIMIT {
            return Err(UnfoldFault::TooDeep);
        }
        let template = Rc::new(alloc, Template::new(formals, body))?;
        self.expand(template, rounds, None, bytes)?;
        Ok(())
    }

    // Inserts an expansion before what is left. The expansion begins without open conditions; its end restores those around it. Error:
    // memory may be refused, and then the conditions that were open before are lost.
    pub(crate) fn expand(
        &mut self,
        template: Rc<Template>,
        rounds: Rounds,
        arguments: Option<u16>,
        bytes: u32,
    ) -> Result<(), AllocError>
        requires room { depth self.old.left.left < most_expansions }
        requires kept { IsKept (stage_of self.old) }
        requires free { self.old.left.has_statement ≡ false }
        ensures opened { IfOk result (λ _. stage_of self.new ≡ spec.opened arguments bytes template.value.formals rounds
            template.value.body (stage_of self.old)) }
        ensures kept { IfErr result (λ _. IsKept (stage_of self.new)) }
        ensures free { self.new.left.has_statement ≡ false }
    {
        let conditions = std::mem::replace(&mut self.conditions, Conditions::new());
        let mark = Mark {
            arguments,
            bytes,
            conditions,
        };
        self.left.expand(template, rounds, mark)
    }
}
