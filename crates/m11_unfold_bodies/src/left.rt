//! What is left to unfold: lines, and the ends of open expansions. (MACRO-11 Language Reference Manual, "Macro directives" and
//! "Repeat block directive".)

ghost use Rattle.std.specs.Prelude.{◌≡◌, ◌<◌, ◌≤◌, ◌∷◌, ◌+◌, [], false, true, length, None, Some, OnOk, OnErr};
ghost use Rattle.std.specs.Option.{option_or};
ghost use Rattle.m11_unfold_bodies.specs.Frames as stack;
ghost use Rattle.m11_unfold_bodies.specs.Left as spec;

use crate::frame::Frame;
use crate::mark::Mark;
use crate::rounds::Rounds;
use crate::template::Template;
use m11_scan::Line;
use std::alloc::{AllocError, Global};
use std::marker::Model;
use std::rc::Rc;

/// The most expansions that may be open at once.
pub const EXPANSION_LIMIT: usize = 16;

/// The item removed from the front of what is left to unfold.
#[derive(Drop)]
pub enum LineOrEnd {
    /// A line. The value says whether it belongs to an expansion.
    Line(bool),
    /// The end of an expansion.
    End(Mark),
}

/// What is left to unfold: the statement of an `.IIF`, the lines and the ends of open expansions, the innermost first, and the line
/// fed from the source.
#[derive(Drop)]
pub struct RemainingLines {
    // The statement of an `.IIF`, which comes first.
    statement: Option<Line>,
    // The innermost expansion comes last.
    frames: Vec<Frame>,
    // The line fed from the source. It is left to unfold only if `has_fed` is true.
    fed: Line,
    has_fed: bool,
}

impl Model for RemainingLines {
    ghost use Rattle.std.specs.Prelude.{◌≤◌, length};
    ghost use Rattle.m11_unfold_bodies.specs.Frames.{line_where, remains};
    ghost use Rattle.m11_unfold_bodies.specs.Left.{Remains};

    ghost Value = { Remains };

    ghost view = { λ r. remains r.statement r.frames.items (line_where r.has_fed r.fed) };

    ghost invariant = { λ r. length r.frames.items ≤ 16 };
}

impl RemainingLines {
    /// Nothing left to unfold.
    pub fn new(alloc: Global) -> RemainingLines
        ensures left { result.left ≡ [] }
        ensures free { result.has_statement ≡ false }
    {
        RemainingLines {
            statement: None,
            frames: Vec::new(alloc),
            fed: Line::new(),
            has_fed: false,
        }
    }

    /// Feeds the next line of the source. Nothing may be left.
    pub fn feed(&mut self, line: &Line)
        requires { self.old.left ≡ [] }
        ensures left { self.new.left ≡ spec.Line line.now ∷ [] }
        ensures free { self.new.has_statement ≡ false }
    {
        self.fed.copy_from(line);
        self.has_fed = true;
    }

    /// Inserts the statement of an `.IIF` before what is left. No other statement may be left.
    pub fn put(&mut self, statement: Line)
        requires { self.old.has_statement ≡ false }
        ensures left { self.new.left ≡ spec.Line statement ∷ self.old.left }
    {
        self.statement = Some(statement);
    }

    /// Removes and returns the first item; None if nothing is left. A line is stored in `line`, since moving it takes longer than reading
    /// it.
    pub fn take(&mut self, line: &mut Line) -> Option<LineOrEnd>
        ensures taken { spec.Takes self.old.left self.new.left line.new result }
        ensures free { self.new.has_statement ≡ false }
    {
        if self.statement.is_some() {
            return self.take_statement(line);
        }
        if self.is_expanding() {
            self.take_expanded(line)
        } else {
            self.take_fed(line)
        }
    }

    /// Removes the line of the source and stores it in `line`, if nothing else is left. Returns whether a line was removed. This is a
    /// faster `take` for that case.
    pub fn take_source_line(&mut self, line: &mut Line) -> bool
        ensures taken { result ≡ true → spec.Takes self.old.left self.new.left line.new (Some (LineOrEnd.Line false)) }
        ensures free { result ≡ true → self.new.has_statement ≡ false }
        ensures unchanged { result ≡ false → self.new ≡ self.old }
    {
        if !self.has_fed || self.statement.is_some() || self.is_expanding() {
            return false;
        }
        line.copy_from(&self.fed);
        self.has_fed = false;
        true
    }

    /// Whether nothing is left.
    pub fn is_empty(&self) -> bool
        ensures { result ≡ spec.is_empty self.now.left }
    {
        is_none_of(
            self.has_fed,
            self.statement.is_some(),
            has_frame(self.frames.as_slice()),
        )
    }

    // Removes the statement of an `.IIF`, which must be there, and stores it in `line`.
    fn take_statement(&mut self, line: &mut Line) -> Option<LineOrEnd>
        requires { self.old.has_statement ≡ true }
        ensures taken { spec.Takes self.old.left self.new.left line.new result }
        ensures free { self.new.has_statement ≡ false }
    {
        match self.statement.take() {
            Some(statement) => {
                *line = statement;
                Some(LineOrEnd::Line(self.is_expanding()))
            }
            None => None,
        }
    }

    // Removes the line fed from the source, and stores it in `line`; returns None if that line was removed before. No expansion may be
    // open.
    fn take_fed(&mut self, line: &mut Line) -> Option<LineOrEnd>
        requires free { self.old.has_statement ≡ false }
        requires unexpanded { spec.is_expanding self.old.left ≡ false }
        ensures taken { spec.Takes self.old.left self.new.left line.new result }
        ensures free { self.new.has_statement ≡ false }
    {
        if !self.has_fed {
            return None;
        }
        line.copy_from(&self.fed);
        self.has_fed = false;
        Some(LineOrEnd::Line(false))
    }

    // Removes the next line of the innermost expansion and stores it in `line`; or removes the end of the expansion, if none of its lines
    // is left.
    fn take_expanded(&mut self, line: &mut Line) -> Option<LineOrEnd>
        requires free { self.old.has_statement ≡ false }
        requires expanded { spec.is_expanding self.old.left ≡ true }
        ensures taken { spec.Takes self.old.left self.new.left line.new result }
        ensures free { self.new.has_statement ≡ false }
    {
        // speed: a frame is large, so it is moved only at its end
        let frame = self.frames.last_mut()?;
        if frame.next(line) {
            return Some(LineOrEnd::Line(true));
        }
        let frame = self.frames.pop()?;
        Some(LineOrEnd::End(frame.into_mark()))
    }

    /// Inserts an expansion before what is left: the body's lines with the actuals of each round, and the expansion's end. At most 15
    /// expansions may be open, and no statement of an `.IIF` may be left.
    ///
    /// Error: memory was refused. What is left is then unchanged.
    pub fn expand(
        &mut self,
        template: Rc<Template>,
        rounds: Rounds,
        mark: Mark,
    ) -> Result<(), AllocError>
        requires room { spec.depth self.old.left < spec.most_expansions }
        requires free { self.old.has_statement ≡ false }
        ensures ok { OnOk result (self.new.left
            ≡ spec.expanded template.value.formals rounds template.value.body mark self.old.left) }
        ensures err { OnErr result (self.new.left ≡ self.old.left) }
        ensures free { self.new.has_statement ≡ false }
    {
        self.frames.push(Frame::new(template, rounds, mark))?;
        Ok(())
    }

    /// Discards all lines up to the end of the innermost expansion. The end itself is still left. If no expansion is open, nothing is
    /// left.
    pub fn leave(&mut self)
        ensures left { self.new.left ≡ spec.after_mark self.old.left }
        ensures free { self.new.has_statement ≡ false }
    {
        self.statement = None;
        match self.frames.pop() {
            Some(mut frame) => {
                frame.leave();
                self.frames.push_reserved(frame);
            }
            None => self.has_fed = false,
        }
    }

    /// Whether an expansion is open.
    pub fn is_expanding(&self) -> bool
        ensures { result ≡ spec.is_expanding self.now.left }
    {
        has_frame(self.frames.as_slice())
    }

    /// The number of open expansions, at most 16.
    pub fn depth(&self) -> usize
        ensures depth { result ≡ spec.depth self.now.left }
        ensures limited { result ≤ spec.most_expansions }
    {
        self.frames.as_slice().len()
    }

    /// The number of actuals of the innermost macro call, if one is open.
    pub fn argument_count(&self) -> Option<u16>
        ensures { result ≡ spec.argument_count self.now.left }
    {
        argument_count(self.frames.as_slice())
    }

    /// The number of bytes in the bodies of open repeats.
    pub fn bytes_held(&self) -> u64
        ensures { result ≡ spec.bytes_held self.now.left }
    {
        bytes_held(self.frames.as_slice())
    }

    /// The number of conditions that the ends of open expansions restore: those open around each of the expansions.
    pub fn conditions_open(&self) -> usize
        ensures { result ≡ spec.conditions_open self.now.left }
    {
        conditions_open(self.frames.as_slice())
    }
}

fn is_none_of(has_fed: bool, has_statement: bool, has_frame: bool) -> bool
    ensures { result ≡ stack.is_none_of has_fed has_statement has_frame }
{
    !has_fed && !has_statement && !has_frame
}

fn has_frame(frames: &[Frame]) -> bool
    ensures { result ≡ stack.has_frame frames.now }
{
    match frames {
        [_, ..] => true,
        [] => false,
    }
}

// The number of actuals of the innermost macro call: that of the last frame that is a call; None if no frame is one.
fn argument_count(frames: &[Frame]) -> Option<u16>
    ensures { result ≡ stack.count_from None frames.now }
{
    let mut count = None;
    let mut rest = frames;
    'frames: while let Some((frame, inner)) = rest.split_first() {
        count = inner_count(frame.mark().arguments, count);
        rest = inner;
    }
    count
}

fn inner_count(arguments: Option<u16>, outer: Option<u16>) -> Option<u16>
    ensures { result ≡ option_or arguments outer }
{
    match arguments {
        Some(count) => Some(count),
        None => outer,
    }
}

fn bytes_held(frames: &[Frame]) -> u64
    requires { length frames.now ≤ 16 }
    ensures { result ≡ stack.bytes_from 0 frames.now }
{
    let mut bytes = 0;
    let mut rest = frames;
    'frames: while let Some((frame, inner)) = rest.split_first() {
        bytes += u64::from(frame.mark().bytes);
        rest = inner;
    }
    bytes
}

fn conditions_open(frames: &[Frame]) -> usize
    requires { length frames.now ≤ 16 }
    ensures { result ≡ stack.conditions_from 0 frames.now }
{
    let mut count = 0;
    let mut rest = frames;
    'frames: while let Some((frame, inner)) = rest.split_first() {
        count += frame.mark().conditions.count();
        rest = inner;
    }
    count
}
