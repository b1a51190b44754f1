//! The open conditions of one expansion, or of the source outside all expansions. (MACRO-11 Language Reference Manual,
//! "Conditional assembly block directives" and "Subconditional assembly block directives".)

ghost use Rattle.std.specs.Prelude.{◌≡◌, ◌<◌, ◌≤◌, length, reverse};
ghost use Rattle.m11_unfold_bodies.specs.Conditions as spec;

use arrayvec::ArrayVec;
use std::marker::Model;

/// The most conditions that may be open at once.
pub const CONDITION_LIMIT: usize = 32;

/// An open condition.
#[derive(Clone, Copy, Default, PartialEq, Eq)]
pub struct OpenCondition {
    /// Whether the condition is true.
    pub holds: bool,
    /// Whether the lines of its current part are live.
    pub is_live: bool,
}

/// A part of a condition's lines.
#[derive(Clone, Copy, PartialEq, Eq)]
pub enum Part {
    /// After `.IFF`: live if the condition is false.
    False,
    /// After `.IFT`: live if the condition is true.
    True,
    /// After `.IFTF`: live.
    Both,
}

/// The open conditions of one expansion, or of the source outside all expansions; the number of `.IF`s open among skipped lines; and
/// whether a condition beyond the limit is being skipped.
#[derive(Drop)]
pub struct Conditions {
    // The innermost comes last.
    entered: ArrayVec<OpenCondition, CONDITION_LIMIT>,
    nested: u32,
    is_past: bool,
}

impl Model for Conditions {
    ghost use Rattle.std.specs.Prelude.{◌≤◌, length, reverse};
    ghost use Rattle.m11_unfold_bodies.specs.Conditions.{OpenConditions};

    ghost Value = { OpenConditions };

    ghost view = { λ c. record { entered = reverse c.entered.items; nested = c.nested; is_past = c.is_past } };

    ghost invariant = { λ c. length c.entered.items ≤ 32 };
}

impl Conditions {
    /// No open conditions, and no skipped lines.
    pub fn new() -> Conditions
        ensures { result ≡ spec.no_conditions }
    {
        Conditions {
            entered: ArrayVec::new(),
            nested: 0,
            is_past: false,
        }
    }

    /// Whether the next lines are skipped.
    pub fn is_skipping(&self) -> bool
        ensures { result ≡ spec.is_skipping self.now }
    {
        self.is_past || !is_live_inside(self.entered.as_slice())
    }

    /// Whether a condition beyond the limit is being skipped.
    pub fn is_past(&self) -> bool
        ensures { result ≡ self.now.is_past }
    {
        self.is_past
    }

    /// The number of `.IF`s open among the skipped lines.
    pub fn nested(&self) -> u32
        ensures { result ≡ self.now.nested }
    {
        self.nested
    }

    /// Counts an `.IF` among skipped lines. At most 4,294,967,294 may already be open there.
    pub fn nest(&mut self)
        requires { self.old.nested < 4294967295 }
        ensures { self.new ≡ spec.nested self.old }
    {
        self.nested += 1;
    }

    /// Counts the `.ENDC` of an `.IF` among skipped lines. At least one such `.IF` must be open.
    pub fn unnest(&mut self)
        requires { 0 < self.old.nested }
        ensures { self.new ≡ spec.unnested self.old }
    {
        self.nested -= 1;
    }

    /// Opens a condition. Its lines are live if it is true. At most 31 may already be open.
    pub fn enter(&mut self, holds: bool)
        requires { length self.old.entered < spec.most_conditions }
        ensures { self.new ≡ spec.entering holds self.old }
    {
        self.entered.push(OpenCondition {
            holds,
            is_live: holds,
        });
    }

    /// Begins to skip the lines of a condition beyond the limit.
    pub fn enter_past(&mut self)
        ensures { self.new ≡ spec.past self.old }
    {
        self.is_past = true;
    }

    /// Switches the innermost condition, if any, to another part.
    pub fn switch(&mut self, part: Part)
        ensures { self.new ≡ spec.switched part self.old }
    {
        if let Some(condition) = self.entered.pop() {
            self.entered.push(OpenCondition {
                holds: condition.holds,
                is_live: is_live_in(part, condition.holds),
            });
        }
    }

    /// Closes the condition beyond the limit, or else the innermost one, if any.
    pub fn close(&mut self)
        ensures { self.new ≡ spec.closed self.old }
    {
        if self.is_past {
            self.is_past = false;
        } else {
            self.entered.pop();
        }
    }

    /// The number of open conditions, at most 32; one beyond the limit doesn't count.
    pub fn count(&self) -> usize
        ensures count { result ≡ length self.now.entered }
        ensures limited { result ≤ spec.most_conditions }
    {
        self.entered.len()
    }

    /// Whether there is no condition for an `.ENDC` to close.
    pub fn is_empty(&self) -> bool
        ensures { result ≡ spec.has_none self.now }
    {
        !self.is_past && self.entered.is_empty()
    }
}

fn is_live_inside(entered: &[OpenCondition]) -> bool
    ensures { result ≡ spec.is_live_inside (reverse entered.now) }
{
    match entered {
        [.., innermost] => innermost.is_live,
        [] => true,
    }
}

fn is_live_in(part: Part, holds: bool) -> bool
    ensures { result ≡ spec.is_live_in part holds }
{
    match part {
        Part::False => !holds,
        Part::True => holds,
        Part::Both => true,
    }
}
