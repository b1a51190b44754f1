//! The rounds of an expansion. (MACRO-11 Language Reference Manual, "Repeat block directive" and "Indefinite repeat block directives".)

ghost use Rattle.std.specs.Prelude.{◌≡◌, [], replicate, IfSome, IfNone};
ghost use Rattle.m11_unfold_bodies.specs.Frames as spec;

use crate::text::{Text, Texts};
use std::alloc::Global;
use std::collections::VecDeque;
use std::marker::Model;

/// The remaining rounds of an expansion, including the current one.
#[derive(Drop)]
pub struct Rounds {
    // The number of rounds without actuals, such as those of a `.REPT`.
    plain: u16,
    // The actuals of each of the other rounds.
    listed: VecDeque<Texts>,
}

impl Model for Rounds {
    ghost use Rattle.std.specs.Prelude.{◌++◌, [], List, replicate};
    ghost use Rattle.m11_base.specs.Devices.{Bytes};

    ghost Value = { List (List Bytes) };

    ghost view = { λ rounds. replicate rounds.plain [] ++ rounds.listed.items };
}

impl Rounds {
    /// This many rounds without actuals, such as those of a `.REPT`. They allocate nothing.
    pub fn plain(alloc: Global, count: u16) -> Rounds
        ensures { result ≡ replicate count [] }
    {
        Rounds {
            plain: count,
            listed: VecDeque::new(alloc),
        }
    }

    /// Rounds with these actuals, one list of actuals for each round.
    pub fn listed(actuals: VecDeque<Texts>) -> Rounds
        ensures { result ≡ actuals.items }
    {
        Rounds {
            plain: 0,
            listed: actuals,
        }
    }

    // The actuals of the first round, if any is left.
    pub(crate) fn first(&self) -> Option<&[Text]>
        ensures some { IfSome result (λ actuals. spec.first_of self.now ≡ Some actuals.now) }
        ensures none { IfNone result (self.now ≡ []) }
    {
        if self.plain > 0 {
            return Some(&[]);
        }
        let actuals = self.listed.front()?;
        Some(actuals.as_slice())
    }

    // Ends the first round, if any is left.
    pub(crate) fn pass(&mut self)
        ensures { self.new ≡ spec.without_first self.old }
    {
        if self.plain > 0 {
            self.plain -= 1;
        } else {
            drop(self.listed.pop_front());
        }
    }

    // Ends all rounds.
    pub(crate) fn clear(&mut self)
        ensures { self.new ≡ [] }
    {
        self.plain = 0;
        self.listed.clear();
    }
}
