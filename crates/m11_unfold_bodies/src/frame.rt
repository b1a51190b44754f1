//! One open expansion, with the index of its next line. (MACRO-11 Language Reference Manual, "Macro directives" and "Repeat block
//! directive".)

ghost use Rattle.std.specs.Prelude.{◌≡◌, ◌∷◌, [], true, false};
ghost use Rattle.m11_unfold_bodies.specs.Frames as spec;
ghost use Rattle.m11_unfold_bodies.specs.Left as left;

use crate::mark::Mark;
use crate::rounds::Rounds;
use crate::substitution::substitute;
use crate::template::Template;
use m11_scan::Line;
use std::marker::Model;
use std::rc::Rc;

// An open expansion. Either it has a next line, or no round is left.
#[derive(Drop)]
pub(crate) struct Frame {
    template: Rc<Template>,
    index: usize,
    rounds: Rounds,
    mark: Mark,
}

impl Model for Frame {
    ghost use Rattle.m11_unfold_bodies.specs.Frames as spec;

    ghost Value = { spec.Frame };

    ghost view = { λ f. record { template = f.template.value; index = f.index; rounds = f.rounds; mark = f.mark } };

    ghost invariant = { λ f. spec.HasNext (record { template = f.template.value; index = f.index; rounds = f.rounds; mark = f.mark }) };
}

impl Frame {
    // An expansion before its first round. If its body has no lines, it has no rounds.
    pub(crate) fn new(template: Rc<Template>, rounds: Rounds, mark: Mark) -> Frame
        ensures lines { spec.lines_of result
            ≡ spec.of_rounds template.value.formals template.value.body template.value.body rounds }
        ensures mark { result.mark ≡ mark }
    {
        let mut frame = Frame {
            template,
            index: 0,
            rounds,
            mark,
        };
        if frame.template.body().len() == 0 {
            frame.rounds.clear();
        }
        frame
    }

    // Stores the next line, with actuals in place of formals, in `line`. Returns whether there was one.
    pub(crate) fn next(&mut self, line: &mut Line) -> bool
        ensures some { result ≡ true → spec.lines_of self.old ≡ left.Line line.new ∷ spec.lines_of self.new }
        ensures none { result ≡ false → spec.lines_of self.old ≡ [] }
        ensures mark { self.new.mark ≡ self.old.mark }
    {
        let lines = self.template.body().len();
        let Some(actuals) = self.rounds.first() else {
            return false;
        };
        substitute(
            line,
            self.template.formals(),
            actuals,
            self.template.body().text(self.index),
        );
        self.index += 1;
        if self.index == lines {
            self.index = 0;
            self.rounds.pass();
        }
        true
    }

    // Discards all lines that are left of the expansion.
    pub(crate) fn leave(&mut self)
        ensures lines { spec.lines_of self.new ≡ [] }
        ensures mark { self.new.mark ≡ self.old.mark }
    {
        self.rounds.clear();
    }

    pub(crate) fn mark(&self) -> &Mark
        ensures { result.now ≡ self.now.mark }
    {
        &self.mark
    }

    pub(crate) fn into_mark(self) -> Mark
        ensures { result ≡ self.mark }
    {
        self.mark
    }
}
