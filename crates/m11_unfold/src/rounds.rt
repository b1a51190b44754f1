//! The rounds of an expansion, from the texts in a line. (MACRO-11 Language Reference Manual, "Arguments in macro definitions and
//! macro calls" and "Indefinite repeat block directives".)

ghost use Rattle.std.specs.Prelude.{◌≡◌, ◌∷◌, [], map, IfOk};
ghost use Rattle.m11_unfold_rules.specs.Actuals.{texts_of};

use m11_unfold_bodies::{Rounds, Texts};
use std::alloc::{AllocError, Global};
use std::collections::VecDeque;

// One round with these actuals. Error: memory may be refused.
pub(crate) fn one_round(alloc: Global, actuals: &[Vec<u8>]) -> Result<Rounds, AllocError>
    ensures { IfOk result (λ rounds. rounds ≡ texts_of actuals.now ∷ []) }
{
    let mut rounds = VecDeque::new(alloc);
    rounds.push_back(kept(alloc, actuals)?)?;
    Ok(Rounds::listed(rounds))
}

// One round for each text, with that text as its only actual. Error: memory may be refused.
pub(crate) fn round_of_each(alloc: Global, texts: &[Vec<u8>]) -> Result<Rounds, AllocError>
    ensures { IfOk result (λ rounds. rounds ≡ map (λ text. text ∷ []) (texts_of texts.now)) }
{
    let mut rounds = VecDeque::new(alloc);
    'texts: for text in texts {
        let mut actuals = Texts::new(alloc);
        actuals.push(text.as_slice())?;
        rounds.push_back(actuals)?;
    }
    Ok(Rounds::listed(rounds))
}

fn kept(alloc: Global, texts: &[Vec<u8>]) -> Result<Texts, AllocError>
    ensures { IfOk result (λ kept. kept ≡ texts_of texts.now) }
{
    let mut kept = Texts::new(alloc);
    'texts: for text in texts {
        kept.push(text.as_slice())?;
    }
    Ok(kept)
}
