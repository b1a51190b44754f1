//! The state of an unfolding. (MACRO-11 Language Reference Manual, "Macro directives" and "Conditional assembly directives".)

ghost use Rattle.std.specs.Prelude.{◌≡◌, [], false};
ghost use Rattle.m11_unfold_rules.specs.Stages.{start};
ghost use Rattle.m11_unfold.specs.Views.{stage_of};

use crate::macros::Macro;
use crate::opening::Opening;
use m11_base::{Name, Seed, SeededMap};
use m11_unfold_bodies::{Conditions, RemainingLines};
use m11_unfold_rules::FIRST_CREATED;
use std::alloc::Global;

// A stage of an unfolding.
#[derive(Drop)]
pub struct State {
    // The lines left of open expansions, the fed line, and the statement of an `.IIF`.
    pub(crate) left: RemainingLines,
    // The conditions of the innermost expansion, or those of the source itself if no expansion is open.
    pub(crate) conditions: Conditions,
    // The body that the next lines belong to, if one is open.
    pub(crate) opening: Option<Opening>,
    pub(crate) macros: SeededMap<Name, Macro>,
    // The number of bytes in the bodies of macros, including replaced ones.
    pub(crate) defined_bytes: u32,
    // The number of the next created local symbol.
    pub(crate) created: u16,
    // The number of lines read from the source, from expansions and from `.IIF`s.
    pub(crate) taken: u32,
    // Whether `.END` became live.
    pub(crate) has_ended: bool,
}

impl State {
    // The state before the first line of a source.
    pub(crate) fn new(alloc: Global, seed: Seed) -> State
        ensures stage { stage_of result ≡ start [] }
        ensures free { result.left.has_statement ≡ false }
    {
        State {
            left: RemainingLines::new(alloc),
            conditions: Conditions::new(),
            opening: None,
            macros: SeededMap::with_hasher(alloc, seed),
            defined_bytes: 0,
            created: FIRST_CREATED,
            taken: 0,
            has_ended: false,
        }
    }
}
