//! An open body with its purpose, and the closed body that it becomes. (MACRO-11 Language Reference Manual, ".MACRO directive" and
//! ".REPT directive".)

ghost use Rattle.std.specs.Prelude.{◌≡◌, ◌+◌, ◌≤◌, true, false, length, Some, None, IfOk};
ghost use Rattle.m11_unfold_bodies.specs.Bodies.{depth_after, depth_inside, nothing_taken, size_of, partial_body_with};
ghost use Rattle.m11_unfold_rules.specs.Limits.{most_bytes};
ghost use Rattle.m11_unfold.specs.Purposes.{IsPurpose, purpose_of};

use m11_base::Name;
use m11_unfold_bodies::{Nesting, OpenBody, Rounds, Texts};
use m11_unfold_rules::MacroFormal;
use std::alloc::{AllocError, Global};
use std::marker::Model;

// The purpose of a body.
#[derive(Drop)]
pub enum Purpose {
    // To define a macro with this name and these formals.
    Defines(Name, Vec<MacroFormal>),
    // To be repeated, with these formals and rounds.
    Repeats(Vec<Name>, Rounds),
    // To be discarded, since its `.MACRO` has no valid name.
    Drops,
}

// An open body with its purpose, and the number of bytes in its lines, at most 65,536; the end of each line counts as one.
#[derive(Drop)]
pub(crate) struct Opening {
    purpose: Purpose,
    taken: OpenBody,
    bytes: u32,
}

impl Model for Opening {
    ghost use Rattle.std.specs.Prelude.{◌≡◌, ◌≤◌};
    ghost use Rattle.m11_unfold_bodies.specs.Bodies.{size_of};
    ghost use Rattle.m11_unfold_rules.specs.Limits.{most_bytes};
    ghost use Rattle.m11_unfold_rules.specs.Stages as stages;
    ghost use Rattle.m11_unfold.specs.Purposes.{IsPurpose, purpose_of};

    ghost Value = { stages.Opening };

    ghost view = { λ o. record { purpose = purpose_of o.purpose; taken = o.taken } };

    ghost invariant = { λ o. (size_of o.taken.body ≡ o.bytes) × (o.bytes ≤ most_bytes) × IsPurpose o.purpose };
}

// A closed body with its purpose, and the number of bytes in its lines.
#[derive(Drop)]
pub(crate) struct ClosedBody {
    pub purpose: Purpose,
    pub body: Texts,
    pub bytes: u32,
}

impl Opening {
    // An open body without lines.
    pub(crate) fn new(alloc: Global, purpose: Purpose) -> Opening
        requires { IsPurpose purpose }
        ensures { result ≡ record { purpose = purpose_of purpose; taken = nothing_taken } }
    {
        Opening {
            purpose,
            taken: OpenBody::new(alloc),
            bytes: 0,
        }
    }

    // The number of bytes in the lines of the body; the end of each line counts as one.
    pub(crate) fn bytes(&self) -> u32
        ensures { result ≡ size_of self.now.taken.body }
    {
        self.bytes
    }

    // Whether a line with this nesting closes the body.
    pub(crate) fn is_closed_by(&self, nesting: Nesting) -> bool
        ensures closes { result ≡ true → depth_after nesting self.now.taken.depth ≡ None }
        ensures stays { result ≡ false
            → depth_after nesting self.now.taken.depth ≡ Some (depth_inside nesting self.now.taken.depth) }
    {
        self.taken.is_closed_by(nesting)
    }

    // Adds a line that doesn't close the body. The body's bytes must stay within the limit. Error: memory may be refused.
    pub(crate) fn take(&mut self, text: &[u8], nesting: Nesting) -> Result<(), AllocError>
        requires stays { depth_after nesting self.old.taken.depth
            ≡ Some (depth_inside nesting self.old.taken.depth) }
        requires room { size_of self.old.taken.body + (length text.now + 1) ≤ most_bytes }
        ensures { IfOk result (λ _. self.new ≡ record {
          purpose = self.old.purpose;
          taken = partial_body_with self.old.taken text.now (depth_inside nesting self.old.taken.depth);
        }) }
    {
        let _closes = self.taken.take(text, nesting)?;
        self.bytes += text.len() as u32 + 1;
        Ok(())
    }

    pub(crate) fn into_closed(self) -> ClosedBody
        ensures purpose { purpose_of result.purpose ≡ self.purpose }
        ensures few { IsPurpose result.purpose }
        ensures body { result.body ≡ self.taken.body }
        ensures bytes { result.bytes ≡ size_of self.taken.body }
    {
        ClosedBody {
            purpose: self.purpose,
            body: self.taken.into_body(),
            bytes: self.bytes,
        }
    }
}
