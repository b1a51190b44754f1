//! A body whose end hasn't been read. (MACRO-11 Language Reference Manual, ".MACRO directive", ".ENDM directive" and ".REPT
//! directive".)

ghost use Rattle.std.specs.Prelude.{◌≡◌, ◌<◌, ◌≤◌, true, false, Some, None};
ghost use Rattle.m11_unfold_bodies.specs.Bodies as spec;

use crate::text::Texts;
use std::alloc::{AllocError, Global};
use std::marker::Model;

/// The effect of a line on the bodies of macros and repeats.
#[derive(Clone, Copy, PartialEq, Eq)]
pub enum Nesting {
    /// The line opens a body.
    Opens,
    /// The line closes the innermost body.
    Closes,
    /// The line does neither.
    Neither,
}

/// The lines of a body so far, and the number of bodies open inside it.
#[derive(Drop)]
pub struct OpenBody {
    body: Texts,
    depth: usize,
}

impl Model for OpenBody {
    ghost use Rattle.std.specs.Prelude.{◌≤◌, length};
    ghost use Rattle.m11_unfold_bodies.specs.Bodies.{PartialBody};

    ghost Value = { PartialBody };

    ghost view = { λ half. record { body = half.body; depth = half.depth } };

    ghost invariant = { λ half. half.depth ≤ length half.body };
}

impl OpenBody {
    /// An open body without lines.
    pub fn new(alloc: Global) -> OpenBody
        ensures { result ≡ spec.nothing_taken }
    {
        OpenBody {
            body: Texts::new(alloc),
            depth: 0,
        }
    }

    /// Whether a line with this nesting closes the body.
    pub fn is_closed_by(&self, nesting: Nesting) -> bool
        ensures closes { result ≡ true → spec.depth_after nesting self.now.depth ≡ None }
        ensures stays { result ≡ false
            → spec.depth_after nesting self.now.depth ≡ Some (spec.depth_inside nesting self.now.depth) }
    {
        is_close(nesting, self.depth)
    }

    /// Adds a line, unless it closes the body. Returns whether the line closes the body.
    ///
    /// Error: memory was refused. The body is then unchanged.
    pub fn take(&mut self, text: &[u8], nesting: Nesting) -> Result<bool, AllocError>
        ensures { spec.AddsLine self.old self.new text.now nesting result }
    {
        if is_close(nesting, self.depth) {
            return Ok(true);
        }
        self.body.push(text)?;
        self.depth = depth_inside(nesting, self.depth, self.body.len());
        Ok(false)
    }

    /// The lines of the body.
    pub fn into_body(self) -> Texts
        ensures { result ≡ self.body }
    {
        self.body
    }
}

// Whether a line closes a body with `depth` bodies open inside it.
fn is_close(nesting: Nesting, depth: usize) -> bool
    ensures closes { result ≡ true → spec.depth_after nesting depth ≡ None }
    ensures stays { result ≡ false → spec.depth_after nesting depth ≡ Some (spec.depth_inside nesting depth) }
{
    depth == 0 && nesting == Nesting::Closes
}

// The number of bodies open inside a body after a line that doesn't close it. `lines` is the number of lines, including this one; it is
// greater than `depth`.
fn depth_inside(nesting: Nesting, depth: usize, lines: usize) -> usize
    requires { depth < lines }
    ensures inside { result ≡ spec.depth_inside nesting depth }
    ensures within { result ≤ lines }
{
    match nesting {
        Nesting::Opens => depth + 1,
        Nesting::Neither => depth,
        Nesting::Closes => depth.saturating_sub(1),
    }
}
