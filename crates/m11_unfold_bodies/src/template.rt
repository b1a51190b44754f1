//! A body with its formals. (MACRO-11 Language Reference Manual, "Arguments in macro definitions and macro calls".)

ghost use Rattle.std.specs.Prelude.{◌≡◌};

use crate::text::Texts;
use m11_base::Name;
use std::marker::Model;

/// A body with its formals. The body of `.REPT` has none, that of `.IRP` or `.IRPC` at most one.
#[derive(Drop)]
pub struct Template {
    pub(crate) formals: Vec<Name>,
    pub(crate) body: Texts,
}

impl Model for Template {
    ghost use Rattle.m11_unfold_bodies.specs.Bodies.{Template};

    ghost Value = { Template };

    ghost view = { λ template. record { formals = template.formals.items; body = template.body } };
}

impl Template {
    /// A body with its formals.
    pub fn new(formals: Vec<Name>, body: Texts) -> Template
        ensures formals { result.formals ≡ formals.items }
        ensures body { result.body ≡ body }
    {
        Template { formals, body }
    }

    /// The names of the formals, in order.
    pub fn formals(&self) -> &[Name]
        ensures { result.now ≡ self.now.formals }
    {
        self.formals.as_slice()
    }

    /// The texts of the body's lines.
    pub fn body(&self) -> &Texts
        ensures { result.now ≡ self.now.body }
    {
        &self.body
    }
}
