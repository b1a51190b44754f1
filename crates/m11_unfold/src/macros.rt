//! A defined macro. (MACRO-11 Language Reference Manual, "Macro definition".)

ghost use Rattle.std.specs.Prelude.{◌≡◌, ◌≤◌, length, map, IfOk};
ghost use Rattle.m11_scan.specs.Line.{line_limit};

use m11_base::Name;
use m11_unfold_bodies::{Template, Texts};
use m11_unfold_rules::MacroFormal;
use std::alloc::{AllocError, Global};
use std::marker::Model;
use std::rc::Rc;

// A defined macro: shared handles to its formals and its body, each of which is in memory once.
#[derive(Drop)]
pub(crate) struct Macro {
    formals: Rc<Vec<MacroFormal>>,
    template: Rc<Template>,
}

impl Model for Macro {
    ghost use Rattle.std.specs.Prelude.{◌≡◌, ◌≤◌, length, map};
    ghost use Rattle.m11_scan.specs.Line.{line_limit};
    ghost use Rattle.m11_unfold_rules.specs.Stages as stages;

    ghost Value = { stages.Macro };

    ghost view = { λ m. record { formals = m.formals.value.items; body = m.template.value.body } };

    ghost invariant = { λ m. (m.template.value.formals ≡ map (λ formal. formal.name) m.formals.value.items)
        × (length m.formals.value.items ≤ line_limit) };
}

impl Macro {
    // A macro with at most 132 formals; a line has at most as many characters. Error: memory may be refused.
    pub(crate) fn new(
        alloc: Global,
        formals: Vec<MacroFormal>,
        body: Texts,
    ) -> Result<Macro, AllocError>
        requires { length formals.items ≤ line_limit }
        ensures { IfOk result (λ m. m ≡ record { formals = formals.items; body = body }) }
    {
        let names = names_of(alloc, formals.as_slice())?;
        Ok(Macro {
            formals: Rc::new(alloc, formals)?,
            template: Rc::new(alloc, Template::new(names, body))?,
        })
    }

    // Another handle to the same macro. Error: memory may be refused.
    pub(crate) fn handle(&self) -> Result<Macro, AllocError>
        ensures { IfOk result (λ m. m ≡ self.now) }
    {
        Ok(Macro {
            formals: self.formals.clone()?,
            template: self.template.clone()?,
        })
    }

    pub(crate) fn formals(&self) -> &[MacroFormal]
        ensures formals { result.now ≡ self.now.formals }
        ensures few { length result.now ≤ line_limit }
    {
        self.formals.as_slice()
    }

    pub(crate) fn into_template(self) -> Rc<Template>
        ensures formals { result.value.formals ≡ map (λ formal. formal.name) self.formals }
        ensures body { result.value.body ≡ self.body }
    {
        self.template
    }
}

// The names of these formals. Error: memory may be refused.
fn names_of(alloc: Global, formals: &[MacroFormal]) -> Result<Vec<Name>, AllocError>
    ensures { IfOk result (λ names. names.items ≡ map (λ formal. formal.name) formals.now) }
{
    let mut names = Vec::new(alloc);
    'formals: for formal in formals {
        names.push(formal.name)?;
    }
    Ok(names)
}
