//! Skipped lines, and how a line nests within a body. (MACRO-11 Language Reference Manual, "Conditional assembly block directives",
//! "Subconditional assembly block directives" and "Macro definition".)

ghost use Rattle.std.specs.Prelude.{◌≡◌, ◌<◌, true, false, Some, None};
ghost use Rattle.m11_unfold_rules.specs.Directives.{directive};
ghost use Rattle.m11_unfold_rules.specs.Taking as spec;
ghost use Rattle.m11_unfold_rules.specs.declared.directives.Directive.TheVariants.{Endc};

use m11_scan::Line;
use m11_unfold_bodies::{Conditions, Nesting};
use m11_unfold_rules::{Directive, directive_of};

// Skips a line, unless it is live. Returns whether it is skipped.
// speed: inline, since this is called for each line of a source, and few are skipped.
#[inline(always)]
pub(crate) fn skip(conditions: &mut Conditions, line: &Line) -> bool
    requires { conditions.old.nested < 4294967295 }
    ensures skipped { result ≡ true → spec.skipped conditions.old line.now.text ≡ Some conditions.new }
    ensures live { result ≡ false → spec.skipped conditions.old line.now.text ≡ None }
    ensures unchanged { result ≡ false → conditions.new ≡ conditions.old }
{
    if conditions.is_skipping() {
        skip_inside(conditions, line)
    } else {
        false
    }
}

// Skips a line of a skipped part, unless it is live.
// speed: a call, so that a live line pays for no stack frame.
#[inline(never)]
fn skip_inside(conditions: &mut Conditions, line: &Line) -> bool
    requires { conditions.old.nested < 4294967295 }
    ensures skipped { result ≡ true → spec.skipped_by conditions.old (directive line.now.text) ≡ Some conditions.new }
    ensures live { result ≡ false → spec.skipped_by conditions.old (directive line.now.text) ≡ None }
    ensures unchanged { result ≡ false → conditions.new ≡ conditions.old }
{
    skip_by(conditions, directive_of(line))
}

// Skips a line of a skipped part according to its directive, unless it is live.
fn skip_by(conditions: &mut Conditions, word: Option<Directive>) -> bool
    requires { conditions.old.nested < 4294967295 }
    ensures skipped { result ≡ true → spec.skipped_by conditions.old word ≡ Some conditions.new }
    ensures live { result ≡ false → spec.skipped_by conditions.old word ≡ None }
    ensures unchanged { result ≡ false → conditions.new ≡ conditions.old }
{
    match word {
        Some(Directive::If) => {
            conditions.nest();
            true
        }
        Some(Directive::Endc) => skip_close(conditions),
        Some(Directive::Iff | Directive::Ift | Directive::Iftf) => { is_inner_switch(conditions) }
        _ => true,
    }
}

// Skips an `.ENDC` if it closes a condition among skipped lines, and returns whether it does; any other `.ENDC` is live.
fn skip_close(conditions: &mut Conditions) -> bool
    ensures skipped { result ≡ true → spec.skipped_by conditions.old (Some Endc) ≡ Some conditions.new }
    ensures live { result ≡ false → spec.skipped_by conditions.old (Some Endc) ≡ None }
    ensures unchanged { result ≡ false → conditions.new ≡ conditions.old }
{
    if conditions.nested() == 0 {
        return false;
    }
    conditions.unnest();
    true
}

// Whether a switch belongs to a condition among skipped lines, or to one beyond the limit.
fn is_inner_switch(conditions: &Conditions) -> bool
    ensures skipped { result ≡ true → spec.switch_in conditions.now ≡ Some conditions.now }
    ensures live { result ≡ false → spec.switch_in conditions.now ≡ None }
{
    conditions.is_past() || conditions.nested() != 0
}

// How a line nests within the body around it: it opens a further body, closes one, or does neither.
pub(crate) fn nesting_of(line: &Line) -> Nesting
    ensures { result ≡ spec.nesting line.now.text }
{
    match directive_of(line) {
        Some(Directive::Macro | Directive::Rept | Directive::Irp | Directive::Irpc) =>
            Nesting::Opens,
        Some(Directive::Endm | Directive::Endr) => Nesting::Closes,
        _ => Nesting::Neither,
    }
}
