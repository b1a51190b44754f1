//! Blank live lines: empty ones, and those with only a comment. A third of the lines of a typical source are blank, so they are
//! recognized first and spared the work that other lines need. (MACRO-11 Language Reference Manual, "Source program format".)

ghost use Rattle.std.specs.Prelude.{◌≡◌, true};
ghost use Rattle.m11_asm_rules.specs.Meanings.{Map};
ghost use Rattle.m11_scan_statements.specs.declared.bodies.Body.TheVariants.{Nothing};
ghost use Rattle.m11_unfold_rules.specs.Stages.{Stage};
ghost use Rattle.m11_asm_passes.specs.Begun.{States};
ghost use Rattle.m11_asm_passes.specs.Blank.{IsBlank};
ghost use Rattle.m11_asm_passes.specs.Placed.{IsPlaced, live_in};
ghost use Rattle.m11_asm_passes.specs.Refusals.{given_by};

use crate::operating::{counter, is_shown, section_name};
use crate::placed::PlacedLine;
use m11_asm_lines::{Action, Pass};
use m11_asm_operands::Emission;
use m11_scan_expressions::rest_flags;
use m11_scan_statements::{Body, Statement};

// Whether a statement has neither labels nor a body: its line has at most a comment.
pub(crate) fn is_blank(statement: &Statement) -> bool
    ensures unlabelled { result ≡ true → statement.now.labels_end ≡ 0 }
    ensures bodiless { result ≡ true → statement.now.body ≡ Nothing }
    ensures blank { statement.now.labels_end ≡ 0 → statement.now.body ≡ Nothing → result ≡ true }
{
    statement.labels_end == 0 && matches!(statement.body, Body::Nothing)
}

// Places a blank line. It emits nothing, so what the line before it emitted is cleared.
pub(crate) fn place_blank(
    pass: &Pass,
    emission: &mut Emission,
    statement: &Statement,
    placed: &mut PlacedLine,
)
    requires blank { IsBlank placed.old.live.line.text }
    requires states { States (live_in placed.old.live) statement.now }
    ensures same { live_in placed.new.live ≡ live_in placed.old.live }
    ensures placed { (whole : Map) (stage : Stage)
        → IsPlaced whole pass.now (given_by pass.now (live_in placed.old.live) stage) placed.new emission.new }
{
    emission.clear();
    placed.live.operation.action = Action::NoAction;
    placed.flags = statement.label_flags.with(rest_flags(&placed.live.line, 0));
    placed.section = section_name(pass);
    placed.counter = counter(pass);
    placed.location = placed.counter;
    placed.assigned = None;
    placed.is_shown = is_shown(pass, placed.live.is_expanded);
}
