//! The first half of handling a live line: its labels, and the unfolding of its operator. (MACRO-11 Language Reference Manual, "Label
//! field" and "Operator field".)

ghost use Rattle.std.specs.Prelude.{◌≡◌, ◌∷◌, [], IfOk, IfErr, IfSome, false, None};
ghost use Rattle.m11_unfold_rules.specs.Directives.{operator as line_operator};
ghost use Rattle.m11_asm_rules.specs.Unfolded.{known_after_labels};
ghost use Rattle.m11_scan_statements.specs.Labels.{labels_at};
ghost use Rattle.m11_unfold.specs.Unfolder as steps;
ghost use Rattle.m11_asm_passes.specs.Begun.{Begins, States};
ghost use Rattle.m11_asm_passes.specs.Faults.{FailsAtLine};
ghost use Rattle.m11_asm_passes.specs.Placed.{live_in};
ghost use Rattle.m11_asm_passes.specs.States.{pass_state_of};

use crate::labelling::define_labels;
use crate::placed::LiveLine;
use crate::state::State;
use m11_asm_faults::AsmFault;
use m11_asm_lines::{LabelFlags, Pass};
use m11_asm_rules::{FirmNames, Map, Table};
use m11_scan::Line;
use m11_scan_statements::{Span, Statement};
use m11_unfold::{Act, Unfolder};
use m11_unfold_rules::{UnfoldFault, operator_in};

// The results for a line whose labels are defined and whose operator has been handled by unfolding.
#[derive(Drop)]
pub struct LabelledLine {
    // The flags M and P of its labels.
    pub(crate) found: LabelFlags,
    pub(crate) act: Act,
}

impl State {
    // Defines the labels of a line and counts their names, lets unfolding handle the operator, and reads the operation after the labels
    // into `live`. Errors: the first limit exceeded by the labels or by the unfolding; `NoMemory`.
    pub(crate) fn begin(
        &mut self,
        map: &Map<'_>,
        live: &mut LiveLine,
        statement: &Statement,
    ) -> Result<LabelledLine, AsmFault>
        requires unlabelled { statement.now.labels_end ≡ 0 → labels_at live.old.line.text ≡ [] }
        requires single { IfSome statement.now.only_label (λ label. labels_at live.old.line.text ≡ label ∷ []) }
        requires states { States (live_in live.old) statement.now }
        requires goes_on { self.old.unfolder.fault ≡ None }
        requires free { self.old.unfolder.has_statement ≡ false }
        ensures same { live_in live.new ≡ live_in live.old }
        ensures begins { IfOk result (λ begun. Begins map.now (live_in live.new) (pass_state_of self.old) (pass_state_of self.new) live.new.operation begun) }
        ensures fails { IfErr result (λ fault. FailsAtLine map.now self.old.pass self.old.counting (live_in live.old) self.old.unfolder.stage fault) }
        ensures taken { IfOk result (λ _. self.new.unfolder.stage.taken ≡ self.old.unfolder.stage.taken) }
        ensures goes_on { IfOk result (λ _. self.new.unfolder.fault ≡ None) }
    {
        self.unfolder.is_within_the_limits();
        let line = &live.line;
        let found = define_labels(
            &mut self.pass,
            &mut self.counting,
            map,
            line,
            statement.labels_end,
            statement.only_label,
        )?;
        let operator = operator_in(statement.body);
        let act = act_on(&mut self.unfolder, line, operator, &self.pass)?;
        live.operation.read(
            self.pass.table(),
            &live.line,
            act.is_own,
            act.arguments,
            statement.body,
        );
        Ok(LabelledLine { found, act })
    }
}

// Lets unfolding handle the operator, if any, of a line whose labels are defined. Errors: the limit of unfolding that is exceeded;
// `NoMemory`.
fn act_on(
    unfolder: &mut Unfolder,
    line: &Line,
    operator: Option<Span>,
    pass: &Pass,
) -> Result<Act, UnfoldFault>
    requires operator { operator ≡ line_operator line.now.text }
    requires free { unfolder.old.has_statement ≡ false }
    requires goes_on { unfolder.old.fault ≡ None }
    ensures acts { steps.Acts (known_after_labels pass.now) line.now.text unfolder.old.stage unfolder.new.stage result }
    ensures goes_on { IfOk result (λ _. unfolder.new.fault ≡ None) }
{
    act_under(unfolder, line, operator, pass.table())
}

// Lets unfolding handle the operator, if any, of a line, with the firm names of a table. Errors: as for `act_on`.
fn act_under(
    unfolder: &mut Unfolder,
    line: &Line,
    operator: Option<Span>,
    table: &Table,
) -> Result<Act, UnfoldFault>
    requires operator { operator ≡ line_operator line.now.text }
    requires free { unfolder.old.has_statement ≡ false }
    requires goes_on { unfolder.old.fault ≡ None }
    ensures acts { steps.Acts (known_after_labels table.now) line.now.text unfolder.old.stage unfolder.new.stage result }
    ensures goes_on { IfOk result (λ _. unfolder.new.fault ≡ None) }
{
    unfolder.act(line, operator, &FirmNames::new(table, table.location()))
}
