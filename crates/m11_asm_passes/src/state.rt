//! The state of a pass between two lines, and the steps for a live line. (MACRO-11 Language Reference Manual, "Source program format".)

ghost use Rattle.std.specs.Prelude.{◌≡◌, ◌≤◌, [], IfOk, false, None, length};
ghost use Rattle.std.specs.Int.RustNames.{bit_or};
ghost use Rattle.m11_asm_rules.specs.Limits.{local_count, most_defined_names, most_local_symbols, most_names, most_sections, name_count};
ghost use Rattle.m11_asm_rules.specs.Meanings.{empty_map};
ghost use Rattle.m11_asm_rules.specs.Tables.{first_table};
ghost use Rattle.m11_asm_lines.specs.Counting.{names_counted};
ghost use Rattle.m11_asm_lines.specs.Actions.{IsRead};
ghost use Rattle.m11_asm_lines.specs.Lines.{flags_from};
ghost use Rattle.m11_scan.specs.Views.{bits_of};
ghost use Rattle.m11_unfold.specs.Kept.{IsKept};
ghost use Rattle.m11_unfold_rules.specs.Stages.{start};
ghost use Rattle.m11_asm_passes.specs.Begun.{Begins, Finishes};
ghost use Rattle.m11_asm_passes.specs.Placed.{live_in};
ghost use Rattle.m11_asm_passes.specs.States.{PassState, pass_state_of};
ghost use Rattle.m11_asm_passes.specs.Turns.{IsEmpty, IsNext, Places, SaysLive, SaysPlaced, Turns};

use crate::begun::LabelledLine;
use crate::blank::{is_blank, place_blank};
use crate::operating::{
    change_line, count_line, counter, emit_line, is_shown, put_location, section_name,
};
use crate::placed::{LiveLine, PlacedLine};
use crate::turns::Turn;
use m11_asm_faults::AsmFault;
use m11_asm_lines::{Action, Counting, Pass, line_flags};
use m11_asm_listing::Item;
use m11_asm_operands::Emission;
use m11_asm_rules::Map;
use m11_base::Seed;
use m11_scan::{ErrorFlags, Line};
use m11_scan_statements::{Statement, statement};
use m11_unfold::{Step, Unfolder};
use std::alloc::{AllocError, Global};

// The state of a pass between two lines.
#[derive(Drop)]
pub struct State {
    pub(crate) unfolder: Unfolder,
    pub(crate) pass: Pass,
    // The names that lines have used so far, unless only defined names are counted.
    pub(crate) counting: Counting,
    // What the last line emitted.
    pub(crate) emission: Emission,
}

impl State {
    // The state before the first line. Error: memory may be refused.
    pub(crate) fn new(alloc: Global, seed: Seed, counting: Counting) -> Result<State, AllocError>
        ensures unfolder { IfOk result (λ state. state.unfolder ≡ record { stage = start []; has_statement = false; fault = None }) }
        ensures pass { IfOk result (λ state. state.pass ≡ first_table) }
        ensures counting { IfOk result (λ state. state.counting ≡ counting) }
    {
        match Pass::new(alloc, seed) {
            Ok(pass) => Ok(State {
                unfolder: Unfolder::with_seed(alloc, seed),
                pass,
                counting,
                emission: Emission::new(alloc),
            }),
            Err(error) => {
                // proof: an explicit call, since an implicit drop here of a value that owns several maps takes minutes to prove
                drop(counting);
                Err(error)
            }
        }
    }

    // Goes on to the next live line, if there is one, and places it in `placed`. Error: as for `SourcePass::next`.
    pub(crate) fn next(&mut self, map: &Map<'_>, placed: &mut PlacedLine) -> Result<Turn, AsmFault>
        requires { self.old.unfolder.fault ≡ None }
        ensures turns { Turns map.now (pass_state_of self.old) (pass_state_of self.new) (live_in placed.new.live)
            (SaysPlaced map.now placed.new self.new.emission) result }
        ensures empty { IsEmpty self.new.unfolder.stage result }
        ensures next { IsNext self.old.unfolder.stage.taken self.new.unfolder.stage result }
        ensures goes_on { IfOk result (λ _. self.new.unfolder.fault ≡ None) }
    {
        match self.unfolder.next(&mut placed.live.line)? {
            Step::NeedLine => Ok(Turn::NeedLine),
            Step::End => Ok(Turn::End),
            Step::Line(is_expanded) => {
                placed.live.is_expanded = is_expanded;
                self.place(map, placed)?;
                Ok(Turn::Line)
            }
        }
    }

    // Goes on to the next live line, if there is one, stores it in `live`, and emits nothing. Error: as for `SourcePass::next`.
    pub(crate) fn define_next(&mut self, live: &mut LiveLine) -> Result<Turn, AsmFault>
        requires { self.old.unfolder.fault ≡ None }
        ensures turns { Turns empty_map (pass_state_of self.old) (pass_state_of self.new) (live_in live.new) (SaysLive live.new) result }
        ensures empty { IsEmpty self.new.unfolder.stage result }
        ensures next { IsNext self.old.unfolder.stage.taken self.new.unfolder.stage result }
        ensures goes_on { IfOk result (λ _. self.new.unfolder.fault ≡ None) }
    {
        match self.unfolder.next(&mut live.line)? {
            Step::NeedLine => Ok(Turn::NeedLine),
            Step::End => Ok(Turn::End),
            Step::Line(is_expanded) => {
                live.is_expanded = is_expanded;
                self.define(live)?;
                Ok(Turn::Line)
            }
        }
    }

    // Places a line that became live. Errors: the first limit that the line exceeds; `NoMemory`.
    fn place(&mut self, map: &Map<'_>, placed: &mut PlacedLine) -> Result<(), AsmFault>
        requires goes_on { self.old.unfolder.fault ≡ None }
        requires free { self.old.unfolder.has_statement ≡ false }
        ensures same { live_in placed.new.live ≡ live_in placed.old.live }
        ensures places { Places map.now (live_in placed.old.live) self.old.unfolder.stage (pass_state_of self.old) (pass_state_of self.new)
            (SaysPlaced map.now placed.new self.new.emission) result }
        ensures taken { IfOk result (λ _. self.new.unfolder.stage.taken ≡ self.old.unfolder.stage.taken) }
        ensures goes_on { IfOk result (λ _. self.new.unfolder.fault ≡ None) }
    {
        self.counts_are_within_the_limits();
        let statement = statement(&placed.live.line);
        if is_blank(&statement) {
            place_blank(&self.pass, &mut self.emission, &statement, placed);
            return Ok(());
        }
        let begun = self.begin(map, &mut placed.live, &statement)?;
        placed.section = section_name(&self.pass);
        placed.location = put_location(&self.pass, &placed.live.operation);
        placed.counter = counter(&self.pass);
        emit_line(
            &mut self.emission,
            map,
            &self.pass,
            &placed.live.line,
            &placed.live.operation,
        )?;
        placed.flags = all_flags(&placed.live, &statement, &begun, &self.emission);
        placed.assigned = self.apply(map, &placed.live, &begun)?;
        placed.is_shown = is_shown(&self.pass, placed.live.is_expanded);
        Ok(())
    }

    // Handles a line that became live, its labels and its action, without emitting anything. Error: as for `place`.
    fn define(&mut self, live: &mut LiveLine) -> Result<(), AsmFault>
        requires goes_on { self.old.unfolder.fault ≡ None }
        requires free { self.old.unfolder.has_statement ≡ false }
        ensures same { live_in live.new ≡ live_in live.old }
        ensures places { Places empty_map (live_in live.old) self.old.unfolder.stage (pass_state_of self.old) (pass_state_of self.new)
            (SaysLive live.new) result }
        ensures taken { IfOk result (λ _. self.new.unfolder.stage.taken ≡ self.old.unfolder.stage.taken) }
        ensures goes_on { IfOk result (λ _. self.new.unfolder.fault ≡ None) }
    {
        self.counts_are_within_the_limits();
        let statement = statement(&live.line);
        if is_blank(&statement) {
            live.operation.action = Action::NoAction;
            return Ok(());
        }
        let map = Map::none();
        let begun = self.begin(&map, live, &statement)?;
        self.apply(&map, live, &begun)?;
        Ok(())
    }

    // Counts the symbols that a line uses after its labels, if used names are counted; applies the action of the line; and returns the
    // item, if any, that a listing shows for the value that the action assigns. Error: as for `place`.
    // speed: inline in both callers, since a call, with the moves of its result, took a sixth of the function's instructions.
    #[inline(always)]
    fn apply(
        &mut self,
        map: &Map<'_>,
        live: &LiveLine,
        begun: &LabelledLine,
    ) -> Result<Option<Item>, AsmFault>
        requires { IsRead self.old.pass live.now.line.text live.now.operation }
        ensures finishes { (old : PassState) → Begins map.now (live_in live.now) old (pass_state_of self.old) live.now.operation begun.now
            → Finishes map.now (live_in live.now) old.unfolder.stage old (pass_state_of self.new) result }
        ensures unfolder { self.new.unfolder ≡ self.old.unfolder }
        ensures emission { self.new.emission ≡ self.old.emission }
    {
        let line = &live.line;
        count_line(
            &mut self.counting,
            line,
            &begun.act.remarks,
            &live.operation,
        )?;
        self.counts_are_within_the_limits();
        let shown = change_line(&mut self.pass, map, line, &live.operation)?;
        self.counts_are_within_the_limits();
        Ok(shown)
    }

    // States the limits that hold in each pass. The function does nothing.
    #[inline(always)]
    fn counts_are_within_the_limits(&self)
        ensures defined { name_count self.now.pass ≤ most_defined_names }
        ensures symbols { local_count self.now.pass ≤ most_local_symbols }
        ensures sections { length self.now.pass.sections ≤ most_sections }
        ensures names { length (names_counted self.now.counting) ≤ most_names }
        ensures unfolding { IsKept self.now.unfolder.stage }
    {
        self.unfolder.is_within_the_limits();
        self.pass.counts_are_within_the_limits();
        self.counting.names_are_within_the_limit();
    }
}

// The flags of a line: those of its text, labels, operation, emission and unfolding, and P if a label that the line defines isn't at the
// same location in the map.
fn all_flags(
    live: &LiveLine,
    statement: &Statement,
    begun: &LabelledLine,
    emission: &Emission,
) -> ErrorFlags
    ensures { bits_of result ≡ bit_or (flags_from live.now.line.text statement.now.labels_end statement.now.body
        (bits_of statement.now.label_flags) (bits_of begun.now.found.doubly_defined) (bits_of live.now.operation.flags) emission.now.flags
        begun.now.act.remarks.flags) (bits_of begun.now.found.moved) }
{
    let flags = line_flags(
        &live.line,
        statement.labels_end,
        statement.body,
        statement.label_flags,
        begun.found.doubly_defined,
        live.operation.flags,
        emission.flags(),
        begun.act.remarks.flags(),
    );
    flags.with(begun.found.moved)
}
