//! How the action of a line changes the table. (MACRO-11 Language Reference Manual, "Current location counter", "Program section
//! directives", "Direct assignment statements", ".GLOBL directive", "Radix control" and "Listing control directives".)

ghost use Rattle.std.specs.Prelude.{◌≡◌, ◌≤◌, IfOk, IfErr};
ghost use Rattle.std.specs.Option.{option_to_list};
ghost use Rattle.m11_asm_faults.specs.declared.fault.AsmFault.TheVariants.{NoMemory};
ghost use Rattle.m11_scan_expressions.specs.Tokens.{expression_of};
ghost use Rattle.m11_asm_operands.specs.Reads.{fields_model};
ghost use Rattle.m11_asm_directives.specs.Changes.{moves};
ghost use Rattle.m11_asm_directives.specs.Settings.{setting_model};
ghost use Rattle.m11_asm_directives.specs.Stored.{storage_model};
ghost use Rattle.m11_asm_rules.specs.Actions.{Operate, SetCounter, Store};
ghost use Rattle.m11_asm_rules.specs.Changes.{changed, numbered, with_globals};
ghost use Rattle.m11_asm_rules.specs.Elements.{names_of, texts_of};
ghost use Rattle.m11_asm_rules.specs.Instructions.{line_fields};
ghost use Rattle.m11_asm_rules.specs.Items.{action_items};
ghost use Rattle.m11_asm_rules.specs.Lines.{with_level};
ghost use Rattle.m11_asm_rules.specs.Meanings.{Map as LineMap};
ghost use Rattle.m11_asm_lines.specs.Actions.{IsRead, action_in, after_action};
ghost use Rattle.m11_asm_lines.specs.Faults.{Overfills};

use crate::actions::{Action, Operation};
use crate::effects::{instruction_steps, storage_steps};
use crate::pass::Pass;
use bitflags::Flags;
use m11_asm_directives::{
    Arguments, Move, Setting, Storage, counter_move, listed_name, with_attributes,
};
use m11_asm_faults::AsmFault;
use m11_asm_listing::{Item, Mark};
use m11_asm_operands::Fields;
use m11_asm_rules::{Definition, Map, Modes, Standing};
use m11_base::{Name, Op};
use m11_scan::Line;
use m11_scan_expressions::{Expr, Kind};
use m11_scan_statements::Span;

impl Pass {
    /// Applies the action of a line to the table after the line's labels. Returns the item that a listing shows: for an assignment its
    /// value, if that is known, even if the name doesn't get it; for `.NARG` and `.NCHR` the number that they assign; otherwise None. Only
    /// the value of an assignment may depend on names that aren't firm.
    ///
    /// Errors: `TooManySymbols` if more than 4,096 names besides those of the registers would be defined, `TooManySections` if a 65th
    /// section would be selected, and `NoMemory`.
    pub fn apply_action(
        &mut self,
        map: &Map<'_>,
        line: &Line,
        operation: &Operation,
    ) -> Result<Option<Item>, AsmFault>
        requires { IsRead self.old line.now.text operation.now }
        ensures changes { IfOk result (λ _. self.new ≡ after_action map.now line.now.text (action_in line.now.text operation.now) self.old) }
        ensures shows { IfOk result (λ item. option_to_list item ≡ action_items map.now self.old (action_in line.now.text operation.now)) }
        ensures refuses { IfErr result (λ fault. Overfills fault (after_action map.now line.now.text (action_in line.now.text operation.now) self.old)) }
    {
        match operation.action {
            Action::NoAction => Ok(None),
            Action::Assign(name, is_global, place) => {
                self.apply_assignment(map, line, name, is_global, place)
            }
            Action::SetCounter(place) => {
                self.apply_counter(line, place);
                Ok(None)
            }
            Action::Set(setting) => self.apply_setting(
                line,
                operation.arguments.names.list.as_slice(),
                setting,
            ),
            Action::Store(storage) => {
                self.step_past(line, storage, &operation.arguments);
                Ok(None)
            }
            Action::Operate(code, start) => {
                self.step_over(line, start, code, &operation.fields);
                Ok(None)
            }
        }
    }

    // Applies `.=` to the location counter. A value that isn't a location of the current section changes nothing.
    fn apply_counter(&mut self, line: &Line, place: Expr)
        ensures { (map : LineMap) → self.new
            ≡ after_action map line.now.text (SetCounter (expression_of line.now.text place)) self.old }
    {
        let step = counter_move(&self.table, line, place);
        self.count_any(step);
    }

    // Moves the counter past what a directive stores or reserves, and past the byte skipped before it, if there is one.
    fn step_past(&mut self, line: &Line, storage: Storage, arguments: &Arguments)
        ensures { (map : LineMap) → self.new
            ≡ after_action map line.now.text (Store (storage_model line.now.text arguments.now storage)) self.old }
    {
        let steps = storage_steps(&self.table, line, storage, arguments);
        self.count(Move::Steps(steps));
    }

    // Moves the counter, if there is a move.
    fn count_any(&mut self, step: Option<Move>)
        ensures { (map : LineMap) → self.new ≡ changed map (moves step) self.old }
    {
        match step {
            Some(step) => self.count(step),
            None => {}
        }
    }

    // Applies what a directive sets, with the names of its list, and returns the item that a listing shows for a number that it assigns;
    // None if it assigns none. Errors are those of `apply_action`.
    fn apply_setting(
        &mut self,
        line: &Line,
        names: &[Option<Span>],
        setting: Setting,
    ) -> Result<Option<Item>, AsmFault>
        ensures changes { (map : LineMap) → IfOk result
            (λ _. self.new ≡ after_action map line.now.text (setting_model line.now.text names.now setting) self.old) }
        ensures shows { (map : LineMap) → IfOk result
            (λ item. option_to_list item ≡ action_items map self.old (setting_model line.now.text names.now setting)) }
        ensures refuses { (map : LineMap) → IfErr result
            (λ fault. Overfills fault (after_action map line.now.text (setting_model line.now.text names.now setting) self.old)) }
    {
        self.counts_are_within_the_limits();
        match setting {
            Setting::Select(name, attributes) => {
                self.select(name, with_attributes(attributes, line, names).bits())?;
                Ok(None)
            }
            Setting::Export(_) => {
                self.export_all(line, names)?;
                Ok(None)
            }
            Setting::SetNumber(name, number) => {
                self.assign(name, false, numbered(number))?;
                Ok(Some(Item::InWord(number, Mark::Unmarked)))
            }
            Setting::SetRadix(radix) => {
                let modes = self.table.modes();
                self.set(Modes { radix, ..modes });
                Ok(None)
            }
            Setting::MoveLevel(goes_up) => {
                let modes = self.table.modes();
                self.set(with_level(goes_up, modes));
                Ok(None)
            }
            Setting::ListExpansions(shows_expansions) => {
                let modes = self.table.modes();
                self.set(Modes {
                    shows_expansions,
                    ..modes
                });
                Ok(None)
            }
            Setting::Nothing | Setting::Entitle(_) | Setting::Identify(_) | Setting::Transfer(_) =>
                Ok(None),
        }
    }

    /// Moves the counter past an instruction, and past the byte skipped before it, if any. The name of the instruction ends at the column
    /// `start`, and `fields` are its fields. This does what `apply_action` does for an instruction.
    // speed: without a result, which would pass through memory.
    pub fn step_over(&mut self, line: &Line, start: u8, operation: Op, fields: &Fields)
        requires { fields_model line.now.text fields.now ≡ line_fields self.old line.now.text start operation }
        ensures { (map : LineMap) → self.new ≡ after_action map line.now.text (Operate operation start) self.old }
    {
        let steps = instruction_steps(&self.table, line, start, operation, fields);
        self.count(Move::Steps(steps));
    }

    // Makes the names of a list global, in order. An element that isn't a name is skipped. Error: `NoMemory`.
    fn export_all(&mut self, line: &Line, names: &[Option<Span>]) -> Result<(), AsmFault>
        ensures exports { IfOk result (λ _. self.new ≡ with_globals (names_of (texts_of line.now.text names.now)) self.old) }
        ensures refuses { IfErr result (λ fault. fault ≡ NoMemory) }
    {
        match names {
            [] => Ok(()),
            [name, others @ ..] => {
                self.export_one(listed_name(line, *name))?;
                self.export_all(line, others)
            }
        }
    }

    fn export_one(&mut self, name: Option<Name>) -> Result<(), AsmFault>
        ensures exports { IfOk result (λ _. self.new ≡ with_globals (option_to_list name) self.old) }
        ensures refuses { IfErr result (λ fault. fault ≡ NoMemory) }
    {
        match name {
            Some(name) => self.export(name),
            None => Ok(()),
        }
    }
}

// The modes with the listing level raised (true) or lowered (false). Each direction has its own count, which stops at the greatest 64-bit
// number.
fn with_level(goes_up: bool, modes: Modes) -> Modes
    ensures { result ≡ with_level goes_up modes }
{
    if goes_up {
        Modes {
            listed: modes.listed.saturating_add(1),
            ..modes
        }
    } else {
        Modes {
            unlisted: modes.unlisted.saturating_add(1),
            ..modes
        }
    }
}

// The definition of a name as an absolute number, which is always firm.
fn numbered(number: u16) -> Definition
    ensures { result ≡ numbered number }
{
    Definition {
        standing: Standing::Known(number, Kind::Absolute),
        is_firm: true,
        label: None,
    }
}
