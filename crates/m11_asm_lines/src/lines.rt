//! What a line emits after its labels are defined, and its flags. (MACRO-11 Language Reference Manual, "Source program format".)

ghost use Rattle.std.specs.Prelude.{◌≡◌, ◌≤◌, false, IfOk, IfErr};
ghost use Rattle.m11_asm_rules.specs.Contents.{followed_by, nothing};
ghost use Rattle.m11_asm_directives.specs.Settings.{setting_model};
ghost use Rattle.m11_asm_rules.specs.Lines as spec;
ghost use Rattle.m11_asm_lines.specs.Actions.{IsRead, action_in, selects};
ghost use Rattle.m11_asm_lines.specs.Lines.{flags_from};
ghost use Rattle.m11_scan.specs.Views.{bits_of};

use crate::actions::{Action, Operation};
use crate::effects::{emit_operation, emit_storage};
use m11_asm_directives::{
    Setting, assignment_flags, counter_flags, definition_flags, differing_flags, expression_flags,
    transfer,
};
use m11_asm_operands::Emission;
use m11_asm_rules::{Map, Table};
use m11_scan::{ErrorFlags, Line};
use m11_scan_expressions::skip_flags;
use m11_scan_statements::{Body, Span};
use std::alloc::AllocError;

/// Adds what the action of a line emits, and those flags of the action that aren't in `Operation::flags`. The map has the final values of
/// the names of the source. Error: memory may be refused.
pub fn emit_action(
    emission: &mut Emission,
    map: &Map<'_>,
    table: &Table,
    line: &Line,
    operation: &Operation,
) -> Result<(), AllocError>
    requires { IsRead table.now line.now.text operation.now }
    ensures emits { IfOk result (λ _. emission.new
        ≡ followed_by emission.old (spec.emission_by map.now table.now line.now.text (action_in line.now.text operation.now))) }
    ensures selects { IfErr result (λ _. selects (action_in line.now.text operation.now) ≡ false) }
{
    match operation.action {
        Action::NoAction => emit_flags(emission, ErrorFlags::none()),
        Action::Assign(name, _, place) => {
            emit_flags(emission, assignment_flags(map, table, line, name, place))
        }
        Action::SetCounter(place) => emit_flags(emission, counter_flags(table, line, place)),
        Action::Set(setting) => {
            let names = operation.arguments.names.list.as_slice();
            emit_flags(emission, setting_flags(map, table, line, names, setting))
        }
        Action::Store(storage) => {
            emit_storage(emission, map, table, line, storage, &operation.arguments)
        }
        Action::Operate(code, start) => {
            emit_operation(emission, map, table, line, code, start, &operation.fields)
        }
    }
}

// Emits nothing but flags.
fn emit_flags(emission: &mut Emission, flags: ErrorFlags) -> Result<(), AllocError>
    ensures emits { IfOk result (λ _. emission.new ≡ followed_by emission.old (nothing (bits_of flags))) }
    ensures never { IfErr result (λ _. ⊥) }
{
    emission.add_flags(flags);
    Ok(())
}

// The flags of a setting that aren't in `Effect::flags`: A for an attribute that a known section doesn't have, the flags of a name that is
// assigned a number, and those of N, Q and T that the transfer address has.
fn setting_flags(
    map: &Map<'_>,
    table: &Table,
    line: &Line,
    names: &[Option<Span>],
    setting: Setting,
) -> ErrorFlags
    ensures { nothing (bits_of result)
        ≡ spec.emission_by map.now table.now line.now.text (setting_model line.now.text names.now setting) }
{
    match setting {
        Setting::Select(name, _) => differing_flags(&table.section_named(name), line, names),
        Setting::SetNumber(name, _) => definition_flags(map, table, name),
        Setting::Transfer(place) => expression_flags(transfer(map, table, line, place)),
        Setting::Nothing
        | Setting::Export(_)
        | Setting::SetRadix(_)
        | Setting::MoveLevel(_)
        | Setting::ListExpansions(_)
        | Setting::Entitle(_)
        | Setting::Identify(_) => ErrorFlags::none(),
    }
}

/// The flags of a line: `own`, those that don't depend on its body; `labels`, those of labels that were defined before; `operation`, those
/// of the operation's text; `emission`, those of what the line emits; and `noted`, those that unfolding found. I is added for characters
/// skipped after the labels, and before the operator if there is one.
pub fn line_flags(
    line: &Line,
    labels_end: u8,
    body: Body,
    own: ErrorFlags,
    labels: ErrorFlags,
    operation: ErrorFlags,
    emission: ErrorFlags,
    noted: ErrorFlags,
) -> ErrorFlags
    ensures { bits_of result ≡ flags_from line.now.text labels_end body (bits_of own) (bits_of labels) (bits_of operation) (bits_of emission) (bits_of noted) }
{
    let end = match body {
        Body::Operate(name) => name.start,
        Body::Nothing | Body::Assign(_) | Body::SetCounter(_) | Body::Words(_) => line.end(),
    };
    let found = skip_flags(line, labels_end, end);
    own.with(labels)
        .with(found.with(operation.with(emission.with(noted))))
}
