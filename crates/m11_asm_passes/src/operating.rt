//! The second half of handling a live line: what follows its labels. (MACRO-11 Language Reference Manual, "Operator field" and "Symbols".)

ghost use Rattle.std.specs.Prelude.{◌≡◌, ◌≢◌, [], false, IfOk, IfErr, map};
ghost use Rattle.std.specs.Option.{option_to_list};
ghost use Rattle.m11_base.specs.Devices.{Bytes};
ghost use Rattle.m11_asm_operands.specs.Reads.{fields_model};
ghost use Rattle.m11_asm_rules.specs.Items.{action_items, is_shown};
ghost use Rattle.m11_asm_rules.specs.Lines.{emission_by, put_location};
ghost use Rattle.m11_asm_rules.specs.Tables.{Table as LineTable, location, section_name};
ghost use Rattle.m11_asm_lines.specs.Counting.{Counts};
ghost use Rattle.m11_asm_lines.specs.Actions.{IsRead, action_fields, action_in, after_action, selects};
ghost use Rattle.m11_asm_rules.specs.SymbolUses.{symbol_use};
ghost use Rattle.m11_asm_rules.specs.declared.meanings.Context.TheVariants.{LocalOnly};
ghost use Rattle.m11_asm_lines.specs.UsedSymbols.{Adds};
ghost use Rattle.m11_asm_lines.specs.Faults.{Overfills, Refuses};
ghost use Rattle.m11_asm_passes.specs.Operated.{uses_after};

use m11_asm_faults::AsmFault;
use m11_asm_lines::{Action, Counting, Operation, Pass, UsedSymbols, emit_action};
use m11_asm_listing::Item;
use m11_asm_operands::{Emission, location_for};
use m11_asm_rules::{Context, Map};
use m11_base::Name;
use m11_scan::Line;
use m11_scan_expressions::Remarks;

// Sets `emission` to the contents and flags that a line emits, in place of those of the line before it. Error: memory may be refused.
pub(crate) fn emit_line(
    emission: &mut Emission,
    map: &Map<'_>,
    pass: &Pass,
    line: &Line,
    operation: &Operation,
) -> Result<(), AsmFault>
    requires { IsRead pass.now line.now.text operation.now }
    ensures puts { IfOk result (λ _. emission.new ≡ emission_by map.now pass.now line.now.text (action_in line.now.text operation.now)) }
    ensures refuses { IfErr result (λ fault. Refuses fault ⊥ ⊥) }
    ensures selects { IfErr result (λ _. selects (action_in line.now.text operation.now) ≡ false) }
{
    emission.clear();
    emit_action(emission, map, pass.table(), line, operation)?;
    Ok(())
}

// `used_symbols` gets the symbols that unfolding evaluated. Errors: `TooManySymbols`; `NoMemory`.
fn use_read(used_symbols: &mut UsedSymbols, remarks: &Remarks) -> Result<(), AsmFault>
    ensures adds { Adds (map (symbol_use LocalOnly) remarks.now.symbols) used_symbols.old used_symbols.new result }
    ensures some { IfErr result (λ _. remarks.now.symbols ≢ []) }
{
    match remarks.symbols() {
        // speed: most lines have none, and need no call
        [] => Ok(()),
        symbols => used_symbols.add_all(symbols, Context::LocalOnly),
    }
}

// `used_symbols` gets the symbols that unfolding evaluated, and those that the action of a line uses. The fields of an instruction have
// already been read. Errors: `TooManySymbols`; `NoMemory`.
// speed: inline, since most lines use nothing, or only what the fields of an instruction use.
#[inline(always)]
fn use_line(
    used_symbols: &mut UsedSymbols,
    line: &Line,
    remarks: &Remarks,
    operation: &Operation,
) -> Result<(), AsmFault>
    ensures adds { (table : LineTable) → fields_model line.now.text operation.now.fields ≡ action_fields table line.now.text operation.now.action
        → Adds (uses_after table line.now.text remarks.now (action_in line.now.text operation.now)) used_symbols.old used_symbols.new result }
    ensures selects { IfErr result (λ _. remarks.now.symbols ≡ [] → selects (action_in line.now.text operation.now) ≡ false) }
{
    use_read(used_symbols, remarks)?;
    used_symbols.add_action(line, operation)?;
    Ok(())
}

// If used names are counted, `counting` gets the symbols that a line uses after its labels. Errors: `TooManySymbols`; `NoMemory`.
#[inline(always)]
pub(crate) fn count_line(
    counting: &mut Counting,
    line: &Line,
    remarks: &Remarks,
    operation: &Operation,
) -> Result<(), AsmFault>
    ensures counts { (table : LineTable) → fields_model line.now.text operation.now.fields ≡ action_fields table line.now.text operation.now.action
        → Counts (uses_after table line.now.text remarks.now (action_in line.now.text operation.now)) counting.old counting.new result }
    ensures selects { IfErr result (λ _. remarks.now.symbols ≡ [] → selects (action_in line.now.text operation.now) ≡ false) }
{
    match counting {
        Counting::SymbolUses(used_symbols) => { use_line(used_symbols, line, remarks, operation) }
        Counting::Definitions => Ok(()),
    }
}

// Applies the action of a line, and returns the item, if any, that a listing shows for the value that the action assigns. Errors:
// `TooManySymbols` or `TooManySections`; `NoMemory`.
#[inline(always)]
pub(crate) fn change_line(
    pass: &mut Pass,
    map: &Map<'_>,
    line: &Line,
    operation: &Operation,
) -> Result<Option<Item>, AsmFault>
    requires { IsRead pass.old line.now.text operation.now }
    ensures changes { IfOk result (λ _. pass.new ≡ after_action map.now line.now.text (action_in line.now.text operation.now) pass.old) }
    ensures shows { IfOk result (λ item. option_to_list item ≡ action_items map.now pass.old (action_in line.now.text operation.now)) }
    ensures refuses { IfErr result (λ fault. Overfills fault (after_action map.now line.now.text (action_in line.now.text operation.now) pass.old)) }
{
    // speed: most lines change nothing, and most others only step over an instruction; the rest need a call, with room for a change
    match operation.action {
        Action::NoAction => Ok(None),
        Action::Operate(code, start) => {
            pass.step_over(line, start, code, &operation.fields);
            Ok(None)
        }
        _ => change_any(pass, map, line, operation),
    }
}

// Applies any action of a line, with the results of `change_line`.
// speed: a call, since inlined it would clear room for a change at each line.
#[inline(never)]
fn change_any(
    pass: &mut Pass,
    map: &Map<'_>,
    line: &Line,
    operation: &Operation,
) -> Result<Option<Item>, AsmFault>
    requires { IsRead pass.old line.now.text operation.now }
    ensures changes { IfOk result (λ _. pass.new ≡ after_action map.now line.now.text (action_in line.now.text operation.now) pass.old) }
    ensures shows { IfOk result (λ item. option_to_list item ≡ action_items map.now pass.old (action_in line.now.text operation.now)) }
    ensures refuses { IfErr result (λ fault. Overfills fault (after_action map.now line.now.text (action_in line.now.text operation.now) pass.old)) }
{
    pass.apply_action(map, line, operation)
}

// The name of the current section.
pub(crate) fn section_name(pass: &Pass) -> Name
    ensures { result ≡ section_name pass.now }
{
    let table = pass.table();
    table.section(table.modes().section).name
}

// The location counter of the current section.
pub(crate) fn counter(pass: &Pass) -> u16
    ensures { result ≡ location pass.now }
{
    pass.table().location()
}

// Whether a line that isn't flagged is listed: the listing level isn't below 0 and, if the line is from an expansion, expansions are
// listed.
pub(crate) fn is_shown(pass: &Pass, is_expanded: bool) -> bool
    ensures { result ≡ is_shown pass.now.modes is_expanded }
{
    m11_asm_lines::is_shown(&pass.table().modes(), is_expanded)
}

// The location at which the operator of a line emits its contents.
pub(crate) fn put_location(pass: &Pass, operation: &Operation) -> u16
    ensures { (line : Bytes) → result ≡ put_location pass.now (action_in line operation.now) }
{
    let location = pass.table().location();
    match operation.action {
        Action::Store(storage) => location_for(storage.is_even(), location),
        Action::Operate(_, _) => location_for(true, location),
        _ => location,
    }
}
