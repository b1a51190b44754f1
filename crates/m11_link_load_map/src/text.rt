//! The text of a load map.

ghost use Rattle.std.specs.Prelude.{◌≡◌, ◌++◌, ◌<◌, ◌+◌, ◌∷◌, [], IfOk, OnOk};
ghost use Rattle.std.specs.List.{flat_map};
ghost use Rattle.m11_link_layout.specs.Plan.{PlanTables, planned_base, planned_globals, planned_module};
ghost use Rattle.m11_link_load_map.specs.LoadMap.{IsByValue, contribution_line, line_of_global};
ghost use Rattle.m11_link_load_map.specs.Noted.{contributions_from, index_after};
ghost use Rattle.m11_link_load_map.specs.Run.{IsMapBy, planned_line};

use crate::lines::{global_line, section_line};
use crate::noted::MapFact;
use m11_link_layout::{Plan, PlannedGlobal};
use m11_link_text::limit_line;
use std::alloc::{AllocError, Global};

// Adds the line for a section contribution, or nothing for the end of a module. Returns the index of the module that the next fact
// belongs to.
fn add_fact(
    text: &mut Vec<u8>,
    plan: &Plan,
    module_index: usize,
    noted: MapFact,
) -> Result<usize, AllocError>
    requires { module_index < usize.MAX }
    ensures text { OnOk result (text.new.items
        ≡ text.old.items ++ flat_map (planned_line plan.now) (contributions_from module_index (noted ∷ []))) }
    ensures index { IfOk result (λ index. index ≡ index_after module_index noted) }
{
    match noted {
        MapFact::Section(section, size) => {
            let base = plan.base(module_index, section);
            let module_name = plan.module_name(module_index);
            text.extend_from_slice(&section_line(base, size, section, module_name))?;
            Ok(module_index)
        }
        MapFact::ModuleEnd => Ok(module_index + 1),
    }
}

// Adds the lines for all section contributions, in order.
fn put_contributions(text: &mut Vec<u8>, plan: &Plan, noted: &[MapFact]) -> Result<(), AllocError>
    ensures { OnOk result (text.new.items
        ≡ text.old.items ++ flat_map (planned_line plan.now) (contributions_from 0 noted.now)) }
{
    let mut module_index = 0;
    'noted: for item in noted {
        module_index = add_fact(text, plan, module_index, *item)?;
    }
    Ok(())
}

/// The globals of a plan, in the order of their first definitions. Error: memory was refused.
pub(crate) fn globals_of(alloc: Global, plan: &Plan) -> Result<Vec<PlannedGlobal>, AllocError>
    ensures { IfOk result (λ globals. globals.items ≡ planned_globals plan.now) }
{
    let mut globals = Vec::new(alloc);
    'globals: for index in 0..plan.global_count() {
        globals.push(plan.global_at(index))?;
    }
    Ok(globals)
}

// The globals of a plan in the order of their values; those of equal value in the order of their first definitions.
fn globals_by_value(alloc: Global, plan: &Plan) -> Result<Vec<PlannedGlobal>, AllocError>
    ensures { IfOk result (λ order. IsByValue (planned_globals plan.now) order.items) }
{
    let mut globals = globals_of(alloc, plan)?;
    globals.sort_by_key(|global| global.value)?;
    Ok(globals)
}

// Adds a line for each of these globals, in their order.
fn put_globals(text: &mut Vec<u8>, globals: &[PlannedGlobal]) -> Result<(), AllocError>
    ensures { OnOk result (text.new.items ≡ text.old.items ++ flat_map line_of_global globals.now) }
{
    'globals: for global in globals {
        let line = global_line(global.value, global.name, global.module_name);
        text.extend_from_slice(&line)?;
    }
    Ok(())
}

/// The load map, from a plan and the recorded facts. Error: memory was refused.
pub(crate) fn map_text(alloc: Global, plan: &Plan, noted: &[MapFact]) -> Result<Vec<u8>, AllocError>
    ensures { IfOk result (λ text. IsMapBy plan.now noted.now text.items) }
{
    let globals = globals_by_value(alloc, plan)?;
    let (bottom, top) = plan.limits();
    let mut text = Vec::new(alloc);
    text.extend_from_slice(&limit_line(bottom, top))?;
    text.extend_from_slice(b"SECTIONS\n")?;
    put_contributions(&mut text, plan, noted)?;
    text.extend_from_slice(b"GLOBALS\n")?;
    put_globals(&mut text, globals.as_slice())?;
    Ok(text)
}
