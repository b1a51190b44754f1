//! The globals of a link of objects, as symbols.

ghost use Rattle.std.specs.Prelude.{◌≡◌, ◌++◌, OnOk, map};
ghost use Rattle.m11_base_writes.specs.Passes.{pass_of};
ghost use Rattle.m11_link_layout.specs.Plan.{planned_globals};
ghost use Rattle.m11_link_load_map.specs.LinkGlobals.{AddsGlobals, symbol_of};

use crate::fault::ObjectsFault;
use crate::reading::read_all;
use crate::text::globals_of;
use m11_base::{Feed, Seed};
use m11_base_disassembly::{Scope, Symbol};
use m11_link_layout::{LinkFault, Plan, PlannedGlobal};
use std::alloc::{AllocError, Global};

/// Reads objects once, and adds the globals of a link of them to `symbols`, in the order of their first definitions, with relocatable
/// sections beginning at `bottom`. Errors: those of a link's first pass, each with the object at fault, unless all objects were read.
pub(crate) fn add_globals<F: Feed>(
    alloc: Global,
    seed: Seed,
    objects: &mut [F],
    bottom: u16,
    symbols: &mut Vec<Symbol>,
) -> Result<(), ObjectsFault>
    ensures { AddsGlobals (pass_of F.text F.faults objects.old objects.new) bottom symbols.old.items symbols.new.items result }
{
    let mut noted = Vec::new(alloc);
    match read_all(alloc, seed, objects, bottom, &mut noted) {
        Ok(plan) => match add_planned(alloc, symbols, &plan) {
            Ok(()) => {
                // proof: dropping a value that owns several maps in place takes minutes to prove
                drop(plan);
                Ok(())
            }
            Err(_) => {
                drop(plan);
                Err(ObjectsFault {
                    object_index: None,
                    fault: LinkFault::NoMemory,
                })
            }
        },
        Err(fault) => Err(fault),
    }
}

// Adds the globals of a plan. Error: memory was refused.
fn add_planned(alloc: Global, symbols: &mut Vec<Symbol>, plan: &Plan) -> Result<(), AllocError>
    ensures { OnOk result (symbols.new.items ≡ symbols.old.items ++ map symbol_of (planned_globals plan.now)) }
{
    let globals = globals_of(alloc, plan)?;
    add_each(symbols, globals.as_slice())
}

// Adds these globals. Error: memory was refused.
fn add_each(symbols: &mut Vec<Symbol>, globals: &[PlannedGlobal]) -> Result<(), AllocError>
    ensures { OnOk result (symbols.new.items ≡ symbols.old.items ++ map symbol_of globals.now) }
{
    let mut rest = globals;
    'globals: while let [global, others @ ..] = rest {
        symbols.push(Symbol {
            name: global.name,
            value: global.value,
            scope: Scope::Unknown,
        })?;
        rest = others;
    }
    Ok(())
}
