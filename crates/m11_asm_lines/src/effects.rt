//! What storage directives and instructions emit, and how far they move the location counter. (MACRO-11 Language Reference Manual, "Data
//! storage directives" and "Location counter control directives"; PDP-11/40 Processor Handbook, "Instruction set".)

ghost use Rattle.std.specs.Prelude.{◌≡◌, IfOk, IsTrue};
ghost use Rattle.m11_asm_directives.specs.Stored.{storage_model};
ghost use Rattle.m11_asm_operands.specs.ListedOperations.{is_listed};
ghost use Rattle.m11_asm_operands.specs.Reads.{fields_model};
ghost use Rattle.m11_asm_rules.specs.Changes.{Counts};
ghost use Rattle.m11_asm_rules.specs.Contents.{followed_by};
ghost use Rattle.m11_asm_rules.specs.Effects as spec;
ghost use Rattle.m11_asm_rules.specs.Instructions.{line_fields};
ghost use Rattle.m11_asm_rules.specs.Locations.{Steps};
ghost use Rattle.m11_asm_rules.specs.Tables.{firm_table};

use m11_asm_directives::{Arguments, Storage};
use m11_asm_operands::{
    Emission, Fields, LineContext, emit_instruction, gap, gap_flags, instruction_size, location_for,
};
use m11_asm_rules::{Map, Table};
use m11_base::Op;
use m11_scan::Line;
use std::alloc::AllocError;

/// The number of bytes by which a storage directive moves the counter: those that it stores or reserves, and the one skipped before them,
/// if any. It depends on firm names alone.
#[tactic(auto, using(crate::proofs::FirmEffects::change_firm))]
pub fn storage_steps(table: &Table, line: &Line, storage: Storage, arguments: &Arguments) -> u32
    ensures { Counts (Steps result) ≡ spec.storage_change (firm_table table.now) (storage_model line.now.text arguments.now storage) }
{
    let is_even = storage.is_even();
    let passed = gap(is_even, table.location());
    let here = location_for(is_even, table.location());
    u32::from(passed) + storage.size(line, arguments, table, here)
}

/// The number of bytes by which an instruction moves the counter: those of its words, and the one skipped before them at an odd location.
/// The name of the instruction ends at the column `start`, and `fields` are its fields.
pub fn instruction_steps(
    table: &Table,
    line: &Line,
    start: u8,
    operation: Op,
    fields: &Fields,
) -> u32
    requires { fields_model line.now.text fields.now ≡ line_fields table.now line.now.text start operation }
    ensures { Counts (Steps result) ≡ spec.instruction_change (firm_table table.now) line.now.text operation start }
{
    let passed = gap(true, table.location());
    let size = instruction_size(fields);
    u32::from(passed) + u32::from(size)
}

/// Emits what a directive stores at the location counter, with those of its flags that aren't in `Storing::flags`. At an odd location,
/// words that are stored or reserved begin at the next even one, and the line is flagged B. Error: memory may be refused.
pub fn emit_storage(
    emission: &mut Emission,
    map: &Map<'_>,
    table: &Table,
    line: &Line,
    storage: Storage,
    arguments: &Arguments,
) -> Result<(), AllocError>
    ensures { IfOk result (λ _. emission.new ≡ followed_by emission.old
        (spec.storage_emission map.now table.now (storage_model line.now.text arguments.now storage))) }
{
    let is_even = storage.is_even();
    emission.add_flags(gap_flags(is_even, table.location()));
    let line_context = LineContext::new(map, table, location_for(is_even, table.location()), line);
    storage.emit(emission, &line_context, arguments)
}

/// Emits the words of an instruction, and its flags. The name of the instruction ends at the column `start`, and `fields` are its fields.
/// At an odd location, the words go to the next even one, and the line is flagged B. Error: memory may be refused.
pub fn emit_operation(
    emission: &mut Emission,
    map: &Map<'_>,
    table: &Table,
    line: &Line,
    operation: Op,
    start: u8,
    fields: &Fields,
) -> Result<(), AllocError>
    requires listed { IsTrue (is_listed operation) }
    requires fields { fields_model line.now.text fields.now ≡ line_fields table.now line.now.text start operation }
    ensures { IfOk result (λ _. emission.new ≡ followed_by emission.old
        (spec.instruction_emission map.now table.now line.now.text operation start)) }
{
    emission.add_flags(gap_flags(true, table.location()));
    let line_context = LineContext::new(map, table, location_for(true, table.location()), line);
    emit_instruction(emission, &line_context, operation, start, fields)
}
