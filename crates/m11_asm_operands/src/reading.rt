//! Reading the fields of an instruction, once for all that the instruction emits, uses and changes. (MACRO-11 Language Reference Manual,
//! "Operand field".)

ghost use Rattle.std.specs.Prelude.{◌≡◌};
ghost use Rattle.m11_asm_operands.specs.Reads.{fields_model};
ghost use Rattle.m11_asm_rules.specs.Instructions as instructions;

use crate::alignment::location_for;
use crate::fields::Fields;
use m11_asm_rules::{FirmNames, Table};
use m11_base::Op;
use m11_scan::Line;

/// Reads the fields of an instruction; its name ends at the column `start`. The forms of operands depend on firm names.
pub fn read_fields(fields: &mut Fields, table: &Table, line: &Line, start: u8, operation: Op)
    ensures { fields_model line.now.text fields.new ≡ instructions.line_fields table.now line.now.text start operation }
{
    let here = location_for(true, table.location());
    fields.read(line, start, operation, &FirmNames::new(table, here));
}
