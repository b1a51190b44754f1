//! Instructions: the code word, then the words of the operands, source first. (PDP-11/40 Processor Handbook, "Instruction set" and
//! "Addressing modes"; MACRO-11 Language Reference Manual, "Operand field".)

ghost use Rattle.std.specs.Prelude.{◌≡◌, List, IfOk, IsTrue};
ghost use Rattle.std.specs.Int.RustNames.{bit_or};
ghost use Rattle.m11_asm_operands.specs.ListedOperations.{is_listed};
ghost use Rattle.m11_asm_operands.specs.Reads.{field_model, fields_model};
ghost use Rattle.m11_scan_expressions.specs.Tokens.{Expression};
ghost use Rattle.m11_asm_operands.specs.LineContext.{line_context_of};
ghost use Rattle.m11_asm_rules.specs.Codes as codes;
ghost use Rattle.m11_asm_rules.specs.Contents.{followed_by};
ghost use Rattle.m11_asm_rules.specs.Elements.{argument_flags};
ghost use Rattle.m11_asm_rules.specs.Fields.{forms_of, with_form};
ghost use Rattle.m11_asm_rules.specs.Instructions as spec;
ghost use Rattle.m11_asm_rules.specs.declared.operands.Form.{Form};
ghost use Rattle.m11_scan.specs.Views.{bits_of};
ghost use Rattle.m11_scan_expressions.specs.Quantities.{quantity};
ghost use Rattle.m11_asm_rules.specs.declared.fields.Field.{Field};

use crate::code_values::field_value;
use crate::codes::{field_flags, instruction};
use crate::elements::argument_flags;
use crate::emission::Emission;
use crate::fields::Fields;
use crate::forms::size_of;
use crate::line_context::LineContext;
use crate::operand_fields::emit_form;
use crate::relocations::fixed;
use crate::values::further;
use m11_asm_rules::Field;
use m11_base::{Op, encode};
use m11_scan::ErrorFlags;
use m11_scan_expressions::Expr;
use std::alloc::AllocError;

// Emits the code word, with the flags of the fields. The value of each field is computed once, for both its bits and its flags. Error:
// memory may be refused.
fn emit_code(
    emission: &mut Emission,
    line_context: &LineContext,
    operation: Op,
    fields: &Fields,
) -> Result<(), AllocError>
    requires { IsTrue (is_listed operation) }
    ensures { IfOk result (λ _. emission.new ≡ followed_by emission.old (codes.code (line_context_of line_context.now) operation
        (field_model line_context.now.line fields.now.first) (field_model line_context.now.line fields.now.second))) }
{
    let first = field_value(line_context, &fields.first);
    let second = field_value(line_context, &fields.second);
    let code = encode(&instruction(line_context, operation, fields, &first, &second));
    let flags = field_flags(line_context, operation, &fields.first, &first);
    let others = field_flags(line_context, operation, &fields.second, &second);
    emission.add_word(fixed(code), flags.with(others))
}

// Emits the word that a field has after the code word, with the word's flags, and returns the location after that word. Without such a
// word, nothing is emitted, and the location stays the same. Error: memory may be refused.
fn emit_field(
    emission: &mut Emission,
    line_context: &LineContext,
    location: u16,
    field: &Field<Expr>,
) -> Result<u16, AllocError>
    ensures { IfOk result (λ next. (forms : List (Form Expression))
        → followed_by emission.new (codes.words_from (line_context_of line_context.now) next forms)
        ≡ followed_by emission.old (codes.words_from (line_context_of line_context.now) location
        (with_form (field_model line_context.now.line field.now) forms))) }
{
    match field {
        Field::Operand(form) => {
            emit_form(emission, line_context, location, form)?;
            Ok(further(location, size_of(form)))
        }
        _ => Ok(location),
    }
}

// Emits the words after the code word, with their flags, the first field's word first. Error: memory may be refused.
fn emit_words_after(
    emission: &mut Emission,
    line_context: &LineContext,
    location: u16,
    fields: &Fields,
) -> Result<(), AllocError>
    ensures { IfOk result (λ _. emission.new ≡ followed_by emission.old
        (codes.words_from (line_context_of line_context.now) location (forms_of (fields_model line_context.now.line fields.now)))) }
{
    let next = emit_field(emission, line_context, location, &fields.first)?;
    emit_field(emission, line_context, next, &fields.second)?;
    Ok(())
}

/// Emits the words of an instruction from its fields, with all of its flags. The name of the instruction ends at the column `start`. Error:
/// memory may be refused.
pub fn emit_instruction(
    emission: &mut Emission,
    line_context: &LineContext,
    operation: Op,
    start: u8,
    fields: &Fields,
) -> Result<(), AllocError>
    requires { IsTrue (is_listed operation) }
    ensures { IfOk result (λ _. emission.new ≡ followed_by emission.old
        (spec.assembled (line_context_of line_context.now) line_context.now.line start operation
        (fields_model line_context.now.line fields.now))) }
{
    emission.add_flags(line_flags(line_context, start, fields));
    emit_code(emission, line_context, operation, fields)?;
    emit_words_after(
        emission,
        line_context,
        further(line_context.location(), 2),
        fields,
    )
}

// The flags of the line's text, for what is missing, skipped or left over.
fn line_flags(line_context: &LineContext, start: u8, fields: &Fields) -> ErrorFlags
    ensures { bits_of result
        ≡ bit_or (bits_of fields.now.flags) (argument_flags line_context.now.line start fields.now.end) }
{
    fields
        .flags
        .with(argument_flags(line_context.line(), start, fields.end))
}
