//! The fields of a line. (MACRO-11 Language Reference Manual, "Label field", "Operator field" and "Direct assignment statements".)

ghost use Rattle.std.specs.Prelude.{◌≡◌, ◌≤◌, [], ◌∷◌, codes, drop, length, ℕ, List, Option, Some};
ghost use Rattle.m11_asm_line_laws.specs.Example.{both_fields, example, global_label, move_words};
ghost use Rattle.m11_asm_line_laws.specs.Printed.{IsWritten, StatementTree, example_tree, tree_of, tree_operation};
ghost use Rattle.m11_asm_line_laws.specs.Written.{AreLabelled, Says};
ghost use Rattle.m11_asm_rules.specs.Actions.{Operation};
ghost use Rattle.m11_asm_rules.specs.Elements.{argument_flags};
ghost use Rattle.m11_asm_rules.specs.Fields.{fields_at};
ghost use Rattle.m11_asm_rules.specs.Instructions.{size, words};
ghost use Rattle.m11_asm_rules.specs.Meanings.{Map, firm_known};
ghost use Rattle.m11_asm_rules.specs.Operations.{operation_of};
ghost use Rattle.m11_asm_rules.specs.Operators.{operator_named};
ghost use Rattle.m11_asm_rules.specs.Tables.{Table, first_table};
ghost use Rattle.m11_asm_rules.specs.declared.operators.Operator.TheVariants.{Instruction};
ghost use Rattle.m11_base.specs.Devices.{Bytes};
ghost use Rattle.m11_base.specs.NameCharacters.{six_of};
ghost use Rattle.m11_base.specs.declared.instruction.Op.{Op};
ghost use Rattle.m11_scan.specs.Cutting.{text_between, tokens_from, tokens_of};
ghost use Rattle.m11_scan.specs.Line.{line_of};
ghost use Rattle.m11_scan_statements.specs.Labels.{labels_at, labels_end};
ghost use Rattle.m11_scan_statements.specs.Statements.{body_of, label_flags};
ghost use Rattle.m11_scan_statements.specs.declared.bodies.Body.{Body};
ghost use Rattle.m11_scan_statements.specs.declared.bodies.Body.TheVariants.{Operate};
ghost use Rattle.m11_scan_statements.specs.declared.labels.Label.{Label};

use m11_scan_statements::labels_and_body_are_in_order;

/// The labels written in a line are the labels read from it, and each line has such a written form.
pub fn labels_are_read_as_they_are_written()
    ensures written { (line : Bytes) (labels : List Label) → AreLabelled (tokens_of line) labels → labels_at line ≡ labels }
    ensures exists { (line : Bytes) → AreLabelled (tokens_of line) (labels_at line) }
{}

/// What is written after the labels of a line is read as such, be it an assignment, a setting of the location counter, an operator, words
/// or nothing; and each line has such a written form.
pub fn bodies_are_read_as_they_are_written()
    ensures written { (line : Bytes) (body : Body) → Says line (tokens_from line (labels_end line)) body → body_of line ≡ body }
    ensures exists { (line : Bytes) → Says line (tokens_from line (labels_end line)) (body_of line) }
{}

/// The statement that is written in a line is read from it, wherever the line has blanks and tabs: its labels, and after them an
/// assignment, a setting of the location counter, an operator with its arguments, words or nothing. `L:: MOV (R1)+,@-(R2) ;X` is such a
/// line.
pub fn statements_are_read_as_they_are_written()
    ensures read { (statement : StatementTree) (line : Bytes) → IsWritten statement line → tree_of line ≡ statement }
    ensures example { IsWritten example_tree (codes "L:: MOV (R1)+,@-(R2) ;X") }
{}

/// What follows the labels of a line does the same in any column: a directive with these arguments, an assignment and a list of words have
/// the operation that `tree_operation` finds in their texts alone, and an instruction has the size and emits the words that it would with
/// its operands at the beginning of a line.
pub fn operations_depend_on_texts_alone()
    ensures operation { (arguments : Option ℕ) (line : Bytes) (operation : Operation)
        → tree_operation arguments (tree_of line).body ≡ Some operation → operation_of arguments line (body_of line) ≡ operation }
    ensures size { (table : Table) (location : ℕ) (operation : Op) (line : Bytes) (column : ℕ) → column ≤ length line
        → size table location line column operation ≡ size table location (drop column line) 0 operation }
    ensures words { (map : Map) (table : Table) (location : ℕ) (operation : Op) (line : Bytes) (column : ℕ) → column ≤ length line
        → words map table location line column operation ≡ words map table location (drop column line) 0 operation }
{
    labels_and_body_are_in_order();
}

/// In `L:: MOV (R1)+,@-(R2) ;X` the label is the global `L`, and the operator `MOV` has operands of the modes 2 and 5. Nothing is flagged:
/// the comment isn't part of the operands.
pub fn an_example_is_read_as_worked()
    ensures label { labels_at example ≡ global_label ∷ [] }
    ensures body { body_of example ≡ Operate (record { start = 4; end = 7 }) }
    ensures operator { operator_named (six_of (text_between example 4 7)) ≡ Some (Instruction move_words) }
    ensures fields { fields_at (firm_known first_table 0) example 7 move_words ≡ both_fields }
    ensures before { label_flags (line_of example) ≡ 0 }
    ensures after { argument_flags example 7 both_fields.end ≡ 0 }
{}
