//! The columns of the parts of a line: its labels, its operator and the fields of an instruction. (MACRO-11 Language Reference Manual,
//! "Source program format" and "Addressing modes".)

use super::known::Known;
use super::statements::label_of;
use super::{equal, same};
use m11_asm_operands::Fields;
use m11_asm_rules::{Field, Form};
use m11_base::{DoubleOp, Mode, Op, Size};
use m11_scan::{Line, skipped_between};
use m11_scan_expressions::Expr;
use m11_scan_statements::{Body, LabelKind, Span, labels_of, statement};
use std::process::Abort;

const LINE: &str = "L:: MOV (R1)+,@-(R2) ;X";

// The mode of a field whose operand is a mode with a register, and the column of the register; none for any other field.
fn mode_of(field: &Field<Expr>) -> Option<(Mode, u8)> {
    match field {
        Field::Operand(Form::InRegister(mode, Expr::Term(register))) => {
            Some((*mode, register.start))
        }
        _ => None,
    }
}

// Checks that the fields are `(R1)+` and `@-(R2)`, end at column 20 and have no flags, and that no character after them is skipped.
fn are_both(rt: &impl Abort, line: &Line, fields: &Fields) {
    equal(
        rt,
        &LINE,
        &mode_of(&fields.first),
        &Some((Mode::Autoincrement, 9)),
    );
    equal(
        rt,
        &LINE,
        &mode_of(&fields.second),
        &Some((Mode::AutodecrementDeferred, 17)),
    );
    same(rt, &LINE, &fields.end, &20);
    same(rt, &LINE, &fields.flags.text().len(), &0);
    let is_skipped = skipped_between(line, fields.end, line.end());
    same(rt, &LINE, &is_skipped, &false);
}

#[test]
fn labels_operator_and_operands_stand_in_order(rt: HostRuntime) {
    let line = Line::from_bytes(LINE.as_bytes());
    let labels = labels_of(&line);
    same(&rt, &LINE, &labels.len(), &1);
    for label in labels.iter() {
        equal(&rt, &LINE, &label_of(label), &(LabelKind::Global, 0, 1));
    }
    let said = statement(&line);
    same(&rt, &LINE, &said.label_flags.text().len(), &0);
    equal(
        &rt,
        &LINE,
        &said.body,
        &Body::Operate(Span { start: 4, end: 7 }),
    );
    if let Body::Operate(name) = said.body {
        let operation = Op::Double(DoubleOp::Mov, Size::Word);
        let mut fields = Fields::new();
        fields.read(&line, name.end, operation, &Known);
        are_both(&rt, &line, &fields);
    }
}
