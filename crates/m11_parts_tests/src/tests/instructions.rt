//! Words and their instructions, names and their operations. (PDP-11/40 Processor Handbook, "Instruction set".)

use super::{equal, same};
use m11_base::{
    BranchOp, ConditionCodes, ConditionOp, DoubleOp, Insn, Op, Row, Size, decode, decode_by_list,
    encode, mnemonic, other_names, rows,
};
use std::process::Abort;

// A text, and the operation that it names; None if it names none.
#[rattlefmt::skip]
static NAMES: [(&str, Option<Op>); 19] = [
    // in upper or lower case, by the first six characters
    ("MOVB", Some(Op::Double(DoubleOp::Mov, Size::Byte))),
    ("movB", Some(Op::Double(DoubleOp::Mov, Size::Byte))),
    ("bhis", Some(Op::Branch(BranchOp::Bcc))),
    ("SeZ", Some(Op::Codes(ConditionOp::Set, ConditionCodes::ZERO))),
    ("call", Some(Op::Call)),
    ("RETURN", Some(Op::Return)),
    ("RETURNS", Some(Op::Return)),
    // not names of operations
    ("RETUR", None),
    ("", None),
    ("MO", None),
    ("MOVBB", None),
    ("ADDB", None),
    ("SPL", None),
    ("MFPI", None),
    ("MTPS", None),
    ("MOV ", None),
    (" ", None),
    ("RETURN:", None),
    ("MOV:", None),
];

// Checks that the name of each row of a list is looked up as the row's operation. Rows without a name are skipped.
fn check_rows(rt: &impl Abort, rows: &[Row]) {
    for row in rows {
        let name = row.name.trim_ascii_end();
        if !name.is_empty() {
            equal(rt, &"a row", &mnemonic(name), &Some(row.operation));
        }
    }
}

fn check_names(rt: &impl Abort, names: &[(&str, Option<Op>)]) {
    for (text, operation) in names {
        equal(rt, text, &mnemonic(text.as_bytes()), operation);
    }
}

#[test]
fn words_and_names_mean_their_instructions(rt: HostRuntime) {
    let mut reserved = 0u32;
    for word in 0..=u16::MAX {
        let instruction = decode(word);
        if matches!(instruction, Insn::Reserved(_)) {
            reserved = reserved.saturating_add(1);
        }
        // the tables decode a word as the list does, and its instruction is encoded as the same word
        let again = (encode(&instruction), decode_by_list(word));
        equal(&rt, &word, &again, &(word, instruction));
        same(&rt, &word, &instruction.fits(), &true);
    }
    // the list leaves 6,609 words reserved; the other 58,927 are instructions
    same(&rt, &"reserved", &reserved, &6_609);
    check_rows(&rt, rows());
    check_rows(&rt, other_names());
    check_names(&rt, &NAMES);
}
