//! The parts of lines: labels, assignments, operators and words. (MACRO-11 Language Reference Manual, "Source program format".)

use super::{equal, same};
use m11_scan::Line;
use m11_scan_statements::{Body, Label, LabelKind, labels_of, statement};

// The form of what follows the labels.
#[derive(Clone, Copy, PartialEq, Eq)]
enum Shape {
    Nothing,
    Assigns,
    AssignsGlobally,
    SetsCounter,
    Operates,
    Words,
}

use Shape::{Assigns, AssignsGlobally, Nothing, Operates, SetsCounter, Words};

// A line; its labels, each with the first column of its name and the column after it; what follows the labels, with the columns that
// a body of this form records, and then zeros; and the flags that don't depend on the body.
struct Row {
    line: &'static str,
    labels: &'static [(LabelKind, u8, u8)],
    body: (Shape, u8, u8, u8),
    flags: &'static str,
}

#[rattlefmt::skip]
static ROWS: [Row; 53] = [
    // labels, and lines without labels
    Row { line: "A: MOV R1,(SP)+ ;x", labels: &[(LabelKind::Ordinary, 0, 1)], body: (Operates, 3, 6, 0), flags: "" },
    Row { line: "A: B:: 5$: 1$:: NOP", labels: &[(LabelKind::Ordinary, 0, 1), (LabelKind::Global, 3, 4), (LabelKind::Local(5), 7, 9),
        (LabelKind::Local(1), 11, 13)], body: (Operates, 16, 19, 0), flags: "" },
    Row { line: "A:B:", labels: &[(LabelKind::Ordinary, 0, 1), (LabelKind::Ordinary, 2, 3)], body: (Nothing, 0, 0, 0), flags: "" },
    Row { line: "A : NOP", labels: &[], body: (Operates, 0, 1, 0), flags: "" },
    Row { line: ".: NOP", labels: &[], body: (Words, 0, 0, 0), flags: "" },
    Row { line: "$.: NOP", labels: &[(LabelKind::Ordinary, 0, 2)], body: (Operates, 4, 7, 0), flags: "" },
    Row { line: ".ENDM:", labels: &[(LabelKind::Ordinary, 0, 5)], body: (Nothing, 0, 0, 0), flags: "" },
    Row { line: "X: .ENDM", labels: &[(LabelKind::Ordinary, 0, 1)], body: (Operates, 3, 8, 0), flags: "" },
    Row { line: "L'A: .ENDM", labels: &[], body: (Operates, 0, 1, 0), flags: "" },
    Row { line: "5A: NOP", labels: &[], body: (Words, 0, 0, 0), flags: "" },
    Row { line: "12.: NOP", labels: &[], body: (Words, 0, 0, 0), flags: "" },
    Row { line: "65535$: NOP", labels: &[(LabelKind::Local(65535), 0, 6)], body: (Operates, 8, 11, 0), flags: "" },
    Row { line: "007$: NOP", labels: &[(LabelKind::Local(7), 0, 4)], body: (Operates, 6, 9, 0), flags: "" },
    Row { line: "0$: NOP", labels: &[(LabelKind::Outside, 0, 2)], body: (Operates, 4, 7, 0), flags: "A" },
    Row { line: "70000$: A:", labels: &[(LabelKind::Outside, 0, 6), (LabelKind::Ordinary, 8, 9)], body: (Nothing, 0, 0, 0), flags: "A" },
    Row { line: "65536$: 131073$:", labels: &[(LabelKind::Outside, 0, 6), (LabelKind::Outside, 8, 15)], body: (Nothing, 0, 0, 0),
        flags: "A" },
    // forms of what follows the labels
    Row { line: "", labels: &[], body: (Nothing, 0, 0, 0), flags: "" },
    Row { line: " \t;x", labels: &[], body: (Nothing, 0, 0, 0), flags: "" },
    Row { line: "X=", labels: &[], body: (Assigns, 0, 1, 2), flags: "" },
    Row { line: "A: X == 5", labels: &[(LabelKind::Ordinary, 0, 1)], body: (AssignsGlobally, 3, 4, 7), flags: "" },
    Row { line: "A=:5", labels: &[], body: (Assigns, 0, 1, 2), flags: "" },
    Row { line: ".ENDM=5", labels: &[], body: (Assigns, 0, 5, 6), flags: "" },
    Row { line: ".ASCII =x=", labels: &[], body: (Assigns, 0, 6, 8), flags: "" },
    Row { line: ".=.+4", labels: &[], body: (SetsCounter, 2, 0, 0), flags: "" },
    Row { line: ". = 5", labels: &[], body: (SetsCounter, 3, 0, 0), flags: "" },
    Row { line: ".==.+4", labels: &[], body: (Words, 0, 0, 0), flags: "" },
    Row { line: "=5", labels: &[], body: (Words, 0, 0, 0), flags: "" },
    Row { line: "5$=3", labels: &[], body: (Words, 0, 0, 0), flags: "" },
    Row { line: " ,5", labels: &[], body: (Words, 1, 0, 0), flags: "" },
    Row { line: ")", labels: &[], body: (Words, 0, 0, 0), flags: "" },
    Row { line: "#5", labels: &[], body: (Words, 0, 0, 0), flags: "" },
    Row { line: "A: 5,6", labels: &[(LabelKind::Ordinary, 0, 1)], body: (Words, 3, 0, 0), flags: "" },
    Row { line: "FOO 5", labels: &[], body: (Operates, 0, 3, 0), flags: "" },
    Row { line: ".ASCII :xy:", labels: &[], body: (Operates, 0, 6, 0), flags: "" },
    Row { line: "RETURNS", labels: &[], body: (Operates, 0, 7, 0), flags: "" },
    Row { line: ".radixx 10", labels: &[], body: (Operates, 0, 7, 0), flags: "" },
    Row { line: "a: mov r1,r2", labels: &[(LabelKind::Ordinary, 0, 1)], body: (Operates, 3, 6, 0), flags: "" },
    // skipped characters, and the same characters inside tokens, texts and comments
    Row { line: "?", labels: &[], body: (Nothing, 0, 0, 0), flags: "" },
    Row { line: "A: ?", labels: &[(LabelKind::Ordinary, 0, 1)], body: (Nothing, 0, 0, 0), flags: "" },
    Row { line: "? A: NOP", labels: &[(LabelKind::Ordinary, 2, 3)], body: (Operates, 5, 8, 0), flags: "I" },
    Row { line: "A:? B: ? NOP", labels: &[(LabelKind::Ordinary, 0, 1), (LabelKind::Ordinary, 4, 5)], body: (Operates, 9, 12, 0),
        flags: "I" },
    Row { line: "A?: NOP", labels: &[], body: (Operates, 0, 1, 0), flags: "" },
    Row { line: "NOP ?", labels: &[], body: (Operates, 0, 3, 0), flags: "" },
    Row { line: "? NOP ?", labels: &[], body: (Operates, 2, 5, 0), flags: "" },
    Row { line: ".TITLE X ?", labels: &[], body: (Operates, 0, 6, 0), flags: "" },
    Row { line: ".ASCII /?/", labels: &[], body: (Operates, 0, 6, 0), flags: "" },
    Row { line: "X=?5", labels: &[], body: (Assigns, 0, 1, 2), flags: "" },
    Row { line: "X ?= 5", labels: &[], body: (Operates, 0, 1, 0), flags: "" },
    Row { line: "?X=5", labels: &[], body: (Assigns, 1, 2, 3), flags: "" },
    Row { line: ".=5\\", labels: &[], body: (SetsCounter, 2, 0, 0), flags: "" },
    Row { line: "5 ^F1", labels: &[], body: (Words, 0, 0, 0), flags: "" },
    Row { line: "'? \"\\?", labels: &[], body: (Words, 0, 0, 0), flags: "" },
    Row { line: "5 ;?", labels: &[], body: (Words, 0, 0, 0), flags: "" },
];

fn shape_of(body: Body) -> (Shape, u8, u8, u8) {
    match body {
        Body::Nothing => (Nothing, 0, 0, 0),
        Body::Assign(assignment) => {
            let shape = if assignment.is_global {
                AssignsGlobally
            } else {
                Assigns
            };
            (
                shape,
                assignment.name.start,
                assignment.name.end,
                assignment.value,
            )
        }
        Body::SetCounter(value) => (SetsCounter, value, 0, 0),
        Body::Operate(name) => (Operates, name.start, name.end, 0),
        Body::Words(start) => (Words, start, 0, 0),
    }
}

pub(crate) fn label_of(label: &Label) -> (LabelKind, u8, u8) {
    (label.kind, label.name.start, label.name.end)
}

#[test]
fn lines_say_labels_and_what_stands_after_them(rt: HostRuntime) {
    for row in &ROWS {
        let line = Line::from_bytes(row.line.as_bytes());
        let found = statement(&line);
        let labels = labels_of(&line);
        same(&rt, &row.line, &labels.len(), &row.labels.len());
        for (label, wanted) in labels.iter().zip(row.labels) {
            equal(&rt, &row.line, &label_of(label), wanted);
        }
        equal(&rt, &row.line, &shape_of(found.body), &row.body);
        let flags = found.label_flags.text();
        same(&rt, &row.line, &flags.as_slice(), &row.flags.as_bytes());
    }
}
