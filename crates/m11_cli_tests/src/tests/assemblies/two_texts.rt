//! Assemblies whose second pass reads another text: names, sizes and sections are those of the first text, words those of the second.
//! Sections of the two texts are the same if their names are. The flags of `.END` that don't depend on names are those of the second text.

use super::{
    DIRECTORY, END_OF_GSD, END_OF_MODULE, IN_BLANK_SECTION, SOUND, TRANSFER, Wanted,
    assemble_texts, left,
};
use m11_asm::AsmFault;
use std::process::Abort;
use std::test::Fail;

// The texts of the first and the second pass, and the expected outputs: the object, or only its end if the listing isn't compared; the
// lines of the listing, none if it isn't compared; and the messages.
type Row = (
    &'static str,
    &'static str,
    &'static [&'static [u8]],
    &'static [&'static str],
    &'static [&'static str],
);

// A label at a different location from that in the first text.
#[rattlefmt::skip]
const ELSEWHERE: Row = (
    ".WORD 1\nA: .WORD 2\n.END\n",
    "A: .WORD 2\n.END\n",
    &[
        DIRECTORY, &[0x04, 0x00], TRANSFER, &[0x3C],
        END_OF_GSD,
        IN_BLANK_SECTION,
        &[0x01, 0x00, 0x0A, 0x00, 0x03, 0x00, 0x00, 0x00, 0x02, 0x00, 0xF0],
        END_OF_MODULE,
    ],
    &[
        "P        1 000000 000002                  A: .WORD 2",
        "         2 000002                         .END",
        "",
        "SYMBOL TABLE",
        "A        000002 R    1",
        "",
        ". ABS. 000000   0 RW,I,GBL,ABS,OVR",
        "       000004   1 RW,I,LCL,REL,CON",
        "",
        "ERRORS DETECTED: 1",
    ],
    &["P 1: A: .WORD 2", "ERRORS DETECTED: 1"],
);

// A local label at a different location from that in the first text.
#[rattlefmt::skip]
const LOCAL_ELSEWHERE: Row = (
    "NOP\n1$: BR 1$\n.END\n",
    "1$: BR 1$\n.END\n",
    &[
        DIRECTORY, &[0x04, 0x00], TRANSFER, &[0x3C],
        END_OF_GSD,
        IN_BLANK_SECTION,
        &[0x01, 0x00, 0x0A, 0x00, 0x03, 0x00, 0x00, 0x00, 0xFF, 0x01, 0xF2],
        END_OF_MODULE,
    ],
    &[
        "P        1 000000 000777                  1$: BR 1$",
        "         2 000002                         .END",
        "",
        "SYMBOL TABLE",
        "",
        ". ABS. 000000   0 RW,I,GBL,ABS,OVR",
        "       000004   1 RW,I,LCL,REL,CON",
        "",
        "ERRORS DETECTED: 1",
    ],
    &["P 1: 1$: BR 1$", "ERRORS DETECTED: 1"],
);

// A name that the first pass didn't read refers to a global, which the directory and the symbol table leave out.
#[rattlefmt::skip]
const UNMET: Row = (
    ".WORD 1\n.END\n",
    ".WORD Q\n.END\n",
    &[
        DIRECTORY, &[0x02, 0x00], TRANSFER, &[0x3E],
        END_OF_GSD,
        IN_BLANK_SECTION,
        &[0x01, 0x00, 0x0A, 0x00, 0x03, 0x00, 0x00, 0x00, 0x00, 0x00, 0xF2],
        &[0x01, 0x00, 0x0C, 0x00, 0x04, 0x00, 0x02, 0x04, 0x40, 0x6A, 0x00, 0x00, 0x3F],
        END_OF_MODULE,
    ],
    &[
        "         1 000000 000000G                 .WORD Q",
        "         2 000002                         .END",
        "",
        "SYMBOL TABLE",
        "",
        ". ABS. 000000   0 RW,I,GBL,ABS,OVR",
        "       000002   1 RW,I,LCL,REL,CON",
        "",
        "ERRORS DETECTED: 0",
    ],
    &["ERRORS DETECTED: 0"],
);

// The end of an object in which the base of P relocates a word of the blank section.
#[rattlefmt::skip]
const MOVED_BY_P: &[&[u8]] = &[
    &[0x01, 0x00, 0x0A, 0x00, 0x03, 0x00, 0x00, 0x00, 0x00, 0x00, 0xF2],
    &[0x01, 0x00, 0x0C, 0x00, 0x04, 0x00, 0x0A, 0x04, 0x00, 0x64, 0x00, 0x00, 0x7D],
    END_OF_MODULE,
];

// The end of an object with a word, an operand and a branch of Q whose targets are in P: a linker adds the base of P to the word, and makes
// the operand the displacement to that base. The branch has a flag instead.
#[rattlefmt::skip]
const IN_Q: &[&[u8]] = &[
    &[0x01, 0x00, 0x0E, 0x00, 0x04, 0x00, 0x07, 0x00, 0x40, 0x6A, 0x00, 0x00, 0x00, 0x00, 0x3C],
    &[0x01, 0x00, 0x10, 0x00, 0x03, 0x00, 0x00, 0x00, 0x00, 0x00, 0x37, 0x0A, 0x00, 0x00, 0x00, 0x01, 0xAA],
    &[0x01, 0x00, 0x12, 0x00, 0x04, 0x00, 0x0A, 0x04, 0x00, 0x64, 0x00, 0x00, 0x0C, 0x08, 0x00, 0x64, 0x00, 0x00, 0xFF],
    END_OF_MODULE,
];

const END: &[&[u8]] = &[END_OF_MODULE];

#[rattlefmt::skip]
static ROWS: [Row; 20] = [
    ELSEWHERE,
    LOCAL_ELSEWHERE,
    UNMET,
    // values relative to P, which has another number in the second text, or is missing there
    (".PSECT P\nA: NOP\n.PSECT Q\nB: NOP\n.END\n", ".PSECT Q\n.PSECT P\n.PSECT\n.WORD A\n.END\n", MOVED_BY_P, &[], &["ERRORS DETECTED: 0"]),
    (".PSECT P\nA: NOP\n.PSECT Q\nB: NOP\n.END\n", ".PSECT Q\n.WORD A\nCLR A\nBR A\n.END\n", IN_Q, &[], &["A 4: BR A", "ERRORS DETECTED: 1"]),
    (".PSECT P\nA: NOP\n.END\n", ".PSECT Z\n.PSECT\n.WORD A\n.END\n", MOVED_BY_P, &[], &["ERRORS DETECTED: 0"]),
    // a label in another section
    (".PSECT P\nA: NOP\n.END\n", ".PSECT Q\nA: NOP\n.END\n", END, &[], &["P 2: A: NOP", "ERRORS DETECTED: 1"]),
    // a label in the same section, though the section has another number in the second text
    (".PSECT P\nA: NOP\n.END\n", ".PSECT Z\n.PSECT P\nA: NOP\n.END\n", END, &[], &["ERRORS DETECTED: 0"]),
    // a label in another absolute section
    (".ASECT\nA: NOP\n.END\n", ".PSECT Z,ABS\nA: NOP\n.END\n", END, &[], &["P 2: A: NOP", "ERRORS DETECTED: 1"]),
    // a label at the same location of another section
    (".PSECT X\nA: NOP\n.END\n", "A: NOP\n.END\n", END, &[], &["P 1: A: NOP", "ERRORS DETECTED: 1"]),
    (".ASECT\nA: NOP\n.END\n", "A: NOP\n.END\n", END, &[], &["P 1: A: NOP", "ERRORS DETECTED: 1"]),
    // a label that the first text doesn't define, and one of two labels of a line
    ("NOP\n.END\n", "A: NOP\n.END\n", END, &[], &["P 1: A: NOP", "ERRORS DETECTED: 1"]),
    ("A: NOP\nB:\n.END\n", "A: B: NOP\n.END\n", END, &[], &["P 1: A: B: NOP", "ERRORS DETECTED: 1"]),
    // a label whose name is only assigned in the first text
    ("A=0\n.END\n", "A: NOP\n.END\n", END, &[], &["P 1: A: NOP", "ERRORS DETECTED: 1"]),
    ("A=5\n.END\n", ".ASECT\n.=5\nA: .BYTE 1\n.END\n", END, &[], &["P 3: A: .BYTE 1", "ERRORS DETECTED: 1"]),
    // flags of `.END` that don't depend on names: a digit that isn't octal, and a missing operand
    (".END 10\n", ".END 18\n", END, &[], &["N 1: .END 18", "ERRORS DETECTED: 1"]),
    (".END 18\n", ".END 10\n", END, &[], &["ERRORS DETECTED: 0"]),
    ("A: NOP\n.END A\n", "A: NOP\n.END A+\n", END, &[], &["Q 2: .END A+", "ERRORS DETECTED: 1"]),
    // flags of `.END` that depend on names, which are those of the first text
    (".END Q\n", ".END\n", END, &[], &["U 1: .END", "ERRORS DETECTED: 1"]),
    (".END R1*R1\n", ".END Q\n", END, &[], &["R 1: .END Q", "ERRORS DETECTED: 1"]),
];

// Checks that the outputs of each row are the expected ones.
fn leave_what_is_wanted(rt: &(impl Abort + AllocGlobal), rows: &[Row]) -> Result<(), Fail> {
    for row in rows {
        let (first, second, object, listed, reported) = *row;
        let wanted = Wanted {
            object,
            listed,
            reported,
        };
        let found = assemble_texts(rt.alloc(), [first, second], SOUND, usize::MAX);
        let shown = left(rt, second, &found, wanted);
        drop(found);
        shown?;
    }
    Ok(())
}

#[test]
fn the_second_text_is_written_under_what_the_first_one_gave(rt: HostRuntime) -> Result<(), Fail> {
    leave_what_is_wanted(&rt, &ROWS)
}

// A text that follows 4,096 definitions in a second pass, whose first pass has no lines; and the fault of the assembly, if it has one.
static DEFINITIONS: [(&str, Option<AsmFault>); 3] = [
    // names that are only used, or defined again
    (".WORD Y,Z\nA7776: X=1\n.END\n", None),
    ("Y:\n.END\n", Some(AsmFault::TooManySymbols)),
    ("Y=1\n.END\n", Some(AsmFault::TooManySymbols)),
];

// 4,096 definitions: each of the 4,095 rounds defines a name, and X is one more.
const ROUNDS: &str = ".MACRO DEFINE N\nA'N=0\n.ENDM\nX=0\n.REPT 7777\nDEFINE \\X\nX=X+1\n.ENDR\n";

#[test]
fn a_second_pass_has_4096_definitions(rt: HostRuntime) -> Result<(), Fail> {
    for (rest, fault) in &DEFINITIONS {
        let text = format!(in rt.alloc(); "{ROUNDS}{rest}")?;
        let found = assemble_texts(rt.alloc(), ["", text.as_str()], SOUND, usize::MAX);
        drop(text);
        let outcome = found.outcome;
        drop(found);
        assert_eq!(&rt; outcome.err(), *fault, "{rest}");
    }
    Ok(())
}
