//! The object and the listing while the second pass goes on: the pass's source fails after each line, and what was written is complete up
//! to there.

use super::{Broken, Device, assemble_texts};
use m11_asm::{AsmFault, First};
use std::alloc::Global;
use std::test::Fail;

// The number of bytes up to the end of a line, and the lengths in bytes of the object and the listing that are then written.
type Growing = &'static [(u64, usize, usize)];

// Texts, each with a row for each line; at the end of the last line the whole is written. A line of a listing has 42 characters before
// its text, a further line of three items has 40 characters, and each ends with a line feed. After all lines come 105 bytes, and a line for
// each name.
#[rattlefmt::skip]
static GROWING: [(&str, Growing); 3] = [
    // a text of the object is full, and is written when the next byte comes; ten further lines have the items after the third
    (".ASCII /AAAAAAAAAAAAAAAAAAAAAAAAAAAAAAAA/\n.BYTE 1\n.BYTE 2\n.END\n",
        &[(42, 46, 486), (50, 102, 536), (58, 102, 586), (63, 120, 738)]),
    // a text of the object ends if the location moves; lines of bodies and of expansions aren't listed
    (".TITLE T\n.MACRO M A\nA: .WORD B'A\n.ENDM\nM X\n.IF DF X\n.=.+2\n.ENDC\nB1: MOV #B1,@Q\n.END B1\n",
        &[(9, 62, 51), (20, 62, 104), (33, 62, 104), (39, 62, 104), (43, 62, 150), (52, 62, 201), (58, 62, 249), (64, 62, 297),
            (79, 101, 354), (87, 140, 593)]),
    // the third line has a further line of items
    (".WORD 1\nNOP\n.WORD 1,2,3,4\n.END\n",
        &[(8, 46, 50), (12, 46, 96), (26, 46, 177), (31, 89, 329)]),
];

// The lengths of the object and the listing if the source of the second pass fails after this number of bytes; None if memory was refused.
fn written_after(alloc: Global, text: &str, calls: u64) -> Option<(usize, usize)> {
    let device = Device::Second;
    let found = assemble_texts(alloc, [text, text], Broken { device, calls }, usize::MAX);
    let lengths = match found.outcome {
        Err(AsmFault::NoMemory) => None,
        _ => Some((found.object.len(), found.listing.len())),
    };
    drop(found);
    lengths
}

#[test]
fn outputs_are_complete_after_each_line(rt: HostRuntime) {
    for (text, rows) in &GROWING {
        for (calls, object, listing) in *rows {
            let found = written_after(rt.alloc(), text, *calls);
            assert_eq!(&rt;
                found,
                Some((*object, *listing)),
                "{text}: after {calls} bytes"
            );
        }
    }
}

#[test]
fn a_source_without_lines_has_symbols(rt: HostRuntime) -> Result<(), Fail> {
    let symbols = First::new(rt.alloc())?.end()?;
    drop(symbols);
    Ok(())
}
