//! Assemblies in which each read and each write fails in turn, and outputs that accept nothing.

use super::{
    Assembled, Broken, DIRECTORY, Device, END_OF_GSD, END_OF_MODULE, IN_BLANK_SECTION, SOUND,
    TRANSFER, Wanted, assemble_texts, left,
};
use m11_asm::AsmFault;
use m11_base_writes::Output;
use std::alloc::Global;
use std::process::Abort;
use std::test::Fail;

impl Device {
    // The fault of an assembly in which the device fails.
    fn fault(self) -> AsmFault {
        match self {
            Device::First | Device::Second => AsmFault::Read,
            Device::Output(output) => AsmFault::Write(output),
        }
    }

    // Whether an assembly of a source without flags may have left these outputs when the device failed: nothing if it failed in the first
    // pass; otherwise a prefix of the object and of the listing, and messages only after the whole of both.
    fn leaves(self, found: &Assembled, whole: &Assembled) -> bool {
        match self {
            Device::First => is_empty(found),
            Device::Output(Output::Messages) => {
                begins(found, whole)
                    && found.object.len() == whole.object.len()
                    && found.listing.len() == whole.listing.len()
            }
            Device::Second | Device::Output(_) => {
                begins(found, whole) && found.messages.is_empty()
            }
        }
    }
}

// Whether all outputs are empty.
fn is_empty(found: &Assembled) -> bool {
    found.object.is_empty() && found.listing.is_empty() && found.messages.is_empty()
}

// Whether each output is a prefix of the same output of the whole assembly.
fn begins(found: &Assembled, whole: &Assembled) -> bool {
    whole.object.as_slice().starts_with(found.object.as_slice())
        && whole
            .listing
            .as_slice()
            .starts_with(found.listing.as_slice())
        && whole
            .messages
            .as_slice()
            .starts_with(found.messages.as_slice())
}

const ONE_WORD: &str = ".WORD 1\n.END\n";

const ONE_WORD_ASSEMBLED: Wanted<'static> = Wanted {
    object: &[
        DIRECTORY,
        &[0x02, 0x00],
        TRANSFER,
        &[0x3E],
        END_OF_GSD,
        IN_BLANK_SECTION,
        &[
            0x01, 0x00, 0x0A, 0x00, 0x03, 0x00, 0x00, 0x00, 0x01, 0x00, 0xF1,
        ],
        END_OF_MODULE,
    ],
    listed: &[
        "         1 000000 000001                  .WORD 1",
        "         2 000002                         .END",
        "",
        "SYMBOL TABLE",
        "",
        ". ABS. 000000   0 RW,I,GBL,ABS,OVR",
        "       000002   1 RW,I,LCL,REL,CON",
        "",
        "ERRORS DETECTED: 0",
    ],
    reported: &["ERRORS DETECTED: 0"],
};

// A source with a label generated for each macro call, a repeat block, and a conditional block.
const TWICE: &str = ".MACRO TWICE ?L\n\
    L: BR L\n\
    .REPT 3\n\
    .WORD 7\n\
    .ENDR\n\
    .ENDM\n\
    TWICE\n\
    TWICE\n\
    .IF DF X\n\
    .WORD 1\n\
    .ENDC\n\
    X: .WORD 2\n\
    .END\n";

const TWICE_ASSEMBLED: Wanted<'static> = Wanted {
    object: &[
        DIRECTORY,
        &[0x12, 0x00],
        TRANSFER,
        &[0x2E],
        END_OF_GSD,
        IN_BLANK_SECTION,
        &[
            0x01, 0x00, 0x1A, 0x00, 0x03, 0x00, 0x00, 0x00, 0xFF, 0x01, 0x07, 0x00, 0x07, 0x00,
            0x07, 0x00, 0xFF, 0x01, 0x07, 0x00, 0x07, 0x00, 0x07, 0x00, 0x02, 0x00, 0xB6,
        ],
        END_OF_MODULE,
    ],
    listed: &[
        "         1 000000                         .MACRO TWICE ?L",
        "         7 000000                         TWICE",
        "         8 000010                         TWICE",
        "         9 000020                         .IF DF X",
        "        11 000020                         .ENDC",
        "        12 000020 000002                  X: .WORD 2",
        "        13 000022                         .END",
        "",
        "SYMBOL TABLE",
        "X        000020 R    1",
        "",
        ". ABS. 000000   0 RW,I,GBL,ABS,OVR",
        "       000022   1 RW,I,LCL,REL,CON",
        "",
        "ERRORS DETECTED: 0",
    ],
    reported: &["ERRORS DETECTED: 0"],
};

// A device, the greatest number of bytes that an output accepts in a call, and the number of calls of the device in an assembly. The last
// call of the object and of the listing is the flush. No source is read after its last byte.
type Failing = (Device, usize, u64);

static ONE_WORD_FAILING: [Failing; 8] = [
    (Device::First, 512, 13),
    (Device::Second, 512, 13),
    (Device::Output(Output::Product), 512, 6),
    (Device::Output(Output::Product), 7, 14),
    (Device::Output(Output::Report), 512, 10),
    (Device::Output(Output::Report), 7, 34),
    (Device::Output(Output::Messages), 512, 1),
    (Device::Output(Output::Messages), 7, 3),
];

static TWICE_FAILING: [Failing; 8] = [
    (Device::First, 512, 103),
    (Device::Second, 512, 103),
    (Device::Output(Output::Product), 512, 6),
    (Device::Output(Output::Product), 7, 16),
    (Device::Output(Output::Report), 512, 16),
    (Device::Output(Output::Report), 7, 76),
    (Device::Output(Output::Messages), 512, 1),
    (Device::Output(Output::Messages), 7, 3),
];

// Checks that an assembly whose device failed ended with the device's fault, and wrote only a prefix of its outputs. If memory was
// refused, the test fails at once.
fn ended_early(
    rt: &impl Abort,
    found: &Assembled,
    whole: &Assembled,
    broken: Broken,
) -> Result<(), Fail> {
    let Broken { device, calls } = broken;
    if found.outcome == Err(AsmFault::NoMemory) {
        return Err(Fail::new("no memory"));
    }
    assert!(rt;
        found.outcome == Err(device.fault()),
        "{device:?}: the fault after {calls} calls"
    );
    assert!(rt;
        device.leaves(found, whole),
        "{device:?}: what was written after {calls} calls"
    );
    Ok(())
}

// Checks that a whole assembly has the expected outputs, and that each assembly in which the device fails at an earlier call ends early.
fn fails_in_turn(
    rt: &(impl Abort + AllocGlobal),
    source: &str,
    row: Failing,
    wanted: Wanted<'_>,
    whole: &Assembled,
) -> Result<(), Fail> {
    left(rt, source, whole, wanted)?;
    let (device, most, all) = row;
    for calls in 0..all {
        let broken = Broken { device, calls };
        let found = assemble_texts(rt.alloc(), [source, source], broken, most);
        let shown = ended_early(rt, &found, whole, broken);
        drop(found);
        shown?;
    }
    Ok(())
}

// Checks for the device of each row that the assembly of a source ends early, whichever call of the device fails.
fn devices_may_fail(
    rt: &(impl Abort + AllocGlobal),
    source: &str,
    wanted: Wanted<'_>,
    rows: &[Failing],
) -> Result<(), Fail> {
    for row in rows {
        let (device, most, calls) = *row;
        let whole = assemble_texts(rt.alloc(), [source, source], Broken { device, calls }, most);
        let shown = fails_in_turn(rt, source, *row, wanted, &whole);
        drop(whole);
        shown?;
    }
    Ok(())
}

// Whether an assembly with a broken device ends with this fault and writes nothing.
fn leaves_nothing(alloc: Global, broken: Broken, most: usize, fault: AsmFault) -> bool {
    let found = assemble_texts(alloc, [ONE_WORD, ONE_WORD], broken, most);
    let shown = found.outcome == Err(fault) && is_empty(&found);
    drop(found);
    shown
}

#[test]
fn each_read_and_each_write_may_fail(rt: HostRuntime) -> Result<(), Fail> {
    devices_may_fail(&rt, ONE_WORD, ONE_WORD_ASSEMBLED, &ONE_WORD_FAILING)?;
    devices_may_fail(&rt, TWICE, TWICE_ASSEMBLED, &TWICE_FAILING)?;
    // In one assembly the first read of the second pass fails, in another the outputs accept nothing: both write nothing.
    let second = Broken {
        device: Device::Second,
        calls: 0,
    };
    let product = AsmFault::Write(Output::Product);
    assert!(rt; leaves_nothing(rt.alloc(), second, 512, AsmFault::Read));
    assert!(rt; leaves_nothing(rt.alloc(), SOUND, 0, product));
    Ok(())
}
