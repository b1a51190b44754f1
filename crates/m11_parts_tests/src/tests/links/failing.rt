//! Links in which each feed and each output fails in turn, with outputs that accept many bytes a call or only one; and a link whose
//! outputs accept none.

use super::{
    Broken, DEFINES_F, Device, FIRST_OF_F, Linked, MAP_OF_F, NO_START, READS_F, SOUND, Wanted,
    done, linked_broken,
};
use m11_base_writes::Output;
use m11_link::LinkFault;
use std::alloc::Global;
use std::process::Abort;
use std::test::Fail;

impl Device {
    // The fault of a link in which the device fails.
    fn fault(self) -> LinkFault {
        match self {
            Device::Feed(_) => LinkFault::Read,
            Device::Output(output) => LinkFault::Write(output),
        }
    }
}

// Whether each output is a prefix of the same output of the whole link.
fn begins(linked: &Linked, whole: &Linked) -> bool {
    whole.tape.as_slice().starts_with(linked.tape.as_slice())
        && whole.map.as_slice().starts_with(linked.map.as_slice())
        && whole
            .messages
            .as_slice()
            .starts_with(linked.messages.as_slice())
}

// The expected outputs of a link of the modules that read F and define it.
const READS_F_LINKED: Wanted<'static> = Wanted {
    tape: &[
        FIRST_OF_F,
        &[0x01, 0x00, 0x07, 0x00, 0x08, 0x02, 0x01, 0xED],
        &[0x01, 0x00, 0x08, 0x00, 0x06, 0x02, 0x0A, 0x02, 0xE3],
        &[0x01, 0x00, 0x08, 0x00, 0x0A, 0x02, 0x07, 0x00, 0xE4],
        NO_START,
    ],
    map: MAP_OF_F,
    reported: &[],
};

// A module that defines X and refers to Q.
#[rattlefmt::skip]
const DEFINES_X_AND_REFERS_TO_Q: &[u8] = &[
    // The directory.
    0x01, 0x00, 0x36, 0x00, 0x01, 0x00,
    // The module's name, A.
    0x40, 0x06, 0x00, 0x00, 0x00, 0x00, 0x00, 0x00,
    // Section `. ABS.`: 0 bytes, flags octal 104.
    0x01, 0xAF, 0x94, 0x0F, 0x44, 0x05, 0x00, 0x00,
    // X is 1.
    0x00, 0x96, 0x00, 0x00, 0x08, 0x04, 0x01, 0x00,
    // A reference to Q.
    0x40, 0x6A, 0x00, 0x00, 0x00, 0x04, 0x00, 0x00,
    // The blank section: 2 bytes, flags octal 040.
    0x00, 0x00, 0x00, 0x00, 0x20, 0x05, 0x02, 0x00,
    // The transfer address: 1 in `. ABS.`.
    0x01, 0xAF, 0x94, 0x0F, 0x00, 0x03, 0x01, 0x00, 0x17,
    // The end of the directory.
    0x01, 0x00, 0x06, 0x00, 0x02, 0x00, 0xF7,
    // Texts go to the blank section.
    0x01, 0x00, 0x0E, 0x00, 0x04, 0x00, 0x07, 0x00, 0x00, 0x00, 0x00, 0x00, 0x00, 0x00, 0xE6,
    // A text of one word.
    0x01, 0x00, 0x0A, 0x00, 0x03, 0x00, 0x00, 0x00, 0x00, 0x00, 0xF2,
    // Its value is that of Q.
    0x01, 0x00, 0x0C, 0x00, 0x04, 0x00, 0x02, 0x04, 0x40, 0x6A, 0x00, 0x00, 0x3F,
    // The end of the module.
    0x01, 0x00, 0x06, 0x00, 0x06, 0x00, 0xF3,
];

// A module that defines X again.
#[rattlefmt::skip]
const DEFINES_X_AGAIN: &[u8] = &[
    // The directory.
    0x01, 0x00, 0x2E, 0x00, 0x01, 0x00,
    // The module's name, B.
    0x80, 0x0C, 0x00, 0x00, 0x00, 0x00, 0x00, 0x00,
    // Section `. ABS.`: 0 bytes, flags octal 104.
    0x01, 0xAF, 0x94, 0x0F, 0x44, 0x05, 0x00, 0x00,
    // X is 2.
    0x00, 0x96, 0x00, 0x00, 0x08, 0x04, 0x02, 0x00,
    // The blank section: 2 bytes, flags octal 040.
    0x00, 0x00, 0x00, 0x00, 0x20, 0x05, 0x02, 0x00,
    // The transfer address: 1 in `. ABS.`.
    0x01, 0xAF, 0x94, 0x0F, 0x00, 0x03, 0x01, 0x00, 0x86,
    // The end of the directory.
    0x01, 0x00, 0x06, 0x00, 0x02, 0x00, 0xF7,
    // Texts go to the blank section.
    0x01, 0x00, 0x0E, 0x00, 0x04, 0x00, 0x07, 0x00, 0x00, 0x00, 0x00, 0x00, 0x00, 0x00, 0xE6,
    // A text of the word 2.
    0x01, 0x00, 0x0A, 0x00, 0x03, 0x00, 0x00, 0x00, 0x02, 0x00, 0xF0,
    // The end of the module.
    0x01, 0x00, 0x06, 0x00, 0x06, 0x00, 0xF3,
];

// The expected outputs of a link of the two modules that define X, with two messages.
const WITH_MESSAGES: Wanted<'static> = Wanted {
    tape: &[
        &[0x01, 0x00, 0x08, 0x00, 0x00, 0x02, 0x00, 0x00, 0xF5],
        &[0x01, 0x00, 0x08, 0x00, 0x02, 0x02, 0x02, 0x00, 0xF1],
        NO_START,
    ],
    map: &[
        "SECTIONS",
        ". ABS. 000000 000000 RW,I,GBL,ABS,OVR",
        "       001000 000004 RW,I,LCL,REL,CON",
        "GLOBALS",
        "X      000001 A",
        "UNDEFINED",
        "Q",
        "TRANSFER 000001",
        "LIMIT 001000 001004",
    ],
    reported: &[
        "UNDEFINED GLOBAL Q",
        "MULTIPLE DEFINITION X      IN MODULE B",
    ],
};

// A device that fails, and the greatest number of bytes that an output accepts in a call.
type Failing = (Device, usize);

static FAILING: [Failing; 8] = [
    (Device::Feed(0), 512),
    (Device::Feed(1), 512),
    (Device::Feed(2), 512),
    (Device::Feed(3), 512),
    (Device::Output(Output::Product), 512),
    (Device::Output(Output::Product), 1),
    (Device::Output(Output::Report), 512),
    (Device::Output(Output::Report), 1),
];

static FAILING_MESSAGES: [Failing; 2] = [
    (Device::Output(Output::Messages), 512),
    (Device::Output(Output::Messages), 1),
];

// Checks that a link with a broken device either wrote a prefix of each output and ended with the device's fault, or wrote everything.
// Returns whether it wrote everything. If memory was refused, the test fails, and nothing more is checked.
fn ended_whole(
    rt: &impl Abort,
    linked: &Linked,
    whole: &Linked,
    broken: Broken,
) -> Result<bool, Fail> {
    let Broken { device, calls } = broken;
    if linked.outcome == Err(LinkFault::NoMemory) {
        return Err(Fail::new("no memory"));
    }
    assert!(rt;
        begins(linked, whole),
        "{device:?}: beginnings after {calls} calls"
    );
    match linked.outcome {
        Ok(_) => {
            assert!(rt;
                begins(whole, linked),
                "{device:?}: the outputs of a whole link"
            );
            Ok(true)
        }
        Err(fault) => {
            assert!(rt;
                fault == device.fault(),
                "{device:?}: the fault after {calls} calls"
            );
            Ok(false)
        }
    }
}

// Checks that a whole link has the expected outputs. Then lets a device fail after more and more calls, until a link ends without a
// failure, and checks how each link ended.
fn fails_in_turn(
    rt: &(impl Abort + AllocGlobal),
    files: [&[u8]; 2],
    row: Failing,
    wanted: Wanted<'_>,
    whole: &Linked,
) -> Result<(), Fail> {
    let (device, most) = row;
    assert!(rt; whole.outcome == done(wanted.reported), "the end");
    assert!(rt; whole.has(wanted), "what was written");
    for calls in 0..1_000 {
        let broken = Broken { device, calls };
        let linked = linked_broken(rt.alloc(), files, broken, most);
        let ended = ended_whole(rt, &linked, whole, broken);
        drop(linked);
        if ended? {
            return Ok(());
        }
    }
    assert!(rt; false, "{device:?}: a link without a failure");
    Ok(())
}

// Checks that the link of two files has the expected outputs, and that it ends correctly when the device of each row fails.
fn devices_may_fail(
    rt: &(impl Abort + AllocGlobal),
    files: [&[u8]; 2],
    wanted: Wanted<'_>,
    rows: &[Failing],
) -> Result<(), Fail> {
    for row in rows {
        let (_, most) = *row;
        let whole = linked_broken(rt.alloc(), files, SOUND, most);
        let shown = fails_in_turn(rt, files, *row, wanted, &whole);
        drop(whole);
        shown?;
    }
    Ok(())
}

// Whether a link whose outputs accept no byte fails at its first write, that of the map's first line.
fn fails_at_once(alloc: Global) -> bool {
    let linked = linked_broken(alloc, [READS_F, DEFINES_F], SOUND, 0);
    let nothing = Wanted {
        tape: &[],
        map: &[],
        reported: &[],
    };
    let shown = linked.outcome == Err(LinkFault::Write(Output::Report)) && linked.has(nothing);
    drop(linked);
    shown
}

#[test]
fn each_read_and_each_write_may_fail(rt: HostRuntime) -> Result<(), Fail> {
    devices_may_fail(&rt, [READS_F, DEFINES_F], READS_F_LINKED, &FAILING)?;
    let with_messages = [DEFINES_X_AND_REFERS_TO_Q, DEFINES_X_AGAIN];
    devices_may_fail(&rt, with_messages, WITH_MESSAGES, &FAILING_MESSAGES)?;
    assert!(rt; fails_at_once(rt.alloc()));
    Ok(())
}
