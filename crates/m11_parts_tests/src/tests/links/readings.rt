//! Links that no command line asks for: with other objects in the second pass, with odd bottoms and bottoms above octal 157776, and
//! without files. Bases, values and first attributes are those of the first pass.

use super::{
    DEFINES_F, FIRST_OF_F, Linked, MAP_OF_F, NO_START, READS_F, SOUND, Wanted, done, link_feeds,
};
use m11_base::{FuseFeed, MemoryFeed};
use m11_link::LinkFault;
use m11_obj::BlockFault;
use std::alloc::{AllocError, Global};
use std::process::Abort;
use std::test::Fail;

// The first block of the module that defines F, with another module name but the checksum of the original block.
#[rattlefmt::skip]
const DEFINES_F_CHANGED: &[u8] = &[
    // The directory.
    0x01, 0x00, 0x3E, 0x00, 0x01, 0x00,
    0x81, 0x0C, 0x00, 0x00, 0x00, 0x00, 0x00, 0x00,
    // Section `. ABS.`: 0 bytes, flags octal 104.
    0x01, 0xAF, 0x94, 0x0F, 0x44, 0x05, 0x00, 0x00,
    // The blank section: 0 bytes, flags octal 040.
    0x00, 0x00, 0x00, 0x00, 0x20, 0x05, 0x00, 0x00,
    // Section DATA: 4 bytes, flags octal 040.
    0x3C, 0x19, 0x40, 0x06, 0x20, 0x05, 0x04, 0x00,
    // Section PROG: 2 bytes, flags octal 040.
    0xDF, 0x66, 0xC0, 0x2B, 0x20, 0x05, 0x02, 0x00,
    // F is 0 in PROG, the section entered last.
    0x80, 0x25, 0x00, 0x00, 0x28, 0x04, 0x00, 0x00,
    // The transfer address: 1 in `. ABS.`.
    0x01, 0xAF, 0x94, 0x0F, 0x00, 0x03, 0x01, 0x00, 0x30,
];

// Five modules without texts, which enter sections; the first also has a transfer address.
#[rattlefmt::skip]
const ODD_TRANSFER_VALUE: &[u8] = &[
    // The directory.
    0x01, 0x00, 0x16, 0x00, 0x01, 0x00,
    // The blank section: 2 bytes, flags octal 040.
    0x00, 0x00, 0x00, 0x00, 0x20, 0x05, 0x02, 0x00,
    // The transfer address: 1 in the blank section.
    0x00, 0x00, 0x00, 0x00, 0x00, 0x03, 0x01, 0x00, 0xBD,
    // The end of the directory.
    0x01, 0x00, 0x06, 0x00, 0x02, 0x00, 0xF7,
    // The end of the module.
    0x01, 0x00, 0x06, 0x00, 0x06, 0x00, 0xF3,
];

#[rattlefmt::skip]
const EMPTY_SECTION: &[u8] = &[
    // The directory.
    0x01, 0x00, 0x0E, 0x00, 0x01, 0x00,
    // The blank section: 0 bytes, flags octal 040.
    0x00, 0x00, 0x00, 0x00, 0x20, 0x05, 0x00, 0x00, 0xCB,
    // The end of the directory.
    0x01, 0x00, 0x06, 0x00, 0x02, 0x00, 0xF7,
    // The end of the module.
    0x01, 0x00, 0x06, 0x00, 0x06, 0x00, 0xF3,
];

#[rattlefmt::skip]
const OF_PROG: &[u8] = &[
    // The directory.
    0x01, 0x00, 0x16, 0x00, 0x01, 0x00,
    // The module's name, A.
    0x40, 0x06, 0x00, 0x00, 0x00, 0x00, 0x00, 0x00,
    // Section PROG: 0 bytes, flags octal 040.
    0xDF, 0x66, 0xC0, 0x2B, 0x20, 0x05, 0x00, 0x00, 0x4D,
    // The end of the directory.
    0x01, 0x00, 0x06, 0x00, 0x02, 0x00, 0xF7,
    // The end of the module.
    0x01, 0x00, 0x06, 0x00, 0x06, 0x00, 0xF3,
];

#[rattlefmt::skip]
const OF_PROG_TO_READ: &[u8] = &[
    // The directory.
    0x01, 0x00, 0x16, 0x00, 0x01, 0x00,
    // The module's name, A.
    0x40, 0x06, 0x00, 0x00, 0x00, 0x00, 0x00, 0x00,
    // Section PROG: 0 bytes, flags octal 060, which make it read-only.
    0xDF, 0x66, 0xC0, 0x2B, 0x30, 0x05, 0x00, 0x00, 0x3D,
    // The end of the directory.
    0x01, 0x00, 0x06, 0x00, 0x02, 0x00, 0xF7,
    // The end of the module.
    0x01, 0x00, 0x06, 0x00, 0x06, 0x00, 0xF3,
];

#[rattlefmt::skip]
const OF_PROG_AND_DATA: &[u8] = &[
    // The directory.
    0x01, 0x00, 0x1E, 0x00, 0x01, 0x00,
    // The module's name, A.
    0x40, 0x06, 0x00, 0x00, 0x00, 0x00, 0x00, 0x00,
    // Section PROG: 0 bytes, flags octal 040.
    0xDF, 0x66, 0xC0, 0x2B, 0x20, 0x05, 0x00, 0x00,
    // Section DATA: 0 bytes, flags octal 040.
    0x3C, 0x19, 0x40, 0x06, 0x20, 0x05, 0x00, 0x00, 0x85,
    // The end of the directory.
    0x01, 0x00, 0x06, 0x00, 0x02, 0x00, 0xF7,
    // The end of the module.
    0x01, 0x00, 0x06, 0x00, 0x06, 0x00, 0xF3,
];

const MAP_OF_PROG: &[&str] = &[
    "SECTIONS",
    "PROG   001000 000000 RW,I,LCL,REL,CON",
    "GLOBALS",
    "UNDEFINED",
    "TRANSFER 000001",
    "LIMIT 001000 001000",
];

const MAP_FROM_1001: &[&str] = &[
    "SECTIONS",
    "       001001 000002 RW,I,LCL,REL,CON",
    "GLOBALS",
    "UNDEFINED",
    "TRANSFER 001002",
    "LIMIT 001001 001003",
];

const MAP_OF_NOTHING: &[&str] = &[
    "SECTIONS",
    "GLOBALS",
    "UNDEFINED",
    "TRANSFER 000001",
    "LIMIT 001000 001000",
];

// The bytes of each file of objects.
type Files<'a> = &'a [&'a [u8]];

// A link: what it shows, the files of the first pass and of the second, the bottom, its fault, if any, and its outputs.
#[derive(Clone, Copy)]
struct Row<'a> {
    shows: &'a str,
    first: Files<'a>,
    second: Files<'a>,
    bottom: u16,
    fault: Option<LinkFault>,
    leaves: Wanted<'a>,
}

static ROWS: [Row<'static>; 6] = [
    Row {
        shows: "a second pass that differs is refused where it does",
        first: &[READS_F, DEFINES_F],
        second: &[READS_F, DEFINES_F_CHANGED],
        bottom: 0o1000,
        fault: Some(LinkFault::Block(BlockFault::BadSum)),
        leaves: Wanted {
            tape: &[FIRST_OF_F],
            map: MAP_OF_F,
            reported: &[],
        },
    },
    Row {
        shows: "a section that only the second pass enters gives no message",
        first: &[OF_PROG],
        second: &[OF_PROG_AND_DATA],
        bottom: 0o1000,
        fault: None,
        leaves: Wanted {
            tape: &[NO_START],
            map: MAP_OF_PROG,
            reported: &[],
        },
    },
    Row {
        shows: "attributes are compared with those of the first pass",
        first: &[OF_PROG],
        second: &[OF_PROG_TO_READ],
        bottom: 0o1000,
        fault: None,
        leaves: Wanted {
            tape: &[NO_START],
            map: MAP_OF_PROG,
            reported: &["DIFFERENT ATTRIBUTES PROG   IN MODULE A"],
        },
    },
    Row {
        shows: "the transfer address is even where its base is added",
        first: &[ODD_TRANSFER_VALUE],
        second: &[ODD_TRANSFER_VALUE],
        bottom: 0o1001,
        fault: None,
        leaves: Wanted {
            tape: &[&[0x01, 0x00, 0x06, 0x00, 0x02, 0x02, 0xF5]],
            map: MAP_FROM_1001,
            reported: &[],
        },
    },
    Row {
        shows: "an empty section may not lie past 160000",
        first: &[EMPTY_SECTION],
        second: &[EMPTY_SECTION],
        bottom: 0o160002,
        fault: Some(LinkFault::TooLarge),
        leaves: Wanted {
            tape: &[],
            map: &[],
            reported: &[],
        },
    },
    Row {
        shows: "no file",
        first: &[],
        second: &[],
        bottom: 0o1000,
        fault: None,
        leaves: Wanted {
            tape: &[NO_START],
            map: MAP_OF_NOTHING,
            reported: &[],
        },
    },
];

// A feed for each file.
fn feeds_of<'a>(
    alloc: Global,
    files: Files<'a>,
) -> Result<Vec<FuseFeed<MemoryFeed<'a>>>, AllocError> {
    let mut feeds = Vec::new(alloc);
    for file in files {
        feeds.push(SOUND.feed(0, file))?;
    }
    Ok(feeds)
}

// Checks that a link ended as its row says. If memory was refused, the test fails, and nothing more is checked.
fn ended(rt: &impl Abort, row: Row<'_>, linked: &Linked) -> Result<(), Fail> {
    let Row { shows, leaves, .. } = row;
    if linked.outcome == Err(LinkFault::NoMemory) {
        return Err(Fail::new("no memory"));
    }
    let outcome = match row.fault {
        None => done(leaves.reported),
        Some(fault) => Err(fault),
    };
    assert!(rt; linked.outcome == outcome, "{shows}: the end");
    assert!(rt; linked.has(leaves), "{shows}: what was written");
    Ok(())
}

// Links the files of each row, and checks that the link ends as the row says.
fn all_end(rt: &(impl Abort + AllocGlobal), rows: &[Row<'_>]) -> Result<(), Fail> {
    for row in rows {
        let mut first = feeds_of(rt.alloc(), row.first)?;
        let mut second = feeds_of(rt.alloc(), row.second)?;
        let linked = link_feeds(
            rt.alloc(),
            first.as_mut_slice(),
            second.as_mut_slice(),
            row.bottom,
            SOUND,
            usize::MAX,
        );
        let shown = ended(rt, *row, &linked);
        drop(linked);
        shown?;
    }
    Ok(())
}

#[test]
fn the_second_pass_is_linked_under_what_the_first_one_gave(rt: HostRuntime) -> Result<(), Fail> {
    all_end(&rt, &ROWS)
}
