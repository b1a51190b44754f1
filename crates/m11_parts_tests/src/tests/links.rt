//! Shared by the tests of whole links: two objects, links with a device that fails, and their outputs.

mod failing;
mod readings;
mod streaming;

use m11_base::{FuseFeed, FuseSink, MemoryFeed, WriterSink};
use m11_base_writes::Output;
use m11_link::{LinkDone, LinkFault, link_run};
use std::alloc::Global;

// A module with the instruction MOV F,R0 and a byte.
#[rattlefmt::skip]
pub(crate) const READS_F: &[u8] = &[
    // The directory.
    0x01, 0x00, 0x36, 0x00, 0x01, 0x00,
    // The module's name, A.
    0x40, 0x06, 0x00, 0x00, 0x00, 0x00, 0x00, 0x00,
    // Section `. ABS.`: 0 bytes, flags octal 104.
    0x01, 0xAF, 0x94, 0x0F, 0x44, 0x05, 0x00, 0x00,
    // A reference to F.
    0x80, 0x25, 0x00, 0x00, 0x00, 0x04, 0x00, 0x00,
    // The blank section: 0 bytes, flags octal 040.
    0x00, 0x00, 0x00, 0x00, 0x20, 0x05, 0x00, 0x00,
    // Section PROG: 5 bytes, flags octal 040.
    0xDF, 0x66, 0xC0, 0x2B, 0x20, 0x05, 0x05, 0x00,
    // The transfer address: 1 in `. ABS.`.
    0x01, 0xAF, 0x94, 0x0F, 0x00, 0x03, 0x01, 0x00, 0x67,
    // The end of the directory.
    0x01, 0x00, 0x06, 0x00, 0x02, 0x00, 0xF7,
    // Texts go to PROG.
    0x01, 0x00, 0x0E, 0x00, 0x04, 0x00, 0x07, 0x00, 0xDF, 0x66, 0xC0, 0x2B, 0x00, 0x00, 0xB6,
    // A text of MOV F,R0, and a byte.
    0x01, 0x00, 0x0D, 0x00, 0x03, 0x00, 0x00, 0x00, 0xC0, 0x1D, 0x00, 0x00, 0x01, 0x11,
    // The operand is the displacement of F.
    0x01, 0x00, 0x0C, 0x00, 0x04, 0x00, 0x04, 0x06, 0x80, 0x25, 0x00, 0x00, 0x40,
    // The end of the module.
    0x01, 0x00, 0x06, 0x00, 0x06, 0x00, 0xF3,
];

// A module that defines F: a word with the address of a word 7.
#[rattlefmt::skip]
pub(crate) const DEFINES_F: &[u8] = &[
    // The directory.
    0x01, 0x00, 0x3E, 0x00, 0x01, 0x00,
    // The module's name, B.
    0x80, 0x0C, 0x00, 0x00, 0x00, 0x00, 0x00, 0x00,
    // Section `. ABS.`: 0 bytes, flags octal 104.
    0x01, 0xAF, 0x94, 0x0F, 0x44, 0x05, 0x00, 0x00,
    // The blank section: 0 bytes, flags octal 040.
    0x00, 0x00, 0x00, 0x00, 0x20, 0x05, 0x00, 0x00,
    // Section DATA: 4 bytes, flags octal 040.
    0x3C, 0x19, 0x40, 0x06, 0x20, 0x05, 0x04, 0x00,
    // Section PROG: 2 bytes, flags octal 040.
    0xDF, 0x66, 0xC0, 0x2B, 0x20, 0x05, 0x02, 0x00,
    // F is 0 in PROG, the section entered last.
    0x80, 0x25, 0x00, 0x00, 0x28, 0x04, 0x00, 0x00,
    // The transfer address: 1 in `. ABS.`.
    0x01, 0xAF, 0x94, 0x0F, 0x00, 0x03, 0x01, 0x00, 0x30,
    // The end of the directory.
    0x01, 0x00, 0x06, 0x00, 0x02, 0x00, 0xF7,
    // Texts go to DATA.
    0x01, 0x00, 0x0E, 0x00, 0x04, 0x00, 0x07, 0x00, 0x3C, 0x19, 0x40, 0x06, 0x00, 0x00, 0x4B,
    // A text of one byte.
    0x01, 0x00, 0x09, 0x00, 0x03, 0x00, 0x00, 0x00, 0x01, 0xF2,
    // Texts go to PROG.
    0x01, 0x00, 0x0E, 0x00, 0x04, 0x00, 0x07, 0x00, 0xDF, 0x66, 0xC0, 0x2B, 0x00, 0x00, 0xB6,
    // A text of one word.
    0x01, 0x00, 0x0A, 0x00, 0x03, 0x00, 0x00, 0x00, 0x00, 0x00, 0xF2,
    // Its value is the base of DATA plus 2.
    0x01, 0x00, 0x0E, 0x00, 0x04, 0x00, 0x0D, 0x04, 0x3C, 0x19, 0x40, 0x06, 0x02, 0x00, 0x3F,
    // Texts go to DATA, beginning at offset 2.
    0x01, 0x00, 0x0E, 0x00, 0x04, 0x00, 0x07, 0x00, 0x3C, 0x19, 0x40, 0x06, 0x02, 0x00, 0x49,
    // A text of the word 7.
    0x01, 0x00, 0x0A, 0x00, 0x03, 0x00, 0x02, 0x00, 0x07, 0x00, 0xE9,
    // The end of the module.
    0x01, 0x00, 0x06, 0x00, 0x06, 0x00, 0xF3,
];

// The transfer block of a tape that starts nothing.
pub(crate) const NO_START: &[u8] = &[0x01, 0x00, 0x06, 0x00, 0x01, 0x00, 0xF8];

// The expected outputs of a link: the blocks of its tape, and the lines of its map and messages without line feeds.
#[derive(Clone, Copy)]
pub(crate) struct Wanted<'a> {
    pub(crate) tape: &'a [&'a [u8]],
    pub(crate) map: &'a [&'a str],
    pub(crate) reported: &'a [&'a str],
}

// The map of the two modules, linked at octal 1000.
pub(crate) const MAP_OF_F: &[&str] = &[
    "SECTIONS",
    ". ABS. 000000 000000 RW,I,GBL,ABS,OVR",
    "       001000 000000 RW,I,LCL,REL,CON",
    "PROG   001000 000010 RW,I,LCL,REL,CON",
    "DATA   001010 000004 RW,I,LCL,REL,CON",
    "GLOBALS",
    "F      001006 B",
    "UNDEFINED",
    "TRANSFER 000001",
    "LIMIT 001000 001014",
];

// The first block of the tape of the two modules.
pub(crate) const FIRST_OF_F: &[u8] = &[
    0x01, 0x00, 0x0B, 0x00, 0x00, 0x02, 0xC0, 0x1D, 0x02, 0x00, 0x01, 0x12,
];

// The outcome of a link, and its outputs.
#[derive(Drop)]
pub(crate) struct Linked {
    pub(crate) outcome: Result<LinkDone, LinkFault>,
    pub(crate) tape: Vec<u8>,
    pub(crate) map: Vec<u8>,
    pub(crate) messages: Vec<u8>,
}

impl Linked {
    // Whether the outputs are the expected ones.
    pub(crate) fn has(&self, wanted: Wanted<'_>) -> bool {
        rest_after(self.tape.as_slice(), wanted.tape).is_some_and(<[u8]>::is_empty)
            && has_lines(self.map.as_slice(), wanted.map)
            && has_lines(self.messages.as_slice(), wanted.reported)
    }
}

// A feed of one of the two passes, or an output.
#[derive(Debug, Clone, Copy, PartialEq, Eq)]
pub(crate) enum Device {
    // A feed by its index: two of the first pass, and then two of the second.
    Feed(usize),
    Output(Output),
}

// A device that fails after this number of calls, while all others work.
#[derive(Clone, Copy)]
pub(crate) struct Broken {
    pub(crate) device: Device,
    pub(crate) calls: u64,
}

// No device fails.
pub(crate) const SOUND: Broken = Broken {
    device: Device::Feed(0),
    calls: u64::MAX,
};

impl Broken {
    fn passes(self, device: Device) -> u64 {
        if device == self.device {
            self.calls
        } else {
            u64::MAX
        }
    }

    pub(crate) fn feed<'a>(self, index: usize, bytes: &'a [u8]) -> FuseFeed<MemoryFeed<'a>> {
        FuseFeed::new(MemoryFeed::new(bytes), self.passes(Device::Feed(index)))
    }

    fn sink<'a>(
        self,
        output: Output,
        text: &'a mut Vec<u8>,
        most: usize,
    ) -> FuseSink<WriterSink<&'a mut Vec<u8>>> {
        FuseSink::new(
            WriterSink::new(text),
            self.passes(Device::Output(output)),
            most,
        )
    }
}

// Links the feeds of two passes, with a map. If the broken device is an output, it fails. An output accepts at most `most` bytes a call.
pub(crate) fn link_feeds<'a>(
    alloc: Global,
    first: &mut [FuseFeed<MemoryFeed<'a>>],
    second: &mut [FuseFeed<MemoryFeed<'a>>],
    bottom: u16,
    broken: Broken,
    most: usize,
) -> Linked {
    let mut tape = Vec::new(alloc);
    let mut map = Vec::new(alloc);
    let mut messages = Vec::new(alloc);
    let outcome = link_run(
        alloc,
        first,
        second,
        bottom,
        &mut broken.sink(Output::Product, &mut tape, most),
        &mut Some(broken.sink(Output::Report, &mut map, most)),
        &mut broken.sink(Output::Messages, &mut messages, most),
    );
    Linked {
        outcome,
        tape,
        map,
        messages,
    }
}

// Links two files at octal 1000, with a map and a broken device. An output accepts at most `most` bytes a call.
pub(crate) fn linked_broken(
    alloc: Global,
    files: [&[u8]; 2],
    broken: Broken,
    most: usize,
) -> Linked {
    link_feeds(
        alloc,
        &mut [broken.feed(0, files[0]), broken.feed(1, files[1])],
        &mut [broken.feed(2, files[0]), broken.feed(3, files[1])],
        0o1000,
        broken,
        most,
    )
}

// The bytes after these pieces, if a text begins with them.
fn rest_after<'a>(text: &'a [u8], pieces: &[&[u8]]) -> Option<&'a [u8]> {
    let mut rest = text;
    for piece in pieces {
        rest = rest.strip_prefix(*piece)?;
    }
    Some(rest)
}

// The bytes after these lines, if a text begins with them.
fn rest_after_lines<'a>(text: &'a [u8], lines: &[&str]) -> Option<&'a [u8]> {
    let mut rest = text;
    for line in lines {
        rest = rest
            .strip_prefix(line.as_bytes())?
            .strip_prefix(b"\n".as_slice())?;
    }
    Some(rest)
}

// Whether a text consists of these lines.
fn has_lines(text: &[u8], lines: &[&str]) -> bool {
    rest_after_lines(text, lines).is_some_and(<[u8]>::is_empty)
}

// The outcome of a whole link with these messages.
pub(crate) fn done(reported: &[&str]) -> Result<LinkDone, LinkFault> {
    Ok(LinkDone {
        messages: u32::try_from(reported.len()).unwrap_or(u32::MAX),
    })
}
