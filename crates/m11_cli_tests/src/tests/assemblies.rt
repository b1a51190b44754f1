//! What the tests of whole assemblies share: bytes of objects, assemblies with a device that fails, their outputs, the expected outputs,
//! and the check that these two agree.

mod failing;
mod streaming;
mod two_texts;

use m11_asm::{AsmDone, AsmFault, asm_run};
use m11_base::{FuseFeed, FuseSink, MemoryFeed, WriterSink};
use m11_base_writes::Output;
use std::alloc::Global;
use std::process::Abort;
use std::test::Fail;

// The block of a directory of a module without a title, up to the size of its blank section. The size, `TRANSFER` and a checksum follow.
pub(crate) const DIRECTORY: &[u8] = &[
    0x01, 0x00, 0x26, 0x00, 0x01, 0x00, 0x09, 0xB1, 0x8C, 0x3A, 0x00, 0x00, 0x00, 0x00, 0x01, 0xAF,
    0x94, 0x0F, 0x44, 0x05, 0x00, 0x00, 0x00, 0x00, 0x00, 0x00, 0x20, 0x05,
];

// The entry of the transfer address in the directory of a program without a start: 1 in `. ABS.`.
pub(crate) const TRANSFER: &[u8] = &[0x01, 0xAF, 0x94, 0x0F, 0x00, 0x03, 0x01, 0x00];

pub(crate) const END_OF_GSD: &[u8] = &[0x01, 0x00, 0x06, 0x00, 0x02, 0x00, 0xF7];

// The block that selects the blank section for texts.
pub(crate) const IN_BLANK_SECTION: &[u8] = &[
    0x01, 0x00, 0x0E, 0x00, 0x04, 0x00, 0x07, 0x00, 0x00, 0x00, 0x00, 0x00, 0x00, 0x00, 0xE6,
];

pub(crate) const END_OF_MODULE: &[u8] = &[0x01, 0x00, 0x06, 0x00, 0x06, 0x00, 0xF3];

// The outcome of an assembly, and its outputs.
#[derive(Drop)]
pub(crate) struct Assembled {
    pub(crate) outcome: Result<AsmDone, AsmFault>,
    pub(crate) object: Vec<u8>,
    pub(crate) listing: Vec<u8>,
    pub(crate) messages: Vec<u8>,
}

// A device of an assembly: its source in one of the passes, or one of its outputs.
#[derive(Debug, Clone, Copy, PartialEq, Eq)]
pub(crate) enum Device {
    First,
    Second,
    Output(Output),
}

// A device that fails after this number of calls, while all others work.
#[derive(Clone, Copy)]
pub(crate) struct Broken {
    pub(crate) device: Device,
    pub(crate) calls: u64,
}

// No device fails.
pub(crate) const SOUND: Broken = Broken {
    device: Device::First,
    calls: u64::MAX,
};

impl Broken {
    fn passes(self, device: Device) -> u64 {
        if device == self.device {
            self.calls
        } else {
            u64::MAX
        }
    }

    fn feed<'a>(self, reading: Device, source: &'a str) -> FuseFeed<MemoryFeed<'a>> {
        FuseFeed::new(MemoryFeed::new(source.as_bytes()), self.passes(reading))
    }

    fn sink<'a>(
        self,
        output: Output,
        text: &'a mut Vec<u8>,
        most: usize,
    ) -> FuseSink<WriterSink<&'a mut Vec<u8>>> {
        FuseSink::new(
            WriterSink::new(text),
            self.passes(Device::Output(output)),
            most,
        )
    }
}

// Assembles the texts of the two passes with a listing and a broken device. An output accepts at most `most` bytes a call.
pub(crate) fn assemble_texts(
    alloc: Global,
    texts: [&str; 2],
    broken: Broken,
    most: usize,
) -> Assembled {
    let mut object = Vec::new(alloc);
    let mut listing = Vec::new(alloc);
    let mut messages = Vec::new(alloc);
    let outcome = asm_run(
        alloc,
        &mut [broken.feed(Device::First, texts[0])],
        &mut [broken.feed(Device::Second, texts[1])],
        &mut broken.sink(Output::Product, &mut object, most),
        &mut Some(broken.sink(Output::Report, &mut listing, most)),
        &mut broken.sink(Output::Messages, &mut messages, most),
    );
    Assembled {
        outcome,
        object,
        listing,
        messages,
    }
}

// The expected outputs of an assembly without a fault: the last pieces of its object, or all of them if the listing is compared; the lines
// of its listing, none if it isn't compared; and its messages, one for each flagged line and then the count of errors. Lines are without
// their line feeds.
#[derive(Clone, Copy)]
pub(crate) struct Wanted<'a> {
    pub(crate) object: &'a [&'a [u8]],
    pub(crate) listed: &'a [&'a str],
    pub(crate) reported: &'a [&'a str],
}

// The bytes before these pieces, if a text ends with them.
fn front_before<'a>(text: &'a [u8], pieces: &[&[u8]]) -> Option<&'a [u8]> {
    let mut front = text;
    for piece in pieces.iter().rev() {
        front = front.strip_suffix(*piece)?;
    }
    Some(front)
}

// The bytes after these lines, if a text begins with them.
fn rest_after_lines<'a>(text: &'a [u8], lines: &[&str]) -> Option<&'a [u8]> {
    let mut rest = text;
    for line in lines {
        rest = rest
            .strip_prefix(line.as_bytes())?
            .strip_prefix(b"\n".as_slice())?;
    }
    Some(rest)
}

// Whether a text consists of these lines.
fn has_lines(text: &[u8], lines: &[&str]) -> bool {
    rest_after_lines(text, lines).is_some_and(<[u8]>::is_empty)
}

// Checks that the assembly succeeded and that its outputs are the expected ones. The name is shown if they aren't.
pub(crate) fn left(
    rt: &impl Abort,
    name: &str,
    found: &Assembled,
    wanted: Wanted<'_>,
) -> Result<(), Fail> {
    let done = found.outcome?;
    let is_whole = !wanted.listed.is_empty();
    assert!(rt;
        u64::from(done.flagged).saturating_add(1) == wanted.reported.len() as u64,
        "{name}: the count"
    );
    match front_before(found.object.as_slice(), wanted.object) {
        Some(front) => assert!(rt; front.is_empty() || !is_whole, "{name}: the object"),
        None => assert!(rt; false, "{name}: the end of the object"),
    }
    assert!(rt;
        !is_whole || has_lines(found.listing.as_slice(), wanted.listed),
        "{name}: the listing"
    );
    assert!(rt;
        has_lines(found.messages.as_slice(), wanted.reported),
        "{name}: the messages"
    );
    Ok(())
}
