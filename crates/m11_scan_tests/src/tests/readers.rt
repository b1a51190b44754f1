//! Lines read from a device that fails. (MACRO-11 Language Reference Manual, "Source program format".)

use super::same;
use m11_base::{Feed, FuseFeed, MemoryFeed};
use m11_scan::{LineFault, LineReader};
use std::process::Abort;

// Checks that the next line has exactly these characters.
fn expect_line<F: Feed>(rt: &impl Abort, reader: &mut LineReader, feeds: &mut [F], text: &[u8]) {
    match reader.next(feeds) {
        Ok(true) => {
            let line = reader.line();
            same(rt, &"text", &line.text(), &text);
            same(rt, &"mark", &line.is_over_long(), &false);
        }
        Ok(false) => assert!(rt; false, "the sources ended"),
        Err(fault) => assert!(rt; false, "{fault}"),
    }
}

// Checks that this call and the next one find no further line.
fn expect_end<F: Feed>(rt: &impl Abort, reader: &mut LineReader, feeds: &mut [F]) {
    for _ in 0..2 {
        assert!(rt;
            matches!(reader.next(feeds), Ok(false)),
            "the sources go on"
        );
    }
}

// Checks that this call and the next one return this fault.
fn expect_fault<F: Feed>(
    rt: &impl Abort,
    reader: &mut LineReader,
    feeds: &mut [F],
    wanted: LineFault,
) {
    for _ in 0..2 {
        match reader.next(feeds) {
            Err(fault) => same(rt, &"fault", &fault, &wanted),
            Ok(_) => assert!(rt; false, "no fault"),
        }
    }
}

// Each byte takes a call of the device, and so does the end of the source. After `calls` calls the device fails, and the lines
// before the failure are whole.
#[test]
fn a_device_that_fails_is_blamed(rt: HostRuntime) {
    for (calls, count) in [(0, 0), (1, 0), (2, 1), (4, 1), (5, 2), (6, 2)] {
        let mut feeds = [FuseFeed::new(MemoryFeed::new(b"A\nBC\nD"), calls)];
        let mut reader = LineReader::new();
        for line in [b"A".as_slice(), b"BC".as_slice()].iter().take(count) {
            expect_line(&rt, &mut reader, &mut feeds, line);
        }
        expect_fault(&rt, &mut reader, &mut feeds, LineFault::Read);
    }
    let mut feeds = [FuseFeed::new(MemoryFeed::new(b"A\nD"), 4)];
    let mut reader = LineReader::new();
    expect_line(&rt, &mut reader, &mut feeds, b"A");
    expect_line(&rt, &mut reader, &mut feeds, b"D");
    expect_end(&rt, &mut reader, &mut feeds);
}
