//! Feeds and sinks in memory, with readers and writers that fail, and through fuses.

ghost use Rattle.std.specs.Prelude.{◌≡◌};

use super::same;
use m11_base::{
    BufferedFeed, BufferedSink, DeviceFault, Feed, FuseFeed, FuseSink, MemoryFeed, MemorySink,
    PutFault, ReaderFeed, Sink, WriterSink, put_all,
};
use std::alloc::Global;
use std::io;
use std::io::{BufReader, BufWriter, ErrorKind, Read, Write};
use std::process::Abort;
use std::test::Fail;

// A reader or writer whose second call returns an error of this kind, if there is one, without touching the device.
#[derive(Drop)]
struct SecondCallFails<D> {
    device: D,
    calls: u8,
    kind: Option<ErrorKind>,
}

impl<D> SecondCallFails<D> {
    fn new(device: D, kind: Option<ErrorKind>) -> SecondCallFails<D> {
        SecondCallFails {
            device,
            calls: 0,
            kind,
        }
    }

    fn call(&mut self) -> io::Result<()> {
        self.calls = self.calls.saturating_add(1);
        match self.kind {
            Some(kind) if self.calls == 2 => Err(io::Error::from(kind)),
            _ => Ok(()),
        }
    }
}

impl<R: Read> Read for SecondCallFails<R> {
    fn read(&mut self, buf: &mut [u8]) -> io::Result<usize> {
        self.call()?;
        self.device.read(buf)
    }
}

impl<W: Write> Write for SecondCallFails<W> {
    fn write(&mut self, buf: &[u8]) -> io::Result<usize> {
        self.call()?;
        self.device.write(buf)
    }

    fn flush(&mut self) -> io::Result<()> {
        self.device.flush()
    }
}

// What a call of a feed returns: a byte, the end of the feed, or a failure.
type NextByte = Result<Option<u8>, DeviceFault>;

const A: NextByte = Ok(Some(b'a'));

const B: NextByte = Ok(Some(b'b'));

const C: NextByte = Ok(Some(b'c'));

const END: NextByte = Ok(None);

const FAILS: NextByte = Err(DeviceFault);

// A row's name; the error of the second call of a reader of `abc`, if any; the numbers of calls that the inner and the outer of two
// fuses around it let through; and the results of the calls, one after another.
type Giving = (
    &'static str,
    Option<ErrorKind>,
    u64,
    u64,
    &'static [NextByte],
);

#[rattlefmt::skip]
static GIVING: [Giving; 7] = [
    ("the end again and again", None, u64::MAX, u64::MAX, &[A, B, C, END, END]),
    // a fuse lets its number of calls through, the end included, and then fails at each call; of two fuses the one with the lower
    // number fails first
    ("2 calls", None, 2, u64::MAX, &[A, B, FAILS, FAILS]),
    ("4 calls", None, 4, u64::MAX, &[A, B, C, END, FAILS, FAILS]),
    ("2 and 3 calls", None, 2, 3, &[A, B, FAILS, FAILS]),
    ("3 and 2 calls", None, 3, 2, &[A, B, FAILS, FAILS]),
    // an interrupted call is made again; another call that fails is the device's failure, and the next call continues
    ("an interrupted call", Some(ErrorKind::Interrupted), u64::MAX, u64::MAX, &[A, B, C, END, END]),
    ("a failed call", Some(ErrorKind::Other), u64::MAX, u64::MAX, &[A, FAILS, B, C, END]),
];

// Checks that the calls of a feed return these values, one after another.
fn gives<F: Feed>(rt: &impl Abort, feed: &mut F, name: &str, wanted: &[NextByte]) {
    for byte in wanted {
        same(rt, &name, &feed.next(), byte);
    }
}

// Checks the calls of a row with a feed behind the row's two fuses. Needs a feed without failures so far.
fn gives_through<F: Feed + Drop>(rt: &impl Abort, feed: F, row: &Giving)
    requires { F.faults feed ≡ 0 }
{
    let (name, _, inner, outer, wanted) = row;
    let fused = FuseFeed::new(feed, *inner);
    gives(rt, &mut FuseFeed::new(fused, *outer), name, wanted);
}

// Checks the calls of each row with a feed that reads, one with a buffer of one byte, and, if no call has an error, one in memory.
fn check_feeds(rt: &(impl Abort + AllocGlobal), rows: &[Giving]) -> Result<(), Fail> {
    let bytes: &[u8] = b"abc";
    for row in rows {
        let kind = row.1;
        let filled = BufReader::with_capacity(rt.alloc(), 1, SecondCallFails::new(bytes, kind))?;
        gives_through(rt, BufferedFeed::new(filled), row);
        let reader = ReaderFeed::new(SecondCallFails::new(bytes, kind));
        gives_through(rt, reader, row);
        if kind.is_none() {
            gives_through(rt, MemoryFeed::new(bytes), row);
        }
    }
    Ok(())
}

#[test]
fn feeds_give_their_bytes_and_fail_where_their_devices_do(rt: HostRuntime) -> Result<(), Fail> {
    check_feeds(&rt, &GIVING)?;
    let bytes: &[u8] = b"abc";
    let buffer = BufReader::with_capacity(rt.alloc(), 2, bytes)?;
    let wanted = [A, B, C, END, END];
    gives(&rt, &mut BufferedFeed::new(buffer), "a buffer", &wanted);
    Ok(())
}

// A call of a sink's `put`: the bytes, and how many of them the sink accepts, or None if it fails.
type Put<'a> = (&'a [u8], Option<usize>);

// A row's name; the error of the second call of a writer, if any; the number of calls that a fuse around it lets through, and the
// most bytes in each; the number of calls that a second fuse around the first lets through; the puts; and the bytes written.
type Taking<'a> = (
    &'a str,
    Option<ErrorKind>,
    u64,
    usize,
    u64,
    &'a [Put<'a>],
    &'a [u8],
);

#[rattlefmt::skip]
static TAKING: [Taking<'static>; 7] = [
    ("no fuse burns", None, 9, 9, 9, &[(b"abc", Some(3)), (b"", Some(0)), (b"d", Some(1))], b"abcd"),
    ("2 calls of 3 bytes", None, 2, 3, 9, &[(b"abcd", Some(3)), (b"de", Some(2)), (b"f", None), (b"", None)], b"abcde"),
    ("2 calls of no byte", None, 2, 0, 9, &[(b"ab", Some(0)), (b"ab", Some(0)), (b"ab", None)], b""),
    ("1 and 3 calls", None, 1, 2, 3, &[(b"abc", Some(2)), (b"c", None)], b"ab"),
    ("3 and 1 calls", None, 3, 2, 1, &[(b"abc", Some(2)), (b"c", None)], b"ab"),
    ("an interrupted call", Some(ErrorKind::Interrupted), 9, 9, 9, &[(b"ab", Some(2)), (b"cd", Some(2)), (b"ef", Some(2))], b"abcdef"),
    ("a failed call", Some(ErrorKind::Other), 9, 9, 9, &[(b"ab", Some(2)), (b"cd", None), (b"ef", Some(2))], b"abef"),
];

// Checks that the puts of a sink return these values, one after another.
fn takes<S: Sink>(rt: &impl Abort, sink: &mut S, name: &str, wanted: &[Put<'_>]) {
    for (bytes, count) in wanted {
        same(rt, &name, &sink.put(bytes).ok(), count);
    }
}

// Checks the puts of a row, which go through two fuses to a writer.
fn put_through(rt: &impl Abort, written: &mut Vec<u8>, row: Taking<'_>) {
    let (name, kind, inner, most, outer, puts, _) = row;
    let writer = WriterSink::new(SecondCallFails::new(written, kind));
    let fused = FuseSink::new(writer, inner, most);
    takes(rt, &mut FuseSink::new(fused, outer, 9), name, puts);
}

// Checks the puts of each row, and the bytes that its writer has received.
fn check_sinks(rt: &(impl Abort + AllocGlobal), rows: &[Taking<'_>]) -> Result<(), Fail> {
    for row in rows {
        let mut written = Vec::with_capacity(rt.alloc(), 8)?;
        put_through(rt, &mut written, *row);
        same(rt, &row.0, &written.as_slice(), &row.6);
        drop(written);
    }
    Ok(())
}

// A row's name; the bytes put into a buffer of four bytes first; whether it is flushed then; the bytes put after that; and the bytes that
// its writer has received in the end.
static BUFFERED: [(&str, &[u8], bool, &[u8], &[u8]); 5] = [
    ("held back", b"abc", false, b"", b""),
    ("flushed", b"abc", true, b"", b"abc"),
    ("held back after a flush", b"abc", true, b"d", b"abc"),
    ("handed on when it is full", b"abc", false, b"de", b"abc"),
    ("more than it holds", b"abcdefg", false, b"", b"abcdefg"),
];

// The bytes that a writer has received through a buffer of four bytes, which isn't flushed at the end.
fn written_through(
    alloc: Global,
    before: &[u8],
    flushes: bool,
    after: &[u8],
) -> Result<Vec<u8>, Fail> {
    let writer = BufWriter::with_capacity(alloc, 4, Vec::new(alloc))?;
    let mut sink = BufferedSink::new(writer);
    put_all(&mut sink, before)?;
    if flushes {
        sink.flush()?;
    }
    put_all(&mut sink, after)?;
    Ok(sink.into_writer())
}

#[test]
fn sinks_accept_bytes_and_fail_where_their_devices_do(rt: HostRuntime) -> Result<(), Fail> {
    check_sinks(&rt, &TAKING)?;
    let mut sink = MemorySink::new(rt.alloc());
    let counts = (sink.put(b"abc")?, sink.put(b"")?, sink.put(b"d")?);
    same(&rt, &"the counts", &counts, &(3, 0, 1));
    same(&rt, &"the bytes", &sink.bytes(), &b"abcd".as_slice());
    for (name, before, flushes, after, wanted) in &BUFFERED {
        let got = written_through(rt.alloc(), before, *flushes, after)?;
        same(&rt, name, &got.as_slice(), wanted);
    }
    Ok(())
}

// The result of putting five bytes through a fuse that lets this many calls through, each with at most `most` bytes.
fn put_five(written: &mut Vec<u8>, calls: u64, most: usize) -> Result<(), PutFault> {
    put_all(
        &mut FuseSink::new(WriterSink::new(written), calls, most),
        b"abcde",
    )
}

// The number of calls that a fuse lets through, and the most bytes that each accepts; the bytes written, and the result.
static PUT: [(u64, usize, &[u8], Result<(), PutFault>); 5] = [
    (3, 2, b"abcde", Ok(())),
    (2, 2, b"abcd", Err(PutFault::Device)),
    (1, 2, b"ab", Err(PutFault::Device)),
    (0, 2, b"", Err(PutFault::Device)),
    // a sink that accepts no byte counts as one that fails
    (3, 0, b"", Err(PutFault::Device)),
];

#[test]
fn all_is_put_or_the_beginning_before_the_failure(rt: HostRuntime) -> Result<(), Fail> {
    for (calls, most, wanted, returned) in &PUT {
        let mut written = Vec::with_capacity(rt.alloc(), 8)?;
        let put = put_five(&mut written, *calls, *most);
        same(
            &rt,
            calls,
            &(put, written.as_slice()),
            &(*returned, *wanted),
        );
        drop(written);
    }
    Ok(())
}
