//! A feed over any reader and a sink over any writer of the standard library.

ghost use Rattle.std.specs.Prelude.{◌≡◌, ◌≤◌, length, IfOk, []};
ghost use Rattle.std.specs.Io.KnownBytes.{WriteAppends};
ghost use Rattle.m11_base.specs.Feed.{text_of_reader, ReadsByte};

use crate::fault::DeviceFault;
use crate::feed::Feed;
use crate::interrupted::until_done;
use crate::sink::Sink;
use std::io;
use std::io::{Read, Write};

/// A feed of the bytes of a reader, one byte per read. It never reads ahead, so no byte is ready. It is for input that a person types. A
/// read is tried again when a signal interrupts it. After 18,446,744,073,709,551,615 bytes, or as many failures, each call of `next` fails.
#[derive(Drop)]
pub struct ReaderFeed<R> {
    reader: R,
    budget: u64,
    faults: u64,
}

impl<R: Read> ReaderFeed<R> {
    /// A feed of the bytes left in `reader`.
    pub fn new(reader: R) -> ReaderFeed<R>
        ensures text { ⟦<ReaderFeed<R> as Feed>⟧.text result ≡ text_of_reader (R.remaining reader) }
        ensures unfailed { ⟦<ReaderFeed<R> as Feed>⟧.faults result ≡ 0 }
    {
        ReaderFeed {
            reader,
            budget: u64::MAX,
            faults: 0,
        }
    }
}

impl<R: Read> Feed for ReaderFeed<R> {
    ghost text = { λ s. text_of_reader (R.remaining s.reader) };

    ghost faults = { λ s. s.faults };

    ghost left = { λ s. s.budget };

    ghost ready_bytes = { λ _. [] };

    fn next(&mut self) -> Result<Option<u8>, DeviceFault> {
        if self.faults == u64::MAX {
            return Err(DeviceFault);
        }
        if self.budget == 0 {
            self.faults += 1;
            return Err(DeviceFault);
        }
        match read_byte(&mut self.reader) {
            Ok(Some(byte)) => {
                self.budget -= 1;
                Ok(Some(byte))
            }
            Ok(None) => Ok(None),
            Err(_) => {
                self.faults += 1;
                Err(DeviceFault)
            }
        }
    }

    fn ready(&self) -> &[u8] {
        &[]
    }

    fn pass(&mut self, _count: usize) {}
}

// Reads the next byte of a reader; `None` is its end. A read that a signal interrupts is tried again.
fn read_byte<R: Read>(reader: &mut R) -> Result<Option<u8>, DeviceFault>
    ensures { ReadsByte (R.remaining reader.old) (R.remaining reader.new) result }
{
    until_done!(read_once(reader))
}

// Tries once to read the next byte of a reader; `None` is its end.
fn read_once<R: Read>(reader: &mut R) -> io::Result<Option<u8>>
    ensures { ReadsByte (R.remaining reader.old) (R.remaining reader.new) result }
{
    let mut one = [0u8; 1];
    match reader.read(&mut one) {
        Ok(0) => Ok(None),
        Ok(_) => Ok(Some(one[0])),
        Err(error) => Err(error),
    }
}

/// A sink that passes bytes to a writer. A write is tried again when a signal interrupts it. The sink holds nothing back and
/// doesn't flush the writer, so the failure of a write shows at the `put` that made it.
#[derive(Drop)]
pub struct WriterSink<W> {
    writer: W,
    faults: u64,
}

impl<W: Write> WriterSink<W> {
    /// A sink that writes to `writer`.
    pub fn new(writer: W) -> WriterSink<W>
        ensures text { ⟦<WriterSink<W> as Sink>⟧.text result ≡ W.contents writer }
        ensures unfailed { ⟦<WriterSink<W> as Sink>⟧.faults result ≡ 0 }
    {
        WriterSink { writer, faults: 0 }
    }
}

impl<W: Write> Sink for WriterSink<W> {
    ghost text = { λ s. W.contents s.writer };

    ghost faults = { λ s. s.faults };

    ghost held = { λ _. 0 };

    fn put(&mut self, bytes: &[u8]) -> Result<usize, DeviceFault> {
        if self.faults == u64::MAX {
            return Err(DeviceFault);
        }
        let returned = write_some(&mut self.writer, bytes);
        if returned.is_err() || (matches!(returned, Ok(0)) && !bytes.is_empty()) {
            self.faults += 1;
        }
        returned
    }

    // The sink holds nothing back.
    fn flush(&mut self) -> Result<(), DeviceFault> {
        if self.faults == u64::MAX {
            return Err(DeviceFault);
        }
        Ok(())
    }
}

// Writes bytes from the front of `bytes`, and returns how many. A write that a signal interrupts is tried again.
fn write_some<W: Write>(writer: &mut W, bytes: &[u8]) -> Result<usize, DeviceFault>
    ensures within { IfOk result (λ n. n ≤ length bytes.now) }
    ensures appends { WriteAppends (W.contents writer.old) (W.contents writer.new) result
        bytes.now }
{
    until_done!(writer.write(bytes))
}
