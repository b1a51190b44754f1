//! A sink over the buffered writer of the standard library.

ghost use Rattle.std.specs.Prelude.{◌≡◌, ◌≤◌, [], length, IfOk, OnOk};
ghost use Rattle.std.specs.Io.KnownBytes.{Keeps, WriteAppends};
ghost use Rattle.std.specs.Io.Buffered.{writer_buffer, writer_contents};
ghost use Rattle.m11_base.specs.Sink.{handed_on};

use crate::fault::DeviceFault;
use crate::interrupted::until_done;
use crate::sink::Sink;
use std::io::{BufWriter, Write};

/// A sink that collects bytes in the buffer of a writer, and writes them when the buffer is full and at `flush`. So the failure of
/// a write may show only at a later `put` or at `flush`. A write is tried again when a signal interrupts it. The sink is for
/// files: someone who reads the output as it is written would have to wait.
#[derive(Drop)]
pub struct BufferedSink<W: Write + Drop> {
    writer: BufWriter<W>,
    faults: u64,
}

impl<W: Write + Drop> BufferedSink<W> {
    /// A sink that writes through `writer`.
    pub fn new(writer: BufWriter<W>) -> BufferedSink<W>
        ensures text { ⟦<BufferedSink<W> as Sink>⟧.text result ≡ writer_contents W.contents writer }
        ensures unfailed { ⟦<BufferedSink<W> as Sink>⟧.faults result ≡ 0 }
    {
        BufferedSink { writer, faults: 0 }
    }

    /// Returns the writer without a flush. Bytes still in the buffer are lost: the writer has only what was written before.
    pub fn into_writer(self) -> W
        ensures { W.contents result ≡ handed_on (⟦<BufferedSink<W> as Sink>⟧.text self) (⟦<BufferedSink<W> as Sink>⟧.held self) }
    {
        let (writer, _held) = self.writer.into_parts();
        writer
    }
}

impl<W: Write + Drop> Sink for BufferedSink<W> {
    ghost text = { λ s. writer_contents W.contents s.writer };

    ghost faults = { λ s. s.faults };

    ghost held = { λ s. length (writer_buffer s.writer) };

    #[inline]
    fn put(&mut self, bytes: &[u8]) -> Result<usize, DeviceFault> {
        if self.faults == u64::MAX {
            return Err(DeviceFault);
        }
        let returned = write_some(&mut self.writer, bytes);
        if returned.is_err() || (matches!(returned, Ok(0)) && !bytes.is_empty()) {
            self.faults += 1;
        }
        returned
    }

    fn flush(&mut self) -> Result<(), DeviceFault> {
        if self.faults == u64::MAX {
            return Err(DeviceFault);
        }
        let returned = flush_all(&mut self.writer);
        if returned.is_err() {
            self.faults += 1;
        }
        returned
    }
}

// Writes bytes from the front of `bytes`, into the buffer if they fit, and returns how many. A write that a signal interrupts is
// tried again.
#[inline]
fn write_some<W: Write + Drop>(
    writer: &mut BufWriter<W>,
    bytes: &[u8],
) -> Result<usize, DeviceFault>
    ensures within { IfOk result (λ n. n ≤ length bytes.now) }
    ensures appends { WriteAppends (writer_contents W.contents writer.old) (writer_contents W.contents writer.new) result
        bytes.now }
{
    until_done!(writer.write(bytes))
}

// Writes all bytes of the buffer, and flushes the writer below it. After a failure the bytes not written stay in the buffer. A
// flush that a signal interrupts is tried again.
fn flush_all<W: Write + Drop>(writer: &mut BufWriter<W>) -> Result<(), DeviceFault>
    ensures empty { OnOk result (writer_buffer writer.new ≡ []) }
    ensures bytes { Keeps (writer_contents W.contents writer.old) (writer_contents W.contents writer.new) }
{
    until_done!(writer.flush())
}
