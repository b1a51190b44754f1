//! Standard output, which may be a pipe.

ghost use Rattle.std.specs.Prelude.{◌≡◌, ◌≤◌, Bool, false, length, IfOk};
ghost use Rattle.std.specs.Io.KnownBytes.{WriteAppends};

use m11_base::{DeviceFault, MemorySink, Sink};
use std::io;
use std::io::{ErrorKind, Write};

/// An output whose reader may go away, as that of a pipe does.
pub trait Readership {
    // Whether a write failed since nobody reads the output any more.
    ghost unread: { Self → Bool };

    /// Whether a write failed since nobody reads the output any more.
    fn is_unread(&self) -> bool
        ensures { result ≡ unread self.now };
}

/// A sink that passes bytes to a writer, and remembers whether a write failed since nobody reads them any more. A write is tried again
/// when a signal interrupts it. The sink holds nothing back, so the failure of a write shows at the `put` that made it.
#[derive(Drop)]
pub struct PipeSink<W> {
    writer: W,
    faults: u64,
    is_unread: bool,
}

impl<W: Write> PipeSink<W> {
    /// A sink that writes to `writer`.
    pub fn new(writer: W) -> PipeSink<W>
        ensures text { ⟦<PipeSink<W> as Sink>⟧.text result ≡ W.contents writer }
        ensures unfailed { ⟦<PipeSink<W> as Sink>⟧.faults result ≡ 0 }
        ensures read { ⟦<PipeSink<W> as Readership>⟧.unread result ≡ false }
    {
        PipeSink {
            writer,
            faults: 0,
            is_unread: false,
        }
    }
}

impl<W: Write> Readership for PipeSink<W> {
    ghost unread = { λ s. s.is_unread };

    fn is_unread(&self) -> bool {
        self.is_unread
    }
}

/// Bytes in memory stay there for whoever asks for them.
impl Readership for MemorySink {
    ghost use Rattle.std.specs.Prelude.{false};

    ghost unread = { λ _. false };

    fn is_unread(&self) -> bool {
        false
    }
}

impl<W: Write> Sink for PipeSink<W> {
    ghost text = { λ s. W.contents s.writer };

    ghost faults = { λ s. s.faults };

    ghost held = { λ _. 0 };

    fn put(&mut self, bytes: &[u8]) -> Result<usize, DeviceFault> {
        if self.faults == u64::MAX {
            return Err(DeviceFault);
        }
        match write_some(&mut self.writer, bytes) {
            Ok(count) => {
                if count == 0 && !bytes.is_empty() {
                    self.faults += 1;
                }
                Ok(count)
            }
            Err(error) => {
                self.faults += 1;
                self.is_unread = self.is_unread || matches!(error.kind(), ErrorKind::BrokenPipe);
                Err(DeviceFault)
            }
        }
    }

    // The sink holds nothing back.
    fn flush(&mut self) -> Result<(), DeviceFault> {
        if self.faults == u64::MAX {
            return Err(DeviceFault);
        }
        Ok(())
    }
}

// Writes bytes from the front of `bytes`, and returns how many. A write that a signal interrupts is tried again.
fn write_some<W: Write>(writer: &mut W, bytes: &[u8]) -> io::Result<usize>
    ensures within { IfOk result (λ n. n ≤ length bytes.now) }
    ensures appends { WriteAppends (W.contents writer.old) (W.contents writer.new) result bytes.now }
{
    'tries: for _ in 0..u64::MAX {
        match writer.write(bytes) {
            Ok(count) => return Ok(count),
            Err(error) => {
                if !matches!(error.kind(), ErrorKind::Interrupted) {
                    return Err(error);
                }
            }
        }
    }
    Err(io::Error::from(ErrorKind::Interrupted))
}
