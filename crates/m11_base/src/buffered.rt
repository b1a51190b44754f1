//! A feed over the buffered reader of the standard library.

ghost use Rattle.std.specs.Prelude.{◌≡◌};
ghost use Rattle.std.specs.Io.Buffered.{reader_remaining, reader_buffer};
ghost use Rattle.m11_base.specs.Feed.{text_of_reader, ready_within, ReadsByte};

use crate::fault::DeviceFault;
use crate::feed::Feed;
use crate::interrupted::until_done;
use std::io;
use std::io::{BufRead, BufReader, Read};

/// A feed of the bytes of a buffered reader; those in its buffer are ready. The reader reads ahead, so this is for files and not
/// for a person who types. A read is tried again when a signal interrupts it. After 18,446,744,073,709,551,615 bytes, or as many
/// failures, each call of `next` fails.
#[derive(Drop)]
pub struct BufferedFeed<R> {
    reader: BufReader<R>,
    budget: u64,
    faults: u64,
}

impl<R: Read> BufferedFeed<R> {
    /// A feed of the bytes left in `reader`.
    pub fn new(reader: BufReader<R>) -> BufferedFeed<R>
        ensures text { ⟦<BufferedFeed<R> as Feed>⟧.text result ≡ text_of_reader (reader_remaining R.remaining reader) }
        ensures unfailed { ⟦<BufferedFeed<R> as Feed>⟧.faults result ≡ 0 }
    {
        BufferedFeed {
            reader,
            budget: u64::MAX,
            faults: 0,
        }
    }

    /// How often a call has failed.
    pub fn failures(&self) -> u64
        ensures { result ≡ ⟦<BufferedFeed<R> as Feed>⟧.faults self.now }
    {
        self.faults
    }
}

impl<R: Read> Feed for BufferedFeed<R> {
    ghost text = { λ s. text_of_reader (reader_remaining R.remaining s.reader) };

    ghost faults = { λ s. s.faults };

    ghost left = { λ s. s.budget };

    ghost ready_bytes = { λ s. ready_within s.budget s.faults (reader_buffer s.reader) };

    #[inline]
    fn next(&mut self) -> Result<Option<u8>, DeviceFault> {
        if self.faults == u64::MAX {
            return Err(DeviceFault);
        }
        if self.budget == 0 {
            self.faults += 1;
            return Err(DeviceFault);
        }
        match consume_byte(&mut self.reader) {
            Ok(Some(byte)) => {
                self.budget -= 1;
                Ok(Some(byte))
            }
            Ok(None) => Ok(None),
            Err(_) => {
                self.faults += 1;
                Err(DeviceFault)
            }
        }
    }

    #[inline]
    fn ready(&self) -> &[u8] {
        if self.faults == u64::MAX {
            return &[];
        }
        let shown = self.reader.buffer();
        &shown[..shown.len().min(self.budget as usize)]
    }

    #[inline]
    fn pass(&mut self, count: usize) {
        self.reader.consume(count);
        self.budget -= count as u64;
    }
}

// Reads the next byte; `None` is the end. Most bytes are in the buffer already.
#[tactic(auto, using(crate::proofs::Fronts::front_taken))]
#[inline(always)]
fn consume_byte<R: Read>(reader: &mut BufReader<R>) -> Result<Option<u8>, DeviceFault>
    ensures { ReadsByte (reader_remaining R.remaining reader.old) (reader_remaining R.remaining reader.new) result }
{
    match reader.buffer().first().copied() {
        Some(byte) => {
            reader.consume(1);
            Ok(Some(byte))
        }
        None => fill_and_read(reader),
    }
}

// Reads the next byte, and fills the buffer first if it is empty; `None` is the end. An interrupted read is tried again.
// speed: a function of its own, so that its caller can be inlined.
#[inline(never)]
fn fill_and_read<R: Read>(reader: &mut BufReader<R>) -> Result<Option<u8>, DeviceFault>
    ensures { ReadsByte (reader_remaining R.remaining reader.old) (reader_remaining R.remaining reader.new) result }
{
    until_done!(take_front(reader))
}

// Tries once to take the first byte of the buffer, and fills the buffer first if it is empty. `None` is the end of the reader.
fn take_front<R: BufRead>(reader: &mut R) -> io::Result<Option<u8>>
    ensures { ReadsByte (R.Read.remaining reader.old) (R.Read.remaining reader.new) result }
{
    let front = match reader.fill_buf() {
        Ok(available) => available.first().copied(),
        Err(error) => return Err(error),
    };
    match front {
        Some(byte) => {
            reader.consume(1);
            Ok(Some(byte))
        }
        None => Ok(None),
    }
}
