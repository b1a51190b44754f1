//! The feed of a file that is read.

ghost use Rattle.std.specs.Prelude.{◌≡◌, ◌≤◌, Ok, None};
ghost use Rattle.m11_base.specs.Feed.{text_of_reader};
ghost use Rattle.m11_base_files.specs.FileFeed.{IsBegun, IsUnread, LacksBuffer, Steps, closed};

use either::Either;
use m11_base::{BufferedFeed, DeviceFault, Feed, ReaderFeed};
use std::alloc::Global;
use std::io::{BufReader, Empty, Read};
use std::{io, mem};

/// A feed of the bytes of a file. The file gets a buffer at its first read; when a read finds its end, it is closed and the buffer
/// given up. So if many files are opened first and then read in turn, only one has a buffer. If memory is refused for the buffer, the
/// file is read without one, a byte at a time, and closed when the feed is dropped. After 18,446,744,073,709,551,615 bytes, or as many
/// failures, each call of `next` fails.
#[derive(Drop)]
pub struct FileFeed<F> {
    stage: Stage<F>,
}

// How far a file has been read.
#[derive(Drop)]
enum Stage<F> {
    // Nothing has been read. The buffer will come from this allocator.
    Unread(Global, F),
    // The file has a buffer.
    Reading(BufferedFeed<Slot<F>>),
    // Memory was refused for the buffer. The file stays open at its end, since its feed alone knows how often a call has failed.
    Unbuffered(ReaderFeed<F>),
    // The end was found through a buffer, and the file is closed. So many calls have failed.
    Over(u64),
}

// A reader of nothing, or the file. The buffer is made for nothing, and then gets the file: a buffer that is refused takes its reader
// along.
type Slot<F> = Either<Empty, F>;

impl<F: Read + Drop> Feed for FileFeed<F> {
    ghost use Rattle.m11_base_files.specs.FileFeed.{count_of, left_of, ready_of, text_of};

    ghost text = { λ s. text_of F.remaining ⟦<BufferedFeed<Slot<F>> as Feed>⟧ ⟦<ReaderFeed<F> as Feed>⟧ s.stage };

    ghost faults = { λ s. count_of ⟦<BufferedFeed<Slot<F>> as Feed>⟧ ⟦<ReaderFeed<F> as Feed>⟧ s.stage };

    ghost left = { λ s. left_of ⟦<BufferedFeed<Slot<F>> as Feed>⟧ ⟦<ReaderFeed<F> as Feed>⟧ s.stage };

    ghost ready_bytes = { λ s. ready_of ⟦<BufferedFeed<Slot<F>> as Feed>⟧ s.stage };

    #[inline]
    fn next(&mut self) -> Result<Option<u8>, DeviceFault> {
        self.read()
    }

    // speed: inlined always, as `pass` is, since each line of a source calls both
    #[inline(always)]
    fn ready(&self) -> &[u8] {
        match &self.stage {
            Stage::Reading(feed) => feed.ready(),
            _ => &[],
        }
    }

    #[inline(always)]
    fn pass(&mut self, count: usize) {
        if let Stage::Reading(feed) = &mut self.stage {
            feed.pass(count);
        }
    }
}

impl<F: Read + Drop> FileFeed<F> {
    /// A feed of the bytes left in `file`. Its buffer will come from `alloc`.
    pub(crate) fn new(alloc: Global, file: F) -> FileFeed<F>
        ensures text { ⟦<FileFeed<F> as Feed>⟧.text result ≡ text_of_reader (F.remaining file) }
        ensures unfailed { ⟦<FileFeed<F> as Feed>⟧.faults result ≡ 0 }
    {
        FileFeed {
            stage: Stage::Unread(alloc, file),
        }
    }

    // Reads the next byte, as `next` does. `None` is the end; then no buffer is left.
    #[inline]
    fn read(&mut self) -> Result<Option<u8>, DeviceFault>
        ensures steps { Steps ⟦<FileFeed<F> as Feed>⟧ self.old self.new result }
        ensures closes { result ≡ Ok None → LacksBuffer self.new.stage }
    {
        let returned = match &mut self.stage {
            Stage::Reading(feed) => feed.next(),
            _ => self.read_without_buffer(),
        };
        if let Ok(None) = returned {
            self.close();
        }
        returned
    }

    // Reads the next byte of a file that has no buffer: of one that hasn't been read, which gets its feed first; of one that was refused
    // a buffer; or of one that is closed. `None` is the end.
    // speed: a function of its own, so that its caller can be inlined.
    #[inline(never)]
    fn read_without_buffer(&mut self) -> Result<Option<u8>, DeviceFault>
        ensures steps { Steps ⟦<FileFeed<F> as Feed>⟧ self.old self.new result }
    {
        match &self.stage {
            Stage::Unread(..) => self.read_first(),
            _ => self.read_later(),
        }
    }

    // Reads the first byte of a file that hasn't been read, which gets its feed; `None` is the end.
    #[tactic(auto, using(crate::proofs::Beginning::steps_from))]
    fn read_first(&mut self) -> Result<Option<u8>, DeviceFault>
        requires { IsUnread self.old.stage }
        ensures steps { Steps ⟦<FileFeed<F> as Feed>⟧ self.old self.new result }
    {
        self.begin();
        self.read_later()
    }

    // Reads the next byte of a file that has its feed or is closed; `None` is the end. A closed file fails if its count of failures is at
    // its greatest value.
    fn read_later(&mut self) -> Result<Option<u8>, DeviceFault>
        requires { IsBegun self.old.stage }
        ensures steps { Steps ⟦<FileFeed<F> as Feed>⟧ self.old self.new result }
    {
        match &mut self.stage {
            Stage::Reading(feed) => feed.next(),
            Stage::Unbuffered(feed) => feed.next(),
            Stage::Over(count) if *count == u64::MAX => Err(DeviceFault),
            _ => Ok(None),
        }
    }

    // Gives a file that hasn't been read its feed, which reads the same text.
    fn begin(&mut self)
        requires { IsUnread self.old.stage }
        ensures text { ⟦<FileFeed<F> as Feed>⟧.text self.new ≡ ⟦<FileFeed<F> as Feed>⟧.text self.old }
        ensures unfailed { ⟦<FileFeed<F> as Feed>⟧.faults self.new ≡ ⟦<FileFeed<F> as Feed>⟧.faults self.old }
        ensures within { ⟦<FileFeed<F> as Feed>⟧.left self.new ≤ ⟦<FileFeed<F> as Feed>⟧.left self.old }
        ensures begun { IsBegun self.new.stage }
    {
        if let Stage::Unread(alloc, file) = mem::replace(&mut self.stage, Stage::Over(0)) {
            *self = FileFeed::begun(alloc, file);
        }
    }

    // The feed of a file whose first byte is about to be read: with a buffer, or without one if memory is refused.
    fn begun(alloc: Global, file: F) -> FileFeed<F>
        ensures text { ⟦<FileFeed<F> as Feed>⟧.text result ≡ text_of_reader (F.remaining file) }
        ensures unfailed { ⟦<FileFeed<F> as Feed>⟧.faults result ≡ 0 }
        ensures begun { IsBegun result.stage }
    {
        let stage = match BufReader::new(alloc, Slot::<F>::Left(io::empty())) {
            Ok(mut reader) => {
                *reader.get_mut() = Either::Right(file);
                Stage::Reading(BufferedFeed::new(reader))
            }
            Err(_) => Stage::Unbuffered(ReaderFeed::new(file)),
        };
        FileFeed { stage }
    }

    // Closes a file that has a buffer, and gives up the buffer.
    // speed: a function of its own, so that its caller can be inlined.
    #[inline(never)]
    fn close(&mut self)
        ensures { self.new.stage ≡ closed ⟦<BufferedFeed<Slot<F>> as Feed>⟧ self.old.stage }
    {
        if let Stage::Reading(feed) = &self.stage {
            self.stage = Stage::Over(feed.failures());
        }
    }
}
