//! The files of the system.

ghost use Rattle.std.specs.Prelude.{◌≡◌, IfErr};
ghost use Rattle.m11_base_files.specs.Opens.{Counts, CountsRefusal};
ghost use Rattle.m11_base_files.specs.declared.opens.OpenRefusal.TheVariants.{NoMemory};

use crate::file_feed::FileFeed;
use crate::opens::{OpenRefusal, Opens};
use crate::stand_ins::StandIns;
use m11_base::{BufferedSink, Seed};
use std::io::{BufWriter, ErrorKind, Seek};
use std::os::fd::AsRawFd;
use std::random::RandomSource;
use std::rt::Files;
use std::{fs, io};

/// Opens and creates files through the runtime, with buffers: a created file has all its bytes once its sink has been flushed, and a file
/// that is read has a buffer only from its first read until its end is reached. The texts of files are unknown. No opened file gets the
/// descriptor of a standard stream, even if some of these streams were closed when this value was created: as long as this value exists,
/// stand-ins take the place of the closed streams, if they can be opened.
#[derive(Drop)]
pub struct SystemFiles<'a, R: Files> {
    rt: &'a R,
    stand_ins: StandIns<R::File>,
    refusals: u64,
}

impl<'a, R: Files + AllocGlobal + RandomSource> SystemFiles<'a, R>
where
    R::File: AsRawFd,
{
    /// The files that `rt` reaches. Create this before any other file is opened.
    pub fn new(rt: &'a R) -> SystemFiles<'a, R>
        ensures { ⟦<SystemFiles<'a, R> as Opens>⟧.refusals result ≡ 0 }
    {
        SystemFiles {
            rt,
            stand_ins: StandIns::new(rt),
            refusals: 0,
        }
    }
}

impl<'a, R: Files + AllocGlobal + RandomSource> Opens for SystemFiles<'a, R> {
    ghost use Rattle.std.specs.Prelude.{None};

    type Input = FileFeed<R::File>;

    type Output = BufferedSink<R::File>;

    ghost files = { λ _. None };

    ghost refusals = { λ s. s.refusals };

    fn open(&mut self, path: &str) -> Result<FileFeed<R::File>, OpenRefusal> {
        let file = opened(self.rt, path, &mut self.refusals)?;
        Ok(FileFeed::new(self.rt.alloc(), file))
    }

    // A pipe, a socket and a terminal return their bytes only once and have no position: only a file with a position can be read again.
    fn open_twice(
        &mut self,
        path: &str,
    ) -> Result<(FileFeed<R::File>, FileFeed<R::File>), OpenRefusal> {
        let mut first = opened(self.rt, path, &mut self.refusals)?;
        if let Err(error) = first.stream_position() {
            return Err(refusal(&error, &mut self.refusals));
        }
        let second = opened(self.rt, path, &mut self.refusals)?;
        let alloc = self.rt.alloc();
        Ok((FileFeed::new(alloc, first), FileFeed::new(alloc, second)))
    }

    fn create(&mut self, path: &str) -> Result<BufferedSink<R::File>, OpenRefusal> {
        match fs::create(self.rt, path) {
            Ok(file) => buffered_sink(self.rt, file),
            Err(error) => Err(refusal(&error, &mut self.refusals)),
        }
    }

    // Bytes that the output still holds back, as after a run that failed, are dropped.
    fn keep(&mut self, _path: &str, output: BufferedSink<R::File>) {
        drop(output.into_writer());
    }

    // The seed is drawn anew for each run, so that nobody can prepare a file whose names collide in the maps of the run.
    fn seed(&self) -> Seed {
        Seed::drawn(self.rt)
    }
}

// The file at a path, opened for reading. Error: why it can't be opened, which is counted unless memory was refused.
fn opened<R: Files>(rt: &R, path: &str, refusals: &mut u64) -> Result<R::File, OpenRefusal>
    ensures { CountsRefusal refusals.old refusals.new result }
{
    match fs::open(rt, path) {
        Ok(file) => Ok(file),
        Err(error) => Err(refusal(&error, refusals)),
    }
}

// A buffered sink that writes to a file. Error: `NoMemory`.
fn buffered_sink<R: Files + AllocGlobal>(
    rt: &R,
    file: R::File,
) -> Result<BufferedSink<R::File>, OpenRefusal>
    ensures { IfErr result (λ refusal. refusal ≡ NoMemory) }
{
    match BufWriter::new(rt.alloc(), file) {
        Ok(writer) => Ok(BufferedSink::new(writer)),
        Err(_) => Err(OpenRefusal::NoMemory),
    }
}

// The reason why a file can't be opened or created. The failure is counted, unless the system lacked memory.
fn refusal(error: &io::Error, refusals: &mut u64) -> OpenRefusal
    ensures { Counts refusals.old refusals.new result }
{
    match error.kind() {
        ErrorKind::OutOfMemory => OpenRefusal::NoMemory,
        _ => {
            *refusals = refusals.saturating_add(1);
            OpenRefusal::NotOpened
        }
    }
}
