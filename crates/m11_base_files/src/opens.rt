//! The trait for opening the files of a task.

ghost use Rattle.std.specs.Prelude.{◌≡◌, ℕ, Option, IfOk};
ghost use Rattle.m11_base.specs.Sink.{handed_on};
ghost use Rattle.m11_base_files.specs.Opens.{Files, Creates, CountsRefusal, Finds, FindsTwice, IsEmptied, keeping};

use m11_base::{Feed, Seed, Sink};

/// Why a file can't be read or written.
#[derive(Drop, Clone, Copy, PartialEq, Eq)]
pub enum OpenRefusal {
    /// The file could not be opened or created; or it can be read only once, and two passes need it.
    NotOpened,
    /// Memory was refused.
    NoMemory,
}

/// Opens and creates files by their paths, and takes outputs back.
pub trait Opens {
    /// The feed of a file that is read.
    type Input: Feed + Drop;

    /// The sink of a file that is written.
    type Output: Sink + Drop;

    // The files to read, the created files and the outputs handed back, if they are known.
    ghost files: { Self → Option Files };

    // How often a file couldn't be opened or created, up to `last_count`. Refused memory isn't counted.
    ghost refusals: { Self → ℕ };

    /// Opens the file at a path, to be read from its beginning.
    ///
    /// `NotOpened`: the file can't be opened, which is counted. `NoMemory`: memory was refused.
    fn open(&mut self, path: &str) -> Result<Self::Input, OpenRefusal>
        ensures finds { Finds Self.Input.text (files self.old) path.now result }
        ensures files { files self.new ≡ files self.old }
        ensures counts { CountsRefusal (refusals self.old) (refusals self.new) result };

    /// Opens the file at a path for two passes, each of which reads it from its beginning. The default body opens it twice.
    ///
    /// `NotOpened`: the file can't be opened, or it can be read only once; either is counted. `NoMemory`: memory was refused.
    fn open_twice(&mut self, path: &str) -> Result<(Self::Input, Self::Input), OpenRefusal>
        ensures finds { FindsTwice Self.Input.text (files self.old) path.now result }
        ensures files { files self.new ≡ files self.old }
        ensures counts { CountsRefusal (refusals self.old) (refusals self.new) result }
    {
        let first = self.open(path)?;
        let second = self.open(path)?;
        Ok((first, second))
    }

    /// Creates the file at a path, or empties an existing one.
    ///
    /// `NotOpened`: the file can't be created, which is counted. `NoMemory`: memory was refused.
    fn create(&mut self, path: &str) -> Result<Self::Output, OpenRefusal>
        ensures empty { IfOk result (λ output. IsEmptied (files self.old) (Self.Output.text output)) }
        ensures creates { Creates path.now (files self.old) (files self.new) result }
        ensures counts { CountsRefusal (refusals self.old) (refusals self.new) result };

    /// Takes back the output of the file created at a path (the first one if there are several), after a run. The file then has all
    /// bytes that the output has passed on: all that it accepted, if it holds none back.
    fn keep(&mut self, path: &str, output: Self::Output)
        ensures keeps { files self.new
            ≡ keeping path.now (handed_on (Self.Output.text output) (Self.Output.held output)) (files self.old) }
        ensures counts { refusals self.new ≡ refusals self.old };

    /// The seed of the hash maps of a run. No contract says which it is, so no result can depend on it.
    fn seed(&self) -> Seed {
        Seed::fixed()
    }
}
