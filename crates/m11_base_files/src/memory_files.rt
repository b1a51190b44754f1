//! Files in memory.

ghost use Rattle.std.specs.Prelude.{◌≡◌, [], Some, map, option_map, position};
ghost use Rattle.m11_base_files.specs.Opens.{stored_among};
ghost use Rattle.m11_base_files.specs.MemoryFiles.{files_of, has_path, held_among, made_of, text_of};

use crate::opens::{OpenRefusal, Opens};
use m11_base::{MemoryFeed, MemorySink};
use std::alloc::Global;

/// A file: its path and its bytes.
#[derive(Drop)]
pub struct MemoryFile {
    /// The path, as written on the command line.
    pub path: String,
    /// All of its bytes.
    pub bytes: Vec<u8>,
}

/// A file created by a command.
#[derive(Drop)]
pub struct MadeFile {
    /// The path, as written on the command line.
    pub path: String,
    /// The bytes written to it, or `None` until its output is handed back.
    pub kept: Option<Vec<u8>>,
}

/// Opens the files stored in memory, and creates others beside them. A created file can't be read by the same command. A path can
/// be opened if a stored file has it, and a file can be created at every path unless memory is refused.
#[derive(Drop)]
pub struct MemoryFiles<'a> {
    alloc: Global,
    stored: &'a [MemoryFile],
    made: Vec<MadeFile>,
    refusals: u64,
}

impl<'a> MemoryFiles<'a> {
    /// A value that opens these stored files. It has created no file yet.
    pub fn new(alloc: Global, stored: &'a [MemoryFile]) -> MemoryFiles<'a>
        ensures files { ⟦<MemoryFiles<'a> as Opens>⟧.files result ≡ Some (files_of stored.entry.now []) }
        ensures refusals { ⟦<MemoryFiles<'a> as Opens>⟧.refusals result ≡ 0 }
    {
        MemoryFiles {
            alloc,
            stored,
            made: Vec::new(alloc),
            refusals: 0,
        }
    }

    /// The created files, in the order of their creation.
    pub fn into_made(self) -> Vec<MadeFile>
        ensures { option_map (λ files. files.made) (⟦<MemoryFiles<'a> as Opens>⟧.files self.entry)
            ≡ Some (map made_of result.items) }
    {
        self.made
    }
}

impl<'a> Opens for MemoryFiles<'a> {
    ghost use Rattle.std.specs.Prelude.{Some};
    ghost use Rattle.m11_base_files.specs.MemoryFiles.{files_of};

    type Input = MemoryFeed<'a>;

    type Output = MemorySink;

    ghost files = { λ s. Some (files_of s.stored.now s.made.items) };

    ghost refusals = { λ s. s.refusals };

    fn open(&mut self, path: &str) -> Result<MemoryFeed<'a>, OpenRefusal> {
        match stored_at(self.stored, path) {
            Some(file) => Ok(MemoryFeed::new(file.bytes.as_slice())),
            None => {
                self.refusals = self.refusals.saturating_add(1);
                Err(OpenRefusal::NotOpened)
            }
        }
    }

    fn create(&mut self, path: &str) -> Result<MemorySink, OpenRefusal> {
        let Ok(path) = String::from_str(self.alloc, path) else {
            return Err(OpenRefusal::NoMemory);
        };
        match self.made.push(MadeFile { path, kept: None }) {
            Ok(()) => Ok(MemorySink::new(self.alloc)),
            Err(_) => Err(OpenRefusal::NoMemory),
        }
    }

    fn keep(&mut self, path: &str, output: MemorySink) {
        store_at(self.made.as_mut_slice(), path, output.into_bytes());
    }
}

// The first file with this path, if there is one.
fn stored_at<'a>(stored: &'a [MemoryFile], path: &str) -> Option<&'a MemoryFile>
    ensures { option_map (λ file. text_of file.now) result ≡ held_among stored.entry.now path.now }
{
    match stored {
        [] => None,
        [first, rest @ ..] => {
            if first.path.as_str() == path {
                Some(first)
            } else {
                stored_at(rest, path)
            }
        }
    }
}

// Stores bytes in the first file created at this path, if there is one.
#[tactic(auto, using(crate::proofs::Keeping::kept_at, crate::proofs::Keeping::not_kept))]
fn store_at(made: &mut [MadeFile], path: &str, bytes: Vec<u8>)
    ensures { map made_of made.new ≡ stored_among path.now (Some bytes.items) (map made_of made.old) }
{
    if let Some(index) = index_of(made, path) {
        made[index].kept = Some(bytes);
    }
}

// The index of the first file created at this path, if there is one.
fn index_of(made: &[MadeFile], path: &str) -> Option<usize>
    ensures { result ≡ position (has_path path.now) made.now }
{
    made.iter().position(|file| file.path.as_str() == path)
}
