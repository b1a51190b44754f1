//! Answers: what a command leaves, as blocks, and how bytes get into the caller's memory.

ghost use Rattle.std.specs.Prelude.{◌≡◌, IfOk, [], length, map, unwrap_or};
ghost use Rattle.m11_base_files.specs.MemoryFiles.{made_of};
ghost use Rattle.m11_web.specs.Answers.{IsAnswer, handed_over, made_parts};
ghost use Rattle.m11_web.specs.Blocks.{AreBlocks};

use crate::blocks::put_block;
use crate::refusal::Refusal;
use m11_base_files::MadeFile;
use std::alloc::Global;

/// The answer of a command, which is four blocks: that of its exit status, which is one byte; that of what it printed; that of its messages;
/// and that of two blocks for each file that it made, its path and its bytes.
///
/// Error: `NoMemory`.
pub(crate) fn answer_of(
    alloc: Global,
    status: u8,
    printed: &[u8],
    reported: &[u8],
    made: &[MadeFile],
) -> Result<Vec<u8>, Refusal>
    ensures { IfOk result (λ answer. IsAnswer status printed.now reported.now (map made_of made.now) answer.items) }
{
    let files = files_made(alloc, made)?;
    let mut answer = Vec::new(alloc);
    put_block(&mut answer, &[status])?;
    put_block(&mut answer, printed)?;
    put_block(&mut answer, reported)?;
    put_block(&mut answer, files.as_slice())?;
    Ok(answer)
}

// The blocks of files. A file whose output wasn't handed back is empty. Error: `NoMemory`.
fn files_made(alloc: Global, made: &[MadeFile]) -> Result<Vec<u8>, Refusal>
    ensures { IfOk result (λ blocks. AreBlocks (made_parts (map made_of made.now)) blocks.items) }
{
    let mut blocks = Vec::new(alloc);
    'files: for file in made {
        put_block(&mut blocks, file.path.as_bytes())?;
        put_block(&mut blocks, bytes_of(file))?;
    }
    Ok(blocks)
}

// The bytes of a file; none if its output wasn't handed back.
fn bytes_of(file: &MadeFile) -> &[u8]
    ensures { result.now ≡ unwrap_or (made_of file.now).kept [] }
{
    match &file.kept {
        Some(bytes) => bytes.as_slice(),
        None => &[],
    }
}

/// Copies the bytes to the front of the caller's memory, if they fit, and returns how many they are.
pub(crate) fn hand_over(bytes: &[u8], memory: &mut [u8]) -> usize
    ensures count { result ≡ length bytes.now }
    ensures bytes { memory.new ≡ handed_over bytes.now memory.old }
{
    if bytes.len() <= memory.len() {
        let (front, _) = memory.split_at_mut(bytes.len());
        front.copy_from_slice(bytes);
    }
    bytes.len()
}
