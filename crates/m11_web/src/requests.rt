//! Requests: the words of a command line, the files that it can open, and what its console reads.

ghost use Rattle.std.specs.Prelude.{◌≡◌, IfOk, map, string_bytes};
ghost use Rattle.m11_web.specs.Blocks.{AreBlocks};
ghost use Rattle.m11_web.specs.Requests.{IsRequest, parts};

use crate::blocks::first_block;
use crate::refusal::Refusal;
use m11_base_files::MemoryFile;
use std::alloc::Global;

/// What a command gets.
#[derive(Drop)]
pub(crate) struct Request<'a> {
    /// The words of the command line; the first is the program's name.
    pub(crate) words: Vec<String>,
    /// The files that can be opened.
    pub(crate) files: Vec<MemoryFile>,
    /// What the console reads.
    pub(crate) typed: &'a [u8],
}

/// Reads a request, which is three blocks: that of the blocks of its words; that of two blocks for each file, its path and its bytes; and
/// that of the bytes which the console reads.
///
/// Errors: `Malformed`, if the bytes aren't such blocks, or a word or a path isn't UTF-8; `NoMemory`.
pub(crate) fn request_of(alloc: Global, bytes: &[u8]) -> Result<Request<'_>, Refusal>
    ensures { IfOk result (λ request. IsRequest (map string_bytes request.words.items) request.files.items request.typed.now bytes.now) }
{
    let Some((words, rest)) = first_block(bytes) else {
        return Err(Refusal::Malformed);
    };
    let Some((files, rest)) = first_block(rest) else {
        return Err(Refusal::Malformed);
    };
    let Some((typed, rest)) = first_block(rest) else {
        return Err(Refusal::Malformed);
    };
    if !rest.is_empty() {
        return Err(Refusal::Malformed);
    }
    let words = words_of(alloc, words)?;
    let files = files_of(alloc, files)?;
    Ok(Request {
        words,
        files,
        typed,
    })
}

// The words whose blocks these are. Errors: those of `request_of`.
fn words_of(alloc: Global, bytes: &[u8]) -> Result<Vec<String>, Refusal>
    ensures { IfOk result (λ words. AreBlocks (map string_bytes words.items) bytes.now) }
{
    let mut words = Vec::new(alloc);
    let mut rest = bytes;
    'words: while !rest.is_empty() {
        let Some((word, following)) = first_block(rest) else {
            return Err(Refusal::Malformed);
        };
        words.push(text_of(alloc, word)?)?;
        rest = following;
    }
    Ok(words)
}

// The files whose blocks these are. Errors: those of `request_of`.
fn files_of(alloc: Global, bytes: &[u8]) -> Result<Vec<MemoryFile>, Refusal>
    ensures { IfOk result (λ files. AreBlocks (parts files.items) bytes.now) }
{
    let mut files = Vec::new(alloc);
    let mut rest = bytes;
    'files: while !rest.is_empty() {
        let Some((path, following)) = first_block(rest) else {
            return Err(Refusal::Malformed);
        };
        let Some((contents, following)) = first_block(following) else {
            return Err(Refusal::Malformed);
        };
        files.push(file_of(alloc, path, contents)?)?;
        rest = following;
    }
    Ok(files)
}

// The file with this path and these bytes. Errors: those of `request_of`.
fn file_of(alloc: Global, path: &[u8], contents: &[u8]) -> Result<MemoryFile, Refusal>
    ensures path { IfOk result (λ file. string_bytes file.path ≡ path.now) }
    ensures bytes { IfOk result (λ file. file.bytes.items ≡ contents.now) }
{
    let path = text_of(alloc, path)?;
    let bytes = Vec::from_slice(alloc, contents)?;
    Ok(MemoryFile { path, bytes })
}

// The text of these bytes. Errors: `Malformed`, if they aren't UTF-8; `NoMemory`.
fn text_of(alloc: Global, bytes: &[u8]) -> Result<String, Refusal>
    ensures { IfOk result (λ text. string_bytes text ≡ bytes.now) }
{
    match String::from_utf8(Vec::from_slice(alloc, bytes)?) {
        Ok(text) => Ok(text),
        Err(_) => Err(Refusal::Malformed),
    }
}
