//! The comparison of a command's result with the expected one.

ghost use Rattle.std.specs.Prelude.{◌≡◌, ◌↔◌, IsNone};

use crate::case::Command;
use m11_cli::MemoryFile;
use std::fmt;

/// The result of a command: its exit status, the bytes of standard output and of standard error, and the files that it created.
#[derive(Drop)]
pub(crate) struct Found<'a> {
    pub(crate) status: u8,
    pub(crate) printed: &'a [u8],
    pub(crate) reported: &'a [u8],
    pub(crate) outputs: &'a [MemoryFile],
}

/// The first difference of a command's result from the expected one.
#[derive(Clone, Copy, Drop)]
pub(crate) enum Difference<'a> {
    /// The status found.
    Status(u8),
    /// The output with this name, `stdout`, `stderr` or the path of a file, and the index, from 0, of the first byte in which it differs.
    Bytes(&'a str, usize),
    /// The path of an expected file that was not created.
    Missing(&'a str),
    /// The path of a file that was created, but that the case doesn't list.
    Unnamed(&'a str),
}

impl fmt::Display for Difference<'_> {
    fn fmt<W: fmt::Write>(&self, f: &mut fmt::Formatter<W>) -> fmt::Result {
        match self {
            Difference::Status(found) => write!(f, "the status is {found}"),
            Difference::Bytes(name, index) => write!(f, "{name} differs from byte {index} on"),
            Difference::Missing(path) => write!(f, "{path} was not created"),
            Difference::Unnamed(path) => write!(f, "{path} was created"),
        }
    }
}

/// The first difference of a result from the expected one: in the status, then in standard output, standard error and the expected files,
/// and last a file that isn't expected. None if there is no difference.
pub(crate) fn first_difference<'a>(
    wanted: &'a Command,
    found: &Found<'a>,
) -> Option<Difference<'a>> {
    if found.status != wanted.status {
        return Some(Difference::Status(found.status));
    }
    let printed = bytes_differ("stdout", found.printed, wanted.printed.as_slice());
    let reported = bytes_differ("stderr", found.reported, wanted.reported.as_slice());
    printed
        .or(reported)
        .or(missing(wanted.outputs.as_slice(), found.outputs))
        .or(unnamed(wanted.outputs.as_slice(), found.outputs))
}

// The first expected file that was not created or has other bytes, if there is one.
fn missing<'a>(wanted: &'a [MemoryFile], found: &'a [MemoryFile]) -> Option<Difference<'a>> {
    for file in wanted {
        let path = file.path.as_str();
        match file_of(found, path) {
            None => return Some(Difference::Missing(path)),
            Some(other) => {
                let differs = bytes_differ(path, other.bytes.as_slice(), file.bytes.as_slice());
                if differs.is_some() {
                    return differs;
                }
            }
        }
    }
    None
}

// The first file that was created and is not expected, if there is one.
fn unnamed<'a>(wanted: &[MemoryFile], found: &'a [MemoryFile]) -> Option<Difference<'a>> {
    for file in found {
        let path = file.path.as_str();
        if file_of(wanted, path).is_none() {
            return Some(Difference::Unnamed(path));
        }
    }
    None
}

// The file with this path, if there is one.
fn file_of<'a>(files: &'a [MemoryFile], path: &str) -> Option<&'a MemoryFile> {
    for file in files {
        if file.path.as_str() == path {
            return Some(file);
        }
    }
    None
}

// The first difference of the bytes found from those expected, if there is one: at the end of the shorter if the other begins with it.
fn bytes_differ<'a>(name: &'a str, found: &[u8], wanted: &[u8]) -> Option<Difference<'a>>
    ensures { IsNone result ↔ (found.now ≡ wanted.now) }
{
    if found == wanted {
        return None;
    }
    Some(Difference::Bytes(name, first_differing(found, wanted)))
}

// The index of the first byte of `found` that differs from the one in `wanted` or lies past the end of `wanted`; the length of `found` if
// `wanted` begins with `found`.
fn first_differing(found: &[u8], wanted: &[u8]) -> usize {
    for (index, byte) in found.iter().enumerate() {
        if wanted.get(index) != Some(byte) {
            return index;
        }
    }
    found.len()
}
