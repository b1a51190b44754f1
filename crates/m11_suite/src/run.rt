//! The commands of a case, run one after another with files in memory.

use crate::case::Command;
use crate::compare::{Found, first_difference};
use m11_base::{MemoryFeed, MemorySink};
use m11_cli::{MadeFile, MemoryFile, MemoryFiles, command};
use std::alloc::{AllocError, Global};

/// Runs the commands of a case with its files. Returns the report on the first command with an unexpected result, or None. Error: memory
/// was refused.
pub(crate) fn run_case(
    alloc: Global,
    commands: Vec<Command>,
) -> Result<Option<String>, AllocError> {
    let mut commands = commands;
    let mut files = Vec::new(alloc);
    let reported = run_commands(alloc, &mut files, commands.as_mut_slice());
    drop(files);
    drop(commands);
    reported
}

// Runs commands one after another, up to the first with an unexpected result; before a command runs, its own files are added to the files
// so far. Returns the report on the command with the unexpected result, or None. Error: memory was refused.
fn run_commands(
    alloc: Global,
    files: &mut Vec<MemoryFile>,
    commands: &mut [Command],
) -> Result<Option<String>, AllocError> {
    let mut number: u64 = 0;
    for given in commands {
        number = number.saturating_add(1);
        put_all_files(files, &mut given.files)?;
        let reported = run_command(alloc, files, given, number)?;
        if reported.is_some() {
            return Ok(reported);
        }
    }
    Ok(None)
}

// Runs the command with this number. If its result is unexpected, returns the report on that result; otherwise adds the files that the
// command created, and returns None. Error: memory was refused.
fn run_command(
    alloc: Global,
    files: &mut Vec<MemoryFile>,
    given: &Command,
    number: u64,
) -> Result<Option<String>, AllocError> {
    let mut left = left_by(alloc, files.as_slice(), given)?;
    let reported = match difference_of(alloc, given, &left, number) {
        Ok(None) => kept(files, &mut left.outputs),
        reported => reported,
    };
    drop(left);
    reported
}

// The result of a command: its exit status, the bytes of standard output and of standard error, and the files that it created.
#[derive(Drop)]
struct Left {
    status: u8,
    printed: MemorySink,
    reported: MemorySink,
    outputs: Vec<MemoryFile>,
}

// The result of a command that runs with these files. Error: memory was refused.
fn left_by(alloc: Global, files: &[MemoryFile], given: &Command) -> Result<Left, AllocError> {
    let mut input = MemoryFeed::new(given.input.as_slice());
    let mut left = Left {
        status: 0,
        printed: MemorySink::new(alloc),
        reported: MemorySink::new(alloc),
        outputs: Vec::new(alloc),
    };
    let mut opened = MemoryFiles::new(alloc, files);
    let words = given.words.as_slice();
    left.status = command(
        alloc,
        &mut opened,
        &mut input,
        &mut left.printed,
        &mut left.reported,
        words,
    );
    match put_outputs(alloc, &mut left.outputs, opened.into_made()) {
        Ok(()) => Ok(left),
        Err(error) => {
            drop(left);
            Err(error)
        }
    }
}

// The report on the first difference of a command's result from the expected one, with the command's number; None if there is no
// difference. Error: memory was refused.
fn difference_of(
    alloc: Global,
    given: &Command,
    left: &Left,
    number: u64,
) -> Result<Option<String>, AllocError> {
    let found = Found {
        status: left.status,
        printed: left.printed.bytes(),
        reported: left.reported.bytes(),
        outputs: left.outputs.as_slice(),
    };
    match first_difference(given, &found) {
        Some(what) => Ok(Some(format!(in alloc; "command {number}: {what}")?)),
        None => Ok(None),
    }
}

// Adds the files that a command created, and returns None: there is nothing to report. Error: memory was refused.
fn kept(
    files: &mut Vec<MemoryFile>,
    outputs: &mut Vec<MemoryFile>,
) -> Result<Option<String>, AllocError> {
    put_all_files(files, outputs)?;
    Ok(None)
}

// Adds the files that a command created, each with the bytes written to it; a file whose output was not handed back is empty. Error: memory
// was refused.
fn put_outputs(
    alloc: Global,
    outputs: &mut Vec<MemoryFile>,
    made: Vec<MadeFile>,
) -> Result<(), AllocError> {
    for file in made {
        outputs.push(output_of(alloc, file))?;
    }
    Ok(())
}

fn output_of(alloc: Global, file: MadeFile) -> MemoryFile {
    let MadeFile { path, kept } = file;
    let bytes = match kept {
        Some(bytes) => bytes,
        None => Vec::new(alloc),
    };
    MemoryFile { path, bytes }
}

// Moves the files of `more` to `files`, each in place of the file with the same path, if there is one. Error: memory was refused.
fn put_all_files(
    files: &mut Vec<MemoryFile>,
    more: &mut Vec<MemoryFile>,
) -> Result<(), AllocError> {
    for file in more.drain(..) {
        put_file(files, file)?;
    }
    Ok(())
}

fn put_file(files: &mut Vec<MemoryFile>, file: MemoryFile) -> Result<(), AllocError> {
    for there in files.iter_mut() {
        if there.path.as_str() == file.path.as_str() {
            there.bytes = file.bytes;
            return Ok(());
        }
    }
    files.push(file)?;
    Ok(())
}
