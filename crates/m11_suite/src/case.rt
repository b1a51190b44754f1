//! A case, read from its text: commands one after another, with the input and the expected result of each.

use crate::escapes::{byte_of_hex, byte_of_octal, unescaped, unescaped_text};
use crate::fault::{CaseFault, LineFault};
use m11_cli::MemoryFile;
use std::alloc::Global;

/// A command of a case, with its input and its expected result.
#[derive(Drop)]
pub(crate) struct Command {
    /// The words, the first of which is the program's name.
    pub(crate) words: Vec<String>,
    /// Files written before the command runs, replacing those with the same paths.
    pub(crate) files: Vec<MemoryFile>,
    /// The bytes of standard input.
    pub(crate) input: Vec<u8>,
    /// The expected exit status.
    pub(crate) status: u8,
    /// The expected bytes of standard output.
    pub(crate) printed: Vec<u8>,
    /// The expected bytes of standard error.
    pub(crate) reported: Vec<u8>,
    /// All files that the command should create, with all their bytes.
    pub(crate) outputs: Vec<MemoryFile>,
}

// The part of a command to which lines of content belong; `Nothing` if no part is open for content.
#[derive(Clone, Copy)]
enum Destination {
    Nothing,
    File,
    Input,
    Printed,
    Reported,
    Output,
}

// The commands read so far; the last one is still being read.
#[derive(Drop)]
struct Reading {
    commands: Vec<Command>,
    destination: Destination,
}

/// Reads the text of a case. Error: the number of the first line with a fault, and the fault.
pub(crate) fn read_case(alloc: Global, text: &str) -> Result<Vec<Command>, CaseFault> {
    let mut reading = Reading {
        commands: Vec::new(alloc),
        destination: Destination::Nothing,
    };
    let mut number: u64 = 0;
    for line in text.split('\n') {
        number = number.saturating_add(1);
        if let Err(fault) = reading.line(alloc, line) {
            return Err(CaseFault {
                line: number,
                fault,
            });
        }
    }
    Ok(reading.commands)
}

impl Reading {
    // Reads a line: skips an empty line or a comment, adds the bytes of a line of content, or begins a part. Error: the fault of the line.
    fn line(&mut self, alloc: Global, line: &str) -> Result<(), LineFault> {
        match line.as_bytes() {
            [] | [b';', ..] => Ok(()),
            [b'|', text @ ..] => {
                let mut bytes = unescaped(alloc, text)?;
                bytes.push(b'\n')?;
                self.content(bytes.as_slice())
            }
            [b'+', text @ ..] => {
                let bytes = unescaped(alloc, text)?;
                self.content(bytes.as_slice())
            }
            [b'=', ..] => {
                let bytes = bytes_of(alloc, line)?;
                self.content(bytes.as_slice())
            }
            _ => self.part(alloc, line),
        }
    }

    // Adds bytes to the part to which content belongs. Errors: `NoCommand` if no command has begun; `NoDestination` if no part is open for
    // content; `NoMemory`.
    fn content(&mut self, bytes: &[u8]) -> Result<(), LineFault> {
        let destination = self.destination;
        let command = self.commands.last_mut().ok_or(LineFault::NoCommand)?;
        match destination {
            Destination::Nothing => return Err(LineFault::NoDestination),
            Destination::File => add_to_last(&mut command.files, bytes)?,
            Destination::Input => command.input.extend_from_slice(bytes)?,
            Destination::Printed => command.printed.extend_from_slice(bytes)?,
            Destination::Reported => command.reported.extend_from_slice(bytes)?,
            Destination::Output => add_to_last(&mut command.outputs, bytes)?,
        }
        Ok(())
    }

    // Reads a line that begins a part: its name, and after a space its words, its path or its status. `words` begins a new command. Errors:
    // `NoCommand` for any other line before the first command; `UnknownPart`; `BadStatus`; `BadEscape` or `BadText` in a word or a path;
    // `NoMemory`.
    fn part(&mut self, alloc: Global, line: &str) -> Result<(), LineFault> {
        let (name, rest) = line.split_once(' ').unwrap_or((line, ""));
        if name == "words" {
            self.commands.push(command_of(alloc, rest)?)?;
            self.destination = Destination::Nothing;
            return Ok(());
        }
        let command = self.commands.last_mut().ok_or(LineFault::NoCommand)?;
        self.destination = match name {
            "file" => {
                command.files.push(empty_file(alloc, rest)?)?;
                Destination::File
            }
            "out" => {
                command.outputs.push(empty_file(alloc, rest)?)?;
                Destination::Output
            }
            "status" => {
                command.status = rest.parse::<u8>().or(Err(LineFault::BadStatus))?;
                Destination::Nothing
            }
            "stdin" => Destination::Input,
            "stdout" => Destination::Printed,
            "stderr" => Destination::Reported,
            _ => return Err(LineFault::UnknownPart),
        };
        Ok(())
    }
}

// A command `m11` with these words, which are separated by ASCII white space. It has no files and no input; its expected result is status
// 0, and no output. Errors: `BadEscape` or `BadText` in a word; `NoMemory`.
fn command_of(alloc: Global, texts: &str) -> Result<Command, LineFault> {
    let mut words = Vec::new(alloc);
    words.push(String::from_str(alloc, "m11")?)?;
    for text in texts.split_ascii_whitespace() {
        words.push(unescaped_text(alloc, text)?)?;
    }
    Ok(Command {
        words,
        files: Vec::new(alloc),
        input: Vec::new(alloc),
        status: 0,
        printed: Vec::new(alloc),
        reported: Vec::new(alloc),
        outputs: Vec::new(alloc),
    })
}

// Adds bytes to the last of these files. Errors: `NoDestination` if there is no file; `NoMemory`.
fn add_to_last(files: &mut Vec<MemoryFile>, bytes: &[u8]) -> Result<(), LineFault> {
    let file = files.last_mut().ok_or(LineFault::NoDestination)?;
    file.bytes.extend_from_slice(bytes)?;
    Ok(())
}

// An empty file at this path, which may contain escapes. Errors: `BadEscape`; `BadText`; `NoMemory`.
fn empty_file(alloc: Global, path: &str) -> Result<MemoryFile, LineFault> {
    Ok(MemoryFile {
        path: unescaped_text(alloc, path)?,
        bytes: Vec::new(alloc),
    })
}

// The bytes that the digits of a line spell, up to a comment after `;`: hexadecimal after `=`, octal after `= 0o`. Errors: `BadByte`;
// `NoMemory`.
fn bytes_of(alloc: Global, line: &str) -> Result<Vec<u8>, LineFault> {
    let (digits, _comment) = line.split_once(';').unwrap_or((line, ""));
    let mut bytes = Vec::new(alloc);
    let mut is_octal = false;
    for text in digits.split_ascii_whitespace() {
        match text {
            "=" => {}
            "0o" => is_octal = true,
            _ if is_octal => bytes.push(byte_of_octal(text.as_bytes()).ok_or(LineFault::BadByte)?)?,
            _ => bytes.push(byte_of_hex(text.as_bytes()).ok_or(LineFault::BadByte)?)?,
        }
    }
    Ok(bytes)
}
