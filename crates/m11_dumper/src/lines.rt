//! The program's own lines: the head of a file, and the reason why not all files were shown.

ghost use Rattle.std.specs.Prelude.{◌≡◌, ◌++◌, IfOk, OnOk};
ghost use Rattle.std.specs.Fmt.{decimal};
ghost use Rattle.m11_dumper.specs.Lines as spec;
ghost use Rattle.m11_dumper.specs.Numbered.{numbered, path_end};

use crate::map_lines::{map_line, object_line};
use crate::stop::Stop;
use m11_dump::{DumpFault, Kind, LocatedFault};
use m11_link_layout::LinkFault;
use m11_obj::{BlockFault, TapeFault};
use std::alloc::{AllocError, Global};

// Adds a number in decimal to a line. Error: memory was refused.
fn put_decimal(line: &mut Vec<u8>, alloc: Global, number: u64) -> Result<(), AllocError>
    ensures { OnOk result (line.new.items ≡ line.old.items ++ decimal number) }
{
    let digits = number.to_string(alloc)?;
    line.extend_from_slice(digits.as_bytes())
}

/// Adds a word, a number in decimal, a space and a name to a line. Error: memory was refused.
#[tactic(auto, using(m11_dump::proofs::Items::four_put))]
pub(crate) fn put_numbered(
    line: &mut Vec<u8>,
    alloc: Global,
    word: &str,
    number: u8,
    name: &str,
) -> Result<(), AllocError>
    ensures { OnOk result (line.new.items ≡ line.old.items ++ numbered word.now number name.now) }
{
    line.extend_from_slice(word.as_bytes())?;
    put_decimal(line, alloc, u64::from(number))?;
    line.push(b' ')?;
    line.extend_from_slice(name.as_bytes())
}

// Adds the number and the name of a fault to a line. A fault of a block, a record or a tape also has the number and the name of its inner
// fault, unless the device failed or the file is too long. Error: memory was refused.
fn put_fault(line: &mut Vec<u8>, alloc: Global, fault: DumpFault) -> Result<(), AllocError>
    ensures { OnOk result (line.new.items ≡ line.old.items ++ spec.fault_text fault) }
{
    match fault {
        DumpFault::Block(BlockFault::Device) => line.extend_from_slice(b"1 Read"),
        DumpFault::Block(BlockFault::TooMuch) => line.extend_from_slice(b"13 TooMuch"),
        DumpFault::Tape(TapeFault::Device) => line.extend_from_slice(b"1 Read"),
        DumpFault::Tape(TapeFault::TooMuch) => line.extend_from_slice(b"13 TooMuch"),
        DumpFault::Tape(inner) => {
            put_numbered(line, alloc, "20 Tape ", inner.number(), inner.name())
        }
        DumpFault::Block(inner) => {
            put_numbered(line, alloc, "3 Block ", inner.number(), inner.name())
        }
        DumpFault::Record(inner) => {
            put_numbered(line, alloc, "4 Record ", inner.number(), inner.name())
        }
        DumpFault::Rule(inner) => {
            let inner = LinkFault::from(inner);
            put_numbered(line, alloc, "", inner.number(), inner.name())
        }
        DumpFault::Write => line.extend_from_slice(b"2 Write"),
        DumpFault::NoMemory => line.extend_from_slice(b"90 NoMemory"),
    }
}

// Adds the position of a fault to a line: the number of its block, and the offset of its byte in the file. Error: memory was refused.
#[tactic(auto, using(m11_dump::proofs::Items::four_put))]
fn put_position(line: &mut Vec<u8>, alloc: Global, placed: LocatedFault) -> Result<(), AllocError>
    ensures { OnOk result (line.new.items ≡ line.old.items ++ spec.position_text placed) }
{
    line.extend_from_slice(b" IN BLOCK ")?;
    put_decimal(line, alloc, placed.block)?;
    line.extend_from_slice(b" AT BYTE ")?;
    put_decimal(line, alloc, placed.byte)
}

/// Adds a word, a path and a line feed to a line. Error: memory was refused.
pub(crate) fn put_path(line: &mut Vec<u8>, word: &str, path: &str) -> Result<(), AllocError>
    ensures { OnOk result (line.new.items ≡ line.old.items ++ path_end word.now path.now) }
{
    line.extend_from_slice(word.as_bytes())?;
    line.extend_from_slice(path.as_bytes())?;
    line.push(b'\n')?;
    Ok(())
}

// The line for a dump that stopped at a fault in the file at this path. Error: memory was refused.
fn in_file_line(alloc: Global, path: &str, placed: LocatedFault) -> Result<Vec<u8>, AllocError>
    ensures { IfOk result (λ line. line.items ≡ spec.in_file_line path.now placed) }
{
    let mut line = Vec::new(alloc);
    line.extend_from_slice(b"?M11 DUMP ")?;
    put_fault(&mut line, alloc, placed.fault)?;
    put_position(&mut line, alloc, placed)?;
    put_path(&mut line, " OF ", path)?;
    Ok(line)
}

// A line of a word and a path. Error: memory was refused.
fn path_line(alloc: Global, word: &str, path: &str) -> Result<Vec<u8>, AllocError>
    ensures { IfOk result (λ line. line.items ≡ path_end word.now path.now) }
{
    let mut line = Vec::new(alloc);
    put_path(&mut line, word, path)?;
    Ok(line)
}

/// The line before the dump of a file: its kind and its path. Error: memory was refused.
pub(crate) fn head_line(alloc: Global, kind: Kind, path: &str) -> Result<Vec<u8>, AllocError>
    ensures { IfOk result (λ line. line.items ≡ spec.head_line kind path.now) }
{
    match kind {
        Kind::Object => path_line(alloc, "OBJECT ", path),
        Kind::Library => path_line(alloc, "LIBRARY ", path),
        Kind::Tape => path_line(alloc, "TAPE ", path),
    }
}

/// The line that says why not all files were shown. Error: memory was refused.
pub(crate) fn stop_line(alloc: Global, stop: &Stop<'_>) -> Result<Vec<u8>, AllocError>
    ensures { IfOk result (λ line. line.items ≡ spec.stop_line stop.now) }
{
    match stop {
        Stop::NotOpened(path) => path_line(alloc, "?M11 OPEN ", path),
        Stop::InFile(path, placed) => in_file_line(alloc, path, *placed),
        Stop::NotTape(path) => path_line(alloc, "?M11 DUMP 21 NotTape OF ", path),
        Stop::SeveralFiles => Vec::from_slice(alloc, b"?M11 DUMP 22 SeveralFiles\n"),
        Stop::InObject(path, fault) => object_line(alloc, path, *fault),
        Stop::InMap(fault) => map_line(alloc, *fault),
        Stop::NoSymbols(path, fault) => path_line(alloc, fault.line_head(), path),
        Stop::Write => Vec::from_slice(alloc, b"?M11 DUMP 2 Write\n"),
        Stop::NoMemory => Vec::from_slice(alloc, b"?M11 DUMP 90 NoMemory\n"),
    }
}
