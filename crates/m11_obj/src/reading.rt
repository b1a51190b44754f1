//! Reads the field at the beginning of some bytes, and returns it with the bytes after it; reads all entries of a record; and
//! checks a whole record. Each function may instead return the first fault. (RT-11 Volume and File Formats Manual, "Object file
//! format".)

ghost use Rattle.std.specs.Prelude.{◌≡◌, ◌+◌, ◌≤◌, length, Ok, OnOk};
ghost use Rattle.m11_obj.specs.Commands.{form_in};
ghost use Rattle.m11_obj_blocks.specs.Frames.{content_limit};
ghost use Rattle.m11_obj.specs.Reading.{Gives, checked, first_byte, first_word, first_name, entry_kind, first_entry, entries_of, first_target, first_relocation, relocations_of, record_kind_of, first_type, content_after, content_of, SaysWhatIsWritten};

use crate::commands::{Command, command_of};
use crate::fault::RecordFault;
use crate::gsd::{Entries, GsdEntry, GsdKind};
use crate::records::RecordKind;
use crate::relocations::{Relocation, Target};
use byteorder::{ByteOrder, LittleEndian};
use m11_base::Name;

#[inline(always)]
fn first_byte(bytes: &[u8]) -> Result<(u8, &[u8]), RecordFault>
    ensures { Gives (λ x. (x.0, x.1.now)) result (first_byte bytes.now) }
{
    match bytes {
        [] => Err(RecordFault::BadLength),
        [byte, rest @ ..] => Ok((*byte, rest)),
    }
}

#[tactic(auto, unfolding(crate::specs::Reading::first_word))]
#[inline(always)]
pub(crate) fn first_word(bytes: &[u8]) -> Result<(u16, &[u8]), RecordFault>
    ensures { Gives (λ x. (x.0, x.1.now)) result (first_word bytes.now) }
{
    match bytes {
        [] | [_] => Err(RecordFault::BadLength),
        [low, high, rest @ ..] => Ok((LittleEndian::read_u16(&[*low, *high]), rest)),
    }
}

// The name made of two words. If the first isn't a RADIX-50 word, the fault is `BadName`, even if the second is missing.
#[tactic(auto, unfolding(crate::specs::Reading::first_name, crate::specs::Reading::first_name_word))]
#[inline(always)]
fn first_name(bytes: &[u8]) -> Result<(Name, &[u8]), RecordFault>
    ensures { Gives (λ x. (x.0, x.1.now)) result (first_name bytes.now) }
{
    let (first, rest) = first_word(bytes)?;
    if Name::from_words(first, 0).is_none() {
        return Err(RecordFault::BadName);
    }
    let (second, rest) = first_word(rest)?;
    match Name::from_words(first, second) {
        Some(name) => Ok((name, rest)),
        None => Err(RecordFault::BadName),
    }
}

#[tactic(auto, unfolding(crate::specs::Reading::entry_kind))]
fn entry_kind(code: u8) -> Result<GsdKind, RecordFault>
    ensures { result ≡ entry_kind code }
{
    match code {
        0 => Ok(GsdKind::ModuleName),
        1 => Ok(GsdKind::ControlSection),
        2 => Ok(GsdKind::InternalSymbol),
        3 => Ok(GsdKind::TransferAddress),
        4 => Ok(GsdKind::GlobalSymbol),
        5 => Ok(GsdKind::ProgramSection),
        6 => Ok(GsdKind::Identification),
        7 => Err(RecordFault::MappedArray),
        _ => Err(RecordFault::UnknownType),
    }
}

// A directory entry: its name, flags byte, type byte and value.
#[tactic(auto, unfolding(crate::specs::Reading::first_entry))]
pub(crate) fn first_entry(bytes: &[u8]) -> Result<(GsdEntry, &[u8]), RecordFault>
    ensures { Gives (λ x. (x.0, x.1.now)) result (first_entry bytes.now) }
{
    let (name, rest) = match first_name(bytes) {
        Ok((name, rest)) => (name, rest),
        Err(fault) => return Err(fault),
    };
    let (flags, rest) = first_byte(rest)?;
    let (code, rest) = first_byte(rest)?;
    let kind = entry_kind(code)?;
    let (value, rest) = first_word(rest)?;
    Ok((
        GsdEntry {
            name,
            flags,
            kind,
            value,
        },
        rest,
    ))
}

// The target of a command, made of the fields that follow its displacement.
#[tactic(auto, unfolding(crate::specs::Reading::first_target))]
#[inline(always)]
fn first_target(command: Command, bytes: &[u8]) -> Result<(Target, &[u8]), RecordFault>
    ensures { Gives (λ x. (x.0, x.1.now)) result (first_target (form_in command) bytes.now) }
{
    match command {
        Command::ProgramLimits => Ok((Target::ProgramLimits, bytes)),
        Command::Constant(row) => {
            let (constant, rest) = first_word(bytes)?;
            Ok((row.target(constant), rest))
        }
        Command::Name(row) => match first_name(bytes) {
            Ok((name, rest)) => Ok((row.target(name), rest)),
            Err(fault) => Err(fault),
        },
        Command::NameAndConstant(row) => match first_name(bytes) {
            Ok((name, rest)) => {
                let (constant, rest) = first_word(rest)?;
                Ok((row.target(name, constant), rest))
            }
            Err(fault) => Err(fault),
        },
    }
}

// An entry of a relocation directory: its command byte, whose bit octal 200 selects the byte form, its displacement and its fields.
// speed: inline, since a walk calls it for each entry.
#[tactic(auto, unfolding(crate::specs::Reading::first_relocation))]
#[inline(always)]
pub(crate) fn first_relocation(bytes: &[u8]) -> Result<(Relocation, &[u8]), RecordFault>
    ensures { Gives (λ x. (x.0, x.1.now)) result (first_relocation bytes.now) }
{
    let (code, rest) = first_byte(bytes)?;
    let is_byte = code >= 0o200;
    let command = command_of(is_byte, code % 0o200)?;
    let (displacement, rest) = first_byte(rest)?;
    match first_target(command, rest) {
        Ok((target, rest)) => {
            let relocation = Relocation {
                is_byte,
                displacement,
                target,
            };
            Ok((relocation, rest))
        }
        Err(fault) => Err(fault),
    }
}

#[tactic(auto, unfolding(crate::specs::Reading::record_kind_of))]
fn record_kind_of(code: u16) -> Result<RecordKind, RecordFault>
    ensures { result ≡ record_kind_of code }
{
    match code {
        0o1 => Ok(RecordKind::Gsd),
        0o2 => Ok(RecordKind::EndOfGsd),
        0o3 => Ok(RecordKind::Text),
        0o4 => Ok(RecordKind::Relocations),
        0o5 => Ok(RecordKind::InternalSymbols),
        0o6 => Ok(RecordKind::EndOfModule),
        0o7 | 0o10 => Err(RecordFault::Library),
        _ => Err(RecordFault::UnknownType),
    }
}

// The type of a record, from its type word.
#[tactic(auto, unfolding(crate::specs::Reading::first_type))]
#[inline(always)]
pub(crate) fn first_type(bytes: &[u8]) -> Result<(RecordKind, &[u8]), RecordFault>
    ensures { Gives (λ x. (x.0, x.1.now)) result (first_type bytes.now) }
{
    let (code, rest) = first_word(bytes)?;
    let kind = record_kind_of(code)?;
    Ok((kind, rest))
}

// The directory entries in all these bytes, which follow a record's type word; or the first fault.
pub(crate) fn read_entries(bytes: &[u8]) -> Result<Entries, RecordFault>
    requires { length bytes.now + 2 ≤ content_limit }
    ensures { Gives (λ entries. entries.items) result (entries_of bytes.now) }
{
    let mut entries = Entries::new();
    let mut rest = bytes;
    'entries: while !rest.is_empty() {
        match first_entry(rest) {
            Ok((entry, following)) => {
                entries.push(entry);
                rest = following;
            }
            Err(fault) => return Err(fault),
        }
    }
    Ok(entries)
}

// Checks that all these bytes are directory entries.
fn check_entries(bytes: &[u8]) -> Result<(), RecordFault>
    ensures { result ≡ checked (entries_of bytes.now) }
{
    let mut rest = bytes;
    while !rest.is_empty() {
        rest = match first_entry(rest) {
            Ok((_, following)) => following,
            Err(fault) => return Err(fault),
        };
    }
    Ok(())
}

// Checks that all these bytes are relocations.
pub(crate) fn check_relocations(bytes: &[u8]) -> Result<(), RecordFault>
    ensures { result ≡ checked (relocations_of bytes.now) }
{
    let mut rest = bytes;
    while !rest.is_empty() {
        rest = match first_relocation(rest) {
            Ok((_, following)) => following,
            Err(fault) => return Err(fault),
        };
    }
    Ok(())
}

// Checks that these bytes may follow the type word of a record of this kind.
#[tactic(auto, unfolding(crate::specs::Reading::content_after))]
fn check_after(kind: RecordKind, bytes: &[u8]) -> Result<(), RecordFault>
    ensures { result ≡ checked (content_after kind bytes.now) }
{
    match kind {
        RecordKind::Gsd => check_entries(bytes),
        RecordKind::Text => {
            first_word(bytes)?;
            Ok(())
        }
        RecordKind::Relocations => check_relocations(bytes),
        RecordKind::EndOfGsd | RecordKind::InternalSymbols | RecordKind::EndOfModule => Ok(()),
    }
}

// Checks that these bytes are a valid record.
#[tactic(auto, unfolding(crate::specs::Reading::content_of))]
pub(crate) fn check_record(bytes: &[u8]) -> Result<(), RecordFault>
    requires { length bytes.now ≤ content_limit }
    ensures is { result ≡ checked (content_of bytes.now) }
    ensures says { OnOk result (SaysWhatIsWritten bytes.now) }
{
    let (kind, rest) = first_type(bytes)?;
    check_after(kind, rest)
}
