//! Records: the contents of the blocks of an object. (RT-11 Volume and File Formats Manual, "Object file format".)

ghost use Rattle.std.specs.Prelude.{◌≡◌, ◌+◌, ◌≤◌, ◌<◌, ℕ, List, length, Ok, IfOk, All, Some, IsSome, slice_get, option_map};
ghost use Rattle.m11_obj_blocks.specs.Frames.{word_bytes, content_limit};
ghost use Rattle.m11_obj.specs.Gsd.{entry_limit};
ghost use Rattle.m11_obj.specs.Reading.{content_of, IsRecord, SaysWhatIsWritten, AreRelocations, relocations_left, record_of, record_kind, record_entries, record_text, record_relocations};
ghost use Rattle.m11_obj.specs.Records.{Content, IsRecordOf};
ghost use Rattle.m11_obj.specs.Relocations.{relocations_bytes, relocation_limit, FormExists};

use crate::fault::RecordFault;
use crate::gsd::{GsdEntry, add_entry, add_word};
use crate::reading::{check_record, first_entry, first_type, first_word};
use crate::relocation_walk;
use crate::relocations::{Relocation, add_relocation};
use m11_obj_blocks::Block;
use std::alloc::{AllocError, Global};
use std::marker::Model;

/// The types of records.
#[derive(Clone, Copy, PartialEq, Eq)]
pub enum RecordKind {
    /// 1: entries of the global symbol directory.
    Gsd,
    /// 2: the end of that directory.
    EndOfGsd,
    /// 3: text: a load address and bytes.
    Text,
    /// 4: relocations of the text before them.
    Relocations,
    /// 5: the directory of internal symbols.
    InternalSymbols,
    /// 6: the end of the module.
    EndOfModule,
}

/// A record, which borrows the content of its block.
#[derive(Drop)]
pub struct Record<'a> {
    pub(crate) content: &'a [u8],
}

impl<'a> Model for Record<'a> {
    ghost use Rattle.std.specs.Prelude.{ℕ, List};
    ghost use Rattle.m11_obj.specs.Reading.{IsHeldRecord};

    ghost Value = { List ℕ };

    ghost view = { λ r. r.content.now };

    ghost invariant = { λ r. IsHeldRecord r.content.now };
}

// A block's content with only a type word.
fn with_type(code: u16) -> Block
    ensures { result.items ≡ word_bytes code }
{
    let mut content = Block::new();
    add_word(&mut content, code);
    content
}

// The contents of records, to be written as blocks.
impl Record<'_> {
    ghost use Rattle.m11_obj.specs.Records.{Gsd, EndOfGsd, Text, Relocations, InternalSymbols, EndOfModule, record_data};
    ghost use Rattle.m11_obj.specs.Reading.{content_of};

    /// A record of directory entries, in order. Requires at most 63 entries.
    pub fn gsd(entries: &[GsdEntry]) -> Block
        requires { length entries.now ≤ entry_limit }
        ensures bytes { result.items ≡ record_data (Gsd entries.now) }
        ensures means { content_of result.items ≡ Ok (Gsd entries.now) }
    {
        let mut content = with_type(1);
        for entry in entries {
            add_entry(&mut content, entry);
        }
        content
    }

    /// The end of the directory.
    pub fn end_of_gsd() -> Block
        ensures bytes { result.items ≡ record_data EndOfGsd }
        ensures means { content_of result.items ≡ Ok EndOfGsd }
    {
        with_type(2)
    }

    /// Text: the bytes at a load address, which is relative to the base of the current section. Requires at most 508 bytes.
    pub fn text(address: u16, bytes: &[u8]) -> Block
        requires { length bytes.now + 4 ≤ content_limit }
        ensures bytes { result.items ≡ record_data (Text address bytes.now) }
        ensures means { content_of result.items ≡ Ok (Text address bytes.now) }
    {
        let mut content = with_type(3);
        add_word(&mut content, address);
        content.try_extend_from_slice(bytes).unwrap();
        content
    }

    /// A record of relocations, in order, of the text before the record. Requires that their bytes and the type word fit into a
    /// block, and that each relocation of a byte has a command with a byte form.
    pub fn relocations(relocations: &[Relocation]) -> Block
        requires room { length (relocations_bytes relocations.now) + 2 ≤ content_limit }
        requires form { All (λ relocation. FormExists relocation.is_byte relocation.target) relocations.now }
        ensures bytes { result.items ≡ record_data (Relocations relocations.now) }
        ensures means { content_of result.items ≡ Ok (Relocations relocations.now) }
    {
        let mut content = with_type(4);
        for relocation in relocations {
            add_relocation(&mut content, relocation);
        }
        content
    }

    /// An empty directory of internal symbols.
    pub fn internal_symbols() -> Block
        ensures bytes { result.items ≡ record_data InternalSymbols }
        ensures means { content_of result.items ≡ Ok InternalSymbols }
    {
        with_type(5)
    }

    /// The end of the module.
    pub fn end_of_module() -> Block
        ensures bytes { result.items ≡ record_data EndOfModule }
        ensures means { content_of result.items ≡ Ok EndOfModule }
    {
        with_type(6)
    }
}

// The type of a record.
fn kind_at(bytes: &[u8]) -> RecordKind
    requires { IsRecord bytes.now }
    ensures kind { record_kind bytes.now ≡ Ok result }
    ensures text { result ≡ RecordKind.Text → IsSome (record_text bytes.now) }
{
    match first_type(bytes) {
        Ok((kind, _)) => kind,
        Err(_) => unreachable!(),
    }
}

// The directory entry at this index.
fn entry_at(bytes: &[u8], index: usize) -> GsdEntry
    requires fits { length bytes.now ≤ content_limit }
    requires in_bounds { index < length (record_entries bytes.now) }
    ensures { slice_get (record_entries bytes.now) index ≡ Some result }
{
    let (_, rest) = bytes.split_at(2 + 8 * index);
    match first_entry(rest) {
        Ok((entry, _)) => entry,
        Err(_) => unreachable!(),
    }
}

// The load address and the bytes of a text record.
fn text_at(bytes: &[u8]) -> (u16, &[u8])
    requires { IsSome (record_text bytes.now) }
    ensures text { record_text bytes.now ≡ Some (result.0, result.1.now) }
    ensures fits { length result.1.now ≤ length bytes.now }
{
    let (_, rest) = bytes.split_at(2);
    match first_word(rest) {
        Ok(text) => text,
        Err(_) => unreachable!(),
    }
}

// The bytes of a record's relocations; none if it isn't a relocation record.
fn relocation_bytes(bytes: &[u8]) -> &[u8]
    requires is { IsRecord bytes.now }
    requires fits { length bytes.now ≤ content_limit }
    ensures are { AreRelocations result.now }
    ensures left { relocations_left result.now ≡ record_relocations bytes.now }
    ensures few { length (record_relocations bytes.now) ≤ relocation_limit }
{
    match kind_at(bytes) {
        RecordKind::Relocations => bytes.split_at(2).1,
        _ => &[],
    }
}

// The fields of a record.
impl Record<'_> {
    /// The record's bytes, as in its block.
    pub fn data(&self) -> &[u8]
        ensures bytes { result.now ≡ self.now }
        ensures fits { length self.now ≤ content_limit }
        ensures means { IsRecord self.now }
    {
        self.content
    }

    /// The type of the record.
    pub fn kind(&self) -> RecordKind
        ensures kind { record_kind self.now ≡ Ok result }
        ensures text { result ≡ RecordKind.Text → IsSome (record_text self.now) }
    {
        kind_at(self.content)
    }

    /// The number of directory entries; 0 if the record isn't a directory record.
    pub fn entry_count(&self) -> usize
        ensures { result ≡ length (record_entries self.now) }
    {
        let bytes = self.content;
        match kind_at(bytes) {
            RecordKind::Gsd => (bytes.len() - 2) / 8,
            _ => 0,
        }
    }

    /// The directory entry at this index. Requires an index below the number of entries.
    pub fn entry(&self, index: usize) -> GsdEntry
        requires { index < length (record_entries self.now) }
        ensures { slice_get (record_entries self.now) index ≡ Some result }
    {
        entry_at(self.content, index)
    }

    /// The load address of a text record, relative to the base of the current section. Requires a text record.
    pub fn text_address(&self) -> u16
        requires { IsSome (record_text self.now) }
        ensures { option_map (λ text. text.0) (record_text self.now) ≡ Some result }
    {
        text_at(self.content).0
    }

    /// The bytes of a text record, at most 508. Requires a text record.
    pub fn text_bytes(&self) -> &[u8]
        requires { IsSome (record_text self.now) }
        ensures bytes { option_map (λ text. text.1) (record_text self.now) ≡ Some result.now }
        ensures fits { length result.now ≤ content_limit }
    {
        text_at(self.content).1
    }

    /// The relocation at this index, if there is one. Only a relocation record has relocations. Each call reads from the beginning.
    pub fn relocation(&self, index: usize) -> Option<Relocation>
        ensures { result ≡ slice_get (record_relocations self.now) index }
    {
        relocation_walk::relocation_at(relocation_bytes(self.content), index)
    }

    /// An iterator over the relocations, in order. There are at most 255, and none if the record isn't a relocation record.
    pub fn each_relocation(&self) -> relocation_walk::Relocations<'_>
        ensures all { result ≡ record_relocations self.now }
        ensures few { length result ≤ relocation_limit }
    {
        relocation_walk::walk(relocation_bytes(self.content))
    }
}

/// The record's bytes, as in its block: at most 512. `block_bytes` makes a block of them. Error: memory was refused.
pub fn record_bytes(alloc: Global, record: &Record<'_>) -> Result<Vec<u8>, AllocError>
    ensures bytes { IfOk result (λ v. v.items ≡ «record».now) }
    ensures fits { IfOk result (λ v. length v.items ≤ content_limit) }
    ensures means { IfOk result (λ v. IsRecord v.items) }
    ensures again { IfOk result (λ v. record_of v.items ≡ Ok «record».now) }
{
    Vec::from_slice(alloc, record.data())
}

/// The record in a block's content, which the result borrows. Any bytes after the type words 2, 5 and 6 are ignored. Allocates
/// nothing.
///
/// Errors, of which the first in the order of the bytes is returned: `UnknownType` for an unknown type of record or of entry,
/// `Library` for record types 7 and octal 10, `MappedArray` for entry type 7, `Complex` for commands octal 17 and 217,
/// `UnknownRelocation` for an unknown command or the byte form of one that has none, `BadName` for a word of a name that is octal
/// 175000 or more, and `BadLength` if the bytes end before a field does.
#[inline]
pub fn read_record(block: &Block) -> Result<Record<'_>, RecordFault>
    ensures read { result ≡ record_of block.now.items }

    // The record that is read is the one written as these bytes. Every record that is written in this way is read, even if ignored
    // bytes follow it.
    ensures says { IfOk result SaysWhatIsWritten }
    ensures all { (content : Content) → IsRecordOf content block.now.items
        → (content_of block.now.items ≡ Ok content) × (result ≡ Ok block.now.items) }
{
    let content = block.as_slice();
    check_record(content)?;
    Ok(Record { content })
}
