//! The rows of a directory, and the records that hold them. (RT-11 Volume and File Formats Manual, "Object file format", GSD block.)

ghost use Rattle.std.specs.Prelude.{◌≡◌, ◌≤◌, List, [], ◌∷◌, ◌++◌, if◌then◌else◌, length};
ghost use Rattle.std.specs.Option.{option_to_list};
ghost use Rattle.m11_obj.specs.Records.{Content};
ghost use Rattle.m11_obj.specs.Blocks.{AreRecords};
ghost use Rattle.m11_obj.specs.Directory.{entry, entry_of, IsOpenDirectory, directory_records, written_by};

use crate::flags::{SectionFlags, SymbolFlags};
use crate::gsd::{GsdEntry, GsdKind};
use crate::records::Record;
use bitflags::Flags;
use m11_base::{Name, absolute_section};
use m11_obj_blocks::Block;
use std::marker::Model;

/// The largest number of entries in one record of a directory that an assembler writes.
const MOST_ENTRIES: usize = 15;

/// One row of a directory.
#[derive(Clone, Copy, PartialEq, Eq)]
pub enum DirectoryRow {
    /// The module's name.
    Module(Name),
    /// The identification of the module.
    Identification(Name),
    /// A section, its attributes, and its size in bytes. The definitions after it, up to the next section, belong to it.
    Section {
        name: Name,
        flags: SectionFlags,
        size: u16,
    },
    /// A defined global: its name, whether it is relocated with its section, and its value.
    Definition {
        name: Name,
        is_relocatable: bool,
        value: u16,
    },
    /// A global that the module refers to, and whether the reference is weak.
    Reference {
        name: Name,
        is_weak: bool,
    },
    /// The transfer address: its section, and its offset in that section.
    Transfer {
        section: Name,
        value: u16,
    },
}

impl DirectoryRow {
    /// The directory entry for this row.
    pub fn entry(&self) -> GsdEntry
        ensures { result ≡ entry_of self.now }
    {
        match *self {
            DirectoryRow::Module(name) => entry(name, 0, GsdKind::ModuleName, 0),
            DirectoryRow::Identification(name) => entry(name, 0, GsdKind::Identification, 0),
            DirectoryRow::Section { name, flags, size } => {
                entry(name, flags.bits(), GsdKind::ProgramSection, size)
            }
            DirectoryRow::Definition {
                name,
                is_relocatable,
                value,
            } => entry(
                name,
                definition_flags(is_relocatable),
                GsdKind::GlobalSymbol,
                value,
            ),
            DirectoryRow::Reference { name, is_weak } => {
                entry(name, reference_flags(is_weak), GsdKind::GlobalSymbol, 0)
            }
            DirectoryRow::Transfer { section, value } => {
                entry(section, 0, GsdKind::TransferAddress, value)
            }
        }
    }
}

fn entry(name: Name, flags: u8, kind: GsdKind, value: u16) -> GsdEntry
    ensures { result ≡ entry name flags kind value }
{
    GsdEntry {
        name,
        flags,
        kind,
        value,
    }
}

fn definition_flags(is_relocatable: bool) -> u8
    ensures { result ≡ (if is_relocatable then 0o050 else 0o010) }
{
    let flags = if is_relocatable {
        SymbolFlags::DEFINED.union(SymbolFlags::RELOCATABLE)
    } else {
        SymbolFlags::DEFINED
    };
    flags.bits()
}

fn reference_flags(is_weak: bool) -> u8
    ensures { result ≡ (if is_weak then 0o001 else 0) }
{
    if is_weak { SymbolFlags::WEAK.bits() } else { 0 }
}

/// The entries that are waiting to be returned as the next record, at most 15. The record is returned when it is full and a further
/// row is accepted, or when the directory ends.
#[derive(Drop)]
pub struct OpenDirectory {
    slots: [GsdEntry; MOST_ENTRIES],
    count: usize,
}

impl Model for OpenDirectory {
    ghost use Rattle.std.specs.Prelude.{◌≡◌, ◌≤◌, List, length, take};
    ghost use Rattle.m11_obj.specs.declared.gsd.GsdEntry.{GsdEntry};

    ghost Value = { List GsdEntry };

    ghost view = { λ d. take d.count d.slots };

    ghost invariant = { λ d. (length (take d.count d.slots) ≡ d.count) × (d.count ≤ 15) };
}

impl OpenDirectory {
    ghost use Rattle.m11_obj.specs.declared.directory.DirectoryRow.{DirectoryRow};

    /// A directory before its first row.
    pub fn new() -> OpenDirectory
        ensures empty { result ≡ [] }
        ensures stands { IsOpenDirectory [] [] result }
    {
        OpenDirectory {
            slots: [entry(absolute_section(), 0, GsdKind::ModuleName, 0); MOST_ENTRIES],
            count: 0,
        }
    }

    // The record with the waiting entries, if there are any.
    fn record(&self) -> Option<Block>
        ensures { AreRecords (option_to_list result) (written_by self.now) }
    {
        if self.count == 0 {
            return None;
        }
        Some(Record::gsd(&self.slots[..self.count]))
    }

    // Adds an entry to the waiting ones.
    fn push(&mut self, entry: GsdEntry)
        requires { length self.old ≤ 14 }
        ensures { self.new ≡ self.old ++ entry ∷ [] }
    {
        self.slots[self.count] = entry;
        self.count += 1;
    }

    /// Accepts a row. If the record is full, returns it, to be written as a block, and begins another one with the row; otherwise
    /// returns `None`.
    pub fn accept(&mut self, row: &DirectoryRow) -> Option<Block>
        ensures { (rows : List DirectoryRow) (written : List Content) → IsOpenDirectory rows written self.old
            → (more : List Content) × IsOpenDirectory (rows ++ row.now ∷ []) (written ++ more) self.new
            × AreRecords (option_to_list result) more }
    {
        if self.count < MOST_ENTRIES {
            self.push(row.entry());
            return None;
        }
        let full = self.record();
        self.count = 0;
        self.push(row.entry());
        full
    }

    /// Returns the last record, to be written as a block, if there was any row.
    pub fn end(self) -> Option<Block>
        ensures { (rows : List DirectoryRow) (written : List Content) → IsOpenDirectory rows written self
            → (more : List Content) × (written ++ more ≡ directory_records rows)
            × AreRecords (option_to_list result) more }
    {
        self.record()
    }
}
