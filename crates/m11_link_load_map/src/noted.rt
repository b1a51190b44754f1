//! The facts that the map needs from the records of objects, collected in order.

ghost use Rattle.std.specs.Prelude.{◌≡◌, ◌∷◌, [], ◌++◌, List, OnOk, map, ℕ};
ghost use Rattle.m11_obj.specs.Contents.{unread_directory};
ghost use Rattle.m11_obj.specs.Reading.{content_of};
ghost use Rattle.m11_link_modules.specs.Parts.{Entry, record_parts};
ghost use Rattle.m11_link_load_map.specs.Noted.{noted_of};

use m11_base::Name;
use m11_obj::{Block, Contents, GsdEntry, GsdKind, UnreadEntries, read_contents};
use std::alloc::AllocError;

/// A fact that the map needs from a record.
#[derive(Clone, Copy)]
pub(crate) enum MapFact {
    /// A section that a module contributes to, and the size of the contribution in bytes.
    Section(Name, u16),
    /// The end of a module.
    ModuleEnd,
}

/// Records what the map needs from a block; nothing from a block that isn't a valid record. Error: memory was refused.
#[tactic(auto, using(crate::proofs::NotedParts::of_text, crate::proofs::NotedParts::of_relocations, crate::proofs::NotedParts::of_none, crate::proofs::NotedParts::of_directory_end, crate::proofs::NotedParts::of_symbols, crate::proofs::NotedParts::of_module_end))]
pub(crate) fn add_block(noted: &mut Vec<MapFact>, block: &Block) -> Result<(), AllocError>
    ensures { OnOk result (noted.new.items ≡ noted.old.items ++ noted_of (record_parts block.now.items)) }
{
    match read_contents(block) {
        Ok(Contents::Directory(unread)) => add_directory(noted, &unread),
        Ok(Contents::EndOfDirectory) => Ok(()),
        Ok(Contents::Text(_, _)) => Ok(()),
        Ok(Contents::Relocations(_)) => Ok(()),
        Ok(Contents::InternalSymbols) => Ok(()),
        Ok(Contents::EndOfModule) => {
            noted.push(MapFact::ModuleEnd)?;
            Ok(())
        }
        Err(_) => Ok(()),
    }
}

// Records what the map needs from a directory record; nothing from one that isn't valid.
#[tactic(auto, using(crate::proofs::NotedParts::of_directory, crate::proofs::NotedParts::of_bad_directory))]
fn add_directory(noted: &mut Vec<MapFact>, unread: &UnreadEntries<'_>) -> Result<(), AllocError>
    ensures { (bytes : List ℕ) → content_of bytes ≡ unread_directory unread.now
        → OnOk result (noted.new.items ≡ noted.old.items ++ noted_of (record_parts bytes)) }
{
    match unread.read() {
        Ok(entries) => add_entries(noted, entries.as_slice()),
        Err(_) => Ok(()),
    }
}

// Records the sections of a directory's entries.
fn add_entries(noted: &mut Vec<MapFact>, entries: &[GsdEntry]) -> Result<(), AllocError>
    ensures { OnOk result (noted.new.items ≡ noted.old.items ++ noted_of (map (λ entry. Entry entry) entries.now)) }
{
    'entries: for entry in entries {
        add_entry(noted, entry)?;
    }
    Ok(())
}

// Records the section of an entry, if it is a section entry.
#[tactic(auto, unfolding(crate::specs::Noted::noted_of))]
fn add_entry(noted: &mut Vec<MapFact>, entry: &GsdEntry) -> Result<(), AllocError>
    ensures { OnOk result (noted.new.items ≡ noted.old.items ++ noted_of (Entry entry.now ∷ [])) }
{
    match entry.kind {
        GsdKind::ControlSection | GsdKind::ProgramSection => {
            noted.push(MapFact::Section(entry.name, entry.value))?;
            Ok(())
        }
        _ => Ok(()),
    }
}
