//! The types of a library's records, and the order in which they may come.

ghost use Rattle.std.specs.Prelude.{◌≡◌};
ghost use Rattle.m11_obj.specs.Reading.{record_entries};
ghost use Rattle.m11_dump.specs.LibraryParts as spec;

use byteorder::{ByteOrder, LittleEndian};
use m11_obj::{GsdKind, Record};

/// A record of a library, by its type.
#[derive(Clone, Copy)]
pub(crate) enum Part {
    /// 1: entries of a module's directory.
    Directory,
    /// 2 to 5: another record of a module, of which only the type is read.
    Inner,
    /// 6: the end of a module.
    ModuleEnd,
    /// Octal 10: the end of the library.
    LibraryEnd,
    /// Any other type, or none, if the content of the block has fewer than two bytes.
    Other,
}

/// The place between two records of a library.
#[derive(Clone, Copy)]
pub(crate) enum Stage {
    /// Before a module or the library's end.
    Between,
    /// Inside a module.
    Inside,
    /// After the library's end.
    Over,
}

// The part that a record of this type forms.
fn part_by(code: u16) -> Part
    ensures { result ≡ spec.part_by code }
{
    match code {
        1 => Part::Directory,
        2 | 3 | 4 | 5 => Part::Inner,
        6 => Part::ModuleEnd,
        8 => Part::LibraryEnd,
        _ => Part::Other,
    }
}

/// The part that a block with this content is, according to the content's first word; `Other` if the content has fewer than two bytes.
pub(crate) fn part_of(content: &[u8]) -> Part
    ensures { result ≡ spec.part_of content.now }
{
    match content {
        [] | [_] => Part::Other,
        [low, high, ..] => part_by(LittleEndian::read_u16(&[*low, *high])),
    }
}

/// Whether a directory begins a module: whether its first entry is the module's name. A directory without entries begins none.
pub(crate) fn begins(record: &Record<'_>) -> bool
    ensures { result ≡ spec.begins (record_entries «record».now) }
{
    record.entry_count() > 0 && matches!(record.entry(0).kind, GsdKind::ModuleName)
}

// The stage after a directory; None where it may not come: between modules if it begins none, inside a module if it begins another
// one, and after the library's end.
fn after_directory(stage: Stage, begins: bool) -> Option<Stage>
    ensures { result ≡ spec.after_directory stage begins }
{
    match (stage, begins) {
        (Stage::Between, true) | (Stage::Inside, false) => Some(Stage::Inside),
        (Stage::Between, false) | (Stage::Inside, true) | (Stage::Over, _) => None,
    }
}

// The stage after another record of a module: `after` if the record is inside a module, otherwise None.
fn after_inner(stage: Stage, after: Stage) -> Option<Stage>
    ensures { result ≡ spec.after_inner stage after }
{
    match stage {
        Stage::Inside => Some(after),
        Stage::Between | Stage::Over => None,
    }
}

// The stage after the library's end, which may come only between modules; otherwise None.
fn after_end(stage: Stage) -> Option<Stage>
    ensures { result ≡ spec.after_end stage }
{
    match stage {
        Stage::Between => Some(Stage::Over),
        Stage::Inside | Stage::Over => None,
    }
}

/// The stage after a record of this part; None if it may not come at this stage. `begins` says whether a directory begins a module.
pub(crate) fn stage_after(stage: Stage, part: Part, begins: bool) -> Option<Stage>
    ensures { result ≡ spec.stage_of stage part begins }
{
    match part {
        Part::Directory => after_directory(stage, begins),
        Part::Inner => after_inner(stage, Stage::Inside),
        Part::ModuleEnd => after_inner(stage, Stage::Between),
        Part::LibraryEnd => after_end(stage),
        Part::Other => None,
    }
}
