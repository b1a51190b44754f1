//! What a listing shows of a line: the values that the line emits or assigns; and whether the line is listed. (MACRO-11 Language Reference
//! Manual, "Listing control directives".)

ghost use Rattle.std.specs.Prelude.{◌≡◌, ◌∷◌, ◌++◌, [], IfOk};
ghost use Rattle.std.specs.Option.{option_to_list};
ghost use Rattle.m11_asm_rules.specs.Items as spec;
ghost use Rattle.m11_scan_expressions.specs.Quantities.{quantity};

use bitflags::Flags;
use m11_asm_listing::{Item, Mark};
use m11_asm_rules::Modes;
use m11_obj::{PieceContent, RelocationKind};
use m11_scan::ErrorFlags;
use m11_scan_expressions::{Kind, Value};
use std::alloc::AllocError;

/// Adds the items of a byte, a word or a pair of limits: the stored constant, with a mark for its relocation. Each limit is the word 0,
/// since the linker fills it in. Error: memory may be refused.
pub fn add_content_items(items: &mut Vec<Item>, content: &PieceContent) -> Result<(), AllocError>
    ensures { IfOk result (λ _. items.new.items ≡ items.old.items ++ spec.content_items content.now) }
{
    match content {
        PieceContent::Byte(stored) => {
            let byte = (stored.constant % 256) as u8;
            add_item(items, Item::InByte(byte, mark_of(stored.kind)))
        }
        PieceContent::Word(stored) => {
            add_item(items, Item::InWord(stored.constant, mark_of(stored.kind)))
        }
        PieceContent::Limits => {
            add_item(items, Item::InWord(0, Mark::Unmarked))?;
            add_item(items, Item::InWord(0, Mark::Unmarked))
        }
    }
}

fn add_item(items: &mut Vec<Item>, item: Item) -> Result<(), AllocError>
    ensures { IfOk result (λ _. items.new.items ≡ items.old.items ++ item ∷ []) }
{
    items.push(item)?;
    Ok(())
}

/// Whether a line without flags is listed: the listing level must not be below 0, and a line of an expansion needs `.LIST ME` as well.
pub fn is_shown(modes: &Modes, is_expanded: bool) -> bool
    ensures { result ≡ spec.is_shown modes.now is_expanded }
{
    modes.unlisted <= modes.listed && (!is_expanded || modes.shows_expansions)
}

// The item of an assigned value; an unknown value has none.
pub(crate) fn value_item(value: Value) -> Option<Item>
    ensures { option_to_list result ≡ spec.value_items (quantity value) }
{
    if value.flags.bits() & ErrorFlags::U.bits() == 0 {
        Some(Item::InWord(value.number, mark_by(value.kind)))
    } else {
        None
    }
}

// The mark of an emitted value, by its relocation.
fn mark_of(kind: RelocationKind) -> Mark
    ensures { result ≡ spec.mark_of kind }
{
    match kind {
        RelocationKind::Fixed | RelocationKind::InternalDisplaced => Mark::Unmarked,
        RelocationKind::Internal => Mark::OfSection,
        RelocationKind::Global(_) | RelocationKind::GlobalDisplaced(_) => Mark::OfObject,
        RelocationKind::Section(_) | RelocationKind::SectionDisplaced(_) => Mark::OfSection,
    }
}

// The mark of an assigned value, by what it is relative to.
fn mark_by(kind: Kind) -> Mark
    ensures { result ≡ spec.mark_by kind }
{
    match kind {
        Kind::Absolute => Mark::Unmarked,
        Kind::Section(_) => Mark::OfSection,
        Kind::Register => Mark::OfRegister,
        Kind::Reference(_) => Mark::OfObject,
    }
}
