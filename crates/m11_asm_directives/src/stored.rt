//! What a directive stores at the location counter, or the room that it reserves there. (MACRO-11 Language Reference Manual, "Data storage
//! directives" and "Location counter control directives".)

ghost use Rattle.std.specs.Prelude.{◌≡◌, ◌≤◌, IfOk, length};
ghost use Rattle.m11_base.specs.Devices.{Bytes};
ghost use Rattle.m11_asm_directives.specs.Stored.{storage_model};
ghost use Rattle.m11_asm_rules.specs.Contents.{followed_by, nothing};
ghost use Rattle.m11_asm_rules.specs.Effects as spec;
ghost use Rattle.m11_asm_rules.specs.Meanings.{firm_known};
ghost use Rattle.m11_asm_rules.specs.Storage.{count_flags};
ghost use Rattle.m11_scan_expressions.specs.Tokens.{expression_of};

use crate::parts::Parts;
use crate::radix50::{emit_packed, packed_size};
use crate::storage::{block_count, count_flags, element_count, emit_bytes, emit_words};
use crate::texts::{emit_text, text_size};
use m11_asm_operands::{Elements, Emission, LineContext, ListedNames, to_next};
use m11_asm_rules::Table;
use m11_scan::{ErrorFlags, Line};
use m11_scan_expressions::Expr;
use std::alloc::AllocError;

/// What a directive stores at the location counter, or the room that it reserves there. `Arguments` has the elements of a list and the
/// parts of a text.
#[derive(Clone, Copy)]
pub enum Storage {
    /// A word for each element of the list. An empty element counts as 0.
    WordList,
    /// A byte for each element of the list. An empty element counts as 0.
    ByteList,
    /// The bytes of a text; if the flag is true, a zero byte after them.
    Text(bool),
    /// A text in RADIX-50.
    PackedText,
    /// The limits of the program: two words filled in by the linker.
    LimitWords,
    /// Room for a number of units of this many bytes; an empty expression counts as 1.
    Room(u8, Expr),
    /// Room up to the next even location (true) or the next odd one (false).
    AlignTo(bool),
}

/// What a directive stores or reserves, and those of its flags that don't depend on the values of names.
#[derive(Clone, Copy)]
pub struct Storing {
    /// What it stores or reserves.
    pub storage: Storage,
    /// Those of A, I and Q that don't depend on the values of names.
    pub flags: ErrorFlags,
}

/// The lists among the arguments of a directive. All lines of a pass share one value, since clearing room for a list takes longer than
/// reading it.
#[derive(Drop)]
pub struct Arguments {
    /// The elements of a list of names.
    pub names: ListedNames,
    /// The elements of a list of words or bytes.
    pub elements: Elements,
    /// The parts of a text.
    pub parts: Parts,
}

impl Arguments {
    /// Empty lists, with room for elements.
    pub fn new() -> Arguments {
        Arguments {
            names: ListedNames::new(),
            elements: Elements::new(),
            parts: Parts::new(),
        }
    }
}

impl Storage {
    /// Whether the storage needs an even location: it holds words, or reserves units of an even number of bytes.
    pub fn is_even(self) -> bool
        ensures { (line : Bytes) (arguments : Arguments) → result ≡ spec.is_even (storage_model line arguments self) }
    {
        match self {
            Storage::WordList | Storage::PackedText | Storage::LimitWords => true,
            Storage::Room(unit, _) => unit % 2 == 0,
            Storage::ByteList | Storage::Text(_) | Storage::AlignTo(_) => false,
        }
    }

    /// The size of the storage in bytes at a location: at most 16,711,425. The size of reserved room depends on firm names alone.
    pub fn size(self, line: &Line, arguments: &Arguments, table: &Table, here: u16) -> u32
        ensures size { result ≡ spec.size table.now here (storage_model line.now.text arguments.now self) }
        ensures most { result ≤ 16711425 }
    {
        match self {
            Storage::WordList => element_count(&arguments.elements) * 2,
            Storage::ByteList => element_count(&arguments.elements),
            Storage::Text(is_ended) => text_size(line, &arguments.parts, is_ended),
            Storage::PackedText => packed_size(line, &arguments.parts),
            Storage::LimitWords => 4,
            Storage::Room(unit, count) => {
                u32::from(block_count(table, here, line, count)) * u32::from(unit)
            }
            Storage::AlignTo(is_even) => u32::from(to_next(is_even, here)),
        }
    }

    /// Emits the contents of the storage at the location of the line, and their flags. `Room` emits only flags, and `AlignTo` emits
    /// nothing. Error: memory may be refused.
    pub fn emit(
        self,
        emission: &mut Emission,
        line_context: &LineContext,
        arguments: &Arguments,
    ) -> Result<(), AllocError>
        ensures { IfOk result (λ _. emission.new ≡ followed_by emission.old (spec.stored line_context.now.map line_context.now.table
            line_context.now.location (storage_model line_context.now.line arguments.now self))) }
    {
        let elements = arguments.elements.list.as_slice();
        let parts = arguments.parts.list.as_slice();
        match self {
            Storage::WordList => emit_words(emission, line_context, elements),
            Storage::ByteList => emit_bytes(emission, line_context, elements),
            Storage::Text(is_ended) => emit_text(emission, line_context, parts, is_ended),
            Storage::PackedText => emit_packed(emission, line_context, parts),
            Storage::LimitWords => emission.add_limits(),
            Storage::Room(_, count) => emit_room(emission, line_context, count),
            Storage::AlignTo(_) => Ok(()),
        }
    }
}

// Adds the flags of reserved room, which has no contents.
fn emit_room(
    emission: &mut Emission,
    line_context: &LineContext,
    count: Expr,
) -> Result<(), AllocError>
    ensures { IfOk result (λ _. emission.new ≡ followed_by emission.old (nothing (count_flags
        (firm_known line_context.now.table line_context.now.location) (expression_of line_context.now.line count)))) }
{
    let flags = count_flags(
        line_context.table(),
        line_context.location(),
        line_context.line(),
        count,
    );
    emission.add_flags(flags);
    Ok(())
}
