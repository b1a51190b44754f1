//! A live line as a pass places it. (MACRO-11 Language Reference Manual, "Source program format".)

ghost use Rattle.std.specs.Prelude.{◌≡◌};
ghost use Rattle.m11_scan.specs.Line.{no_line};

use m11_asm_lines::Operation;
use m11_asm_listing::Item;
use m11_base::Name;
use m11_scan::{ErrorFlags, Line};

/// A live line, and the operation after its labels. A pass reuses one for all its lines, since moving a line takes longer than reading
/// it.
#[derive(Drop)]
pub struct LiveLine {
    /// The line, with actuals in place of formals.
    pub line: Line,
    /// Whether the line is from an expansion.
    pub is_expanded: bool,
    /// The operation after the labels, with its arguments.
    pub operation: Operation,
}

impl LiveLine {
    /// Room for the live lines of a pass: a line without characters.
    pub fn new() -> LiveLine
        ensures { result.line ≡ no_line }
    {
        LiveLine {
            line: Line::new(),
            is_expanded: false,
            operation: Operation::new(),
        }
    }
}

/// A live line as a pass places it. The pass holds what the line emits.
#[derive(Drop)]
pub struct PlacedLine {
    /// The line, and the operation after its labels.
    pub live: LiveLine,
    /// The flags of the line, with P if a label that the line defines isn't at the same location in the map.
    pub flags: ErrorFlags,
    /// The section of the line.
    pub section: Name,
    /// The location in that section at which the line emits its contents.
    pub location: u16,
    /// The location counter of that section before the line.
    pub counter: u16,
    /// The value that the line assigns, as a listing shows it; None if the line assigns none, or the value isn't known.
    pub assigned: Option<Item>,
    /// Whether the listing modes after the line let it be listed even if it isn't flagged.
    pub is_shown: bool,
}

impl PlacedLine {
    // Room for the placed lines of a pass: a line without characters, in a section.
    pub(crate) fn new(section: Name) -> PlacedLine
        ensures { result.live.line ≡ no_line }
    {
        PlacedLine {
            live: LiveLine::new(),
            flags: ErrorFlags::none(),
            section,
            location: 0,
            counter: 0,
            assigned: None,
            is_shown: false,
        }
    }
}
