//! What a directive sets. (MACRO-11 Language Reference Manual, "General assembler directives".)

ghost use Rattle.std.specs.Prelude.{◌≡◌, List, Option};
ghost use Rattle.m11_asm_directives.specs.Settings.{effect_model};
ghost use Rattle.m11_asm_rules.specs.Actions as spec;
ghost use Rattle.m11_scan_statements.specs.declared.spans.Span.{Span};

use m11_base::Name;
use m11_obj::SectionFlags;
use m11_scan::{ErrorFlags, Line, Radix};
use m11_scan_expressions::{Expr, bad_flags};

/// What a directive sets for the lines after it, or for the whole object. Such a directive emits nothing, and doesn't move the location
/// counter. The names of its list are in `Arguments`.
#[derive(Clone, Copy)]
pub enum Setting {
    /// No setting.
    Nothing,
    /// Selects a section. A new section gets these attributes, changed by those in the list.
    Select(Name, SectionFlags),
    /// Makes the names of the list global, and weak if the flag is true.
    Export(bool),
    /// Assigns a name a number that depends on no other name.
    SetNumber(Name, u16),
    /// Sets the radix of numbers.
    SetRadix(Radix),
    /// Raises the listing level (true) or lowers it (false).
    MoveLevel(bool),
    /// Turns the listing of expansions on (true) or off (false).
    ListExpansions(bool),
    /// Sets the title of the module.
    Entitle(Name),
    /// Sets the identification of the module; None leaves it as it was.
    Identify(Option<Name>),
    /// Sets the transfer address, if the expression isn't empty.
    Transfer(Expr),
}

/// What a directive sets, and those of its flags that don't depend on the values of names.
#[derive(Clone, Copy)]
pub struct Effect {
    /// What it sets.
    pub setting: Setting,
    /// Those of A, I, O and Q that don't depend on the values of names.
    pub flags: ErrorFlags,
}

// No setting, since the argument at a column is bad or missing. The flags are A, and I for a skipped character from that column to the end
// of the line.
pub(crate) fn refused(line: &Line, column: u8) -> Effect
    ensures { (names : List (Option Span)) → effect_model line.now.text names result ≡ spec.refused line.now.text column }
{
    Effect {
        setting: Setting::Nothing,
        flags: bad_flags(line, column),
    }
}
