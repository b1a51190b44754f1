//! Definitions of names and local symbols. (MACRO-11 Language Reference Manual, "Symbols" and "Local symbols".)

use m11_base::Name;
use m11_scan_expressions::Kind;

/// A name or a local symbol.
#[derive(Clone, Copy)]
pub enum Key {
    /// A name.
    Named(Name),
    /// A local symbol, by its block and its number.
    Numbered(u64, u16),
}

/// The value of a symbol, if it is known.
#[derive(Clone, Copy)]
pub enum Standing {
    /// The value is known: a number, and its kind.
    Known(u16, Kind),
    /// The value isn't known.
    Unknown,
}

/// The definition of a name or a local symbol.
#[derive(Clone, Copy)]
pub struct Definition {
    /// The value of the name or local symbol.
    pub standing: Standing,
    /// Whether the value follows from the lines up to this definition alone, and not from a name that a later line defines.
    pub is_firm: bool,
    /// The section of a label; the number of `standing` is the label's location in that section. None for a definition that isn't a
    /// label's.
    pub label: Option<Name>,
}
