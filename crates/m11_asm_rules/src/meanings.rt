//! The kinds of places in a line where symbols are used; they decide the value of an undefined name. (MACRO-11 Language Reference Manual,
//! "Symbols".)

/// The kind of place in a line where a symbol is used.
#[derive(Clone, Copy)]
pub enum Context {
    /// In an element of `.WORD`, `.BYTE`, `.ASCII` or `.ASCIZ`, or in the word of an operand: an undefined name is a reference to another
    /// object.
    MayBeGlobal,
    /// Anywhere else: an undefined name counts as 0, flagged U.
    LocalOnly,
}
