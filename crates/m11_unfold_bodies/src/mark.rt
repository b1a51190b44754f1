//! The end of an expansion. (MACRO-11 Language Reference Manual, "Macro directives" and "Repeat block directive".)

use crate::conditions::Conditions;

/// The end of an expansion, and the state to return to.
#[derive(Drop)]
pub struct Mark {
    /// The number of actuals of a macro call; `None` for a repeat.
    pub arguments: Option<u16>,
    /// The number of bytes in a repeat's body, which is in memory while the expansion is open; 0 for a macro call.
    pub bytes: u32,
    /// The conditions that were open around the expansion.
    pub conditions: Conditions,
}
