//! Moves of the location counter. (MACRO-11 Language Reference Manual, "Current location counter".)

/// What a line does to the location counter of the current section.
#[derive(Clone, Copy)]
pub enum Move {
    /// The counter moves on by this many bytes, modulo 65536.
    Steps(u32),
    /// The counter is set to this location.
    Goes(u16),
}
