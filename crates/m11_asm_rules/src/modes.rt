//! Modes that stay in force until another line changes them. (MACRO-11 Language Reference Manual, "Program section directives", "Local
//! symbols", "Radix control" and "Listing control directives".)

use m11_scan::Radix;

/// The modes in force at a line.
#[derive(Clone, Copy)]
pub struct Modes {
    /// The number of the current section: 0 is the absolute one, 1 the blank one.
    pub section: u16,
    /// The number of the current block of local symbols, from 0.
    pub block: u64,
    /// The radix of numbers without a radix of their own.
    pub radix: Radix,
    /// How many `.LIST` directives without arguments there have been so far.
    pub listed: u64,
    /// How many `.NLIST` directives without arguments there have been so far.
    pub unlisted: u64,
    /// Whether lines of expansions are listed.
    pub shows_expansions: bool,
}
