//! What is known of addresses.

use m11_base_disassembly::{PlacedListing, Symbols};

/// What is known of addresses, and shown in the lines of steps.
#[derive(Clone, Copy)]
pub struct Known<'a> {
    /// Their names.
    pub symbols: &'a Symbols,
    /// The listings whose lines show the words there.
    pub listings: &'a [PlacedListing],
}
