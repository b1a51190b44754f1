//! The targets of branches and SOB. (PDP-11/40 Processor Handbook, "Branch instructions" and "SOB".)

ghost use Rattle.std.specs.Prelude.{◌≡◌, ◌<◌, ◌%◌, ◌==◌, ◌&&◌, nat_le};
ghost use Rattle.m11_asm_rules.specs.Branches as spec;
ghost use Rattle.m11_scan_expressions.specs.Quantities.{quantity};

use crate::relocations::distance;
use m11_asm_rules::Table;
use m11_scan_expressions::Value;

// Whether a distance in bytes from the location after a branch is even, and between 128 words back and 127 words forward, both included.
pub(crate) fn in_reach(bytes: u16) -> bool
    ensures { result ≡ spec.in_reach bytes }
{
    bytes % 2 == 0 && (bytes <= 0o376 || bytes >= 0o177400)
}

// The distance in bytes back from the location after a word to a target, modulo 65536.
pub(crate) fn back(location: u16, target: u16) -> u16
    ensures { result ≡ spec.back location target }
{
    0u16.wrapping_sub(distance(location, target))
}

// Whether a distance in bytes back from the location after SOB is even, and at most 63 words.
pub(crate) fn in_loop_reach(bytes: u16) -> bool
    ensures { result ≡ (bytes % 2 == 0 && nat_le bytes 0o176) }
{
    bytes % 2 == 0 && bytes <= 0o176
}

// Whether a branch at a location reaches its target, which must be in the same section.
pub(crate) fn branch_reaches(table: &Table, location: u16, target: &Value) -> bool
    ensures { result ≡ spec.branch_reaches table.now location (quantity target.now) }
{
    table.is_here(target.kind) && in_reach(distance(location, target.number))
}

// The offset of a branch: the distance in words from the location after it to its target, as eight bits in two's complement; 0 for a target
// out of reach.
pub(crate) fn branch_offset(table: &Table, location: u16, target: &Value) -> u8
    ensures { result ≡ spec.branch_offset table.now location (quantity target.now) }
{
    let bytes = distance(location, target.number);
    if table.is_here(target.kind) && in_reach(bytes) {
        (bytes / 2 % 256) as u8
    } else {
        0
    }
}

// Whether SOB at a location reaches its target, which must be in the same section.
pub(crate) fn loop_reaches(table: &Table, location: u16, target: &Value) -> bool
    ensures { result ≡ spec.loop_reaches table.now location (quantity target.now) }
{
    table.is_here(target.kind) && in_loop_reach(back(location, target.number))
}

// The offset of SOB: the distance back to its target in words, 0 to 63; 0 for a target out of reach.
pub(crate) fn loop_offset(table: &Table, location: u16, target: &Value) -> u8
    ensures offset { result ≡ spec.loop_offset table.now location (quantity target.now) }
    ensures below { result < 64 }
{
    let bytes = back(location, target.number);
    if table.is_here(target.kind) && in_loop_reach(bytes) {
        (bytes / 2) as u8
    } else {
        0
    }
}
