//! Where a traced run stops though an untraced run would go on.

ghost use Rattle.std.specs.Prelude.{◌≡◌, map};
ghost use Rattle.std.specs.List.{list_any};
ghost use Rattle.m11_trace.specs.Stops as spec;

use crate::changes::word_or_none;
use m11_cpu::Memory;

/// An address with a count: where a traced run stops at the COUNTth time.
#[derive(Clone, Copy, PartialEq, Eq)]
pub struct CountedAddress {
    /// The address.
    pub address: u16,
    /// How many times it must happen that the program counter reaches a breakpoint, or that a step changes a watched word, for the run to
    /// stop there: 1 stops it the first time, 0 never.
    pub count: u32,
}

/// Where a traced run stops, though an untraced run would go on.
#[derive(Drop)]
pub struct Stops {
    /// The breakpoints: the run stops before the instruction at such an address.
    pub breakpoints: Vec<CountedAddress>,
    /// The watched words, each by the address of one of its bytes: the run stops after a step that changes such a word.
    pub watched: Vec<CountedAddress>,
}

// Whether a breakpoint stops the run at this address now: the address is the breakpoint's own, and its count is down to 1.
fn is_last_at(breakpoint: &CountedAddress, address: u16) -> bool
    ensures { result ≡ spec.is_last_at address breakpoint.now }
{
    breakpoint.address == address && breakpoint.count == 1
}

/// Whether any of the waiting breakpoints stops the run at this address now.
pub(crate) fn is_due(waiting: &[CountedAddress], address: u16) -> bool
    ensures { result ≡ list_any (spec.is_last_at address) waiting.now }
{
    waiting
        .iter()
        .any(|breakpoint| is_last_at(breakpoint, address))
}

// A breakpoint after the program counter has reached this address: if the address is the breakpoint's own, the count is one lower, but
// not below 0.
fn counted_at(breakpoint: CountedAddress, address: u16) -> CountedAddress
    ensures { result ≡ spec.counted_at address breakpoint }
{
    if breakpoint.address == address {
        CountedAddress {
            address,
            count: breakpoint.count.saturating_sub(1),
        }
    } else {
        breakpoint
    }
}

/// Lowers the count of each waiting breakpoint at this address, which the program counter has reached.
pub(crate) fn count_down(waiting: &mut [CountedAddress], address: u16)
    ensures { waiting.new ≡ map (spec.counted_at address) waiting.old }
{
    'breakpoints: for index in 0..waiting.len() {
        waiting[index] = counted_at(waiting[index], address);
    }
}
