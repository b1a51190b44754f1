//! How traced runs end.

use m11_cpu::Stop;

/// How a traced run ends.
#[derive(Clone, Copy, PartialEq, Eq)]
pub enum Ending {
    /// At a stop that also ends an untraced run, such as HALT or the limit.
    Stopped(Stop),
    /// At a breakpoint, before the instruction there.
    Reached,
    /// After a step that changed the watched word with this address, the first one if the step stopped the run by several.
    Changed(u16),
}
