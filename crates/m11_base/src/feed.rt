//! Sources of bytes.

ghost use Rattle.std.specs.Prelude.{◌≡◌, ◌+◌, ◌<◌, ◌≤◌, ℕ, List, length, take, Option, MatchResult, MatchOption, IsErr};
ghost use Rattle.m11_base.specs.Devices.{Rises, last_count};
ghost use Rattle.m11_base.specs.Feed.{Text, Gives, GivesBytes, BeginsWith};

use crate::fault::DeviceFault;

/// A source of bytes. Only `next` reads: `ready` shows the bytes available without a read, and `pass` consumes many of them
/// at once.
pub trait Feed {
    // The bytes still to come and how they end, if that is known.
    ghost text: { Self → Option Text };

    // How often a call has failed, up to `last_count`.
    ghost faults: { Self → ℕ };

    // An upper bound on the number of bytes still to come. Each byte that is read lowers it, so that a loop that reads to the end
    // terminates.
    ghost left: { Self → ℕ };

    // The bytes available without a read: the first of those still to come, or none.
    ghost ready_bytes: { Self → List ℕ };

    /// Reads the next byte; `None` is the end. A call that fails reads no byte, and is counted. Once the count is `last_count`, each
    /// call fails.
    fn next(&mut self) -> Result<Option<u8>, DeviceFault>
        ensures gives { Gives (text self.old) (text self.new) (faults self.old) result }
        ensures counts { MatchResult result (λ _. faults self.new ≡ faults self.old)
            (λ _. Rises (faults self.old) (faults self.new)) }
        ensures last { faults self.old ≡ last_count → IsErr result }
        ensures shrinks { MatchResult result
            (λ byte. MatchOption byte (left self.new ≤ left self.old)
            (λ _. left self.new < left self.old))
            (λ _. left self.new ≤ left self.old) };

    /// The bytes available without a read, the first of those still to come; none once the count of failures is `last_count`.
    /// If there are none, `next` may still read one.
    fn ready(&self) -> &[u8]
        ensures shown { result.now ≡ ready_bytes self.now }
        ensures begins { BeginsWith (text self.now) result.now }
        ensures within { length result.now ≤ left self.now }
        ensures last { faults self.now ≡ last_count → length result.now ≡ 0 };

    /// Consumes the first `count` ready bytes, as if `next` had returned them. Needs at least that many ready bytes.
    fn pass(&mut self, count: usize)
        requires { count ≤ length (ready_bytes self.old) }
        ensures passes { GivesBytes (text self.old) (text self.new) (take count (ready_bytes self.old)) }
        ensures keeps { faults self.new ≡ faults self.old }
        ensures shrinks { left self.new + count ≤ left self.old };
}
