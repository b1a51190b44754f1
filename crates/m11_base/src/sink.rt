//! Sinks for bytes.

ghost use Rattle.std.specs.Prelude.{◌≡◌, ◌≤◌, ℕ, List, Option, IfOk, IsErr, OnOk, OnErr, length};
ghost use Rattle.std.specs.Io.KnownBytes.{Appends, Keeps};
ghost use Rattle.m11_base.specs.Devices.{Rises, last_count};
ghost use Rattle.m11_base.specs.Sink.{Takes, Counts, CountsFlush, AppendsPrefix};

use crate::fault::{DeviceFault, PutFault};

/// A sink for bytes. It may hold bytes back before it passes them to its device.
pub trait Sink {
    // All the bytes that it has accepted, if they are known.
    ghost text: { Self → Option (List ℕ) };

    // How often a call failed or accepted none of the bytes offered to it, up to `last_count`.
    ghost faults: { Self → ℕ };

    // How many of the last bytes it still holds back.
    ghost held: { Self → ℕ };

    /// Accepts bytes from the front of `bytes`, and returns how many; at an error it accepts none. Errors are counted, and so is a result
    /// of 0 unless `bytes` is empty; once the count is `last_count`, each call fails. An error may concern bytes that earlier calls
    /// accepted and the sink still held.
    fn put(&mut self, bytes: &[u8]) -> Result<usize, DeviceFault>
        ensures within { IfOk result (λ n. n ≤ length bytes.now) }
        ensures takes { Takes (text self.old) (text self.new) result bytes.now }
        ensures counts { Counts (faults self.old) (faults self.new) result bytes.now }
        ensures last { faults self.old ≡ last_count → IsErr result };

    /// Passes all held bytes to the device. An error is counted, and the device may then have received part of them; once the
    /// count is `last_count`, each call fails.
    fn flush(&mut self) -> Result<(), DeviceFault>
        ensures all { OnOk result (held self.new ≡ 0) }
        ensures keeps { Keeps (text self.old) (text self.new) }
        ensures counts { CountsFlush (faults self.old) (faults self.new) result }
        ensures last { faults self.old ≡ last_count → IsErr result };
}

/// Puts all of `bytes`, in as many calls as needed. If the sink fails or accepts none of the bytes left, the fault is `Device`:
/// the sink has counted it, and a prefix of `bytes` was put, perhaps none of them. Allocates nothing itself.
pub fn put_all<S: Sink>(sink: &mut S, bytes: &[u8]) -> Result<(), PutFault>
    ensures whole { OnOk result (Appends (S.text sink.old) (S.text sink.new) bytes.now) }
    ensures sound { OnOk result (S.faults sink.new ≡ S.faults sink.old) }
    ensures prefix { OnErr result
        (AppendsPrefix (S.text sink.old) (S.text sink.new) bytes.now) }
    ensures fault { OnErr result (Rises (S.faults sink.old) (S.faults sink.new)) }
{
    let mut rest = bytes;
    'puts: while !rest.is_empty() {
        match sink.put(rest) {
            Ok(0) => return Err(PutFault::Device),
            Ok(count) => rest = rest.split_at(count).1,
            Err(_) => return Err(PutFault::Device),
        }
    }
    Ok(())
}
