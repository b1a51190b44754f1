//! Writes to one output, and its flush: each writes all bytes, or returns the output's fault.

ghost use Rattle.std.specs.Prelude.{◌≡◌, [], OnOk};
ghost use Rattle.m11_base_writes.specs.States.{Puts, output_of};

use m11_base::{Sink, put_all};

/// Puts all of `bytes`, in as many calls as needed. If the sink fails or accepts none of the bytes left, returns `fault`, which names the
/// output; only a prefix of `bytes` has been put then. Allocates nothing itself.
pub fn put_or_fail<S: Sink, E: Copy>(sink: &mut S, bytes: &[u8], fault: E) -> Result<(), E>
    ensures { Puts (output_of S.Sink sink.old) (output_of S.Sink sink.new) bytes.now fault result }
{
    match put_all(sink, bytes) {
        Ok(()) => Ok(()),
        Err(_) => Err(fault),
    }
}

/// Passes all held bytes of a sink to its device. This adds nothing to the bytes that the sink has accepted. If the sink fails, returns
/// `fault`, which names the output.
pub fn flush_or_fail<S: Sink, E: Copy>(sink: &mut S, fault: E) -> Result<(), E>
    ensures puts { Puts (output_of S.Sink sink.old) (output_of S.Sink sink.new) [] fault result }
    ensures all { OnOk result (S.held sink.new ≡ 0) }
{
    let Ok(()) = sink.flush() else {
        return Err(fault);
    };
    Ok(())
}
