//! Laws about writes and the bytes that devices have.

ghost use Rattle.std.specs.Prelude.{◌≡◌, ℕ, ◌++◌, List, Option, Some};
ghost use Rattle.m11_base.specs.Sink.{handed_on};
ghost use Rattle.m11_base_writes.specs.States.{OutputState};
ghost use Rattle.m11_base_writes.specs.Writes.{Kinds, LeavesBeginnings, Stops, Write, flushes};

/// Wherever writes end early, each output has gained a prefix of the bytes that all the writes would have added to it, and no other bytes.
/// The same holds if a flush after them fails.
pub fn early_ends_leave_beginnings<O, E>()
    ensures writes { (kinds : Kinds O E) (old new : O → OutputState) (writes : List (Write O)) (fault : E)
        → Stops kinds old new writes fault → LeavesBeginnings kinds old new writes }
    ensures flush { (kinds : Kinds O E) (old new : O → OutputState) (writes : List (Write O)) (outputs : List O) (fault : E)
        → Stops kinds old new (writes ++ flushes outputs) fault → LeavesBeginnings kinds old new writes }
{}

/// A device has a prefix of what its output has accepted: all of it if nothing is held back.
pub fn devices_have_beginnings()
    ensures prefix { (text : List ℕ) (held : ℕ) → (got : List ℕ) × (handed_on (Some text) held ≡ Some got) × (rest : List ℕ) × (text ≡ got ++ rest) }
    ensures all { (text : Option (List ℕ)) → handed_on text 0 ≡ text }
{}
