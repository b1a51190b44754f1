//! What a load does with the bytes of a tape is decided by these bytes and the size of the memory.

ghost use Rattle.std.specs.Prelude.{◌≡◌, ◌≢◌, ◌<◌, ◌⊎◌, ℕ, Some, Option, Result, Err};
ghost use Rattle.std.specs.List.{AllByRecursion};
ghost use Rattle.m11_base.specs.Devices.{last_count};
ghost use Rattle.m11_base.specs.Feed.{Ends, Fails, Text};
ghost use Rattle.m11_obj_blocks.specs.declared.tape_fault.TapeFault.TheVariants.{Device};
ghost use Rattle.m11_cpu.specs.Loading.{LoadsInto, stored};
ghost use Rattle.m11_cpu_machine.specs.Machine.{memory_size};
ghost use Rattle.m11_cpu.specs.declared.fault.LoadFault.{LoadFault};
ghost use Rattle.m11_cpu.specs.declared.fault.LoadFault.TheVariants.{Tape};
ghost use Rattle.m11_cpu_machine.specs.declared.machine.Machine.{Machine};
ghost use Rattle.m11_cpu_laws.specs.LoadedTapes.{HasLoaded, tape_load};

/// A load of a known tape does what `tape_load` says of its bytes, unless the device fails: it has this result, stores these blocks, leaves these
/// bytes unread and counts no failure. Bytes below 256 from a feed that may end can be loaded so. A feed that can't fail, and whose count
/// of failures isn't at its greatest value, causes no failure of the device.
pub fn tapes_decide_their_loads()
    ensures decided { (text : Text) (left : Option Text) (faults faults' : ℕ) (before after : Machine)
        (result : Result ℕ LoadFault) → LoadsInto (Some text) left faults faults' before after result
        → (result ≡ Err (Tape Device))
        ⊎ HasLoaded (tape_load (memory_size before) text.bytes) text left faults faults' before after result }
    ensures loaded { (text : Text) (faults : ℕ) (before : Machine) → AllByRecursion (λ byte. byte < 256) text.bytes
        → text.ending ≢ Fails
        → LoadsInto (Some text) (Some (record { bytes = (tape_load (memory_size before) text.bytes).unread; ending = text.ending }))
        faults faults before
        (record before { memory = stored (tape_load (memory_size before) text.bytes).blocks before.memory })
        (tape_load (memory_size before) text.bytes).result }
    ensures sound { (text : Text) (left : Option Text) (faults faults' : ℕ) (before after : Machine)
        (result : Result ℕ LoadFault) → text.ending ≡ Ends → faults ≢ last_count
        → LoadsInto (Some text) left faults faults' before after result
        → HasLoaded (tape_load (memory_size before) text.bytes) text left faults faults' before after result }
{}
