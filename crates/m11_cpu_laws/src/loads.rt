//! Laws about loading the tapes of an image.

ghost use Rattle.std.specs.Prelude.{◌≡◌, ◌≤◌, ℕ, [], length, Some, Option, Result, Ok, Err};
ghost use Rattle.m11_base.specs.Devices.{Rises};
ghost use Rattle.m11_base.specs.Feed.{Ending, Text};
ghost use Rattle.m11_obj_blocks.specs.Limited.{most_bytes};
ghost use Rattle.m11_cpu.specs.Loading.{LoadsInto};
ghost use Rattle.m11_cpu_machine.specs.Machine.{byte_in, memory_size, new_machine};
ghost use Rattle.m11_cpu.specs.declared.fault.LoadFault.{LoadFault};
ghost use Rattle.m11_cpu.specs.declared.fault.LoadFault.TheVariants.{OutsideMemory};
ghost use Rattle.m11_cpu_machine.specs.declared.machine.Machine.{Machine};
ghost use Rattle.m11_cpu_laws.specs.Example.{overlaid_tape};
ghost use Rattle.m11_cpu_laws.specs.Image.{Image};
ghost use Rattle.m11_cpu_laws.specs.Loaded.{HoldsTheSame, LiesInside, LiesPast, LoadYields};
ghost use Rattle.m11_cpu_laws.specs.Tapes.{IsTapeOf};

/// A machine into which a tape of an image was loaded contains the image: its bytes are at their addresses, everything else is unchanged,
/// and the start is the image's transfer address. A load fails only if the image has a byte outside memory (`OutsideMemory`), the tape has
/// more than 4,194,304 bytes (`TooMuch`), or the device failed (`Device`).
pub fn tapes_load_their_bytes()
    ensures yields { (image : Image) (text : Text) (left : Option Text) (faults faults' : ℕ) (before after : Machine)
        (result : Result ℕ LoadFault) → IsTapeOf image text.bytes
        → LoadsInto (Some text) left faults faults' before after result
        → LoadYields image text.bytes faults faults' before after result }
    // if the whole image lies inside memory, the tape has at most 4,194,304 bytes, and the device didn't fail, the tape is loaded
    ensures loaded { (image : Image) (text : Text) (left : Option Text) (faults faults' : ℕ) (before after : Machine)
        (result : Result ℕ LoadFault) → IsTapeOf image text.bytes
        → LoadsInto (Some text) left faults faults' before after result
        → LiesInside (memory_size before) image → length text.bytes ≤ most_bytes → (Rises faults faults' → ⊥)
        → (start : ℕ) × (result ≡ Ok start) }
    // if the image has a byte outside memory, the tape isn't loaded
    ensures refused { (image : Image) (text : Text) (left : Option Text) (faults faults' : ℕ) (before after : Machine)
        (start : ℕ) → IsTapeOf image text.bytes → LiesPast (memory_size before) image
        → LoadsInto (Some text) left faults faults' before after (Ok start) → ⊥ }
{}

/// New machines with different sizes of memory load tapes of one image alike. If both loads succeed, both machines have the same bytes up
/// to the end of the smaller memory, the larger memory has 0 after that end, and the program starts at the same address. An image that fits
/// into a smaller memory also fits into a larger one.
pub fn larger_memories_hold_the_same()
    ensures alike { (image : Image) (text other_text : Text) (left other_left : Option Text)
        (faults faults' other_faults other_faults' words more_words : ℕ) (small large : Machine) (start other_start : ℕ)
        → words ≤ more_words → IsTapeOf image text.bytes → IsTapeOf image other_text.bytes
        → LoadsInto (Some text) left faults faults' (new_machine words) small (Ok start)
        → LoadsInto (Some other_text) other_left other_faults other_faults' (new_machine more_words) large (Ok other_start)
        → HoldsTheSame small large × (other_start ≡ start) }
    ensures taken { (image : Image) (text other_text : Text) (left other_left : Option Text)
        (faults faults' other_faults other_faults' words more_words : ℕ) (small large : Machine) (start : ℕ)
        → words ≤ more_words → IsTapeOf image text.bytes → IsTapeOf image other_text.bytes
        → LoadsInto (Some text) left faults faults' (new_machine words) small (Ok start)
        → LoadsInto (Some other_text) other_left other_faults other_faults' (new_machine more_words) large
        (Err OutsideMemory) → ⊥ }
{}

/// The tape of Example.antt has two bytes for octal 1002, of which the later one is in memory after a load; the tape's other bytes are
/// loaded as usual.
pub fn a_byte_is_loaded_over_another()
    ensures later { (ending : Ending) (left : Option Text) (faults faults' : ℕ) (before after : Machine) (start : ℕ)
        → LoadsInto (Some (record { bytes = overlaid_tape; ending = ending })) left faults faults' before after (Ok start)
        → (byte_in 0o1001 after ≡ 2) × (byte_in 0o1002 after ≡ 0o377) × (byte_in 0o1003 after ≡ 4) × (start ≡ 0o1000) }
    // a machine with enough memory can load it
    ensures met { (ending : Ending) (faults : ℕ) (before : Machine) → 0o1004 ≤ memory_size before
        → (after : Machine) × LoadsInto (Some (record { bytes = overlaid_tape; ending = ending }))
        (Some (record { bytes = []; ending = ending })) faults faults before after (Ok 0o1000) }
{}
