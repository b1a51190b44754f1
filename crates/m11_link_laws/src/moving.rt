//! The effects of a higher bottom on a link: the same parts are linked with one bottom, and with another that is higher by a
//! distance in bytes.

ghost use Rattle.std.specs.Prelude.{◌≡◌, ℕ, ◌+◌, ◌%◌, ◌&&◌, Bool, true, false, List, [], map, option_map, slice_index_or};
ghost use Rattle.std.specs.Option.{unwrap_or};
ghost use Rattle.m11_obj.specs.declared.relocations.Relocation.{Relocation};
ghost use Rattle.m11_obj.specs.declared.relocations.Target.{Target};
ghost use Rattle.m11_link_modules.specs.Parts.{Part};
ghost use Rattle.m11_link_layout.specs.Sections.{is_too_large, module_base, section_base};
ghost use Rattle.m11_link_layout.specs.Transfers.{transfer_address, transfer_value};
ghost use Rattle.m11_link_text.specs.Findings.{findings_of};
ghost use Rattle.m11_link.specs.Front.{undefined_writes};
ghost use Rattle.m11_link_text.specs.Relocation.{stored_bytes, value_of};
ghost use Rattle.m11_link.specs.Written.{link_writes, parts_writes, placed_text, with_relocations};
ghost use Rattle.m11_link_laws.specs.Moving.{Moved, all_stay, byte_stays, bytes_moved, counting_transfer, farther, findings_moved, is_displaced, moved, moved_after, moves, number_moved, relocations_moved, section_moves, shape_of, stores_limits, target_moves, text_moved, text_position};

/// Relocatable sections move by the distance, and so do the contributions of modules to them, globals in such contributions, and
/// both limits. Absolute sections and absolute globals stay. Sizes, attributes, names and references stay too, since their
/// definitions don't depend on the bottom. With an even distance, the first transfer entry with an even address is the same for
/// both bottoms. The transfer address then moves if this entry names a contribution that moves; otherwise, or if there is no such
/// entry and the address is 1, it stays.
#[tactic(auto, using(crate::proofs::MovingFindings::section_is, crate::proofs::MovingFindings::findings_moved, crate::proofs::MovingFindings::counting_is, crate::proofs::MovingFindings::address_is))]
pub fn moving_the_bottom_moves_what_is_relocated()
    ensures sections { (bottom distance : ℕ) (parts : List Part) (name : ℕ × ℕ)
        → section_base (bottom + distance) parts name
        ≡ farther distance (section_moves parts name) (section_base bottom parts name) }
    ensures findings { (bottom distance : ℕ) (parts : List Part)
        → Moved distance parts (findings_of bottom parts) (findings_of (bottom + distance) parts) }
    ensures counting { (bottom distance : ℕ) (parts : List Part) → distance % 2 ≡ 0
        → counting_transfer (bottom + distance) parts ≡ counting_transfer bottom parts }
    ensures transfer { (bottom : ℕ) (parts : List Part)
        → transfer_address bottom parts
        ≡ unwrap_or (option_map (transfer_value bottom parts) (counting_transfer bottom parts)) 1 }
{}

/// A text moves with its contribution, and its bytes are those of the object, except those that a relocation stores.
#[tactic(auto, using(crate::proofs::MovingLaws::text_content))]
pub fn moving_the_bottom_moves_texts()
    ensures address { (bottom distance : ℕ) (parts : List Part) (index : ℕ) (section : ℕ × ℕ) (address : ℕ)
        (bytes : List ℕ)
        → placed_text (findings_of (bottom + distance) parts) index section address bytes
        ≡ text_moved distance (moves parts index section)
        (placed_text (findings_of bottom parts) index section address bytes) }
    ensures content { (bottom distance : ℕ) (parts : List Part) (index : ℕ) (section : ℕ × ℕ) (address : ℕ)
        (bytes : List ℕ) (relocations : List Relocation)
        → with_relocations (findings_of (bottom + distance) parts)
        (placed_text (findings_of (bottom + distance) parts) index section address bytes) relocations
        ≡ text_moved distance (moves parts index section)
        (relocations_moved distance parts (findings_of bottom parts) (moves parts index section)
        (placed_text (findings_of bottom parts) index section address bytes) relocations) }
{}

/// A stored value moves by the distance, modulo octal 200000, if its target moves and it isn't counted from a location that moves
/// too; it moves back by the distance if only that location moves. A stored byte moves in the same way modulo 256. Each of the two
/// words of the limits moves by the distance.
#[tactic(auto, using(crate::proofs::MovingLaws::value_moves, crate::proofs::MovingLaws::bytes_move, crate::proofs::MovingLaws::low_byte_moves))]
pub fn moving_the_bottom_moves_stored_values()
    ensures value { (bottom distance : ℕ) (parts : List Part) (index own location : ℕ) (does_move : Bool)
        (named : Target)
        → value_of (findings_of (bottom + distance) parts) index (moved distance does_move own)
        (moved distance does_move location) named
        ≡ number_moved 0o200000 distance (target_moves parts index does_move named)
        (is_displaced named && does_move) (value_of (findings_of bottom parts) index own location named) }
    ensures bytes { (bottom distance : ℕ) (parts : List Part) (index own location : ℕ) (does_move is_byte : Bool)
        (named : Target)
        → stored_bytes (findings_of (bottom + distance) parts) index (moved distance does_move own)
        (moved distance does_move location) is_byte named
        ≡ bytes_moved distance parts (findings_of bottom parts) (text_position index own location does_move) is_byte named }
    ensures low { (bottom distance : ℕ) (parts : List Part) (index own location : ℕ) (does_move : Bool) (named : Target)
        → stores_limits named ≡ false
        → stored_bytes (findings_of (bottom + distance) parts) index (moved distance does_move own)
        (moved distance does_move location) true named
        ≡ map (number_moved 0o400 distance (target_moves parts index does_move named)
        (is_displaced named && does_move))
        (stored_bytes (findings_of bottom parts) index own location true named) }
{}

/// A relocation other than that of the limits stores the same bytes with both bottoms if its target and the location from which its
/// value is counted both move, or neither does. A text has the same bytes if this holds of all its relocations; and in any text, a
/// byte is the same if this holds of each relocation that covers it.
#[tactic(auto, using(crate::proofs::MovingLaws::content_stays, crate::proofs::MovingBytes::byte_is_same))]
pub fn what_moves_together_stays()
    ensures texts { (bottom distance : ℕ) (parts : List Part) (index : ℕ) (section : ℕ × ℕ) (address : ℕ)
        (bytes : List ℕ) (relocations : List Relocation)
        → all_stay parts index (moves parts index section) relocations ≡ true
        → with_relocations (findings_of (bottom + distance) parts)
        (placed_text (findings_of (bottom + distance) parts) index section address bytes) relocations
        ≡ text_moved distance (moves parts index section)
        (with_relocations (findings_of bottom parts)
        (placed_text (findings_of bottom parts) index section address bytes) relocations) }
    ensures bytes { (bottom distance : ℕ) (parts : List Part) (index : ℕ) (section : ℕ × ℕ) (address : ℕ)
        (bytes : List ℕ) (relocations : List Relocation) (offset : ℕ)
        → byte_stays parts index (moves parts index section) relocations offset ≡ true
        → slice_index_or (with_relocations (findings_of (bottom + distance) parts)
        (placed_text (findings_of (bottom + distance) parts) index section address bytes) relocations).bytes offset 0
        ≡ slice_index_or (with_relocations (findings_of bottom parts)
        (placed_text (findings_of bottom parts) index section address bytes) relocations).bytes offset 0 }
{}

/// In the writes of the parts of a link the messages are unchanged, and each block of the tape is the block of its moved text. So the
/// writes go to the same outputs in the same order, and each has the same number of bytes.
#[tactic(auto, using(crate::proofs::MovingLaws::parts_move, crate::proofs::MovingShapes::shapes_stay))]
pub fn moving_the_bottom_moves_blocks()
    ensures parts { (bottom distance : ℕ) (parts others : List Part)
        → parts_writes (findings_of (bottom + distance) parts) others
        ≡ moved_after distance parts (findings_of bottom parts) [] others }
    ensures shapes { (bottom distance : ℕ) (parts others : List Part)
        → map shape_of (parts_writes (findings_of (bottom + distance) parts) others)
        ≡ map shape_of (parts_writes (findings_of bottom parts) others) }
{}

/// With a bottom that is higher by an even distance, the whole link makes the writes of a link with the moved findings: its map
/// shows them, and its transfer block has their transfer address. The messages about undefined globals are the same whatever the
/// distance.
#[tactic(auto, using(crate::proofs::MovingFront::link_moves, crate::proofs::MovingFront::messages_stay))]
pub fn moving_the_bottom_moves_the_link()
    ensures link { (bottom distance : ℕ) (parts others : List Part) → distance % 2 ≡ 0
        → link_writes (findings_of (bottom + distance) parts) others
        ≡ link_writes (findings_moved distance parts (findings_of bottom parts)) others }
    ensures messages { (bottom distance : ℕ) (parts : List Part)
        → undefined_writes (findings_of (bottom + distance) parts) (findings_of (bottom + distance) parts).references
        ≡ undefined_writes (findings_of bottom parts) (findings_of bottom parts).references }
{}

/// If the link with the higher bottom isn't too large, the bases of contributions move by exactly the distance: none wraps around
/// at octal 200000. The link with the lower bottom isn't too large either.
#[tactic(auto, using(crate::proofs::MovingWithin::plain_base, crate::proofs::MovingWithin::nearer_fits))]
pub fn moving_the_bottom_wraps_no_base()
    ensures bases { (bottom distance : ℕ) (parts : List Part) (index : ℕ) (name : ℕ × ℕ)
        → is_too_large (bottom + distance) parts ≡ false
        → module_base (bottom + distance) parts index name
        ≡ farther distance (moves parts index name) (module_base bottom parts index name) }
    ensures nearer { (bottom distance : ℕ) (parts : List Part) → is_too_large (bottom + distance) parts ≡ false
        → is_too_large bottom parts ≡ false }
{}
