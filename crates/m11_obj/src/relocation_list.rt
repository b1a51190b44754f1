//! The relocations of one text. (RT-11 Volume and File Formats Manual, "Object file format", RLD block.)

ghost use Rattle.std.specs.Prelude.{◌≡◌, ◌+◌, ◌≤◌, [], ◌∷◌, ◌++◌, length, true};
ghost use Rattle.std.specs.List.{list_all};
ghost use Rattle.m11_obj.specs.Relocations.{relocations_bytes, relocation_bytes};
ghost use Rattle.m11_obj.specs.RelocationList.{has_form};
ghost use Rattle.m11_obj.specs.Texts.{most_relocation_bytes};

use crate::relocations::{Relocation, Target};
use std::marker::Model;

/// The largest size of the relocations of one text, in bytes.
pub(crate) const MOST_RELOCATION_BYTES: usize = 120;

/// The largest number of relocations of one text: each has at least two bytes.
const MOST_RELOCATIONS: usize = 60;

/// Relocations in order, of at most 120 bytes in total.
#[derive(Drop)]
pub(crate) struct RelocationList {
    slots: [Relocation; MOST_RELOCATIONS],
    count: usize,
    byte_count: usize,
}

impl Model for RelocationList {
    ghost use Rattle.std.specs.Prelude.{◌≡◌, ◌*◌, ◌≤◌, true, List, length, take};
    ghost use Rattle.std.specs.List.{list_all};
    ghost use Rattle.m11_obj.specs.declared.relocations.Relocation.{Relocation};
    ghost use Rattle.m11_obj.specs.Relocations.{relocations_bytes};
    ghost use Rattle.m11_obj.specs.RelocationList.{has_form};

    ghost Value = { List Relocation };

    ghost view = { λ l. take l.count l.slots };

    ghost invariant = { λ l. (length (take l.count l.slots) ≡ l.count)
        × (l.byte_count ≡ length (relocations_bytes (take l.count l.slots)))
        × (2 * l.count ≤ l.byte_count) × (l.byte_count ≤ 120)
        × (list_all has_form (take l.count l.slots) ≡ true) };
}

impl RelocationList {
    pub(crate) fn new() -> RelocationList
        ensures { result ≡ [] }
    {
        let blank = Relocation {
            is_byte: false,
            displacement: 0,
            target: Target::ProgramLimits,
        };
        RelocationList {
            slots: [blank; MOST_RELOCATIONS],
            count: 0,
            byte_count: 0,
        }
    }

    /// The total number of bytes.
    pub(crate) fn byte_count(&self) -> usize
        ensures count { result ≡ length (relocations_bytes self.now) }
        ensures most { result ≤ most_relocation_bytes }
    {
        self.byte_count
    }

    pub(crate) fn push(&mut self, relocation: Relocation)
        requires room { length (relocations_bytes self.old) + length (relocation_bytes relocation) ≤ most_relocation_bytes }
        requires form { has_form relocation ≡ true }
        ensures { self.new ≡ self.old ++ relocation ∷ [] }
    {
        self.slots[self.count] = relocation;
        self.count += 1;
        self.byte_count += relocation.byte_count();
    }

    pub(crate) fn as_slice(&self) -> &[Relocation]
        ensures items { result.now ≡ self.now }
        ensures form { list_all has_form self.now ≡ true }
        ensures most { length (relocations_bytes self.now) ≤ most_relocation_bytes }
    {
        &self.slots[..self.count]
    }
}
