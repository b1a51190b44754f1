//! A law about what a trace shows.

ghost use Rattle.std.specs.Prelude.{ℕ, ◌↔◌, Contains};
ghost use Rattle.m11_base.specs.Devices.{Bytes};
ghost use Rattle.m11_trace.specs.Changes.{HasAnotherWord, changed_addresses};

/// A trace line shows each memory word that the step changed, and no other memory word.
pub fn each_changed_word_is_shown()
    ensures { (address : ℕ) (before later : Bytes) → Contains (changed_addresses before later) address ↔ HasAnotherWord before later address }
{}
