//! The order in which a link writes.

ghost use Rattle.std.specs.Prelude.{◌≡◌, ◌<◌, true, List, ◌∷◌, ◌++◌};
ghost use Rattle.m11_link_modules.specs.Parts.{Part};
ghost use Rattle.m11_link_text.specs.Findings.{Findings};
ghost use Rattle.m11_link.specs.Front.{front_writes};
ghost use Rattle.m11_base_writes.specs.Outputs.{Write};
ghost use Rattle.m11_link.specs.Written.{link_writes, parts_writes};
ghost use Rattle.m11_link_laws.specs.Order.{BeginsWith, messages_in, reach_tape, undefined_count};

/// Once a link has written to the tape, or has written a message about anything but an undefined global, it has written all messages about
/// undefined globals and the whole map. The transfer block is the last write: as long as any write is left, only writes that come before
/// the transfer block were made.
#[tactic(auto, using(crate::proofs::FrontFirst::front_before_tape, crate::proofs::FrontFirst::front_before_messages, crate::proofs::FrontFirst::all_before_transfer))]
pub fn map_is_whole_before_the_tape()
    ensures tape { (found : Findings) (parts : List Part) (done more : List Write)
        → done ++ more ≡ link_writes found parts → reach_tape done ≡ true → BeginsWith done (front_writes found) }
    ensures messages { (found : Findings) (parts : List Part) (done more : List Write)
        → done ++ more ≡ link_writes found parts → undefined_count found < messages_in done
        → BeginsWith done (front_writes found) }
    ensures transfer { (found : Findings) (parts : List Part) (done : List Write) (next : Write) (more : List Write)
        → done ++ (next ∷ more) ≡ link_writes found parts
        → BeginsWith (front_writes found ++ parts_writes found parts) done }
{}
