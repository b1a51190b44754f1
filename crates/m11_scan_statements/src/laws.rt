//! Laws of statements. Each is the contract of a function with an empty body.

ghost use Rattle.std.specs.Prelude.{◌≡◌, Bool, length, map};
ghost use Rattle.m11_base.specs.Devices.{Bytes};
ghost use Rattle.m11_base.specs.NameCharacters.{folded};
ghost use Rattle.m11_scan_statements.specs.Labels.{labels_at, labels_end};
ghost use Rattle.m11_scan_statements.specs.Order.{BodyLies, LabelsLie};
ghost use Rattle.m11_scan_statements.specs.Statements.{body_of, label_flags};

/// The labels and the body of a line are in order and don't overlap.
#[tactic(auto, using(crate::proofs::InOrder::orders))]
pub fn labels_and_body_are_in_order()
    ensures labels { (line : Bytes) → LabelsLie (length line) 0 (labels_at line) }
    ensures body { (line : Bytes) → BodyLies (labels_end line) (length line) (body_of line) }
{}

/// Lines that differ only in the case of letters have the same labels and bodies, at the same columns, and the same flags that don't depend
/// on the body.
#[tactic(auto, using(crate::proofs::Folded::cases))]
pub fn case_makes_no_difference()
    ensures labels { (a b : Bytes) → map folded a ≡ map folded b → labels_at a ≡ labels_at b }
    ensures body { (a b : Bytes) → map folded a ≡ map folded b → body_of a ≡ body_of b }
    ensures label_flags { (a b : Bytes) (is_over_long : Bool) → map folded a ≡ map folded b
        → label_flags (record { text = a; is_over_long = is_over_long })
        ≡ label_flags (record { text = b; is_over_long = is_over_long }) }
{}
