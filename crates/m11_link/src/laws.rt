//! The law that a link with the plan of a first pass writes what the definitions say.

ghost use Rattle.std.specs.Prelude.{◌≡◌, ℕ, List};
ghost use Rattle.m11_link_modules.specs.Parts.{Part};
ghost use Rattle.m11_link_layout.specs.Plan.{IsPlanOf, PlanTables};
ghost use Rattle.m11_link_text.specs.Findings.{findings_of, planned};
ghost use Rattle.m11_link.specs.Written.{link_writes};

/// Whatever parts the second pass reads, a link with the plan of a first pass makes the writes that the definitions yield from the
/// parts of the first pass: the plan agrees with the definitions about the bases of sections and contributions, the values of
/// globals and the lines of the map.
#[tactic(auto, using(crate::proofs::Agreeing::written_by_definition))]
pub fn plans_write_by_definition()
    ensures { (bottom : ℕ) (parts others : List Part) (plan : PlanTables) → IsPlanOf bottom parts plan
        → link_writes (planned plan) others ≡ link_writes (findings_of bottom parts) others }
{}
