//! Whole runs with known objects.

ghost use Rattle.std.specs.Prelude.{◌≡◌, List, ℕ, Result, Ok};
ghost use Rattle.m11_link_modules.specs.Parts.{Part};
ghost use Rattle.m11_link_layout.specs.declared.fault.LinkFault.{LinkFault};
ghost use Rattle.m11_link.specs.Objects.{AreItems, Item, outcome};
ghost use Rattle.m11_base_writes.specs.Outputs.{Outputs};
ghost use Rattle.m11_link.specs.SecondPass.{LinkRuns};
ghost use Rattle.m11_link.specs.declared.emit.LinkDone.{LinkDone};
ghost use Rattle.m11_link_laws.specs.Left.{Leaves};
ghost use Rattle.m11_base_writes.specs.Passes.{AreKnown, pass_of};
ghost use Rattle.m11_link_laws.specs.Runs.{IsDecided};

use m11_base::Feed;

/// If both passes read the same known bytes, the outcome of these bytes decides the run. If the outcome is the parts of the
/// objects, a successful run has written to the tape, the map and the messages exactly what the definitions say, has counted the
/// messages, and has flushed tape and map; the only possible faults are `Read`, `Write` and `NoMemory`, after which each output has
/// gained a prefix of its bytes and nothing else. If the outcome is a refusal, the run returns that refusal, `Read` or `NoMemory`,
/// and writes nothing.
#[tactic(auto, using(crate::proofs::RunsDecided::run_decided))]
pub fn known_objects_decide_the_run<F: Feed>()
    ensures { (first again second later : List F) (bottom : ℕ) (sources : List (List ℕ)) (items : List Item)
        (old new : Outputs) (returned : Result LinkDone LinkFault) → AreItems sources items → AreKnown F.text first sources
        → AreKnown F.text second sources
        → LinkRuns (pass_of F.text F.faults first again) (pass_of F.text F.faults second later) bottom old new returned
        → IsDecided bottom (outcome bottom items) old new returned }
{}

/// If both passes read the same known bytes, a successful run has added to the tape the blocks of the objects' texts that have data
/// and the transfer block, which together form a tape; to the map its lines; and to the messages their lines, which it has counted.
/// Tape and map hold nothing back.
pub fn known_objects_leave_their_texts<F: Feed>()
    ensures { (first again second later : List F) (bottom : ℕ) (sources : List (List ℕ)) (items : List Item)
        (parts : List Part) (old new : Outputs) (done : LinkDone) → AreItems sources items → AreKnown F.text first sources
        → AreKnown F.text second sources → outcome bottom items ≡ Ok parts
        → LinkRuns (pass_of F.text F.faults first again) (pass_of F.text F.faults second later) bottom old new (Ok done)
        → Leaves bottom parts old new done }
{}
