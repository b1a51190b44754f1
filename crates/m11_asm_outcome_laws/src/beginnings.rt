//! Laws of whole runs over known sources.

ghost use Rattle.std.specs.Prelude.{List, Result};
ghost use Rattle.m11_asm.specs.Outcome.{Outcome};
ghost use Rattle.m11_base_writes.specs.Passes.{AreKnown, pass_of};
ghost use Rattle.m11_asm.specs.Run.{AsmRuns};
ghost use Rattle.m11_asm.specs.declared.done.AsmDone.{AsmDone};
ghost use Rattle.m11_asm_faults.specs.declared.fault.AsmFault.{AsmFault};
ghost use Rattle.m11_base_writes.specs.Outputs.{Outputs};
ghost use Rattle.m11_base.specs.Devices.{Bytes};
ghost use Rattle.m11_asm_outcome_laws.specs.Beginnings.{IsDecided};
ghost use Rattle.m11_asm_outcome_laws.specs.Live.{ComesTo};
ghost use Rattle.m11_asm_outcome_laws.specs.Sources.{AssembleTo};

use m11_asm_passes::{
    a_pass_has_one_end, a_second_pass_over_the_same_lines_passes_no_limit,
    the_same_lines_are_read_alike,
};
use m11_base::Feed;

/// If both passes read the same known bytes, the outcome of these sources decides the run. If the sources are assembled, a successful run
/// has made exactly the writes of the outcome, to the object, the listing and the messages. It returns the outcome's count of flagged
/// lines, and object and listing hold nothing back. The only possible faults are `Read`, `Write` and `NoMemory`; after each of them, each
/// of the three outputs has gained a prefix of what the outcome has for it. If the sources are refused, the run returns that refusal,
/// `Read` or `NoMemory`, and writes nothing.
pub fn known_sources_decide_the_run<F: Feed>()
    ensures { (first again second later : List F) (sources : List Bytes) (outcome : Outcome) (old new : Outputs)
        (returned : Result AsmDone AsmFault) → AssembleTo sources outcome → AreKnown F.text first sources
        → AreKnown F.text second sources
        → AsmRuns (pass_of F.text F.faults first again) (pass_of F.text F.faults second later) old new returned
        → IsDecided outcome old new returned }
{
    a_pass_has_one_end();
    the_same_lines_are_read_alike();
    a_second_pass_over_the_same_lines_passes_no_limit();
}

/// If both passes read the same known bytes, a successful run has written exactly what the live lines of the first pass write, object and
/// listing hold nothing back, and each record of the object fits its block. Any other run was stopped by a device or by a lack of memory,
/// or its fault is the one by which the first pass over the sources is refused.
pub fn known_sources_write_their_live_lines<F: Feed>()
    ensures { (first again second later : List F) (sources : List Bytes) (old new : Outputs) (returned : Result AsmDone AsmFault)
        → AreKnown F.text first sources → AreKnown F.text second sources
        → AsmRuns (pass_of F.text F.faults first again) (pass_of F.text F.faults second later) old new returned
        → ComesTo sources old new returned }
{
    the_same_lines_are_read_alike();
    a_second_pass_over_the_same_lines_passes_no_limit();
}
