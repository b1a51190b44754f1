//! A law of runs. It is the contract of a function that does nothing.

ghost use Rattle.std.specs.Prelude.{List, Ok};
ghost use Rattle.m11_asm.specs.Outcome.{Assembled, HasOutcome};
ghost use Rattle.m11_base_writes.specs.Passes.{Pass};
ghost use Rattle.m11_asm.specs.Passes.{Reads};
ghost use Rattle.m11_asm.specs.Run.{AsmRuns};
ghost use Rattle.m11_asm_outputs.specs.Outputs.{Gains};
ghost use Rattle.m11_base_writes.specs.Outputs.{AreFlushed, Outputs, Write};
ghost use Rattle.m11_scan_line_laws.specs.Readings.{Reading};
ghost use Rattle.m11_asm.specs.declared.done.AsmDone.{AsmDone};

/// A successful run writes exactly the outcome of its two readings, leaves nothing held back in object and listing, and returns the count
/// of flagged lines of that outcome.
pub fn a_run_writes_the_outcome_of_its_sources<F>()
    ensures { (first second : Pass F) (old new : Outputs) (done : AsmDone) → AsmRuns first second old new (Ok done)
        → (one : Reading) × (other : Reading) × Reads first one × Reads second other
        × (writes : List Write) × HasOutcome one other (Assembled writes done.flagged) × Gains old new writes × AreFlushed new }
{}
