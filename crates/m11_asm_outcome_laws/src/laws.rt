//! Laws of outcomes. Each is the contract of a function whose body is empty or only calls the laws needed to prove it.

ghost use Rattle.std.specs.Prelude.{◌≡◌, ◌↔◌, ◌∷◌, ◌++◌, ◌+◌, ℕ, List, [], Err, Some};
ghost use Rattle.m11_asm.specs.Outcome.{Assembled, Ends, HasOutcome, Outcome, Refuses};
ghost use Rattle.m11_base_writes.specs.Passes.{Pass};
ghost use Rattle.m11_asm.specs.Run.{AsmRuns};
ghost use Rattle.m11_asm_faults.specs.declared.fault.AsmFault.{AsmFault};
ghost use Rattle.m11_base_writes.specs.declared.outputs.Output.{Output};
ghost use Rattle.m11_asm_outputs.specs.Outputs.{Gains};
ghost use Rattle.m11_base_writes.specs.Outputs.{Outputs, Write};
ghost use Rattle.m11_base.specs.Devices.{Bytes};
ghost use Rattle.m11_asm_outcome_laws.specs.Messages.{messages_in};
ghost use Rattle.m11_asm_outcome_laws.specs.OneText.{IsDecidedByFirst, Repeats, program_after};
ghost use Rattle.m11_asm_outcome_laws.specs.Runs.{IsOfSources, IsRefused};
ghost use Rattle.m11_asm_outcome_laws.specs.Sources.{AssembleTo};
ghost use Rattle.m11_asm_passes.specs.Lines.{NumberedLine};
ghost use Rattle.m11_asm_rules.specs.Meanings.{empty_map};
ghost use Rattle.m11_scan_line_laws.specs.Readings.{Reading};
ghost use Rattle.m11_asm.specs.Program.{Program};
ghost use Rattle.m11_asm.specs.Written.{EndOfSource, flagged_count, program_writes};
ghost use Rattle.m11_asm_lines.specs.declared.counting.Counting.TheVariants.{Definitions};
ghost use Rattle.m11_asm_lines.specs.Counting.{none_used};

use m11_asm_passes::{
    a_pass_has_one_end, a_second_pass_over_the_same_lines_passes_no_limit,
    each_pass_reaches_its_end_or_passes_a_limit,
    no_label_has_moved_in_a_second_pass_over_the_same_lines, the_same_lines_are_read_alike,
};
use m11_scan_line_laws::sources_after_a_line_feed_are_one_text;

/// Sources have only one outcome: any two outcomes of the same two readings are equal. Both are refusals by the same fault after the
/// same writes, or both are the same writes with the same count of flagged lines.
pub fn sources_have_one_outcome()
    ensures { (first second : Reading) (one other : Outcome) → HasOutcome first second one → HasOutcome first second other → one ≡ other }
{
    a_pass_has_one_end();
}

/// Any two readings have an outcome, whatever their lines are; by `sources_have_one_outcome` they have exactly one.
pub fn each_list_of_sources_has_an_outcome()
    ensures { (first second : Reading) → (outcome : Outcome) × HasOutcome first second outcome }
{
    each_pass_reaches_its_end_or_passes_a_limit();
}

/// If the first of two sources ends in a line feed, the two have the same outcome as the one text that they make together, whatever
/// sources follow.
pub fn two_sources_after_a_line_feed_are_one_text()
    ensures { (one other : Bytes) (sources : List Bytes) (outcome : Outcome)
        → AssembleTo ((one ++ 10 ∷ []) ∷ other ∷ sources) outcome
        ↔ AssembleTo (((one ++ 10 ∷ []) ++ other) ∷ sources) outcome }
{
    sources_after_a_line_feed_are_one_text();
}

/// If both passes read the same text and the first one isn't refused, the second one isn't refused either: it has the same live lines
/// up to the same end, and none of their labels has moved. So the first pass alone decides the outcome, and nothing is written before
/// a refusal.
pub fn the_same_text_has_no_moved_label_and_no_second_refusal()
    ensures repeats { (reading : Reading) (lines : List NumberedLine) (ended : EndOfSource) → Ends empty_map none_used reading lines ended
        → Repeats reading lines ended }
    ensures refuses { (reading : Reading) (lines others : List NumberedLine) (ended : EndOfSource) (fault : AsmFault)
        → Ends empty_map none_used reading lines ended
        → Refuses (program_after lines).map Definitions reading others fault → ⊥ }
    ensures outcome { (reading : Reading) (outcome : Outcome) → HasOutcome reading reading outcome → IsDecidedByFirst reading outcome }
{
    the_same_lines_are_read_alike();
    each_pass_reaches_its_end_or_passes_a_limit();
    a_second_pass_over_the_same_lines_passes_no_limit();
    no_label_has_moved_in_a_second_pass_over_the_same_lines();
}

/// If a run ends with a fault of its sources, that fault and the run's writes are the outcome of its two readings. If the first pass is
/// refused, nothing is written and the second pass reads nothing; whatever it would read, the outcome is that refusal.
/// `m11_asm::a_run_writes_the_outcome_of_its_sources` states the same for successful runs.
pub fn runs_write_their_outcome<F>()
    ensures { (first second : Pass F) (old new : Outputs) (fault : AsmFault) → IsOfSources fault → AsmRuns first second old new (Err fault)
        → (writes : List Write) × IsRefused first second fault writes × Gains old new writes }
{}

/// An assembly writes a message for each flagged line, including the line that is added if `.END` doesn't become live, and a message with
/// the count of flagged lines.
pub fn there_is_a_message_for_each_flagged_line()
    ensures { (program : Program) (lines : List NumberedLine) (ended : EndOfSource)
        → messages_in (program_writes program lines ended) ≡ flagged_count program lines ended.has_end + 1 }
{}

/// Two assemblies of the same readings, one with a listing and one without, write the same object and the same messages if neither is
/// refused: an output with the same bytes before both has the same bytes after both.
pub fn a_listing_changes_no_other_output()
    ensures { (first second : Reading) (writes others : List Write) (flagged count : ℕ)
        → HasOutcome first second (Assembled writes flagged) → HasOutcome first second (Assembled others count)
        → (old new with_old with_new : Outputs) → Gains old new writes → Gains with_old with_new others
        → (output : Output) (before : Bytes) → (old output).text ≡ Some before → (with_old output).text ≡ Some before
        → (new output).text ≡ (with_new output).text }
{
    sources_have_one_outcome();
}
