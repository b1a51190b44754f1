//! Laws of a pass, which reads line by line: it has the live lines of the unfolding of the whole source. Each law is the contract of a
//! function whose body is empty or only calls a law needed to prove it.

ghost use Rattle.std.specs.Prelude.{◌≡◌, ◌≤◌, ◌+◌, ◌++◌, List, [], length};
ghost use Rattle.m11_asm.specs.Outcome.{Refuses};
ghost use Rattle.m11_asm_faults.specs.declared.fault.AsmFault.{AsmFault};
ghost use Rattle.m11_scan.specs.Line.{SourceLine};
ghost use Rattle.m11_scan_line_laws.specs.Readings.{Reading};
ghost use Rattle.m11_asm_passes.specs.Ends.{EndsAfter};
ghost use Rattle.m11_asm_outcome_laws.specs.AllLines.{AreAllLines, EndsWith, AreWithinLimits};
ghost use Rattle.m11_asm_outcome_laws.specs.FirstFaults.{IsRefusedAfter};
ghost use Rattle.m11_asm_outcome_laws.specs.Numbers.{HaveNumbers};
ghost use Rattle.m11_asm_passes.specs.Lines.{NumberedLine, PassLines, givens};
ghost use Rattle.m11_asm_rules.specs.Definitions.{registers};
ghost use Rattle.m11_asm_rules.specs.Limits.{name_count, names_after};
ghost use Rattle.m11_asm_rules.specs.Meanings.{Map};
ghost use Rattle.m11_asm_rules.specs.Placements.{table_after};
ghost use Rattle.m11_asm_rules.specs.Tables.{first_table};
ghost use Rattle.m11_asm_rules.specs.Unfolded.{AreLines};
ghost use Rattle.m11_unfold_rules.specs.Histories.{with_more};
ghost use Rattle.m11_unfold_rules.specs.Stages.{Stage};
ghost use Rattle.m11_unfold_rules.specs.Unfolding.{UnfoldedLine};
ghost use Rattle.m11_asm_lines.specs.declared.counting.Counting.{Counting};

use m11_unfold_rules::a_source_has_one_unfolding;

/// The live lines that a pass has so far are the first live lines of the unfolding of the whole source, whatever lines aren't read yet.
/// After these live lines, that unfolding is at the stage of the pass, with the unread lines left. No live line exceeds a limit. When the
/// pass ends, its live lines are all the live lines of the source. The number of a live line is the least number of lines from the start of
/// the source that unfold to it and to the live lines before it.
pub fn the_lines_of_a_pass_are_those_of_the_whole_source()
    ensures so_far { (map : Map) (counting : Counting) (source more : List SourceLine) (lines : List NumberedLine) (stage : Stage)
        → PassLines map counting source lines stage → AreLines map (source ++ more) (givens lines) (with_more more stage) }
    ensures limits { (map : Map) (counting : Counting) (source : List SourceLine) (lines : List NumberedLine) (stage : Stage)
        → PassLines map counting source lines stage → AreWithinLimits map first_table counting (givens lines) }
    ensures all { (map : Map) (counting : Counting) (all source : List SourceLine) (lines : List NumberedLine) (stage : Stage)
        (end : EndsAfter map counting all source lines stage) → AreAllLines map all (givens lines) (with_more end.more stage) }
    ensures numbers { (map : Map) (counting : Counting) (source more : List SourceLine) (lines : List NumberedLine) (stage : Stage)
        → PassLines map counting source lines stage → HaveNumbers map (source ++ more) lines }
{
    a_source_has_one_unfolding();
}

/// If a reading is refused after some live lines, the fault is that of the first limit exceeded after them in the unfolding of all its
/// lines; or, if all its lines are read and no `.END` became live, it is the fault that stopped the reading.
pub fn a_reading_is_refused_by_the_first_limit_of_the_whole_source()
    ensures { (map : Map) (counting : Counting) (reading : Reading) (lines : List NumberedLine) (fault : AsmFault)
        → Refuses map counting reading lines fault → IsRefusedAfter map counting reading (givens lines) fault }
{
    a_source_has_one_unfolding();
}

/// If these are all the live lines in the unfolding of a whole source, and none of them exceeds a limit, a pass over the source ends with
/// them. A pass that ends has no other live lines.
pub fn a_pass_has_the_lines_of_the_whole_source()
    ensures ends { (map : Map) (counting : Counting) (all : List SourceLine) (gives : List UnfoldedLine) (stage : Stage)
        → AreAllLines map all gives stage → AreWithinLimits map first_table counting gives → EndsWith map counting all gives }
    ensures just_these { (map : Map) (counting : Counting) (all source : List SourceLine) (lines : List NumberedLine)
        (gives : List UnfoldedLine) (stage after : Stage) → EndsAfter map counting all source lines stage → AreAllLines map all gives after
        → givens lines ≡ gives }
{
    a_source_has_one_unfolding();
}

/// Lines use each name that they define: a table defines no more names than those of the registers and the names that lines use. So a
/// reading that uses no more names than are allowed defines no more than are allowed.
#[tactic(auto, using(crate::proofs::Defining::few_defined))]
pub fn what_lines_define_they_use()
    ensures { (map : Map) (lines : List UnfoldedLine)
        → name_count (table_after map lines) ≤ length registers + length (names_after map first_table lines []) }
{}
