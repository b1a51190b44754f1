//! Laws of the live lines and the end of a pass, and of two passes under one map. Each is the contract of a function that does nothing.

ghost use Rattle.std.specs.Prelude.{◌≡◌, ◌⊎◌, ◌≤◌, ◌++◌, List, length};
ghost use Rattle.m11_asm_faults.specs.declared.fault.AsmFault.{AsmFault};
ghost use Rattle.m11_scan.specs.Line.{SourceLine};
ghost use Rattle.m11_asm_passes.specs.Beginnings.{BeginWith};
ghost use Rattle.m11_asm_passes.specs.Ends.{EndsAfter, ExceedsAfter, HasEnd};
ghost use Rattle.m11_asm_lines.specs.declared.counting.Counting.{Counting};
ghost use Rattle.m11_asm_passes.specs.Lines.{NumberedLine, PassLines};
ghost use Rattle.m11_asm_rules.specs.Meanings.{Map};
ghost use Rattle.m11_unfold_rules.specs.Limits.{most_lines};
ghost use Rattle.m11_unfold_rules.specs.Stages.{Stage};

/// A pass over a source has at most 200,000 live lines, since each of them was read, and at most that many lines are read.
#[tactic(auto, using(crate::proofs::LinesCounted::at_most))]
pub fn a_source_has_at_most_200000_live_lines()
    ensures { (map : Map) (counting : Counting) (source : List SourceLine) (lines : List NumberedLine) (stage : Stage)
        → PassLines map counting source lines stage → length lines ≤ most_lines }
{}

/// Of two passes over prefixes of one source, under one map and with the same counting of names, the live lines of one begin with
/// those of the other.
pub fn one_pass_goes_on_from_the_other()
    ensures { (map : Map) (counting : Counting) (all source other more rest : List SourceLine) (lines later : List NumberedLine)
        (stage after : Stage) → PassLines map counting source lines stage → PassLines map counting other later after
        → source ++ more ≡ all → other ++ rest ≡ all → BeginWith later lines ⊎ BeginWith lines later }
{}

/// A pass over a source has only one end, under one map and with one counting of names. Two passes at their end have read the same
/// lines, have the same live lines, and are at the same stage. Two passes that exceed a limit exceed the same one, after the same
/// lines. If one pass reaches its end, no other exceeds a limit.
pub fn a_pass_has_one_end()
    ensures ends { (map : Map) (counting : Counting) (all source other : List SourceLine) (lines later : List NumberedLine)
        (stage after : Stage) → EndsAfter map counting all source lines stage → EndsAfter map counting all other later after
        → (source ≡ other) × (lines ≡ later) × (stage ≡ after) }
    ensures exceeds { (map : Map) (counting : Counting) (all source other : List SourceLine) (lines later : List NumberedLine)
        (first second : AsmFault) → ExceedsAfter map counting all source lines first → ExceedsAfter map counting all other later second
        → (source ≡ other) × (lines ≡ later) × (first ≡ second) }
    ensures either { (map : Map) (counting : Counting) (all source other : List SourceLine) (lines later : List NumberedLine) (stage : Stage)
        (fault : AsmFault) → EndsAfter map counting all source lines stage → ExceedsAfter map counting all other later fault → ⊥ }
{}

/// Each pass over lines reaches its end or exceeds a limit, whatever the lines are: it reads at most 200,000 lines, and each line opens at
/// most one expansion. By `a_pass_has_one_end` a pass does exactly one of the two.
pub fn each_pass_reaches_its_end_or_passes_a_limit()
    ensures { (map : Map) (counting : Counting) (all : List SourceLine) → HasEnd map counting all }
{}
