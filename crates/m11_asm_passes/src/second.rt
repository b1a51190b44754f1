//! Laws of any two passes over one source, and of a second pass over the lines of a first one. Each is the contract of a function that only
//! calls the laws needed to prove it.

ghost use Rattle.std.specs.Prelude.{◌≡◌, ◌⊎◌, ◌++◌, ◌∷◌, List};
ghost use Rattle.m11_asm_faults.specs.declared.fault.AsmFault.{AsmFault};
ghost use Rattle.m11_base.specs.Rad50.{Name};
ghost use Rattle.m11_scan.specs.Line.{SourceLine};
ghost use Rattle.m11_asm_passes.specs.Beginnings.{BeginWith};
ghost use Rattle.m11_asm_passes.specs.Ends.{EndsAfter, ExceedsAfter};
ghost use Rattle.m11_asm_passes.specs.Second.{map_from, moved_after};
ghost use Rattle.m11_asm_lines.specs.declared.counting.Counting.{Counting};
ghost use Rattle.m11_asm_lines.specs.declared.counting.Counting.TheVariants.{Definitions};
ghost use Rattle.m11_asm_passes.specs.Lines.{NumberedLine, PassLines, givens};
ghost use Rattle.m11_asm_rules.specs.Limits.{names_after};
ghost use Rattle.m11_asm_rules.specs.Meanings.{Map};
ghost use Rattle.m11_asm_rules.specs.Tables.{first_table};
ghost use Rattle.m11_unfold_rules.specs.Stages.{Stage};

use m11_asm_rules::{placements_are_the_same_under_every_map, the_map_of_a_source_solves_it};

/// Any two passes read the same lines in the same way, whatever their maps are and whichever names they count. No map decides which lines
/// become live, which symbols are known at them, or which flags and symbols unfolding finds in them. Of two passes over prefixes of one
/// source, the live lines of one begin with those of the other. If one is at its end, its live lines begin with those of the other; if both
/// are, they have read the same lines, have the same live lines, and are at the same stage.
pub fn the_same_lines_are_read_alike()
    ensures goes_on { (one other : Map) (counting others : Counting) (all source more read rest : List SourceLine)
        (lines later : List NumberedLine) (stage after : Stage) → PassLines one counting source lines stage
        → PassLines other others read later after → source ++ more ≡ all → read ++ rest ≡ all
        → BeginWith later lines ⊎ BeginWith lines later }
    ensures begins { (one other : Map) (counting others : Counting) (all source read rest : List SourceLine) (lines later : List NumberedLine)
        (stage after : Stage) → EndsAfter one counting all source lines stage → PassLines other others read later after
        → read ++ rest ≡ all → BeginWith lines later }
    ensures ends { (one other : Map) (counting others : Counting) (all source read : List SourceLine) (lines later : List NumberedLine)
        (stage after : Stage) → EndsAfter one counting all source lines stage → EndsAfter other others all read later after
        → (source ≡ read) × (lines ≡ later) × (stage ≡ after) }
{
    placements_are_the_same_under_every_map();
}

/// In a second pass over the lines that a first one read to its end, with the map from these lines, no label has moved, so no line has the
/// flag P. Each label that defines its key is at the location that the key has in the map, since no later line gives the key of a label
/// another definition.
pub fn no_label_has_moved_in_a_second_pass_over_the_same_lines()
    ensures { (one : Map) (counting others : Counting) (all source read rest : List SourceLine)
        (lines later before more : List NumberedLine) (this : NumberedLine) (stage after : Stage)
        → EndsAfter one counting all source lines stage → PassLines (map_from lines) others read later after
        → read ++ rest ≡ all → later ≡ before ++ this ∷ more → moved_after (map_from lines) before this ≡ 0 }
{
    placements_are_the_same_under_every_map();
    the_map_of_a_source_solves_it();
}

/// If a first pass has read its lines to the end, a second pass that goes over the same lines and counts only defined names exceeds no
/// limit, whatever its map is. The second pass has the same names, local symbols and sections, and its lines use no name that the lines of
/// the first pass didn't use.
pub fn a_second_pass_over_the_same_lines_passes_no_limit()
    ensures limits { (one other : Map) (counting : Counting) (all source read : List SourceLine) (lines later : List NumberedLine)
        (stage : Stage) (fault : AsmFault) → EndsAfter one counting all source lines stage
        → ExceedsAfter other Definitions all read later fault → ⊥ }
    ensures names { (one other : Map) (counting : Counting) (names : List Name) (all source read rest : List SourceLine)
        (lines later : List NumberedLine) (stage after : Stage) → EndsAfter one counting all source lines stage
        → PassLines other Definitions read later after → read ++ rest ≡ all
        → names_after other first_table (givens later) (names_after one first_table (givens lines) names)
        ≡ names_after one first_table (givens lines) names }
{
    placements_are_the_same_under_every_map();
}
