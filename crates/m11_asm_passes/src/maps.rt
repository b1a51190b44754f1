//! Laws of maps that agree. Each is the contract of a function that does nothing.

ghost use Rattle.std.specs.Prelude.{◌≡◌, List};
ghost use Rattle.m11_asm_faults.specs.declared.fault.AsmFault.{AsmFault};
ghost use Rattle.m11_base.specs.Devices.{Bytes};
ghost use Rattle.m11_scan.specs.Line.{SourceLine};
ghost use Rattle.m11_scan_statements.specs.declared.labels.Label.{Label};
ghost use Rattle.m11_unfold_rules.specs.Stages.{Stage};
ghost use Rattle.m11_unfold_rules.specs.Taking.{Live};
ghost use Rattle.m11_unfold_rules.specs.Unfolding.{UnfoldedLine};
ghost use Rattle.m11_asm_rules.specs.Lines.{after_line, flags, line_emission, pieces};
ghost use Rattle.m11_asm_rules.specs.Meanings.{Map};
ghost use Rattle.m11_asm_rules.specs.Tables.{Table};
ghost use Rattle.m11_asm_lines.specs.Moved.{moved_flags};
ghost use Rattle.m11_asm_lines.specs.declared.counting.Counting.{Counting};
ghost use Rattle.m11_asm_passes.specs.Lines.{NumberedLine, PassLines, counting_at, table_at};
ghost use Rattle.m11_asm_passes.specs.Placed.{all_flags};
ghost use Rattle.m11_asm_passes.specs.Reaching.{Exceeds};
ghost use Rattle.m11_asm_passes.specs.Refusals.{line_fault};
ghost use Rattle.m11_asm_passes.specs.Maps.{MapsAgree};

/// Under maps that agree, each line emits the same contents, makes the same change, and has the same pieces, flags and fault, whatever
/// table is before the line. After any lines the table is the same, and so are the counted names.
pub fn maps_that_agree_place_lines_alike()
    ensures puts { (one other : Map) → MapsAgree one other → (table : Table) (given : UnfoldedLine)
        → line_emission one table given ≡ line_emission other table given }
    ensures changes { (one other : Map) → MapsAgree one other → (table : Table) (given : UnfoldedLine)
        → after_line one table given ≡ after_line other table given }
    ensures pieces { (one other : Map) → MapsAgree one other → (table : Table) (given : UnfoldedLine)
        → pieces one table given ≡ pieces other table given }
    ensures flags { (one other : Map) → MapsAgree one other → (table : Table) (given : UnfoldedLine)
        → flags one table given ≡ flags other table given }
    ensures moves { (one other : Map) → MapsAgree one other → (line : Bytes) (table : Table) (labels : List Label)
        → moved_flags one line table labels ≡ moved_flags other line table labels }
    ensures all_flags { (one other : Map) → MapsAgree one other → (table : Table) (given : UnfoldedLine)
        → all_flags one table given ≡ all_flags other table given }
    ensures tables { (one other : Map) → MapsAgree one other → (lines : List NumberedLine) → table_at one lines ≡ table_at other lines }
    ensures names { (one other : Map) → MapsAgree one other → (counting : Counting) (lines : List NumberedLine)
        → counting_at one counting lines ≡ counting_at other counting lines }
    ensures faults { (one other : Map) → MapsAgree one other → (table : Table) (counting : Counting) (live : Live) (stage : Stage)
        → line_fault one table counting live stage ≡ line_fault other table counting live stage }
{}

/// Under maps that agree, a source has the same live lines, and exceeds the same limits.
pub fn maps_that_agree_have_the_same_live_lines()
    ensures lines { (one other : Map) → MapsAgree one other
        → (counting : Counting) (source : List SourceLine) (lines : List NumberedLine) (stage : Stage)
        → PassLines one counting source lines stage → PassLines other counting source lines stage }
    ensures limits { (one other : Map) → MapsAgree one other
        → (counting : Counting) (source : List SourceLine) (lines : List NumberedLine) (fault : AsmFault)
        → Exceeds one counting source lines fault → Exceeds other counting source lines fault }
{}
