//! What passes over readings come to.

ghost use Rattle.std.specs.Prelude.{◌≡◌, List, Result};
ghost use Rattle.m11_asm.specs.Written.{EndOfSource};
ghost use Rattle.m11_asm_faults.specs.declared.fault.AsmFault.{AsmFault};
ghost use Rattle.m11_asm_lines.specs.declared.counting.Counting.{Counting};
ghost use Rattle.m11_asm_outcome_laws.specs.PassesOver.{PassComesTo, PassOver, pass_over};
ghost use Rattle.m11_asm_passes.specs.Lines.{NumberedLine};
ghost use Rattle.m11_asm_rules.specs.Meanings.{Map};
ghost use Rattle.m11_scan_line_laws.specs.Readings.{Reading};

use m11_asm_passes::a_pass_has_one_end;

/// A pass over any reading comes to what `pass_over` computes, and to nothing else: it has these live lines, and after them this end, or this
/// fault refuses it.
pub fn passes_come_to_what_is_computed()
    ensures comes { (map : Map) (counting : Counting) (reading : Reading)
        → PassComesTo map counting reading (pass_over map counting reading).lines (pass_over map counting reading).result }
    ensures alone { (map : Map) (counting : Counting) (reading : Reading) (lines : List NumberedLine)
        (result : Result EndOfSource AsmFault) → PassComesTo map counting reading lines result
        → pass_over map counting reading ≡ record { lines = lines; result = result } }
{
    a_pass_has_one_end();
}
