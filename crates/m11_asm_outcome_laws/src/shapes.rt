//! The law that joins the shapes of sources and their assembly. It is the contract of a function that only calls laws needed to prove it.

ghost use Rattle.std.specs.Prelude.{ℕ, List};
ghost use Rattle.m11_asm.specs.Outcome.{Assembled, HasOutcome};
ghost use Rattle.m11_asm.specs.Program.{program_of};
ghost use Rattle.m11_asm_outcome_laws.specs.Shapes.{HasShapeUnder, WritesTheLines};
ghost use Rattle.m11_asm_rules.specs.Meanings.{empty_map};
ghost use Rattle.m11_base_writes.specs.Outputs.{Write};
ghost use Rattle.m11_scan_line_laws.specs.Readings.{Reading};
ghost use Rattle.m11_unfold_rules.specs.Unfolding.{UnfoldedLine};

use crate::sources::outcomes_are_those_of_whole_sources;
use m11_unfold_laws::a_source_has_just_the_live_lines_of_its_shape;

/// Sources that have shapes are assembled from the live lines of these shapes: the first pass yields the program of the lines that the
/// first reading has in its shape, with nothing known but what its own lines define; and the second pass writes the outputs of the lines
/// that the second reading has in its shape under that program, with their numbers, and counts those of them that are flagged.
pub fn sources_are_assembled_from_the_lines_of_their_shapes()
    ensures { (first second : Reading) (gives later : List UnfoldedLine) (writes : List Write) (flagged : ℕ)
        → HasShapeUnder empty_map first.lines gives → HasShapeUnder (program_of gives).map second.lines later
        → HasOutcome first second (Assembled writes flagged) → WritesTheLines (program_of gives) second later writes flagged }
{
    outcomes_are_those_of_whole_sources();
    a_source_has_just_the_live_lines_of_its_shape();
}
