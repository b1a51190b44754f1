//! Sources of labels, assignments and what memory holds.

ghost use Rattle.std.specs.Prelude.{◌≡◌, ℕ, ◌<◌, List, [], ◌∷◌, codes, map};
ghost use Rattle.m11_base_disassembly.specs.declared.symbols.Symbol.{Symbol};
ghost use Rattle.m11_scan.specs.Line.{line_of};
ghost use Rattle.m11_unfold_rules.specs.Stages.{Stage};
ghost use Rattle.m11_unfold_rules.specs.Taking.{NothingLeft, move};
ghost use Rattle.m11_unfold_rules.specs.Unfolding.{UnfoldedLine, Unfolds};
ghost use Rattle.m11_asm_dump_laws.specs.Items.{AreWellFormed, AssembleAs, Item, source_of};

use m11_asm_rules::placements_are_the_same_under_every_map;

/// A source that selects the absolute section, and there has labels, assignments, moves of the location counter, and lines of words and bytes
/// in which addresses are names, is assembled as its lines say. Each word and byte is at its address, no line is flagged, and the transfer
/// address is that of `.END`. Each name is defined once, a label at its value; a name may stand before its label. Unfolding leaves all lines
/// as they are.
pub fn a_source_of_items_is_assembled_as_they_say()
    ensures says { (symbols : List Symbol) (start : ℕ) (items : List Item) (lines : List UnfoldedLine) (stage : Stage)
        → AreWellFormed symbols items → start < 65536 → Unfolds (map line_of (source_of symbols start items)) lines stage
        → move stage ≡ NothingLeft → AssembleAs lines start items }
    ensures example { (symbols : List Symbol) × (items : List Item) × AreWellFormed symbols items
        × (source_of symbols 0o1000 items ≡ codes "\t.ASECT" ∷ codes "\t.=1000" ∷ codes "L01000:" ∷ codes "\tBR     L01000"
        ∷ codes "\t.END\tL01000" ∷ []) }
{
    placements_are_the_same_under_every_map();
}
