//! The law that the calls of a pass place the lines of a source. It is the contract of a function that does nothing.

ghost use Rattle.std.specs.Prelude.{◌≡◌, ◌++◌, ◌∷◌, List, [], Result, false};
ghost use Rattle.m11_asm_faults.specs.declared.fault.AsmFault.{AsmFault};
ghost use Rattle.m11_scan.specs.Line.{SourceLine};
ghost use Rattle.m11_asm_rules.specs.Meanings.{Map, empty_map};
ghost use Rattle.m11_asm_lines.specs.declared.counting.Counting.{Counting};
ghost use Rattle.m11_asm_passes.specs.Lines.{NumberedLine};
ghost use Rattle.m11_asm_passes.specs.Reaching.{Reaches};
ghost use Rattle.m11_asm_passes.specs.States.{PassState, PassAfter, fed};
ghost use Rattle.m11_asm_passes.specs.Placed.{live_in};
ghost use Rattle.m11_asm_passes.specs.Turns.{SaysLive, SaysPlaced, Turns};
ghost use Rattle.m11_asm_passes.specs.declared.placed.LiveLine.{LiveLine};
ghost use Rattle.m11_asm_passes.specs.declared.placed.PlacedLine.{PlacedLine};
ghost use Rattle.m11_asm_passes.specs.declared.turns.Turn.{Turn};

/// If a pass has placed the live lines of a source and needs a line, feeding a line makes that source one line longer. `next` and `define`
/// place the next live line of the source, as the contract of the call says; or they place nothing, since a line is needed or `.END` is
/// live. If they fail, memory was refused, or the fault is that of the first limit that the source exceeds.
#[tactic(auto, using(crate::proofs::Standing::feeds, crate::proofs::Standing::next_turns, crate::proofs::Standing::define_turns))]
pub fn the_calls_place_the_lines_of_a_source()
    ensures feeds { (map : Map) (before : Counting) (source : List SourceLine) (lines : List NumberedLine) (line : SourceLine) (pass_state : PassState)
        → PassAfter map before source lines pass_state → pass_state.unfolder.stage.left ≡ [] → pass_state.unfolder.stage.has_ended ≡ false
        → PassAfter map before (source ++ line ∷ []) lines (fed line pass_state) }
    ensures turns { (map : Map) (before : Counting) (source : List SourceLine) (lines : List NumberedLine) (old new : PassState)
        (placed : PlacedLine) (result : Result Turn AsmFault) → PassAfter map before source lines old
        → Turns map old new (live_in placed.live) (SaysPlaced map placed new.emission) result
        → Reaches map before source lines new (live_in placed.live) (SaysPlaced map placed new.emission) result }
    ensures defines { (before : Counting) (source : List SourceLine) (lines : List NumberedLine) (old new : PassState)
        (live : LiveLine) (result : Result Turn AsmFault) → PassAfter empty_map before source lines old
        → Turns empty_map old new (live_in live) (SaysLive live) result
        → Reaches empty_map before source lines new (live_in live) (SaysLive live) result }
{}
