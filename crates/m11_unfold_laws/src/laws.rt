//! Laws of the shapes of a source. Each is the contract of a function with an empty body.

ghost use Rattle.std.specs.Prelude.{◌≡◌, ◌⊎◌, ◌++◌, ◌∷◌, ℕ, List, [], true, false, Option};
ghost use Rattle.m11_scan_expressions.specs.Expressions.{KnownSymbols};
ghost use Rattle.m11_unfold_bodies.specs.Bodies.{PartialBody};
ghost use Rattle.m11_unfold_bodies.specs.Left.{End, RemainingItem};
ghost use Rattle.m11_unfold_bodies.specs.declared.mark.Mark.{Mark};
ghost use Rattle.m11_scan.specs.Line.{SourceLine};
ghost use Rattle.m11_unfold_rules.specs.Histories.{IsKnownBy};
ghost use Rattle.m11_unfold_rules.specs.Stages.{Purpose, Stage, start};
ghost use Rattle.m11_unfold_rules.specs.Taking.{Live, NothingLeft, ended, move, used};
ghost use Rattle.m11_unfold_rules.specs.Unfolding.{UnfoldedLine, Leads, Unfolds};
ghost use Rattle.m11_unfold_laws.specs.Bodies.{StaysOpen, past_body, past_open_body, rest_of_body, with_body};
ghost use Rattle.m11_unfold_laws.specs.Laws.{BeginWith, HasLiveLines, HasShape, IsEndedAfter, IsAtLevel, before_lines};
ghost use Rattle.m11_unfold_laws.specs.Limits.{IsCutShort};
ghost use Rattle.m11_unfold_laws.specs.Levels.{Level, Situation, beginning, mark_at, source_level, stage_of, within_expansion};
ghost use Rattle.m11_unfold_laws.specs.Shapes.{Ending, GoesOn, Ends, Returns, Shape};

/// Lines with a shape yield the live lines of the shape, one after another, and lead to the situation after the shape, unless a limit is
/// exceeded on the way. The lines of an expansion lead to what follows it, whether all of them were read or `.MEXIT` ended it early. After
/// `.END` nothing is read.
pub fn lines_give_the_live_lines_of_their_shape()
    ensures onwards { (level : Level) (before after : Situation) (lines : List SourceLine) (gives : List UnfoldedLine) (left : List RemainingItem)
        → Shape level before lines gives after GoesOn → IsAtLevel level left
        → Leads (before_lines level before lines left) gives (stage_of level after left)
        ⊎ IsCutShort (before_lines level before lines left) gives }
    ensures expanded { (level : Level) (before after : Situation) (arguments : Option ℕ) (bytes : ℕ) (lines : List SourceLine)
        (gives : List UnfoldedLine) (ending : Ending) (left : List RemainingItem)
        → Shape (within_expansion arguments bytes level) before lines gives after ending → Returns ending → IsAtLevel level left
        → Leads (before_lines (within_expansion arguments bytes level) before lines
        (End (mark_at level arguments bytes) ∷ left)) gives
        (stage_of level after left)
        ⊎ IsCutShort
        (before_lines (within_expansion arguments bytes level) before lines (End (mark_at level arguments bytes) ∷ left)) gives }
    ensures ended { (level : Level) (before after : Situation) (lines : List SourceLine) (gives : List UnfoldedLine) (left : List RemainingItem)
        → Shape level before lines gives after Ends → IsAtLevel level left
        → IsEndedAfter (before_lines level before lines left) gives ⊎ IsCutShort (before_lines level before lines left) gives }
{}

/// A source with a shape has all the live lines of that shape and no others, unless a limit is exceeded on the way. If the symbols known at
/// each line follow the same rule in the shape and in an unfolding of the source, the live lines of that unfolding are the first live lines
/// of the shape, and all of them if nothing is left.
pub fn a_source_has_just_the_live_lines_of_its_shape()
    ensures all { (source : List SourceLine) (gives : List UnfoldedLine) (after : Situation) (ending : Ending)
        → Shape source_level beginning source gives after ending → HasLiveLines source gives ⊎ IsCutShort (start source) gives }
    ensures no_others { (known_by : List UnfoldedLine → Live
        → KnownSymbols) (source : List SourceLine) (gives done : List UnfoldedLine) (after : Situation)
        (ending : Ending) (stage : Stage) → Shape source_level beginning source gives after ending → IsKnownBy known_by gives
        → IsKnownBy known_by done → Unfolds source done stage → BeginWith gives done }
    ensures just_these { (known_by : List UnfoldedLine → Live
        → KnownSymbols) (source : List SourceLine) (gives done : List UnfoldedLine) (after : Situation)
        (ending : Ending) (stage : Stage) → Shape source_level beginning source gives after ending → IsKnownBy known_by gives
        → IsKnownBy known_by done → Unfolds source done stage → move stage ≡ NothingLeft → done ≡ gives }
{}

/// Each complete unfolding of a source has a shape, so every source has one unless a limit is exceeded.
pub fn each_source_has_a_shape()
    ensures { (source : List SourceLine) (gives : List UnfoldedLine) (stage : Stage) → Unfolds source gives stage → move stage ≡ NothingLeft
        → HasShape source gives }
{}

/// A body extends to the line that closes it by nesting alone, whether `.ENDM` or `.ENDR`. No line becomes live while the body is read,
/// and the body is then used for its purpose. If an expansion ends before that line, the body is discarded, and the lines after the
/// expansion are left. If the source ends before that line, the body stays open. All this holds unless a limit is exceeded on the way.
pub fn a_body_ends_at_its_close_by_nesting_alone()
    ensures closed { (purpose : Purpose) (taken : PartialBody) (stage : Stage) → (rest_of_body taken stage).is_closed ≡ true
        → Leads (with_body purpose taken stage) []
        (used purpose (taken.body ++ (rest_of_body taken stage).body) (past_body (rest_of_body taken stage) stage))
        ⊎ IsCutShort (with_body purpose taken stage) [] }
    ensures ended { (purpose : Purpose) (taken : PartialBody) (stage : Stage) (mark : Mark) (left : List RemainingItem)
        → (rest_of_body taken stage).is_closed ≡ false → (rest_of_body taken stage).after ≡ End mark ∷ left
        → Leads (with_body purpose taken stage) [] (ended mark left (past_open_body (rest_of_body taken stage) stage))
        ⊎ IsCutShort (with_body purpose taken stage) [] }
    ensures left { (purpose : Purpose) (taken : PartialBody) (stage : Stage) → (rest_of_body taken stage).is_closed ≡ false
        → (rest_of_body taken stage).after ≡ []
        → StaysOpen purpose taken (rest_of_body taken stage) stage ⊎ IsCutShort (with_body purpose taken stage) [] }
{}
