//! The law that an unfolder's calls together yield the unfolding of a source. It is the contract of a function with an empty
//! body.

ghost use Rattle.std.specs.Prelude.{◌≡◌, ◌++◌, ◌∷◌, Bool, List, [], Result, Ok};
ghost use Rattle.m11_scan_expressions.specs.Expressions.{KnownSymbols};
ghost use Rattle.m11_unfold_bodies.specs.Left.{Line};
ghost use Rattle.m11_scan.specs.Line.{SourceLine};
ghost use Rattle.m11_unfold_rules.specs.Histories.{with_more};
ghost use Rattle.m11_unfold_rules.specs.Stages.{Stage, start};
ghost use Rattle.m11_unfold_rules.specs.Unfolding.{UnfoldedLine, Unfolds};
ghost use Rattle.m11_unfold_rules.specs.declared.fault.UnfoldFault.{UnfoldFault};
ghost use Rattle.m11_unfold.specs.Sources.{Reaches, ReachesOn};
ghost use Rattle.m11_unfold.specs.Unfolder.{Acts, Steps, live_of};
ghost use Rattle.m11_unfold.specs.declared.steps.Act.{Act};
ghost use Rattle.m11_unfold.specs.declared.steps.Step.{Step};
ghost use Rattle.m11_unfold.specs.declared.steps.Step.TheVariants as step;

/// A new unfolder is at the stage before the first line of a source. `feed` extends the source by one line. A line that `next` yields is
/// the next live line of the source once its operator is executed. If `next` returns a fault, the unfolding of the source exceeds the limit
/// that the fault names, or memory is refused. If `next` needs a line, all fed lines have been read; after `End` no line becomes live,
/// whatever follows. If `act` succeeds for a line that `next` yielded, that line is the next live line of the source; if `act` returns a
/// fault, the operator exceeds the limit that the fault names, or memory is refused. Lines appended to the source change none of the lines
/// that became live.
pub fn the_calls_unfold_the_source()
    ensures begins { Unfolds [] [] (start []) }
    ensures feeds { (source : List SourceLine) (line : SourceLine) (done : List UnfoldedLine) (stage : Stage) → Unfolds source done stage
        → stage.left ≡ [] → Unfolds (source ++ line ∷ []) done (record stage { left = Line line ∷ [] }) }
    ensures steps { (source : List SourceLine) (done : List UnfoldedLine) (before after : Stage) (line : SourceLine)
        (result : Result Step UnfoldFault) → Unfolds source done before → Steps before after line result
        → Reaches source done after line result }
    ensures acts { (source : List SourceLine) (done : List UnfoldedLine) (before live_stage after : Stage) (line : SourceLine)
        (is_expanded : Bool) (known : KnownSymbols) (result : Result Act UnfoldFault) → Unfolds source done before
        → Steps before live_stage line (Ok (step.Line is_expanded)) → Acts known line.text live_stage after result
        → ReachesOn source done known (live_of line is_expanded) live_stage after result }
    ensures longer { (source more : List SourceLine) (done : List UnfoldedLine) (stage : Stage) → Unfolds source done stage
        → Unfolds (source ++ more) done (with_more more stage) }
{}
