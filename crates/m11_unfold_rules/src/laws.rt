//! Laws of unfolding. Each is the contract of a function with an empty body.

ghost use Rattle.std.specs.Prelude.{◌≡◌, ◌⊎◌, ◌+◌, ◌<◌, ◌≤◌, ◌++◌, ◌∷◌, ℕ, List, [], Some, true, false, length, map};
ghost use Rattle.m11_unfold_rules.specs.Actuals.{actuals_from};
ghost use Rattle.m11_unfold_rules.specs.Conditions.{condition};
ghost use Rattle.m11_scan_expressions.specs.Expressions.{KnownSymbols};
ghost use Rattle.m11_unfold_rules.specs.Indefinite.{Repetition, irpc, irp};
ghost use Rattle.m11_unfold_rules.specs.Repeats as repeats;
ghost use Rattle.m11_unfold_rules.specs.declared.directives.Directive.TheVariants as directive;
ghost use Rattle.m11_base.specs.Devices.{Bytes};
ghost use Rattle.m11_unfold_bodies.specs.Bodies.{texts_of};
ghost use Rattle.m11_unfold_bodies.specs.Left.{RemainingItem, argument_count, depth, most_expansions};
ghost use Rattle.m11_unfold_bodies.specs.declared.mark.Mark.{Mark};
ghost use Rattle.m11_unfold_bodies.specs.declared.open_body.Nesting.TheVariants.{Closes};
ghost use Rattle.m11_scan.specs.Line.{SourceLine, line_of};
ghost use Rattle.m11_unfold_rules.specs.Acting.{act, flagged};
ghost use Rattle.m11_unfold_rules.specs.Constructs.{Block, HasConditionLeft, HasRoom, IsCall, IsPlainBody, after_block, after_call, before_block, before_call, condition_remarks, expanded_live_line, repeated_lines, times};
ghost use Rattle.m11_unfold_rules.specs.Histories.{GoesOn, IsKnownBy, with_more};
ghost use Rattle.m11_unfold_rules.specs.Laws.{AreForeign, IsDirective, IsLive, after_exit, after_lines, before_exit, before_lines, exit_live_line, foreign_live_line, own_live_line};
ghost use Rattle.m11_unfold_rules.specs.Limits.{most_lines};
ghost use Rattle.m11_unfold_rules.specs.Stages.{Stage};
ghost use Rattle.m11_unfold_rules.specs.Taking.{Live, NothingLeft, move, nesting};
ghost use Rattle.m11_unfold_rules.specs.Unfolding.{UnfoldedLine, Leads};

/// At a stage whose next line becomes live, lines become live unchanged, one after another, if none of their operators is a macro, a
/// directive for conditions, repeats or macros, or `.END`, and the limit on lines isn't exceeded.
pub fn other_lines_become_live()
    ensures { (known : KnownSymbols) (stage : Stage) (lines : List SourceLine) (left : List RemainingItem) → IsLive stage
        → AreForeign stage lines → stage.taken + length lines ≤ most_lines
        → Leads (before_lines stage lines left) (map (foreign_live_line known left) lines) (after_lines stage lines left) }
{}

/// A `.REPT` yields its own line, and after it the lines of its body once for each round. An `.IRP` or `.IRPC` with a formal and a list
/// yields its own line, and after it the lines of its body once for each text, with the text in place of the formal. This holds within the
/// limits, for a body without inner bodies, if the lines yielded from it contain no macro call, no directive for conditions, repeats or
/// macros, and no `.END`.
pub fn repeats_give_their_rounds()
    ensures counted { (known : KnownSymbols) (stage : Stage) (block : Block) (column : ℕ) → IsLive stage
        → IsDirective stage block.first directive.Rept column → IsPlainBody (texts_of block.lines) → nesting block.close.text ≡ Closes
        → AreForeign stage (times (repeats.rept_count known block.first.text column) (map line_of (texts_of block.lines)))
        → HasRoom stage block (texts_of block.lines)
        (times (repeats.rept_count known block.first.text column) (map line_of (texts_of block.lines)))
        → Leads (before_block stage block)
        (own_live_line known block.left block.first (repeats.remarks known block.first.text column)
        ∷ map (expanded_live_line known (argument_count block.left))
        (times (repeats.rept_count known block.first.text column) (map line_of (texts_of block.lines))))
        (after_block stage block
        (length (times (repeats.rept_count known block.first.text column) (map line_of (texts_of block.lines))))) }
    ensures listed { (known : KnownSymbols) (stage : Stage) (block : Block) (column : ℕ) (rounds : Repetition)
        → IsDirective stage block.first directive.Irp column
        → (irp known block.first.text column).rounds ≡ Some rounds → IsLive stage
        → IsPlainBody (texts_of block.lines) → nesting block.close.text ≡ Closes
        → AreForeign stage (repeated_lines rounds (texts_of block.lines))
        → HasRoom stage block (texts_of block.lines) (repeated_lines rounds (texts_of block.lines))
        → Leads (before_block stage block)
        (own_live_line known block.left block.first (irp known block.first.text column).remarks
        ∷ map (expanded_live_line known (argument_count block.left)) (repeated_lines rounds (texts_of block.lines)))
        (after_block stage block (length (repeated_lines rounds (texts_of block.lines)))) }
    ensures spelled { (known : KnownSymbols) (stage : Stage) (block : Block) (column : ℕ) (rounds : Repetition)
        → IsDirective stage block.first directive.Irpc column
        → (irpc block.first.text column).rounds ≡ Some rounds → IsLive stage
        → IsPlainBody (texts_of block.lines) → nesting block.close.text ≡ Closes
        → AreForeign stage (repeated_lines rounds (texts_of block.lines))
        → HasRoom stage block (texts_of block.lines) (repeated_lines rounds (texts_of block.lines))
        → Leads (before_block stage block)
        (own_live_line known block.left block.first (irpc block.first.text column).remarks
        ∷ map (expanded_live_line known (argument_count block.left)) (repeated_lines rounds (texts_of block.lines)))
        (after_block stage block (length (repeated_lines rounds (texts_of block.lines)))) }
{}

/// A call of a macro without formals yields its own line, and after it the lines of the macro's body. This holds within the limits, if
/// these lines contain no macro call, no directive for conditions, repeats or macros, and no `.END`.
pub fn calls_give_their_bodies()
    ensures { (known : KnownSymbols) (stage : Stage) (line : SourceLine) (body : List Bytes) (column : ℕ) (left : List RemainingItem)
        → IsLive stage → IsCall stage line body column → AreForeign stage (map line_of body) → depth left < most_expansions
        → stage.taken + 1 + length body ≤ most_lines
        → Leads (before_call stage line left)
        (own_live_line known left line (actuals_from known line.text 0 column).remarks
        ∷ map (expanded_live_line known (Some 0)) (map line_of body))
        (after_call stage body left) }
{}

/// If the condition of an `.IF` is true, the `.IF`, the lines inside and the `.ENDC` become live. Otherwise only the `.IF` and the
/// `.ENDC` do. This holds within the limits, if the lines inside contain no macro call, no directive for conditions, repeats or macros, and
/// no `.END`.
pub fn conditions_give_all_or_nothing()
    ensures holds { (known : KnownSymbols) (stage : Stage) (block : Block) (column end : ℕ) → IsLive stage
        → IsDirective stage block.first directive.If column → (condition known block.first.text column).holds ≡ true
        → HasConditionLeft stage block → AreForeign stage block.lines → IsDirective stage block.close directive.Endc end
        → stage.taken + (length block.lines + 2) ≤ most_lines
        → Leads (before_block stage block)
        (own_live_line known block.left block.first (condition_remarks known block.first.text column)
        ∷ map (foreign_live_line known block.left) block.lines
        ++ own_live_line known block.left block.close (flagged 0 block.close.text end) ∷ [])
        (after_block stage block 0) }
    ensures fails { (known : KnownSymbols) (stage : Stage) (block : Block) (column end : ℕ) → IsLive stage
        → IsDirective stage block.first directive.If column → (condition known block.first.text column).holds ≡ false
        → HasConditionLeft stage block → stage.conditions.nested ≡ 0 → AreForeign stage block.lines
        → IsDirective stage block.close directive.Endc end → stage.taken + (length block.lines + 2) ≤ most_lines
        → Leads (before_block stage block)
        (own_live_line known block.left block.first (condition_remarks known block.first.text column)
        ∷ own_live_line known block.left block.close (flagged 0 block.close.text end) ∷ [])
        (after_block stage block 0) }
{}

/// An unfolding and another that begins at its last stage are together one unfolding, with the lines of the first and then those of
/// the second.
pub fn unfoldings_follow_each_other()
    ensures { (before middle after : Stage) (done later : List UnfoldedLine) → Leads before done middle → Leads middle later after
        → Leads before (done ++ later) after }
{}

/// Of two unfoldings from the same stage, with names known by the same rule, one continues the other. If nothing is left to
/// unfold in either, they have the same lines and end at the same stage.
pub fn a_source_has_one_unfolding()
    ensures compared { (known_by : List UnfoldedLine → Live → KnownSymbols) (before first second : Stage) (done later : List UnfoldedLine)
        → IsKnownBy known_by done → IsKnownBy known_by later → Leads before done first → Leads before later second
        → GoesOn done first later second ⊎ GoesOn later second done first }
    ensures ended { (known_by : List UnfoldedLine → Live → KnownSymbols) (before first second : Stage) (done later : List UnfoldedLine)
        → IsKnownBy known_by done → IsKnownBy known_by later → Leads before done first → Leads before later second
        → move first ≡ NothingLeft → move second ≡ NothingLeft → (done ≡ later) × (first ≡ second) }
{}

/// Lines appended to a source change none of the lines that became live before them.
pub fn further_lines_change_nothing_before_them()
    ensures { (more : List SourceLine) (before after : Stage) (done : List UnfoldedLine) → Leads before done after
        → Leads (with_more more before) done (with_more more after) }
{}

/// After a live `.END` nothing more is read: no line becomes live, and the stage is unchanged.
pub fn end_is_the_last_line()
    ensures rests { (known : KnownSymbols) (stage : Stage) (line : SourceLine) (column : ℕ) → IsDirective stage line directive.End column
        → move (act known stage line.text).after ≡ NothingLeft }
    ensures stays { (known : KnownSymbols) (stage after : Stage) (line : SourceLine) (column : ℕ) (done : List UnfoldedLine)
        → IsDirective stage line directive.End column → Leads (act known stage line.text).after done after
        → (done ≡ []) × (after ≡ (act known stage line.text).after) }
{}

/// After a live `.MEXIT` in an expansion, the lines after the expansion are left, with the conditions that were open around it.
pub fn exits_leave_what_follows_the_call()
    ensures { (known : KnownSymbols) (stage : Stage) (line : SourceLine) (column : ℕ) (rest : List SourceLine) (mark : Mark)
        (left : List RemainingItem) → IsLive stage → IsDirective stage line directive.Mexit column → stage.taken + 1 ≤ most_lines
        → Leads (before_exit stage line rest mark left) (exit_live_line known mark left line (flagged 0 line.text column) ∷ [])
        (after_exit stage mark left) }
{}
