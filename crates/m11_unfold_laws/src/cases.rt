//! Instances of shapes: blocks without other blocks inside, and a source worked out by hand. Each law is the contract of a function with an
//! empty body.

ghost use Rattle.std.specs.Prelude.{◌≡◌, ◌+◌, ◌++◌, ◌∷◌, ℕ, List, [], true, false, None, Some, length, map};
ghost use Rattle.m11_unfold_rules.specs.Actuals.{actuals_from};
ghost use Rattle.m11_unfold_rules.specs.Conditions.{condition};
ghost use Rattle.m11_scan_expressions.specs.Expressions.{KnownSymbols};
ghost use Rattle.m11_scan_expressions.specs.Remarks.{Remarks};
ghost use Rattle.m11_unfold_rules.specs.declared.directives.Directive.TheVariants as directive;
ghost use Rattle.m11_base.specs.Devices.{Bytes};
ghost use Rattle.m11_base.specs.Rad50.{Name};
ghost use Rattle.m11_unfold_bodies.specs.Bodies.{size_of, texts_of};
ghost use Rattle.m11_unfold_bodies.specs.declared.open_body.Nesting.TheVariants.{Closes};
ghost use Rattle.m11_scan.specs.Line.{SourceLine, line_of};
ghost use Rattle.m11_unfold_rules.specs.Acting.{Calls, OwnDirective, flagged};
ghost use Rattle.m11_unfold_rules.specs.Constructs.{IsPlainBody, condition_remarks, lines_of_rounds};
ghost use Rattle.m11_unfold_rules.specs.Laws.{AreForeign};
ghost use Rattle.m11_unfold_rules.specs.Stages.{Repeats};
ghost use Rattle.m11_unfold_rules.specs.Taking.{nesting};
ghost use Rattle.m11_scan_expressions.specs.Quantities.{Quantity};
ghost use Rattle.m11_scan_expressions.specs.declared.names.Symbol.{Symbol};
ghost use Rattle.m11_unfold_laws.specs.Laws.{HasLiveLines};
ghost use Rattle.m11_unfold_laws.specs.Levels.{Level, Situation, beginning, counting, has_condition_left, operation_at, other_line, own_line, source_level, stage_of, within_condition, within_expansion};
ghost use Rattle.m11_unfold_laws.specs.Putting.{Opens};
ghost use Rattle.m11_unfold_laws.specs.Shapes.{GoesOn, Shape};
ghost use Rattle.m11_unfold_laws.specs.Worked.{worked_end, worked_lines, worked_source};

/// Lines whose operators are neither macro calls, nor directives for conditions, repeats or macros, nor `.END`, have a shape: they become
/// live unchanged.
pub fn other_lines_have_a_shape()
    ensures { (known : KnownSymbols) (level : Level) (lines : List SourceLine) (before : Situation)
        → AreForeign (stage_of level before []) lines
        → Shape level before lines (map (other_line level known) lines) (counting (length lines) before) GoesOn }
{}

/// The block of a `.REPT`, `.IRP` or `.IRPC` has a shape if its body has no other body inside, and no line of its rounds has a macro call,
/// a directive for conditions, repeats or macros, or `.END` as its operator. The line of the directive becomes live, and then the lines of
/// the rounds.
pub fn repeats_have_a_shape()
    ensures { (known : KnownSymbols) (level : Level) (before : Situation) (first close : SourceLine) (lines : List SourceLine)
        (remarks : Remarks)
        (formals : List Name) (rounds : List (List Bytes))
        → Opens known first.text (operation_at level before first) remarks (Repeats formals rounds)
        → IsPlainBody (texts_of lines) → nesting close.text ≡ Closes
        → AreForeign (stage_of (within_expansion None (size_of (texts_of lines)) level) before [])
        (lines_of_rounds formals rounds (texts_of lines))
        → Shape level before (first ∷ lines ++ close ∷ [])
        (own_line level known first remarks
        ∷ map (other_line (within_expansion None (size_of (texts_of lines)) level) known)
        (lines_of_rounds formals rounds (texts_of lines)))
        (counting (length lines + 2 + length (lines_of_rounds formals rounds (texts_of lines))) before) GoesOn }
{}

/// A call of a macro without formals has a shape if no line of the body has a macro call, a directive for conditions, repeats or macros, or
/// `.END` as its operator. The line of the call becomes live, and then the lines of the body.
pub fn calls_have_a_shape()
    ensures { (known : KnownSymbols) (level : Level) (before : Situation) (line : SourceLine) (body : List Bytes) (at : ℕ)
        → operation_at level before line ≡ Calls (record { formals = []; body = body }) at
        → AreForeign (stage_of (within_expansion (Some 0) 0 level) before []) (map line_of body)
        → Shape level before (line ∷ []) (own_line level known line (actuals_from known line.text 0 at).remarks
        ∷ map (other_line (within_expansion (Some (length (actuals_from known line.text 0 at).texts)) 0 level) known)
        (map line_of body))
        (counting (length body + 1) before) GoesOn }
{}

/// A condition that is at most the 32nd open one has a shape if no line inside has a macro call, a directive for conditions, repeats or
/// macros, or `.END` as its operator. If the condition is true, the `.IF`, the lines inside and the `.ENDC` become live, otherwise only the
/// `.IF` and the `.ENDC`.
pub fn conditions_have_a_shape()
    ensures holds { (known : KnownSymbols) (level : Level) (before : Situation) (first close : SourceLine) (lines : List SourceLine)
        (at end : ℕ)
        → operation_at level before first ≡ OwnDirective directive.If at → has_condition_left level ≡ true
        → (condition known first.text at).holds ≡ true → AreForeign (stage_of (within_condition true true level) before []) lines
        → operation_at (within_condition true true level) before close ≡ OwnDirective directive.Endc end
        → Shape level before (first ∷ lines ++ close ∷ [])
        (own_line level known first (condition_remarks known first.text at) ∷ map (other_line level known) lines
        ++ own_line level known close (flagged 0 close.text end) ∷ [])
        (counting (length lines + 2) before) GoesOn }
    ensures fails { (known : KnownSymbols) (level : Level) (before : Situation) (first close : SourceLine) (lines : List SourceLine)
        (at end : ℕ)
        → operation_at level before first ≡ OwnDirective directive.If at → has_condition_left level ≡ true
        → (condition known first.text at).holds ≡ false → AreForeign (stage_of level before []) lines
        → operation_at (within_condition false false level) before close ≡ OwnDirective directive.Endc end
        → Shape level before (first ∷ lines ++ close ∷ [])
        (own_line level known first (condition_remarks known first.text at)
        ∷ own_line level known close (flagged 0 close.text end) ∷ [])
        (counting (length lines + 2) before) GoesOn }
{}

/// The source worked out by hand has the shape and the live lines stated for it. It calls a macro twice; the macro has a repeat,
/// and a label that differs in each call.
pub fn two_calls_with_a_repeat_are_as_worked()
    ensures shape { (value_of_symbol : Symbol → Quantity)
        → Shape source_level beginning worked_source (worked_lines value_of_symbol) worked_end GoesOn }
    ensures lines { (value_of_symbol : Symbol → Quantity) → HasLiveLines worked_source (worked_lines value_of_symbol) }
{}
