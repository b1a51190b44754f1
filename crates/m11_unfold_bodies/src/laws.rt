//! Laws of bodies and expansions. Each is the contract of a function with an empty body.

ghost use Rattle.std.specs.Prelude.{◌≡◌, ◌∷◌, ◌++◌, [], ℕ, Bool, List, Some, false, map, not};
ghost use Rattle.std.specs.List.{list_any};
ghost use Rattle.m11_base.specs.Devices.{Bytes};
ghost use Rattle.m11_base.specs.Rad50.{Name};
ghost use Rattle.m11_unfold_bodies.specs.Bodies.{PartialBody, IsPartialBody, before_left, body_of, cut_at, nothing_taken, partial_body_with, depth_after, texts_of, with_lines};
ghost use Rattle.m11_unfold_bodies.specs.Conditions.{OpenConditions, closed, entering, is_live_in, is_skipping};
ghost use Rattle.m11_unfold_bodies.specs.Conditions.{nested, past, switched, unnested};
ghost use Rattle.m11_unfold_bodies.specs.Laws.{Inside, IsReplacedBy, IsWord, SkippedInside, begins_in_word, ends_in_word};
ghost use Rattle.m11_unfold_bodies.specs.Laws.{without_first_quote, without_last_quote};
ghost use Rattle.m11_unfold_bodies.specs.Left.{End, RemainingItem, Line, expanded};
ghost use Rattle.m11_unfold_bodies.specs.Substitution.{Other, Run, actual_for, is_replaced, joined, line_with, pieces_of, substituted};
ghost use Rattle.m11_unfold_bodies.specs.declared.conditions.Part.{Part};
ghost use Rattle.m11_unfold_bodies.specs.declared.mark.Mark.{Mark};
ghost use Rattle.m11_unfold_bodies.specs.declared.open_body.Nesting.{Nesting};
ghost use Rattle.m11_scan.specs.Line.{SourceLine};

/// A text without formals is unchanged. A `'` between two formals joins their actuals.
pub fn formals_alone_are_replaced()
    ensures unchanged { (formals : List Name) (actuals : List Bytes) (text : Bytes)
        → list_any (is_replaced formals actuals) (pieces_of text) ≡ false → substituted formals actuals text ≡ text }
    ensures joins { (formals : List Name) (actuals : List Bytes) (first second one other : Bytes)
        → actual_for formals actuals (Run first) ≡ Some one → actual_for formals actuals (Run second) ≡ Some other
        → joined formals actuals false (Run first ∷ Other 0o47 ∷ Run second ∷ []) ≡ one ++ other }
{}

/// A formal that is a whole word of a text is replaced by its actual, together with one `'` directly before it and one directly
/// after it, if present. Formals in the text before it and in the text after it are replaced in the same way.
pub fn a_formal_gives_way_with_a_quote_on_each_side()
    ensures { (formals : List Name) (actuals : List Bytes) (before name after actual : Bytes) → IsWord name
        → ends_in_word before ≡ false → begins_in_word after ≡ false → actual_for formals actuals (Run name) ≡ Some actual
        → substituted formals actuals (before ++ (name ++ after))
        ≡ substituted formals actuals (without_last_quote before)
        ++ (actual ++ substituted formals actuals (without_first_quote after)) }
{}

/// The replacement of a word removes one `'` on each side of it, if present: of a word with no quote beside it, with one before it, with
/// one after it, or with one on each side, only the actual remains. One or two quotes between two such words join their actuals; of three
/// quotes, one remains.
pub fn quotes_beside_a_formal_vanish()
    ensures alone { (formals : List Name) (actuals : List Bytes) (word actual : Bytes) → IsReplacedBy formals actuals word actual
        → substituted formals actuals word ≡ actual }
    ensures after_quote { (formals : List Name) (actuals : List Bytes) (word actual : Bytes)
        → IsReplacedBy formals actuals word actual → substituted formals actuals (0o47 ∷ word) ≡ actual }
    ensures before_quote { (formals : List Name) (actuals : List Bytes) (word actual : Bytes)
        → IsReplacedBy formals actuals word actual → substituted formals actuals (word ++ 0o47 ∷ []) ≡ actual }
    ensures between_quotes { (formals : List Name) (actuals : List Bytes) (word actual : Bytes)
        → IsReplacedBy formals actuals word actual → substituted formals actuals (0o47 ∷ (word ++ 0o47 ∷ [])) ≡ actual }
    ensures one_quote { (formals : List Name) (actuals : List Bytes) (first second one other : Bytes)
        → IsReplacedBy formals actuals first one → IsReplacedBy formals actuals second other
        → substituted formals actuals (first ++ 0o47 ∷ second) ≡ one ++ other }
    ensures two_quotes { (formals : List Name) (actuals : List Bytes) (first second one other : Bytes)
        → IsReplacedBy formals actuals first one → IsReplacedBy formals actuals second other
        → substituted formals actuals (first ++ 0o47 ∷ 0o47 ∷ second) ≡ one ++ other }
    ensures three_quotes { (formals : List Name) (actuals : List Bytes) (first second one other : Bytes)
        → IsReplacedBy formals actuals first one → IsReplacedBy formals actuals second other
        → substituted formals actuals (first ++ 0o47 ∷ 0o47 ∷ 0o47 ∷ second) ≡ one ++ 0o47 ∷ other }
{}

/// The reading of a body can stop after any line and resume there: the rest is cut as if the lines already read still preceded
/// it.
pub fn half_read_bodies_go_on()
    ensures begins { (nesting : Bytes → Nesting) → IsPartialBody nesting nothing_taken }
    ensures grows { (nesting : Bytes → Nesting) (taken : PartialBody) (text : Bytes) (depth : ℕ) → IsPartialBody nesting taken
        → depth_after (nesting text) taken.depth ≡ Some depth → IsPartialBody nesting (partial_body_with taken text depth) }
    ensures cuts { (nesting : Bytes → Nesting) (taken : PartialBody) (lines : List SourceLine) (left : List RemainingItem)
        → texts_of lines ≡ taken.body → IsPartialBody nesting taken
        → body_of nesting (before_left lines left) ≡ with_lines taken.body (cut_at nesting taken.depth left) }
{}

/// An expansion consists of its rounds, one after another, and one end. With an empty body, or without rounds, it is the end alone.
pub fn expansions_are_rounds_and_an_end()
    ensures rounds { (formals : List Name) (actuals : List Bytes) (rounds : List (List Bytes)) (body : List Bytes)
        (mark : Mark) (left : List RemainingItem) → expanded formals (actuals ∷ rounds) body mark left
        ≡ map (λ text. Line (line_with formals actuals text)) body ++ expanded formals rounds body mark left }
    ensures none { (formals : List Name) (body : List Bytes) (mark : Mark) (left : List RemainingItem)
        → expanded formals [] body mark left ≡ End mark ∷ left }
    ensures empty { (formals : List Name) (rounds : List (List Bytes)) (mark : Mark) (left : List RemainingItem)
        → expanded formals rounds [] mark left ≡ End mark ∷ left }
{}

/// Inside a condition, whether the next lines are skipped depends only on the last `.IFF`, `.IFT` or `.IFTF` and on whether the
/// condition is true. Earlier switches and whole conditions make no difference. Before the first switch only the condition
/// decides.
pub fn the_last_switch_decides()
    ensures skips { (holds : Bool) (part : Part) (conditions inside : OpenConditions) → conditions.is_past ≡ false
        → Inside (entering holds conditions) inside → is_skipping (switched part inside) ≡ not (is_live_in part holds) }
    ensures begins { (holds : Bool) (conditions : OpenConditions) → conditions.is_past ≡ false
        → is_skipping (entering holds conditions) ≡ not holds }
    ensures forgets { (part other : Part) (conditions : OpenConditions)
        → switched part (switched other conditions) ≡ switched part conditions }
{}

/// An `.ENDC` undoes its `.IF`: the open conditions are those before the `.IF`, whatever switches and whole conditions came in
/// between. The same holds for an `.IF` among skipped lines and for a condition beyond the limit.
pub fn an_endc_undoes_its_if()
    ensures entered { (holds : Bool) (conditions inside : OpenConditions) → conditions.is_past ≡ false
        → Inside (entering holds conditions) inside → closed inside ≡ conditions }
    ensures skipped { (conditions inside : OpenConditions) → SkippedInside (nested conditions) inside
        → unnested inside ≡ conditions }
    ensures past { (conditions inside : OpenConditions) → conditions.is_past ≡ false → SkippedInside (past conditions) inside
        → closed inside ≡ conditions }
{}
