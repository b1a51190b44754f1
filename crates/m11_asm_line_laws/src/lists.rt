//! Lists of formals, of actuals and of names. (MACRO-11 Language Reference Manual, "Arguments in macro definitions and macro
//! calls" and ".GLOBL directive".)

ghost use Rattle.std.specs.Prelude.{◌≡◌, ◌+◌, ◌≤◌, ℕ, Bool, None, drop, length, take};
ghost use Rattle.m11_asm_line_laws.specs.Lists.{AreActuals, AreFormals, AreNames, IsOver};
ghost use Rattle.m11_unfold_rules.specs.Actuals.{ActualTexts, actuals_from};
ghost use Rattle.m11_scan_expressions.specs.Expressions.{KnownSymbols};
ghost use Rattle.m11_unfold_rules.specs.Headers.{formals_after};
ghost use Rattle.m11_base.specs.Devices.{Bytes};
ghost use Rattle.m11_scan.specs.Line.{line_limit};
ghost use Rattle.m11_scan_statements.specs.Actuals.{next_actual};
ghost use Rattle.m11_asm_rules.specs.Elements.{names_at};

/// In a line of at most `line_limit` bytes, the formals of a macro are all those written one after another: no bound cuts the list short.
pub fn formals_stand_one_after_the_other()
    ensures { (line : Bytes) (column : ℕ) → length line ≤ line_limit
        → AreFormals line column (formals_after line column).list (formals_after line column).flags }
{}

/// If `wanted` is at least the number of columns left in the line, the actuals that are read from a call are all those written one after
/// another. Whatever `wanted` is, the texts read are those of the first `wanted` actuals written. The list of actuals ends nowhere but at
/// the end of the line or at its comment.
pub fn actuals_stand_one_after_the_other()
    ensures all { (known : KnownSymbols) (line : Bytes) (wanted column : ℕ) → length line ≤ column + wanted
        → AreActuals known line column (actuals_from known line wanted column) }
    ensures first { (known : KnownSymbols) (line : Bytes) (wanted column : ℕ) (all : ActualTexts) → AreActuals known line column all
        → (actuals_from known line wanted column).texts ≡ take wanted all.texts }
    ensures end { (line : Bytes) (column : ℕ) (allows_digits : Bool) → next_actual line column allows_digits ≡ None
        → IsOver (drop column line) }
{}

/// The elements of a list of names, for example that of `.GLOBL`, are all those written one after another with commas between them.
pub fn names_stand_one_after_the_other()
    ensures { (line : Bytes) (column : ℕ) → AreNames line column (names_at line column).list (names_at line column).end }
{}
