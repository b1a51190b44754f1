//! Bad and missing arguments. (MACRO-11 Language Reference Manual, "Conditional assembly block directives" and "Repeat block
//! directive".)

ghost use Rattle.std.specs.Prelude.{◌≡◌, ℕ, false};
ghost use Rattle.m11_asm_line_laws.specs.Refusals.{HasFlag, IsRefused};
ghost use Rattle.m11_unfold_rules.specs.Conditions.{condition};
ghost use Rattle.m11_scan_expressions.specs.Expressions.{KnownSymbols, has_expression};
ghost use Rattle.m11_unfold_rules.specs.Repeats.{remarks, rept_count};
ghost use Rattle.m11_base.specs.Devices.{Bytes};
ghost use Rattle.m11_scan.specs.ErrorFlags.{flag_A};

/// If a condition is refused, because its own name is missing or unknown or because an argument is bad or missing, then it doesn't hold and
/// is flagged A, whatever the names in its arguments mean.
pub fn refused_conditions_do_not_hold()
    ensures off { (known : KnownSymbols) (line : Bytes) (column : ℕ) → IsRefused line column
        → (condition known line column).holds ≡ false }
    ensures flagged { (known : KnownSymbols) (line : Bytes) (column : ℕ) → IsRefused line column
        → HasFlag flag_A (condition known line column).flags }
{}

/// A repeat whose number is missing has no rounds, and is flagged A.
pub fn a_repeat_without_a_number_has_no_round()
    ensures none { (known : KnownSymbols) (line : Bytes) (column : ℕ) → has_expression line column ≡ false
        → rept_count known line column ≡ 0 }
    ensures flagged { (known : KnownSymbols) (line : Bytes) (column : ℕ) → has_expression line column ≡ false
        → HasFlag flag_A (remarks known line column).flags }
{}
