//! Conditions worked by hand. (MACRO-11 Language Reference Manual, "Conditional assembly block directives".)

ghost use Rattle.std.specs.Prelude.{◌≡◌, map};
ghost use Rattle.m11_asm_line_laws.specs.ConditionRows.{firm_rows, found_verdict, label_rows, local_rows, expected_verdict};

/// Conditions on labels, on local symbols, and on names that are firm or aren't have the results and flags worked by hand.
pub fn conditions_are_as_worked()
    ensures labels { map found_verdict label_rows ≡ map expected_verdict label_rows }
    ensures locals { map found_verdict local_rows ≡ map expected_verdict local_rows }
    ensures firm { map found_verdict firm_rows ≡ map expected_verdict firm_rows }
{}
