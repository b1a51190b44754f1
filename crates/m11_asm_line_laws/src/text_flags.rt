//! Flags that the text of an expression decides. (MACRO-11 Language Reference Manual, ".END directive".)

ghost use Rattle.std.specs.Prelude.{◌≡◌};
ghost use Rattle.m11_asm_rules.specs.Exports.{expression_flags, transfer};
ghost use Rattle.m11_asm_rules.specs.Meanings.{Map};
ghost use Rattle.m11_asm_rules.specs.Tables.{Table};
ghost use Rattle.m11_scan_expressions.specs.Tokens.{Expression};

/// Which of N, Q and T the expression after `.END` has depends on its text and the radix alone: they are the same whatever has been defined
/// before it and whatever is defined in the whole source, so both passes find the same ones.
pub fn texts_decide_n_q_and_t()
    ensures { (map other : Map) (table changed : Table) (tokens : Expression) → table.modes.radix ≡ changed.modes.radix
        → expression_flags (transfer map table tokens) ≡ expression_flags (transfer other changed tokens) }
{}
