//! Laws about the bytes that lines state, which are in memory after a chain. (MACRO-11 Language Reference Manual, "Relocation and
//! linking".)

ghost use Rattle.std.specs.Prelude.{ℕ, List, map, Ok};
ghost use Rattle.m11_base.specs.Devices.{Bytes};
ghost use Rattle.m11_cli_chain.specs.Chain.{Chains};
ghost use Rattle.m11_cli_chain.specs.Sources.{sources_of};
ghost use Rattle.m11_cli_chain.specs.declared.chain.Chained.{Chained};
ghost use Rattle.m11_cli_image.specs.Agreement.{AreOf};
ghost use Rattle.m11_asm_passes.specs.Lines.{NumberedLine, givens};
ghost use Rattle.m11_cli_chain.specs.Stating.{HoldsStated};

/// Each source of a chain consists of its live lines: its table is that of the first pass over the lines, and its pieces are placed under
/// the map that the lines define.
pub fn live_lines_give_their_sources()
    ensures { (all : List (List NumberedLine)) → AreOf (map givens all) (sources_of all) }
{}

/// After a chain that succeeds, the machine holds at each address the byte that the live lines of the chain's texts state there, and 0
/// where they state none, provided that no section that one source calls ABS is REL in the program.
pub fn chains_hold_what_their_lines_state()
    ensures { (texts : List (List Bytes)) (bottom words : ℕ) (done : Chained) → Chains texts bottom words (Ok done)
        → HoldsStated texts bottom words done.machine }
{
    m11_cli_image::images_hold_what_their_lines_state();
}
