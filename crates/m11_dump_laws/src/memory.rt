//! What the source of a tape is worth.

ghost use Rattle.std.specs.Prelude.{◌≡◌, ℕ, ◌<◌, List, [], ◌∷◌, Ok};
ghost use Rattle.m11_base_disassembly.specs.declared.symbols.Symbol.{Symbol};
ghost use Rattle.m11_asm_passes.specs.Lines.{NumberedLine};
ghost use Rattle.m11_cli_chain.specs.Chain.{Chains};
ghost use Rattle.m11_cli_chain.specs.Sources.{AreLive};
ghost use Rattle.m11_cli_chain.specs.declared.chain.Chained.{Chained};
ghost use Rattle.m11_dump_source.specs.Memory.{Cells};
ghost use Rattle.m11_dump_source.specs.Texts.{source_text};
ghost use Rattle.m11_dump_laws.specs.Items.{AreCells, AreNames};
ghost use Rattle.m11_dump_laws.specs.Memory.{DefinesMemory, HoldsMemory, IsWithinLimits};

use crate::items::{the_items_are_well_formed, the_source_is_the_text_of_its_items};
use crate::pieces::the_pieces_are_the_bytes_of_memory;
use m11_asm_dump_laws::a_source_of_items_is_assembled_as_they_say;
use m11_asm_outcome_laws::{
    the_lines_of_a_pass_are_those_of_the_whole_source,
    the_same_text_has_no_moved_label_and_no_second_refusal,
};
use m11_cli_chain::live_lines_begin_with_the_absolute_section;
use m11_scan_line_laws::plain_lines_are_read_unchanged;

/// The source that is written of what memory holds defines it again: if its assembly isn't refused, the program of its object alone has at each
/// address just the byte of memory, and none where memory has none, wherever relocatable sections would begin. It starts where it did, unless
/// that is odd. No line of the source is flagged.
pub fn the_source_of_memory_defines_it()
    ensures { (bottom start : ℕ) (names : List Symbol) (cells : Cells) (lines : List NumberedLine) → AreNames names → AreCells cells
        → start < 65536 → IsWithinLimits names start cells → AreLive (source_text names start cells ∷ []) lines
        → DefinesMemory bottom cells start lines }
{
    plain_lines_are_read_unchanged();
    the_lines_of_a_pass_are_those_of_the_whole_source();
    the_same_text_has_no_moved_label_and_no_second_refusal();
    live_lines_begin_with_the_absolute_section();
    the_source_is_the_text_of_its_items();
    the_pieces_are_the_bytes_of_memory();
    the_items_are_well_formed();
    a_source_of_items_is_assembled_as_they_say();
}

/// If a chain assembles the source of what memory holds, links the object alone and loads the tape, the machine holds the same memory, and 0
/// where that has no byte. The program starts where it did, or at 1, where no program starts, if that is odd.
pub fn a_chain_of_the_source_of_memory_leaves_it()
    ensures { (bottom words start : ℕ) (names : List Symbol) (cells : Cells) (done : Chained) → AreNames names → AreCells cells
        → start < 65536 → IsWithinLimits names start cells → Chains ((source_text names start cells ∷ []) ∷ []) bottom words (Ok done)
        → HoldsMemory words cells start done.machine done.start }
{
    plain_lines_are_read_unchanged();
    the_lines_of_a_pass_are_those_of_the_whole_source();
    the_same_text_has_no_moved_label_and_no_second_refusal();
    live_lines_begin_with_the_absolute_section();
    the_source_is_the_text_of_its_items();
    the_pieces_are_the_bytes_of_memory();
    the_items_are_well_formed();
    a_source_of_items_is_assembled_as_they_say();
}
