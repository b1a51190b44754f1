//! What assemblies of known texts write, and properties of the sources that live lines define for a link. Each law is the contract of a
//! function that does nothing but call the laws needed to prove it, if there are any.

ghost use Rattle.std.specs.Prelude.{◌≡◌, ◌∷◌, List, Result};
ghost use Rattle.std.specs.List.{AllByRecursion};
ghost use Rattle.m11_base_writes.specs.Passes.{AreKnown, pass_of};
ghost use Rattle.m11_asm.specs.Run.{AsmRuns};
ghost use Rattle.m11_asm.specs.declared.done.AsmDone.{AsmDone};
ghost use Rattle.m11_asm_faults.specs.declared.fault.AsmFault.{AsmFault};
ghost use Rattle.m11_base_writes.specs.Outputs.{Outputs};
ghost use Rattle.m11_base.specs.Devices.{Bytes};
ghost use Rattle.m11_base.specs.Names.{absolute_name};
ghost use Rattle.m11_cli_image.specs.Objects.{LiesAtWord};
ghost use Rattle.m11_cli_image.specs.Refusals.{IsConsistent};
ghost use Rattle.m11_asm_passes.specs.Lines.{NumberedLine};
ghost use Rattle.m11_asm_rules.specs.Sections.{of_absolute, section};
ghost use Rattle.m11_asm_rules.specs.declared.sections.Section.{Section};
ghost use Rattle.m11_cli_chain.specs.Assemblies.{AssemblyYields};
ghost use Rattle.m11_cli_chain.specs.Sources.{source_of};

use m11_asm_outcome_laws::{
    known_sources_write_their_live_lines, the_object_is_the_blocks_of_its_contents,
};
use m11_asm_rules::{a_line_fills_what_it_steps_by, placements_are_the_same_under_every_map};
use m11_base::Feed;

/// For any lines, `. ABS.` is the first section of the source that they define, and each piece of the source is at a location below 65,536.
pub fn live_lines_begin_with_the_absolute_section()
    ensures first { (lines : List NumberedLine) → (others : List Section)
        × ((source_of lines).facts.table.sections ≡ section absolute_name of_absolute ∷ others) }
    ensures locations { (lines : List NumberedLine) → AllByRecursion LiesAtWord (source_of lines).pieces }
{}

/// For any lines, each section of the source that they define has a name of its own. The source's pieces, their values and its `.END` refer
/// only to these sections. If no piece has a byte at the last location of a section, each piece is within the size of its section.
pub fn live_lines_give_consistent_sources()
    ensures { (lines : List NumberedLine) → IsConsistent (source_of lines) }
{
    placements_are_the_same_under_every_map();
    a_line_fills_what_it_steps_by();
}

/// If both passes read the same known texts, a successful assembly has appended to its object exactly the object of the source that the
/// live lines of the texts define. That source fits: each field of its records fits its width, and each record fits a block. Any other
/// assembly was stopped by a device or by lack of memory, or its fault is the first refusal of the texts.
pub fn known_sources_decide_the_assembly<F: Feed>()
    ensures { (first again second later : List F) (texts : List Bytes) (old new : Outputs) (returned : Result AsmDone AsmFault)
        → AreKnown F.text first texts → AreKnown F.text second texts
        → AsmRuns (pass_of F.text F.faults first again) (pass_of F.text F.faults second later) old new returned
        → AssemblyYields texts old new returned }
{
    known_sources_write_their_live_lines::<F>();
    the_object_is_the_blocks_of_its_contents();
}
