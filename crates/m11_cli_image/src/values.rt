//! The values in the bytes of a linked program. (MACRO-11 Language Reference Manual, "Relocation and linking".)

ghost use Rattle.std.specs.Prelude.{◌≡◌, ℕ, ◌+◌, ◌<◌, true, false, List};
ghost use Rattle.m11_cli_image.specs.Addresses.{Addresses};
ghost use Rattle.m11_cli_image.specs.Image.{addresses_of, image_of};
ghost use Rattle.m11_cli_image.specs.Sources.{Source};
ghost use Rattle.m11_link_text.specs.Relocation.{following, less, modulo};
ghost use Rattle.m11_asm_rules.specs.Branches.{branch_offset, branch_reaches, loop_offset, loop_reaches};
ghost use Rattle.m11_asm_rules.specs.Relocations.{is_moved};
ghost use Rattle.m11_asm_rules.specs.Tables.{Table, section_name};
ghost use Rattle.m11_cpu_laws.specs.Image.{byte_of};
ghost use Rattle.m11_unfold_rules.specs.Unfolding.{UnfoldedLine};
ghost use Rattle.m11_scan_expressions.specs.Quantities.{Quantity};
ghost use Rattle.m11_cli_image.specs.Agreement.{AbsolutesAgree, AreOf};
ghost use Rattle.m11_cli_image.specs.Branching.{branch_distance, loop_distance};
ghost use Rattle.m11_cli_image.specs.Lines.{address_in, all_lying};
ghost use Rattle.m11_cli_image.specs.Targets.{target};

/// If no section that one source calls ABS is REL in the program, the image of sources has at each address the byte that their lines state
/// there. An expression states its value in the program: a number, or a distance in bytes from the start of the source's contribution to a
/// section or from a global. A relative operand states the distance of its expression's value from the location after its word. If two
/// lines state a byte at one address, the image has that of the later line.
pub fn images_hold_what_their_lines_state()
    ensures { (bottom : ℕ) (all : List (List UnfoldedLine)) (sources : List Source) → AreOf all sources → AbsolutesAgree sources
        → (address : ℕ) → (image_of bottom sources).byte address ≡ byte_of (all_lying (addresses_of bottom sources) all) address }
{
    m11_asm_rules::placements_are_the_same_under_every_map();
}

/// A processor that adds the word of a relative operand to the address after that word gets, modulo 65,536, the value that the source
/// states.
pub fn relative_words_lead_to_their_targets()
    ensures { (address target : ℕ) → modulo (following address + less target (following address)) ≡ modulo target }
{}

/// A branch or SOB within reach of its target leads to that target: its offset states the distance in words from the location after the
/// instruction, forward or back for a branch, and back for SOB. The instruction is in the section of its target, or in an ABS section if
/// the target is absolute; an ABS section begins at 0.
pub fn branches_lead_to_their_targets()
    ensures branch { (program : Addresses) (source location : ℕ) (table : Table) (value : Quantity)
        → (is_moved table ≡ false → program.base source (section_name table) ≡ 0) → location < 65536
        → branch_reaches table location value ≡ true
        → modulo (following (address_in program source (section_name table) location) + branch_distance (branch_offset table location value))
        ≡ modulo (target program source value) }
    ensures sob { (program : Addresses) (source location : ℕ) (table : Table) (value : Quantity)
        → (is_moved table ≡ false → program.base source (section_name table) ≡ 0) → location < 65536
        → loop_reaches table location value ≡ true
        → modulo (following (address_in program source (section_name table) location) + loop_distance (loop_offset table location value))
        ≡ modulo (target program source value) }
{}
