//! The addresses of names in a linked program. (MACRO-11 Language Reference Manual, "Label field" and ".GLOBL directive".)

ghost use Rattle.std.specs.Prelude.{◌≡◌, ℕ, List, slice_get, Some};
ghost use Rattle.m11_base.specs.Rad50.{Name};
ghost use Rattle.m11_cli_image.specs.Image.{addresses_of};
ghost use Rattle.m11_cli_image.specs.Sources.{Source};
ghost use Rattle.m11_asm_rules.specs.Tables.{location, section_name};
ghost use Rattle.m11_asm_rules.specs.declared.meanings.Context.{Context};
ghost use Rattle.m11_unfold_rules.specs.Unfolding.{UnfoldedLine};
ghost use Rattle.m11_scan_expressions.specs.declared.kinds.Kind.{Kind};
ghost use Rattle.m11_cli_image.specs.Agreement.{AbsolutesAgree, AreOf};
ghost use Rattle.m11_cli_image.specs.Labels.{DefinesFirst, HasLabel, HasValue, LineOf, at_line, meaning_at};
ghost use Rattle.m11_cli_image.specs.Lines.{address_in};
ghost use Rattle.m11_cli_image.specs.Targets.{target, target_by};

/// If no section that one source calls ABS is REL in the program, a label means the same address in every line of its source, before or
/// after its own line: the address of the location of its own line. That is also the address of the first byte that its line emits, unless
/// the line skips a byte for alignment.
pub fn labels_lie_where_their_lines_do()
    ensures { (bottom : ℕ) (all : List (List UnfoldedLine)) (sources : List Source) (index : ℕ) (lines : List UnfoldedLine) (line other : LineOf lines)
        (name : Name) (context : Context) (here : ℕ) → AreOf all sources → AbsolutesAgree sources → slice_get all index ≡ Some lines
        → HasLabel lines line name
        → target (addresses_of bottom sources) index (meaning_at lines other context here name)
        ≡ address_in (addresses_of bottom sources) index (section_name (at_line lines line)) (location (at_line lines line)) }
{
    m11_asm_rules::placements_are_the_same_under_every_map();
}

/// If a source is the first to define a name for the others, the name's value in the program is the one that it has in that source: a
/// number, or the address at a distance in bytes from the start of the source's contribution to a section.
pub fn globals_lie_where_they_are_defined()
    ensures { (bottom : ℕ) (sources : List Source) (index : ℕ) (source : Source) (name : Name) (number : ℕ) (kind : Kind)
        → DefinesFirst sources index source name → HasValue source name number kind
        → (addresses_of bottom sources).global name ≡ target_by (addresses_of bottom sources) index number kind }
{}

/// Suppose that no section that one source calls ABS is REL in the program. If a source is the first to define a name for the others, and
/// the name is a label in that source, then the value of the name in the program is the address of the location of the line with the label.
pub fn globals_of_labels_lie_where_their_lines_do()
    ensures { (bottom : ℕ) (all : List (List UnfoldedLine)) (sources : List Source) (index : ℕ) (lines : List UnfoldedLine) (source : Source)
        (line : LineOf lines) (name : Name) → AreOf all sources → AbsolutesAgree sources → slice_get all index ≡ Some lines
        → HasLabel lines line name → DefinesFirst sources index source name
        → (addresses_of bottom sources).global name
        ≡ address_in (addresses_of bottom sources) index (section_name (at_line lines line)) (location (at_line lines line)) }
{
    m11_asm_rules::placements_are_the_same_under_every_map();
}
