//! What a linker reads from the objects of several sources, where it places their contributions, and the tape that it writes.

ghost use Rattle.std.specs.Prelude.{◌≡◌, ℕ, false, List, [], map, None, Ok};
ghost use Rattle.std.specs.List.{AllByRecursion};
ghost use Rattle.m11_base.specs.Names.{absolute_name};
ghost use Rattle.m11_base.specs.Rad50.{Name};
ghost use Rattle.m11_link_layout.specs.Sections.{is_too_large};
ghost use Rattle.m11_link.specs.Objects.{AreItems, Item, outcome};
ghost use Rattle.m11_link_laws.specs.LinkedTexts.{linked_text, linked_texts};
ghost use Rattle.m11_link_text.specs.Findings.{Findings};
ghost use Rattle.m11_link_modules.specs.Parts.{Part};
ghost use Rattle.m11_link_modules.specs.Rules.{first_fault};
ghost use Rattle.m11_cli_image.specs.Contributions.{HasContributions};
ghost use Rattle.m11_cli_image.specs.Links.{AreLinked, EndsInside, HasSources, LiesBySources, all_texts};
ghost use Rattle.m11_cli_image.specs.Objects.{SourceFits, link_parts, object_of};
ghost use Rattle.m11_cli_image.specs.Sections.{contribution};
ghost use Rattle.m11_cli_image.specs.Sources.{Source};

/// The objects of sources, one after another, have entries for the sections of the first source with their sizes and attributes, then for
/// those of the next one, and so on. They define the globals of the sources, and state a transfer address for each source: the source's, or
/// 1 in `. ABS.` if it has none. Their texts are those of the sources, apart from relocation commands that store nothing. Each global,
/// transfer address and text has the index of its source.
pub fn links_read_their_sources()
    ensures { (sources : List Source) → HasSources sources }
{}

/// A link of the objects of sources has the contributions of each source, the globals, and the end of the relocatable sections at the
/// addresses that `contribution`, `global` and `top_of` define by the sources alone.
pub fn links_lie_by_their_sources()
    ensures { (bottom : ℕ) (sources : List Source) → LiesBySources bottom sources }
{}

/// The texts that a link relocates are those of the sources, in order, each at its address and with the values that its relocations store.
pub fn links_have_the_texts_of_their_sources()
    ensures { (found : Findings) (sources : List Source)
        → linked_texts found (link_parts sources) ≡ map (linked_text found) (all_texts sources) }
{}

/// If all sources fit, a link of their objects refuses no part, and no relocatable section ends above octal 160000, then each text ends at
/// or before octal 177777: none wraps around to 0.
pub fn linked_texts_end_by_the_last_address()
    ensures { (bottom : ℕ) (sources : List Source) → AllByRecursion SourceFits sources
        → first_fault [] (link_parts sources) ≡ None → is_too_large bottom (link_parts sources) ≡ false
        → AllByRecursion (EndsInside bottom sources) (all_texts sources) }
{}

/// If a link accepts the objects of sources that fit, it accepts exactly the parts of the objects. The link's tape has a block
/// for each text of the sources that has data, and the start of the tape is the first even transfer address of a source, or 1 if there is
/// none.
pub fn links_write_the_texts_of_their_sources()
    ensures { (bottom : ℕ) (sources : List Source) (items : List Item) (parts : List Part) → AllByRecursion SourceFits sources
        → AreItems (map object_of sources) items → outcome bottom items ≡ Ok parts → AreLinked bottom sources parts }
{}

/// If all sources fit, the contribution of each to `. ABS.` begins at 0. So a value that refers to no section counts from the beginning of
/// that contribution.
pub fn the_absolute_section_lies_at_0()
    ensures { (bottom : ℕ) (sources : List Source) (index : ℕ) → AllByRecursion SourceFits sources
        → contribution bottom sources index absolute_name ≡ 0 }
{}

/// A concatenated section is as large as the contributions of all sources together, each in whole words. An overlaid section is as large as
/// the greatest contribution, in whole words, and an absolute one as large as the greatest contribution. A link of the sources' objects gives
/// the section this size.
pub fn sections_have_the_sizes_of_their_contributions()
    ensures { (sources : List Source) (name : Name) → HasContributions sources name }
{}
