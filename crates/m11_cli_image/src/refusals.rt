//! Why a link of the objects of sources may be refused.

ghost use Rattle.std.specs.Prelude.{◌≡◌, ℕ, false, List, map, Ok, Err};
ghost use Rattle.std.specs.List.{AllByRecursion, list_any};
ghost use Rattle.m11_link.specs.Objects.{AreItems, Item, outcome};
ghost use Rattle.m11_link_layout.specs.declared.fault.LinkFault.{LinkFault};
ghost use Rattle.m11_link_modules.specs.Parts.{Part};
ghost use Rattle.m11_cli_image.specs.Objects.{SourceFits, object_of};
ghost use Rattle.m11_cli_image.specs.Refusals.{IsConsistent, IsOfSizes, IsWithinSizes, fills_last};
ghost use Rattle.m11_cli_image.specs.Sources.{Source};

/// A link of the objects of sources that fit and are consistent is refused only for an exceeded limit or for a text outside its section.
/// The limits are on the numbers of sources, of names of sections and of names of globals, on the length of an object, and on the address
/// at which a relocatable section ends. If a text is outside its section, some source has a byte at the last location of a section. No
/// block, no record, no order of records and no relocation of such objects is refused.
pub fn links_are_refused_for_sizes_alone()
    ensures { (bottom : ℕ) (sources : List Source) (items : List Item) (stopped : LinkFault) → AllByRecursion SourceFits sources
        → AllByRecursion IsConsistent sources → AreItems (map object_of sources) items → outcome bottom items ≡ Err stopped
        → IsOfSizes bottom sources stopped }
{}

/// A link of the objects of sources refuses nothing if the sources fit, are consistent and exceed no limit, and none has a byte at the last
/// location of a section.
pub fn links_within_the_sizes_are_accepted()
    ensures { (bottom : ℕ) (sources : List Source) (items : List Item) → AllByRecursion SourceFits sources
        → AllByRecursion IsConsistent sources → IsWithinSizes bottom sources → AreItems (map object_of sources) items
        → (parts : List Part) × (outcome bottom items ≡ Ok parts) }
{}

/// If a link of the objects of sources that fit refuses nothing, no source has a byte at the last location of a section: since the location
/// counter continues at 0 after that location, no section is large enough for a text to end there.
pub fn links_put_nothing_at_the_last_location()
    ensures { (bottom : ℕ) (sources : List Source) (items : List Item) (parts : List Part) → AllByRecursion SourceFits sources
        → AreItems (map object_of sources) items → outcome bottom items ≡ Ok parts → list_any fills_last sources ≡ false }
{}

/// If a link of the objects of sources that fit refuses nothing, the sources exceed no limit, and none has a byte at the last location of a
/// section. So of sources that fit and are consistent, exactly those within the sizes are accepted.
pub fn accepted_links_are_within_the_sizes()
    ensures { (bottom : ℕ) (sources : List Source) (items : List Item) (parts : List Part) → AllByRecursion SourceFits sources
        → AreItems (map object_of sources) items → outcome bottom items ≡ Ok parts → IsWithinSizes bottom sources }
{}
