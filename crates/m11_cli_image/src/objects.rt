//! What a linker reads from the objects of sources.

ghost use Rattle.std.specs.Prelude.{◌≡◌, List, [], map, Ok};
ghost use Rattle.std.specs.List.{AllByRecursion};
ghost use Rattle.m11_link.specs.Objects.{AreItems, Item, taken};
ghost use Rattle.m11_link_modules.specs.Parts.{Part};
ghost use Rattle.m11_cli_image.specs.Objects.{HasDirectory, HasTexts, IsReadBack, SourceFits, link_parts, object_of};
ghost use Rattle.m11_cli_image.specs.Sources.{Source};

/// If a source fits, each block of its object is read as the record for which it was written, and the records are one module.
pub fn objects_are_read_back()
    ensures { (source : Source) → SourceFits source → IsReadBack source }
{}

/// The module of a source has an entry for each section of the source, with its size and its attributes, in the order of their numbers.
/// It defines exactly the globals of the source, each at its location, and has one transfer address: the source's, or 1 in `. ABS.` if
/// the source has none.
pub fn directories_are_read_back()
    ensures { (source : Source) → HasDirectory source }
{}

/// The texts of a source's module are those made from the source's pieces, in order: each in its section, at its location, with its bytes
/// and the relocations that store a value. The pieces of these texts, one after another, are those of the source.
pub fn texts_are_read_back()
    ensures { (source : Source) → HasTexts source }
{}

/// If a link accepts the objects of sources that fit, it accepts exactly these parts, in order: for each source, the parts of its object,
/// and then the end of the object's file.
pub fn objects_yield_their_parts()
    ensures { (sources : List Source) (items : List Item) (parts : List Part) → AllByRecursion SourceFits sources
        → AreItems (map object_of sources) items → taken [] items ≡ Ok parts → parts ≡ link_parts sources }
{}
