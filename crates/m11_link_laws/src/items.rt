//! The items that the bytes of objects yield.

ghost use Rattle.std.specs.Prelude.{◌≡◌, List, ℕ};
ghost use Rattle.std.specs.List.{flat_map};
ghost use Rattle.m11_obj_blocks.specs.Limited.{most_bytes};
ghost use Rattle.m11_link.specs.Objects.{AreItems, Item, ObjectItems};
ghost use Rattle.m11_link_laws.specs.ItemsOf.{items_of};

/// The bytes of an object yield the items that `items_of` computes, and no others; and objects yield those of each, one after another.
pub fn objects_yield_their_items()
    ensures yields { (bytes : List ℕ) → ObjectItems most_bytes bytes (items_of bytes) }
    ensures alone { (bytes : List ℕ) (items : List Item) → ObjectItems most_bytes bytes items → items ≡ items_of bytes }
    ensures all_yield { (sources : List (List ℕ)) → AreItems sources (flat_map items_of sources) }
    ensures all_alone { (sources : List (List ℕ)) (items : List Item) → AreItems sources items
        → items ≡ flat_map items_of sources }
{}
