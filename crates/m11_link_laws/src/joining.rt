//! A link of several object files, and a link of one file with their joined bytes.

ghost use Rattle.std.specs.List.{AllByRecursion, concat};
ghost use Rattle.std.specs.Prelude.{◌∷◌, ◌≤◌, length, List, ℕ, []};
ghost use Rattle.m11_obj_blocks.specs.Limited.{most_bytes};
ghost use Rattle.m11_link.specs.Objects.{AreItems, Item, outcome};
ghost use Rattle.m11_link_laws.specs.Joining.{AreModules, LinkAlike};

/// If each file by itself consists of whole modules, and their joined bytes are no more than one file may have, a link of the files has the
/// same result as a link of the joined file: the same writes in the same order, or the same fault.
#[tactic(auto, using(crate::proofs::JoiningBytes::joined_alike))]
pub fn joined_objects_link_alike()
    ensures { (bottom : ℕ) (sources : List (List ℕ)) (items joined : List Item) → AllByRecursion AreModules sources
        → length (concat sources) ≤ most_bytes → AreItems sources items → AreItems (concat sources ∷ []) joined
        → LinkAlike bottom (outcome bottom items) (outcome bottom joined) }
{}
