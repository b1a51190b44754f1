//! Laws of the order of names. Each is the contract of a function that does nothing.

ghost use Rattle.std.specs.Prelude.{◌≡◌, List};
ghost use Rattle.m11_base.specs.Rad50.{Name};
ghost use Rattle.m11_asm_directory.specs.Laws.{AreInOrder};
ghost use Rattle.m11_asm_directory.specs.Names.{ordered};

/// `ordered names` has the names of the list `names`, each once and in order.
pub fn ordered_names_are_in_order()
    ensures { (names : List Name) → AreInOrder (ordered names) names }
{}

/// `ordered names` is the only list with the names of the list `names`, each once and in order.
#[tactic(auto, using(crate::proofs::InOrder::ordered_alone))]
pub fn names_in_order_are_these_alone()
    ensures { (list names : List Name) → AreInOrder list names → list ≡ ordered names }
{}
