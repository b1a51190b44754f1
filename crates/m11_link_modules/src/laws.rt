//! Laws about the order of records.

ghost use Rattle.std.specs.Prelude.{◌≡◌, List, [], ◌∷◌, ◌++◌};
ghost use Rattle.m11_link_modules.specs.Grammar.{FileEnds, Item, Module, files_parts, items_parts};
ghost use Rattle.m11_link_modules.specs.Laws.{AreFiles, AreInOrder};
ghost use Rattle.m11_link_modules.specs.Positions.{stage_after};
ghost use Rattle.m11_link_modules.specs.declared.stage.Stage.TheVariants.{Between};

/// In files of whole modules each part comes where it may, and no module is open after the last file.
#[tactic(auto, using(crate::proofs::GrammarOrder::files_in_order, crate::proofs::GrammarOrder::files_closed))]
pub fn files_are_in_order()
    ensures order { (files : List (List Module)) → AreInOrder (files_parts files) }
    ensures following { (files : List (List Module)) → stage_after (files_parts files) ≡ Between }
{}

/// If a list of records and ends of files ends with the end of a file, and each of its parts comes where it may, its parts are
/// those of files of whole modules.
#[tactic(auto, using(crate::proofs::GrammarOrder::ordered_files))]
pub fn ordered_records_are_files()
    ensures { (items : List Item) → AreInOrder (items_parts (items ++ FileEnds ∷ []))
        → AreFiles (items_parts (items ++ FileEnds ∷ [])) }
{}
