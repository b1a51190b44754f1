//! Laws about load maps.

ghost use Rattle.std.specs.Prelude.{◌≡◌, ℕ, List};
ghost use Rattle.std.specs.List.{filter_map};
ghost use Rattle.m11_link_layout.specs.Modules.{module_at};
ghost use Rattle.m11_link_load_map.specs.LoadMap.{IsLoadMap, contribution_in, contributions_of};
ghost use Rattle.m11_link_modules.specs.Parts.{Part};
ghost use Rattle.m11_link_modules.specs.Positions.{sections_in};

/// The map shows each section entry of a module exactly once, in the order of the entries: the section, and its size in that module.
#[tactic(auto, using(crate::proofs::Shown::each_shown))]
pub fn each_section_entry_is_shown_once()
    ensures { (parts : List Part) (index : ℕ)
        → filter_map (contribution_in index) (contributions_of parts) ≡ sections_in (module_at parts index) }
{}

/// Objects have at most one load map: the order of its globals is determined.
pub fn objects_have_one_map()
    ensures { (bottom : ℕ) (parts : List Part) (text other : List ℕ)
        → IsLoadMap bottom parts text → IsLoadMap bottom parts other → text ≡ other }
{}
