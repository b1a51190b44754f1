//! The addresses of sections, and of the contributions of modules to them.

ghost use Rattle.std.specs.Prelude.{◌≡◌, ℕ, ◌+◌, ◌<◌, ◌≤◌, true, false, List, ◌∷◌, ◌++◌, map, Some};
ghost use Rattle.m11_link_modules.specs.Parts.{Part};
ghost use Rattle.m11_link_layout.specs.Sections.{first_attributes, is_overlaid, is_relocatable, is_too_large};
ghost use Rattle.m11_link_layout.specs.Sections.{module_base, section_base, section_size, top};
ghost use Rattle.m11_link_laws.specs.Spans.{LieInOrder, relocatable_names, size_entered, span_of};

/// Relocatable sections begin at the bottom, in the order of their first entries: each begins where the one before it ends, and the last
/// one ends at the top. So each ends at or before the beginning of any later one: no two overlap.
#[tactic(auto, using(crate::proofs::LyingInOrder::sections_lie, crate::proofs::LyingInOrder::sections_lie_apart))]
pub fn relocatable_sections_lie_in_order()
    ensures lie { (bottom : ℕ) (parts : List Part)
        → LieInOrder bottom (map (span_of bottom parts) (relocatable_names parts)) (top bottom parts) }
    ensures apart { (bottom : ℕ) (parts : List Part) (before between after : List (ℕ × ℕ)) (name other : ℕ × ℕ)
        → relocatable_names parts ≡ before ++ (name ∷ (between ++ (other ∷ after)))
        → section_base bottom parts name + section_size parts name ≤ section_base bottom parts other }
{}

/// If no relocatable section ends past octal 160000, the contributions to a relocatable section that isn't overlaid are in the order of
/// their modules: each ends at or before the beginning of a later module's contribution, and each is within the section.
#[tactic(auto, using(crate::proofs::Contributions::they_follow, crate::proofs::Contributions::they_lie_within))]
pub fn contributions_lie_in_order()
    ensures follow { (bottom : ℕ) (parts : List Part) (name : ℕ × ℕ) (earlier later size other : ℕ)
        → is_too_large bottom parts ≡ false
        → is_relocatable (first_attributes parts name) ≡ true → is_overlaid (first_attributes parts name) ≡ false
        → earlier < later
        → size_entered parts earlier name ≡ Some size
        → size_entered parts later name ≡ Some other
        → module_base bottom parts earlier name + size ≤ module_base bottom parts later name }
    ensures within { (bottom : ℕ) (parts : List Part) (name : ℕ × ℕ) (index size : ℕ)
        → is_too_large bottom parts ≡ false
        → is_relocatable (first_attributes parts name) ≡ true → is_overlaid (first_attributes parts name) ≡ false
        → size_entered parts index name ≡ Some size
        → (section_base bottom parts name ≤ module_base bottom parts index name)
        × (module_base bottom parts index name + size ≤ section_base bottom parts name + section_size parts name) }
{}

/// If no relocatable section ends past octal 160000, all contributions to an overlaid relocatable section begin where the section
/// begins, and each fits into it.
#[tactic(auto, using(crate::proofs::Contributions::overlaid_together, crate::proofs::Contributions::overlaid_fits))]
pub fn overlaid_contributions_begin_together()
    ensures together { (bottom : ℕ) (parts : List Part) (name : ℕ × ℕ) (index size : ℕ)
        → is_too_large bottom parts ≡ false
        → is_relocatable (first_attributes parts name) ≡ true → is_overlaid (first_attributes parts name) ≡ true
        → size_entered parts index name ≡ Some size
        → module_base bottom parts index name ≡ section_base bottom parts name }
    ensures fits { (parts : List Part) (name : ℕ × ℕ) (index size : ℕ)
        → is_relocatable (first_attributes parts name) ≡ true → is_overlaid (first_attributes parts name) ≡ true
        → size_entered parts index name ≡ Some size → size ≤ section_size parts name }
{}
