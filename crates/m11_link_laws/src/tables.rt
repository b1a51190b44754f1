//! The sizes of a link's tables.

ghost use Rattle.std.specs.Prelude.{◌≡◌, ℕ, ◌*◌, ◌≤◌, List, [], length, None};
ghost use Rattle.m11_link_modules.specs.Grammar.{Item, items_parts};
ghost use Rattle.m11_link_modules.specs.Parts.{Part};
ghost use Rattle.m11_link_modules.specs.Rules.{first_fault, most_modules, most_sections};
ghost use Rattle.m11_link_layout.specs.Plan.{IsPlanOf, PlanTables, TablesBounded, TablesGrow};
ghost use Rattle.m11_link_laws.specs.Tables.{ContributionsWithinLimits, GlobalsWithinLimits, ModulesWithinLimits, SectionsWithinLimits, collected_of};

/// The tables of a link of objects without a fault grow only with the names of modules, sections and globals, and each has a
/// largest possible size. The number of texts and relocations doesn't matter. In whole records and files, where no section is
/// entered between modules, the number of contributions is at most the allowed number of modules times the allowed number of
/// sections. The same holds of a plan: the tables in the result of `Layout::end` are bounded.
pub fn tables_grow_with_names_alone()
    ensures modules { (bottom : ℕ) (parts : List Part) → first_fault [] parts ≡ None → ModulesWithinLimits bottom parts }
    ensures sections { (bottom : ℕ) (parts : List Part) → first_fault [] parts ≡ None → SectionsWithinLimits bottom parts }
    ensures contributions { (bottom : ℕ) (parts : List Part)
        → first_fault [] parts ≡ None → ContributionsWithinLimits bottom parts }
    ensures globals { (bottom : ℕ) (parts : List Part) → first_fault [] parts ≡ None → GlobalsWithinLimits bottom parts }
    ensures records { (bottom : ℕ) (items : List Item) → first_fault [] (items_parts items) ≡ None
        → length (collected_of bottom (items_parts items)).contributions ≤ most_modules * most_sections }
    ensures plans { (bottom : ℕ) (parts : List Part) (plan : PlanTables)
        → IsPlanOf bottom parts plan → TablesGrow parts plan × TablesBounded plan }
    ensures whole_plans { (bottom : ℕ) (items : List Item) (plan : PlanTables) → first_fault [] (items_parts items) ≡ None
        → IsPlanOf bottom (items_parts items) plan
        → length plan.gathered.contributions ≤ most_modules * most_sections }
{}
