//! The table, read off the lines.

ghost use Rattle.std.specs.Prelude.{◌≡◌, List, reverse};
ghost use Rattle.m11_unfold_rules.specs.Unfolding.{UnfoldedLine};
ghost use Rattle.m11_asm_rules.specs.History.{definitions_of, moves_of};
ghost use Rattle.m11_asm_rules.specs.Meanings.{Map};
ghost use Rattle.m11_asm_rules.specs.Placements.{table_after};
ghost use Rattle.m11_asm_table_laws.specs.Lines.{said_by};
ghost use Rattle.m11_asm_table_laws.specs.Places.{place_after};
ghost use Rattle.m11_asm_table_laws.specs.Tables.{Records};

/// The table after some lines records what these lines say, read off the lines alone, and nothing else. A line stands in the section that the
/// last line before it selected, and its location is the one last set in that section plus the sizes of the section's lines since then. A
/// label defines its name or local symbol there, unless that has a definition already; an assignment defines its name, unless the name is a
/// label's; where they don't define, they make it doubly defined. The table has the last of these definitions of each name and local symbol,
/// the names that became global, the sections that were selected, the counter and the size of each, and the modes of the next line.
pub fn the_table_is_read_off_the_lines()
    ensures { (map : Map) (lines : List UnfoldedLine)
        → Records (place_after (reverse lines)) (said_by map (reverse lines)) (table_after map lines) }
{}

/// The definitions by the lines of a source, and their moves of the location counters, which other laws read off the table before each line,
/// are those that are read off the lines alone, in the same order.
pub fn definitions_and_moves_are_read_off_the_lines()
    ensures definitions { (map : Map) (lines : List UnfoldedLine)
        → definitions_of map lines ≡ (said_by map (reverse lines)).definitions }
    ensures moves { (map : Map) (lines : List UnfoldedLine)
        → moves_of map lines ≡ (said_by map (reverse lines)).moves }
{}
