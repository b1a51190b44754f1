//! Laws of how lines are read and placed, and of the map of a source. Each is the contract of a function whose body is empty or only calls
//! a law needed to prove it.

ghost use Rattle.std.specs.Prelude.{◌≡◌, ◌≢◌, ◌+◌, ◌≤◌, ◌%◌, ℕ, true, false, length, List, [], ◌∷◌, ◌++◌, map};
ghost use Rattle.std.specs.List.{AllByRecursion};
ghost use Rattle.m11_scan_expressions.specs.Expressions.{symbols, value};
ghost use Rattle.m11_base.specs.Devices.{Bytes};
ghost use Rattle.m11_scan.specs.Line.{SourceLine};
ghost use Rattle.m11_asm_rules.specs.Assignments.{assigned};
ghost use Rattle.m11_asm_rules.specs.Definitions.{firm_part};
ghost use Rattle.m11_asm_rules.specs.Equation.{AreAlike, Solves};
ghost use Rattle.m11_asm_rules.specs.Filling.{Fills, gap_before};
ghost use Rattle.m11_asm_rules.specs.Bounds.{AreBelowGreatest, IsInWidth};
ghost use Rattle.m11_asm_rules.specs.History.{SaysWhatTheySaid, definitions_of, moves_of};
ghost use Rattle.m11_asm_rules.specs.Labels.{after_labels_in};
ghost use Rattle.m11_asm_rules.specs.Lines.{line_change, line_emission};
ghost use Rattle.m11_asm_rules.specs.Operations.{action};
ghost use Rattle.m11_asm_rules.specs.Meanings.{AreFirm, Context, Map, firm_known, known_at};
ghost use Rattle.m11_asm_rules.specs.Operands.{words_of};
ghost use Rattle.m11_scan_expressions.specs.Tokens.{Expression};
ghost use Rattle.m11_asm_rules.specs.declared.operands.Form.{Form};
ghost use Rattle.m11_asm_rules.specs.Order.{LieFrom, pieces_in};
ghost use Rattle.m11_asm_rules.specs.Placements.{placement, program_map, table_after};
ghost use Rattle.m11_asm_rules.specs.Locations.{Goes, Move, SectionMove, Steps, has_set, in_section, location_in, moves_in, sizes_since};
ghost use Rattle.m11_asm_rules.specs.Shapes.{shapes_in};
ghost use Rattle.m11_asm_rules.specs.Strings.{parts_at};
ghost use Rattle.m11_asm_rules.specs.Tables.{Table, firm_table, first_table, location};
ghost use Rattle.m11_asm_rules.specs.Unfolded.{AreLines};
ghost use Rattle.m11_scan_statements.specs.Parts.{AreParts};
ghost use Rattle.m11_unfold_rules.specs.Limits.{most_lines};
ghost use Rattle.m11_unfold_rules.specs.Stages.{Stage};
ghost use Rattle.m11_unfold_rules.specs.Unfolding.{UnfoldedLine};

use m11_scan_statements::labels_and_body_are_in_order;

/// If a line moves the counter of its section on, the counter grows by the line's size in bytes, modulo 65536.
#[tactic(auto, using(crate::proofs::Counters::steps_on))]
pub fn a_line_steps_the_counter()
    ensures { (section size : ℕ) (moves : List SectionMove) → location_in section (moves ++ in_section section (Steps size) ∷ [])
        ≡ (location_in section moves + size) % 65536 }
{}

/// After a line that sets the counter of its section to a location, the counter is that location, modulo 65536, whatever it was before.
#[tactic(auto, using(crate::proofs::Counters::goes_there))]
pub fn a_line_sets_the_counter()
    ensures { (section location : ℕ) (moves : List SectionMove) → location_in section (moves ++ in_section section (Goes location) ∷ [])
        ≡ location % 65536 }
{}

/// A line that moves the counter of one section leaves the counters of all other sections as they are.
#[tactic(auto, using(crate::proofs::Counters::stays_there))]
pub fn other_sections_keep_their_counter()
    ensures { (section other : ℕ) (move : Move) (moves : List SectionMove) → other ≢ section
        → location_in section (moves ++ in_section other move ∷ []) ≡ location_in section moves }
{}

/// A table records what the lines say. It has the last definition of each name and each local symbol. The counter of each section is the
/// location last set there, or 0 if none was set, plus the sizes of the lines since then, modulo 65536. The size of each section is the
/// greatest location that its counter had after a line. The lines are arbitrary, so this holds after each line of a source.
pub fn the_table_says_what_the_lines_said()
    ensures { (map : Map) (lines : List UnfoldedLine)
        → SaysWhatTheySaid (definitions_of map lines) (moves_of map lines) (table_after map lines) }
{}

/// If a source keeps the limits on the number and the length of its lines, its counts of blocks and of listing levels stay below the number
/// at which counting would stop.
pub fn no_source_reaches_the_greatest_count()
    ensures { (map : Map) (lines : List UnfoldedLine) → AllByRecursion IsInWidth lines → length lines ≤ most_lines
        → AreBelowGreatest (table_after map lines).modes }
{
    labels_and_body_are_in_order();
}

/// An expression of firm symbols alone has the same value under every map: the value used for sizes and locations. So neither a map nor
/// any later line of the source changes it.
pub fn firm_values_are_those_of_every_map()
    ensures { (map : Map) (context : Context) (table : Table) (here : ℕ) (tokens : Expression)
        → AreFirm table (symbols tokens)
        → value (known_at map context table here) tokens ≡ value (firm_known table here) tokens }
{}

/// All labels of a line have the same location: labels don't change the counter.
pub fn labels_keep_the_counter()
    ensures { (table : Table) (line : Bytes) → location (after_labels_in table line) ≡ location table }
{}

/// An operand adds at most one word after the code word.
pub fn an_operand_has_at_most_one_word()
    ensures { (form : Form Expression) → words_of form ≤ 1 }
{}

/// If two tables have the same firm part, then an assignment of an expression gives definitions with the same firm part after either table,
/// under any two maps.
pub fn firm_assignments_are_those_of_every_map()
    ensures { (one other : Map) (first second : Table) (tokens : Expression)
        → firm_table first ≡ firm_table second
        → firm_part (assigned one first tokens) ≡ firm_part (assigned other second tokens) }
{}

/// Live lines are placed in the same way under any two maps: the tables after them have the same firm part, and so the same sections,
/// location counters, sizes, labels and firm values. The lines are arbitrary, so this holds after each line of a source.
pub fn placements_are_the_same_under_every_map()
    ensures { (one other : Map) (lines : List UnfoldedLine)
        → firm_table (table_after one lines) ≡ firm_table (table_after other lines) }
{}

/// Either a line emits nothing, for instance because it reserves room; or it emits as many bytes as it moves its counter by, apart from a
/// byte skipped first to reach an even location.
pub fn a_line_fills_what_it_steps_by()
    ensures { (map : Map) (table : Table) (given : UnfoldedLine)
        → Fills (gap_before table (action given.is_own given.arguments given.live.line.text)) (line_emission map table given).contents
        (line_change (firm_table table) given) }
{}

/// The map of a source solves the source's equation: the placement under that map has the same labels, with their locations, and the same
/// firm values as the map. The equation doesn't concern other names.
pub fn the_map_of_a_source_solves_it()
    ensures { (lines : List UnfoldedLine) → Solves (program_map lines) lines }
{}

/// Every map that solves the equation of a source has the same labels, at the same locations, and the same firm values as the source's own
/// map. It may differ from that map in anything else.
pub fn solutions_are_alike()
    ensures { (map : Map) (lines : List UnfoldedLine) → Solves map lines → AreAlike map (program_map lines) }
{}

/// A source has the same live lines under every map: no condition, repeat or macro depends on later lines of the source.
pub fn sources_have_the_same_lines_under_every_map()
    ensures { (one other : Map) (source : List SourceLine) (lines : List UnfoldedLine) (stage : Stage)
        → AreLines one source lines stage → AreLines other source lines stage }
{}

/// In a section where no location is set, and whose counter moves on by at most 65535 bytes in all, the pieces lie in the order of the
/// lines, and none begins before the end of the one before it.
pub fn pieces_lie_in_the_order_of_lines()
    ensures { (map : Map) (lines : List UnfoldedLine) (section : ℕ)
        → has_set (moves_in section (moves_of map lines)) ≡ false
        → sizes_since (moves_in section (moves_of map lines)) ≤ 65535
        → LieFrom 0 (pieces_in section map first_table lines) }
{}

/// The pieces of each line lie in the same sections, at the same locations and with the same sizes under every map; only their contents
/// depend on the map.
pub fn pieces_lie_alike_under_every_map()
    ensures { (one other : Map) (lines : List UnfoldedLine) → map shapes_in (placement one lines) ≡ map shapes_in (placement other lines) }
{}

/// The parts of a text are all those written one after another, up to and including the first that isn't closed; no bound cuts the list
/// short.
#[tactic(auto, using(crate::proofs::TextParts::text_parts))]
pub fn the_parts_of_a_text_stand_one_after_the_other()
    ensures { (line : Bytes) (start : ℕ) → AreParts line true start (parts_at line start).list (parts_at line start).end }
{}
