//! The locations of the lines of a source, what the lines define, the values of symbols in them, and what each instruction and directive
//! emits. The crate has the definitions of all this with their laws and types, and the table that lines fill. (MACRO-11 Language Reference
//! Manual, "Symbols and expressions", "Addressing modes", "Program section directives" and "General assembler directives".)
#![tactic(auto)]

// What is in force at a line: its section and the modes.
mod modes;
mod sections;

pub use modes::Modes;
pub use sections::Section;

// Definitions, and the values of symbols.
mod definitions;
mod meanings;

pub use definitions::{Definition, Key, Standing};
pub use meanings::Context;

// The operator of a line, and its operands.
mod fields;
mod operands;
mod operators;

pub use fields::{Field, FieldKind};
pub use operands::{Form, WrittenOperand};
pub use operators::{Directive, DirectiveRow, Operator};

// Laws of how lines are read and placed, and of the map of a source.
mod laws;

pub use laws::{
    a_line_fills_what_it_steps_by, a_line_sets_the_counter, a_line_steps_the_counter,
    an_operand_has_at_most_one_word, firm_assignments_are_those_of_every_map,
    firm_values_are_those_of_every_map, labels_keep_the_counter,
    no_source_reaches_the_greatest_count, other_sections_keep_their_counter,
    pieces_lie_alike_under_every_map, pieces_lie_in_the_order_of_lines,
    placements_are_the_same_under_every_map, solutions_are_alike,
    sources_have_the_same_lines_under_every_map, the_map_of_a_source_solves_it,
    the_parts_of_a_text_stand_one_after_the_other, the_table_says_what_the_lines_said,
};

// The table of names, local symbols and sections that lines fill.
mod table;

pub use table::Table;

// The final values of the names of a whole source.
mod map;

pub use map::Map;

// The values of symbols in a line, from the table and the map.
mod names;

pub use names::{FirmNames, NamesAt, register_flags};
