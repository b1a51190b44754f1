//! The printed output of an assembly: the lines of its listing, its symbol table and its messages. Nothing is read, written or
//! allocated here: a call takes flags, numbers, items, texts or an entry of the symbol table, and returns one line, or the location
//! after items. (This project's own.)
#![tactic(auto)]

// Texts aligned in columns.
mod columns;

// The lines of a listing, and the bytes and words that they show.
mod items;
mod listing;

pub use items::{Item, Mark, location_after};
pub use listing::{further_line, listed_line};

// The lines of messages, and those of the symbol table.
mod messages;
mod symbol_table;

pub use m11_obj_print::Line;
pub use messages::{count_line, message_line};
pub use symbol_table::{
    SectionEntry, SymbolEntry, SymbolValue, empty_line, section_line, symbol_line, title_line,
};

// Laws of the widths and contents of these lines.
mod laws;

pub use laws::{
    a_further_line_has_at_most_41_characters, a_listed_line_has_at_most_42_characters_and_its_text,
    a_message_shows_its_text, further_lines_go_by_threes, no_line_ends_with_a_blank,
    the_text_of_a_listed_line_begins_in_column_43,
};
