//! What each line of a source does: what it emits, how its labels and its action change the table, and which names it uses; and the limits
//! on names, local symbols and sections. (MACRO-11 Language Reference Manual, "Source program format", "Operator field" and "Symbols and
//! expressions".)
#![tactic(auto)]

// What a directive or an instruction emits, and how far it moves the location counter.
mod effects;

// The state of a pass between lines: the table, and the names that lines use.
mod counting;
mod pass;
mod used_symbols;

pub use counting::Counting;
pub use pass::Pass;
pub use used_symbols::UsedSymbols;

// The labels of a line, and those that have moved between the passes.
mod labels;
mod moved;

pub use labels::LabelFlags;

// The text after the labels: what it is, what it changes, and which symbols it uses.
mod actions;
mod assigned;
mod changing;
mod symbol_uses;

pub use actions::{Action, Operation};

// The whole line: its flags, what it emits, and what a listing shows of it.
mod items;
mod lines;

pub use items::{add_content_items, is_shown};
pub use lines::{emit_action, line_flags};
