//! The lines of sources, and the parts of one line. This crate reads lines from feeds. In a line it finds the tokens, numbers and
//! names, the ends of expressions, and other arguments; it also has the error flags of a line. Symbols have no values here, and
//! nothing is allocated. Columns are counted from 0. Any column may be passed: past the end of a line there are no characters and
//! no tokens. (MACRO-11 Language Reference Manual, "Source program format" and "Symbols and expressions".)
#![tactic(auto)]

// Classes of characters, a line, and a line whose end hasn't been read.
mod classes;
mod line;
mod open_line;

pub use classes::{Class, is_of, run_length};
pub use line::{LINE_LIMIT, Line};

// The reader of the lines of one source, and of several.
mod reader;
mod sources;

pub use reader::LineReader;

// The faults that end the reading of lines.
mod fault;

pub use fault::LineFault;

// Laws of the cutting of a source into lines.
mod line_laws;

pub use line_laws::{
    lines_of_parts_are_those_of_the_whole, lines_within_the_limit_are_stored_whole,
    plain_lines_are_cut_unchanged,
};

// RADIX-50 codes of characters, and the error flags of a line.
mod codes;
mod flags;

pub use flags::ErrorFlags;

// The pieces that a line is cut into, and the tokens among them.
mod cutting;
mod pieces;
mod skipped;
mod sort;

pub use cutting::{Token, next_token, text_between, text_from, token_at};
pub use pieces::Piece;
pub use skipped::skipped_between;
pub use sort::{Form, Sort};

// The meaning of a token: a number in its radix, or a name.
mod names;
mod numbers;
mod radix;

pub use names::{is_same_six, read_name, read_packed, six_characters};
pub use numbers::{Number, read_number};
pub use radix::Radix;

// The end of an expression, and its tokens.
mod ends;
mod expressions;

pub use ends::{Expression, expression_at, expression_end};
pub use expressions::{Role, Within, role_of};

// Other arguments of directives and calls: names of conditions, and texts.
mod conditions;
mod texts;

pub use conditions::{Condition, read_condition};
pub use texts::{Enclosed, bracketed, delimited, separator_length};

// Laws about the pieces of a line, about expressions and about brackets.
mod laws;

pub use laws::{
    nested_brackets_are_read_whole, there_is_one_cut, tokens_lie_in_order,
    written_expressions_are_read_whole,
};
