//! The operator of a line, its arguments, and the words of an instruction: fields, lists of expressions and names, values of expressions
//! and their relocation, and the code word with the words after it, each with its flags. (MACRO-11 Language Reference Manual,
//! "Operator field", "Operand field", "Symbols and expressions" and "Relocation and linking"; PDP-11/40 Processor Handbook,
//! "Instruction set" and "Addressing modes".)
#![tactic(auto)]

// The operator of a line, by its name: an instruction or a directive.
mod operations;
mod operators;

pub use operators::operator_named;

// The fields of an instruction, and the forms of its operands.
mod fields;
mod forms;
mod operands;

pub use fields::{Fields, instruction_size};

// The lists of expressions and of names in the arguments of directives.
mod elements;

pub use elements::{Elements, ListedNames, argument_flags};

// The context of a line: its location, made even where necessary, and the names known there.
mod alignment;
mod line_context;

pub use alignment::{gap, gap_flags, location_for, to_next};
pub use line_context::LineContext;

// The relocation of a value.
mod relocations;

// What is emitted: values as words and as bytes.
mod emission;
mod values;

pub use emission::Emission;
pub use values::{emit_byte, emit_word, further};

// Reading the fields of an instruction, once for all uses.
mod reading;

pub use reading::read_fields;

// The parts of the code word: values of fields, operands and offsets of branches; and the words of operands.
mod branches;
mod code_values;
mod codes;
mod operand_fields;

// The code word, and the words after it.
mod instructions;

pub use instructions::emit_instruction;
