//! The fields of instructions. (PDP-11/40 Processor Handbook, "Instruction set"; MACRO-11 Language Reference Manual, "Operand field".)

use crate::operands::Form;

/// The kind of a field.
#[derive(Clone, Copy)]
pub enum FieldKind {
    /// An operand of any form.
    Operand,
    /// A register.
    Register,
    /// The target of a branch or of SOB.
    Target,
    /// The number of EMT, TRAP or MARK.
    Number,
    /// The instruction has no such field.
    NoField,
}

/// A field of an instruction, with its expressions.
#[derive(Clone, Copy, Default)]
pub enum Field<E> {
    /// An operand, by its form.
    Operand(Form<E>),
    /// A register.
    Register(E),
    /// The target of a branch or of SOB.
    Target(E),
    /// The number of EMT, TRAP or MARK.
    Number(E),
    /// No field: the instruction has none here, or its line lacks it.
    #[default]
    Missing,
}
