//! Operands as written, and their forms. (MACRO-11 Language Reference Manual, "Addressing modes"; PDP-11/40 Processor Handbook,
//! "Addressing modes".)

use m11_base::Mode;

/// An operand as written, with its expressions; the flag is true for `@`.
#[derive(Clone, Copy)]
pub enum WrittenOperand<E> {
    /// No operand.
    Absent,
    /// `R` or `A`; firm names decide whether the expression is a register.
    Plain(bool, E),
    /// `(R)`
    Pointed(bool, E),
    /// `(R)+`
    Stepped(bool, E),
    /// `-(R)`
    Before(bool, E),
    /// `X(R)`: the index, and the register.
    Indexed(bool, E, E),
    /// `#n`
    Immediate(bool, E),
}

/// The form of an operand, with its expressions.
#[derive(Clone, Copy)]
pub enum Form<E> {
    /// No operand, which counts as R0.
    Absent,
    /// A mode, and its register.
    InRegister(Mode, E),
    /// A mode, its register, and the index: the word added to the register.
    Indexed(Mode, E, E),
    /// `@(R)`: the register. The word added to it is 0.
    Unindexed(E),
    /// A mode of the program counter, and the expression for the word that the operand adds.
    AfterCounter(Mode, E),
}
