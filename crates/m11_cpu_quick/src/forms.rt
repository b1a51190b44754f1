//! The addressing forms that quick steps distinguish. (PDP-11/40 Processor Handbook, "Addressing modes".)

ghost use Rattle.std.specs.Prelude.{◌≡◌};
ghost use Rattle.m11_cpu_quick.specs.Forms.{IsForm, bytes_of};

use m11_base::{Mode, Operand, Size};
use m11_cpu_machine::step_of;

/// The addressing form of an operand. The first eight use a register other than the program counter. In the forms whose names end in
/// `Pointer`, the operand gives the address of a word, and this word is the effective address.
#[derive(Clone, Copy)]
pub(crate) enum Form {
    /// `R`.
    Register,
    /// `(R)`.
    Deferred,
    /// `(R)+`, which increments the register by the size of the operand.
    Increment,
    /// `@(R)+`.
    IncrementPointer,
    /// `-(R)`, which decrements the register by the size of the operand.
    Decrement,
    /// `@-(R)`.
    DecrementPointer,
    /// `X(R)`.
    Index,
    /// `@X(R)`.
    IndexPointer,
    /// `@#a`.
    Absolute,
    /// `a`, whose address is relative to the program counter.
    Relative,
    /// `@a`, a pointer whose address is relative to the program counter.
    RelativePointer,
    /// `#n`.
    Immediate,
    /// Any other form, such as `(PC)`, or `(SP)+` for a byte. It is left to the general step.
    Other,
}

impl Form {
    /// The addressing form of an operand of this size.
    #[inline(always)]
    pub(crate) fn of(size: Size, operand: Operand) -> Form
        ensures { IsForm result size operand }
    {
        if operand.register.number() == 7 {
            return match operand.mode {
                Mode::Autoincrement => Form::Immediate,
                Mode::AutoincrementDeferred => Form::Absolute,
                Mode::Index => Form::Relative,
                Mode::IndexDeferred => Form::RelativePointer,
                _ => Form::Other,
            };
        }
        let steps = step_of(size, operand.register) == bytes_of(size);
        match operand.mode {
            Mode::Register => Form::Register,
            Mode::RegisterDeferred => Form::Deferred,
            Mode::Autoincrement => if steps { Form::Increment } else { Form::Other },
            Mode::AutoincrementDeferred => Form::IncrementPointer,
            Mode::Autodecrement => if steps { Form::Decrement } else { Form::Other },
            Mode::AutodecrementDeferred => Form::DecrementPointer,
            Mode::Index => Form::Index,
            Mode::IndexDeferred => Form::IndexPointer,
        }
    }
}

/// The number of bytes of an operand of this size.
#[inline(always)]
pub(crate) fn bytes_of(size: Size) -> u16
    ensures { result ≡ bytes_of size }
{
    match size {
        Size::Word => 2,
        Size::Byte => 1,
    }
}
