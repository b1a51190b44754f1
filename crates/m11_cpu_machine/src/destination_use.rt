//! What operations do with their destination: read it, write it, or both.

ghost use Rattle.std.specs.Prelude.{◌≡◌};
ghost use Rattle.m11_cpu_machine.specs.DestinationUse.{use_by_double, use_by_single};

use m11_base::{DoubleOp, SingleOp};

/// What an operation does with its destination.
#[derive(Clone, Copy)]
pub enum DestinationUse {
    /// It writes the destination without reading it.
    Writes,
    /// It reads the destination and stores nothing.
    Reads,
    /// It reads the destination and stores a result there.
    Changes,
}

/// What a double operand operation does with its destination.
#[inline(always)]
pub fn use_by_double(operation: DoubleOp) -> DestinationUse
    ensures { result ≡ use_by_double operation }
{
    match operation {
        DoubleOp::Mov => DestinationUse::Writes,
        DoubleOp::Cmp | DoubleOp::Bit => DestinationUse::Reads,
        DoubleOp::Bic | DoubleOp::Bis | DoubleOp::Add | DoubleOp::Sub => DestinationUse::Changes,
    }
}

/// What a single operand operation does with its operand. None for JMP, which only jumps there.
#[inline(always)]
pub fn use_by_single(operation: SingleOp) -> Option<DestinationUse>
    ensures { result ≡ use_by_single operation }
{
    match operation {
        SingleOp::Jmp => None,
        SingleOp::Clr | SingleOp::Sxt => Some(DestinationUse::Writes),
        SingleOp::Tst => Some(DestinationUse::Reads),
        SingleOp::Swab
        | SingleOp::Com
        | SingleOp::Inc
        | SingleOp::Dec
        | SingleOp::Neg
        | SingleOp::Adc
        | SingleOp::Sbc
        | SingleOp::Ror
        | SingleOp::Rol
        | SingleOp::Asr
        | SingleOp::Asl => Some(DestinationUse::Changes),
    }
}
