//! What can go wrong in this crate.

ghost use Rattle.std.specs.Prelude.{◌≡◌};
ghost use Rattle.m11_base.specs.Octal.{fault_number, fault_name};

use thiserror::Error;

/// A call of a device failed. A read that fails returns no byte, and a write that fails accepts none; a flush that fails may have
/// written part of the held bytes.
#[derive(Clone, Copy, Debug, PartialEq, Eq, Error)]
#[error("the device failed")]
pub struct DeviceFault;

/// Why `put_all` didn't put all of its bytes.
#[derive(Clone, Copy, Debug, PartialEq, Eq, Error)]
pub enum PutFault {
    /// The sink failed, or accepted none of the bytes left.
    #[error("the device failed")]
    Device,
}

/// Why a text isn't the octal number of a word. The faults are looked for in this order.
#[derive(Clone, Copy, Debug, PartialEq, Eq, Error)]
pub enum OctalFault {
    /// 1: the text is empty.
    #[error("no digit")]
    Empty,
    /// 2: some character isn't an octal digit.
    #[error("not an octal digit")]
    BadDigit,
    /// 3: the number is over octal 177777.
    #[error("over 177777")]
    TooLarge,
}

impl OctalFault {
    /// The fault's number, from 1 to 3.
    pub fn number(self) -> u8
        ensures { result ≡ fault_number self }
    {
        match self {
            OctalFault::Empty => 1,
            OctalFault::BadDigit => 2,
            OctalFault::TooLarge => 3,
        }
    }

    /// The fault's name, as messages print it.
    pub fn name(self) -> &'static str
        ensures { result.now ≡ fault_name self }
    {
        match self {
            OctalFault::Empty => "Empty",
            OctalFault::BadDigit => "BadDigit",
            OctalFault::TooLarge => "TooLarge",
        }
    }
}
