//! The faults of an unfolding, each with its number and name.

ghost use Rattle.std.specs.Prelude.{◌≡◌};
ghost use Rattle.m11_unfold_rules.specs.declared.fault.UnfoldFault.TheVariants.{NoMemory};

use std::alloc::{AllocError, AllocFailed};
use thiserror::Error;

/// Why an unfolding ended early.
#[derive(Clone, Copy, Debug, PartialEq, Eq, Error)]
pub enum UnfoldFault {
    /// 1: more than 16 expansions would be open.
    #[error("too deep")]
    TooDeep,
    /// 2: more than 200,000 lines would be read, live or not.
    #[error("too many lines")]
    TooManyLines,
    /// 3: all bodies together would have more than 65,536 bytes; the end of each line counts as one.
    #[error("too much text")]
    TooMuchText,
    /// 4: more than 256 macros would be defined.
    #[error("too many macros")]
    TooManyMacros,
    /// 90: memory was refused.
    #[error("no memory")]
    NoMemory,
}

impl UnfoldFault {
    ghost use Rattle.m11_unfold_rules.specs.Fault.{name_of, number_of};

    /// The fault's number, as messages print it.
    pub fn number(self) -> u8
        ensures { result ≡ number_of self }
    {
        match self {
            UnfoldFault::TooDeep => 1,
            UnfoldFault::TooManyLines => 2,
            UnfoldFault::TooMuchText => 3,
            UnfoldFault::TooManyMacros => 4,
            UnfoldFault::NoMemory => 90,
        }
    }

    /// The fault's name, as messages print it.
    pub fn name(self) -> &'static str
        ensures { result.now ≡ name_of self }
    {
        match self {
            UnfoldFault::TooDeep => "TooDeep",
            UnfoldFault::TooManyLines => "TooManyLines",
            UnfoldFault::TooMuchText => "TooMuchText",
            UnfoldFault::TooManyMacros => "TooManyMacros",
            UnfoldFault::NoMemory => "NoMemory",
        }
    }
}

impl From<AllocError> for UnfoldFault {
    ghost from_gives = { λ _ e. e ≡ NoMemory };

    fn from(_error: AllocError) -> UnfoldFault {
        UnfoldFault::NoMemory
    }
}

impl<T: Drop> From<AllocFailed<T>> for UnfoldFault {
    ghost from_gives = { λ _ e. e ≡ NoMemory };

    fn from(_error: AllocFailed<T>) -> UnfoldFault {
        UnfoldFault::NoMemory
    }
}
