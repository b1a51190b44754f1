//! The faults of an assembly, each with its number and name.

ghost use Rattle.std.specs.Prelude.{◌≡◌};
ghost use Rattle.m11_asm_faults.specs.Faults.{of_lines, of_unfolding, stop_of};
ghost use Rattle.m11_asm_faults.specs.declared.fault.AsmFault.TheVariants.{NoMemory};

use m11_base_writes::{Output, OutputFault};
use m11_scan::LineFault;
use m11_unfold_rules::UnfoldFault;
use std::alloc::{AllocError, AllocFailed};
use thiserror::Error;

/// Why an assembly ended early.
#[derive(Clone, Copy, Debug, PartialEq, Eq, Error)]
pub enum AsmFault {
    /// 1: a source could not be read.
    #[error("a source could not be read")]
    Read,
    /// 2: an output could not be written. `Output::Product` is the object, and `Output::Report` is the listing.
    #[error("an output could not be written")]
    Write(Output),
    /// 3: more than 4,096 names besides those of the registers, or more than 16,384 local symbols.
    #[error("too many symbols")]
    TooManySymbols,
    /// 4: more than 64 sections, including the two that each assembly has.
    #[error("too many sections")]
    TooManySections,
    /// 5: a limit on macros, repeats and conditions was exceeded. A lack of memory for them is `NoMemory` instead.
    #[error("the source can't be unfolded")]
    Unfold(UnfoldFault),
    /// 6: more than 4,194,304 bytes, or more than 65,535 lines, in all sources together.
    #[error("too much source")]
    TooMuchSource,
    /// 90: memory was refused.
    #[error("no memory")]
    NoMemory,
}

impl AsmFault {
    ghost use Rattle.m11_asm_faults.specs.Faults.{name_of, number_of};

    /// The fault's number, as the printed line of the fault shows it.
    pub fn number(self) -> u8
        ensures { result ≡ number_of self }
    {
        match self {
            AsmFault::Read => 1,
            AsmFault::Write(_) => 2,
            AsmFault::TooManySymbols => 3,
            AsmFault::TooManySections => 4,
            AsmFault::Unfold(_) => 5,
            AsmFault::TooMuchSource => 6,
            AsmFault::NoMemory => 90,
        }
    }

    /// The fault's name, as the printed line of the fault shows it; neither the output of `Write` nor the inner fault of `Unfold` is part
    /// of it.
    pub fn name(self) -> &'static str
        ensures { result.now ≡ name_of self }
    {
        match self {
            AsmFault::Read => "Read",
            AsmFault::Write(_) => "Write",
            AsmFault::TooManySymbols => "TooManySymbols",
            AsmFault::TooManySections => "TooManySections",
            AsmFault::Unfold(_) => "Unfold",
            AsmFault::TooMuchSource => "TooMuchSource",
            AsmFault::NoMemory => "NoMemory",
        }
    }
}

impl OutputFault for AsmFault {
    ghost stop = { stop_of };

    fn of_output(output: Output) -> AsmFault {
        AsmFault::Write(output)
    }
}

impl From<LineFault> for AsmFault {
    ghost from_gives = { λ fault e. e ≡ of_lines fault };

    fn from(fault: LineFault) -> AsmFault {
        match fault {
            LineFault::Read => AsmFault::Read,
            LineFault::TooMuchSource => AsmFault::TooMuchSource,
            LineFault::TooManyLines => AsmFault::TooMuchSource,
        }
    }
}

impl From<UnfoldFault> for AsmFault {
    ghost from_gives = { λ fault e. e ≡ of_unfolding fault };

    fn from(fault: UnfoldFault) -> AsmFault {
        match fault {
            UnfoldFault::NoMemory => AsmFault::NoMemory,
            _ => AsmFault::Unfold(fault),
        }
    }
}

impl From<AllocError> for AsmFault {
    ghost from_gives = { λ _ e. e ≡ NoMemory };

    fn from(_error: AllocError) -> AsmFault {
        AsmFault::NoMemory
    }
}

impl<T: Drop> From<AllocFailed<T>> for AsmFault {
    ghost from_gives = { λ _ e. e ≡ NoMemory };

    fn from(_error: AllocFailed<T>) -> AsmFault {
        AsmFault::NoMemory
    }
}
