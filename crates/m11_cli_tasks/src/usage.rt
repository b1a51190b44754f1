//! The faults of a command line.

ghost use Rattle.std.specs.Prelude.{◌≡◌};
ghost use Rattle.m11_cli_tasks.specs.Usage.{UsageFaultOf, usage_name, usage_number};
ghost use Rattle.m11_cli_tasks.specs.declared.usage.UsageFault.TheVariants.{BadOctal, NoMemory};

use clap::error::ErrorKind;
use m11_base::OctalFault;
use std::alloc::{AllocError, AllocFailed};
use thiserror::Error;

/// Why a command line yields no task.
#[derive(Debug, Drop, Error)]
pub enum UsageFault {
    /// 1: help was asked for. The error's text is the help.
    #[error("help was asked for")]
    Help(clap::Error),
    /// 2: the command line is refused. The error's text says why.
    #[error("the words are refused")]
    Words(clap::Error),
    /// 3: an address that isn't an octal word.
    #[error("an address is no octal word")]
    BadOctal,
    /// 4: an odd address.
    #[error("an address is odd")]
    OddAddress,
    /// 5: an address above octal 157776, and so outside even the largest memory.
    #[error("an address is over 157776")]
    BadAddress,
    /// 6: a count that isn't a number from 1 to 1,000,000,000.
    #[error("a count is no number from 1 to 1000000000")]
    BadCount,
    /// 90: memory was refused.
    #[error("no memory")]
    NoMemory,
}

impl UsageFault {
    /// The fault's number, as shown in its line. For `Help` and `Words` the parser's text is printed in place of a line.
    pub fn number(&self) -> u8
        ensures { result ≡ usage_number self.now }
    {
        match self {
            UsageFault::Help(_) => 1,
            UsageFault::Words(_) => 2,
            UsageFault::BadOctal => 3,
            UsageFault::OddAddress => 4,
            UsageFault::BadAddress => 5,
            UsageFault::BadCount => 6,
            UsageFault::NoMemory => 90,
        }
    }

    /// The fault's name, as shown in its line. For `Help` and `Words` the parser's text is printed in place of a line.
    pub fn name(&self) -> &'static str
        ensures { result.now ≡ usage_name self.now }
    {
        match self {
            UsageFault::Help(_) => "Help",
            UsageFault::Words(_) => "Words",
            UsageFault::BadOctal => "BadOctal",
            UsageFault::OddAddress => "OddAddress",
            UsageFault::BadAddress => "BadAddress",
            UsageFault::BadCount => "BadCount",
            UsageFault::NoMemory => "NoMemory",
        }
    }
}

impl From<clap::Error> for UsageFault {
    ghost from_gives = { UsageFaultOf };

    fn from(error: clap::Error) -> UsageFault {
        match error.kind() {
            ErrorKind::DisplayHelp => UsageFault::Help(error),
            ErrorKind::OutOfMemory => UsageFault::NoMemory,
            _ => UsageFault::Words(error),
        }
    }
}

impl From<OctalFault> for UsageFault {
    ghost from_gives = { λ _ e. e ≡ BadOctal };

    fn from(_fault: OctalFault) -> UsageFault {
        UsageFault::BadOctal
    }
}

impl From<AllocError> for UsageFault {
    ghost from_gives = { λ _ e. e ≡ NoMemory };

    fn from(_error: AllocError) -> UsageFault {
        UsageFault::NoMemory
    }
}

impl<T: Drop> From<AllocFailed<T>> for UsageFault {
    ghost from_gives = { λ _ e. e ≡ NoMemory };

    fn from(_error: AllocFailed<T>) -> UsageFault {
        UsageFault::NoMemory
    }
}
