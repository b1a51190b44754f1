//! The faults of a run, each with its number and name.

ghost use Rattle.std.specs.Prelude.{◌≡◌};
ghost use Rattle.m11_cpu.specs.declared.fault.LoadFault.TheVariants.{Tape};
ghost use Rattle.m11_cpu.specs.declared.fault.SimFault.TheVariants.{Load, NoMemory};

use m11_obj_blocks::TapeFault;
use std::alloc::{AllocError, AllocFailed};
use thiserror::Error;

/// Why a tape could not be loaded.
#[derive(Clone, Copy, Debug, PartialEq, Eq, Error)]
pub enum LoadFault {
    /// 1 to 9: a fault of the tape, with its own number.
    #[error("a fault of the tape")]
    Tape(TapeFault),
    /// 10: a byte whose address is outside memory.
    #[error("a byte outside the memory")]
    OutsideMemory,
}

/// Why a whole run failed: nothing was run, or its stop could not be reported in full.
#[derive(Clone, Copy, Debug, PartialEq, Eq, Error)]
pub enum SimFault {
    /// 1 to 10: the tape could not be loaded.
    #[error("the tape was not loaded")]
    Load(LoadFault),
    /// 11: the messages could not be written completely.
    #[error("the messages could not be written")]
    Write,
    /// 90: memory was refused.
    #[error("no memory")]
    NoMemory,
}

impl LoadFault {
    ghost use Rattle.m11_cpu.specs.Fault.{load_fault_name, load_fault_number};

    /// The fault's number, 1 to 10, as the line that reports the fault shows it.
    pub fn number(self) -> u8
        ensures { result ≡ load_fault_number self }
    {
        match self {
            LoadFault::Tape(fault) => fault.number(),
            LoadFault::OutsideMemory => 10,
        }
    }

    /// The fault's name, as the line that reports the fault shows it.
    pub fn name(self) -> &'static str
        ensures { result.now ≡ load_fault_name self }
    {
        match self {
            LoadFault::Tape(fault) => fault.name(),
            LoadFault::OutsideMemory => "OutsideMemory",
        }
    }
}

impl SimFault {
    ghost use Rattle.m11_cpu.specs.Fault.{sim_fault_name, sim_fault_number};

    /// The fault's number, 1 to 11 or 90, as the line that reports the fault shows it.
    pub fn number(self) -> u8
        ensures { result ≡ sim_fault_number self }
    {
        match self {
            SimFault::Load(fault) => fault.number(),
            SimFault::Write => 11,
            SimFault::NoMemory => 90,
        }
    }

    /// The fault's name, as the line that reports the fault shows it. The name of `Write` doesn't say which output failed; the line does.
    pub fn name(self) -> &'static str
        ensures { result.now ≡ sim_fault_name self }
    {
        match self {
            SimFault::Load(fault) => fault.name(),
            SimFault::Write => "Write",
            SimFault::NoMemory => "NoMemory",
        }
    }
}

impl From<TapeFault> for LoadFault {
    ghost from_gives = { λ fault e. e ≡ Tape fault };

    fn from(fault: TapeFault) -> LoadFault {
        LoadFault::Tape(fault)
    }
}

impl From<LoadFault> for SimFault {
    ghost from_gives = { λ fault e. e ≡ Load fault };

    fn from(fault: LoadFault) -> SimFault {
        SimFault::Load(fault)
    }
}

impl From<AllocError> for SimFault {
    ghost from_gives = { λ _ e. e ≡ NoMemory };

    fn from(_error: AllocError) -> SimFault {
        SimFault::NoMemory
    }
}

impl<T: Drop> From<AllocFailed<T>> for SimFault {
    ghost from_gives = { λ _ e. e ≡ NoMemory };

    fn from(_error: AllocFailed<T>) -> SimFault {
        SimFault::NoMemory
    }
}
