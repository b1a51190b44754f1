//! Why a call makes nothing of what it was passed.

use m11_cpu_states::StateFault;
use std::alloc::{AllocError, AllocFailed};

/// Why a call makes nothing of what it was passed. The caller isn't told which it was.
#[derive(Drop, Clone, Copy, PartialEq, Eq)]
pub(crate) enum Refusal {
    /// Memory was refused.
    NoMemory,
    /// The bytes don't have the form that the call wants.
    Malformed,
}

impl From<AllocError> for Refusal {
    fn from(_error: AllocError) -> Refusal {
        Refusal::NoMemory
    }
}

impl<T: Drop> From<AllocFailed<T>> for Refusal {
    fn from(_error: AllocFailed<T>) -> Refusal {
        Refusal::NoMemory
    }
}

impl From<StateFault> for Refusal {
    fn from(fault: StateFault) -> Refusal {
        match fault {
            StateFault::NoMemory => Refusal::NoMemory,
            StateFault::Malformed => Refusal::Malformed,
        }
    }
}
