//! Why there is no state or slice.

ghost use Rattle.std.specs.Prelude.{◌≡◌};
ghost use Rattle.m11_cpu_states.specs.declared.refusal.StateFault.TheVariants.{NoMemory};

use std::alloc::{AllocError, AllocFailed};

/// Why there is no state or slice.
#[derive(Drop, Clone, Copy, PartialEq, Eq)]
pub enum StateFault {
    /// Memory was refused.
    NoMemory,
    /// The bytes are no state.
    Malformed,
}

impl From<AllocError> for StateFault {
    ghost from_gives = { λ _ e. e ≡ NoMemory };

    fn from(_error: AllocError) -> StateFault {
        StateFault::NoMemory
    }
}

impl<T: Drop> From<AllocFailed<T>> for StateFault {
    ghost from_gives = { λ _ e. e ≡ NoMemory };

    fn from(_error: AllocFailed<T>) -> StateFault {
        StateFault::NoMemory
    }
}
