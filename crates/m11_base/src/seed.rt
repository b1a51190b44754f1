//! The start of the hash of a key.

use std::hash::{BuildHasher, FoldHasher, Hasher};
use std::random::RandomSource;

/// The start of the hash of a key. No contract says which seed it is, so no result can depend on it.
#[derive(Clone, Copy)]
pub struct Seed {
    start: FoldHasher,
}

impl Seed {
    /// The fixed seed, which the library's own maps have too: for calls that take no seed, for files in memory, and where the system gives
    /// no random bytes.
    pub fn fixed() -> Seed {
        Seed {
            start: FoldHasher::default(),
        }
    }

    /// A seed of random bytes from the system, or the fixed one if the system gives none.
    pub fn drawn(rt: &impl RandomSource) -> Seed {
        let mut bytes = [0; 8];
        match rt.fill_bytes(&mut bytes) {
            Ok(()) => Seed::of(u64::from_le_bytes(bytes)),
            Err(_) => Seed::fixed(),
        }
    }

    // The seed made from a number: a hash that has read that number.
    fn of(number: u64) -> Seed {
        let mut start = FoldHasher::default();
        start.write_u64(number);
        Seed { start }
    }
}

impl BuildHasher for Seed {
    type Hasher = FoldHasher;

    ghost build_hasher = { λ s. s.start };

    fn build_hasher(&self) -> FoldHasher {
        self.start
    }
}
