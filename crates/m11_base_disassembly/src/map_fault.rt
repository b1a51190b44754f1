//! Why a file gives no names for addresses.

ghost use Rattle.m11_base_disassembly.specs.MapFault.{line_head};
ghost use Rattle.m11_base_disassembly.specs.declared.map_fault.MapFault.TheVariants.{NoMemory};
ghost use Rattle.std.specs.Prelude.{◌≡◌};

use std::alloc::{AllocError, AllocFailed};

/// Why a file gives no names. Each fault has the number that its message shows.
#[derive(Clone, Copy, PartialEq, Eq)]
pub enum MapFault {
    /// 1: reading the file failed.
    Read,
    /// 2: the bytes have none of the forms of a file of names, or are an object that a link refuses.
    BadMap,
    /// 3: the file has more than 16,777,216 bytes.
    TooMuch,
    /// 4: a listing after a load map isn't that of a module of the load map, or only of modules whose listings came before; or a listing comes
    /// after another one without a load map.
    NoModule,
    /// 90: memory was refused.
    NoMemory,
}

impl<T: Drop> From<AllocFailed<T>> for MapFault {
    ghost from_gives = { λ _ e. e ≡ NoMemory };

    fn from(_error: AllocFailed<T>) -> MapFault {
        MapFault::NoMemory
    }
}

impl From<AllocError> for MapFault {
    ghost from_gives = { λ _ e. e ≡ NoMemory };

    fn from(_error: AllocError) -> MapFault {
        MapFault::NoMemory
    }
}

impl MapFault {
    /// The beginning of the message line, up to the path of the file.
    pub fn line_head(self) -> &'static str
        ensures { result.now ≡ line_head self }
    {
        match self {
            MapFault::Read => "?M11 MAP 1 Read OF ",
            MapFault::BadMap => "?M11 MAP 2 BadMap OF ",
            MapFault::TooMuch => "?M11 MAP 3 TooMuch OF ",
            MapFault::NoModule => "?M11 MAP 4 NoModule OF ",
            MapFault::NoMemory => "?M11 MAP 90 NoMemory OF ",
        }
    }
}
