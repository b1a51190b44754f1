//! Why a dump fails, and where.

ghost use Rattle.std.specs.Prelude.{◌≡◌};
ghost use Rattle.m11_dump.specs.Positions.{of_rule};
ghost use Rattle.m11_dump.specs.declared.fault.DumpFault.TheVariants.{NoMemory};

use m11_link_modules::ModuleFault;
use m11_obj::{BlockFault, RecordFault, TapeFault};
use std::alloc::{AllocError, AllocFailed};

/// Why a dump fails.
#[derive(Clone, Copy, PartialEq, Eq)]
pub enum DumpFault {
    /// A block of an object or a library is faulty, the file is too long, or reading it failed.
    Block(BlockFault),
    /// A block of an object, or in a library a directory or a block of unknown type, isn't a valid record.
    Record(RecordFault),
    /// A record of an object breaks a rule of modules, or exceeds one of the linker's limits, counted in its module alone; or a record
    /// of a library comes where it may not; or the file ends inside a module or a library.
    Rule(ModuleFault),
    /// A block of a tape is faulty, the tape is too long or ends without a transfer block, or reading the file failed.
    Tape(TapeFault),
    /// The sink failed; part of the text may have been written.
    Write,
    /// Memory was refused.
    NoMemory,
}

/// A fault and its position in the file.
#[derive(Clone, Copy, PartialEq, Eq)]
pub struct LocatedFault {
    /// The fault.
    pub fault: DumpFault,
    /// The number of the block at fault, counted from 1; in a library, from the first block of its modules.
    pub block: u64,
    /// The offset in the file, counted from 0, of the byte that shows the fault. For a record that breaks a rule, that byte is the
    /// first of the record's content; for a record that lacks a field, the sum byte of its block. If the file ends too early, the
    /// offset is the size of the file; for `Write` and `NoMemory`, the number of bytes read.
    pub byte: u64,
}

impl From<ModuleFault> for DumpFault {
    ghost from_gives = { λ fault e. e ≡ of_rule fault };

    fn from(fault: ModuleFault) -> DumpFault {
        match fault {
            ModuleFault::NoMemory => DumpFault::NoMemory,
            _ => DumpFault::Rule(fault),
        }
    }
}

impl From<AllocError> for DumpFault {
    ghost from_gives = { λ _ e. e ≡ NoMemory };

    fn from(_error: AllocError) -> DumpFault {
        DumpFault::NoMemory
    }
}

impl<T: Drop> From<AllocFailed<T>> for DumpFault {
    ghost from_gives = { λ _ e. e ≡ NoMemory };

    fn from(_error: AllocFailed<T>) -> DumpFault {
        DumpFault::NoMemory
    }
}
