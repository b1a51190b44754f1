//! The faults of the records of an object, each with its number and name.

ghost use Rattle.std.specs.Prelude.{◌≡◌};
ghost use Rattle.m11_obj.specs.Fault.{record_fault_number, record_fault_name};

use thiserror::Error;

/// Why the content of a block isn't a valid record: the first fault in the order of its bytes.
#[derive(Clone, Copy, Debug, PartialEq, Eq, Error)]
pub enum RecordFault {
    /// 1: an unknown type of record or of directory entry.
    #[error("unknown type")]
    UnknownType,
    /// 2: the bytes end before a field does.
    #[error("bad length")]
    BadLength,
    /// 3: a record of an object library.
    #[error("library record")]
    Library,
    /// 4: a mapped array entry.
    #[error("mapped array")]
    MappedArray,
    /// 5: a complex relocation.
    #[error("complex relocation")]
    Complex,
    /// 6: an unknown relocation command, or the byte form of a command that has none.
    #[error("unknown relocation")]
    UnknownRelocation,
    /// 7: a word of a name isn't a RADIX-50 word.
    #[error("bad name")]
    BadName,
}

impl RecordFault {
    /// The fault's number, from 1 to 7.
    pub fn number(self) -> u8
        ensures { result ≡ record_fault_number self }
    {
        match self {
            RecordFault::UnknownType => 1,
            RecordFault::BadLength => 2,
            RecordFault::Library => 3,
            RecordFault::MappedArray => 4,
            RecordFault::Complex => 5,
            RecordFault::UnknownRelocation => 6,
            RecordFault::BadName => 7,
        }
    }

    /// The fault's name, as messages print it.
    pub fn name(self) -> &'static str
        ensures { result.now ≡ record_fault_name self }
    {
        match self {
            RecordFault::UnknownType => "UnknownType",
            RecordFault::BadLength => "BadLength",
            RecordFault::Library => "Library",
            RecordFault::MappedArray => "MappedArray",
            RecordFault::Complex => "Complex",
            RecordFault::UnknownRelocation => "UnknownRelocation",
            RecordFault::BadName => "BadName",
        }
    }
}
