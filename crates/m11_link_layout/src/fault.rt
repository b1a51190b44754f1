//! The faults of a link, with their numbers and names.

ghost use Rattle.std.specs.Prelude.{◌≡◌};
ghost use Rattle.m11_link_layout.specs.Fault.{link_fault_name, link_fault_number, of_block, of_module, stop_of};
ghost use Rattle.m11_link_layout.specs.declared.fault.LinkFault.TheVariants.{NoMemory, Record};

use m11_base_writes::{Output, OutputFault};
use m11_link_modules::ModuleFault;
use m11_obj::{BlockFault, RecordFault};
use std::alloc::{AllocError, AllocFailed};
use thiserror::Error;

/// Why a link failed.
#[derive(Clone, Copy, Debug, PartialEq, Eq, Error)]
pub enum LinkFault {
    /// 1: an object couldn't be read.
    #[error("an object could not be read")]
    Read,
    /// 2: an output couldn't be written. The product is the tape, and the report is the map.
    #[error("an output could not be written")]
    Write(Output),
    /// 3: bytes of an object aren't a block.
    #[error("a block is malformed")]
    Block(BlockFault),
    /// 4: a block isn't a valid record.
    #[error("a record is malformed")]
    Record(RecordFault),
    /// 5: a record comes where its type isn't allowed, a module enters a section twice or defines a relocatable global before its
    /// first section, or a file ends inside a module.
    #[error("a record or an entry is out of order")]
    BadOrder,
    /// 6: a relocation that stores bytes has no text before it in its module.
    #[error("a relocation has no text")]
    NoText,
    /// 7: not all bytes that a relocation stores are inside the text before it.
    #[error("a relocation lies outside its text")]
    BadDisplacement,
    /// 8: a section other than `. ABS.` is referred to before the module enters it.
    #[error("a section is unknown in its module")]
    UnknownSection,
    /// 9: a relocatable section ends past octal 160000.
    #[error("the program is too large")]
    TooLarge,
    /// 10: more than 8,192 different names of globals.
    #[error("too many globals")]
    TooManyGlobals,
    /// 11: more than 256 different names of sections.
    #[error("too many sections")]
    TooManySections,
    /// 12: more than 32 modules.
    #[error("too many modules")]
    TooManyModules,
    /// 13: an object has more than 4,194,304 bytes.
    #[error("an object is too long")]
    TooMuch,
    /// 14: a text ends past the end of its section, given the section's size in this module.
    #[error("a text lies outside its section")]
    TextOutside,
    /// 90: memory was refused.
    #[error("no memory")]
    NoMemory,
}

impl LinkFault {
    /// The fault's number: from 1 to 14, or 90.
    pub fn number(self) -> u8
        ensures { result ≡ link_fault_number self }
    {
        match self {
            LinkFault::Read => 1,
            LinkFault::Write(_) => 2,
            LinkFault::Block(_) => 3,
            LinkFault::Record(_) => 4,
            LinkFault::BadOrder => 5,
            LinkFault::NoText => 6,
            LinkFault::BadDisplacement => 7,
            LinkFault::UnknownSection => 8,
            LinkFault::TooLarge => 9,
            LinkFault::TooManyGlobals => 10,
            LinkFault::TooManySections => 11,
            LinkFault::TooManyModules => 12,
            LinkFault::TooMuch => 13,
            LinkFault::TextOutside => 14,
            LinkFault::NoMemory => 90,
        }
    }

    /// The fault's name, as messages print it.
    pub fn name(self) -> &'static str
        ensures { result.now ≡ link_fault_name self }
    {
        match self {
            LinkFault::Read => "Read",
            LinkFault::Write(_) => "Write",
            LinkFault::Block(_) => "Block",
            LinkFault::Record(_) => "Record",
            LinkFault::BadOrder => "BadOrder",
            LinkFault::NoText => "NoText",
            LinkFault::BadDisplacement => "BadDisplacement",
            LinkFault::UnknownSection => "UnknownSection",
            LinkFault::TooLarge => "TooLarge",
            LinkFault::TooManyGlobals => "TooManyGlobals",
            LinkFault::TooManySections => "TooManySections",
            LinkFault::TooManyModules => "TooManyModules",
            LinkFault::TooMuch => "TooMuch",
            LinkFault::TextOutside => "TextOutside",
            LinkFault::NoMemory => "NoMemory",
        }
    }
}

impl OutputFault for LinkFault {
    ghost stop = { stop_of };

    fn of_output(output: Output) -> LinkFault {
        LinkFault::Write(output)
    }
}

impl From<ModuleFault> for LinkFault {
    ghost from_gives = { λ fault e. e ≡ of_module fault };

    fn from(fault: ModuleFault) -> LinkFault {
        match fault {
            ModuleFault::BadOrder => LinkFault::BadOrder,
            ModuleFault::NoText => LinkFault::NoText,
            ModuleFault::BadDisplacement => LinkFault::BadDisplacement,
            ModuleFault::UnknownSection => LinkFault::UnknownSection,
            ModuleFault::TextOutside => LinkFault::TextOutside,
            ModuleFault::TooManyGlobals => LinkFault::TooManyGlobals,
            ModuleFault::TooManySections => LinkFault::TooManySections,
            ModuleFault::TooManyModules => LinkFault::TooManyModules,
            ModuleFault::NoMemory => LinkFault::NoMemory,
        }
    }
}

impl From<BlockFault> for LinkFault {
    ghost from_gives = { λ fault e. e ≡ of_block fault };

    // A failed device and an object that is too long have numbers of their own. Any other fault of a block becomes a `Block`.
    fn from(fault: BlockFault) -> LinkFault {
        match fault {
            BlockFault::Device => LinkFault::Read,
            BlockFault::TooMuch => LinkFault::TooMuch,
            other => LinkFault::Block(other),
        }
    }
}

impl From<RecordFault> for LinkFault {
    ghost from_gives = { λ fault e. e ≡ Record fault };

    fn from(fault: RecordFault) -> LinkFault {
        LinkFault::Record(fault)
    }
}

impl From<AllocError> for LinkFault {
    ghost from_gives = { λ _ e. e ≡ NoMemory };

    fn from(_error: AllocError) -> LinkFault {
        LinkFault::NoMemory
    }
}

impl<T: Drop> From<AllocFailed<T>> for LinkFault {
    ghost from_gives = { λ _ e. e ≡ NoMemory };

    fn from(_error: AllocFailed<T>) -> LinkFault {
        LinkFault::NoMemory
    }
}
