//! Why records are not a list of modules, or are more than a link accepts.

ghost use Rattle.std.specs.Prelude.{◌≡◌};
ghost use Rattle.m11_link_modules.specs.declared.fault.ModuleFault.TheVariants.{NoMemory};

use std::alloc::{AllocError, AllocFailed};
use thiserror::Error;

/// The reason why records, in their order, are not a list of modules, or are more than a link accepts.
#[derive(Clone, Copy, Debug, PartialEq, Eq, Error)]
pub enum ModuleFault {
    /// A record comes where its type isn't allowed; a section is entered twice in a module; a relocatable global is defined before
    /// any section is entered; a file ends inside a module.
    #[error("a record or an entry is out of order")]
    BadOrder,
    /// A relocation that stores bytes has no text before it in its module.
    #[error("a relocation has no text")]
    NoText,
    /// Not all bytes that a relocation stores are inside the text before it.
    #[error("a relocation lies outside its text")]
    BadDisplacement,
    /// A section other than `. ABS.` is referred to before the module enters it.
    #[error("a section is unknown in its module")]
    UnknownSection,
    /// A text ends past the end of its section, given the section's size in this module.
    #[error("a text lies outside its section")]
    TextOutside,
    /// There are more than 8,192 names of globals in all modules together.
    #[error("too many globals")]
    TooManyGlobals,
    /// There are more than 256 names of sections in all modules together.
    #[error("too many sections")]
    TooManySections,
    /// There are more than 32 modules.
    #[error("too many modules")]
    TooManyModules,
    /// Memory was refused.
    #[error("no memory")]
    NoMemory,
}

impl From<AllocError> for ModuleFault {
    ghost from_gives = { λ _ e. e ≡ NoMemory };

    fn from(_error: AllocError) -> ModuleFault {
        ModuleFault::NoMemory
    }
}

impl<T: Drop> From<AllocFailed<T>> for ModuleFault {
    ghost from_gives = { λ _ e. e ≡ NoMemory };

    fn from(_error: AllocFailed<T>) -> ModuleFault {
        ModuleFault::NoMemory
    }
}
