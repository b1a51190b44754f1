//! The faults of a chain.

use m11_asm_faults::AsmFault;
use m11_cpu::LoadFault;
use m11_link_layout::LinkFault;
use thiserror::Error;

/// Why a chain yields no machine.
#[derive(Clone, Copy, Debug, PartialEq, Eq, Error)]
pub enum ChainFault {
    /// The sources of an assembly are refused; the fault is that of the first such assembly.
    #[error("sources were not assembled")]
    Assembly(AsmFault),
    /// The link of the objects is refused.
    #[error("objects were not linked")]
    Link(LinkFault),
    /// The tape could not be loaded.
    #[error("the tape was not loaded")]
    Load(LoadFault),
    /// Memory was refused.
    #[error("no memory")]
    NoMemory,
}
