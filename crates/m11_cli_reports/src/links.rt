//! The status of a link that ended early.

ghost use Rattle.std.specs.Prelude.{◌≡◌};
ghost use Rattle.m11_cli_reports.specs.Links.{link_status};

use m11_link_layout::LinkFault;

/// The status of a link that ended early: 3 a device that failed, 4 a malformed object, 5 no memory, 6 a limit.
pub fn link_status(fault: LinkFault) -> u8
    ensures { result ≡ link_status fault }
{
    match fault {
        LinkFault::Read | LinkFault::Write(_) => 3,
        LinkFault::Block(_)
        | LinkFault::Record(_)
        | LinkFault::BadOrder
        | LinkFault::NoText
        | LinkFault::BadDisplacement
        | LinkFault::UnknownSection
        | LinkFault::TextOutside => 4,
        LinkFault::NoMemory => 5,
        LinkFault::TooLarge
        | LinkFault::TooManyGlobals
        | LinkFault::TooManySections
        | LinkFault::TooManyModules
        | LinkFault::TooMuch => 6,
    }
}
