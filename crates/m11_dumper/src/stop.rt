//! The outcome of a command line, and its exit status. The command line was refused, or all files were shown, or there is a reason why not.

ghost use Rattle.std.specs.Prelude.{◌≡◌};
ghost use Rattle.m11_dumper.specs.Outcome.{fault_status, is_write, map_status, status_of, stop_status};
ghost use Rattle.m11_dumper.specs.declared.stop.Stop.TheVariants.{NoMemory};

use m11_base_disassembly::MapFault;
use m11_cli_reports::{link_status, tape_status, usage_status};
use m11_cli_tasks::UsageFault;
use m11_dump::{DumpFault, LocatedFault};
use m11_link_layout::LinkFault;
use m11_obj::BlockFault;
use std::alloc::AllocError;

/// Why not all files were shown.
#[derive(Clone, Copy)]
pub enum Stop<'a> {
    /// The file at this path couldn't be opened.
    NotOpened(&'a str),
    /// The dump of the file at this path stopped at this fault.
    InFile(&'a str, LocatedFault),
    /// The file at this path isn't a tape, so it has no source.
    NotTape(&'a str),
    /// Several files were to be written as sources.
    SeveralFiles,
    /// The objects have no load map: a link of them is refused with this fault, which is in the object at this path.
    InObject(&'a str, LinkFault),
    /// The objects have no load map: a link is refused with this fault, which is in no single object, or memory was refused.
    InMap(LinkFault),
    /// The file at this path gives no names for addresses, or memory was refused for them.
    NoSymbols(&'a str, MapFault),
    /// The head of a file or a load map couldn't be written.
    Write,
    /// Memory was refused before a file was dumped, or before the objects of a load map were read.
    NoMemory,
}

impl From<AllocError> for Stop<'_> {
    ghost from_gives = { λ _ e. e ≡ NoMemory };

    fn from(_error: AllocError) -> Self {
        Stop::NoMemory
    }
}

/// The outcome of a command line: it was refused, or its files were shown as far as that was possible.
#[derive(Drop)]
pub enum Outcome<'a> {
    /// The parser refuses the command line, or help was asked for, or memory was refused while it was read.
    Usage(UsageFault),
    /// A value of the command line is refused, which was reported.
    Refused,
    /// All files were shown, or this is the reason why not.
    Shown(Result<(), Stop<'a>>),
}

impl Stop<'_> {
    /// Whether a write of the output failed.
    pub(crate) fn is_write(&self) -> bool
        ensures { result ≡ is_write self.now }
    {
        match self {
            Stop::Write => true,
            Stop::InFile(_, placed) => matches!(placed.fault, DumpFault::Write),
            _ => false,
        }
    }
}

// The exit status for a fault in a file, the same as for a link or a run.
fn fault_status(fault: DumpFault) -> u8
    ensures { result ≡ fault_status fault }
{
    match fault {
        DumpFault::Block(BlockFault::Device) | DumpFault::Write => 3,
        DumpFault::Block(BlockFault::TooMuch) => 6,
        DumpFault::Block(_) | DumpFault::Record(_) => 4,
        DumpFault::Tape(inner) => tape_status(inner),
        DumpFault::Rule(inner) => link_status(LinkFault::from(inner)),
        DumpFault::NoMemory => 5,
    }
}

// The exit status for a file that gives no names.
fn map_status(fault: MapFault) -> u8
    ensures { result ≡ map_status fault }
{
    match fault {
        MapFault::Read => 3,
        MapFault::BadMap => 4,
        MapFault::TooMuch => 6,
        MapFault::NoModule => 4,
        MapFault::NoMemory => 5,
    }
}

fn stop_status(stop: &Stop<'_>) -> u8
    ensures { result ≡ stop_status stop.now }
{
    match stop {
        Stop::NotOpened(_) | Stop::Write => 3,
        Stop::InFile(_, placed) => fault_status(placed.fault),
        Stop::InObject(_, fault) | Stop::InMap(fault) => link_status(*fault),
        Stop::NotTape(_) => 4,
        Stop::SeveralFiles => 2,
        Stop::NoSymbols(_, fault) => map_status(*fault),
        Stop::NoMemory => 5,
    }
}

/// The exit status for an outcome: 0 if all files were shown or help was asked for; 2 for a refused command line; 3 if a device
/// failed or a file couldn't be opened; 4 for a malformed file; 5 for lack of memory; 6 for an exceeded limit.
pub(crate) fn status(outcome: &Outcome<'_>) -> u8
    ensures { result ≡ status_of outcome.now }
{
    match outcome {
        Outcome::Usage(fault) => usage_status(fault),
        Outcome::Refused => 2,
        Outcome::Shown(Ok(())) => 0,
        Outcome::Shown(Err(stop)) => stop_status(stop),
    }
}
