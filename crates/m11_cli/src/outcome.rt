//! The outcome of a command, and its exit status.

ghost use Rattle.std.specs.Prelude.{◌≡◌};
ghost use Rattle.m11_cli.specs.Outcome.{asm_status, status_of};

use m11_asm::{AsmDone, AsmFault};
use m11_cli_reports::{link_status, sim_status, stop_status, usage_status};
use m11_cli_tasks::UsageFault;
use m11_cpu::{SimDone, SimFault};
use m11_link::{LinkDone, LinkFault};

/// The outcome of a command.
#[derive(Drop)]
pub enum Outcome {
    /// The command line is refused, or asks for help, or memory was refused while it was read.
    Usage(UsageFault),
    /// `asm`: the result of the assembly, or `NoMemory` if memory was refused while files were opened.
    Asm(Result<AsmDone, AsmFault>),
    /// `link`: the result of the link, or `NoMemory` if memory was refused while files were opened.
    Link(Result<LinkDone, LinkFault>),
    /// `sim`: the result of the run, or `NoMemory` if memory was refused while the tape was opened. A tape that could not be loaded is a
    /// fault of the run.
    Sim(Result<SimDone, SimFault>),
    /// A file could not be opened or created, so nothing ran.
    NotOpened,
}

/// The exit status of a command: 0 done, halted or help; 1 done with flagged lines or messages, or a run that stopped neither at HALT nor
/// for a device; 2 a refused command line; 3 a device that failed, or a file that can't be opened or created; 4 a malformed object or tape,
/// or a tape that doesn't fit memory; 5 no memory; 6 a limit other than that of steps.
pub fn status(outcome: &Outcome) -> u8
    ensures { result ≡ status_of outcome.now }
{
    match outcome {
        Outcome::Usage(fault) => usage_status(fault),
        Outcome::Asm(Ok(done)) if done.flagged == 0 => 0,
        Outcome::Asm(Ok(_)) => 1,
        Outcome::Asm(Err(fault)) => asm_status(*fault),
        Outcome::Link(Ok(done)) if done.messages == 0 => 0,
        Outcome::Link(Ok(_)) => 1,
        Outcome::Link(Err(fault)) => link_status(*fault),
        Outcome::Sim(Ok(done)) => stop_status(done.stop),
        Outcome::Sim(Err(fault)) => sim_status(*fault),
        Outcome::NotOpened => 3,
    }
}

// The status of an assembly that ended early.
fn asm_status(fault: AsmFault) -> u8
    ensures { result ≡ asm_status fault }
{
    match fault {
        AsmFault::Read | AsmFault::Write(_) => 3,
        AsmFault::NoMemory => 5,
        AsmFault::TooManySymbols
        | AsmFault::TooManySections
        | AsmFault::Unfold(_)
        | AsmFault::TooMuchSource => 6,
    }
}
