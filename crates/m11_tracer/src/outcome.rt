//! The outcome of a command line, the line for its fault and its exit status.

ghost use Rattle.std.specs.Prelude.{◌≡◌};
ghost use Rattle.m11_tracer.specs.Outcome as spec;

use m11_base_disassembly::MapFault;
use m11_cli_reports::{sim_line, sim_status, stop_status, usage_line, usage_status};
use m11_cli_tasks::UsageFault;
use m11_cpu::SimFault;
use m11_trace::{ApartFault, Ending};

/// The outcome of a command line.
#[derive(Drop)]
pub enum Outcome {
    /// The parser refused the command line, or help was asked for, or memory was refused while it was read.
    Usage(UsageFault),
    /// A value of the command line was refused, which was reported, so nothing ran.
    Refused,
    /// A file of names or the tape couldn't be opened, or the file for the trace lines couldn't be created, so nothing ran.
    NotOpened,
    /// A file gave no names for addresses, with this fault, so nothing ran.
    NoSymbols(MapFault),
    /// The trace lines couldn't be written whole to their file.
    LinesFailed,
    /// The result of the run; or `NoMemory` if memory was refused while opening the tape or creating the file for the trace lines.
    Ran(Result<Ending, SimFault>),
}

// The exit status for an ending: that of its stop; or 1, as at the limit, for a breakpoint or a change of a watched word.
fn ending_status(ending: Ending) -> u8
    ensures { result ≡ spec.ending_status ending }
{
    match ending {
        Ending::Stopped(stop) => stop_status(stop),
        Ending::Reached => 1,
        Ending::Changed(_) => 1,
    }
}

// The exit status for a file that gives no names.
fn map_status(fault: MapFault) -> u8
    ensures { result ≡ spec.map_status fault }
{
    match fault {
        MapFault::Read => 3,
        MapFault::BadMap => 4,
        MapFault::TooMuch => 6,
        MapFault::NoModule => 4,
        MapFault::NoMemory => 5,
    }
}

/// The exit status for an outcome, 0 to 6.
pub(crate) fn status(outcome: &Outcome) -> u8
    ensures { result ≡ spec.status_of outcome.now }
{
    match outcome {
        Outcome::Usage(fault) => usage_status(fault),
        Outcome::Refused => 2,
        Outcome::NotOpened => 3,
        Outcome::LinesFailed => 3,
        Outcome::NoSymbols(fault) => map_status(*fault),
        Outcome::Ran(Ok(ending)) => ending_status(*ending),
        Outcome::Ran(Err(fault)) => sim_status(*fault),
    }
}

/// The outcome of a run whose trace lines have a file of their own.
pub(crate) fn outcome_apart(returned: Result<Ending, ApartFault>) -> Outcome
    ensures { result ≡ spec.outcome_apart returned }
{
    match returned {
        Ok(ending) => Outcome::Ran(Ok(ending)),
        Err(ApartFault::Lines) => Outcome::LinesFailed,
        Err(ApartFault::Run(fault)) => Outcome::Ran(Err(fault)),
    }
}

/// The line for an outcome's fault; empty if there is no fault, or if it has been reported already.
#[tactic(auto, unfolding(m11_cli_reports::proofs::Decimals::decimals))]
pub(crate) fn line(outcome: &Outcome) -> &'static str
    ensures { result.now ≡ spec.line_of outcome.now }
{
    match outcome {
        Outcome::Usage(fault) => usage_line(fault),
        Outcome::LinesFailed => "?M11 SIM 11 Write LINES\n",
        Outcome::Ran(Err(fault)) => sim_line(*fault),
        Outcome::Ran(Ok(_)) | Outcome::Refused | Outcome::NotOpened | Outcome::NoSymbols(_) => "",
    }
}
