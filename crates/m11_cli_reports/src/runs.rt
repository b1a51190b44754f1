//! The status of a run of a tape, and the line for its fault.

ghost use Rattle.std.specs.Prelude.{◌≡◌};
ghost use Rattle.m11_cpu.specs.declared.fault.LoadFault.TheVariants.{Tape};
ghost use Rattle.m11_cpu.specs.declared.fault.SimFault.TheVariants.{Load};
ghost use Rattle.m11_cli_reports.specs.Runs.{sim_line, sim_status, stop_status, tape_status};

use m11_cpu::{LoadFault, SimFault, Stop};
use m11_obj_blocks::TapeFault;

/// The status of a run that stopped: 0 halted, 3 a device that failed, otherwise 1.
pub fn stop_status(stop: Stop) -> u8
    ensures { result ≡ stop_status stop }
{
    match stop {
        Stop::Halt => 0,
        Stop::Limit | Stop::Wait | Stop::StackFault | Stop::NoStart => 1,
        Stop::InputFault | Stop::OutputFault => 3,
    }
}

/// The status of a tape that is refused: 3 a device that failed, 6 a tape of more than 4,194,304 bytes, otherwise 4.
pub fn tape_status(fault: TapeFault) -> u8
    ensures { result ≡ tape_status fault }
{
    match fault {
        TapeFault::Device => 3,
        TapeFault::TooMuch => 6,
        TapeFault::Truncated
        | TapeFault::BadSum
        | TapeFault::BadStart
        | TapeFault::TooShort
        | TapeFault::Failed
        | TapeFault::NoTransfer => 4,
    }
}

/// The status of a run that ended without a stop: the status for the tape's fault if the tape is refused, 4 for a byte outside memory, 3
/// for messages that couldn't be written, 5 for refused memory.
pub fn sim_status(fault: SimFault) -> u8
    ensures { result ≡ sim_status fault }
{
    match fault {
        SimFault::Load(LoadFault::Tape(fault)) => tape_status(fault),
        SimFault::Load(LoadFault::OutsideMemory) => 4,
        SimFault::Write => 3,
        SimFault::NoMemory => 5,
    }
}

/// The line for a fault of a run.
#[tactic(auto, unfolding(crate::proofs::Decimals::decimals))]
pub fn sim_line(fault: SimFault) -> &'static str
    ensures { result.now ≡ sim_line fault }
{
    match fault {
        SimFault::Load(LoadFault::Tape(fault)) => tape_line(fault),
        SimFault::Load(LoadFault::OutsideMemory) => "?M11 SIM 10 OutsideMemory\n",
        SimFault::Write => "?M11 SIM 11 Write MESSAGES\n",
        SimFault::NoMemory => "?M11 SIM 90 NoMemory\n",
    }
}

// The line for a fault of the tape.
#[tactic(auto, unfolding(crate::proofs::Decimals::decimals))]
fn tape_line(fault: TapeFault) -> &'static str
    ensures { result.now ≡ sim_line (Load (Tape fault)) }
{
    match fault {
        TapeFault::Device => "?M11 SIM 1 Device\n",
        TapeFault::Truncated => "?M11 SIM 2 Truncated\n",
        TapeFault::BadSum => "?M11 SIM 3 BadSum\n",
        TapeFault::BadStart => "?M11 SIM 5 BadStart\n",
        TapeFault::TooShort => "?M11 SIM 6 TooShort\n",
        TapeFault::Failed => "?M11 SIM 7 Failed\n",
        TapeFault::NoTransfer => "?M11 SIM 8 NoTransfer\n",
        TapeFault::TooMuch => "?M11 SIM 9 TooMuch\n",
    }
}
