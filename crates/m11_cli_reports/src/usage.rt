//! The line and the status of a command line without a task.

ghost use Rattle.std.specs.Prelude.{◌≡◌};
ghost use Rattle.m11_cli_reports.specs.Usage.{usage_line, usage_status};

use m11_cli_tasks::UsageFault;

/// The status of a command line without a task: 0 help, 2 refused, 5 no memory.
pub fn usage_status(fault: &UsageFault) -> u8
    ensures { result ≡ usage_status fault.now }
{
    match fault {
        UsageFault::Help(_) => 0,
        UsageFault::Words(_)
        | UsageFault::BadOctal
        | UsageFault::OddAddress
        | UsageFault::BadAddress
        | UsageFault::BadCount => 2,
        UsageFault::NoMemory => 5,
    }
}

/// The line for a fault of the command line; empty for help and for a refusal by the parser, which have texts of their own.
#[tactic(auto, unfolding(crate::proofs::Decimals::decimals))]
pub fn usage_line(fault: &UsageFault) -> &'static str
    ensures { result.now ≡ usage_line fault.now }
{
    match fault {
        UsageFault::Help(_) | UsageFault::Words(_) => "",
        UsageFault::BadOctal => "?M11 USAGE 3 BadOctal\n",
        UsageFault::OddAddress => "?M11 USAGE 4 OddAddress\n",
        UsageFault::BadAddress => "?M11 USAGE 5 BadAddress\n",
        UsageFault::BadCount => "?M11 USAGE 6 BadCount\n",
        UsageFault::NoMemory => "?M11 USAGE 90 NoMemory\n",
    }
}
