//! The line printed for a fault.

ghost use Rattle.std.specs.Prelude.{◌≡◌, OnErr, OnOk};
ghost use Rattle.std.specs.Io.KnownBytes.{Appends};
ghost use Rattle.m11_asm_faults.specs.declared.fault.AsmFault.TheVariants.{Unfold};
ghost use Rattle.m11_base.specs.Devices.{Rises};
ghost use Rattle.m11_base.specs.Sink.{AppendsPrefix};
ghost use Rattle.m11_link_layout.specs.declared.fault.LinkFault.TheVariants.{Block, Record};
ghost use Rattle.m11_cli.specs.FaultLines.{asm_line, line_of, link_line};

use crate::outcome::Outcome;
use m11_asm::AsmFault;
use m11_base::{PutFault, Sink, put_all};
use m11_base_writes::Output;
use m11_cli_reports::{sim_line, usage_line};
use m11_link::LinkFault;
use m11_obj::{BlockFault, RecordFault};
use m11_unfold_rules::UnfoldFault;

/// Writes the line for the outcome's fault: `?M11`, the command, the fault's number and its name. The line for a failed write also has the
/// name of the output, as in `?M11 ASM 2 Write OBJECT`. The line for a fault of unfolding, a block or a record also has the number and
/// the name of this inner fault, as in `?M11 ASM 5 Unfold 1 TooDeep` and `?M11 LINK 3 Block 3 BadSum`. Nothing is written if there is no
/// fault, nor for help, a command line that the parser refuses or a file that can't be opened or created, which have texts of their own.
///
/// Error: `Device`, if the sink fails or accepts none of the bytes left; a prefix of the line was put then, perhaps none of it. No memory
/// is allocated.
pub fn fault_line<S: Sink>(outcome: &Outcome, sink: &mut S) -> Result<(), PutFault>
    ensures whole { OnOk result (Appends (S.text sink.old) (S.text sink.new) (line_of outcome.now)) }
    ensures sound { OnOk result (S.faults sink.new ≡ S.faults sink.old) }
    ensures prefix { OnErr result
        (AppendsPrefix (S.text sink.old) (S.text sink.new) (line_of outcome.now)) }
    ensures fault { OnErr result (Rises (S.faults sink.old) (S.faults sink.new)) }
{
    put_all(sink, fault_text(outcome).as_bytes())
}

// The line for the outcome's fault, or the empty text where `fault_line` writes nothing.
#[tactic(auto, unfolding(m11_cli_reports::proofs::Decimals::decimals))]
fn fault_text(outcome: &Outcome) -> &'static str
    ensures { result.now ≡ line_of outcome.now }
{
    match outcome {
        Outcome::Usage(fault) => usage_line(fault),
        Outcome::Asm(Err(fault)) => asm_text(*fault),
        Outcome::Link(Err(fault)) => link_text(*fault),
        Outcome::Sim(Err(fault)) => sim_line(*fault),
        Outcome::Asm(Ok(_)) | Outcome::Link(Ok(_)) | Outcome::Sim(Ok(_)) | Outcome::NotOpened => "",
    }
}

// The line for a fault of an assembly.
#[tactic(auto, unfolding(m11_cli_reports::proofs::Decimals::decimals))]
fn asm_text(fault: AsmFault) -> &'static str
    ensures { result.now ≡ asm_line fault }
{
    match fault {
        AsmFault::Read => "?M11 ASM 1 Read\n",
        AsmFault::Write(Output::Product) => "?M11 ASM 2 Write OBJECT\n",
        AsmFault::Write(Output::Report) => "?M11 ASM 2 Write LISTING\n",
        AsmFault::Write(Output::Messages) => "?M11 ASM 2 Write MESSAGES\n",
        AsmFault::TooManySymbols => "?M11 ASM 3 TooManySymbols\n",
        AsmFault::TooManySections => "?M11 ASM 4 TooManySections\n",
        AsmFault::Unfold(fault) => unfold_text(fault),
        AsmFault::TooMuchSource => "?M11 ASM 6 TooMuchSource\n",
        AsmFault::NoMemory => "?M11 ASM 90 NoMemory\n",
    }
}

// The line for a fault of unfolding.
#[tactic(auto, unfolding(m11_cli_reports::proofs::Decimals::decimals))]
fn unfold_text(fault: UnfoldFault) -> &'static str
    ensures { result.now ≡ asm_line (Unfold fault) }
{
    match fault {
        UnfoldFault::TooDeep => "?M11 ASM 5 Unfold 1 TooDeep\n",
        UnfoldFault::TooManyLines => "?M11 ASM 5 Unfold 2 TooManyLines\n",
        UnfoldFault::TooMuchText => "?M11 ASM 5 Unfold 3 TooMuchText\n",
        UnfoldFault::TooManyMacros => "?M11 ASM 5 Unfold 4 TooManyMacros\n",
        UnfoldFault::NoMemory => "?M11 ASM 5 Unfold 90 NoMemory\n",
    }
}

// The line for a fault of a link.
#[tactic(auto, unfolding(m11_cli_reports::proofs::Decimals::decimals))]
fn link_text(fault: LinkFault) -> &'static str
    ensures { result.now ≡ link_line fault }
{
    match fault {
        LinkFault::Read => "?M11 LINK 1 Read\n",
        LinkFault::Write(Output::Product) => "?M11 LINK 2 Write TAPE\n",
        LinkFault::Write(Output::Report) => "?M11 LINK 2 Write MAP\n",
        LinkFault::Write(Output::Messages) => "?M11 LINK 2 Write MESSAGES\n",
        LinkFault::Block(fault) => block_text(fault),
        LinkFault::Record(fault) => record_text(fault),
        LinkFault::BadOrder => "?M11 LINK 5 BadOrder\n",
        LinkFault::NoText => "?M11 LINK 6 NoText\n",
        LinkFault::BadDisplacement => "?M11 LINK 7 BadDisplacement\n",
        LinkFault::UnknownSection => "?M11 LINK 8 UnknownSection\n",
        LinkFault::TooLarge => "?M11 LINK 9 TooLarge\n",
        LinkFault::TooManyGlobals => "?M11 LINK 10 TooManyGlobals\n",
        LinkFault::TooManySections => "?M11 LINK 11 TooManySections\n",
        LinkFault::TooManyModules => "?M11 LINK 12 TooManyModules\n",
        LinkFault::TooMuch => "?M11 LINK 13 TooMuch\n",
        LinkFault::TextOutside => "?M11 LINK 14 TextOutside\n",
        LinkFault::NoMemory => "?M11 LINK 90 NoMemory\n",
    }
}

// The line for a fault in reading an object's block.
#[tactic(auto, unfolding(m11_cli_reports::proofs::Decimals::decimals))]
fn block_text(fault: BlockFault) -> &'static str
    ensures { result.now ≡ link_line (Block fault) }
{
    match fault {
        BlockFault::Device => "?M11 LINK 3 Block 1 Device\n",
        BlockFault::Truncated => "?M11 LINK 3 Block 2 Truncated\n",
        BlockFault::BadSum => "?M11 LINK 3 Block 3 BadSum\n",
        BlockFault::TooLong => "?M11 LINK 3 Block 4 TooLong\n",
        BlockFault::BadStart => "?M11 LINK 3 Block 5 BadStart\n",
        BlockFault::TooShort => "?M11 LINK 3 Block 6 TooShort\n",
        BlockFault::Failed => "?M11 LINK 3 Block 7 Failed\n",
        BlockFault::TooMuch => "?M11 LINK 3 Block 8 TooMuch\n",
    }
}

// The line for a fault in an object's record.
#[tactic(auto, unfolding(m11_cli_reports::proofs::Decimals::decimals))]
fn record_text(fault: RecordFault) -> &'static str
    ensures { result.now ≡ link_line (Record fault) }
{
    match fault {
        RecordFault::UnknownType => "?M11 LINK 4 Record 1 UnknownType\n",
        RecordFault::BadLength => "?M11 LINK 4 Record 2 BadLength\n",
        RecordFault::Library => "?M11 LINK 4 Record 3 Library\n",
        RecordFault::MappedArray => "?M11 LINK 4 Record 4 MappedArray\n",
        RecordFault::Complex => "?M11 LINK 4 Record 5 Complex\n",
        RecordFault::UnknownRelocation => "?M11 LINK 4 Record 6 UnknownRelocation\n",
        RecordFault::BadName => "?M11 LINK 4 Record 7 BadName\n",
    }
}
