//! The report of a file that gives no names.

ghost use Rattle.std.specs.Prelude.{◌≡◌, OnErr, OnOk};
ghost use Rattle.std.specs.Io.KnownBytes.{Appends};
ghost use Rattle.m11_base.specs.Devices.{Rises};
ghost use Rattle.m11_base.specs.Sink.{AppendsPrefix};
ghost use Rattle.m11_base_disassembly.specs.MapFault.{fault_line};
ghost use Rattle.m11_base_writes.specs.States.{output_of};
ghost use Rattle.m11_cli_reports.specs.Reports.{Reports};

use m11_base::{PutFault, Sink, put_all};
use m11_base_disassembly::MapFault;

/// Reports why the file at this path gives no names: `?M11 MAP`, the fault, and the path as given on the command line. If the device fails,
/// only a prefix of the line is written. No memory is allocated.
#[tactic(auto, using(m11_cli_reports::proofs::Reporting::reports))]
pub(crate) fn report_no_names<S: Sink>(path: &str, fault: MapFault, sink: &mut S)
    ensures { Reports (fault_line path.now fault) (output_of S.Sink sink.old) (output_of S.Sink sink.new) }
{
    let _ = put_no_names(path, fault, sink);
}

// Writes the line for a file that gives no names. Error: `Device` if the sink fails after a prefix of the line.
fn put_no_names<S: Sink>(path: &str, fault: MapFault, sink: &mut S) -> Result<(), PutFault>
    ensures whole { OnOk result (Appends (S.text sink.old) (S.text sink.new) (fault_line path.now fault)) }
    ensures sound { OnOk result (S.faults sink.new ≡ S.faults sink.old) }
    ensures prefix { OnErr result
        (AppendsPrefix (S.text sink.old) (S.text sink.new) (fault_line path.now fault)) }
    ensures fault { OnErr result (Rises (S.faults sink.old) (S.faults sink.new)) }
{
    put_all(sink, fault.line_head().as_bytes())?;
    put_all(sink, path.as_bytes())?;
    put_all(sink, b"\n")
}
