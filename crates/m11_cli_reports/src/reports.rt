//! Help, and reports of refused command lines, of files that can't be opened or created, and of arguments that can't be read. If the device
//! fails, a report is cut short, but the exit status still shows the fault.

ghost use Rattle.std.specs.Prelude.{◌≡◌, OnErr, OnOk};
ghost use Rattle.std.specs.Io.KnownBytes.{Appends};
ghost use Rattle.m11_base.specs.Devices.{Rises};
ghost use Rattle.m11_base.specs.Sink.{AppendsPrefix};
ghost use Rattle.m11_base_writes.specs.States.{output_of};
ghost use Rattle.m11_cli_reports.specs.Lines.{open_line};
ghost use Rattle.m11_cli_reports.specs.Reports.{Explains, Reports, ReportsOfWords, ReportsSome, words_status};

use crate::usage::usage_line;
use m11_base::{PutFault, Sink, put_all};
use m11_cli_tasks::{UsageFault, WordsFault, refusal_line};
use std::alloc::Global;

/// Writes a text to `sink`. If the device fails, only a prefix of the text is written, and the failure isn't returned.
#[tactic(auto, using(crate::proofs::Reporting::reports))]
pub fn report<S: Sink>(text: &[u8], sink: &mut S)
    ensures { Reports text.now (output_of S.Sink sink.old) (output_of S.Sink sink.new) }
{
    let _ = put_all(sink, text);
}

/// Writes the parser's text: help to `out`, a refusal to `err`. Nothing is written if memory is refused for the text, and only a prefix of
/// it if the device fails. The other faults have a line of their own, so nothing is written for them here.
pub fn explain<O: Sink, E: Sink>(alloc: Global, fault: &UsageFault, out: &mut O, err: &mut E)
    ensures { Explains fault.now (output_of O.Sink out.old) (output_of O.Sink out.new)
        (output_of E.Sink err.old) (output_of E.Sink err.new) }
{
    match fault {
        UsageFault::Help(error) => report_error(alloc, error, out),
        UsageFault::Words(error) => report_error(alloc, error, err),
        UsageFault::BadOctal
        | UsageFault::OddAddress
        | UsageFault::BadAddress
        | UsageFault::BadCount
        | UsageFault::NoMemory => {}
    }
}

// Writes the text of an error, or only a prefix of it if the device fails, or nothing if memory is refused for the text.
#[tactic(auto, using(crate::proofs::Reporting::reports_some, crate::proofs::Reporting::reports_none))]
fn report_error<S: Sink>(alloc: Global, error: &clap::Error, sink: &mut S)
    ensures { ReportsSome (output_of S.Sink sink.old) (output_of S.Sink sink.new) }
{
    if let Ok(text) = error.to_string(alloc) {
        report(text.as_bytes(), sink);
    }
}

/// Reports that a file can't be opened or created: `?M11 OPEN` and the path as given on the command line. If the device fails, only a
/// prefix of the line is written. No memory is allocated.
#[tactic(auto, using(crate::proofs::Reporting::reports))]
pub fn report_not_opened<S: Sink>(path: &str, sink: &mut S)
    ensures { Reports (open_line path.now) (output_of S.Sink sink.old) (output_of S.Sink sink.new) }
{
    let _ = put_not_opened(path, sink);
}

// Writes the line for a file that can't be opened or created. Error: `Device`, if the sink fails or accepts none of the bytes left; a
// prefix of the line was put then, perhaps none of it.
fn put_not_opened<S: Sink>(path: &str, sink: &mut S) -> Result<(), PutFault>
    ensures whole { OnOk result (Appends (S.text sink.old) (S.text sink.new) (open_line path.now)) }
    ensures sound { OnOk result (S.faults sink.new ≡ S.faults sink.old) }
    ensures prefix { OnErr result
        (AppendsPrefix (S.text sink.old) (S.text sink.new) (open_line path.now)) }
    ensures fault { OnErr result (Rises (S.faults sink.old) (S.faults sink.new)) }
{
    put_all(sink, b"?M11 OPEN ")?;
    put_all(sink, path.as_bytes())?;
    put_all(sink, b"\n")
}

/// Replaces the work of a program whose arguments could not be read: reports why, and returns the exit status, 5 if memory was refused and
/// otherwise 2. The line for a word that isn't UTF-8 is left out if memory is refused for that line.
pub fn command_without_words<E: Sink>(alloc: Global, fault: WordsFault, err: &mut E) -> u8
    ensures status { result ≡ words_status fault }
    ensures reported { ReportsOfWords fault (output_of E.Sink err.old) (output_of E.Sink err.new) }
{
    match fault {
        WordsFault::NoMemory => {
            report(usage_line(&UsageFault::NoMemory).as_bytes(), err);
            5
        }
        WordsFault::NotText(number) => {
            if let Ok(line) = refusal_line(alloc, number) {
                report(line.as_bytes(), err);
            }
            2
        }
    }
}
