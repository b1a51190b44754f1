//! The outputs of a program, and calls that write to them: each writes all bytes, or returns the output's fault.

ghost use Rattle.std.specs.Prelude.{◌≡◌, [], ◌∷◌, ◌≢◌, is_some, IfErr, OnOk, Option, Some};
ghost use Rattle.m11_base_writes.specs.Outputs.{AreFlushed, flushes, kinds_of, outputs, to_messages, to_product, to_report};
ghost use Rattle.m11_base_writes.specs.States.{OutputState, optional_output, output_of};
ghost use Rattle.m11_base_writes.specs.Writes.{Between, In, Stop, Writes};

use crate::writes::{flush_or_fail, put_or_fail};
use m11_base::Sink;

/// The outputs of a program: its product, a report on it if one is asked for, and messages for a person watching the run.
#[derive(Clone, Copy, Debug, PartialEq, Eq)]
pub enum Output {
    /// What the program makes.
    Product,
    /// The report on the product, if one is asked for.
    Report,
    /// Messages for a person watching the run.
    Messages,
}

/// The faults of a program with these outputs.
pub trait OutputFault: Copy {
    ghost use Rattle.m11_base_writes.specs.declared.outputs.Output.{Output};

    // Where the writes of a call ended early, if the fault says that they did: in an output, or between two writes.
    ghost stop: { Self → Option (Stop Output) };

    /// The fault of a failed write to an output.
    fn of_output(output: Output) -> Self
        ensures { stop result ≡ Some (In output) };
}

/// Puts all of the bytes to the product. Error: the fault of the product; then a prefix of the bytes was put.
pub fn put_product<S: Sink, E: OutputFault>(product: &mut S, bytes: &[u8]) -> Result<(), E>
    ensures { (report messages : OutputState) → Writes (kinds_of E.stop)
        (outputs (output_of S.Sink product.old) report messages)
        (outputs (output_of S.Sink product.new) report messages) (to_product bytes.now ∷ []) result }
{
    put_or_fail(product, bytes, E::of_output(Output::Product))
}

/// Puts all of the bytes to the report, or does nothing if none is asked for. Error: the fault of the report, never that of refused
/// memory; then a prefix of the bytes was put.
#[tactic(auto, using(crate::proofs::Putting::put_takes_none))]
pub fn put_report<T: Sink, E: OutputFault>(report: &mut Option<T>, bytes: &[u8]) -> Result<(), E>
    ensures writes { (product messages : OutputState) → Writes (kinds_of E.stop)
        (outputs product (optional_output T.Sink report.old) messages)
        (outputs product (optional_output T.Sink report.new) messages) (to_report bytes.now ∷ []) result }
    ensures stays { is_some report.new ≡ is_some report.old }
    ensures no_memory { (refused : E) → E.stop refused ≡ Some Between → IfErr result (λ fault. fault ≢ refused) }
{
    match report {
        Some(sink) => put_or_fail(sink, bytes, E::of_output(Output::Report)),
        None => Ok(()),
    }
}

/// Puts all of the bytes to the messages. Error: the fault of the messages, never that of refused memory; then a prefix of the
/// bytes was put.
#[tactic(auto, using(crate::proofs::Putting::put_takes_none))]
pub fn put_message<U: Sink, E: OutputFault>(messages: &mut U, bytes: &[u8]) -> Result<(), E>
    ensures writes { (product report : OutputState) → Writes (kinds_of E.stop)
        (outputs product report (output_of U.Sink messages.old))
        (outputs product report (output_of U.Sink messages.new)) (to_messages bytes.now ∷ []) result }
    ensures no_memory { (refused : E) → E.stop refused ≡ Some Between → IfErr result (λ fault. fault ≢ refused) }
{
    put_or_fail(messages, bytes, E::of_output(Output::Messages))
}

/// Flushes the product, and then the report if one is asked for. Error: the fault of the output that failed; after a failure of the
/// product the report isn't flushed.
pub fn flush_files<S: Sink, T: Sink, E: OutputFault>(
    product: &mut S,
    report: &mut Option<T>,
) -> Result<(), E>
    ensures writes { (messages : OutputState) → Writes (kinds_of E.stop)
        (outputs (output_of S.Sink product.old) (optional_output T.Sink report.old) messages)
        (outputs (output_of S.Sink product.new) (optional_output T.Sink report.new) messages) flushes result }
    ensures flushed { (messages : OutputState) → OnOk result (AreFlushed
        (outputs (output_of S.Sink product.new) (optional_output T.Sink report.new) messages)) }
    ensures stays { is_some report.new ≡ is_some report.old }
{
    flush_product(product)?;
    flush_report(report)
}

// Flushes the product. Error: the fault of the product.
fn flush_product<S: Sink, E: OutputFault>(product: &mut S) -> Result<(), E>
    ensures writes { (report messages : OutputState) → Writes (kinds_of E.stop)
        (outputs (output_of S.Sink product.old) report messages)
        (outputs (output_of S.Sink product.new) report messages) (to_product [] ∷ []) result }
    ensures flushed { OnOk result (S.held product.new ≡ 0) }
{
    flush_or_fail(product, E::of_output(Output::Product))
}

// Flushes the report, if there is one. Error: the fault of the report.
fn flush_report<T: Sink, E: OutputFault>(report: &mut Option<T>) -> Result<(), E>
    ensures writes { (product messages : OutputState) → Writes (kinds_of E.stop)
        (outputs product (optional_output T.Sink report.old) messages)
        (outputs product (optional_output T.Sink report.new) messages) (to_report [] ∷ []) result }
    ensures flushed { OnOk result ((optional_output T.Sink report.new).held ≡ 0) }
    ensures stays { is_some report.new ≡ is_some report.old }
{
    match report {
        Some(sink) => flush_or_fail(sink, E::of_output(Output::Report)),
        None => Ok(()),
    }
}
