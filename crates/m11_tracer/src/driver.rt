//! The whole work of the program, for any devices.

ghost use Rattle.std.specs.Prelude.{◌≡◌, map};
ghost use Rattle.m11_base_disassembly.specs.ListedLines.{listing_of};
ghost use Rattle.m11_base_writes.specs.States.{output_of};
ghost use Rattle.m11_cpu_machine.specs.Dialogue.{input_of};
ghost use Rattle.m11_cli_reports.specs.Reports.{Reports};
ghost use Rattle.m11_cli_reports.specs.Streams.{store, streams};
ghost use Rattle.m11_cli_tasks.specs.Tasks.{IsDoable};
ghost use Rattle.m11_cli_tasks.specs.declared.tasks.Task.TheVariants.{Sim};
ghost use Rattle.m11_trace.specs.Known.{known_of};
ghost use Rattle.m11_tracer.specs.Driver.{Carries, CarriesAsked, CarriesNamed, HasOutcome, Obeys, RefusesNames, RefusesPlaces, RunsApart, RunsInto, RunsOpen};
ghost use Rattle.m11_tracer.specs.Outcome.{line_of, status_of};
ghost use Rattle.m11_tracer.specs.declared.outcome.Outcome.{Outcome};

use crate::outcome::{Outcome, line, outcome_apart, status};
use crate::places::{Asked, asked_of};
use crate::reports::report_no_names;
use crate::task::{TraceTask, plan};
use m11_base::{Feed, Sink};
use m11_base_files::{OpenRefusal, Opens};
use m11_cli_reports::{Refusal, RefusedValue, explain, report, report_not_opened, report_refused};
use m11_cpu::SimFault;
use m11_link_load_map::{FileNames, NoNames, read_names};
use m11_trace::{ApartFault, Ending, Known, trace_apart, trace_run};
use std::alloc::Global;
use std::convert::AsStr;

/// Carries out the command line `words`, whose first word is the program's name, and returns the exit status.
///
/// Help goes to `out`. A refused command line, a file that can't be opened or created or gives no names, the trace of the run and the
/// line for a fault go to `err`; but the trace lines go to their file, if the command line has one. The program on the tape reads `input`, and prints to `out` one byte at a time.
pub fn command<'a, F, I, O, E, S>(
    alloc: Global,
    files: &mut F,
    input: &mut I,
    out: &mut O,
    err: &mut E,
    words: &'a [S],
) -> u8
where
    F: Opens,
    I: Feed,
    O: Sink,
    E: Sink,
    S: AsStr,
    ensures { (outcome : Outcome) × Obeys F.Input.text F.Input.faults (map S.text words.entry.now) outcome
        (store (F.files files.old) (F.refusals files.old)) (store (F.files files.new) (F.refusals files.new))
        (streams I.Feed O.Sink E.Sink input.old out.old err.old)
        (streams I.Feed O.Sink E.Sink input.new out.new err.new)
        × (result ≡ status_of outcome) }
{
    let outcome = outcome_of(alloc, files, input, out, err, words);
    report_outcome(&outcome, err)
}

// Reports the line for the outcome's fault, if it has one, and returns the exit status. If the line can't be written, the status still
// shows the fault.
fn report_outcome<E: Sink>(outcome: &Outcome, err: &mut E) -> u8
    ensures status { result ≡ status_of outcome.now }
    ensures line { Reports (line_of outcome.now)
        (output_of E.Sink err.old) (output_of E.Sink err.new) }
{
    report(line(outcome).as_bytes(), err);
    status(outcome)
}

// Carries out the command line and returns the outcome. Help, a refusal by the parser, a value that is refused, and a file that can't be
// opened or gives no names are reported here.
#[tactic(auto, using(crate::proofs::Carried::carried))]
fn outcome_of<'a, F, I, O, E, S>(
    alloc: Global,
    files: &mut F,
    input: &mut I,
    out: &mut O,
    err: &mut E,
    words: &'a [S],
) -> Outcome
where
    F: Opens,
    I: Feed,
    O: Sink,
    E: Sink,
    S: AsStr,
    ensures { HasOutcome F.Input.text F.Input.faults (map S.text words.entry.now) result
        (store (F.files files.old) (F.refusals files.old)) (store (F.files files.new) (F.refusals files.new))
        (streams I.Feed O.Sink E.Sink input.old out.old err.old)
        (streams I.Feed O.Sink E.Sink input.new out.new err.new) }
{
    match plan(alloc, words) {
        Ok(task) => carry_out(alloc, files, input, out, err, &task),
        Err(Refusal::Usage(fault)) => {
            explain(alloc, &fault, out, err);
            Outcome::Usage(fault)
        }
        Err(Refusal::Value(value)) => {
            report_refused(&value, err);
            Outcome::Refused
        }
    }
}

// Carries out a task with the names in its files of names, and with the lines of their listings if these are kept. If the files give no names,
// that is reported, and nothing is run.
#[tactic(auto, using(crate::proofs::Carried::goes_on))]
fn carry_out<F, I, O, E>(
    alloc: Global,
    files: &mut F,
    input: &mut I,
    out: &mut O,
    err: &mut E,
    task: &TraceTask<'_>,
) -> Outcome
where
    F: Opens,
    I: Feed,
    O: Sink,
    E: Sink,
    requires { IsDoable (Sim task.now.sim) }
    ensures { Carries F.Input.text F.Input.faults task.now result
        (store (F.files files.old) (F.refusals files.old)) (store (F.files files.new) (F.refusals files.new))
        (streams I.Feed O.Sink E.Sink input.old out.old err.old)
        (streams I.Feed O.Sink E.Sink input.new out.new err.new) }
{
    match read_names(alloc, files, task.kept, task.bottom, task.names.as_slice()) {
        Ok(names) => carry_asked(alloc, files, input, out, err, task, known_in(&names)),
        Err(none) => refuse_names(none, err),
    }
}

// What is known of addresses by what files of names give.
fn known_in(names: &FileNames) -> Known<'_>
    ensures { known_of result ≡ record { symbols = names.now.symbols; listings = map listing_of names.now.listings.items } }
{
    Known {
        symbols: &names.symbols,
        listings: names.listings.as_slice(),
    }
}

// Carries out a task with the stops and memory ranges that its values ask for. A value that isn't an address among these known is reported;
// if memory is refused, the result is `NoMemory`. In both cases nothing is run.
fn carry_asked<F, I, O, E>(
    alloc: Global,
    files: &mut F,
    input: &mut I,
    out: &mut O,
    err: &mut E,
    task: &TraceTask<'_>,
    known: Known<'_>,
) -> Outcome
where
    F: Opens,
    I: Feed,
    O: Sink,
    E: Sink,
    requires { IsDoable (Sim task.now.sim) }
    ensures { CarriesAsked task.now (known_of known.entry) result
        (store (F.files files.old) (F.refusals files.old)) (store (F.files files.new) (F.refusals files.new))
        (streams I.Feed O.Sink E.Sink input.old out.old err.old)
        (streams I.Feed O.Sink E.Sink input.new out.new err.new) }
{
    match asked_of(alloc, Some(known.symbols), &task.values) {
        Ok(asked) => carry_named(alloc, files, input, out, err, task, &asked, known),
        Err(refusal) => refuse_places(refusal, err),
    }
}

// Reports a value that isn't an address among the known, and returns the outcome.
fn refuse_places<E: Sink>(refusal: Refusal<'_>, err: &mut E) -> Outcome
    ensures { RefusesPlaces refusal.entry result (output_of E.Sink err.old) (output_of E.Sink err.new) }
{
    match refusal {
        Refusal::Value(value) => {
            report_refused(&value, err);
            Outcome::Refused
        }
        Refusal::Usage(_) => Outcome::Ran(Err(SimFault::NoMemory)),
    }
}

// Reports why there are no names, and returns the outcome.
fn refuse_names<E: Sink>(none: NoNames<'_>, err: &mut E) -> Outcome
    ensures { RefusesNames none.entry result (output_of E.Sink err.old) (output_of E.Sink err.new) }
{
    match none {
        NoNames::NotOpened(path) => {
            report_not_opened(path, err);
            Outcome::NotOpened
        }
        NoNames::InFile(path, fault) => {
            report_no_names(path, fault, err);
            Outcome::NoSymbols(fault)
        }
    }
}

// Opens the tape and runs it. If it can't be opened, that is reported; if memory is refused for opening it, the result is `NoMemory`. In
// both cases nothing is run.
fn carry_named<F, I, O, E>(
    alloc: Global,
    files: &mut F,
    input: &mut I,
    out: &mut O,
    err: &mut E,
    task: &TraceTask<'_>,
    asked: &Asked,
    known: Known<'_>,
) -> Outcome
where
    F: Opens,
    I: Feed,
    O: Sink,
    E: Sink,
    requires { IsDoable (Sim task.now.sim) }
    ensures { CarriesNamed task.now asked.now (known_of known.entry) result
        (store (F.files files.old) (F.refusals files.old)) (store (F.files files.new) (F.refusals files.new))
        (streams I.Feed O.Sink E.Sink input.old out.old err.old)
        (streams I.Feed O.Sink E.Sink input.new out.new err.new) }
{
    match files.open(task.sim.tape) {
        Ok(tape) => match task.lines {
            None => Outcome::Ran(run_tape(alloc, tape, input, out, err, task, asked, known)),
            Some(path) => run_into(
                alloc, files, tape, path, input, out, err, task, asked, known,
            ),
        },
        Err(OpenRefusal::NotOpened) => {
            report_not_opened(task.sim.tape, err);
            Outcome::NotOpened
        }
        Err(OpenRefusal::NoMemory) => Outcome::Ran(Err(SimFault::NoMemory)),
    }
}

// Creates the file for the trace lines and runs an open tape. If the file can't be created, that is reported; if memory is refused for
// it, the result is `NoMemory`. In both cases nothing is run.
fn run_into<F, I, O, E>(
    alloc: Global,
    files: &mut F,
    tape: F::Input,
    path: &str,
    input: &mut I,
    out: &mut O,
    err: &mut E,
    task: &TraceTask<'_>,
    asked: &Asked,
    known: Known<'_>,
) -> Outcome
where
    F: Opens,
    I: Feed,
    O: Sink,
    E: Sink,
    requires { IsDoable (Sim task.now.sim) }
    ensures { RunsInto task.now asked.now path.now (known_of known.entry) (input_of (F.Input.text tape) (F.Input.faults tape))
        (store (F.files files.old) (F.refusals files.old)) (store (F.files files.new) (F.refusals files.new))
        (streams I.Feed O.Sink E.Sink input.old out.old err.old)
        (streams I.Feed O.Sink E.Sink input.new out.new err.new) result }
{
    match files.create(path) {
        Ok(lines) => outcome_apart(run_apart(
            alloc, files, tape, path, lines, input, out, err, task, asked, known,
        )),
        Err(OpenRefusal::NotOpened) => {
            report_not_opened(path, err);
            Outcome::NotOpened
        }
        Err(OpenRefusal::NoMemory) => Outcome::Ran(Err(SimFault::NoMemory)),
    }
}

// Runs an open tape with its trace lines in the file at `path`, which has been created, and hands that file back.
fn run_apart<F, I, O, E>(
    alloc: Global,
    files: &mut F,
    tape: F::Input,
    path: &str,
    lines: F::Output,
    input: &mut I,
    out: &mut O,
    err: &mut E,
    task: &TraceTask<'_>,
    asked: &Asked,
    known: Known<'_>,
) -> Result<Ending, ApartFault>
where
    F: Opens,
    I: Feed,
    O: Sink,
    E: Sink,
    requires { IsDoable (Sim task.now.sim) }
    ensures { RunsApart task.now asked.now path.now (known_of known.entry) (input_of (F.Input.text tape) (F.Input.faults tape))
        (output_of F.Output.Sink lines)
        (store (F.files files.old) (F.refusals files.old)) (store (F.files files.new) (F.refusals files.new))
        (streams I.Feed O.Sink E.Sink input.old out.old err.old)
        (streams I.Feed O.Sink E.Sink input.new out.new err.new) result }
{
    let mut tape = tape;
    let mut lines = lines;
    let sim = &task.sim;
    let returned = trace_apart(
        alloc,
        &mut tape,
        sim.start,
        sim.words,
        sim.limit,
        known,
        task.from,
        task.last,
        &asked.stops,
        asked.ranges.as_slice(),
        input,
        out,
        &mut lines,
        err,
    );
    files.keep(path, lines);
    returned
}

// Runs an open tape. The program on it prints to `out` one byte at a time; the trace goes to `err`.
fn run_tape<T: Feed + Drop, I: Feed, O: Sink, E: Sink>(
    alloc: Global,
    tape: T,
    input: &mut I,
    out: &mut O,
    err: &mut E,
    task: &TraceTask<'_>,
    asked: &Asked,
    known: Known<'_>,
) -> Result<Ending, SimFault>
    requires { IsDoable (Sim task.now.sim) }
    ensures { RunsOpen task.now asked.now (known_of known.entry) (input_of (T.text tape) (T.faults tape))
        (streams I.Feed O.Sink E.Sink input.old out.old err.old)
        (streams I.Feed O.Sink E.Sink input.new out.new err.new) result }
{
    let mut tape = tape;
    let sim = &task.sim;
    trace_run(
        alloc,
        &mut tape,
        sim.start,
        sim.words,
        sim.limit,
        known,
        task.from,
        task.last,
        &asked.stops,
        asked.ranges.as_slice(),
        input,
        out,
        err,
    )
}
