//! The whole work of the program, for any type that opens files, any input and any outputs.

ghost use Rattle.std.specs.Prelude.{◌≡◌, map};
ghost use Rattle.m11_cpu_machine.specs.Dialogue.{Input, input_of};
ghost use Rattle.m11_cpu.specs.Simulation.{Simulates, request_of};
ghost use Rattle.m11_cli_reports.specs.Lines.{open_line};
ghost use Rattle.m11_cli_reports.specs.Reports.{Reports};
ghost use Rattle.m11_cli_reports.specs.Streams.{Store, devices_of, store, streams};
ghost use Rattle.m11_cli.specs.Driver.{Assembles, Carries, HasOutcome, Links, Obeys};
ghost use Rattle.m11_cli.specs.FaultLines.{line_of};
ghost use Rattle.m11_base.specs.Sink.{handed_on};
ghost use Rattle.m11_base_writes.specs.States.{OutputState, output_of};
ghost use Rattle.m11_base_files.specs.Opens.{AreFiles, IsEmptied, IsEmptiedSome, creating, keeping_some};
ghost use Rattle.m11_cli_tasks.specs.Opened.{asm_inputs, asm_outputs, link_inputs, link_outputs};
ghost use Rattle.m11_cli.specs.Outcome.{LeavesConsole, status_of};
ghost use Rattle.m11_cli_tasks.specs.Tasks.{IsDoable};
ghost use Rattle.m11_cli.specs.declared.outcome.Outcome.{Outcome};
ghost use Rattle.m11_cli.specs.declared.outcome.Outcome.TheVariants.{NotOpened};
ghost use Rattle.m11_cli_tasks.specs.declared.tasks.Task.TheVariants.{Asm, Link, Sim};

use crate::fault_lines::fault_line;
use crate::outcome::{Outcome, status};
use m11_asm::{AsmDone, AsmFault, asm_run_with_seed};
use m11_base::{Feed, Sink};
use m11_base_files::Opens;
use m11_cli_reports::{explain, report_not_opened};
use m11_cli_tasks::{
    AsmFiles, AsmTask, LinkFiles, LinkTask, OpenFault, SimTask, Task, open_asm_files,
    open_link_files, open_sim_file, plan,
};
use m11_cpu::{SimDone, SimFault, sim_run};
use m11_link::{LinkDone, LinkFault, link_run_with_seed};
use std::alloc::Global;
use std::convert::AsStr;

/// Carries out the command line `words`, whose first word is the program's name, and returns the exit status of the process.
///
/// Help goes to `out`. The refusal of a command line, the path of a file that can't be opened or created, messages, and the line of a
/// fault go to `err`. Inputs are opened first, in order: each twice, but the tape of a run once. Then the outputs are created, an object
/// before its listing and a tape before its map, and are handed back to `files` when the assembly or the link has ended, whatever its
/// result. The first file that can't be opened or created ends the command; outputs created before it stay empty. A program that is run
/// reads `input` and prints to `out`, each byte at once; nothing else reads from `input`.
pub fn command<'a, F, I, O, E, S>(
    alloc: Global,
    files: &mut F,
    input: &mut I,
    out: &mut O,
    err: &mut E,
    words: &'a [S],
) -> u8
where
    F: Opens,
    I: Feed,
    O: Sink,
    E: Sink,
    S: AsStr,
    ensures { (outcome : Outcome) × Obeys (map S.text words.entry.now) outcome
        (store (F.files files.old) (F.refusals files.old)) (store (F.files files.new) (F.refusals files.new))
        (streams I.Feed O.Sink E.Sink input.old out.old err.old)
        (streams I.Feed O.Sink E.Sink input.new out.new err.new)
        × (result ≡ status_of outcome) × LeavesConsole outcome input.old input.new }
{
    let outcome = outcome_of(alloc, files, input, out, err, words);
    report_outcome(&outcome, err)
}

// Reports the line for the outcome's fault, if there is one, and returns the exit status, which shows the fault even if the line can't be
// written.
#[tactic(auto, using(m11_cli_reports::proofs::Reporting::reports))]
fn report_outcome<E: Sink>(outcome: &Outcome, err: &mut E) -> u8
    ensures status { result ≡ status_of outcome.now }
    ensures line { Reports (line_of outcome.now)
        (output_of E.Sink err.old) (output_of E.Sink err.new) }
{
    let _ = fault_line(outcome, err);
    status(outcome)
}

// Carries out the task of a command line, or prints help, or explains why the command line is refused, and returns the outcome.
#[tactic(auto, using(crate::proofs::Carried::carried))]
fn outcome_of<'a, F, I, O, E, S>(
    alloc: Global,
    files: &mut F,
    input: &mut I,
    out: &mut O,
    err: &mut E,
    words: &'a [S],
) -> Outcome
where
    F: Opens,
    I: Feed,
    O: Sink,
    E: Sink,
    S: AsStr,
    ensures outcome { HasOutcome (map S.text words.entry.now) result
        (store (F.files files.old) (F.refusals files.old)) (store (F.files files.new) (F.refusals files.new))
        (streams I.Feed O.Sink E.Sink input.old out.old err.old)
        (streams I.Feed O.Sink E.Sink input.new out.new err.new) }
    ensures console { LeavesConsole result input.old input.new }
{
    match plan(alloc, words) {
        Ok(Task::Asm(task)) => assemble(alloc, files, err, &task),
        Ok(Task::Link(task)) => link(alloc, files, err, &task),
        Ok(Task::Sim(task)) => simulate(alloc, files, input, out, err, &task),
        Err(fault) => {
            explain(alloc, &fault, out, err);
            Outcome::Usage(fault)
        }
    }
}

// Reports the path of a file that can't be opened or created, and returns `NotOpened`.
fn not_opened<E: Sink>(err: &mut E, path: &str) -> Outcome
    ensures outcome { result ≡ NotOpened }
    ensures line { Reports (open_line path.now)
        (output_of E.Sink err.old) (output_of E.Sink err.new) }
{
    report_not_opened(path, err);
    Outcome::NotOpened
}

// Opens the files of an assembly, and runs the assembly. A file that can't be opened or created is reported, and then nothing runs. Memory
// refused while the files are opened is `NoMemory` of the assembly.
fn assemble<F: Opens, E: Sink>(
    alloc: Global,
    files: &mut F,
    err: &mut E,
    task: &AsmTask<'_>,
) -> Outcome
    ensures { (input : Input) → (printed : OutputState) → Carries (Asm task.now) result
        (store (F.files files.old) (F.refusals files.old)) (store (F.files files.new) (F.refusals files.new))
        (record { input = input; printed = printed; reported = output_of E.Sink err.old })
        (record { input = input; printed = printed; reported = output_of E.Sink err.new }) }
{
    match open_asm_files(alloc, files, task) {
        Ok(opened) => Outcome::Asm(run_asm(alloc, files, opened, err, task)),
        Err(OpenFault::NotOpened(path)) => not_opened(err, path),
        Err(OpenFault::NoMemory) => Outcome::Asm(Err(AsmFault::NoMemory)),
    }
}

// Runs an assembly of open files, with its messages on `err`, and hands the object and the listing back to `files`, whatever the result.
fn run_asm<F: Opens, E: Sink>(
    alloc: Global,
    files: &mut F,
    opened: AsmFiles<F::Input, F::Output>,
    err: &mut E,
    task: &AsmTask<'_>,
) -> Result<AsmDone, AsmFault>
    ensures { (before : Store) → AreFiles F.Input.text before.files (asm_inputs task.now) opened.sources.first.items
        → AreFiles F.Input.text before.files (asm_inputs task.now) opened.sources.second.items
        → IsEmptied before.files (F.Output.text opened.object)
        → IsEmptiedSome F.Output.text before.files task.now.listing opened.listing
        → F.files files.old ≡ creating (asm_outputs task.now) before.files → F.refusals files.old ≡ before.refusals
        → Assembles task.now before (store (F.files files.new) (F.refusals files.new))
        (output_of E.Sink err.old) (output_of E.Sink err.new) result }
{
    let AsmFiles {
        mut sources,
        mut object,
        mut listing,
    } = opened;
    let returned = asm_run_with_seed(
        alloc,
        files.seed(),
        sources.first.as_mut_slice(),
        sources.second.as_mut_slice(),
        &mut object,
        &mut listing,
        err,
    );
    files.keep(task.object, object);
    hand_back_some(files, task.listing, listing);
    returned
}

// Opens the files of a link, and runs the link. A file that can't be opened or created is reported, and then nothing runs. Memory refused
// while the files are opened is `NoMemory` of the link.
fn link<F: Opens, E: Sink>(
    alloc: Global,
    files: &mut F,
    err: &mut E,
    task: &LinkTask<'_>,
) -> Outcome
    ensures { (input : Input) → (printed : OutputState) → Carries (Link task.now) result
        (store (F.files files.old) (F.refusals files.old)) (store (F.files files.new) (F.refusals files.new))
        (record { input = input; printed = printed; reported = output_of E.Sink err.old })
        (record { input = input; printed = printed; reported = output_of E.Sink err.new }) }
{
    match open_link_files(alloc, files, task) {
        Ok(opened) => Outcome::Link(run_link(alloc, files, opened, err, task)),
        Err(OpenFault::NotOpened(path)) => not_opened(err, path),
        Err(OpenFault::NoMemory) => Outcome::Link(Err(LinkFault::NoMemory)),
    }
}

// Runs a link of open files, with its messages on `err`, and hands the tape and the map back to `files`, whatever the result.
fn run_link<F: Opens, E: Sink>(
    alloc: Global,
    files: &mut F,
    opened: LinkFiles<F::Input, F::Output>,
    err: &mut E,
    task: &LinkTask<'_>,
) -> Result<LinkDone, LinkFault>
    ensures { (before : Store) → AreFiles F.Input.text before.files (link_inputs task.now) opened.objects.first.items
        → AreFiles F.Input.text before.files (link_inputs task.now) opened.objects.second.items
        → IsEmptied before.files (F.Output.text opened.tape)
        → IsEmptiedSome F.Output.text before.files task.now.map opened.map
        → F.files files.old ≡ creating (link_outputs task.now) before.files → F.refusals files.old ≡ before.refusals
        → Links task.now before (store (F.files files.new) (F.refusals files.new))
        (output_of E.Sink err.old) (output_of E.Sink err.new) result }
{
    let LinkFiles {
        mut objects,
        mut tape,
        mut map,
    } = opened;
    let returned = link_run_with_seed(
        alloc,
        files.seed(),
        objects.first.as_mut_slice(),
        objects.second.as_mut_slice(),
        task.bottom,
        &mut tape,
        &mut map,
        err,
    );
    files.keep(task.tape, tape);
    hand_back_some(files, task.map, map);
    returned
}

// Hands the output with this path back to `files`, if there is one.
fn hand_back_some<F: Opens>(files: &mut F, path: Option<&str>, output: Option<F::Output>)
    ensures keeps { F.files files.new ≡ keeping_some (λ o. handed_on (F.Output.text o) (F.Output.held o)) path.entry output
        (F.files files.old) }
    ensures counts { F.refusals files.new ≡ F.refusals files.old }
{
    if let (Some(path), Some(output)) = (path, output) {
        files.keep(path, output);
    }
}

// Opens a tape, and runs it. A tape that can't be opened is reported, and then nothing runs. Memory refused while the tape is opened is
// `NoMemory` of the run.
fn simulate<F, I, O, E>(
    alloc: Global,
    files: &mut F,
    input: &mut I,
    out: &mut O,
    err: &mut E,
    task: &SimTask<'_>,
) -> Outcome
where
    F: Opens,
    I: Feed,
    O: Sink,
    E: Sink,
    requires { IsDoable (Sim task.now) }
    ensures outcome { Carries (Sim task.now) result
        (store (F.files files.old) (F.refusals files.old)) (store (F.files files.new) (F.refusals files.new))
        (streams I.Feed O.Sink E.Sink input.old out.old err.old)
        (streams I.Feed O.Sink E.Sink input.new out.new err.new) }
    ensures console { LeavesConsole result input.old input.new }
{
    match open_sim_file(files, task) {
        Ok(tape) => Outcome::Sim(run_sim(alloc, tape, input, out, err, task)),
        Err(OpenFault::NotOpened(path)) => not_opened(err, path),
        Err(OpenFault::NoMemory) => Outcome::Sim(Err(SimFault::NoMemory)),
    }
}

// Runs an open tape. The program prints to `out` a byte at a time, so each character shows on a terminal as soon as the program sends it;
// the messages of the run go to `err`.
fn run_sim<T: Feed + Drop, I: Feed, O: Sink, E: Sink>(
    alloc: Global,
    tape: T,
    input: &mut I,
    out: &mut O,
    err: &mut E,
    task: &SimTask<'_>,
) -> Result<SimDone, SimFault>
    requires { IsDoable (Sim task.now) }
    ensures { (tape' : Input) × Simulates (request_of task.now.start task.now.words task.now.limit)
        (devices_of (input_of (T.text tape) (T.faults tape)) (streams I.Feed O.Sink E.Sink input.old out.old err.old))
        (devices_of tape' (streams I.Feed O.Sink E.Sink input.new out.new err.new)) result }
{
    let mut tape = tape;
    sim_run(
        alloc, &mut tape, task.start, task.words, task.limit, input, out, err,
    )
}
