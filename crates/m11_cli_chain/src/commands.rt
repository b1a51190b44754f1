//! What one successful command does with files that are known.

ghost use Rattle.std.specs.Prelude.{◌≡◌, ℕ, List, Some, Ok};
ghost use Rattle.clap.specs.Words.{Text};
ghost use Rattle.m11_asm.specs.declared.done.AsmDone.{AsmDone};
ghost use Rattle.m11_base.specs.Devices.{Bytes};
ghost use Rattle.m11_cpu.specs.declared.simulation.SimDone.{SimDone};
ghost use Rattle.m11_link.specs.declared.emit.LinkDone.{LinkDone};
ghost use Rattle.m11_cli.specs.Driver.{Obeys};
ghost use Rattle.m11_cli.specs.Outcome.{status_of};
ghost use Rattle.m11_cli.specs.declared.outcome.Outcome.{Outcome};
ghost use Rattle.m11_cli.specs.declared.outcome.Outcome.TheVariants as outcome;
ghost use Rattle.m11_cli_chain.specs.Steps.{AreObjectsOf, IsTapeOfObjects};
ghost use Rattle.m11_cli_reports.specs.Streams.{Store, Streams};
ghost use Rattle.m11_cli_tasks.specs.Opened.{asm_inputs, link_inputs, optional};
ghost use Rattle.m11_cli_tasks.specs.Tasks.{Plans};
ghost use Rattle.m11_cli_tasks.specs.declared.tasks.AsmTask.{AsmTask};
ghost use Rattle.m11_cli_tasks.specs.declared.tasks.LinkTask.{LinkTask};
ghost use Rattle.m11_cli_tasks.specs.declared.tasks.SimTask.{SimTask};
ghost use Rattle.m11_cli_tasks.specs.declared.tasks.Task.TheVariants as task;
ghost use Rattle.m11_cli_chain.specs.Commands.{LeavesObject, LeavesTape, RunsChain};
ghost use Rattle.m11_cli_chain.specs.Stores.{AreAt, IsFresh, IsNoneOf, bytes_at};

use m11_asm_outcome_laws::the_object_is_the_blocks_of_its_contents;
use m11_asm_passes::{
    a_second_pass_over_the_same_lines_passes_no_limit, the_same_lines_are_read_alike,
};
use m11_cli_image::{
    accepted_links_are_within_the_sizes, links_write_the_texts_of_their_sources,
    loads_of_links_yield_the_image, tapes_have_the_sizes_of_their_texts,
};
use m11_link::objects_yield_items;

/// If a command line asks for an assembly, the files are known, and the assembly succeeds, whichever lines are flagged, then the file at
/// the object's path has the object of the source that the texts of the source files define, unless the listing has the same path. Only
/// the files of the object and the listing have changed.
pub fn assemblies_leave_the_objects_of_their_sources()
    ensures { (words : List Text) (asm : AsmTask) (done : AsmDone) (old new : Store) (before after : Streams) (texts : List Bytes)
        → Plans words (Ok (task.Asm asm)) → Obeys words (outcome.Asm (Ok done)) old new before after → IsFresh old
        → AreAt old (asm_inputs asm) texts → IsNoneOf asm.object.now (optional asm.listing) → LeavesObject texts asm old new }
{
    the_same_lines_are_read_alike();
    a_second_pass_over_the_same_lines_passes_no_limit();
    the_object_is_the_blocks_of_its_contents();
}

/// If a command line asks for a link, the files are known, and the link succeeds, whatever it reports, then the file at the tape's path has
/// the tape that a link of the objects in the files writes, unless the map has the same path. Only the files of the tape and the map have
/// changed.
pub fn links_leave_the_tapes_of_their_objects()
    ensures { (words : List Text) (link : LinkTask) (done : LinkDone) (old new : Store) (before after : Streams) (objects : List Bytes)
        → Plans words (Ok (task.Link link)) → Obeys words (outcome.Link (Ok done)) old new before after → IsFresh old
        → AreAt old (link_inputs link) objects → IsNoneOf link.tape.now (optional link.map) → LeavesTape objects link old new }
{
    objects_yield_items();
}

/// If a command line asks for a run, the tape's file has the tape that a link of the objects of these texts writes, and the run succeeds,
/// then it begins with the machine that a chain of these texts yields: a new machine, but that it holds the image of their sources. The
/// program starts at the address in the command line, or else at the start of the image. No file has changed.
pub fn runs_begin_with_the_image_of_their_sources()
    ensures { (words : List Text) (sim : SimTask) (done : SimDone) (old new : Store) (before after : Streams) (texts : List (List Bytes))
        (bottom : ℕ) (objects : List Bytes) (tape : Bytes) → Plans words (Ok (task.Sim sim))
        → Obeys words (outcome.Sim (Ok done)) old new before after → IsFresh old → AreObjectsOf texts objects
        → IsTapeOfObjects bottom objects tape → bytes_at old sim.tape.now ≡ Some tape
        → (new ≡ old) × RunsChain texts bottom sim before after done }
{
    links_write_the_texts_of_their_sources();
    loads_of_links_yield_the_image();
    accepted_links_are_within_the_sizes();
    tapes_have_the_sizes_of_their_texts();
}

/// If a command line asks for an assembly, a link or a run, and the command ends with status 0, then it has succeeded: it is neither refused
/// nor stopped by a fault.
pub fn planned_commands_with_status_0_succeed()
    ensures asm { (words : List Text) (asm : AsmTask) (came : Outcome) (old new : Store) (before after : Streams)
        → Plans words (Ok (task.Asm asm)) → Obeys words came old new before after → status_of came ≡ 0
        → (done : AsmDone) × (came ≡ outcome.Asm (Ok done)) }
    ensures link { (words : List Text) (link : LinkTask) (came : Outcome) (old new : Store) (before after : Streams)
        → Plans words (Ok (task.Link link)) → Obeys words came old new before after → status_of came ≡ 0
        → (done : LinkDone) × (came ≡ outcome.Link (Ok done)) }
    ensures sim { (words : List Text) (sim : SimTask) (came : Outcome) (old new : Store) (before after : Streams)
        → Plans words (Ok (task.Sim sim)) → Obeys words came old new before after → status_of came ≡ 0
        → (done : SimDone) × (came ≡ outcome.Sim (Ok done)) }
{}
