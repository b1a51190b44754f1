//! The whole link: both passes over the objects.

ghost use Rattle.std.specs.Prelude.{◌≡◌, None, ℕ, List, is_some};
ghost use Rattle.m11_link.specs.Objects.{AreItems, Item};
ghost use Rattle.m11_base_writes.specs.Passes.{pass_of};
ghost use Rattle.m11_link.specs.FirstPass.{LaysOut, LaysOutObject, LayoutBetween, PlansFirst};
ghost use Rattle.m11_link_layout.specs.Layout.{LayoutAfter};
ghost use Rattle.m11_link_layout.specs.Plan.{PlanTables};
ghost use Rattle.m11_link_modules.specs.Parts.{Part, EndOfFile};
ghost use Rattle.m11_link_modules.specs.Rules.{fault_of};
ghost use Rattle.m11_link.specs.Emit.{written};
ghost use Rattle.m11_link.specs.Emit as emitting;
ghost use Rattle.m11_link.specs.SecondPass.{Emits, EmitsObject, LinkRuns, LinkRunsOr, ReadsSecond, start_at};
ghost use Rattle.m11_link_text.specs.Findings.{planned};
ghost use Rattle.m11_link.specs.Outputs.{Gains};
ghost use Rattle.m11_base_writes.specs.Outputs.{Outputs, outputs_of};

use crate::emit::{Emit, LinkDone};
use m11_base::{Feed, Seed, Sink};
use m11_link_layout::{Layout, LinkFault, Plan};
use m11_obj::{Block, BlockReader};
use std::alloc::Global;

/// Links objects, each read twice, into an absolute loader tape, a map and messages.
///
/// `first` and `second` are feeds of the same objects for the two passes; only the second pass writes. Relocatable sections begin
/// at the address `bottom`. The map is written only if `map` is `Some`; it is still `Some` afterwards, however the run ends.
///
/// Errors of the first pass, of which the first in the order of the input is returned: `Read`; `Block`, `TooMuch` and `Record`;
/// those of the rules of modules; `TooLarge` after the last block. They leave the outputs unchanged. Errors of the second pass:
/// `Write`, after which nothing more is written; `Read`; and those of blocks, records and modules, if the second pass reads other
/// bytes than the first. All output for the records before such a fault is written, except a text that hasn't ended. `NoMemory`, in
/// both passes, if memory is refused, but never at a record whose first new module, section or global would pass its limit.
///
/// An output may hold bytes back until it is flushed. Tape and map are flushed after everything is written: after a successful
/// link they hold nothing back, and a failed flush is a `Write` error of its output.
pub fn link_run<F: Feed, S: Sink, T: Sink, U: Sink>(
    alloc: Global,
    first: &mut [F],
    second: &mut [F],
    bottom: u16,
    tape: &mut S,
    map: &mut Option<T>,
    messages: &mut U,
) -> Result<LinkDone, LinkFault>
    ensures runs { LinkRuns
        (pass_of F.text F.faults first.old first.new) (pass_of F.text F.faults second.old second.new) bottom
        (outputs_of S.Sink T.Sink U.Sink tape.old map.old messages.old)
        (outputs_of S.Sink T.Sink U.Sink tape.new map.new messages.new) result }
    ensures untouched { LinkRunsOr ((tape.new ≡ tape.old) × (map.new ≡ map.old) × (messages.new ≡ messages.old))
        (pass_of F.text F.faults first.old first.new) (pass_of F.text F.faults second.old second.new) bottom
        (outputs_of S.Sink T.Sink U.Sink tape.old map.old messages.old)
        (outputs_of S.Sink T.Sink U.Sink tape.new map.new messages.new) result }
    ensures stays { is_some map.new ≡ is_some map.old }
{
    link_run_with_seed(
        alloc,
        Seed::fixed(),
        first,
        second,
        bottom,
        tape,
        map,
        messages,
    )
}

/// Does the same as `link_run`, with this seed for all hash maps of both passes.
#[tactic(auto, using(crate::proofs::Agreeing::run_with_plan))]
pub fn link_run_with_seed<F: Feed, S: Sink, T: Sink, U: Sink>(
    alloc: Global,
    seed: Seed,
    first: &mut [F],
    second: &mut [F],
    bottom: u16,
    tape: &mut S,
    map: &mut Option<T>,
    messages: &mut U,
) -> Result<LinkDone, LinkFault>
    ensures runs { LinkRuns
        (pass_of F.text F.faults first.old first.new) (pass_of F.text F.faults second.old second.new) bottom
        (outputs_of S.Sink T.Sink U.Sink tape.old map.old messages.old)
        (outputs_of S.Sink T.Sink U.Sink tape.new map.new messages.new) result }
    ensures untouched { LinkRunsOr ((tape.new ≡ tape.old) × (map.new ≡ map.old) × (messages.new ≡ messages.old))
        (pass_of F.text F.faults first.old first.new) (pass_of F.text F.faults second.old second.new) bottom
        (outputs_of S.Sink T.Sink U.Sink tape.old map.old messages.old)
        (outputs_of S.Sink T.Sink U.Sink tape.new map.new messages.new) result }
    ensures stays { is_some map.new ≡ is_some map.old }
{
    let plan = read_first(alloc, seed, first, bottom)?;
    read_second(alloc, second, plan, tape, map, messages)
}

/// Any list of objects, whatever their bytes are, yields exactly one list of items.
#[tactic(auto, using(crate::proofs::Steady::objects_come, crate::proofs::Sole::objects_same))]
pub fn objects_yield_items()
    ensures yields { (sources : List (List ℕ)) → (items : List Item) × AreItems sources items }
    ensures same { (sources : List (List ℕ)) (items others : List Item)
        → AreItems sources items → AreItems sources others → items ≡ others }
{}

// Makes the first pass, and returns the plan of all objects, or the first fault, or `NoMemory`.
fn read_first<F: Feed>(
    alloc: Global,
    seed: Seed,
    feeds: &mut [F],
    bottom: u16,
) -> Result<Plan, LinkFault>
    ensures { PlansFirst (pass_of F.text F.faults feeds.old feeds.new) bottom result }
{
    let mut layout = Layout::with_seed(alloc, seed, bottom);
    match lay_out(feeds, &mut layout) {
        Ok(()) => layout.end(),
        Err(fault) => {
            // proof: dropping a value that owns several maps in place takes minutes to prove
            drop(layout);
            Err(fault)
        }
    }
}

// Reads the objects in the first pass, one after another, up to the first fault.
fn lay_out<F: Feed>(feeds: &mut [F], layout: &mut Layout) -> Result<(), LinkFault>
    ensures { (bottom : ℕ) (before : List Part) → LayoutBetween bottom before layout.old
        → LaysOut (pass_of F.text F.faults feeds.old feeds.new) bottom before layout.new result }
{
    'feeds: for feed in feeds.iter_mut() {
        lay_out_object(feed, layout)?;
    }
    Ok(())
}

// Reads one object in the first pass. Each block is accepted before the next one is read, so the fault returned is the first in the
// order of the bytes.
fn lay_out_object<F: Feed>(feed: &mut F, layout: &mut Layout) -> Result<(), LinkFault>
    ensures { (bottom : ℕ) (before : List Part) → LayoutAfter bottom before layout.old
        → LaysOutObject (F.text feed.old) (F.text feed.new) (F.faults feed.old) (F.faults feed.new) bottom before layout.new result }
{
    let mut reader = BlockReader::new();
    let mut block = Block::new();
    'items: while reader.next_into(feed, &mut block)? {
        layout.block(&block)?;
    }
    layout.end_file()
}

// Makes the second pass, which writes the whole link, or its beginning if a fault ends the pass.
fn read_second<F: Feed, S: Sink, T: Sink, U: Sink>(
    alloc: Global,
    feeds: &mut [F],
    plan: Plan,
    tape: &mut S,
    map: &mut Option<T>,
    messages: &mut U,
) -> Result<LinkDone, LinkFault>
    ensures reads { ReadsSecond (pass_of F.text F.faults feeds.old feeds.new) (planned plan)
        (outputs_of S.Sink T.Sink U.Sink tape.old map.old messages.old)
        (outputs_of S.Sink T.Sink U.Sink tape.new map.new messages.new) result }
    ensures stays { is_some map.new ≡ is_some map.old }
{
    let mut emit = Emit::new(alloc, plan);
    match emit_all(feeds, &mut emit, tape, map, messages) {
        Ok(()) => emit.end(tape, map, messages),
        Err(fault) => {
            // proof: dropping a value that owns several maps in place takes minutes to prove
            drop(emit);
            Err(fault)
        }
    }
}

// Reads the objects in the second pass, one after another, up to the first fault.
fn emit_all<F: Feed, S: Sink, T: Sink, U: Sink>(
    feeds: &mut [F],
    emit: &mut Emit,
    tape: &mut S,
    map: &mut Option<T>,
    messages: &mut U,
) -> Result<(), LinkFault>
    ensures emits { (plan : PlanTables) (before : List Part) (first : Outputs) → emitting.EmitAfter plan before emit.old
        → fault_of before EndOfFile ≡ None
        → Gains first
        (outputs_of S.Sink T.Sink U.Sink tape.old map.old messages.old)
        (written (planned plan) emit.old.has_begun before)
        → Emits (pass_of F.text F.faults feeds.old feeds.new) (start_at plan emit.old.has_begun before first)
        (outputs_of S.Sink T.Sink U.Sink tape.new map.new messages.new) emit.new result }
    ensures stays { is_some map.new ≡ is_some map.old }
{
    'feeds: for feed in feeds.iter_mut() {
        emit_object(feed, emit, tape, map, messages)?;
    }
    Ok(())
}

// Reads one object in the second pass. All output for a block, except a text that hasn't ended, is written before the next block is read.
fn emit_object<F: Feed, S: Sink, T: Sink, U: Sink>(
    feed: &mut F,
    emit: &mut Emit,
    tape: &mut S,
    map: &mut Option<T>,
    messages: &mut U,
) -> Result<(), LinkFault>
    ensures emits { (plan : PlanTables) (before : List Part) (first : Outputs) → emitting.EmitAfter plan before emit.old
        → Gains first
        (outputs_of S.Sink T.Sink U.Sink tape.old map.old messages.old)
        (written (planned plan) emit.old.has_begun before)
        → EmitsObject (F.text feed.old) (F.text feed.new) (F.faults feed.old) (F.faults feed.new)
        (start_at plan emit.old.has_begun before first)
        (outputs_of S.Sink T.Sink U.Sink tape.new map.new messages.new) emit.new result }
    ensures stays { is_some map.new ≡ is_some map.old }
{
    let mut reader = BlockReader::new();
    let mut block = Block::new();
    'items: while reader.next_into(feed, &mut block)? {
        emit.feed(&block, tape, map, messages)?;
    }
    emit.end_file(tape, map, messages)
}
