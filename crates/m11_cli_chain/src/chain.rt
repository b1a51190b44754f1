//! Assembles, links and loads sources. (MACRO-11 Language Reference Manual, "Relocation and linking"; RT-11 Volume and File Formats
//! Manual, "Object file format" and "Absolute binary file format".)

ghost use Rattle.std.specs.Prelude.{◌≡◌, ◌≢◌, ◌≤◌, List, map, Ok, IfOk, IfErr};
ghost use Rattle.m11_asm_faults.specs.declared.fault.AsmFault.TheVariants as assembly;
ghost use Rattle.m11_base_writes.specs.Outputs.{outputs_of};
ghost use Rattle.m11_base.specs.Devices.{Bytes};
ghost use Rattle.m11_cpu_machine.specs.Memory.{least_words, most_words};
ghost use Rattle.m11_link_layout.specs.declared.fault.LinkFault.TheVariants as linking;
ghost use Rattle.m11_link.specs.Objects.{AreItems, Item, outcome};
ghost use Rattle.m11_link_laws.specs.Runs as links;
ghost use Rattle.m11_base_writes.specs.Passes.{AreKnown};
ghost use Rattle.m11_cli_chain.specs.Assemblies.{AssemblyYields};
ghost use Rattle.m11_cli_chain.specs.Chain.{Chains};
ghost use Rattle.m11_cli_chain.specs.Exact.{ChainsExactly};
ghost use Rattle.m11_cli_chain.specs.Steps.{AreObjectsOf, AssembliesFail, AssemblyFails, IsObjectOf, IsTapeOfObjects, LinkFails, LoadFails, LoadsNew, NeverFail, of_assembly, of_link, whole_text};
ghost use Rattle.m11_cli_chain.specs.declared.fault.ChainFault.TheVariants.{NoMemory};

use crate::fault::ChainFault;
use crate::laws::{known_sources_decide_the_assembly, live_lines_give_consistent_sources};
use m11_asm::{AsmDone, asm_run};
use m11_asm_faults::AsmFault;
use m11_base::{Feed, MemoryFeed, MemorySink, Sink};
use m11_cli_image::{
    accepted_links_are_within_the_sizes, links_are_refused_for_sizes_alone,
    links_write_the_texts_of_their_sources, loads_of_links_yield_the_image,
    tapes_have_the_sizes_of_their_texts,
};
use m11_cpu::Machine;
use m11_link::{LinkDone, link_run, objects_yield_items};
use m11_link_laws::known_objects_decide_the_run;
use m11_link_layout::LinkFault;
use std::alloc::Global;

/// A machine into which a tape was loaded, and the start of its program.
#[derive(Drop)]
pub struct Chained {
    /// The machine, before its first step.
    pub machine: Machine,
    /// The start of the program; an odd address starts nothing.
    pub start: u16,
}

/// Assembles the texts of each list of `sources` together, links the objects, with relocatable sections that begin at `bottom`, and loads
/// the tape into a new machine with `words` words of memory, 4,096 to 28,672. All of this happens in memory.
///
/// The machine then holds the image of the sources: at each address the last byte that the sources put there, and 0 where they put none.
/// The machine's registers and status are those of a new machine, and the start is the image's, or 1 if the image has none. This holds
/// whichever lines are flagged and whatever the linker reports.
///
/// Faults: `Assembly` with the first refusal of the first list that is refused; `Link` with the first refusal of the link; `Load` with
/// `OutsideMemory` if the image has a byte outside memory, or with `TooMuch` if the tape has more than 4,194,304 bytes; `NoMemory` whenever
/// memory is refused. There is no device that could fail.
///
/// A link is refused only for sizes: `TooManyModules` for more than 32 lists, `TooManySections` or `TooManyGlobals` for more than 256 names
/// of sections or 8,192 of globals, `TooMuch` for an object of more than 4,194,304 bytes, `TooLarge` for a relocatable section that ends
/// past octal 160000, and `TextOutside` if a source has a byte at octal 177777, the last location of a section.
pub fn run_chain(
    alloc: Global,
    sources: &[Vec<Vec<u8>>],
    bottom: u16,
    words: u16,
) -> Result<Chained, ChainFault>
    requires least { least_words ≤ words }
    requires most { words ≤ most_words }
    ensures chains { Chains (map (λ texts. map (λ text. text.items) texts.items) sources.now) bottom words result }
    ensures exact { ChainsExactly (map (λ texts. map (λ text. text.items) texts.items) sources.now) bottom words result }
{
    links_write_the_texts_of_their_sources();
    live_lines_give_consistent_sources();
    links_are_refused_for_sizes_alone();
    loads_of_links_yield_the_image();
    accepted_links_are_within_the_sizes();
    tapes_have_the_sizes_of_their_texts();
    let objects = assemble_all(alloc, sources)?;
    let tape = link_all(alloc, objects.as_slice(), bottom)?;
    load(alloc, tape.as_slice(), words)
}

// A feed for each text, in order. Error: `NoMemory`.
fn feeds<'a>(alloc: Global, texts: &'a [Vec<u8>]) -> Result<Vec<MemoryFeed<'a>>, ChainFault>
    ensures known { IfOk result (λ feeds. map ⟦<MemoryFeed<'a> as Feed>⟧.text feeds.items
        ≡ map whole_text (map (λ text. text.items) texts.entry.now)) }
    ensures fails { IfErr result (λ fault. fault ≡ NoMemory) }
{
    let mut feeds = Vec::new(alloc);
    let mut rest = texts;
    'texts: while let [text, others @ ..] = rest {
        match feeds.push(MemoryFeed::new(text.as_slice())) {
            Ok(()) => {}
            Err(_) => return Err(ChainFault::NoMemory),
        }
        rest = others;
    }
    Ok(feeds)
}

// Runs an assembly from any feeds to any sinks. If the feeds never fail, the fault isn't `Read`. If both passes read the same known texts,
// these decide the object and the first refusal; any other fault is that of a device or of memory.
fn run_assembly<F: Feed, S: Sink, T: Sink, U: Sink>(
    alloc: Global,
    first: &mut [F],
    second: &mut [F],
    object: &mut S,
    listing: &mut Option<T>,
    messages: &mut U,
) -> Result<AsmDone, AsmFault>
    ensures reads { NeverFail F.faults → IfErr result (λ fault. fault ≢ assembly.Read) }
    ensures yields { (texts : List Bytes) → AreKnown F.text first.old texts → AreKnown F.text second.old texts
        → AssemblyYields texts (outputs_of S.Sink T.Sink U.Sink object.old listing.old messages.old)
        (outputs_of S.Sink T.Sink U.Sink object.new listing.new messages.new) result }
{
    known_sources_decide_the_assembly::<F>();
    asm_run(alloc, first, second, object, listing, messages)
}

// The fault of an assembly in memory, as a fault of a chain. A failed write becomes `NoMemory`, since an output in memory fails only if
// memory is refused.
fn assembly_fault(fault: AsmFault) -> ChainFault
    ensures { result ≡ of_assembly fault }
{
    match fault {
        AsmFault::NoMemory | AsmFault::Write(_) => ChainFault::NoMemory,
        other => ChainFault::Assembly(other),
    }
}

// Assembles texts together into an object. Errors: `Assembly` with the first refusal of the texts; `NoMemory`.
fn assemble(alloc: Global, texts: &[Vec<u8>]) -> Result<Vec<u8>, ChainFault>
    ensures object { IfOk result (λ object. IsObjectOf (map (λ text. text.items) texts.now) object.items) }
    ensures fails { IfErr result (AssemblyFails (map (λ text. text.items) texts.now)) }
{
    let mut first = feeds(alloc, texts)?;
    let mut second = feeds(alloc, texts)?;
    let mut object = MemorySink::new(alloc);
    let mut listing: Option<MemorySink> = None;
    let mut messages = MemorySink::new(alloc);
    match run_assembly(
        alloc,
        first.as_mut_slice(),
        second.as_mut_slice(),
        &mut object,
        &mut listing,
        &mut messages,
    ) {
        Ok(_) => Ok(object.into_bytes()),
        Err(fault) => Err(assembly_fault(fault)),
    }
}

// Assembles each list of texts into an object, in order. Errors: `Assembly` with the first refusal of the first list that is refused;
// `NoMemory`.
fn assemble_all(alloc: Global, sources: &[Vec<Vec<u8>>]) -> Result<Vec<Vec<u8>>, ChainFault>
    ensures objects { IfOk result (λ objects. AreObjectsOf (map (λ texts. map (λ text. text.items) texts.items) sources.now)
        (map (λ object. object.items) objects.items)) }
    ensures fails { IfErr result (AssembliesFail (map (λ texts. map (λ text. text.items) texts.items) sources.now)) }
{
    let mut objects = Vec::new(alloc);
    let mut rest = sources;
    'sources: while let [texts, others @ ..] = rest {
        let object = assemble(alloc, texts.as_slice())?;
        match objects.push(object) {
            Ok(()) => {}
            Err(_) => return Err(ChainFault::NoMemory),
        }
        rest = others;
    }
    Ok(objects)
}

// Runs a link from any feeds to any sinks. If the feeds never fail, the fault isn't `Read`. If both passes read the same known objects,
// these decide what is written and the first refusal; any other fault is that of a device or of memory.
fn run_link<F: Feed, S: Sink, T: Sink, U: Sink>(
    alloc: Global,
    first: &mut [F],
    second: &mut [F],
    bottom: u16,
    tape: &mut S,
    map: &mut Option<T>,
    messages: &mut U,
) -> Result<LinkDone, LinkFault>
    ensures reads { NeverFail F.faults → IfErr result (λ fault. fault ≢ linking.Read) }
    ensures decided { (objects : List Bytes) (items : List Item) → AreItems objects items → AreKnown F.text first.old objects
        → AreKnown F.text second.old objects
        → links.IsDecided bottom (outcome bottom items) (outputs_of S.Sink T.Sink U.Sink tape.old map.old messages.old)
        (outputs_of S.Sink T.Sink U.Sink tape.new map.new messages.new) result }
{
    known_objects_decide_the_run::<F>();
    link_run(alloc, first, second, bottom, tape, map, messages)
}

// The fault of a link in memory, as a fault of a chain. A failed write becomes `NoMemory`, since an output in memory fails only if memory
// is refused.
fn link_fault(fault: LinkFault) -> ChainFault
    ensures { result ≡ of_link fault }
{
    match fault {
        LinkFault::NoMemory | LinkFault::Write(_) => ChainFault::NoMemory,
        other => ChainFault::Link(other),
    }
}

// Links objects into a tape. Errors: `Link` with the first refusal of the link; `NoMemory`.
fn link_all(alloc: Global, objects: &[Vec<u8>], bottom: u16) -> Result<Vec<u8>, ChainFault>
    ensures tape { IfOk result (λ tape. IsTapeOfObjects bottom (map (λ object. object.items) objects.now) tape.items) }
    ensures fails { IfErr result (LinkFails bottom (map (λ object. object.items) objects.now)) }
{
    objects_yield_items();
    let mut first = feeds(alloc, objects)?;
    let mut second = feeds(alloc, objects)?;
    let mut tape = MemorySink::new(alloc);
    let mut map: Option<MemorySink> = None;
    let mut messages = MemorySink::new(alloc);
    match run_link(
        alloc,
        first.as_mut_slice(),
        second.as_mut_slice(),
        bottom,
        &mut tape,
        &mut map,
        &mut messages,
    ) {
        Ok(_) => Ok(tape.into_bytes()),
        Err(fault) => Err(link_fault(fault)),
    }
}

// Loads a tape into a new machine with `words` words of memory. Errors: `Load` with the fault that stopped the load; `NoMemory`.
fn load(alloc: Global, tape: &[u8], words: u16) -> Result<Chained, ChainFault>
    requires least { least_words ≤ words }
    requires most { words ≤ most_words }
    ensures loads { IfOk result (λ done. LoadsNew tape.now words done.machine (Ok done.start)) }
    ensures fails { IfErr result (LoadFails tape.now words) }
{
    let mut machine = match Machine::new(alloc, words) {
        Ok(machine) => machine,
        Err(_) => return Err(ChainFault::NoMemory),
    };
    match machine.load(&mut MemoryFeed::new(tape)) {
        Ok(start) => Ok(Chained {
            machine,
            start: start.address,
        }),
        Err(fault) => Err(ChainFault::Load(fault)),
    }
}
