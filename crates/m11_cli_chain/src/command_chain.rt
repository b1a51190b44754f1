//! What assemblies, a link and a run make together.

ghost use Rattle.std.specs.Prelude.{List};
ghost use Rattle.m11_base.specs.Devices.{Bytes};
ghost use Rattle.m11_cli_reports.specs.Streams.{Store};
ghost use Rattle.m11_cli_chain.specs.CommandChain.{AreTexts, AsmCall, CommandsChain, LinkCall, SimCall, YieldsChain};

use crate::commands::{
    assemblies_leave_the_objects_of_their_sources, links_leave_the_tapes_of_their_objects,
    runs_begin_with_the_image_of_their_sources,
};
use m11_cli_image::{
    accepted_links_are_within_the_sizes, links_write_the_texts_of_their_sources,
    loads_of_links_yield_the_image, tapes_have_the_sizes_of_their_texts,
};

/// If `command` assembles the modules of a program, one after another, links their objects in the same order, and runs the tape, and each
/// call succeeds, then the tape's file has the tape of the sources that the texts of the modules define, and the run begins with the machine
/// that a chain of these texts yields: a new machine, but that it holds the image of the sources. No file may be written over before it is
/// read, as `CommandsChain` says.
pub fn commands_yield_what_a_chain_of_their_texts_yields()
    ensures { (first : Store) (assemblies : List AsmCall) (linking : LinkCall) (running : SimCall) (texts : List (List Bytes))
        → CommandsChain first assemblies linking running → AreTexts first assemblies texts → YieldsChain texts linking running }
{
    assemblies_leave_the_objects_of_their_sources();
    links_leave_the_tapes_of_their_objects();
    runs_begin_with_the_image_of_their_sources();
    links_write_the_texts_of_their_sources();
    loads_of_links_yield_the_image();
    accepted_links_are_within_the_sizes();
    tapes_have_the_sizes_of_their_texts();
}
