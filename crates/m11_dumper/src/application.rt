//! The definition of the command line.

ghost use Rattle.std.specs.Prelude.{IfOk};
ghost use Rattle.m11_cli_tasks.specs.Commands.{IsArgument, IsCommand, bottom_rule};
ghost use Rattle.m11_dumper.specs.Application.{application, disassemble_rule, files_rule, load_map_rule, object_rule, source_rule, symbols_rule, tape_rule};

use clap::{Arg, ArgAction, Command};
use m11_cli_tasks::{leaf_command, option_argument, with_argument};
use std::alloc::{AllocError, Global};

/// The command line `m11-dump [-d] [-s] [-o] [-t] [-m] [-b OCTAL] [-y NAMES]... FILE...`. Error: memory was refused.
pub(crate) fn application_command<'a>(alloc: Global) -> Result<Command<'a>, AllocError>
    ensures { IfOk result (IsCommand application) }
{
    let about = "Show what RT-11 objects and absolute loader tapes hold";
    let command = leaf_command(alloc, "m11-dump", about);
    let command = with_argument(command, disassemble_argument(alloc));
    let command = with_argument(command, source_argument(alloc));
    let command = with_argument(command, object_argument(alloc));
    let command = with_argument(command, tape_argument(alloc));
    let command = with_argument(command, load_map_argument(alloc));
    let command = with_argument(command, bottom_argument(alloc));
    let command = with_argument(command, symbols_argument(alloc));
    with_argument(command, files_argument(alloc))
}

// `-d`: show words as instructions.
fn disassemble_argument<'a>(alloc: Global) -> Arg<'a>
    ensures { IsArgument disassemble_rule result }
{
    Arg::new(alloc, "disassemble")
        .short('d')
        .long("disassemble")
        .help("Show words as instructions, one in a line")
        .action(ArgAction::SetTrue)
}

// `-s`: write every tape as a source.
fn source_argument<'a>(alloc: Global) -> Arg<'a>
    ensures { IsArgument source_rule result }
{
    Arg::new(alloc, "source")
        .short('s')
        .long("source")
        .help("Write a tape as a source with labels, to be assembled again")
        .action(ArgAction::SetTrue)
}

// `-o`: read every file as an object.
fn object_argument<'a>(alloc: Global) -> Arg<'a>
    ensures { IsArgument object_rule result }
{
    Arg::new(alloc, "object")
        .short('o')
        .long("object")
        .help("Show files as objects, whatever their first blocks are")
        .action(ArgAction::SetTrue)
}

// `-t`: read every file as a tape, unless `-o` is given too.
fn tape_argument<'a>(alloc: Global) -> Arg<'a>
    ensures { IsArgument tape_rule result }
{
    Arg::new(alloc, "tape")
        .short('t')
        .long("tape")
        .help("Show files as tapes likewise; -o counts before it")
        .action(ArgAction::SetTrue)
}

// `-m`: show the load map of objects.
fn load_map_argument<'a>(alloc: Global) -> Arg<'a>
    ensures { IsArgument load_map_rule result }
{
    Arg::new(alloc, "map")
        .short('m')
        .long("map")
        .help("Show where a link puts the objects: their load map")
        .action(ArgAction::SetTrue)
}

// `-b OCTAL`, as in `m11 link`: the first address of relocatable sections.
fn bottom_argument<'a>(alloc: Global) -> Arg<'a>
    ensures { IsArgument bottom_rule result }
{
    let help = "Where the load map, or the sections of files of -y, begin [default: 1000]";
    option_argument(alloc, "bottom", 'b', "OCTAL", help)
}

// `-y NAMES`, any number of times, as in `m11-trace`: a map, a listing or an object that names addresses.
fn symbols_argument<'a>(alloc: Global) -> Arg<'a>
    ensures { IsArgument symbols_rule result }
{
    let help = "A map, a listing or an object: its names show at a tape's instructions";
    option_argument(alloc, "symbols", 'y', "NAMES", help).action(ArgAction::Append)
}

// `FILE...`: one or more files.
fn files_argument<'a>(alloc: Global) -> Arg<'a>
    ensures { IsArgument files_rule result }
{
    Arg::new(alloc, "files")
        .value_name("FILE")
        .help("The files to show, in order")
        .required(true)
        .action(ArgAction::Append)
}
