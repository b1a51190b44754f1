//! The definition of the command line.

ghost use Rattle.std.specs.Prelude.{IfOk};
ghost use Rattle.m11_cli_tasks.specs.Commands.{IsArgument, IsCommand, bottom_rule};
ghost use Rattle.m11_tracer.specs.Application.{application, breakpoint_rule, from_rule, last_rule, lines_rule, range_rule, symbols_rule, text_rule, watch_rule};

use clap::{Arg, ArgAction, Command, value_parser};
use m11_cli_tasks::{
    leaf_command, option_argument, start_argument, steps_argument, tape_argument, with_argument,
    words_argument,
};
use std::alloc::{AllocError, Global};

/// The command line `m11-trace [-n STEPS] [-s OCTAL] [-k WORDS] [-f FROM] [-l LAST] [-o FILE]
/// [-p OCTAL[:COUNT]]... [-w OCTAL[:COUNT]]... [-r FIRST[:LAST]]... [-y NAMES]... [-t] [-b OCTAL] TAPE`. Error: memory was refused.
pub(crate) fn application_command<'a>(alloc: Global) -> Result<Command<'a>, AllocError>
    ensures { IfOk result (IsCommand application) }
{
    let about = "Load a tape into a PDP-11/40 and run it, with a line for each step";
    let command = leaf_command(alloc, "m11-trace", about);
    let command = with_argument(command, steps_argument(alloc));
    let command = with_argument(command, start_argument(alloc));
    let command = with_argument(command, words_argument(alloc));
    let command = with_argument(command, from_argument(alloc));
    let command = with_argument(command, last_argument(alloc));
    let command = with_argument(command, lines_argument(alloc));
    let command = with_argument(command, breakpoint_argument(alloc));
    let command = with_argument(command, watch_argument(alloc));
    let command = with_argument(command, range_argument(alloc));
    let command = with_argument(command, symbols_argument(alloc));
    let command = with_argument(command, text_argument(alloc));
    let command = with_argument(command, bottom_argument(alloc));
    with_argument(command, tape_argument(alloc))
}

// `-f FROM`. The parser reads it in decimal, and refuses a number above 1,000,000,000.
fn from_argument<'a>(alloc: Global) -> Arg<'a>
    ensures { IsArgument from_rule result }
{
    let help = "The step whose line is the first, in decimal: 0 to 1000000000 [default: 0]";
    let bounds = value_parser!(u32).range(0..=1_000_000_000);
    option_argument(alloc, "from", 'f', "FROM", help).value_parser(bounds)
}

// `-l LAST`. The parser reads it in decimal, and refuses any number outside 1 to 65,535.
fn last_argument<'a>(alloc: Global) -> Arg<'a>
    ensures { IsArgument last_rule result }
{
    let help = "Show only the last LAST steps, in decimal: 1 to 65535; -f then has no effect";
    let bounds = value_parser!(u32).range(1..=65_535);
    option_argument(alloc, "last", 'l', "LAST", help).value_parser(bounds)
}

// `-o FILE`. Without it the lines of the steps go to standard error.
fn lines_argument<'a>(alloc: Global) -> Arg<'a>
    ensures { IsArgument lines_rule result }
{
    option_argument(
        alloc,
        "output",
        'o',
        "FILE",
        "The file to write the lines of the steps to",
    )
}

// `-p PLACE[:COUNT]`, any number of times. The parser accepts any text. Addresses and counts are checked once the parser has accepted all
// words, so a fault of the words is reported first; names are looked up once the files of `-y` have been read.
fn breakpoint_argument<'a>(alloc: Global) -> Arg<'a>
    ensures { IsArgument breakpoint_rule result }
{
    let help =
        "An address to stop at the COUNTth time: even, up to 157776, or a name of -y, with +OCTAL";
    option_argument(alloc, "place", 'p', "PLACE[:COUNT]", help).action(ArgAction::Append)
}

// `-w PLACE[:COUNT]`, any number of times. The parser accepts any text, as for `-p`.
fn watch_argument<'a>(alloc: Global) -> Arg<'a>
    ensures { IsArgument watch_rule result }
{
    let help = "A word to stop at, after the COUNTth step that changes it: an address as of -p";
    option_argument(alloc, "watch", 'w', "PLACE[:COUNT]", help).action(ArgAction::Append)
}

// `-r FIRST[:LAST]`, any number of times. The parser accepts any text, as for `-p`.
fn range_argument<'a>(alloc: Global) -> Arg<'a>
    ensures { IsArgument range_rule result }
{
    let help = "A part of memory to show at the end: an address as of -p, or two";
    option_argument(alloc, "range", 'r', "FIRST[:LAST]", help).action(ArgAction::Append)
}

// `-y NAMES`, any number of times. The parser accepts any path.
fn symbols_argument<'a>(alloc: Global) -> Arg<'a>
    ensures { IsArgument symbols_rule result }
{
    let help = "A map, a listing or an object: addresses are shown by its names too";
    option_argument(alloc, "symbols", 'y', "NAMES", help).action(ArgAction::Append)
}

// `-t`: show the texts of lines of listings.
fn text_argument<'a>(alloc: Global) -> Arg<'a>
    ensures { IsArgument text_rule result }
{
    Arg::new(alloc, "text")
        .short('t')
        .long("text")
        .help("Show the text of each step's line in the listings of -y")
        .action(ArgAction::SetTrue)
}

// `-b OCTAL`, as in `m11 link`. The parser accepts any text, as for `-p`.
fn bottom_argument<'a>(alloc: Global) -> Arg<'a>
    ensures { IsArgument bottom_rule result }
{
    let help = "Where the sections of files of -y begin: an address as of -p [default: 1000]";
    option_argument(alloc, "bottom", 'b', "OCTAL", help)
}
