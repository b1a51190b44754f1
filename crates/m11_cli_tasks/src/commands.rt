//! The commands and arguments of the command line, with a function for each.

ghost use Rattle.std.specs.Prelude.{IfOk};
ghost use Rattle.clap.specs.Words.{App, Rule, new_app, with_rule, with_subcommand};
ghost use Rattle.m11_cli_tasks.specs.Commands.{IsArgument, IsCommand, application, asm_app, bare, bottom_rule, link_app, listing_rule, map_rule, objects_rule, operand_rule, option_rule, output_rule, sim_app, sources_rule, start_rule, steps_rule, tape_rule, words_rule};

use clap::{Arg, ArgAction, Command, value_parser};
use std::alloc::{AllocError, Global};

/// The command line of `m11`, which requires one of its three commands. Error: memory was refused.
pub(crate) fn application_command<'a>(alloc: Global) -> Result<Command<'a>, AllocError>
    ensures { IfOk result (IsCommand application) }
{
    let command = with_command(bare_command(alloc), asm_command(alloc))?;
    let command = with_command(command, link_command(alloc))?;
    with_command(command, sim_command(alloc))
}

// A command with one more subcommand. Error: memory was refused, for the subcommand itself or to add it.
fn with_command<'a>(
    command: Command<'a>,
    more: Result<Command<'a>, AllocError>,
) -> Result<Command<'a>, AllocError>
    ensures { (app : App) → (sub : App) → IsCommand app command.entry → IfOk more.entry (IsCommand sub)
        → IfOk result (IsCommand (with_subcommand app sub.top)) }
{
    match more {
        Ok(added) => command.subcommand(added),
        Err(error) => {
            drop(command);
            Err(error)
        }
    }
}

// `m11` without its commands. It has no command `help`, so the word `help` is refused; `-h` and `--help` print help.
fn bare_command<'a>(alloc: Global) -> Command<'a>
    ensures { IsCommand bare result }
{
    Command::new(alloc, "m11")
        .about("A MACRO-11 assembler, a linker and a PDP-11/40 simulator")
        .disable_help_subcommand(true)
        .subcommand_required(true)
}

/// A command without its arguments, which `with_argument` adds one by one. The result is always `Ok`.
pub fn leaf_command<'a>(
    alloc: Global,
    name: &'a str,
    about: &'a str,
) -> Result<Command<'a>, AllocError>
    ensures { IfOk result (IsCommand (new_app name.entry.now)) }
{
    Ok(Command::new(alloc, name).about(about))
}

/// A command with one more argument. Error: memory was refused, for the command itself or to add the argument.
pub fn with_argument<'a>(
    command: Result<Command<'a>, AllocError>,
    argument: Arg<'a>,
) -> Result<Command<'a>, AllocError>
    ensures { (app : App) → (rule : Rule) → IfOk command.entry (IsCommand app) → IsArgument rule argument.entry
        → IfOk result (IsCommand (with_rule app rule)) }
{
    match command {
        Ok(command) => command.arg(argument),
        Err(error) => Err(error),
    }
}

/// `asm -o OBJ [-l LST] SOURCE...`.
fn asm_command<'a>(alloc: Global) -> Result<Command<'a>, AllocError>
    ensures { IfOk result (IsCommand asm_app) }
{
    let about = "Assemble sources, one text after the other, into an object";
    let command = leaf_command(alloc, "asm", about);
    let command = with_argument(
        command,
        output_argument(alloc, "OBJ", "The object to write"),
    );
    let command = with_argument(command, listing_argument(alloc));
    with_argument(command, sources_argument(alloc))
}

/// `link -o TAPE [-m MAP] [-b OCTAL] OBJECT...`.
fn link_command<'a>(alloc: Global) -> Result<Command<'a>, AllocError>
    ensures { IfOk result (IsCommand link_app) }
{
    let command = leaf_command(alloc, "link", "Link objects into a tape");
    let command = with_argument(command, output_argument(alloc, "TAPE", "The tape to write"));
    let command = with_argument(command, map_argument(alloc));
    let command = with_argument(command, bottom_argument(alloc));
    with_argument(command, objects_argument(alloc))
}

/// `sim [-n STEPS] [-s OCTAL] [-k WORDS] TAPE`.
fn sim_command<'a>(alloc: Global) -> Result<Command<'a>, AllocError>
    ensures { IfOk result (IsCommand sim_app) }
{
    let command = leaf_command(alloc, "sim", "Load a tape into a PDP-11/40 and run it");
    let command = with_argument(command, steps_argument(alloc));
    let command = with_argument(command, start_argument(alloc));
    let command = with_argument(command, words_argument(alloc));
    with_argument(command, tape_argument(alloc))
}

/// An option with one value. The option's name is also the key under which its value is found.
pub fn option_argument<'a>(
    alloc: Global,
    name: &'a str,
    letter: char,
    value: &'a str,
    help: &'a str,
) -> Arg<'a>
    ensures { IsArgument (option_rule name.entry.now letter) result }
{
    Arg::new(alloc, name)
        .short(letter)
        .long(name)
        .value_name(value)
        .help(help)
        .action(ArgAction::Set)
}

// A required argument that isn't an option: exactly one word with `Set`, one or more with `Append`.
fn operand_argument<'a>(
    alloc: Global,
    name: &'a str,
    action: ArgAction,
    value: &'a str,
    help: &'a str,
) -> Arg<'a>
    ensures { IsArgument (operand_rule name.entry.now action) result }
{
    Arg::new(alloc, name)
        .value_name(value)
        .help(help)
        .required(true)
        .action(action)
}

/// `-o FILE`, which is required: the file to write.
fn output_argument<'a>(alloc: Global, value: &'a str, help: &'a str) -> Arg<'a>
    ensures { IsArgument output_rule result }
{
    option_argument(alloc, "output", 'o', value, help).required(true)
}

/// `-l LST`. Without it there is no listing.
fn listing_argument<'a>(alloc: Global) -> Arg<'a>
    ensures { IsArgument listing_rule result }
{
    option_argument(alloc, "listing", 'l', "LST", "The listing to write")
}

/// `SOURCE...`: one or more.
fn sources_argument<'a>(alloc: Global) -> Arg<'a>
    ensures { IsArgument sources_rule result }
{
    let help = "The sources to assemble, in order";
    operand_argument(alloc, "sources", ArgAction::Append, "SOURCE", help)
}

/// `-m MAP`. Without it there is no map.
fn map_argument<'a>(alloc: Global) -> Arg<'a>
    ensures { IsArgument map_rule result }
{
    option_argument(alloc, "map", 'm', "MAP", "The map to write")
}

/// `-b OCTAL`, the first address of relocatable sections. The parser accepts any text: the address is read only when the whole command line
/// is accepted, so that the parser's faults are reported before the address's.
fn bottom_argument<'a>(alloc: Global) -> Arg<'a>
    ensures { IsArgument bottom_rule result }
{
    let help = "Where relocatable sections begin: even, at most 157776 [default: 1000]";
    option_argument(alloc, "bottom", 'b', "OCTAL", help)
}

/// `OBJECT...`: one or more.
fn objects_argument<'a>(alloc: Global) -> Arg<'a>
    ensures { IsArgument objects_rule result }
{
    let help = "The objects to link, in order";
    operand_argument(alloc, "objects", ArgAction::Append, "OBJECT", help)
}

/// `-n STEPS`, the limit of steps. The parser reads it in decimal, and refuses any number outside 0 to 1,000,000,000.
pub fn steps_argument<'a>(alloc: Global) -> Arg<'a>
    ensures { IsArgument steps_rule result }
{
    let help = "The most steps to make, in decimal: 0 to 1000000000 [default: 1000000]";
    let bounds = value_parser!(u32).range(0..=1_000_000_000);
    option_argument(alloc, "steps", 'n', "STEPS", help).value_parser(bounds)
}

/// `-s OCTAL`, the start address. The parser accepts any text, as for `-b`.
pub fn start_argument<'a>(alloc: Global) -> Arg<'a>
    ensures { IsArgument start_rule result }
{
    let help = "Where to start in place of the tape's start: even, at most 157776";
    option_argument(alloc, "start", 's', "OCTAL", help)
}

/// `-k WORDS`, the size of memory in words. The parser reads it in decimal, and refuses any number outside 4,096 to 28,672.
pub fn words_argument<'a>(alloc: Global) -> Arg<'a>
    ensures { IsArgument words_rule result }
{
    let help = "The words of memory, in decimal: 4096 to 28672 [default: 28672]";
    let bounds = value_parser!(u32).range(4_096..=28_672);
    option_argument(alloc, "words", 'k', "WORDS", help).value_parser(bounds)
}

/// `TAPE`: exactly one.
pub fn tape_argument<'a>(alloc: Global) -> Arg<'a>
    ensures { IsArgument tape_rule result }
{
    operand_argument(
        alloc,
        "tape",
        ArgAction::Set,
        "TAPE",
        "The tape to load and run",
    )
}
