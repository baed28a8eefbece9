//! What the words of the command line may be.
ghost use Rattle.std.specs.Prelude.{◌≡◌, false, IfOk};
ghost use Rattle.clap.specs.Words.{app_of, new_app, rule_of, shape_of, with_rule, with_subcommand};
ghost use Rattle.clap.specs.declared.builder.command.Command.TheViews.{out-Command};
ghost use Rattle.zed_words.specs.Grammar.{big_rule, board_rule, check_shape, create_shape, edit_shape, files_rule, merge_shape, option_rule, play_shape, replica_rule, required_rule, save_shape, several_rule, show_shape, top_app, world_rule, zzted_app};

use clap::{Arg, ArgAction, Command};
use std::alloc::{AllocError, Global};

// A word that must be there.
fn required_argument<'a>(alloc: Global, name: &'a str, help: &'a str) -> Arg<'a>
    ensures rule { rule_of result ≡ required_rule name.entry.now }
    ensures local { result.global ≡ false }
{
    Arg::new(alloc, name).required(true).help(help)
}

// One word or more.
fn several_argument<'a>(alloc: Global, name: &'a str, help: &'a str) -> Arg<'a>
    ensures rule { rule_of result ≡ several_rule name.entry.now }
    ensures local { result.global ≡ false }
{
    Arg::new(alloc, name)
        .required(true)
        .num_args(1..)
        .help(help)
}

// A word behind a name with two hyphens.
fn option_argument<'a>(alloc: Global, name: &'a str, value: &'a str, help: &'a str) -> Arg<'a>
    ensures rule { rule_of result ≡ option_rule name.entry.now }
    ensures local { result.global ≡ false }
{
    Arg::new(alloc, name)
        .long(name)
        .value_name(value)
        .help(help)
}

// The edit files that a command reads.
fn files_argument<'a>(alloc: Global) -> Arg<'a>
    ensures rule { rule_of result ≡ files_rule }
    ensures local { result.global ≡ false }
{
    several_argument(alloc, "FILES", "The edit files; stdin is standard input")
}

// The option that takes the larger limit.
fn big_argument<'a>(alloc: Global) -> Arg<'a>
    ensures rule { rule_of result ≡ big_rule }
    ensures local { result.global ≡ false }
{
    Arg::new(alloc, "big")
        .long("big")
        .action(ArgAction::SetTrue)
        .help("Allow boards of up to 32767 bytes, for tools that read more than the 20000 of ZZT")
}

// A command of this name, without arguments.
fn bare_command<'a>(alloc: Global, name: &'a str, about: &'a str) -> Command<'a>
    ensures app { app_of result ≡ new_app name.entry.now }
    ensures local { (out-Command result).has_globals ≡ false }
{
    Command::new(alloc, name).about(about)
}

// A command with one argument more.
fn with_argument<'a>(command: Command<'a>, argument: Arg<'a>) -> Result<Command<'a>, AllocError>
    requires own { argument.global ≡ false }
    requires local { (out-Command command).has_globals ≡ false }
    ensures app { IfOk result (λ c.
        app_of c ≡ with_rule (app_of command.entry) (rule_of argument.entry)) }
    ensures local { IfOk result (λ c. (out-Command c).has_globals ≡ false) }
{
    command.arg(argument)
}

/// `save [--big] OUT FILES...`
fn save_command<'a>(alloc: Global) -> Result<Command<'a>, AllocError>
    ensures shape { IfOk result (λ c. shape_of c ≡ save_shape) }
    ensures local { IfOk result (λ c. (out-Command c).has_globals ≡ false) }
{
    let command = bare_command(alloc, "save", "Write the world file (.zzt) of edit files");
    let command = with_argument(
        command,
        required_argument(
            alloc,
            "OUT",
            "The world file to write; stdout is standard output",
        ),
    )?;
    let command = with_argument(command, files_argument(alloc))?;
    with_argument(command, big_argument(alloc))
}

/// `check [--big] FILES...`
fn check_command<'a>(alloc: Global) -> Result<Command<'a>, AllocError>
    ensures shape { IfOk result (λ c. shape_of c ≡ check_shape) }
    ensures local { IfOk result (λ c. (out-Command c).has_globals ≡ false) }
{
    let command = bare_command(
        alloc,
        "check",
        "Print what looks wrong in the world, and its counts",
    );
    let command = with_argument(command, files_argument(alloc))?;
    with_argument(command, big_argument(alloc))
}

fn world_argument<'a>(alloc: Global) -> Arg<'a>
    ensures rule { rule_of result ≡ world_rule }
    ensures local { result.global ≡ false }
{
    Arg::new(alloc, "WORLD")
        .help(
            "The number of the world: any that you choose, below 2^64. Only edit files of the same number merge",
        )
        .required(true)
        .value_parser(clap::value_parser!(u64))
}

/// `new OUT WORLD [--from FILE] [--name TEXT]`
fn new_command<'a>(alloc: Global) -> Result<Command<'a>, AllocError>
    ensures shape { IfOk result (λ c. shape_of c ≡ create_shape) }
    ensures local { IfOk result (λ c. (out-Command c).has_globals ≡ false) }
{
    let command = bare_command(alloc, "new", "Make the edit file of a new world");
    let command = with_argument(
        command,
        required_argument(
            alloc,
            "OUT",
            "The edit file to write; stdout is standard output",
        ),
    )?;
    let command = with_argument(command, world_argument(alloc))?;
    let command = with_argument(
        command,
        option_argument(
            alloc,
            "from",
            "FILE",
            "Start from this world file instead of an empty title board",
        ),
    )?;
    with_argument(
        command,
        option_argument(
            alloc,
            "name",
            "TEXT",
            "The name of the new world, cut to 20 bytes; a world from a file keeps its own",
        ),
    )
}

fn replica_argument<'a>(alloc: Global) -> Arg<'a>
    ensures rule { rule_of result ≡ replica_rule }
    ensures local { result.global ≡ false }
{
    Arg::new(alloc, "REPLICA")
        .help(
            "The author's number, 1 to 65535; no other author has it, and no other copy that is edited",
        )
        .required(true)
        .value_parser(clap::value_parser!(u16))
}

/// `edit FILE REPLICA WORDS...`
fn edit_command<'a>(alloc: Global) -> Result<Command<'a>, AllocError>
    ensures shape { IfOk result (λ c. shape_of c ≡ edit_shape) }
    ensures local { IfOk result (λ c. (out-Command c).has_globals ≡ false) }
{
    let command = bare_command(alloc, "edit", "Add an action of an author to an edit file");
    let command = with_argument(
        command,
        required_argument(alloc, "FILE", "The edit file to add to"),
    )?;
    let command = with_argument(command, replica_argument(alloc))?;
    with_argument(
        command,
        several_argument(
            alloc,
            "WORDS",
            "The action: board-add NAME, board-remove B, board-name B NAME, rank B VALUE (orders the boards: lower ranks come first), exit B north|south|west|east TO (0 for none), cells B X0 Y0 X1 Y1 ELEMENT COLOUR, stat-add B X Y CYCLE, stat-remove B S, insert B S POS TEXT (| ends a line) or delete B S FROM TO; B is a board's number, 0 for the title, and S a stat's on it, 0 for the player; NAME and TEXT are written as the bytes that they are, while zztool set writes code page 437",
        ),
    )
}

/// `merge OUT WORLD FILES...`
fn merge_command<'a>(alloc: Global) -> Result<Command<'a>, AllocError>
    ensures shape { IfOk result (λ c. shape_of c ≡ merge_shape) }
    ensures local { IfOk result (λ c. (out-Command c).has_globals ≡ false) }
{
    let command = bare_command(alloc, "merge", "Merge edit files of a world into one");
    let command = with_argument(
        command,
        required_argument(
            alloc,
            "OUT",
            "The edit file to write; stdout is standard output",
        ),
    )?;
    let command = with_argument(command, world_argument(alloc))?;
    with_argument(command, files_argument(alloc))
}

// The number of a board.
fn board_argument<'a>(alloc: Global) -> Arg<'a>
    ensures rule { rule_of result ≡ board_rule }
    ensures local { result.global ≡ false }
{
    Arg::new(alloc, "BOARD")
        .help("The number of a board, 0 for the title")
        .required(true)
        .value_parser(clap::value_parser!(u16))
}

/// `show [--big] BOARD FILES...`
fn show_command<'a>(alloc: Global) -> Result<Command<'a>, AllocError>
    ensures shape { IfOk result (λ c. shape_of c ≡ show_shape) }
    ensures local { IfOk result (λ c. (out-Command c).has_globals ≡ false) }
{
    let command = bare_command(alloc, "show", "Print a picture of a board");
    let command = with_argument(command, board_argument(alloc))?;
    let command = with_argument(command, files_argument(alloc))?;
    with_argument(command, big_argument(alloc))
}

/// `play [--big] BOARD WORDS FILES...`
fn play_command<'a>(alloc: Global) -> Result<Command<'a>, AllocError>
    ensures shape { IfOk result (λ c. shape_of c ≡ play_shape) }
    ensures local { IfOk result (λ c. (out-Command c).has_globals ≡ false) }
{
    let command = bare_command(
        alloc,
        "play",
        "Play a board by keys from standard input: n s e w move, N S E W shoot, . waits",
    );
    let command = with_argument(command, board_argument(alloc))?;
    let command = with_argument(
        command,
        required_argument(
            alloc,
            "WORDS",
            "A file of numbers for chance: two bytes each, the low one first",
        ),
    )?;
    let command = with_argument(command, files_argument(alloc))?;
    with_argument(command, big_argument(alloc))
}

// The program without its commands.
fn top_command<'a>(alloc: Global) -> Result<Command<'a>, AllocError>
    ensures { IfOk result (λ c. app_of c ≡ top_app) }
{
    Command::new(alloc, "zzted")
        .about(
            "Makes, edits, merges, shows and plays edit files of a ZZT world; without any words: save stdout stdin",
        )
        .no_binary_name(true)
        .subcommand_required(true)
        .bin_name("zzted")
}

// A program with one command more.
fn with_command<'a>(program: Command<'a>, command: Command<'a>) -> Result<Command<'a>, AllocError>
    requires local { (out-Command command).has_globals ≡ false }
    ensures { IfOk result (λ c.
        app_of c ≡ with_subcommand (app_of program.entry) (shape_of command.entry)) }
{
    program.subcommand(command)
}

/// The words after the program's name.
pub(crate) fn zzted_command<'a>(alloc: Global) -> Result<Command<'a>, AllocError>
    ensures { IfOk result (λ c. app_of c ≡ zzted_app) }
{
    let program = top_command(alloc)?;
    let program = with_command(program, save_command(alloc)?)?;
    let program = with_command(program, check_command(alloc)?)?;
    let program = with_command(program, new_command(alloc)?)?;
    let program = with_command(program, edit_command(alloc)?)?;
    let program = with_command(program, merge_command(alloc)?)?;
    let program = with_command(program, show_command(alloc)?)?;
    with_command(program, play_command(alloc)?)
}
