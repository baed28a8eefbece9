//! What the words of the command line may be.
ghost use Rattle.std.specs.Prelude.{◌≡◌, codes, false, IfOk};
ghost use Rattle.clap.specs.Words.{app_of, new_app, rule_of, shape_of, with_rule, with_subcommand};
ghost use Rattle.clap.specs.declared.builder.command.Command.TheViews.{out-Command};
ghost use Rattle.zed_tool_words.specs.Grammar.{any_rule, cell_rule, compare_shape, flag_rule, lint_shape, list_shape, log_shape, log_shape_by_place, log_shape_of_files, number_option, number_rule, open_shape, option_rule, page_shape, play_shape, program_shape, required_rule, set_shape, several_rule, show_shape, show_shape_of_board, take_shape, tool_app, top_app, trailing_rule, undo_shape, undo_shape_by_place, undo_shape_by_time, undo_shape_of_file, undo_shape_of_pull};

use crate::release::VERSION;
use clap::{Arg, ArgAction, Command};
use std::alloc::{AllocError, Global};

// A word that must be there.
fn required_argument<'a>(alloc: Global, name: &'a str, help: &'a str) -> Arg<'a>
    ensures rule { rule_of result ≡ required_rule name.entry.now }
    ensures local { result.global ≡ false }
{
    Arg::new(alloc, name).required(true).help(help)
}

// One word or more.
fn several_argument<'a>(alloc: Global, name: &'a str, help: &'a str) -> Arg<'a>
    ensures rule { rule_of result ≡ several_rule name.entry.now }
    ensures local { result.global ≡ false }
{
    Arg::new(alloc, name)
        .required(true)
        .num_args(1..)
        .help(help)
}

// Any number of words.
fn any_argument<'a>(alloc: Global, name: &'a str, help: &'a str) -> Arg<'a>
    ensures rule { rule_of result ≡ any_rule name.entry.now }
    ensures local { result.global ≡ false }
{
    Arg::new(alloc, name).num_args(1..).help(help)
}

// A word behind a name with two hyphens.
fn option_argument<'a>(alloc: Global, name: &'a str, value: &'a str, help: &'a str) -> Arg<'a>
    ensures rule { rule_of result ≡ option_rule name.entry.now }
    ensures local { result.global ≡ false }
{
    Arg::new(alloc, name)
        .long(name)
        .value_name(value)
        .help(help)
}

// A moment behind a name with two hyphens.
fn moment_argument<'a>(alloc: Global, name: &'a str, help: &'a str) -> Arg<'a>
    ensures rule { rule_of result ≡ option_rule name.entry.now }
    ensures local { result.global ≡ false }
{
    option_argument(alloc, name, "TIME", help)
}

// A number behind a name with two hyphens.
fn number_argument<'a>(alloc: Global, name: &'a str, value: &'a str, help: &'a str) -> Arg<'a>
    ensures rule { rule_of result ≡ number_option name.entry.now }
    ensures local { result.global ≡ false }
{
    option_argument(alloc, name, value, help).value_parser(clap::value_parser!(u16))
}

// A name with two hyphens, without a value.
fn flag_argument<'a>(alloc: Global, name: &'a str, help: &'a str) -> Arg<'a>
    ensures rule { rule_of result ≡ flag_rule name.entry.now }
    ensures local { result.global ≡ false }
{
    Arg::new(alloc, name)
        .long(name)
        .action(ArgAction::SetTrue)
        .help(help)
}

// A number that must be there.
fn number_word<'a>(alloc: Global, name: &'a str, help: &'a str) -> Arg<'a>
    ensures rule { rule_of result ≡ number_rule name.entry.now }
    ensures local { result.global ≡ false }
{
    required_argument(alloc, name, help).value_parser(clap::value_parser!(u16))
}

// One word or more, of which all but the first may begin with a hyphen.
fn trailing_argument<'a>(alloc: Global, name: &'a str, help: &'a str) -> Arg<'a>
    ensures rule { rule_of result ≡ trailing_rule name.entry.now }
    ensures local { result.global ≡ false }
{
    several_argument(alloc, name, help).trailing_var_arg(true)
}

fn replica_argument<'a>(alloc: Global) -> Arg<'a>
    ensures rule { rule_of result ≡ number_rule (codes "REPLICA") }
    ensures local { result.global ≡ false }
{
    number_word(
        alloc,
        "REPLICA",
        "The author's number, 1 to 65535; no other author has it, and no other copy that is edited",
    )
}

fn cell_argument<'a>(alloc: Global, help: &'a str) -> Arg<'a>
    ensures rule { rule_of result ≡ cell_rule }
    ensures local { result.global ≡ false }
{
    Arg::new(alloc, "cell")
        .long("cell")
        .value_names(&["B", "X", "Y"])
        .help(help)
}

// Edit files that are read.
fn files_argument<'a>(alloc: Global) -> Arg<'a>
    ensures rule { rule_of result ≡ several_rule (codes "FILES") }
    ensures local { result.global ≡ false }
{
    several_argument(alloc, "FILES", "The edit files; stdin is standard input")
}

// A command of this name, without arguments.
fn bare_command<'a>(alloc: Global, name: &'a str, about: &'a str) -> Command<'a>
    ensures app { app_of result ≡ new_app name.entry.now }
    ensures local { (out-Command result).has_globals ≡ false }
{
    Command::new(alloc, name).about(about)
}

// A command with one argument more.
fn with_argument<'a>(command: Command<'a>, argument: Arg<'a>) -> Result<Command<'a>, AllocError>
    requires own { argument.global ≡ false }
    requires local { (out-Command command).has_globals ≡ false }
    ensures app { IfOk result (λ c.
        app_of c ≡ with_rule (app_of command.entry) (rule_of argument.entry)) }
    ensures local { IfOk result (λ c. (out-Command c).has_globals ≡ false) }
{
    command.arg(argument)
}

/// `open [--until TIME] [--force] FILE WORLD`
fn open_command<'a>(alloc: Global) -> Result<Command<'a>, AllocError>
    ensures shape { IfOk result (λ c. shape_of c ≡ open_shape) }
    ensures local { IfOk result (λ c. (out-Command c).has_globals ≡ false) }
{
    let command = bare_command(
        alloc,
        "open",
        "Write the world file of an edit file, to draw in with another editor",
    );
    let command = with_argument(command, required_argument(alloc, "FILE", "The edit file"))?;
    let command = with_argument(
        command,
        required_argument(
            alloc,
            "WORLD",
            "The world file to write, with WORLD.base beside it: the edits that take compares with",
        ),
    )?;
    let command = with_argument(
        command,
        moment_argument(
            alloc,
            "until",
            "Write the world as it was at this time: the first number of a line of log, or the first two, such as 6.1",
        ),
    )?;
    with_argument(
        command,
        flag_argument(alloc, "force", "Replace a drawing that wasn't taken"),
    )
}

/// `take [--force] [--base BASE] FILE REPLICA WORLD`
fn take_command<'a>(alloc: Global) -> Result<Command<'a>, AllocError>
    ensures shape { IfOk result (λ c. shape_of c ≡ take_shape) }
    ensures local { IfOk result (λ c. (out-Command c).has_globals ≡ false) }
{
    let command = bare_command(
        alloc,
        "take",
        "Add what another editor drew in a world file to an edit file, as edits of an author",
    );
    let command = with_argument(
        command,
        required_argument(alloc, "FILE", "The edit file to add to"),
    )?;
    let command = with_argument(command, replica_argument(alloc))?;
    let command = with_argument(
        command,
        required_argument(alloc, "WORLD", "The world file that was drawn in"),
    )?;
    let command = with_argument(
        command,
        option_argument(
            alloc,
            "base",
            "BASE",
            "The edits that WORLD was drawn from, which get the new ones too; by default WORLD.base, or FILE if there is none",
        ),
    )?;
    with_argument(
        command,
        flag_argument(
            alloc,
            "force",
            "Take it even if more than half of the boards beside the title are gone",
        ),
    )
}

// `log` with the files and what a line has.
fn log_of_files<'a>(alloc: Global) -> Result<Command<'a>, AllocError>
    ensures shape { IfOk result (λ c. shape_of c ≡ log_shape_of_files) }
    ensures local { IfOk result (λ c. (out-Command c).has_globals ≡ false) }
{
    let command = bare_command(
        alloc,
        "log",
        "List edits, a line each: when, by whom and what",
    );
    let command = with_argument(command, files_argument(alloc))?;
    with_argument(
        command,
        flag_argument(alloc, "full", "Print the bytes of a starting world too"),
    )
}

// The same with the filters that name edits by place and author.
fn log_by_place<'a>(alloc: Global) -> Result<Command<'a>, AllocError>
    ensures shape { IfOk result (λ c. shape_of c ≡ log_shape_by_place) }
    ensures local { IfOk result (λ c. (out-Command c).has_globals ≡ false) }
{
    let command = log_of_files(alloc)?;
    let command = with_argument(
        command,
        option_argument(
            alloc,
            "board",
            "B",
            "List only edits of the board of this number, 0 for the title, or of this name, such as 2.1:0",
        ),
    )?;
    let command = with_argument(
        command,
        cell_argument(
            alloc,
            "List only edits of this cell of board B: X is 1 to 60, Y 1 to 25",
        ),
    )?;
    with_argument(
        command,
        number_argument(
            alloc,
            "replica",
            "R",
            "List only edits of the author of this number",
        ),
    )
}

/// `log [--full] [--board B] [--cell B X Y] [--replica R] [--since TIME] [--until TIME] FILES...`
fn log_command<'a>(alloc: Global) -> Result<Command<'a>, AllocError>
    ensures shape { IfOk result (λ c. shape_of c ≡ log_shape) }
    ensures local { IfOk result (λ c. (out-Command c).has_globals ≡ false) }
{
    let command = log_by_place(alloc)?;
    let command = with_argument(
        command,
        moment_argument(
            alloc,
            "since",
            "List only edits of this time or later: the first number of a line, or the first two, such as 6.1",
        ),
    )?;
    with_argument(
        command,
        moment_argument(alloc, "until", "List only edits of this time or earlier"),
    )
}

/// `list [B [S]] FILES...`
fn list_command<'a>(alloc: Global) -> Result<Command<'a>, AllocError>
    ensures shape { IfOk result (λ c. shape_of c ≡ list_shape) }
    ensures local { IfOk result (λ c. (out-Command c).has_globals ≡ false) }
{
    let command = bare_command(
        alloc,
        "list",
        "List the boards; list B FILES the stats of board B; list B S FILES the program of its stat S",
    );
    with_argument(
        command,
        several_argument(
            alloc,
            "WORDS",
            "Up to two numbers, of a board (0: the title) and of its stat (0: the player), and then edit files; write ./7 for a file named 7",
        ),
    )
}

// `show` with the board and the files.
fn show_of_board<'a>(alloc: Global) -> Result<Command<'a>, AllocError>
    ensures shape { IfOk result (λ c. shape_of c ≡ show_shape_of_board) }
    ensures local { IfOk result (λ c. (out-Command c).has_globals ≡ false) }
{
    let command = bare_command(
        alloc,
        "show",
        "Show a board as ZZT does: in colours at a terminal, as plain text, or as a picture",
    );
    let command = with_argument(
        command,
        number_word(
            alloc,
            "BOARD",
            "The number of the board, 0 for the title; list prints the numbers",
        ),
    )?;
    with_argument(command, files_argument(alloc))
}

/// `show [--plain | --ruler | --svg] BOARD FILES...`
fn show_command<'a>(alloc: Global) -> Result<Command<'a>, AllocError>
    ensures shape { IfOk result (λ c. shape_of c ≡ show_shape) }
    ensures local { IfOk result (λ c. (out-Command c).has_globals ≡ false) }
{
    let command = show_of_board(alloc)?;
    let command = with_argument(
        command,
        flag_argument(alloc, "plain", "Print only text, without colours"),
    )?;
    let command = with_argument(
        command,
        flag_argument(
            alloc,
            "ruler",
            "Print plain text with the numbers of columns and rows at the edges",
        ),
    )?;
    with_argument(
        command,
        flag_argument(alloc, "svg", "Print a picture, an SVG file"),
    )
}

/// `page FILES...`
fn page_command<'a>(alloc: Global) -> Result<Command<'a>, AllocError>
    ensures shape { IfOk result (λ c. shape_of c ≡ page_shape) }
    ensures local { IfOk result (λ c. (out-Command c).has_globals ≡ false) }
{
    let command = bare_command(
        alloc,
        "page",
        "Print a page for a browser with all boards, their stats and their programs",
    );
    with_argument(command, files_argument(alloc))
}

/// `play [--boards] [--rows ROWS] [--words WORDS] [--keys KEYS] BOARD FILES...`
fn play_command<'a>(alloc: Global) -> Result<Command<'a>, AllocError>
    ensures shape { IfOk result (λ c. shape_of c ≡ play_shape) }
    ensures local { IfOk result (λ c. (out-Command c).has_globals ≡ false) }
{
    let command = bare_command(
        alloc,
        "play",
        "Play a board at a terminal, by keys as they are typed; scripts/playtest sets the terminal up",
    );
    let command = with_argument(
        command,
        number_word(
            alloc,
            "BOARD",
            "The number of the board, 0 for the title; list prints the numbers",
        ),
    )?;
    let command = with_argument(command, files_argument(alloc))?;
    let command = with_argument(
        command,
        flag_argument(
            alloc,
            "boards",
            "Go on on the next board if the player leaves one, over an edge or through a passage",
        ),
    )?;
    let command = with_argument(
        command,
        number_argument(
            alloc,
            "rows",
            "ROWS",
            "The number of rows of the terminal, 27 by default",
        ),
    )?;
    let command = with_argument(
        command,
        option_argument(
            alloc,
            "words",
            "WORDS",
            "A file of random numbers: they are used first, and at the end it gets all that came",
        ),
    )?;
    with_argument(
        command,
        option_argument(
            alloc,
            "keys",
            "KEYS",
            "A file of keys: they are played first, and at the end it gets all that were played",
        ),
    )
}

/// `lint [--strict] FILES...`
fn lint_command<'a>(alloc: Global) -> Result<Command<'a>, AllocError>
    ensures shape { IfOk result (λ c. shape_of c ≡ lint_shape) }
    ensures local { IfOk result (λ c. (out-Command c).has_globals ≡ false) }
{
    let command = bare_command(
        alloc,
        "lint",
        "List what ZZT or a player would stumble over, a line each",
    );
    let command = with_argument(command, files_argument(alloc))?;
    with_argument(
        command,
        flag_argument(alloc, "strict", "Exit with status 1 if a line is printed"),
    )
}

/// `compare [--strict] MINE THEIRS`
fn compare_command<'a>(alloc: Global) -> Result<Command<'a>, AllocError>
    ensures shape { IfOk result (λ c. shape_of c ≡ compare_shape) }
    ensures local { IfOk result (λ c. (out-Command c).has_globals ≡ false) }
{
    let command = bare_command(
        alloc,
        "compare",
        "Tell what the merge of two edit files doesn't show of either: what one author did and the other one's edits override",
    );
    let command = with_argument(command, required_argument(alloc, "MINE", "Your edit file"))?;
    let command = with_argument(
        command,
        required_argument(alloc, "THEIRS", "The other one's edit file"),
    )?;
    with_argument(
        command,
        flag_argument(
            alloc,
            "strict",
            "Exit with status 1 if a line follows the first",
        ),
    )
}

// `undo` with the edit file, the author and the stamps.
fn undo_of_file<'a>(alloc: Global) -> Result<Command<'a>, AllocError>
    ensures shape { IfOk result (λ c. shape_of c ≡ undo_shape_of_file) }
    ensures local { IfOk result (λ c. (out-Command c).has_globals ≡ false) }
{
    let command = bare_command(
        alloc,
        "undo",
        "Undo chosen edits by new edits of an author: the world is then that of all other edits",
    );
    let command = with_argument(
        command,
        required_argument(alloc, "FILE", "The edit file to add to"),
    )?;
    let command = with_argument(command, replica_argument(alloc))?;
    with_argument(
        command,
        any_argument(
            alloc,
            "STAMPS",
            "The edits of these stamps, TIME.REPLICA as log prints them, such as 6.1",
        ),
    )
}

// The same with the filters that name edits by place and author.
fn undo_by_place<'a>(alloc: Global) -> Result<Command<'a>, AllocError>
    ensures shape { IfOk result (λ c. shape_of c ≡ undo_shape_by_place) }
    ensures local { IfOk result (λ c. (out-Command c).has_globals ≡ false) }
{
    let command = undo_of_file(alloc)?;
    let command = with_argument(
        command,
        option_argument(
            alloc,
            "board",
            "B",
            "Edits of the board of this number, or of this name, such as 2.1:0",
        ),
    )?;
    let command = with_argument(
        command,
        cell_argument(
            alloc,
            "Edits of this cell of board B: X is 1 to 60, Y 1 to 25",
        ),
    )?;
    with_argument(
        command,
        number_argument(alloc, "by", "R", "Edits of the author of this number"),
    )
}

// The same with those that name them by time and count.
fn undo_by_time<'a>(alloc: Global) -> Result<Command<'a>, AllocError>
    ensures shape { IfOk result (λ c. shape_of c ≡ undo_shape_by_time) }
    ensures local { IfOk result (λ c. (out-Command c).has_globals ≡ false) }
{
    let command = undo_by_place(alloc)?;
    let command = with_argument(
        command,
        moment_argument(
            alloc,
            "since",
            "Edits of this time or later: the first number of a line of log, or the first two, such as 6.1",
        ),
    )?;
    let command = with_argument(
        command,
        moment_argument(alloc, "until", "Edits of this time or earlier"),
    )?;
    with_argument(
        command,
        number_argument(
            alloc,
            "last",
            "N",
            "The last N of the edits that pass all other words",
        ),
    )
}

// The same with the files of a pull.
fn undo_of_pull<'a>(alloc: Global) -> Result<Command<'a>, AllocError>
    ensures shape { IfOk result (λ c. shape_of c ≡ undo_shape_of_pull) }
    ensures local { IfOk result (λ c. (out-Command c).has_globals ≡ false) }
{
    let command = undo_by_time(alloc)?;
    let command = with_argument(
        command,
        option_argument(
            alloc,
            "edits-of",
            "NEW",
            "With --but OLD: the edits that NEW has and OLD has not, such as what one pull brought",
        ),
    )?;
    with_argument(
        command,
        option_argument(alloc, "but", "OLD", "The edit file from before"),
    )
}

/// `undo [--dry-run] [--with-others] FILE REPLICA CHOICE...`
fn undo_command<'a>(alloc: Global) -> Result<Command<'a>, AllocError>
    ensures shape { IfOk result (λ c. shape_of c ≡ undo_shape) }
    ensures local { IfOk result (λ c. (out-Command c).has_globals ≡ false) }
{
    let command = undo_of_pull(alloc)?;
    let command = with_argument(
        command,
        flag_argument(alloc, "dry-run", "List what would go, and write nothing"),
    )?;
    with_argument(
        command,
        flag_argument(
            alloc,
            "with-others",
            "Undo also what other authors built on these edits",
        ),
    )
}

/// `set FILE REPLICA WORDS...`
fn set_command<'a>(alloc: Global) -> Result<Command<'a>, AllocError>
    ensures shape { IfOk result (λ c. shape_of c ≡ set_shape) }
    ensures local { IfOk result (λ c. (out-Command c).has_globals ≡ false) }
{
    let command = bare_command(
        alloc,
        "set",
        "Set a register of the world, a property of a board or a field of a stat, as an edit of an author",
    );
    let command = with_argument(
        command,
        required_argument(alloc, "FILE", "The edit file to add to"),
    )?;
    let command = with_argument(command, replica_argument(alloc))?;
    with_argument(
        command,
        trailing_argument(
            alloc,
            "WORDS",
            "What to set, and its value: world ammo 10, board 1 exit north 2, stat 1 3 cycle -1; a refusal says what may be in the place of a wrong word",
        ),
    )
}

/// `program B S FILES...`, `program --all FILES...`, or `program --set FILE REPLICA B S TEXT`
fn program_command<'a>(alloc: Global) -> Result<Command<'a>, AllocError>
    ensures shape { IfOk result (λ c. shape_of c ≡ program_shape) }
    ensures local { IfOk result (λ c. (out-Command c).has_globals ≡ false) }
{
    let command = bare_command(
        alloc,
        "program",
        "Print the program of a stat: program B S FILES, or all: program --all FILES; or replace it with the text of a file, as edits of an author: program --set FILE REPLICA B S TEXT",
    );
    let command = with_argument(
        command,
        several_argument(
            alloc,
            "WORDS",
            "The numbers of a board (0: the title) and of its stat (0: the player), as list prints them, and edit files; with --all edit files; with --set an edit file, the author's number, both numbers, and a text file",
        ),
    )?;
    let command = with_argument(
        command,
        flag_argument(alloc, "set", "Replace the program with the text of a file"),
    )?;
    with_argument(
        command,
        flag_argument(
            alloc,
            "all",
            "Print every program, each behind a line that tells where it is",
        ),
    )
}

// The program without its commands.
fn top_command<'a>(alloc: Global) -> Result<Command<'a>, AllocError>
    ensures { IfOk result (λ c. app_of c ≡ top_app) }
{
    Command::new(alloc, "zztool")
        .about(
            "Connects zzted to other editors of ZZT worlds: opens and takes drawings, shows, plays, lists and checks worlds, and sets what can't be drawn",
        )
        .version(VERSION)
        .no_binary_name(true)
        .arg_required_else_help(true)
        .bin_name("zztool")
}

// A program with one command more.
fn with_command<'a>(program: Command<'a>, command: Command<'a>) -> Result<Command<'a>, AllocError>
    requires local { (out-Command command).has_globals ≡ false }
    ensures { IfOk result (λ c.
        app_of c ≡ with_subcommand (app_of program.entry) (shape_of command.entry)) }
{
    program.subcommand(command)
}

/// The words after the program's name.
pub(crate) fn tool_command<'a>(alloc: Global) -> Result<Command<'a>, AllocError>
    ensures { IfOk result (λ c. app_of c ≡ tool_app) }
{
    let program = top_command(alloc)?;
    let program = with_command(program, open_command(alloc)?)?;
    let program = with_command(program, take_command(alloc)?)?;
    let program = with_command(program, log_command(alloc)?)?;
    let program = with_command(program, list_command(alloc)?)?;
    let program = with_command(program, show_command(alloc)?)?;
    let program = with_command(program, page_command(alloc)?)?;
    let program = with_command(program, play_command(alloc)?)?;
    let program = with_command(program, lint_command(alloc)?)?;
    let program = with_command(program, compare_command(alloc)?)?;
    let program = with_command(program, undo_command(alloc)?)?;
    let program = with_command(program, set_command(alloc)?)?;
    with_command(program, program_command(alloc)?)
}
