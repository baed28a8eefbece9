//! What the words of the command line ask for.
ghost use Rattle.std.specs.Prelude.{◌≡◌, ◌<◌, IfErr, IfOk, MatchResult, Some, length, map, option_and_then, option_map, string_bytes};
ghost use Rattle.clap.specs.Walk.{all_of, first_of, one_of};
ghost use Rattle.clap.specs.Words.{FailsBy, fault_of, found_of, rows_of, subcommand_of, subcommand_rows_of};
ghost use Rattle.zed_tool_words.specs.declared.words.ParseError.TheVariants.{Memory};
ghost use Rattle.zed_tool_words.specs.Grammar.{tool_app};
ghost use Rattle.zed_tool_words.specs.Commands.{AsksNothing, IsAloud, command_of, compare_of, forcing_of, form_of, going_of, filter_of, has_flag as has_that_flag, length_of, lint_of, list_of, log_of, meaning_of, open_of, option_number, page_of, play_of, program_by, program_of, set_of, show_of, strictness_of, subcommand_asks, take_of, trial_of, others_of, undo_of, chosen_of};
ghost use Rattle.zed_tool_words.specs.Undone.{meaning};

use crate::asked::{Command, Filter, Forcing, Form, Going, Length, Others, Strictness, Trial};
use crate::filters::{board_asked, since_asked, until_asked};
use crate::grammar::tool_command;
use crate::listed::{cell_in, listed};
use crate::programs::{program, program_to_set};
use crate::undone::{Choice, stamps_asked, undone};
use clap::error::ErrorKind;
use clap::{ArgMatches, Error};
use std::alloc::{AllocError, Global};

const NO_FILTER: &str =
    "error: 'log' takes behind '--board' the number of a board or its name, such as 2.1:0; behind '--cell' B X Y, where B is the number of a board, X is 1 to 60 and Y is 1 to 25; behind '--since' and '--until' TIME or TIME.REPLICA, such as 6 or 6.1\n\nFor more information, try '--help'.\n";

const NO_MOMENT: &str =
    "error: 'open' takes behind '--until' TIME or TIME.REPLICA, such as 6 or 6.1\n\nFor more information, try '--help'.\n";

const NO_FILES: &str =
    "error: 'list' takes at most two numbers up to 65535, and a file behind them\n\nFor more information, try '--help'.\n";

const TWO_FORMS: &str =
    "error: only one of '--plain', '--ruler' and '--svg' can be there\n\nFor more information, try '--help'.\n";

const NO_PROGRAM: &str =
    "error: 'program' takes the numbers of a board and of a stat, up to 65535, and a file behind them; with '--all' files alone; with '--set' FILE REPLICA B S TEXT\n\nFor more information, try '--help'.\n";

const NO_CHOICE: &str =
    "error: 'undo' takes what to undo behind FILE REPLICA: stamps as 6.1, filters, or --edits-of NEW --but OLD alone; behind '--board' the number of a board or its name, such as 2.1:0; behind '--cell' B is the number of a board, X is 1 to 60 and Y is 1 to 25; behind '--since' and '--until' TIME or TIME.REPLICA, such as 6 or 6.1\n\nFor more information, try '--help'.\n";

// What the user is told where clap has no text for words that it refuses.
const NO_COMMAND: &str =
    "error: these words are no command\n\nFor more information, try '--help'.\n";

// What is printed where clap has no text for help.
const USAGE: &str = "Usage: zztool <COMMAND>\n";

/// Why the words are no command.
#[derive(Drop)]
pub enum ParseError {
    Memory,
    /// The words are refused, with the text for the user, which is never empty.
    Refused(String),
    /// Help is asked for, which is this text. It is never empty.
    Help(String),
    /// The version is asked for.
    Version,
}

impl From<AllocError> for ParseError {
    ghost from_gives = { λ _ e. e ≡ Memory };

    fn from(_error: AllocError) -> ParseError {
        ParseError::Memory
    }
}

// The word of this name, if it is there.
fn word_in<'a>(matches: &ArgMatches<'a>, name: &str) -> Option<&'a str>
    ensures { option_map (λ s. s.now) result ≡ first_of name.now (rows_of (found_of matches.now)) }
{
    matches.get_str(name)
}

// Whether the flag of this name is there.
fn has_flag(matches: &ArgMatches<'_>, name: &str) -> bool
    ensures { result ≡ has_that_flag name.now (rows_of (found_of matches.now)) }
{
    match word_in(matches, name) {
        Some("true") => true,
        _ => false,
    }
}

// Whether the words write over what was drawn.
fn forcing_in(matches: &ArgMatches<'_>) -> Forcing
    ensures { result ≡ forcing_of (rows_of (found_of matches.now)) }
{
    if has_flag(matches, "force") {
        Forcing::Forced
    } else {
        Forcing::Careful
    }
}

// How much of the line of a world is printed.
fn length_in(matches: &ArgMatches<'_>) -> Length
    ensures { result ≡ length_of (rows_of (found_of matches.now)) }
{
    if has_flag(matches, "full") {
        Length::Full
    } else {
        Length::Short
    }
}

// Whether a playtest goes on over boards.
fn going_in(matches: &ArgMatches<'_>) -> Going
    ensures { result ≡ going_of (rows_of (found_of matches.now)) }
{
    if has_flag(matches, "boards") {
        Going::On
    } else {
        Going::Stays
    }
}

// Whether `undo` writes what it does.
fn trial_in(matches: &ArgMatches<'_>) -> Trial
    ensures { result ≡ trial_of (rows_of (found_of matches.now)) }
{
    if has_flag(matches, "dry-run") {
        Trial::Dry
    } else {
        Trial::Real
    }
}

// What it does with what others built on the edits.
fn others_in(matches: &ArgMatches<'_>) -> Others
    ensures { result ≡ others_of (rows_of (found_of matches.now)) }
{
    if has_flag(matches, "with-others") {
        Others::Included
    } else {
        Others::Spared
    }
}

// Whether what is found makes the command fail.
fn strictness_in(matches: &ArgMatches<'_>) -> Strictness
    ensures { result ≡ strictness_of (rows_of (found_of matches.now)) }
{
    if has_flag(matches, "strict") {
        Strictness::Strict
    } else {
        Strictness::Lenient
    }
}

// The form of a picture; `None` where two are asked for.
fn form_in(matches: &ArgMatches<'_>) -> Option<Form>
    ensures { result ≡ form_of (rows_of (found_of matches.now)) }
{
    let plain = has_flag(matches, "plain");
    let ruler = has_flag(matches, "ruler");
    let svg = has_flag(matches, "svg");
    match (plain, ruler, svg) {
        (false, false, false) => Some(Form::Coloured),
        (true, false, false) => Some(Form::Plain),
        (false, true, false) => Some(Form::Ruled),
        (false, false, true) => Some(Form::Svg),
        _ => None,
    }
}

// All words of this name, if it is there.
fn words_in<'m, 'a>(matches: &'m ArgMatches<'a>, name: &str) -> Option<&'m [&'a str]>
    ensures { option_map (λ ws. map (λ s. s.now) ws.now) result
        ≡ all_of name.now (rows_of (found_of matches.now)) }
{
    matches.get_strs(name)
}

// The number that the word of this name writes, if it is there.
fn number_in(matches: &ArgMatches<'_>, name: &str) -> Option<u16>
    ensures { result ≡ option_number 16 name.now (rows_of (found_of matches.now)) }
{
    matches.get_one::<u16>(name)
}

// The filters, if all are such; the author's number is behind this name.
fn filter_in(matches: &ArgMatches<'_>, author: &str) -> Option<Filter>
    ensures { result ≡ filter_of author.now (rows_of (found_of matches.now)) }
{
    let replica = number_in(matches, author);
    let board = board_asked(word_in(matches, "board"))?;
    let cell = cell_in(words_in(matches, "cell"))?;
    let since = since_asked(word_in(matches, "since"))?;
    let until = until_asked(word_in(matches, "until"))?;
    Some(Filter {
        board,
        cell,
        replica,
        since,
        until,
    })
}

fn open_in<'a>(matches: &ArgMatches<'a>) -> Option<Command<'a>>
    ensures { option_map meaning_of result ≡ open_of (rows_of (found_of matches.now)) }
{
    let until = until_asked(word_in(matches, "until"))?;
    let forcing = forcing_in(matches);
    let file = word_in(matches, "FILE")?;
    let world = word_in(matches, "WORLD")?;
    Some(Command::Open {
        until,
        forcing,
        file,
        world,
    })
}

fn take_in<'a>(matches: &ArgMatches<'a>) -> Option<Command<'a>>
    ensures { option_map meaning_of result ≡ take_of (rows_of (found_of matches.now)) }
{
    let base = word_in(matches, "base");
    let forcing = forcing_in(matches);
    let file = word_in(matches, "FILE");
    let replica = number_in(matches, "REPLICA");
    let world = word_in(matches, "WORLD");
    if let (Some(file), Some(replica), Some(world)) = (file, replica, world) {
        Some(Command::Take {
            base,
            forcing,
            file,
            replica,
            world,
        })
    } else {
        None
    }
}

fn log_in<'a>(alloc: Global, matches: &ArgMatches<'a>) -> Result<Option<Command<'a>>, AllocError>
    ensures { IfOk result (λ a.
        option_map meaning_of a ≡ log_of (rows_of (found_of matches.now))) }
{
    let length = length_in(matches);
    let filter = filter_in(matches, "replica");
    let files = words_in(matches, "FILES");
    if let (Some(filter), Some(files)) = (filter, files) {
        let files = Vec::from_slice(alloc, files)?;
        Ok(Some(Command::Log {
            length,
            filter,
            files,
        }))
    } else {
        Ok(None)
    }
}

fn list_in<'a>(alloc: Global, matches: &ArgMatches<'a>) -> Result<Option<Command<'a>>, AllocError>
    ensures { IfOk result (λ a.
        option_map meaning_of a ≡ list_of (rows_of (found_of matches.now))) }
{
    match words_in(matches, "WORDS") {
        Some(words) => listed(alloc, words),
        None => Ok(None),
    }
}

fn show_in<'a>(alloc: Global, matches: &ArgMatches<'a>) -> Result<Option<Command<'a>>, AllocError>
    ensures { IfOk result (λ a.
        option_map meaning_of a ≡ show_of (rows_of (found_of matches.now))) }
{
    let form = form_in(matches);
    let board = number_in(matches, "BOARD");
    let files = words_in(matches, "FILES");
    if let (Some(form), Some(board), Some(files)) = (form, board, files) {
        let files = Vec::from_slice(alloc, files)?;
        Ok(Some(Command::Show { form, board, files }))
    } else {
        Ok(None)
    }
}

fn page_in<'a>(alloc: Global, matches: &ArgMatches<'a>) -> Result<Option<Command<'a>>, AllocError>
    ensures { IfOk result (λ a.
        option_map meaning_of a ≡ page_of (rows_of (found_of matches.now))) }
{
    match words_in(matches, "FILES") {
        Some(files) => {
            let files = Vec::from_slice(alloc, files)?;
            Ok(Some(Command::Page { files }))
        }
        None => Ok(None),
    }
}

fn play_in<'a>(alloc: Global, matches: &ArgMatches<'a>) -> Result<Option<Command<'a>>, AllocError>
    ensures { IfOk result (λ a.
        option_map meaning_of a ≡ play_of (rows_of (found_of matches.now))) }
{
    let going = going_in(matches);
    let rows = number_in(matches, "rows");
    let words = word_in(matches, "words");
    let keys = word_in(matches, "keys");
    let board = number_in(matches, "BOARD");
    let files = words_in(matches, "FILES");
    if let (Some(board), Some(files)) = (board, files) {
        let files = Vec::from_slice(alloc, files)?;
        Ok(Some(Command::Play {
            going,
            rows,
            words,
            keys,
            board,
            files,
        }))
    } else {
        Ok(None)
    }
}

fn lint_in<'a>(alloc: Global, matches: &ArgMatches<'a>) -> Result<Option<Command<'a>>, AllocError>
    ensures { IfOk result (λ a.
        option_map meaning_of a ≡ lint_of (rows_of (found_of matches.now))) }
{
    let strictness = strictness_in(matches);
    match words_in(matches, "FILES") {
        Some(files) => {
            let files = Vec::from_slice(alloc, files)?;
            Ok(Some(Command::Lint { strictness, files }))
        }
        None => Ok(None),
    }
}

fn compare_in<'a>(matches: &ArgMatches<'a>) -> Option<Command<'a>>
    ensures { option_map meaning_of result ≡ compare_of (rows_of (found_of matches.now)) }
{
    let strictness = strictness_in(matches);
    let mine = word_in(matches, "MINE")?;
    let theirs = word_in(matches, "THEIRS")?;
    Some(Command::Compare {
        strictness,
        mine,
        theirs,
    })
}

// The edits that the words name otherwise than by the files of a pull, if stamps and filters are such.
fn choice_in(alloc: Global, matches: &ArgMatches<'_>) -> Result<Option<Choice>, AllocError>
    ensures { IfOk result (λ c.
        option_map meaning c ≡ chosen_of (rows_of (found_of matches.now))) }
{
    let last = number_in(matches, "last");
    let stamps = stamps_asked(alloc, words_in(matches, "STAMPS"))?;
    let filter = filter_in(matches, "by");
    if let (Some(stamps), Some(filter)) = (stamps, filter) {
        Ok(Some(Choice {
            stamps,
            filter,
            last,
        }))
    } else {
        Ok(None)
    }
}

fn undo_in<'a>(alloc: Global, matches: &ArgMatches<'a>) -> Result<Option<Command<'a>>, AllocError>
    ensures { IfOk result (λ a.
        option_map meaning_of a ≡ undo_of (rows_of (found_of matches.now))) }
{
    let trial = trial_in(matches);
    let others = others_in(matches);
    let file = word_in(matches, "FILE");
    let replica = number_in(matches, "REPLICA");
    let pull = (word_in(matches, "edits-of"), word_in(matches, "but"));
    let choice = choice_in(alloc, matches)?;
    if let (Some(file), Some(replica), Some(choice)) = (file, replica, choice) {
        Ok(undone(trial, others, file, replica, choice, pull))
    } else {
        Ok(None)
    }
}

fn set_in<'a>(alloc: Global, matches: &ArgMatches<'a>) -> Result<Option<Command<'a>>, AllocError>
    ensures { IfOk result (λ a.
        option_map meaning_of a ≡ set_of (rows_of (found_of matches.now))) }
{
    let file = word_in(matches, "FILE");
    let replica = number_in(matches, "REPLICA");
    let words = words_in(matches, "WORDS");
    if let (Some(file), Some(replica), Some(words)) = (file, replica, words) {
        let words = Vec::from_slice(alloc, words)?;
        Ok(Some(Command::Set {
            file,
            replica,
            words,
        }))
    } else {
        Ok(None)
    }
}

// A program, all programs, or the text of one.
fn program_asked<'a>(
    alloc: Global,
    sets: bool,
    all: bool,
    words: &[&'a str],
) -> Result<Option<Command<'a>>, AllocError>
    ensures { IfOk result (λ a.
        option_map meaning_of a ≡ program_by sets all (map (λ s. s.now) words.now)) }
{
    match (sets, all) {
        (false, false) => program(alloc, words),
        (true, false) => Ok(program_to_set(words)),
        (false, true) => {
            let files = Vec::from_slice(alloc, words)?;
            Ok(Some(Command::Programs { files }))
        }
        (true, true) => Ok(None),
    }
}

fn program_in<'a>(
    alloc: Global,
    matches: &ArgMatches<'a>,
) -> Result<Option<Command<'a>>, AllocError>
    ensures { IfOk result (λ a.
        option_map meaning_of a ≡ program_of (rows_of (found_of matches.now))) }
{
    let sets = has_flag(matches, "set");
    let all = has_flag(matches, "all");
    match words_in(matches, "WORDS") {
        Some(words) => program_asked(alloc, sets, all, words),
        None => Ok(None),
    }
}

fn command_named<'a>(
    alloc: Global,
    matches: &ArgMatches<'a>,
) -> Result<Option<Command<'a>>, AllocError>
    ensures { IfOk result (λ a. option_map meaning_of a
        ≡ option_and_then subcommand_asks (subcommand_rows_of matches.now)) }
{
    let Some((name, inner)) = matches.subcommand() else {
        return Ok(None);
    };
    if name == "open" {
        Ok(open_in(inner))
    } else if name == "take" {
        Ok(take_in(inner))
    } else if name == "log" {
        log_in(alloc, inner)
    } else if name == "list" {
        list_in(alloc, inner)
    } else if name == "show" {
        show_in(alloc, inner)
    } else if name == "page" {
        page_in(alloc, inner)
    } else if name == "play" {
        play_in(alloc, inner)
    } else if name == "lint" {
        lint_in(alloc, inner)
    } else if name == "compare" {
        Ok(compare_in(inner))
    } else if name == "undo" {
        undo_in(alloc, inner)
    } else if name == "set" {
        set_in(alloc, inner)
    } else if name == "program" {
        program_in(alloc, inner)
    } else {
        Ok(None)
    }
}

fn matches_in<'a>(alloc: Global, words: &'a [String]) -> Result<ArgMatches<'a>, Error>
    ensures fails { FailsBy (fault_of tool_app (map string_bytes words.entry.now)) result }
    ensures rows { IfOk result (λ m. subcommand_rows_of m
        ≡ subcommand_of tool_app (map string_bytes words.entry.now)) }
{
    tool_command(alloc)?.try_get_matches_from(words)
}

// The text for words that `clap` takes and that ask for nothing.
fn no_command(alloc: Global, matches: &ArgMatches<'_>) -> Result<String, AllocError>
    ensures { IfOk result (λ text. 0 < length (string_bytes text)) }
{
    match matches.subcommand_name() {
        Some("open") => String::from_str(alloc, NO_MOMENT),
        Some("list") => String::from_str(alloc, NO_FILES),
        Some("show") => String::from_str(alloc, TWO_FORMS),
        Some("program") => String::from_str(alloc, NO_PROGRAM),
        Some("undo") => String::from_str(alloc, NO_CHOICE),
        _ => String::from_str(alloc, NO_FILTER),
    }
}

// The text of an answer of `clap`, or another where that is empty.
fn text_or(alloc: Global, error: &Error, other: &str) -> Result<String, AllocError>
    requires { 0 < length other.now }
    ensures { IfOk result (λ text. 0 < length (string_bytes text)) }
{
    let text = error.to_string(alloc)?;
    if text.is_empty() {
        String::from_str(alloc, other)
    } else {
        Ok(text)
    }
}

/// Reads the words after the program's name.
///
/// # Errors
/// `Help`, with clap's text, if the words ask for help; `Version` if they ask for the version;
/// `Refused`, with a text that says why, if they are no command. `Memory` may come in place of any
/// of these and of a command, since reading the words takes memory.
pub fn parse<'a>(alloc: Global, words: &'a [String]) -> Result<Command<'a>, ParseError>
    ensures asks { MatchResult result
        (λ a. command_of (map string_bytes words.entry.now) ≡ Some (meaning_of a))
        (λ e. AsksNothing (map string_bytes words.entry.now) e) }

    // Where words are refused, or ask for help, the text isn't empty.
    ensures aloud { IfErr result IsAloud }
{
    match matches_in(alloc, words) {
        Ok(matches) => match command_named(alloc, &matches)? {
            Some(command) => Ok(command),
            None => Err(ParseError::Refused(no_command(alloc, &matches)?)),
        },
        Err(error) => match error.kind() {
            ErrorKind::OutOfMemory => Err(ParseError::Memory),
            ErrorKind::DisplayHelp => {
                let text = text_or(alloc, &error, USAGE)?;
                Err(ParseError::Help(text))
            }
            ErrorKind::DisplayVersion => Err(ParseError::Version),
            _ => {
                let text = text_or(alloc, &error, NO_COMMAND)?;
                Err(ParseError::Refused(text))
            }
        },
    }
}
