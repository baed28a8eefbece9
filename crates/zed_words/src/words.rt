//! What the words of the command line ask for.
ghost use Rattle.std.specs.Prelude.{◌≡◌, ◌⊎◌, IfOk, MatchResult, Some, None, [], map, option_and_then, option_map, string_bytes};
ghost use Rattle.clap.specs.Walk.{all_of, first_of, one_of};
ghost use Rattle.clap.specs.Words.{FailsBy, fault_of, found_of, rows_of, subcommand_of, subcommand_rows_of};
ghost use Rattle.zed_words.specs.declared.words.ParseError.TheVariants.{Memory};
ghost use Rattle.zed_words.specs.Grammar.{zzted_app};
ghost use Rattle.zed_words.specs.Commands.{subcommand_asks, check_of, edit_of, meaning_of, IsRefusedAloud, merge_of, new_of, number_of, play_of, profile_of as profile_for, save_of, show_of, command_of};

use crate::grammar::zzted_command;
use crate::profile::Profile;
use clap::error::ErrorKind;
use clap::{ArgMatches, Error};
use std::alloc::{AllocError, Global};

/// What is to be done.
#[derive(Drop)]
pub enum Command<'a> {
    /// Write the world file of edit files.
    Save {
        profile: Profile,
        out: &'a str,
        files: Vec<&'a str>,
    },
    /// Print what looks wrong in the world of edit files.
    Check {
        profile: Profile,
        files: Vec<&'a str>,
    },
    /// Write the edit file of a new world.
    New {
        out: &'a str,
        world: u64,
        from: Option<&'a str>,
        name: Option<&'a str>,
    },
    /// Add an action of an author to an edit file.
    Edit {
        file: &'a str,
        replica: u16,
        words: Vec<&'a str>,
    },
    /// Merge edit files of a world into one.
    Merge {
        out: &'a str,
        world: u64,
        files: Vec<&'a str>,
    },
    /// Show a board of the world of edit files.
    Show {
        profile: Profile,
        board: u16,
        files: Vec<&'a str>,
    },
    /// Play a board of the world of edit files, by the words of chance of a file.
    Play {
        profile: Profile,
        board: u16,
        chance: &'a str,
        files: Vec<&'a str>,
    },
}

/// Why the words are no command.
#[derive(Drop)]
pub enum ParseError {
    Memory,
    /// The words are refused, with the text for the user, which is never empty.
    Refused(String),
}

/// The text for the user if clap has none.
const NO_COMMAND: &str = "error: these words are no command\n";

impl From<AllocError> for ParseError {
    ghost from_gives = { λ _ e. e ≡ Memory };

    fn from(_error: AllocError) -> ParseError {
        ParseError::Memory
    }
}

// The word of this name, if it is there.
fn word_in<'a>(matches: &ArgMatches<'a>, name: &str) -> Option<&'a str>
    ensures { option_map (λ s. s.now) result ≡ first_of name.now (rows_of (found_of matches.now)) }
{
    matches.get_str(name)
}

// The profile that the words ask for.
fn profile_in(matches: &ArgMatches<'_>) -> Profile
    ensures { result ≡ profile_for (rows_of (found_of matches.now)) }
{
    match word_in(matches, "big") {
        Some("true") => Profile::Big,
        _ => Profile::Usual,
    }
}

// All words of this name, if it is there.
fn words_in<'a>(
    alloc: Global,
    matches: &ArgMatches<'a>,
    name: &str,
) -> Result<Option<Vec<&'a str>>, AllocError>
    ensures { IfOk result (λ words. option_map (λ ws. map (λ s. s.now) ws.items) words
        ≡ all_of name.now (rows_of (found_of matches.now))) }
{
    match matches.get_strs(name) {
        Some(words) => Ok(Some(Vec::from_slice(alloc, words)?)),
        None => Ok(None),
    }
}

// The number of a world that the word of this name writes.
fn world_in(matches: &ArgMatches<'_>, name: &str) -> Option<u64>
    ensures { result
        ≡ option_and_then (number_of 64) (one_of name.now (rows_of (found_of matches.now))) }
{
    matches.get_one::<u64>(name)
}

// The number of a replica or a board that the word of this name writes.
fn number_in(matches: &ArgMatches<'_>, name: &str) -> Option<u16>
    ensures { result
        ≡ option_and_then (number_of 16) (one_of name.now (rows_of (found_of matches.now))) }
{
    matches.get_one::<u16>(name)
}

fn save_in<'a>(alloc: Global, matches: &ArgMatches<'a>) -> Result<Option<Command<'a>>, AllocError>
    ensures { IfOk result (λ a.
        option_map meaning_of a ≡ save_of (rows_of (found_of matches.now))) }
{
    let profile = profile_in(matches);
    let files = words_in(alloc, matches, "FILES")?;
    if let (Some(out), Some(files)) = (word_in(matches, "OUT"), files) {
        Ok(Some(Command::Save {
            profile,
            out,
            files,
        }))
    } else {
        Ok(None)
    }
}

fn check_in<'a>(alloc: Global, matches: &ArgMatches<'a>) -> Result<Option<Command<'a>>, AllocError>
    ensures { IfOk result (λ a.
        option_map meaning_of a ≡ check_of (rows_of (found_of matches.now))) }
{
    let profile = profile_in(matches);
    match words_in(alloc, matches, "FILES")? {
        Some(files) => Ok(Some(Command::Check { profile, files })),
        None => Ok(None),
    }
}

fn new_in<'a>(matches: &ArgMatches<'a>) -> Option<Command<'a>>
    ensures { option_map meaning_of result ≡ new_of (rows_of (found_of matches.now)) }
{
    let from = word_in(matches, "from");
    let name = word_in(matches, "name");
    if let (Some(out), Some(world)) = (word_in(matches, "OUT"), world_in(matches, "WORLD")) {
        Some(Command::New {
            out,
            world,
            from,
            name,
        })
    } else {
        None
    }
}

fn edit_in<'a>(alloc: Global, matches: &ArgMatches<'a>) -> Result<Option<Command<'a>>, AllocError>
    ensures { IfOk result (λ a.
        option_map meaning_of a ≡ edit_of (rows_of (found_of matches.now))) }
{
    let file = word_in(matches, "FILE");
    let replica = number_in(matches, "REPLICA");
    let words = words_in(alloc, matches, "WORDS")?;
    if let (Some(file), Some(replica), Some(words)) = (file, replica, words) {
        Ok(Some(Command::Edit {
            file,
            replica,
            words,
        }))
    } else {
        Ok(None)
    }
}

fn merge_in<'a>(alloc: Global, matches: &ArgMatches<'a>) -> Result<Option<Command<'a>>, AllocError>
    ensures { IfOk result (λ a.
        option_map meaning_of a ≡ merge_of (rows_of (found_of matches.now))) }
{
    let out = word_in(matches, "OUT");
    let world = world_in(matches, "WORLD");
    let files = words_in(alloc, matches, "FILES")?;
    if let (Some(out), Some(world), Some(files)) = (out, world, files) {
        Ok(Some(Command::Merge { out, world, files }))
    } else {
        Ok(None)
    }
}

fn show_in<'a>(alloc: Global, matches: &ArgMatches<'a>) -> Result<Option<Command<'a>>, AllocError>
    ensures { IfOk result (λ a.
        option_map meaning_of a ≡ show_of (rows_of (found_of matches.now))) }
{
    let profile = profile_in(matches);
    let files = words_in(alloc, matches, "FILES")?;
    if let (Some(board), Some(files)) = (number_in(matches, "BOARD"), files) {
        Ok(Some(Command::Show {
            profile,
            board,
            files,
        }))
    } else {
        Ok(None)
    }
}

fn play_in<'a>(alloc: Global, matches: &ArgMatches<'a>) -> Result<Option<Command<'a>>, AllocError>
    ensures { IfOk result (λ a.
        option_map meaning_of a ≡ play_of (rows_of (found_of matches.now))) }
{
    let profile = profile_in(matches);
    let board = number_in(matches, "BOARD");
    let chance = word_in(matches, "WORDS");
    let files = words_in(alloc, matches, "FILES")?;
    if let (Some(board), Some(chance), Some(files)) = (board, chance, files) {
        Ok(Some(Command::Play {
            profile,
            board,
            chance,
            files,
        }))
    } else {
        Ok(None)
    }
}

fn command_named<'a>(
    alloc: Global,
    matches: &ArgMatches<'a>,
) -> Result<Option<Command<'a>>, AllocError>
    ensures { IfOk result (λ a. option_map meaning_of a
        ≡ option_and_then subcommand_asks (subcommand_rows_of matches.now)) }
{
    let Some((name, inner)) = matches.subcommand() else {
        return Ok(None);
    };
    if name == "save" {
        save_in(alloc, inner)
    } else if name == "check" {
        check_in(alloc, inner)
    } else if name == "new" {
        Ok(new_in(inner))
    } else if name == "edit" {
        edit_in(alloc, inner)
    } else if name == "merge" {
        merge_in(alloc, inner)
    } else if name == "show" {
        show_in(alloc, inner)
    } else if name == "play" {
        play_in(alloc, inner)
    } else {
        Ok(None)
    }
}

fn matches_in<'a>(alloc: Global, words: &'a [String]) -> Result<ArgMatches<'a>, Error>
    ensures fails { FailsBy (fault_of zzted_app (map string_bytes words.entry.now)) result }
    ensures rows { IfOk result (λ m. subcommand_rows_of m
        ≡ subcommand_of zzted_app (map string_bytes words.entry.now)) }
{
    zzted_command(alloc)?.try_get_matches_from(words)
}

// What is done without any word.
fn stored_command<'a>(alloc: Global) -> Result<Command<'a>, AllocError>
    ensures { IfOk result (λ a. command_of [] ≡ Some (meaning_of a)) }
{
    let files = vec![in alloc; "stdin"]?;
    Ok(Command::Save {
        profile: Profile::Usual,
        out: "stdout",
        files,
    })
}

// The refusal of words, with a text for the user.
fn refused(alloc: Global, text: String) -> Result<ParseError, AllocError>
    ensures { IfOk result IsRefusedAloud }
{
    if text.is_empty() {
        return Ok(ParseError::Refused(String::from_str(alloc, NO_COMMAND)?));
    }
    Ok(ParseError::Refused(text))
}

/// Reads the words after the program's name.
///
/// # Errors
/// `Refused`, with clap's text, which isn't empty, only if the words are no command; a request for
/// help counts as that. `Memory` may come in its place or that of a command, since reading the words
/// takes memory.
pub fn parse<'a>(alloc: Global, words: &'a [String]) -> Result<Command<'a>, ParseError>
    ensures { MatchResult result
        (λ a. command_of (map string_bytes words.entry.now) ≡ Some (meaning_of a))
        (λ e. (e ≡ ParseError.Memory)
        ⊎ ((command_of (map string_bytes words.entry.now) ≡ None) × IsRefusedAloud e)) }
{
    if words.is_empty() {
        return Ok(stored_command(alloc)?);
    }
    match matches_in(alloc, words) {
        Ok(matches) => match command_named(alloc, &matches)? {
            Some(command) => Ok(command),
            None => Err(refused(alloc, String::new(alloc))?),
        },
        Err(error) => match error.kind() {
            ErrorKind::OutOfMemory => Err(ParseError::Memory),
            _ => {
                let text = error.to_string(alloc)?;
                Err(refused(alloc, text)?)
            }
        },
    }
}
