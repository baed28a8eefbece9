//! The words of `program`.
ghost use Rattle.std.specs.Prelude.{◌≡◌, IfOk, map, option_map};
ghost use Rattle.zed_tool_words.specs.Commands.{meaning_of, program_board, program_files, program_words, set_program_words};

use crate::asked::Command;
use crate::listed::number_of;
use std::alloc::{AllocError, Global};

// What is asked for behind both numbers.
fn files_of_program<'a>(
    alloc: Global,
    board: u16,
    stat: u16,
    files: &[&'a str],
) -> Result<Option<Command<'a>>, AllocError>
    ensures { IfOk result (λ c.
        option_map meaning_of c ≡ program_files board stat (map (λ s. s.now) files.now)) }
{
    if files.is_empty() {
        return Ok(None);
    }
    let files = Vec::from_slice(alloc, files)?;
    Ok(Some(Command::Program { board, stat, files }))
}

// What is asked for behind the number of a board.
fn program_on<'a>(
    alloc: Global,
    board: u16,
    words: &[&'a str],
) -> Result<Option<Command<'a>>, AllocError>
    ensures { IfOk result (λ c.
        option_map meaning_of c ≡ program_board board (map (λ s. s.now) words.now)) }
{
    match words.split_first() {
        Some((word, files)) => match number_of(word) {
            Some(stat) => files_of_program(alloc, board, stat, files),
            None => Ok(None),
        },
        None => Ok(None),
    }
}

/// What the words after `program` ask for.
pub(crate) fn program<'a>(
    alloc: Global,
    words: &[&'a str],
) -> Result<Option<Command<'a>>, AllocError>
    ensures { IfOk result (λ c.
        option_map meaning_of c ≡ program_words (map (λ s. s.now) words.now)) }
{
    match words.split_first() {
        Some((word, rest)) => match number_of(word) {
            Some(board) => program_on(alloc, board, rest),
            None => Ok(None),
        },
        None => Ok(None),
    }
}

/// What they ask for with `--set`.
pub(crate) fn program_to_set<'a>(words: &[&'a str]) -> Option<Command<'a>>
    ensures { option_map meaning_of result ≡ set_program_words (map (λ s. s.now) words.now) }
{
    if words.len() != 5 {
        return None;
    }
    let replica = number_of(words[1])?;
    let board = number_of(words[2])?;
    let stat = number_of(words[3])?;
    Some(Command::SetProgram {
        file: words[0],
        replica,
        board,
        stat,
        text: words[4],
    })
}
