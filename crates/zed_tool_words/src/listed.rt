//! The words of `list`, and those of a cell.
ghost use Rattle.std.specs.Prelude.{◌≡◌, IfOk, map, option_map};
ghost use Rattle.std.specs.Char.{is_ascii_digit};
ghost use Rattle.std.specs.List.{list_all};
ghost use Rattle.zed_words.specs.Commands.{number_of as number_by};
ghost use Rattle.zed_tool_words.specs.declared.asked.Listing.TheVariants as lists;
ghost use Rattle.zed_tool_words.specs.Commands.{cell_asked, cell_by as cell_for, is_decimal as is_decimal_word, list_board, list_files, list_words, meaning_of, number_within as number_between};

use crate::asked::{Command, Listing};
use std::alloc::{AllocError, Global};

/// The number of at most 16 bits that a word writes.
pub(crate) fn number_of(word: &str) -> Option<u16>
    ensures { result ≡ number_by 16 word.now }
{
    match word.parse::<u16>() {
        Ok(number) => Some(number),
        Err(_) => None,
    }
}

// The same of a number from one to another.
fn number_within(low: u16, high: u16, word: &str) -> Option<u16>
    ensures { result ≡ number_between low high word.now }
{
    match number_of(word) {
        Some(number) if low <= number && number <= high => Some(number),
        _ => None,
    }
}

// The cell that three words name.
fn cell_of(words: &[&str]) -> Option<(u16, u16, u16)>
    ensures { result ≡ cell_for (map (λ s. s.now) words.now) }
{
    if words.len() != 3 {
        return None;
    }
    let board = number_of(words[0])?;
    let x = number_within(1, 60, words[1])?;
    let y = number_within(1, 25, words[2])?;
    Some((board, x, y))
}

/// The cell of the words after `--cell`, if that is there; `None` if they name no cell.
pub(crate) fn cell_in(words: Option<&[&str]>) -> Option<Option<(u16, u16, u16)>>
    ensures { result ≡ cell_asked (option_map (λ ws. map (λ s. s.now) ws.now) words.entry) }
{
    match words {
        Some(words) => Some(Some(cell_of(words)?)),
        None => Some(None),
    }
}

fn is_digits(word: &str) -> bool
    ensures { result ≡ list_all is_ascii_digit word.now }
{
    word.as_bytes().iter().all(|byte| byte.is_ascii_digit())
}

// Whether a word is of decimal digits alone.
fn is_decimal(word: &str) -> bool
    ensures { result ≡ is_decimal_word word.now }
{
    !word.is_empty() && is_digits(word)
}

// A listing of files, of which there is one at least.
fn files_listed<'a>(
    alloc: Global,
    listing: Listing,
    files: &[&'a str],
) -> Result<Option<Command<'a>>, AllocError>
    ensures { IfOk result (λ c.
        option_map meaning_of c ≡ list_files listing (map (λ s. s.now) files.now)) }
{
    if files.is_empty() {
        return Ok(None);
    }
    let files = Vec::from_slice(alloc, files)?;
    Ok(Some(Command::List { listing, files }))
}

// What is asked for behind the number of a board.
fn board_listed<'a>(
    alloc: Global,
    board: u16,
    words: &[&'a str],
) -> Result<Option<Command<'a>>, AllocError>
    ensures { IfOk result (λ c.
        option_map meaning_of c ≡ list_board board (map (λ s. s.now) words.now)) }
{
    match words.split_first() {
        Some((word, rest)) if is_decimal(word) => match number_of(word) {
            Some(stat) => files_listed(alloc, Listing::Program(board, stat), rest),
            None => Ok(None),
        },
        _ => files_listed(alloc, Listing::Stats(board), words),
    }
}

/// What the words after `list` ask for.
pub(crate) fn listed<'a>(
    alloc: Global,
    words: &[&'a str],
) -> Result<Option<Command<'a>>, AllocError>
    ensures { IfOk result (λ c.
        option_map meaning_of c ≡ list_words (map (λ s. s.now) words.now)) }
{
    match words.split_first() {
        Some((word, rest)) if is_decimal(word) => match number_of(word) {
            Some(board) => board_listed(alloc, board, rest),
            None => Ok(None),
        },
        _ => files_listed(alloc, Listing::Boards, words),
    }
}
