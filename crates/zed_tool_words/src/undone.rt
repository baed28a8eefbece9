//! The words of `undo`.
ghost use Rattle.std.specs.Prelude.{◌≡◌, IfOk, map, option_map};
ghost use Rattle.zed_set_words.specs.Values.{stamp_of};
ghost use Rattle.zed_tool_words.specs.Commands.{asks_nothing, meaning_of, names_none as names_no_edits, stamps_asked as stamps_for, stamps_in, undone_by};
ghost use Rattle.zed_tool_words.specs.Undone.{meaning};

use crate::asked::{Command, Filter, Others, Trial};
use std::alloc::{AllocError, Global};
use zed_set_words::stamp;
use zed_types::Stamp;

/// Which edits are undone, otherwise than by the files of a pull.
#[derive(Drop)]
pub(crate) struct Choice {
    pub stamps: Vec<Stamp>,
    pub filter: Filter,
    pub last: Option<u16>,
}

// The stamps that words spell, or none if one of them spells none.
fn stamps_of(alloc: Global, words: &[&str]) -> Result<Option<Vec<Stamp>>, AllocError>
    ensures { IfOk result (λ r.
        option_map (λ stamps. stamps.items) r ≡ stamps_in (map (λ s. s.now) words.now)) }
{
    let mut stamps = Vec::new(alloc);
    for word in words {
        match stamp(word) {
            Some(stamp) => stamps.push(stamp)?,
            None => return Ok(None),
        }
    }
    Ok(Some(stamps))
}

/// The stamps that words spell which may be there; `None` if one of them spells none.
pub(crate) fn stamps_asked(
    alloc: Global,
    words: Option<&[&str]>,
) -> Result<Option<Vec<Stamp>>, AllocError>
    ensures { IfOk result (λ r. option_map (λ stamps. stamps.items) r
        ≡ stamps_for (option_map (λ ws. map (λ s. s.now) ws.now) words.entry)) }
{
    match words {
        Some(words) => stamps_of(alloc, words),
        None => Ok(Some(Vec::new(alloc))),
    }
}

// Whether all edits pass.
fn passes_all(filter: Filter) -> bool
    ensures { result ≡ asks_nothing filter }
{
    filter.board.is_none()
        && filter.cell.is_none()
        && filter.replica.is_none()
        && filter.since.is_none()
        && filter.until.is_none()
}

// Whether no edits are named.
fn names_none(choice: &Choice) -> bool
    ensures { result ≡ names_no_edits (meaning choice.now) }
{
    choice.stamps.as_slice().is_empty() && passes_all(choice.filter) && choice.last.is_none()
}

/// What the words ask for: edits are named by the files of a pull, or otherwise.
pub(crate) fn undone<'a>(
    trial: Trial,
    others: Others,
    file: &'a str,
    replica: u16,
    choice: Choice,
    pull: (Option<&'a str>, Option<&'a str>),
) -> Option<Command<'a>>
    ensures { option_map meaning_of result
        ≡ undone_by trial others file.entry.now replica (meaning choice)
        (option_map (λ s. s.now) pull.entry.0) (option_map (λ s. s.now) pull.entry.1) }
{
    let names_no_edit = names_none(&choice);
    match pull {
        (None, None) if !names_no_edit => Some(Command::Undo {
            trial,
            others,
            file,
            replica,
            stamps: choice.stamps,
            filter: choice.filter,
            last: choice.last,
        }),
        (Some(new), Some(old)) if names_no_edit => Some(Command::UndoPull {
            trial,
            others,
            file,
            replica,
            new,
            old,
        }),
        _ => None,
    }
}
