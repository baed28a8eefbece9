//! Actions read from words.
ghost use Rattle.std.specs.Prelude.{◌≡◌, ◌⊎◌, MatchResult, None, Some};
ghost use Rattle.zed_action.specs.Words.{Says, action_of, board_add_of, board_name_of, board_remove_of, cells_of, delete_of, exit_of, insert_of, numbered_of, rank_of, spot_of, stat_add_of, stat_remove_of, words_of};

use crate::action::Action;
use crate::error::ActionError;
use crate::fields::{plain, rectangle, side, tile, with_ends};
use crate::number::{byte, cycle, long, short};
use std::alloc::Global;

fn board_add(alloc: Global, rest: &[&str]) -> Result<Action, ActionError>
    ensures { Says result (board_add_of (words_of rest.now)) }
{
    let [name] = rest else {
        return Err(ActionError::BadAction);
    };
    Ok(Action::BoardAdd(plain(alloc, name)?))
}

fn board_name(alloc: Global, rest: &[&str]) -> Result<Action, ActionError>
    ensures { Says result (board_name_of (words_of rest.now)) }
{
    let [board, name] = rest else {
        return Err(ActionError::BadAction);
    };
    let Some(board) = short(board) else {
        return Err(ActionError::BadAction);
    };
    Ok(Action::BoardName(board, plain(alloc, name)?))
}

/// A board, a stat and a position.
fn spot(board: &str, stat: &str, position: &str) -> Option<(u16, u16, u32)>
    ensures { result ≡ spot_of board.now stat.now position.now }
{
    let board = short(board)?;
    let stat = short(stat)?;
    let position = long(position)?;
    Some((board, stat, position))
}

fn insert(alloc: Global, rest: &[&str]) -> Result<Action, ActionError>
    ensures { Says result (insert_of (words_of rest.now)) }
{
    let [board, stat, position, text] = rest else {
        return Err(ActionError::BadAction);
    };
    let Some((board, stat, position)) = spot(board, stat, position) else {
        return Err(ActionError::BadAction);
    };
    let bytes = with_ends(alloc, text)?;
    Ok(Action::Insert {
        board,
        stat,
        position,
        bytes,
    })
}

fn board_remove(rest: &[&str]) -> Option<Action>
    ensures { result ≡ board_remove_of (words_of rest.now) }
{
    let [board] = rest else { return None };
    Some(Action::BoardRemove(short(board)?))
}

fn exit(rest: &[&str]) -> Option<Action>
    ensures { result ≡ exit_of (words_of rest.now) }
{
    let [board, direction, to] = rest else {
        return None;
    };
    let board = short(board)?;
    let direction = side(direction)?;
    let to = short(to)?;
    Some(Action::Exit(board, direction, to))
}

fn rank(rest: &[&str]) -> Option<Action>
    ensures { result ≡ rank_of (words_of rest.now) }
{
    let [board, value] = rest else { return None };
    let board = short(board)?;
    let value = short(value)?;
    Some(Action::Rank(board, value))
}

fn cells(rest: &[&str]) -> Option<Action>
    ensures { result ≡ cells_of (words_of rest.now) }
{
    let [board, x0, y0, x1, y1, element, colour] = rest else {
        return None;
    };
    let board = short(board)?;
    let cells = rectangle(x0, y0, x1, y1)?;
    let tile = tile(element, colour)?;
    Some(Action::Cells(board, cells, tile))
}

fn stat_add(rest: &[&str]) -> Option<Action>
    ensures { result ≡ stat_add_of (words_of rest.now) }
{
    let [board, column, row, ticks] = rest else {
        return None;
    };
    let board = short(board)?;
    let x = byte(column)?;
    let y = byte(row)?;
    let cycle = cycle(ticks)?;
    Some(Action::StatAdd { board, x, y, cycle })
}

fn stat_remove(rest: &[&str]) -> Option<Action>
    ensures { result ≡ stat_remove_of (words_of rest.now) }
{
    let [board, stat] = rest else { return None };
    let board = short(board)?;
    let stat = short(stat)?;
    Some(Action::StatRemove { board, stat })
}

fn delete(rest: &[&str]) -> Option<Action>
    ensures { result ≡ delete_of (words_of rest.now) }
{
    let [board, stat, from, to] = rest else {
        return None;
    };
    let (board, stat, from) = spot(board, stat, from)?;
    let to = long(to)?;
    Some(Action::Delete {
        board,
        stat,
        from,
        to,
    })
}

/// An action that has only numbers and sides, by its first word and those after it.
fn numbered(verb: &str, rest: &[&str]) -> Option<Action>
    ensures { result ≡ numbered_of verb.now (words_of rest.now) }
{
    if verb == "board-remove" {
        board_remove(rest)
    } else if verb == "exit" {
        exit(rest)
    } else if verb == "rank" {
        rank(rest)
    } else if verb == "cells" {
        cells(rest)
    } else if verb == "stat-add" {
        stat_add(rest)
    } else if verb == "stat-remove" {
        stat_remove(rest)
    } else if verb == "delete" {
        delete(rest)
    } else {
        None
    }
}

/// Reads the words of an action: `board-add NAME`, `board-remove B`, `board-name B NAME`, `exit B
/// north|south|west|east TO`, `rank B VALUE`, `cells B X0 Y0 X1 Y1 ELEMENT COLOUR`, `stat-add B X Y
/// CYCLE`, `stat-remove B S`, `insert B S POS TEXT`, in which `|` means the end of a line, and
/// `delete B S FROM TO`. Numbers have only digits.
///
/// # Errors
/// `BadAction` exactly if the words are none of these, or a number is unreadable or too large for
/// its field; `Memory` only if the action keeps bytes of a name or a text.
#[tactic(auto, unfolding(crate::specs::Words::action_of))]
pub fn parse(alloc: Global, words: &[&str]) -> Result<Action, ActionError>
    ensures { Says result (action_of (words_of words.now)) }
{
    let [verb, rest @ ..] = words else {
        return Err(ActionError::BadAction);
    };
    if *verb == "board-add" {
        board_add(alloc, rest)
    } else if *verb == "board-name" {
        board_name(alloc, rest)
    } else if *verb == "insert" {
        insert(alloc, rest)
    } else {
        match numbered(verb, rest) {
            Some(action) => Ok(action),
            None => Err(ActionError::BadAction),
        }
    }
}
