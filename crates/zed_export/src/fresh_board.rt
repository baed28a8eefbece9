//! A new board, as a world file has it.
ghost use Rattle.std.specs.Prelude.{◌≡◌, IfOk};
ghost use Rattle.zed_edit.specs.Board.{new_table as table};
ghost use Rattle.zed_export.specs.Fresh.{board_of, fresh_properties};

use std::alloc::{AllocError, Global};
use zed_edit::new_table;
use zed_types::{Bytes, Seq};
use zed_world::{BoardData, Properties, StatData};

fn properties(alloc: Global) -> Properties
    ensures { result ≡ fresh_properties }
{
    Properties {
        max_shots: 255,
        dark: false,
        north: 0,
        south: 0,
        west: 0,
        east: 0,
        re_enter: false,
        message: Bytes::new(Vec::new(alloc)),
        start_x: 30,
        start_y: 12,
        time_limit: 0,
    }
}

/// A new board with this name: a border of normal walls round the player.
pub fn new_board(alloc: Global, name: Bytes) -> Result<BoardData, AllocError>
    ensures ok { IfOk result (λ board. board ≡ board_of name table) }
{
    let mut stats = Seq::new(alloc);
    stats.push(StatData::standing(30, 12))?;
    Ok(BoardData {
        name,
        tiles: new_table(),
        properties: properties(alloc),
        stats,
    })
}
