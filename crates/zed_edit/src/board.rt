//! What edits do to the boards of a document.

ghost use Rattle.std.specs.Prelude.{◌≡◌, ◌++◌, ◌∷◌, [], IsTrue, true, map, IfOk, IfErr};
ghost use Rattle.zed_types.specs.Table.{is_in_table};
ghost use Rattle.zed_types.specs.Strings.{board_has_string};
ghost use Rattle.zed_edit.specs.Board.{set_board_property, set_board_cells, remove_board, add_stat, new_properties as properties_of_new, new_board as board_of_new};
ghost use Rattle.zed_edit.specs.Stat.{set_stat as stat_with, remove_stat};
ghost use Rattle.zed_edit.specs.Document.{board_if, change_boards, change_stats_of};

use crate::cells::{new_table, set_cells};
use crate::plain::{Board, Properties, Stat};
use crate::property::set_property;
use crate::stat::{new_stat, player_fields, remove_stats, set_stats};
use std::alloc::Global;
use zed_op::EditError;
use zed_types::{BoardId, BoardSetting, Bytes, Rectangle, Seq, StatId, StatSetting, Tile};

fn set_if(board: &mut Board, b: BoardId, setting: &BoardSetting) -> Result<(), EditError>
    ensures set { IfOk result (λ _.
        board.new ≡ board_if b (set_board_property setting.now) board.old) }
    ensures err { IfErr result (λ e. e ≡ EditError.Memory) }
    ensures memory_only_when { IfErr result (λ e. board_has_string setting.now ≡ true) }
{
    if board.id == b {
        set_property(&mut board.properties, setting)?;
    }
    Ok(())
}

/// Overwrites a register of the board of a name.
pub(crate) fn set_boards(
    boards: &mut [Board],
    b: BoardId,
    setting: &BoardSetting,
) -> Result<(), EditError>
    ensures set { IfOk result (λ _.
        boards.new ≡ change_boards b (set_board_property setting.now) boards.old) }
    ensures err { IfErr result (λ e. e ≡ EditError.Memory) }
    ensures memory_only_when { IfErr result (λ e. board_has_string setting.now ≡ true) }
{
    for x in boards.iter_mut() {
        set_if(x, b, setting)?;
    }
    Ok(())
}

fn fill_if(board: &mut Board, b: BoardId, r: Rectangle, tile: Tile)
    requires { IsTrue (is_in_table r) }
    ensures { board.new ≡ board_if b (set_board_cells r tile) board.old }
{
    if board.id == b {
        set_cells(&mut board.tiles, r, tile);
    }
}

/// Overwrites cells of the board of a name.
pub(crate) fn fill_boards(boards: &mut [Board], b: BoardId, r: Rectangle, tile: Tile)
    requires { IsTrue (is_in_table r) }
    ensures { boards.new ≡ change_boards b (set_board_cells r tile) boards.old }
{
    for x in boards.iter_mut() {
        fill_if(x, b, r, tile);
    }
}

fn remove_if(board: &mut Board, b: BoardId)
    ensures { board.new ≡ board_if b remove_board board.old }
{
    if board.id == b {
        board.removed = true;
    }
}

/// Marks the board of a name removed.
pub(crate) fn remove_boards(boards: &mut [Board], b: BoardId)
    ensures { boards.new ≡ change_boards b remove_board boards.old }
{
    for x in boards.iter_mut() {
        remove_if(x, b);
    }
}

fn new_properties(alloc: Global, name: &Bytes) -> Result<Properties, EditError>
    ensures result { IfOk result (λ p. p ≡ properties_of_new name.now) }
    ensures err { IfErr result (λ e. e ≡ EditError.Memory) }
{
    Ok(Properties {
        bytes: [255, 30, 12],
        flags: [false; 2],
        time_limit: 0,
        rank: 0,
        exits: [None; 4],
        texts: [name.copy()?, Bytes::new(Vec::new(alloc))],
    })
}

/// A board as it is when it is added, with its player.
pub(crate) fn new_board(
    alloc: Global,
    id: BoardId,
    player: StatId,
    name: &Bytes,
) -> Result<Board, EditError>
    ensures result { IfOk result (λ b. b ≡ board_of_new id player name.now) }
    ensures err { IfErr result (λ e. e ≡ EditError.Memory) }
{
    let properties = new_properties(alloc, name)?;
    let mut stats = Seq::new(alloc);
    stats.push(new_stat(player, true, player_fields()))?;
    Ok(Board {
        id,
        tiles: new_table(),
        properties,
        stats,
        removed: false,
    })
}

fn add_if(board: &mut Board, b: BoardId, stat: Stat) -> Result<(), EditError>
    ensures added { IfOk result (λ _. board.new ≡ board_if b (add_stat stat) board.old) }
    ensures err { IfErr result (λ e. e ≡ EditError.Memory) }
{
    if board.id == b {
        board.stats.push(stat)?;
    }
    Ok(())
}

/// Adds a stat to the board of a name.
pub(crate) fn add_to_boards(boards: &mut [Board], b: BoardId, stat: Stat) -> Result<(), EditError>
    ensures added { IfOk result (λ _. boards.new ≡ change_boards b (add_stat stat) boards.old) }
    ensures err { IfErr result (λ e. e ≡ EditError.Memory) }
{
    for x in boards.iter_mut() {
        add_if(x, b, stat)?;
    }
    Ok(())
}

fn set_stats_of(board: &mut Board, s: StatId, setting: StatSetting)
    ensures { board.new ≡ change_stats_of s (stat_with setting) board.old }
{
    set_stats(board.stats.as_mut_slice(), s, setting);
}

/// Overwrites a register of the stat of a name, whichever board it is on.
pub(crate) fn set_stats_on(boards: &mut [Board], s: StatId, setting: StatSetting)
    ensures { boards.new ≡ map (change_stats_of s (stat_with setting)) boards.old }
{
    for x in boards.iter_mut() {
        set_stats_of(x, s, setting);
    }
}

fn remove_stats_of(board: &mut Board, s: StatId)
    ensures { board.new ≡ change_stats_of s remove_stat board.old }
{
    remove_stats(board.stats.as_mut_slice(), s);
}

/// Marks the stat of a name removed, whichever board it is on, except a player.
pub(crate) fn remove_stats_on(boards: &mut [Board], s: StatId)
    ensures { boards.new ≡ map (change_stats_of s remove_stat) boards.old }
{
    for x in boards.iter_mut() {
        remove_stats_of(x, s);
    }
}
