//! All that is found of two sides.
ghost use Rattle.std.specs.Prelude.{◌≡◌, ◌++◌, OnOk, flat_map};
ghost use Rattle.zed_types.specs.declared.names.BoardId.{BoardId as TheBoard};
ghost use Rattle.zed_live.specs.Board.{shown_board};
ghost use Rattle.zed_live.specs.BoardStats.{shown_stats};
ghost use Rattle.zed_live.specs.Stat.{shown_stat};
ghost use Rattle.zed_compare.specs.Findings.{board_findings, cell_findings, exits, of_registers, properties, register_findings, shown_board_findings, shown_stat_findings, stat_findings};
ghost use Rattle.zed_join.specs.Things.{IsBoard};

use crate::boards::{find_exits, find_properties};
use crate::cells::find_cells;
use crate::finding::Finding;
use crate::programs::find_program;
use crate::removals::{find_gone_board, find_gone_stat};
use crate::stats::find_fields;
use crate::world::find_in_world;
use std::alloc::AllocError;
use zed_join::{BoardIn, StatIn, Views, Work, is_shown};
use zed_live::LiveBoard;
use zed_sides::Side;
use zed_stats::LiveStat;
use zed_types::{BoardId, StatId};

// What is found of a stat that the union shows.
fn find_shown_stat(
    found: &mut Vec<Finding>,
    views: &Views<'_>,
    work: &Work,
    board: &BoardIn<'_>,
    id: StatId,
) -> Result<(), AllocError>
    ensures { OnOk result ((b : TheBoard) → IsBoard views.now b board.now
        → of_registers found.new.items
        ≡ of_registers found.old.items ++ stat_findings views.now b id) }
{
    let stat = StatIn::of(board, id);
    find_fields(found, views, id, &stat)?;
    find_program(found, work, id, &stat)
}

// What is found of a stat that it doesn't show, where a side does.
fn find_gone_on(
    found: &mut Vec<Finding>,
    work: &Work,
    board: &BoardIn<'_>,
    id: StatId,
    side: Side,
) -> Result<(), AllocError>
    ensures { OnOk result (of_registers found.new.items ≡ of_registers found.old.items) }
{
    if !is_shown(board.on(side)) {
        return Ok(());
    }
    let stat = StatIn::of(board, id);
    find_gone_stat(found, work, id, side, stat.on(side))
}

// What is found of a stat of a board that the union shows.
fn find_stat(
    found: &mut Vec<Finding>,
    views: &Views<'_>,
    work: &Work,
    board: &BoardIn<'_>,
    id: StatId,
    shown: &LiveStat,
) -> Result<(), AllocError>
    ensures { OnOk result ((b : TheBoard) → IsBoard views.now b board.now
        → of_registers found.new.items ≡ of_registers found.old.items
        ++ shown_stat_findings views.now b (shown_stat id shown.now)) }
{
    if !shown.removed {
        return find_shown_stat(found, views, work, board, id);
    }
    find_gone_on(found, work, board, id, Side::Theirs)?;
    find_gone_on(found, work, board, id, Side::Mine)
}

// What is found of the stats of a board that the union shows.
fn find_stats(
    found: &mut Vec<Finding>,
    views: &Views<'_>,
    work: &Work,
    board: &BoardIn<'_>,
    shown: &LiveBoard,
) -> Result<(), AllocError>
    ensures { OnOk result ((b : TheBoard) → IsBoard views.now b board.now
        → of_registers found.new.items ≡ of_registers found.old.items
        ++ flat_map (shown_stat_findings views.now b) (shown_stats shown.now.stats)) }
{
    for j in 0..shown.stats.count() {
        let (id, stat) = shown.stats.at(j);
        find_stat(found, views, work, board, id, stat)?;
    }
    Ok(())
}

// What is found of a board that the union doesn't show.
fn find_gone(
    found: &mut Vec<Finding>,
    work: &Work,
    id: BoardId,
    board: &BoardIn<'_>,
) -> Result<(), AllocError>
    ensures { OnOk result (of_registers found.new.items ≡ of_registers found.old.items) }
{
    find_gone_board(found, work, id, Side::Theirs, is_shown(board.theirs))?;
    find_gone_board(found, work, id, Side::Mine, is_shown(board.mine))
}

// What is found of a board that the union shows.
#[tactic(auto, using(crate::proofs::Kept::four))]
fn find_shown(
    found: &mut Vec<Finding>,
    views: &Views<'_>,
    work: &Work,
    id: BoardId,
    board: &BoardIn<'_>,
    shown: &LiveBoard,
) -> Result<(), AllocError>
    requires { IsBoard views.now id board.now }
    ensures { OnOk result (of_registers found.new.items ≡ of_registers found.old.items
        ++ (((board_findings views.now id properties ++ cell_findings views.now id)
        ++ board_findings views.now id exits)
        ++ flat_map (shown_stat_findings views.now id) (shown_stats shown.now.stats))) }
{
    find_properties(found, views, id, board)?;
    find_cells(found, id, board)?;
    find_exits(found, views, id, board)?;
    find_stats(found, views, work, board, shown)
}

// What is found of a board of the union.
fn find_board(
    found: &mut Vec<Finding>,
    views: &Views<'_>,
    work: &Work,
    id: BoardId,
    shown: &LiveBoard,
) -> Result<(), AllocError>
    ensures { OnOk result (of_registers found.new.items ≡ of_registers found.old.items
        ++ shown_board_findings views.now (shown_board id shown.now)) }
{
    let board = BoardIn::of(views, id);
    if shown.is_removed() {
        find_gone(found, work, id, &board)
    } else {
        find_shown(found, views, work, id, &board, shown)
    }
}

// What is found of the boards of the union.
fn find_boards(found: &mut Vec<Finding>, views: &Views<'_>, work: &Work) -> Result<(), AllocError>
    ensures { OnOk result (of_registers found.new.items ≡ of_registers found.old.items
        ++ flat_map (shown_board_findings views.now) views.now.union.boards) }
{
    for i in 0..views.union.boards() {
        let (id, board) = views.union.board(i);
        find_board(found, views, work, id, board)?;
    }
    Ok(())
}

/// Appends what is found of two sides: in the world, and then board by board.
pub fn find_all(found: &mut Vec<Finding>, views: &Views<'_>, work: &Work) -> Result<(), AllocError>
    ensures { OnOk result (of_registers found.new.items
        ≡ of_registers found.old.items ++ register_findings views.now) }
{
    find_in_world(found, views)?;
    find_boards(found, views, work)
}
