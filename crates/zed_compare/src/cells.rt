//! Cells that are overridden.
ghost use Rattle.std.specs.Prelude.{◌≡◌, ◌++◌, ◌<◌, OnOk};
ghost use Rattle.zed_join.specs.declared.sides.Views.{Views as TheViews};
ghost use Rattle.zed_compare.specs.Findings.{cell_findings, cell_of, of_registers, table_findings};
ghost use Rattle.zed_join.specs.Things.{IsBoard};

use crate::finding::Finding;
use std::alloc::AllocError;
use zed_join::BoardIn;
use zed_sides::{Overridden, Readings};
use zed_types::{BoardId, TILES, Tile};

// What is overridden of a cell, by four tables.
fn overridden_at(
    base: &[Tile; TILES],
    mine: &[Tile; TILES],
    theirs: &[Tile; TILES],
    union: &[Tile; TILES],
    i: usize,
) -> Option<Overridden>
    requires { i < 1500 }
    ensures { result ≡ cell_of base.now mine.now theirs.now union.now i }
{
    Readings {
        base: base[i],
        mine: mine[i],
        theirs: theirs[i],
        union: union[i],
    }
    .overridden()
}

// Appends the cells of a board that are overridden, by its tables.
fn find_in_tables(
    found: &mut Vec<Finding>,
    id: BoardId,
    base: &[Tile; TILES],
    mine: &[Tile; TILES],
    theirs: &[Tile; TILES],
    union: &[Tile; TILES],
) -> Result<(), AllocError>
    ensures { OnOk result (found.new.items
        ≡ found.old.items ++ table_findings id base.now mine.now theirs.now union.now) }
{
    for i in 0..TILES {
        match overridden_at(base, mine, theirs, union, i) {
            Some(overridden) => found.push(Finding::Cell(id, i, overridden))?,
            None => {}
        }
    }
    Ok(())
}

// Appends the cells that are overridden of a board that all views have.
fn find_in_views(
    found: &mut Vec<Finding>,
    id: BoardId,
    board: &BoardIn<'_>,
) -> Result<(), AllocError>
    ensures { OnOk result ((w : TheViews) → IsBoard w id board.now
        → found.new.items ≡ found.old.items ++ cell_findings w id) }
{
    match (board.base, board.mine, board.theirs, board.union) {
        (Some(base), Some(mine), Some(theirs), Some(union)) => find_in_tables(
            found,
            id,
            base.cells.table(),
            mine.cells.table(),
            theirs.cells.table(),
            union.cells.table(),
        ),
        _ => Ok(()),
    }
}

/// Appends the cells that are overridden of a board that all views have.
pub(crate) fn find_cells(
    found: &mut Vec<Finding>,
    id: BoardId,
    board: &BoardIn<'_>,
) -> Result<(), AllocError>
    ensures all { OnOk result ((w : TheViews) → IsBoard w id board.now
        → found.new.items ≡ found.old.items ++ cell_findings w id) }
    ensures registers { OnOk result ((w : TheViews) → IsBoard w id board.now
        → of_registers found.new.items ≡ of_registers found.old.items ++ cell_findings w id) }
{
    find_in_views(found, id, board)
}
