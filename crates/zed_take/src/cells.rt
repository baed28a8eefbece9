//! Cells that differ, as rectangles.
ghost use Rattle.std.specs.Prelude.{◌<◌};

use crate::plan::Plan;
use crate::plan_error::PlanError;
use zed_op::Op;
use zed_types::{BoardId, COLUMNS, ROWS, Rectangle, TILES, Tile};

// A table on the way to another one.
#[derive(Drop)]
struct Canvas {
    now: [Tile; TILES],
    then: [Tile; TILES],
}

impl Canvas {
    // Whether a cell is to become this tile, and isn't it yet.
    fn awaits(&self, row: usize, column: usize, tile: Tile) -> bool
        requires row { row < 25 }
        requires column { column < 60 }
    {
        let spot = row * COLUMNS + column;
        self.then[spot] == tile && self.now[spot] != tile
    }

    // How far the cells of a row from one column on are to become this tile: the last of these columns.
    fn last_column(&self, row: usize, column: usize, tile: Tile) -> usize
        requires row { row < 25 }
        requires column { column < 60 }
        ensures { result < 60 }
    {
        let mut last = column;
        while last + 1 < COLUMNS && self.awaits(row, last + 1, tile) {
            last += 1;
        }
        last
    }

    // Whether all cells of a row from one column to another are to become this tile.
    fn is_row(&self, row: usize, first: usize, last: usize, tile: Tile) -> bool
        requires row { row < 25 }
        requires last { last < 60 }
    {
        for column in first..last + 1 {
            if !self.awaits(row, column, tile) {
                return false;
            }
        }
        true
    }

    // How far the rows from one on have such cells in these columns: the last of these rows.
    fn last_row(&self, row: usize, first: usize, last: usize, tile: Tile) -> usize
        requires row { row < 25 }
        requires last { last < 60 }
        ensures { result < 25 }
    {
        let mut bottom = row;
        while bottom + 1 < ROWS && self.is_row(bottom + 1, first, last, tile) {
            bottom += 1;
        }
        bottom
    }

    fn paint(&mut self, top: usize, bottom: usize, first: usize, last: usize, tile: Tile)
        requires bottom { bottom < 25 }
        requires last { last < 60 }
    {
        for row in top..bottom + 1 {
            for column in first..last + 1 {
                self.now[row * COLUMNS + column] = tile;
            }
        }
    }
}

/// Plans to set the cells of a board that differ, and no others, by rectangles of one tile each: from the upper left, each as wide as
/// it can be, and then as high.
pub(crate) fn plan_cells(
    plan: &mut Plan,
    board: BoardId,
    before: &[Tile; TILES],
    after: &[Tile; TILES],
) -> Result<(), PlanError> {
    let mut canvas = Canvas {
        now: *before,
        then: *after,
    };
    for row in 0..ROWS {
        for column in 0..COLUMNS {
            let tile = after[row * COLUMNS + column];
            if canvas.awaits(row, column, tile) {
                let last = canvas.last_column(row, column, tile);
                let bottom = canvas.last_row(row, column, last, tile);
                canvas.paint(row, bottom, column, last, tile);
                let cells = Rectangle {
                    left: column as u8 + 1,
                    top: row as u8 + 1,
                    right: last as u8 + 1,
                    bottom: bottom as u8 + 1,
                };
                plan.add(Op::SetCells(board, cells, tile))?;
            }
        }
    }
    Ok(())
}
