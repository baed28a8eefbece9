//! The lines of cells that are overridden.
ghost use Rattle.std.specs.Prelude.{◌≡◌, ◌++◌, OnOk};
ghost use Rattle.zed_log.specs.Fields.{tile as tile_words};
ghost use Rattle.zed_report.specs.Lines.{lost_tiles, lost_words, shown_words};

use crate::blocks::{Block, Cell, blocks_of};
use crate::known::{Known, Shower};
use crate::report::Report;
use crate::values::put_tile;
use std::alloc::{AllocError, Global};
use zed_compare::Finding;
use zed_log::put_place;
use zed_sides::{Loss, Overridden, Side};
use zed_types::{BoardId, COLUMNS, ROWS, Stamp, TILES, Tile};

/// A board has at most so many lines of cells; where it has more, they are counted.
const MOST: usize = 12;

// Appends a place by its column and row, both counted from 0.
fn put_cell(out: &mut Vec<u8>, x: usize, y: usize) -> Result<(), AllocError> {
    if x < COLUMNS && y < ROWS {
        put_place(out, (x + 1) as u8, (y + 1) as u8)
    } else {
        Ok(())
    }
}

// Appends the tile of a side that doesn't show.
fn put_lost(report: &mut Report, side: Side, tile: Tile) -> Result<(), AllocError>
    ensures { OnOk result (report.new.text.items
        ≡ report.old.text.items ++ (lost_words side ++ tile_words tile)) }
{
    report.lost(side)?;
    put_tile(&mut report.text, tile)
}

// Appends the tiles of the sides that don't show.
fn put_lost_of(report: &mut Report, cell: &Cell) -> Result<(), AllocError>
    ensures { OnOk result (report.new.text.items ≡ report.old.text.items
        ++ lost_tiles cell.now.overridden.lost cell.now.mine cell.now.theirs) }
{
    match cell.overridden.lost {
        Loss::Mine => put_lost(report, Side::Mine, cell.mine),
        Loss::Theirs => put_lost(report, Side::Theirs, cell.theirs),
        Loss::Both => {
            put_lost(report, Side::Mine, cell.mine)?;
            put_lost(report, Side::Theirs, cell.theirs)
        }
    }
}

// Appends what the union shows in a block, whose that is, and what doesn't show.
fn put_shown(report: &mut Report, block: &Block) -> Result<(), AllocError>
    ensures { OnOk result (report.new.text.items ≡ report.old.text.items
        ++ (tile_words block.now.cell.union
        ++ shown_words block.now.cell.overridden.shown block.now.cell.writer block.now.has_others
        ++ lost_tiles block.now.cell.overridden.lost block.now.cell.mine block.now.cell.theirs)) }
{
    put_tile(&mut report.text, block.cell.union)?;
    report.shown(
        block.cell.overridden.shown,
        block.cell.writer,
        block.has_others,
    )?;
    put_lost_of(report, &block.cell)
}

fn put_corners(report: &mut Report, block: &Block) -> Result<(), AllocError> {
    put_cell(&mut report.text, block.left, block.top)?;
    if 1 < block.size() {
        report.put("-")?;
        put_cell(&mut report.text, block.right, block.bottom)?;
    }
    Ok(())
}

// Appends the line of a block.
fn tell_block(
    report: &mut Report,
    known: &Known<'_, '_>,
    board: BoardId,
    block: &Block,
) -> Result<(), AllocError> {
    report.begin();
    known.put_board(&mut report.text, Shower::Union, board)?;
    report.put("  ")?;
    put_corners(report, block)?;
    report.put(": ")?;
    put_shown(report, block)?;
    report.end()
}

// How many cells of blocks a side lost.
fn cells_lost(blocks: &[Block], side: Loss) -> usize {
    let mut count: usize = 0;
    for block in blocks {
        let lost = block.cell.overridden.lost;
        if lost == side || lost == Loss::Both {
            count = count.saturating_add(block.size());
        }
    }
    count
}

// The least rectangle that has all blocks.
fn around(blocks: &[Block], first: &Block) -> Block {
    let mut all = *first;
    for block in blocks {
        all.left = all.left.min(block.left);
        all.top = all.top.min(block.top);
        all.right = all.right.max(block.right);
        all.bottom = all.bottom.max(block.bottom);
    }
    all
}

// One line for all cells of a board.
fn tell_counts(
    report: &mut Report,
    known: &Known<'_, '_>,
    board: BoardId,
    blocks: &[Block],
) -> Result<(), AllocError> {
    let Some(first) = blocks.first() else {
        return Ok(());
    };
    let (mine, theirs) = (
        cells_lost(blocks, Loss::Mine),
        cells_lost(blocks, Loss::Theirs),
    );
    report.begin();
    known.put_board(&mut report.text, Shower::Union, board)?;
    report.put("  ")?;
    report.counted(mine.saturating_add(theirs), "cell")?;
    report.put(" in ")?;
    put_corners(report, &around(blocks, first))?;
    report.put(": ")?;
    report.number(mine)?;
    report.put(" of mine and ")?;
    report.number(theirs)?;
    report.put(" of theirs don't show")?;
    report.end()
}

/// How many of the first findings are of cells of a board.
pub(crate) fn count_cells(findings: &[Finding], board: BoardId) -> usize {
    for (i, finding) in findings.iter().enumerate() {
        match finding {
            Finding::Cell(other, _, _) if *other == board => {}
            _ => return i,
        }
    }
    findings.len()
}

// What a side or the union shows in a cell. Of a board that it doesn't have it is empty.
fn tile_of(known: &Known<'_, '_>, shower: Shower, board: BoardId, i: usize) -> Tile {
    match known.board(shower, board) {
        Some(board) => board.cells.table().get(i).copied().unwrap_or(Tile::EMPTY),
        None => Tile::EMPTY,
    }
}

fn cell_of(
    known: &Known<'_, '_>,
    board: BoardId,
    i: usize,
    overridden: Overridden,
    writer: Option<Stamp>,
) -> Cell {
    Cell {
        mine: tile_of(known, Shower::Of(Side::Mine), board, i),
        theirs: tile_of(known, Shower::Of(Side::Theirs), board, i),
        union: tile_of(known, Shower::Union, board, i),
        overridden,
        writer,
    }
}

// The cells of a board that these findings are of, row after row.
fn cells_found(
    alloc: Global,
    known: &Known<'_, '_>,
    board: BoardId,
    findings: &[Finding],
) -> Result<Vec<Option<Cell>>, AllocError> {
    let edits = known.merged.edits();
    let writers = known.drawings.writers(alloc, edits, board)?;
    let mut cells = Vec::new(alloc);
    for _ in 0..TILES {
        cells.push(None)?;
    }
    for finding in findings {
        if let Finding::Cell(_, i, overridden) = finding {
            if let Some(place) = cells.get_mut(*i) {
                let writer = writers.get(*i).copied().unwrap_or(None);
                *place = Some(cell_of(known, board, *i, *overridden, writer));
            }
        }
    }
    Ok(cells)
}

/// Appends the lines of the cells of a board that these findings are of: one for each rectangle of
/// cells that are overridden alike, or one for all, where that were more than twelve.
pub(crate) fn tell_cells(
    alloc: Global,
    report: &mut Report,
    known: &Known<'_, '_>,
    board: BoardId,
    findings: &[Finding],
) -> Result<(), AllocError> {
    let mut cells = cells_found(alloc, known, board, findings)?;
    let blocks = blocks_of(alloc, &mut cells)?;
    if MOST < blocks.len() {
        return tell_counts(report, known, board, blocks.as_slice());
    }
    for block in &blocks {
        tell_block(report, known, board, block)?;
    }
    Ok(())
}
