//! Cells that are overridden alike, as rectangles.
use std::alloc::{AllocError, Global};
use zed_sides::{Loss, Overridden};
use zed_types::{COLUMNS, ROWS, Stamp, Tile};

/// A cell that is overridden: what each side shows, and the union, whose value doesn't show, and the edit that wrote
/// what the union shows.
#[derive(Clone, Copy)]
pub(crate) struct Cell {
    pub(crate) mine: Tile,
    pub(crate) theirs: Tile,
    pub(crate) union: Tile,
    pub(crate) overridden: Overridden,
    pub(crate) writer: Option<Stamp>,
}

/// Cells that are overridden alike, from a column and a row to others, all counted from 0.
#[derive(Clone, Copy)]
pub(crate) struct Block {
    pub(crate) left: usize,
    pub(crate) top: usize,
    pub(crate) right: usize,
    pub(crate) bottom: usize,
    pub(crate) cell: Cell,
    /// Whether other edits wrote some of the cells.
    pub(crate) has_others: bool,
}

impl Block {
    /// How many cells it has.
    pub(crate) fn size(&self) -> usize {
        let wide = self.right.saturating_sub(self.left).saturating_add(1);
        let high = self.bottom.saturating_sub(self.top).saturating_add(1);
        wide.saturating_mul(high)
    }
}

// Whether two cells show the same, and what doesn't show is the same.
fn is_alike(a: &Cell, b: &Cell) -> bool {
    if a.union != b.union || a.overridden != b.overridden {
        return false;
    }
    match a.overridden.lost {
        Loss::Mine => a.mine == b.mine,
        Loss::Theirs => a.theirs == b.theirs,
        Loss::Both => { a.mine == b.mine && a.theirs == b.theirs }
    }
}

// Whether a cell is like another, and isn't in a block yet.
fn fits(cells: &[Option<Cell>], x: usize, y: usize, cell: &Cell) -> bool {
    match cells.get(y.saturating_mul(COLUMNS).saturating_add(x)) {
        Some(Some(other)) => is_alike(other, cell),
        _ => false,
    }
}

fn row_fits(cells: &[Option<Cell>], left: usize, right: usize, y: usize, cell: &Cell) -> bool {
    for x in left..right.saturating_add(1) {
        if !fits(cells, x, y, cell) {
            return false;
        }
    }
    true
}

// How far a block goes to the right.
fn right_of(cells: &[Option<Cell>], x: usize, y: usize, cell: &Cell) -> usize {
    let mut right = x;
    for next in x.saturating_add(1)..COLUMNS {
        if !fits(cells, next, y, cell) {
            return right;
        }
        right = next;
    }
    right
}

// How far it goes down.
fn bottom_of(cells: &[Option<Cell>], left: usize, right: usize, y: usize, cell: &Cell) -> usize {
    let mut bottom = y;
    for next in y.saturating_add(1)..ROWS {
        if !row_fits(cells, left, right, next, cell) {
            return bottom;
        }
        bottom = next;
    }
    bottom
}

// The later one of two writers.
fn later(a: Option<Stamp>, b: Option<Stamp>) -> Option<Stamp> {
    match (a, b) {
        (Some(one), Some(other)) => Some(if one.is_before(other) { other } else { one }),
        (Some(one), None) => Some(one),
        (None, other) => other,
    }
}

// Takes the cell at a place into a block.
fn take_in(cells: &mut Vec<Option<Cell>>, x: usize, y: usize, block: &mut Block) {
    if let Some(place) = cells.get_mut(y.saturating_mul(COLUMNS).saturating_add(x)) {
        if let Some(cell) = *place {
            if cell.writer != block.cell.writer {
                block.has_others = true;
                block.cell.writer = later(cell.writer, block.cell.writer);
            }
        }
        *place = None;
    }
}

// Takes all cells of a block into it.
fn fill(cells: &mut Vec<Option<Cell>>, block: &mut Block) {
    for y in block.top..block.bottom.saturating_add(1) {
        for x in block.left..block.right.saturating_add(1) {
            take_in(cells, x, y, block);
        }
    }
}

/// The blocks of cells that are overridden, row by row. The cells are taken out.
pub(crate) fn blocks_of(
    alloc: Global,
    cells: &mut Vec<Option<Cell>>,
) -> Result<Vec<Block>, AllocError> {
    let mut blocks = Vec::new(alloc);
    for y in 0..ROWS {
        for x in 0..COLUMNS {
            let at = y.saturating_mul(COLUMNS).saturating_add(x);
            if let Some(Some(cell)) = cells.get(at) {
                let cell = *cell;
                let right = right_of(cells.as_slice(), x, y, &cell);
                let mut block = Block {
                    left: x,
                    top: y,
                    right,
                    bottom: bottom_of(cells.as_slice(), x, right, y, &cell),
                    cell,
                    has_others: false,
                };
                fill(cells, &mut block);
                blocks.push(block)?;
            }
        }
    }
    Ok(blocks)
}
