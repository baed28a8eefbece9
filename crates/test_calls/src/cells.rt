//! Cells whose growths are refused.
use crate::growths::{refuse_each, turn_of};
use std::alloc::{AllocError, Global};
use test_rows::{Turn, refuse, was_refused};
use zed_cells::Cells;
use zed_types::{Place, Rectangle, Stamp, TILES, Tile};

const LION: Tile = Tile {
    element: 41,
    colour: 0x0c,
};

const GEM: Tile = Tile {
    element: 7,
    colour: 0x0b,
};

const ALL: Rectangle = Rectangle {
    left: 1,
    top: 1,
    right: 60,
    bottom: 25,
};

const LATE: Stamp = Stamp {
    time: 2,
    replica: 1,
};

/// Whether the last cell has this tile.
fn ends_in(cells: &Cells, tile: Tile) -> bool {
    cells.get(Place { x: 60, y: 25 }) == tile
}

/// Makes the cells of a board with a growth refused.
fn cells_once(alloc: Global, nth: usize) -> Turn {
    refuse(alloc, nth);
    match Cells::new(alloc, [LION; TILES], Stamp::GENESIS) {
        Ok(cells) => turn_of(alloc, ends_in(&cells, LION), false),
        Err(AllocError) => turn_of(alloc, false, true),
    }
}

#[test]
fn each_growth_of_cells_refused(rt: HostRuntime) {
    assert!(rt; refuse_each!(nth => cells_once(rt.alloc(), nth)));
}

/// Whether all cells are written without memory.
fn are_written(alloc: Global, cells: &mut Cells) -> bool {
    refuse(alloc, 1);
    cells.set(ALL, LATE, GEM);
    !was_refused(alloc) && ends_in(cells, GEM)
}

fn write_without_memory(alloc: Global) -> bool {
    match Cells::new(alloc, [Tile::EMPTY; TILES], Stamp::GENESIS) {
        Ok(mut cells) => are_written(alloc, &mut cells),
        Err(AllocError) => false,
    }
}

#[test]
fn writing_takes_no_memory_refused(rt: HostRuntime) {
    assert!(rt; write_without_memory(rt.alloc()));
}
