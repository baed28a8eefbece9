//! The cells of a board.

ghost use Rattle.std.specs.Prelude.{◌≡◌, ◌≤◌, ◌<◌, ◌+◌, ◌&&◌, ◌==◌, nat_le, nat_lt, IsTrue, IfOk, length, map, replicate, slice_get, Some};
ghost use Rattle.zed_types.specs.Table.{index_of};
ghost use Rattle.zed_types.specs.declared.tile.TheConstants.{TILES};
ghost use Rattle.zed_types.specs.Register.{written_at};
ghost use Rattle.zed_types.specs.Table.{is_in_table};
ghost use Rattle.zed_cells.specs.Cells.{with_stamps, tiles_of, keep_where, set_cells};

use crate::keep::keep_later;
use std::alloc::{AllocError, Global};
use std::marker::Model;
use zed_types::{COLUMNS, Place, Rectangle, Stamp, TILES, Tile, Written};

/// The cells of a board row after row, each a register. Once they are made they take no more memory.
#[derive(Drop)]
pub struct Cells {
    tiles: [Tile; TILES],
    /// The stamp of each tile's write.
    stamps: Vec<Stamp>,
}

impl Model for Cells {
    ghost use Rattle.std.specs.Prelude.{◌≡◌, List, length};
    ghost use Rattle.zed_types.specs.declared.written.Written.{Written as TheWritten};
    ghost use Rattle.zed_types.specs.declared.tile.Tile.{Tile as TheTile};
    ghost use Rattle.zed_cells.specs.Cells.{with_stamps};

    ghost Value = { List (TheWritten TheTile) };

    ghost view = { λ c. with_stamps c.tiles c.stamps.items };

    ghost invariant = { λ c. length c.stamps.items ≡ 1500 };
}

fn stamp_each(alloc: Global, stamp: Stamp) -> Result<Vec<Stamp>, AllocError>
    ensures { IfOk result (λ v. v.items ≡ replicate TILES stamp) }
{
    let mut stamps = Vec::new(alloc);
    for _ in 0..TILES {
        stamps.push(stamp)?;
    }
    Ok(stamps)
}

fn set_cell(tiles: &mut [Tile; TILES], stamps: &mut Vec<Stamp>, i: usize, stamp: Stamp, tile: Tile)
    requires within { i < TILES }
    requires whole { length stamps.old.items ≡ TILES }
    ensures whole { length stamps.new.items ≡ TILES }
    ensures cells { with_stamps tiles.new stamps.new.items
        ≡ keep_where (λ k. k == i) (written_at stamp tile) (with_stamps tiles.old stamps.old.items) }
{
    let mut cell = Written {
        stamp: stamps[i],
        value: tiles[i],
    };
    keep_later(&mut cell, Written { stamp, value: tile });
    tiles[i] = cell.value;
    stamps[i] = cell.stamp;
}

fn set_row(
    tiles: &mut [Tile; TILES],
    stamps: &mut Vec<Stamp>,
    from: usize,
    to: usize,
    stamp: Stamp,
    tile: Tile,
)
    requires order { from ≤ to }
    requires within { to ≤ TILES }
    requires whole { length stamps.old.items ≡ TILES }
    ensures whole { length stamps.new.items ≡ TILES }
    ensures cells { with_stamps tiles.new stamps.new.items
        ≡ keep_where (λ k. nat_le from k && nat_lt k to) (written_at stamp tile)
        (with_stamps tiles.old stamps.old.items) }
{
    for i in from..to {
        set_cell(tiles, stamps, i, stamp, tile);
    }
}

fn set_rows(
    tiles: &mut [Tile; TILES],
    stamps: &mut Vec<Stamp>,
    cells: Rectangle,
    stamp: Stamp,
    tile: Tile,
)
    requires table { IsTrue (is_in_table cells) }
    requires whole { length stamps.old.items ≡ TILES }
    ensures whole { length stamps.new.items ≡ TILES }
    ensures cells { with_stamps tiles.new stamps.new.items
        ≡ set_cells cells (written_at stamp tile) (with_stamps tiles.old stamps.old.items) }
{
    let left = usize::from(cells.left) - 1;
    let right = usize::from(cells.right);
    for row in usize::from(cells.top) - 1..usize::from(cells.bottom) {
        set_row(
            tiles,
            stamps,
            row * COLUMNS + left,
            row * COLUMNS + right,
            stamp,
            tile,
        );
    }
}

// A proof knows the length of an array that is passed, and not of one in a field.
fn whole(tiles: &[Tile; TILES]) -> &[Tile; TILES]
    ensures result { result.now ≡ tiles.now }
    ensures within { length tiles.now ≡ TILES }
{
    tiles
}

impl Cells {
    /// The cells of a board that one edit made.
    pub fn new(alloc: Global, tiles: [Tile; TILES], stamp: Stamp) -> Result<Cells, AllocError>
        ensures { IfOk result (λ c. c ≡ map (written_at stamp) tiles) }
    {
        let stamps = stamp_each(alloc, stamp)?;
        Ok(Cells { tiles, stamps })
    }

    /// Gives each cell of a rectangle a tile, unless it has one with a stamp as late or later.
    pub fn set(&mut self, cells: Rectangle, stamp: Stamp, tile: Tile)
        requires { IsTrue (is_in_table cells) }
        ensures { self.new ≡ set_cells cells (written_at stamp tile) self.old }
    {
        set_rows(&mut self.tiles, &mut self.stamps, cells, stamp, tile);
    }

    /// The tile at a place of the table, columns 1 to 60 and rows 1 to 25.
    pub fn get(&self, place: Place) -> Tile
        requires column { (1 ≤ place.x) × (place.x ≤ 60) }
        requires row { (1 ≤ place.y) × (place.y ≤ 25) }
        ensures { slice_get (tiles_of self.now) (index_of place) ≡ Some result }
    {
        let column = usize::from(place.x) - 1;
        let row = usize::from(place.y) - 1;
        let tiles = self.table();
        tiles[row * COLUMNS + column]
    }

    /// All tiles, row after row.
    pub fn table(&self) -> &[Tile; TILES]
        ensures result { result.now ≡ tiles_of self.now }
        ensures within { length self.now ≡ TILES }
    {
        whole(&self.tiles)
    }
}
