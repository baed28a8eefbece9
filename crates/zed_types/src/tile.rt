//! Tiles, and the table of a board.
ghost use Rattle.std.specs.Prelude.{◌≡◌};
ghost use Rattle.zed_types.specs.Table.{has_tile, tile_at};

/// Columns of a board's table.
pub const COLUMNS: usize = 60;

/// Rows of a board's table.
pub const ROWS: usize = 25;

/// Tiles of a board's table, row after row.
pub const TILES: usize = 1500;

const _: () = prove!(TILES == COLUMNS * ROWS);

/// What is at one place of a board.
#[derive(Clone, Copy, Debug, PartialEq, Eq, Default)]
pub struct Tile {
    pub element: u8,
    pub colour: u8,
}

impl Tile {
    /// Nothing at all.
    pub const EMPTY: Tile = Tile {
        element: 0,
        colour: 0,
    };
}

/// A place of a board: column 1 to 60 and row 1 to 25 are in the table, all others are outside.
#[derive(Clone, Copy, PartialEq, Eq)]
pub struct Place {
    pub x: u8,
    pub y: u8,
}

/// The places in columns `left` to `right` and rows `top` to `bottom`, all included.
#[derive(Clone, Copy, PartialEq, Eq)]
pub struct Rectangle {
    pub left: u8,
    pub top: u8,
    pub right: u8,
    pub bottom: u8,
}

/// Whether a column and a row, both counted from 1, are in the table.
pub fn has_tile(x: u8, y: u8) -> bool
    ensures { result ≡ has_tile x y }
{
    1 <= x && usize::from(x) <= COLUMNS && 1 <= y && usize::from(y) <= ROWS
}

/// The tile of a table in a column and a row, both counted from 1. Outside the table there is none.
pub fn tile_at(tiles: &[Tile; TILES], x: u8, y: u8) -> Option<Tile>
    ensures { result ≡ tile_at tiles.now x y }
{
    if has_tile(x, y) {
        Some(tiles[COLUMNS * (usize::from(y) - 1) + (usize::from(x) - 1)])
    } else {
        None
    }
}
