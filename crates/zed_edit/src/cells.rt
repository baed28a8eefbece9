//! The tiles of a board.

ghost use Rattle.std.specs.Prelude.{◌≡◌, ◌≤◌, ◌-◌, ◌++◌, IsTrue, take, drop, replicate, length};
ghost use Rattle.zed_types.specs.declared.tile.TheConstants.{TILES};
ghost use Rattle.zed_types.specs.Table.{is_in_table};
ghost use Rattle.zed_edit.specs.Board.{set_cells as cells_with, new_table as table_of_new, wall_tile, empty_tile, player_tile};

use zed_types::{COLUMNS, Rectangle, TILES, Tile};

/// A normal wall in yellow, as round a new board.
const WALL: Tile = Tile {
    element: 22,
    colour: 0x0e,
};

/// The player's own tile.
const PLAYER: Tile = Tile {
    element: 4,
    colour: 0x1f,
};

/// What is inside the walls of a new board.
const INSIDE: Rectangle = Rectangle {
    left: 2,
    top: 2,
    right: 59,
    bottom: 24,
};

/// The place of the player of a new board.
const MIDDLE: Rectangle = Rectangle {
    left: 30,
    top: 12,
    right: 30,
    bottom: 12,
};

fn fill_row(tiles: &mut [Tile; TILES], from: usize, to: usize, tile: Tile)
    requires order { from ≤ to }
    requires within { to ≤ TILES }
    ensures { tiles.new ≡ take from tiles.old ++ (replicate (to - from) tile ++ drop to tiles.old) }
{
    tiles[from..to].fill(tile);
}

/// Overwrites each cell of a rectangle.
pub(crate) fn set_cells(tiles: &mut [Tile; TILES], r: Rectangle, tile: Tile)
    requires { IsTrue (is_in_table r) }
    ensures { tiles.new ≡ cells_with r tile tiles.old }
{
    let left = usize::from(r.left) - 1;
    let right = usize::from(r.right);
    for row in usize::from(r.top) - 1..usize::from(r.bottom) {
        fill_row(tiles, row * COLUMNS + left, row * COLUMNS + right, tile);
    }
}

/// The tiles of a board that is added: yellow walls round an empty inside, and the player's tile in the middle.
pub fn new_table() -> [Tile; TILES]
    ensures { result ≡ table_of_new }
{
    let mut tiles = [WALL; TILES];
    set_cells(&mut tiles, INSIDE, Tile::EMPTY);
    set_cells(&mut tiles, MIDDLE, PLAYER);
    tiles
}
