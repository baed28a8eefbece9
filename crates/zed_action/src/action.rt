//! The actions of an author.
use zed_types::{Bytes, Rectangle, Side, Tile};

/// An action of an author. Boards and stats are given by the numbers that they have now. Boards
/// that aren't removed are numbered from 0, the title first, and so are the stats of a board, the
/// player first.
#[derive(Drop)]
pub enum Action {
    /// A new board with this name.
    BoardAdd(Bytes),
    /// The board is removed.
    BoardRemove(u16),
    /// The board gets this name.
    BoardName(u16, Bytes),
    /// The board's exit on a side leads to another board, or nowhere if that is 0.
    Exit(u16, Side, u16),
    /// The board gets this rank.
    Rank(u16, u16),
    /// Each cell of a rectangle gets this tile.
    Cells(u16, Rectangle, Tile),
    /// A new stat at a column and a row, with this cycle.
    StatAdd {
        board: u16,
        x: u8,
        y: u8,
        cycle: i16,
    },
    /// The stat is removed.
    StatRemove {
        board: u16,
        stat: u16,
    },
    /// Bytes are put into the program of a stat, at a position among its bytes.
    Insert {
        board: u16,
        stat: u16,
        position: u32,
        bytes: Bytes,
    },
    /// The bytes from one position up to another, without the latter, are taken out of the program
    /// of a stat.
    Delete {
        board: u16,
        stat: u16,
        from: u32,
        to: u32,
    },
}
