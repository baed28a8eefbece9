//! What is found of two sides.
use crate::registers::{BoardRegister, StatRegister, WorldRegister};
use zed_export::ExportError;
use zed_sides::{Overridden, Side};
use zed_types::{BoardId, StatId};

/// Whose world can't be saved.
#[derive(Clone, Copy)]
pub enum Whose {
    Mine,
    Theirs,
    /// That of the union.
    Merged,
}

/// What is found of two sides: a value, or work, of which the union shows something else, or nothing;
/// or what has to be looked at.
#[derive(Clone, Copy)]
pub enum Finding {
    /// A register of the world is overridden.
    World(WorldRegister, Overridden),
    /// A register of a board is.
    Board(BoardId, BoardRegister, Overridden),
    /// A cell of a board is: its place, row after row from 0.
    Cell(BoardId, usize, Overridden),
    /// A register of a stat is.
    Stat(StatId, StatRegister, Overridden),
    /// Both sides changed the program of a stat, by so many edits; both changes are kept.
    BothWrote {
        stat: StatId,
        mine: usize,
        theirs: usize,
    },
    /// A side changed a program by so many edits, and the other one gave the stat another.
    OtherProgram {
        stat: StatId,
        side: Side,
        edits: usize,
    },
    /// A board that this side shows and worked on by so many edits is gone.
    BoardGone {
        board: BoardId,
        side: Side,
        edits: usize,
    },
    /// A stat is.
    StatGone {
        stat: StatId,
        side: Side,
        edits: usize,
    },
    /// A world can't be saved.
    Unsaved(Whose, ExportError),
}
