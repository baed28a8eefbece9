//! Filters of edits, as words give them.
use zed_types::{BoardId, Stamp};

/// A board that is asked for.
#[derive(Clone, Copy, PartialEq, Eq)]
pub enum BoardChoice {
    /// By its number of today: boards that are removed have none.
    Number(u16),
    /// By its name, removed or not.
    Name(BoardId),
}

/// Which edits are meant: those that pass all given filters.
#[derive(Clone, Copy, PartialEq, Eq)]
pub struct Filter {
    /// The edits of this board: the one that made it; those that set its properties or its cells,
    /// add a stat or remove the board; those of its stats, removed or not; and those of texts that
    /// its stats have.
    pub board: Option<BoardChoice>,
    /// Board, by its number of today, column and row: the edits that set this cell, and the one that
    /// made the board.
    pub cell: Option<(u16, u16, u16)>,
    /// The edits of this replica.
    pub replica: Option<u16>,
    /// The edits of this stamp or a later one.
    pub since: Option<Stamp>,
    /// The edits of this stamp or an earlier one.
    pub until: Option<Stamp>,
}
