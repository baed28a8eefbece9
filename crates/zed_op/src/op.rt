//! Edits and what they do.
use zed_types::{
    BoardId, BoardSetting, ByteRange, Bytes, ElemId, HeaderSetting, Rectangle, Stamp, StatFields,
    StatId, StatSetting, TextId, Tile,
};

/// What an edit does.
#[derive(Drop, PartialEq, Eq)]
pub enum Op {
    /// Makes the world that the bytes of a world file spell.
    Genesis(Bytes),
    /// Sets a header register.
    SetHeader(HeaderSetting),
    /// Adds a new board with this name, at most 50 bytes.
    BoardAdd(Bytes),
    /// Marks a board removed. The title can't be.
    BoardRemove(BoardId),
    /// Sets a register of a board.
    SetBoard(BoardId, BoardSetting),
    /// Sets each cell of a rectangle.
    SetCells(BoardId, Rectangle, Tile),
    /// Adds a stat to a board. No tile changes.
    StatAdd(BoardId, StatFields),
    /// Marks a stat removed. A player stays.
    StatRemove(StatId),
    /// Sets a register of a stat.
    SetStat(StatId, StatSetting),
    /// Adds an empty text.
    TextAdd,
    /// Puts 1 to 32,767 bytes directly after a byte of the text, or at its head.
    TextInsert(TextId, Option<ElemId>, Bytes),
    /// Marks bytes of the text dead.
    TextDelete(TextId, ByteRange),
}

/// An edit: what it does, and the stamp that says when it was made and by whom.
#[derive(Drop, PartialEq, Eq)]
pub struct Edit {
    pub stamp: Stamp,
    pub op: Op,
}
