//! What the words may ask for.
use crate::text::Text;
use zed_types::{
    BoardByte, BoardFlag, BoardId, BoardText, FlagSlot, HeaderNumber, KeyColour, Side, StatByte,
    StatId, StatNumber, TextId,
};

/// A board: by the number that it has now, or by its name.
#[derive(Clone, Copy)]
pub enum BoardPlace {
    Numbered(u16),
    Named(BoardId),
}

/// A stat: by the number of its board and its own, or by its name.
#[derive(Clone, Copy)]
pub enum StatPlace {
    Numbered(u16, u16),
    Named(StatId),
}

/// A register of the world, and the value that it is to have.
#[derive(Drop)]
pub enum WorldWish<'a> {
    Number(HeaderNumber, i16),
    Key(KeyColour, bool),
    Saved(bool),
    CurrentBoard(BoardPlace),
    /// At most 20 bytes.
    Name(Text<'a>),
    /// At most 20 bytes.
    Flag(FlagSlot, Text<'a>),
}

/// A property of a board, and the value that it is to have.
#[derive(Drop)]
pub enum BoardWish<'a> {
    Byte(BoardByte, u8),
    Flag(BoardFlag, bool),
    TimeLimit(i16),
    Rank(u16),
    /// None for no board behind the side.
    Exit(Side, Option<BoardPlace>),
    /// At most 50 bytes of a name, at most 58 of a message.
    Text(BoardText, Text<'a>),
    /// The column and the row where the player starts.
    Start(u8, u8),
}

/// The third parameter that a stat is to have.
#[derive(Clone, Copy)]
pub enum P3Wish {
    Byte(u8),
    Board(BoardPlace),
}

/// A field of a stat, and the value that it is to have.
#[derive(Clone, Copy)]
pub enum StatWish {
    Byte(StatByte, u8),
    Number(StatNumber, i16),
    P3(P3Wish),
    Follower(Option<StatPlace>),
    Leader(Option<StatPlace>),
    Text(Option<TextId>),
    /// The text of this other stat.
    Shares(StatPlace),
    /// A column and a row.
    At(u8, u8),
}

/// What is to be set, and where.
#[derive(Drop)]
pub enum Wish<'a> {
    World(WorldWish<'a>),
    Board(BoardPlace, BoardWish<'a>),
    Stat(StatPlace, StatWish),
}
