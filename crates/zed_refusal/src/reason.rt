//! Why a command was refused.
use thiserror::Error;
use zed_edit::Cause;
use zed_types::Stamp;

/// Why a command was refused that calls no device. Its texts are for whoever debugs; the program
/// prints none of them.
#[derive(Clone, Copy, Debug, PartialEq, Eq, Error)]
pub enum Reason {
    #[error("not a world file")]
    NotZzt,
    #[error("a world file has too many boards")]
    TooManyBoards,
    #[error("a world file ends too early")]
    Truncated,
    #[error("a board of a world file is too large")]
    BadBoardSize,
    #[error("a board of a world file has too many stats")]
    TooManyStats,
    #[error("a world file shares a program with a later stat")]
    BadShare,
    #[error("not an edit file")]
    Magic,
    #[error("an edit file of another version")]
    NewVersion,
    #[error("an edit file of another world")]
    OtherWorld,
    #[error("a record of an edit file has an impossible length")]
    RecordLength,
    #[error("an edit breaks a rule: {0:?}")]
    BadEdit(Cause),
    #[error("an edit file ends inside its head or a record")]
    CutShort,
    #[error("two edits have one stamp, {0:?}")]
    Clash(Stamp),
    #[error("memory ran out before: repair the document first")]
    Stale,
    #[error("the clock is spent")]
    ClockSpent,
    #[error("there is no such thing")]
    NoSuch,
    #[error("the position is outside the text")]
    OutOfRange,
    #[error("no edit makes the world")]
    NoWorld,
    #[error("{0} boards beside the title are too many")]
    BoardsOver(usize),
    #[error("board {board} has {stats} stats beside the player")]
    StatsOver { board: usize, stats: usize },
    #[error("board {board} has {bytes} bytes")]
    BoardOver { board: usize, bytes: usize },
    #[error("these words are no action")]
    BadAction,
    #[error("there is no such board")]
    NoBoard,
}
