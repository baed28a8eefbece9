//! What is found in a world, and where.
use zed_types::{Bytes, Place, Side, Tile};

/// Where something was found.
#[derive(Clone, Copy, PartialEq, Eq)]
pub enum Spot {
    /// The world as a whole.
    World,
    /// A board, by its number.
    Board(usize),
    /// A tile: the number of its board, its place, and what it is.
    Tile(usize, Place, Tile),
    /// A stat: the number of its board and its own, its place, and the tile there. Outside the
    /// table there is none.
    Stat(usize, usize, Place, Option<Tile>),
}

/// What was found.
#[derive(Drop)]
pub enum What {
    /// The file of the world has so many bytes, over 350,000.
    LongFile(usize),
    /// The name of the world has so many bytes, over 8.
    LongWorldName(usize),
    /// The body of the board has so many bytes, over 20,000.
    LongBody(usize),
    /// The name of the board has so many bytes, over 34.
    LongBoardName(usize),
    /// The name of the board or of the world is UTF-8.
    Utf8Name,
    /// No tile of the board is a player.
    NoPlayer,
    /// So many tiles of the board are players, more than one.
    Players(usize),
    /// The exit of this side leads to its own board.
    ExitToItself(Side),
    /// The element is over 53. So many tiles of the board have it, and this is the first.
    UnknownElement(usize),
    /// The element needs a stat, and there is none.
    NoStat,
    /// The stat is outside the table.
    OutsideTable,
    /// The element has no use for a stat.
    NeedlessStat,
    /// The passage leads to its own board.
    PassageToItself,
    /// The last line of the program has no end.
    NoEndOfLine,
    /// The program has a byte 10, the first of them at this place.
    LineFeed(usize),
    /// The program is UTF-8.
    Utf8Program,
    /// At this place of the program a command names this label, which no program of the board has.
    NoLabel(usize, Bytes),
    /// The choice at this place leads to this label, which no program of the board has.
    NoChoice(usize, Bytes),
    /// At this place a line gives a name, and the first line gives none.
    LowName(usize),
    /// The line of text at this place, which is said with others, has so many columns, over 42.
    LongLine(usize, usize),
    /// The command at this place is this word, which is neither a command nor a label of the board.
    NoCommand(usize, Bytes),
    /// The command or step at this place names no direction where one belongs.
    NoDirection(usize),
    /// The command at this place names no kind of tile where one belongs.
    NoKind(usize),
    /// The command at this place names no counter.
    NoCounter(usize),
    /// The command at this place asks for this flag, which no program sets.
    UnsetFlag(usize, Bytes),
    /// The command at this place binds to this name, which no program of the board has.
    NoName(usize, Bytes),
}

/// What was found, and where.
#[derive(Drop)]
pub struct Finding {
    pub spot: Spot,
    pub what: What,
}
