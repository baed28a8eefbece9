//! The registers that are told of, in the order in which they are told.
use zed_types::{BoardFlag, FlagSlot, HeaderNumber, KeyColour, Side as Edge};

/// A register of the world.
#[derive(Clone, Copy)]
pub enum WorldRegister {
    Number(HeaderNumber),
    Key(KeyColour),
    Saved,
    /// The board that the player starts on, and whether it is there.
    StartBoard,
    Name,
    Flag(FlagSlot),
}

/// A register of a board, or two that are told as one.
#[derive(Clone, Copy)]
pub enum BoardRegister {
    Name,
    Message,
    Rank,
    MaxShots,
    Flag(BoardFlag),
    TimeLimit,
    /// The column and the row where the player starts.
    Start,
    /// The board that a side leads to, and whether it is there.
    Exit(Edge),
}

/// A register of a stat, or two that are told as one.
#[derive(Clone, Copy)]
pub enum StatRegister {
    /// Its column and its row.
    Place,
    /// Its steps to the side and down.
    Step,
    /// The tile under it: its element and its colour.
    Under,
    Cycle,
    Position,
    P1,
    P2,
    Follower,
    Leader,
    /// A byte; or the board that a passage leads to, and whether it is there.
    P3,
}

/// The registers of the world.
pub(crate) const WORLD_REGISTERS: [WorldRegister; 29] = [
    WorldRegister::Number(HeaderNumber::Ammo),
    WorldRegister::Number(HeaderNumber::Gems),
    WorldRegister::Number(HeaderNumber::Health),
    WorldRegister::Number(HeaderNumber::Torches),
    WorldRegister::Number(HeaderNumber::TorchTicks),
    WorldRegister::Number(HeaderNumber::EnergizerTicks),
    WorldRegister::Number(HeaderNumber::Score),
    WorldRegister::Number(HeaderNumber::TimePassed),
    WorldRegister::Number(HeaderNumber::Hundredths),
    WorldRegister::Key(KeyColour::Blue),
    WorldRegister::Key(KeyColour::Green),
    WorldRegister::Key(KeyColour::Cyan),
    WorldRegister::Key(KeyColour::Red),
    WorldRegister::Key(KeyColour::Purple),
    WorldRegister::Key(KeyColour::Yellow),
    WorldRegister::Key(KeyColour::White),
    WorldRegister::Saved,
    WorldRegister::StartBoard,
    WorldRegister::Name,
    WorldRegister::Flag(FlagSlot::First),
    WorldRegister::Flag(FlagSlot::Second),
    WorldRegister::Flag(FlagSlot::Third),
    WorldRegister::Flag(FlagSlot::Fourth),
    WorldRegister::Flag(FlagSlot::Fifth),
    WorldRegister::Flag(FlagSlot::Sixth),
    WorldRegister::Flag(FlagSlot::Seventh),
    WorldRegister::Flag(FlagSlot::Eighth),
    WorldRegister::Flag(FlagSlot::Ninth),
    WorldRegister::Flag(FlagSlot::Tenth),
];

/// The properties of a board, but its exits.
pub(crate) const PROPERTIES: [BoardRegister; 8] = [
    BoardRegister::Name,
    BoardRegister::Message,
    BoardRegister::Rank,
    BoardRegister::MaxShots,
    BoardRegister::Flag(BoardFlag::Dark),
    BoardRegister::Flag(BoardFlag::ReEnter),
    BoardRegister::TimeLimit,
    BoardRegister::Start,
];

/// The exits of a board.
pub(crate) const EXITS: [BoardRegister; 4] = [
    BoardRegister::Exit(Edge::North),
    BoardRegister::Exit(Edge::South),
    BoardRegister::Exit(Edge::West),
    BoardRegister::Exit(Edge::East),
];

/// The registers of a stat, but its text.
pub(crate) const FIELDS: [StatRegister; 10] = [
    StatRegister::Place,
    StatRegister::Step,
    StatRegister::Under,
    StatRegister::Cycle,
    StatRegister::Position,
    StatRegister::P1,
    StatRegister::P2,
    StatRegister::Follower,
    StatRegister::Leader,
    StatRegister::P3,
];
