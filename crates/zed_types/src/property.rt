//! The registers of a board.

ghost use Rattle.std.specs.Prelude.{◌≡◌, ◌<◌, true, IfOk, OnErr};
ghost use Rattle.zed_types.specs.Strings.{board_has_string};
ghost use Rattle.zed_types.specs.Board.{side_index, side_field, side_of_field, board_byte_index, board_byte_field, board_byte_of_field, board_flag_index, board_flag_field, board_flag_of_field, board_text_index, board_text_field, board_text_of_field};

use crate::bytes::Bytes;
use crate::names::BoardId;
use std::alloc::AllocError;

/// The sides on which a board may have an exit.
#[derive(Clone, Copy, PartialEq, Eq)]
pub enum Side {
    North,
    South,
    West,
    East,
}

impl Side {
    /// Its place among the exits of a board, from 0.
    pub fn index(self) -> u8
        ensures result { result ≡ side_index self }
        ensures within { result < 4 }
    {
        match self {
            Side::North => 0,
            Side::South => 1,
            Side::West => 2,
            Side::East => 3,
        }
    }

    /// Its number in an edit file.
    pub fn field(self) -> u8
        ensures { result ≡ side_field self }
    {
        match self {
            Side::North => 6,
            Side::South => 7,
            Side::West => 8,
            Side::East => 9,
        }
    }

    /// The exit of a board with this number in an edit file, if there is one.
    pub fn of_field(field: u8) -> Option<Side>
        ensures { result ≡ side_of_field field }
    {
        match field {
            6 => Some(Side::North),
            7 => Some(Side::South),
            8 => Some(Side::West),
            9 => Some(Side::East),
            _ => None,
        }
    }
}

/// The properties of a board that are one byte.
#[derive(Clone, Copy, PartialEq, Eq)]
pub enum BoardByte {
    MaxShots,
    StartX,
    StartY,
}

impl BoardByte {
    /// Its place among the bytes of a board, from 0.
    pub fn index(self) -> u8
        ensures result { result ≡ board_byte_index self }
        ensures within { result < 3 }
    {
        match self {
            BoardByte::MaxShots => 0,
            BoardByte::StartX => 1,
            BoardByte::StartY => 2,
        }
    }

    /// Its number in an edit file.
    pub fn field(self) -> u8
        ensures { result ≡ board_byte_field self }
    {
        match self {
            BoardByte::MaxShots => 0,
            BoardByte::StartX => 3,
            BoardByte::StartY => 4,
        }
    }

    /// The byte of a board with this number in an edit file, if there is one.
    pub fn of_field(field: u8) -> Option<BoardByte>
        ensures { result ≡ board_byte_of_field field }
    {
        match field {
            0 => Some(BoardByte::MaxShots),
            3 => Some(BoardByte::StartX),
            4 => Some(BoardByte::StartY),
            _ => None,
        }
    }
}

/// The properties of a board that are on or off.
#[derive(Clone, Copy, PartialEq, Eq)]
pub enum BoardFlag {
    Dark,
    ReEnter,
}

impl BoardFlag {
    /// Its place among the flags of a board, from 0.
    pub fn index(self) -> u8
        ensures result { result ≡ board_flag_index self }
        ensures within { result < 2 }
    {
        match self {
            BoardFlag::Dark => 0,
            BoardFlag::ReEnter => 1,
        }
    }

    /// Its number in an edit file.
    pub fn field(self) -> u8
        ensures { result ≡ board_flag_field self }
    {
        match self {
            BoardFlag::Dark => 1,
            BoardFlag::ReEnter => 2,
        }
    }

    /// The flag of a board with this number in an edit file, if there is one.
    pub fn of_field(field: u8) -> Option<BoardFlag>
        ensures { result ≡ board_flag_of_field field }
    {
        match field {
            1 => Some(BoardFlag::Dark),
            2 => Some(BoardFlag::ReEnter),
            _ => None,
        }
    }
}

/// The properties of a board that are strings: a name of at most 50 bytes, and a message of at most 58.
#[derive(Clone, Copy, PartialEq, Eq)]
pub enum BoardText {
    Name,
    Message,
}

impl BoardText {
    /// Its place among the texts of a board, from 0.
    pub fn index(self) -> u8
        ensures result { result ≡ board_text_index self }
        ensures within { result < 2 }
    {
        match self {
            BoardText::Name => 0,
            BoardText::Message => 1,
        }
    }

    /// Its number in an edit file.
    pub fn field(self) -> u8
        ensures { result ≡ board_text_field self }
    {
        match self {
            BoardText::Name => 10,
            BoardText::Message => 11,
        }
    }

    /// The text of a board with this number in an edit file, if there is one.
    pub fn of_field(field: u8) -> Option<BoardText>
        ensures { result ≡ board_text_of_field field }
    {
        match field {
            10 => Some(BoardText::Name),
            11 => Some(BoardText::Message),
            _ => None,
        }
    }
}

/// A register of a board, with the value that it is given.
#[derive(Drop, PartialEq, Eq)]
pub enum BoardSetting {
    Byte(BoardByte, u8),
    Flag(BoardFlag, bool),
    TimeLimit(i16),
    /// The board's place among the others: lower ranks come first. The title is first, whatever its
    /// rank.
    Rank(u16),
    Exit(Side, Option<BoardId>),
    Text(BoardText, Bytes),
}

impl BoardSetting {
    /// The number of the time limit in an edit file.
    pub const TIME_LIMIT: u8 = 5;

    /// The number of the rank in an edit file.
    pub const RANK: u8 = 12;

    /// An equal setting. Only a string that has a byte takes memory.
    pub fn copy(&self) -> Result<BoardSetting, AllocError>
        ensures result { IfOk result (λ s. s ≡ self.now) }
        ensures memory_only_when { OnErr result (board_has_string self.now ≡ true) }
    {
        Ok(match self {
            BoardSetting::Byte(field, value) => BoardSetting::Byte(*field, *value),
            BoardSetting::Flag(field, value) => BoardSetting::Flag(*field, *value),
            BoardSetting::TimeLimit(value) => BoardSetting::TimeLimit(*value),
            BoardSetting::Rank(value) => BoardSetting::Rank(*value),
            BoardSetting::Exit(side, board) => BoardSetting::Exit(*side, *board),
            BoardSetting::Text(field, text) => BoardSetting::Text(*field, text.copy()?),
        })
    }
}
