//! The registers of a stat.

ghost use Rattle.std.specs.Prelude.{◌≡◌, ◌<◌, ◌↔◌, IsTrue, IfSome};
ghost use Rattle.zed_types.specs.Stat.{stat_byte_index, stat_byte_field, stat_byte_of_field, stat_number_index, stat_number_field, stat_number_of_field};

use crate::names::{BoardId, StatId, TextId};

/// The fields of a stat that are one byte.
#[derive(Clone, Copy, PartialEq, Eq)]
pub enum StatByte {
    X,
    Y,
    P1,
    P2,
    UnderElement,
    UnderColour,
}

impl StatByte {
    /// Its place among the bytes of a stat, from 0.
    pub fn index(self) -> u8
        ensures result { result ≡ stat_byte_index self }
        ensures within { result < 6 }
    {
        match self {
            StatByte::X => 0,
            StatByte::Y => 1,
            StatByte::P1 => 2,
            StatByte::P2 => 3,
            StatByte::UnderElement => 4,
            StatByte::UnderColour => 5,
        }
    }

    /// Its number in an edit file.
    pub fn field(self) -> u8
        ensures { result ≡ stat_byte_field self }
    {
        match self {
            StatByte::X => 0,
            StatByte::Y => 1,
            StatByte::P1 => 6,
            StatByte::P2 => 7,
            StatByte::UnderElement => 11,
            StatByte::UnderColour => 12,
        }
    }

    /// The byte of a stat with this number in an edit file, if there is one.
    pub fn of_field(field: u8) -> Option<StatByte>
        ensures { result ≡ stat_byte_of_field field }
    {
        match field {
            0 => Some(StatByte::X),
            1 => Some(StatByte::Y),
            6 => Some(StatByte::P1),
            7 => Some(StatByte::P2),
            11 => Some(StatByte::UnderElement),
            12 => Some(StatByte::UnderColour),
            _ => None,
        }
    }
}

/// The fields of a stat that are signed 16-bit numbers.
#[derive(Clone, Copy, PartialEq, Eq)]
pub enum StatNumber {
    StepX,
    StepY,
    Cycle,
    Position,
}

impl StatNumber {
    /// Its place among the numbers that a new stat is given, from 0. A position is none of them: it begins at 0.
    pub fn index(self) -> Option<u8>
        ensures result { result ≡ stat_number_index self }
        ensures within { IfSome result (λ i. i < 3) }
    {
        match self {
            StatNumber::StepX => Some(0),
            StatNumber::StepY => Some(1),
            StatNumber::Cycle => Some(2),
            StatNumber::Position => None,
        }
    }

    /// Its number in an edit file.
    pub fn field(self) -> u8
        ensures { result ≡ stat_number_field self }
    {
        match self {
            StatNumber::StepX => 2,
            StatNumber::StepY => 3,
            StatNumber::Cycle => 4,
            StatNumber::Position => 5,
        }
    }

    /// The number of a stat with this number in an edit file, if there is one.
    pub fn of_field(field: u8) -> Option<StatNumber>
        ensures { result ≡ stat_number_of_field field }
    {
        match field {
            2 => Some(StatNumber::StepX),
            3 => Some(StatNumber::StepY),
            4 => Some(StatNumber::Cycle),
            5 => Some(StatNumber::Position),
            _ => None,
        }
    }
}

/// The third parameter of a stat: a byte, or the board that a passage leads to.
#[derive(Clone, Copy, PartialEq, Eq)]
pub enum ThirdParameter {
    Byte(u8),
    Board(BoardId),
}

/// A register of a stat, with the value that it is given.
#[derive(Clone, Copy, PartialEq, Eq)]
pub enum StatSetting {
    Byte(StatByte, u8),
    Number(StatNumber, i16),
    P3(ThirdParameter),
    Follower(Option<StatId>),
    Leader(Option<StatId>),
    Text(Option<TextId>),
}

/// What a new stat is given. Its position is 0, and it has no follower and no leader.
#[derive(Clone, Copy, PartialEq, Eq)]
pub struct StatFields {
    /// Its bytes, by `StatByte::index`.
    pub bytes: [u8; 6],
    /// Its numbers, by `StatNumber::index`.
    pub numbers: [i16; 3],
    pub p3: ThirdParameter,
    pub text: Option<TextId>,
}

impl StatFields {
    fn has_same_bytes(&self, other: &StatFields) -> bool
        ensures { IsTrue result ↔ self.now.bytes ≡ other.now.bytes }
    {
        self.bytes == other.bytes
    }

    fn has_same_numbers(&self, other: &StatFields) -> bool
        ensures { IsTrue result ↔ self.now.numbers ≡ other.now.numbers }
    {
        self.numbers == other.numbers
    }

    /// Whether two new stats are given the same.
    pub fn is_same(&self, other: &StatFields) -> bool
        ensures { IsTrue result ↔ self.now ≡ other.now }
    {
        self.has_same_bytes(other)
            && self.has_same_numbers(other)
            && self.p3 == other.p3
            && self.text == other.text
    }
}
