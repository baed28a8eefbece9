//! The registers of a world's header.

ghost use Rattle.std.specs.Prelude.{◌≡◌, ◌<◌, true, IfOk, OnErr};
ghost use Rattle.zed_types.specs.Strings.{header_has_string};
ghost use Rattle.zed_types.specs.Header.{flag_index, header_number_index, header_number_of_field, key_index};

use crate::bytes::Bytes;
use crate::names::BoardId;
use std::alloc::AllocError;

/// The numbers of a world's header, each a signed 16-bit number.
#[derive(Clone, Copy, PartialEq, Eq)]
pub enum HeaderNumber {
    Ammo,
    Gems,
    Health,
    Torches,
    TorchTicks,
    EnergizerTicks,
    Score,
    TimePassed,
    Hundredths,
}

impl HeaderNumber {
    /// Its place among the numbers of a header, from 0.
    pub fn index(self) -> u8
        ensures result { result ≡ header_number_index self }
        ensures within { result < 9 }
    {
        match self {
            HeaderNumber::Ammo => 0,
            HeaderNumber::Gems => 1,
            HeaderNumber::Health => 2,
            HeaderNumber::Torches => 3,
            HeaderNumber::TorchTicks => 4,
            HeaderNumber::EnergizerTicks => 5,
            HeaderNumber::Score => 6,
            HeaderNumber::TimePassed => 7,
            HeaderNumber::Hundredths => 8,
        }
    }

    /// The number of a header with this number in an edit file, if there is one.
    pub fn of_field(field: u8) -> Option<HeaderNumber>
        ensures { result ≡ header_number_of_field field }
    {
        match field {
            0 => Some(HeaderNumber::Ammo),
            1 => Some(HeaderNumber::Gems),
            2 => Some(HeaderNumber::Health),
            3 => Some(HeaderNumber::Torches),
            4 => Some(HeaderNumber::TorchTicks),
            5 => Some(HeaderNumber::EnergizerTicks),
            6 => Some(HeaderNumber::Score),
            7 => Some(HeaderNumber::TimePassed),
            8 => Some(HeaderNumber::Hundredths),
            _ => None,
        }
    }
}

/// The colours of the seven keys, in the order in which the header has them.
#[derive(Clone, Copy, PartialEq, Eq)]
pub enum KeyColour {
    Blue,
    Green,
    Cyan,
    Red,
    Purple,
    Yellow,
    White,
}

impl KeyColour {
    /// Which of the seven keys it is, from 0.
    pub fn index(self) -> u8
        ensures result { result ≡ key_index self }
        ensures within { result < 7 }
    {
        match self {
            KeyColour::Blue => 0,
            KeyColour::Green => 1,
            KeyColour::Cyan => 2,
            KeyColour::Red => 3,
            KeyColour::Purple => 4,
            KeyColour::Yellow => 5,
            KeyColour::White => 6,
        }
    }
}

/// The ten places for flags, in the order in which the header has them.
#[derive(Clone, Copy, PartialEq, Eq)]
pub enum FlagSlot {
    First,
    Second,
    Third,
    Fourth,
    Fifth,
    Sixth,
    Seventh,
    Eighth,
    Ninth,
    Tenth,
}

impl FlagSlot {
    /// Which of the ten flags it holds, from 0.
    pub fn index(self) -> u8
        ensures result { result ≡ flag_index self }
        ensures within { result < 10 }
    {
        match self {
            FlagSlot::First => 0,
            FlagSlot::Second => 1,
            FlagSlot::Third => 2,
            FlagSlot::Fourth => 3,
            FlagSlot::Fifth => 4,
            FlagSlot::Sixth => 5,
            FlagSlot::Seventh => 6,
            FlagSlot::Eighth => 7,
            FlagSlot::Ninth => 8,
            FlagSlot::Tenth => 9,
        }
    }
}

/// A header register, with the value that it is given.
#[derive(Drop, PartialEq, Eq)]
pub enum HeaderSetting {
    Number(HeaderNumber, i16),
    /// Whether the player has a key.
    Key(KeyColour, bool),
    /// Whether the file is a saved game.
    Saved(bool),
    CurrentBoard(BoardId),
    /// At most 20 bytes.
    WorldName(Bytes),
    /// At most 20 bytes.
    Flag(FlagSlot, Bytes),
}

impl HeaderSetting {
    /// An equal setting. Only a string that has a byte takes memory.
    pub fn copy(&self) -> Result<HeaderSetting, AllocError>
        ensures result { IfOk result (λ s. s ≡ self.now) }
        ensures memory_only_when { OnErr result (header_has_string self.now ≡ true) }
    {
        Ok(match self {
            HeaderSetting::Number(field, value) => HeaderSetting::Number(*field, *value),
            HeaderSetting::Key(colour, held) => HeaderSetting::Key(*colour, *held),
            HeaderSetting::Saved(saved) => HeaderSetting::Saved(*saved),
            HeaderSetting::CurrentBoard(board) => HeaderSetting::CurrentBoard(*board),
            HeaderSetting::WorldName(name) => HeaderSetting::WorldName(name.copy()?),
            HeaderSetting::Flag(slot, name) => HeaderSetting::Flag(*slot, name.copy()?),
        })
    }
}
