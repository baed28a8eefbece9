//! The words of registers.
ghost use Rattle.std.specs.Prelude.{◌≡◌};
ghost use Rattle.zed_log.specs.Words.{board_byte_word, board_flag_word, board_text_word, header_number_word, key_word, side_word, stat_byte_word, stat_number_word};

use zed_types::{
    BoardByte, BoardFlag, BoardText, HeaderNumber, KeyColour, Side, StatByte, StatNumber,
};

pub(crate) fn header_number_word(number: HeaderNumber) -> &'static str
    ensures { result.now ≡ header_number_word number }
{
    match number {
        HeaderNumber::Ammo => "ammo ",
        HeaderNumber::Gems => "gems ",
        HeaderNumber::Health => "health ",
        HeaderNumber::Torches => "torches ",
        HeaderNumber::TorchTicks => "torch ticks ",
        HeaderNumber::EnergizerTicks => "energizer ticks ",
        HeaderNumber::Score => "score ",
        HeaderNumber::TimePassed => "time passed ",
        HeaderNumber::Hundredths => "hundredths ",
    }
}

pub(crate) fn key_word(colour: KeyColour) -> &'static str
    ensures { result.now ≡ key_word colour }
{
    match colour {
        KeyColour::Blue => "blue ",
        KeyColour::Green => "green ",
        KeyColour::Cyan => "cyan ",
        KeyColour::Red => "red ",
        KeyColour::Purple => "purple ",
        KeyColour::Yellow => "yellow ",
        KeyColour::White => "white ",
    }
}

pub(crate) fn side_word(side: Side) -> &'static str
    ensures { result.now ≡ side_word side }
{
    match side {
        Side::North => "north ",
        Side::South => "south ",
        Side::West => "west ",
        Side::East => "east ",
    }
}

pub(crate) fn board_byte_word(property: BoardByte) -> &'static str
    ensures { result.now ≡ board_byte_word property }
{
    match property {
        BoardByte::MaxShots => "max shots ",
        BoardByte::StartX => "start x ",
        BoardByte::StartY => "start y ",
    }
}

pub(crate) fn board_flag_word(property: BoardFlag) -> &'static str
    ensures { result.now ≡ board_flag_word property }
{
    match property {
        BoardFlag::Dark => "dark ",
        BoardFlag::ReEnter => "re-enter ",
    }
}

pub(crate) fn board_text_word(property: BoardText) -> &'static str
    ensures { result.now ≡ board_text_word property }
{
    match property {
        BoardText::Name => "name ",
        BoardText::Message => "message ",
    }
}

pub(crate) fn stat_byte_word(field: StatByte) -> &'static str
    ensures { result.now ≡ stat_byte_word field }
{
    match field {
        StatByte::X => "x ",
        StatByte::Y => "y ",
        StatByte::P1 => "p1 ",
        StatByte::P2 => "p2 ",
        StatByte::UnderElement => "under element ",
        StatByte::UnderColour => "under colour ",
    }
}

pub(crate) fn stat_number_word(field: StatNumber) -> &'static str
    ensures { result.now ≡ stat_number_word field }
{
    match field {
        StatNumber::StepX => "step x ",
        StatNumber::StepY => "step y ",
        StatNumber::Cycle => "cycle ",
        StatNumber::Position => "position ",
    }
}
