//! Properties of a board.
ghost use Rattle.std.specs.Prelude.{◌≡◌};
ghost use Rattle.zed_set_words.specs.Readers.{rows_of};
ghost use Rattle.zed_set_words.specs.Rows as rows;

use crate::bad::Expected;
use crate::numerals::{byte, integer, short};
use crate::place::{board_place, unless_none};
use crate::text::string;
use crate::thing::flag;
use crate::wishes::BoardWish;
use zed_types::{BoardByte, BoardFlag, BoardText, MESSAGE_LIMIT, NAME_LIMIT, Side};

/// What the next word has to say of a property of a board.
#[derive(Clone, Copy)]
pub(crate) enum BoardState {
    /// The first word of a property.
    Property,
    MaxShots,
    /// The part of the place where the player starts, or a column.
    Start,
    /// A side.
    Exit,
    TimeLimit,
    Name,
    Message,
    /// The value of this flag.
    Flag(BoardFlag),
    /// The value of this byte.
    Byte(BoardByte),
    /// The row, behind this column.
    StartRow(u8),
    /// What is behind this side.
    Behind(Side),
    Ticks,
    Rank,
}

const PROPERTIES: [(&str, BoardState); 9] = [
    ("name", BoardState::Name),
    ("message", BoardState::Message),
    ("dark", BoardState::Flag(BoardFlag::Dark)),
    ("re-enter", BoardState::Flag(BoardFlag::ReEnter)),
    ("max", BoardState::MaxShots),
    ("start", BoardState::Start),
    ("exit", BoardState::Exit),
    ("time", BoardState::TimeLimit),
    ("rank", BoardState::Rank),
];

const MAX: [(&str, BoardState); 1] = [("shots", BoardState::Byte(BoardByte::MaxShots))];

const START: [(&str, BoardState); 2] = [
    ("x", BoardState::Byte(BoardByte::StartX)),
    ("y", BoardState::Byte(BoardByte::StartY)),
];

const SIDES: [(&str, BoardState); 4] = [
    ("north", BoardState::Behind(Side::North)),
    ("south", BoardState::Behind(Side::South)),
    ("west", BoardState::Behind(Side::West)),
    ("east", BoardState::Behind(Side::East)),
];

const TIME: [(&str, BoardState); 1] = [("limit", BoardState::Ticks)];

/// The words that may stand there, and what stands behind each.
pub(crate) fn board_rows(state: BoardState) -> &'static [(&'static str, BoardState)]
    ensures { rows_of result.now ≡ rows.board_rows state }
{
    match state {
        BoardState::Property => &PROPERTIES,
        BoardState::MaxShots => &MAX,
        BoardState::Start => &START,
        BoardState::Exit => &SIDES,
        BoardState::TimeLimit => &TIME,
        _ => &[],
    }
}

/// What stands behind a number.
pub(crate) fn board_behind(state: BoardState, word: &str) -> Option<BoardState>
    ensures { result ≡ rows.board_behind state word.now }
{
    match state {
        BoardState::Start => Some(BoardState::StartRow(byte(word)?)),
        _ => None,
    }
}

/// What a word says where the value of a property is due.
pub(crate) fn board_said<'a>(state: BoardState, word: &'a str) -> Option<BoardWish<'a>>
    ensures { result ≡ rows.board_said state word.now }
{
    match state {
        BoardState::Name => Some(BoardWish::Text(BoardText::Name, string(word, NAME_LIMIT)?)),
        BoardState::Message => {
            Some(BoardWish::Text(BoardText::Message, string(word, MESSAGE_LIMIT)?))
        }
        BoardState::Flag(field) => Some(BoardWish::Flag(field, flag(word)?)),
        BoardState::Byte(field) => Some(BoardWish::Byte(field, byte(word)?)),
        BoardState::StartRow(x) => Some(BoardWish::Start(x, byte(word)?)),
        BoardState::Behind(side) => {
            Some(BoardWish::Exit(side, unless_none(word, board_place(word))?))
        }
        BoardState::Ticks => Some(BoardWish::TimeLimit(integer(word)?)),
        BoardState::Rank => Some(BoardWish::Rank(short(word)?)),
        _ => None,
    }
}

/// What may stand there.
pub(crate) fn board_expected(state: BoardState) -> Expected
    ensures { result ≡ rows.board_expected state }
{
    match state {
        BoardState::Property => Expected::Property,
        BoardState::MaxShots => Expected::ShotsWord,
        BoardState::Start => Expected::StartPart,
        BoardState::Exit => Expected::Side,
        BoardState::TimeLimit => Expected::LimitWord,
        BoardState::Name => Expected::NameText,
        BoardState::Message => Expected::MessageText,
        BoardState::Flag(_) => Expected::YesOrNo,
        BoardState::Byte(_) | BoardState::StartRow(_) => Expected::Byte,
        BoardState::Behind(_) => Expected::BoardOrNone,
        BoardState::Ticks => Expected::Number,
        BoardState::Rank => Expected::Rank,
    }
}
