//! Fields of a stat.
ghost use Rattle.std.specs.Prelude.{◌≡◌};
ghost use Rattle.zed_set_words.specs.Readers.{rows_of};
ghost use Rattle.zed_set_words.specs.Rows as rows;

use crate::bad::Expected;
use crate::numerals::{byte, integer};
use crate::place::{board_place, other, text, unless_none};
use crate::thing::{colour, element};
use crate::wishes::{P3Wish, StatPlace, StatWish};
use zed_types::{StatByte, StatNumber};

/// What the next word has to say of a field of a stat.
#[derive(Clone, Copy)]
pub(crate) enum StatState {
    /// The first word of a field.
    Field,
    /// The column of a stat.
    At,
    /// A byte, or `board`.
    P3,
    LeadsTo,
    Step,
    Under,
    /// The row, behind this column.
    AtRow(u8),
    /// The value of this byte.
    Byte(StatByte),
    /// The value of this number.
    Number(StatNumber),
    /// The board of the third parameter.
    P3Board,
    Follower,
    Leader,
    Text,
    Shares,
    Element,
    Colour,
}

const FIELDS: [(&str, StatState); 16] = [
    ("at", StatState::At),
    ("x", StatState::Byte(StatByte::X)),
    ("y", StatState::Byte(StatByte::Y)),
    ("p1", StatState::Byte(StatByte::P1)),
    ("p2", StatState::Byte(StatByte::P2)),
    ("p3", StatState::P3),
    ("leads-to", StatState::LeadsTo),
    ("step", StatState::Step),
    ("cycle", StatState::Number(StatNumber::Cycle)),
    ("position", StatState::Number(StatNumber::Position)),
    ("follower", StatState::Follower),
    ("leader", StatState::Leader),
    ("follows", StatState::Leader),
    ("text", StatState::Text),
    ("shares", StatState::Shares),
    ("under", StatState::Under),
];

const BOARD: [(&str, StatState); 1] = [("board", StatState::P3Board)];

const STEP: [(&str, StatState); 2] = [
    ("x", StatState::Number(StatNumber::StepX)),
    ("y", StatState::Number(StatNumber::StepY)),
];

const UNDER: [(&str, StatState); 2] = [
    ("element", StatState::Element),
    ("colour", StatState::Colour),
];

/// The words that may stand there, and what stands behind each.
pub(crate) fn stat_rows(state: StatState) -> &'static [(&'static str, StatState)]
    ensures { rows_of result.now ≡ rows.stat_rows state }
{
    match state {
        StatState::Field => &FIELDS,
        StatState::P3 | StatState::LeadsTo => &BOARD,
        StatState::Step => &STEP,
        StatState::Under => &UNDER,
        _ => &[],
    }
}

/// What stands behind a number.
pub(crate) fn stat_behind(state: StatState, word: &str) -> Option<StatState>
    ensures { result ≡ rows.stat_behind state word.now }
{
    match state {
        StatState::At => Some(StatState::AtRow(byte(word)?)),
        _ => None,
    }
}

/// What a word says where the value of a field of this stat is due.
pub(crate) fn stat_said(at: StatPlace, state: StatState, word: &str) -> Option<StatWish>
    ensures { result ≡ rows.stat_said at state word.now }
{
    match state {
        StatState::P3 => Some(StatWish::P3(P3Wish::Byte(byte(word)?))),
        StatState::AtRow(x) => Some(StatWish::At(x, byte(word)?)),
        StatState::Byte(field) => Some(StatWish::Byte(field, byte(word)?)),
        StatState::Number(field) => Some(StatWish::Number(field, integer(word)?)),
        StatState::P3Board => Some(StatWish::P3(P3Wish::Board(board_place(word)?))),
        StatState::Follower => Some(StatWish::Follower(unless_none(word, other(at, word))?)),
        StatState::Leader => Some(StatWish::Leader(unless_none(word, other(at, word))?)),
        StatState::Text => Some(StatWish::Text(unless_none(word, text(word))?)),
        StatState::Shares => Some(StatWish::Shares(other(at, word)?)),
        StatState::Element => Some(StatWish::Byte(StatByte::UnderElement, element(word)?)),
        StatState::Colour => Some(StatWish::Byte(StatByte::UnderColour, colour(word)?)),
        _ => None,
    }
}

/// What may stand there.
pub(crate) fn stat_expected(state: StatState) -> Expected
    ensures { result ≡ rows.stat_expected state }
{
    match state {
        StatState::Field => Expected::Field,
        StatState::P3 => Expected::Target,
        StatState::LeadsTo => Expected::BoardWord,
        StatState::Step => Expected::AtPart,
        StatState::Under => Expected::UnderPart,
        StatState::At | StatState::AtRow(_) | StatState::Byte(_) => Expected::Byte,
        StatState::Number(_) => Expected::Number,
        StatState::P3Board => Expected::BoardPlace,
        StatState::Follower | StatState::Leader => Expected::StatOrNone,
        StatState::Text => Expected::TextOrNone,
        StatState::Shares => Expected::OtherStat,
        StatState::Element => Expected::Element,
        StatState::Colour => Expected::Colour,
    }
}
