//! Registers of the world.
ghost use Rattle.std.specs.Prelude.{◌≡◌, map};
ghost use Rattle.zed_set_words.specs.Readers.{rows_of};
ghost use Rattle.zed_set_words.specs.Rows as rows;

use crate::bad::Expected;
use crate::numerals::integer;
use crate::place::board_place;
use crate::text::string;
use crate::thing::flag;
use crate::wishes::WorldWish;
use zed_types::{FlagSlot, HeaderNumber, KeyColour, WORD_LIMIT};

/// What the next word has to say of a register of the world.
#[derive(Clone, Copy)]
pub(crate) enum WorldState {
    /// The first word of a register.
    Register,
    TorchTicks,
    EnergizerTicks,
    TimePassed,
    CurrentBoard,
    WorldName,
    /// The colour of a key.
    Key,
    /// The number of a flag.
    Flag,
    /// The value of this number.
    Number(HeaderNumber),
    /// Whether the player has the key of this colour.
    HasKey(KeyColour),
    Saved,
    StartBoard,
    Name,
    /// The name of this flag.
    FlagName(FlagSlot),
}

const REGISTERS: [(&str, WorldState); 16] = [
    ("name", WorldState::Name),
    ("world", WorldState::WorldName),
    ("start-board", WorldState::StartBoard),
    ("current", WorldState::CurrentBoard),
    ("ammo", WorldState::Number(HeaderNumber::Ammo)),
    ("gems", WorldState::Number(HeaderNumber::Gems)),
    ("health", WorldState::Number(HeaderNumber::Health)),
    ("torches", WorldState::Number(HeaderNumber::Torches)),
    ("torch", WorldState::TorchTicks),
    ("energizer", WorldState::EnergizerTicks),
    ("score", WorldState::Number(HeaderNumber::Score)),
    ("time", WorldState::TimePassed),
    ("hundredths", WorldState::Number(HeaderNumber::Hundredths)),
    ("key", WorldState::Key),
    ("flag", WorldState::Flag),
    ("saved", WorldState::Saved),
];

const TORCH: [(&str, WorldState); 1] = [("ticks", WorldState::Number(HeaderNumber::TorchTicks))];

const ENERGIZER: [(&str, WorldState); 1] = [(
    "ticks",
    WorldState::Number(HeaderNumber::EnergizerTicks),
)];

const TIME: [(&str, WorldState); 1] = [("passed", WorldState::Number(HeaderNumber::TimePassed))];

const CURRENT: [(&str, WorldState); 1] = [("board", WorldState::StartBoard)];

const WORLD: [(&str, WorldState); 1] = [("name", WorldState::Name)];

const KEYS: [(&str, WorldState); 7] = [
    ("blue", WorldState::HasKey(KeyColour::Blue)),
    ("green", WorldState::HasKey(KeyColour::Green)),
    ("cyan", WorldState::HasKey(KeyColour::Cyan)),
    ("red", WorldState::HasKey(KeyColour::Red)),
    ("purple", WorldState::HasKey(KeyColour::Purple)),
    ("yellow", WorldState::HasKey(KeyColour::Yellow)),
    ("white", WorldState::HasKey(KeyColour::White)),
];

const FLAGS: [(&str, WorldState); 10] = [
    ("1", WorldState::FlagName(FlagSlot::First)),
    ("2", WorldState::FlagName(FlagSlot::Second)),
    ("3", WorldState::FlagName(FlagSlot::Third)),
    ("4", WorldState::FlagName(FlagSlot::Fourth)),
    ("5", WorldState::FlagName(FlagSlot::Fifth)),
    ("6", WorldState::FlagName(FlagSlot::Sixth)),
    ("7", WorldState::FlagName(FlagSlot::Seventh)),
    ("8", WorldState::FlagName(FlagSlot::Eighth)),
    ("9", WorldState::FlagName(FlagSlot::Ninth)),
    ("10", WorldState::FlagName(FlagSlot::Tenth)),
];

/// The words that may stand there, and what stands behind each.
pub(crate) fn world_rows(state: WorldState) -> &'static [(&'static str, WorldState)]
    ensures { rows_of result.now ≡ rows.world_rows state }
{
    match state {
        WorldState::Register => &REGISTERS,
        WorldState::TorchTicks => &TORCH,
        WorldState::EnergizerTicks => &ENERGIZER,
        WorldState::TimePassed => &TIME,
        WorldState::CurrentBoard => &CURRENT,
        WorldState::WorldName => &WORLD,
        WorldState::Key => &KEYS,
        WorldState::Flag => &FLAGS,
        _ => &[],
    }
}

/// What a word says where the value of a register is due.
pub(crate) fn world_said<'a>(state: WorldState, word: &'a str) -> Option<WorldWish<'a>>
    ensures { result ≡ rows.world_said state word.now }
{
    match state {
        WorldState::Number(field) => Some(WorldWish::Number(field, integer(word)?)),
        WorldState::HasKey(colour) => Some(WorldWish::Key(colour, flag(word)?)),
        WorldState::Saved => Some(WorldWish::Saved(flag(word)?)),
        WorldState::StartBoard => Some(WorldWish::CurrentBoard(board_place(word)?)),
        WorldState::Name => Some(WorldWish::Name(string(word, WORD_LIMIT)?)),
        WorldState::FlagName(slot) => Some(WorldWish::Flag(slot, string(word, WORD_LIMIT)?)),
        _ => None,
    }
}

/// What may stand there.
pub(crate) fn world_expected(state: WorldState) -> Expected
    ensures { result ≡ rows.world_expected state }
{
    match state {
        WorldState::Register => Expected::Register,
        WorldState::TorchTicks | WorldState::EnergizerTicks => Expected::TicksWord,
        WorldState::TimePassed => Expected::PassedWord,
        WorldState::CurrentBoard => Expected::BoardWord,
        WorldState::WorldName => Expected::NameWord,
        WorldState::Key => Expected::Key,
        WorldState::Flag => Expected::FlagNumber,
        WorldState::Number(_) => Expected::Number,
        WorldState::HasKey(_) | WorldState::Saved => Expected::YesOrNo,
        WorldState::StartBoard => Expected::BoardPlace,
        WorldState::Name | WorldState::FlagName(_) => Expected::ShortText,
    }
}
