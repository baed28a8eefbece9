//! The words of registers and sides.
ghost use Rattle.std.specs.Prelude.{◌≡◌};
ghost use Rattle.zed_report.specs.Words.{board_word, exit_word, flag_word, key_word, number_word, other_word, side_word, stat_word, world_word};

use zed_compare::{BoardRegister, StatRegister, WorldRegister};
use zed_sides::Side;
use zed_types::{BoardFlag, FlagSlot, HeaderNumber, KeyColour, Side as Edge};

pub(crate) fn side_word(side: Side) -> &'static str
    ensures { result.now ≡ side_word side }
{
    match side {
        Side::Mine => "mine",
        Side::Theirs => "theirs",
    }
}

pub(crate) fn other_word(side: Side) -> &'static str
    ensures { result.now ≡ other_word side }
{
    match side {
        Side::Mine => "theirs",
        Side::Theirs => "mine",
    }
}

fn number_word(field: HeaderNumber) -> &'static str
    ensures { result.now ≡ number_word field }
{
    match field {
        HeaderNumber::Ammo => "ammo",
        HeaderNumber::Gems => "gems",
        HeaderNumber::Health => "health",
        HeaderNumber::Torches => "torches",
        HeaderNumber::TorchTicks => "torch ticks",
        HeaderNumber::EnergizerTicks => "energizer ticks",
        HeaderNumber::Score => "score",
        HeaderNumber::TimePassed => "time passed",
        HeaderNumber::Hundredths => "hundredths",
    }
}

fn key_word(colour: KeyColour) -> &'static str
    ensures { result.now ≡ key_word colour }
{
    match colour {
        KeyColour::Blue => "key blue",
        KeyColour::Green => "key green",
        KeyColour::Cyan => "key cyan",
        KeyColour::Red => "key red",
        KeyColour::Purple => "key purple",
        KeyColour::Yellow => "key yellow",
        KeyColour::White => "key white",
    }
}

fn flag_word(slot: FlagSlot) -> &'static str
    ensures { result.now ≡ flag_word slot }
{
    match slot {
        FlagSlot::First => "flag 1",
        FlagSlot::Second => "flag 2",
        FlagSlot::Third => "flag 3",
        FlagSlot::Fourth => "flag 4",
        FlagSlot::Fifth => "flag 5",
        FlagSlot::Sixth => "flag 6",
        FlagSlot::Seventh => "flag 7",
        FlagSlot::Eighth => "flag 8",
        FlagSlot::Ninth => "flag 9",
        FlagSlot::Tenth => "flag 10",
    }
}

pub(crate) fn world_word(register: WorldRegister) -> &'static str
    ensures { result.now ≡ world_word register }
{
    match register {
        WorldRegister::Number(field) => number_word(field),
        WorldRegister::Key(colour) => key_word(colour),
        WorldRegister::Saved => "saved",
        WorldRegister::StartBoard => "start board",
        WorldRegister::Name => "name",
        WorldRegister::Flag(slot) => flag_word(slot),
    }
}

fn exit_word(edge: Edge) -> &'static str
    ensures { result.now ≡ exit_word edge }
{
    match edge {
        Edge::North => "exit north",
        Edge::South => "exit south",
        Edge::West => "exit west",
        Edge::East => "exit east",
    }
}

pub(crate) fn board_word(register: BoardRegister) -> &'static str
    ensures { result.now ≡ board_word register }
{
    match register {
        BoardRegister::Name => "name",
        BoardRegister::Message => "message",
        BoardRegister::Rank => "rank",
        BoardRegister::MaxShots => "max shots",
        BoardRegister::Flag(BoardFlag::Dark) => "dark",
        BoardRegister::Flag(BoardFlag::ReEnter) => "re-enter",
        BoardRegister::TimeLimit => "time limit",
        BoardRegister::Start => "start",
        BoardRegister::Exit(edge) => exit_word(edge),
    }
}

pub(crate) fn stat_word(register: StatRegister) -> &'static str
    ensures { result.now ≡ stat_word register }
{
    match register {
        StatRegister::Place => "place",
        StatRegister::Step => "step",
        StatRegister::Under => "under",
        StatRegister::Cycle => "cycle",
        StatRegister::Position => "position",
        StatRegister::P1 => "p1",
        StatRegister::P2 => "p2",
        StatRegister::Follower => "follower",
        StatRegister::Leader => "leader",
        StatRegister::P3 => "p3",
    }
}
