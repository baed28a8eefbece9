//! What registers show, spelled.
ghost use Rattle.std.specs.Prelude.{◌≡◌, ◌<◌, ◌++◌, OnOk, false};
ghost use Rattle.std.specs.Fmt.{digit_glyph};
ghost use Rattle.zed_log.specs.Fields.{boolean, colour as colour_words, stamp as stamp_words, tile as tile_words};
ghost use Rattle.zed_report.specs.Lines.{by_words};

use crate::known::{Known, Shower};
use std::alloc::AllocError;
use zed_compare::{
    BoardRegister, StatRegister, Step, Third, WorldRegister, exit_in, place_of, step_of, third_of,
    under_of,
};
use zed_join::{Target, is_shown};
use zed_live::LiveProperties;
use zed_log::{put_element, put_integer, put_number, put_place, put_quoted, put_text};
use zed_stats::LiveStat;
use zed_types::{BoardByte, BoardId, BoardText, Stamp, StatByte, StatId, StatNumber, Tile};

/// Appends a stamp as `undo` takes it.
#[tactic(auto, unfolding(zed_log::specs::Fields::stamp))]
fn put_stamp(out: &mut Vec<u8>, stamp: Stamp) -> Result<(), AllocError>
    ensures { OnOk result (out.new.items ≡ out.old.items ++ stamp_words stamp) }
{
    put_number(out, stamp.time)?;
    put_text(out, ".")?;
    put_number(out, u64::from(stamp.replica))
}

/// Appends ` by` and a stamp, if there is one.
pub(crate) fn put_by(out: &mut Vec<u8>, stamp: Option<Stamp>) -> Result<(), AllocError>
    ensures { OnOk result (out.new.items ≡ out.old.items ++ by_words stamp) }
{
    match stamp {
        Some(stamp) => {
            put_text(out, " by ")?;
            put_stamp(out, stamp)
        }
        None => Ok(()),
    }
}

fn put_switch(out: &mut Vec<u8>, is_on: bool) -> Result<(), AllocError>
    ensures { OnOk result (out.new.items ≡ out.old.items ++ boolean is_on) }
{
    if is_on {
        put_text(out, "yes")
    } else {
        put_text(out, "no")
    }
}

// A hexadecimal digit.
fn digit_of(n: u8) -> u8
    requires { n < 16 }
    ensures { result ≡ digit_glyph false n }
{
    if n < 10 { b'0' + n } else { b'a' - 10 + n }
}

#[tactic(auto, unfolding(zed_log::specs::Fields::hex))]
fn put_colour(out: &mut Vec<u8>, colour: u8) -> Result<(), AllocError>
    ensures { OnOk result (out.new.items ≡ out.old.items ++ colour_words colour) }
{
    put_text(out, "0x")?;
    out.extend_from_slice(&[digit_of(colour / 16), digit_of(colour % 16)])
}

/// Appends a tile: its element and its colour.
#[tactic(auto, unfolding(zed_log::specs::Fields::tile))]
pub(crate) fn put_tile(out: &mut Vec<u8>, tile: Tile) -> Result<(), AllocError>
    ensures { OnOk result (out.new.items ≡ out.old.items ++ tile_words tile) }
{
    put_element(out, tile.element)?;
    put_text(out, " ")?;
    put_colour(out, tile.colour)
}

// Appends a board that something leads to. One that the union has no more is told by its name alone.
fn put_board(out: &mut Vec<u8>, known: &Known<'_, '_>, board: BoardId) -> Result<(), AllocError> {
    if is_shown(known.board(Shower::Union, board)) {
        return known.put_board(out, Shower::Union, board);
    }
    let names = known.names(Shower::Union);
    names.put_name(out, known.view(Shower::Union), board)?;
    put_text(out, ", which is removed")?;
    put_by(out, known.removers.of_board(board))
}

// Appends a board that something leads to, if it is there.
fn put_target(out: &mut Vec<u8>, known: &Known<'_, '_>, target: Target) -> Result<(), AllocError> {
    match target.board {
        Some(board) if target.is_there => put_board(out, known, board),
        Some(_) => put_text(out, "nowhere"),
        None => put_text(out, "none"),
    }
}

/// Appends the value of a register of the world.
pub(crate) fn put_in_world(
    out: &mut Vec<u8>,
    known: &Known<'_, '_>,
    shower: Shower,
    register: WorldRegister,
) -> Result<(), AllocError> {
    let view = known.view(shower);
    let header = view.header();
    match register {
        WorldRegister::Number(field) => put_integer(out, header.number(field)),
        WorldRegister::Key(colour) => put_switch(out, header.key(colour)),
        WorldRegister::Saved => put_switch(out, header.saved()),
        WorldRegister::StartBoard => {
            let target = Target::of(view, Some(header.current_board()));
            put_target(out, known, target)
        }
        WorldRegister::Name => put_quoted(out, header.world_name()),
        WorldRegister::Flag(slot) => put_quoted(out, header.flag(slot)),
    }
}

// Appends a column and a row of a board.
fn put_start(out: &mut Vec<u8>, properties: &LiveProperties) -> Result<(), AllocError> {
    put_place(
        out,
        properties.byte(BoardByte::StartX),
        properties.byte(BoardByte::StartY),
    )
}

fn put_property(
    out: &mut Vec<u8>,
    properties: &LiveProperties,
    register: BoardRegister,
) -> Result<(), AllocError> {
    match register {
        BoardRegister::Name => put_quoted(out, properties.text(BoardText::Name)),
        BoardRegister::Message => put_quoted(out, properties.text(BoardText::Message)),
        BoardRegister::Rank => put_number(out, u64::from(properties.rank())),
        BoardRegister::MaxShots => put_number(out, u64::from(properties.byte(BoardByte::MaxShots))),
        BoardRegister::Flag(field) => put_switch(out, properties.flag(field)),
        BoardRegister::TimeLimit => put_integer(out, properties.time_limit()),
        BoardRegister::Start => put_start(out, properties),
        BoardRegister::Exit(_) => Ok(()),
    }
}

/// Appends the value of a register of a board.
pub(crate) fn put_on_board(
    out: &mut Vec<u8>,
    known: &Known<'_, '_>,
    shower: Shower,
    board: BoardId,
    register: BoardRegister,
) -> Result<(), AllocError> {
    let board = known.board(shower, board);
    if let BoardRegister::Exit(edge) = register {
        return match exit_in(known.view(shower), board, edge) {
            Some(target) => put_target(out, known, target),
            None => put_text(out, "none"),
        };
    }
    match board {
        Some(board) => put_property(out, &board.properties, register),
        None => put_text(out, "none"),
    }
}

fn put_step(out: &mut Vec<u8>, step: Step) -> Result<(), AllocError> {
    put_integer(out, step.x)?;
    put_text(out, ",")?;
    put_integer(out, step.y)
}

fn put_neighbour(
    out: &mut Vec<u8>,
    known: &Known<'_, '_>,
    stat: Option<StatId>,
) -> Result<(), AllocError> {
    match stat {
        Some(stat) => known.put_stat(out, Shower::Union, stat),
        None => put_text(out, "none"),
    }
}

fn put_third(
    out: &mut Vec<u8>,
    known: &Known<'_, '_>,
    shower: Shower,
    stat: &LiveStat,
) -> Result<(), AllocError> {
    match third_of(known.view(shower), stat) {
        Third::Byte(byte) => put_number(out, u64::from(byte)),
        Third::Board(target) => put_target(out, known, target),
    }
}

fn put_field(
    out: &mut Vec<u8>,
    known: &Known<'_, '_>,
    shower: Shower,
    stat: &LiveStat,
    register: StatRegister,
) -> Result<(), AllocError> {
    let values = &stat.values;
    match register {
        StatRegister::Place => {
            let place = place_of(stat);
            put_place(out, place.x, place.y)
        }
        StatRegister::Step => put_step(out, step_of(stat)),
        StatRegister::Under => put_tile(out, under_of(stat)),
        StatRegister::Cycle => put_integer(out, values.number(StatNumber::Cycle)),
        StatRegister::Position => put_integer(out, values.number(StatNumber::Position)),
        StatRegister::P1 => put_number(out, u64::from(values.byte(StatByte::P1))),
        StatRegister::P2 => put_number(out, u64::from(values.byte(StatByte::P2))),
        StatRegister::Follower => put_neighbour(out, known, values.follower),
        StatRegister::Leader => put_neighbour(out, known, values.leader),
        StatRegister::P3 => put_third(out, known, shower, stat),
    }
}

/// Appends the value of a register of a stat.
pub(crate) fn put_of_stat(
    out: &mut Vec<u8>,
    known: &Known<'_, '_>,
    shower: Shower,
    stat: StatId,
    register: StatRegister,
) -> Result<(), AllocError> {
    match known.stat(shower, stat) {
        Some(stat) => put_field(out, known, shower, stat, register),
        None => put_text(out, "none"),
    }
}
