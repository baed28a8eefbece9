//! The lines of registers that are overridden.
use crate::known::{Known, Shower};
use crate::report::Report;
use crate::values::{put_in_world, put_of_stat, put_on_board};
use crate::words::{board_word, stat_word, world_word};
use crate::writers::{writer_in_world, writer_of_stat, writer_on_board};
use std::alloc::AllocError;
use zed_compare::{BoardRegister, StatRegister, WorldRegister};
use zed_sides::{Loss, Overridden, Side};
use zed_types::{BoardId, Stamp, StatId};

/// A register of a thing.
#[derive(Clone, Copy)]
pub(crate) enum Register {
    World(WorldRegister),
    Board(BoardId, BoardRegister),
    Stat(StatId, StatRegister),
}

// Appends where a register is, and its name.
fn put_register(
    report: &mut Report,
    known: &Known<'_, '_>,
    register: Register,
) -> Result<(), AllocError> {
    let word = match register {
        Register::World(register) => {
            report.put("world")?;
            world_word(register)
        }
        Register::Board(board, register) => {
            known.put_board(&mut report.text, Shower::Union, board)?;
            board_word(register)
        }
        Register::Stat(stat, register) => {
            known.put_stat(&mut report.text, Shower::Union, stat)?;
            stat_word(register)
        }
    };
    report.put("  ")?;
    report.put(word)?;
    report.put(": ")
}

// Appends what a side or the union shows in a register.
fn put_value(
    report: &mut Report,
    known: &Known<'_, '_>,
    shower: Shower,
    register: Register,
) -> Result<(), AllocError> {
    let out = &mut report.text;
    match register {
        Register::World(register) => put_in_world(out, known, shower, register),
        Register::Board(board, register) => put_on_board(out, known, shower, board, register),
        Register::Stat(stat, register) => put_of_stat(out, known, shower, stat, register),
    }
}

// The edit that wrote what the union shows in a register.
fn writer_of(known: &Known<'_, '_>, register: Register) -> Option<Stamp> {
    match register {
        Register::World(register) => {
            writer_in_world(known.view(Shower::Union).header(), register)
        }
        Register::Board(board, register) => match known.board(Shower::Union, board) {
            Some(board) => writer_on_board(&board.properties, register),
            None => None,
        },
        Register::Stat(stat, register) => match known.stat(Shower::Union, stat) {
            Some(stat) => writer_of_stat(stat, register),
            None => None,
        },
    }
}

// Appends the value of a side that doesn't show.
fn put_lost(
    report: &mut Report,
    known: &Known<'_, '_>,
    side: Side,
    register: Register,
) -> Result<(), AllocError> {
    report.lost(side)?;
    put_value(report, known, Shower::Of(side), register)
}

/// Appends the line of a register: what the union shows, whose that is, and what doesn't show.
pub(crate) fn tell_override(
    report: &mut Report,
    known: &Known<'_, '_>,
    register: Register,
    overridden: Overridden,
) -> Result<(), AllocError> {
    report.begin();
    put_register(report, known, register)?;
    put_value(report, known, Shower::Union, register)?;
    report.shown(overridden.shown, writer_of(known, register), false)?;
    match overridden.lost {
        Loss::Mine => put_lost(report, known, Side::Mine, register)?,
        Loss::Theirs => put_lost(report, known, Side::Theirs, register)?,
        Loss::Both => {
            put_lost(report, known, Side::Mine, register)?;
            put_lost(report, known, Side::Theirs, register)?;
        }
    }
    report.end()
}
