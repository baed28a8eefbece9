//! Writing an op: what it does, what it names, what it sets.
ghost use Rattle.std.specs.Prelude.{◌≡◌, ◌++◌, OnOk};
ghost use Rattle.zed_op.specs.declared.op.Op.TheVariants.{Genesis, SetBoard, SetCells, StatAdd, TextInsert};
ghost use Rattle.zed_log.specs.Line.{after_text, op_at, op_text, short_op};

use crate::length::Length;
use crate::put::{put_number, put_quoted, put_text};
use crate::put_fields::{put_name, put_range, put_rectangle, put_tile};
use crate::settings::{put_board_setting, put_header_setting, put_stat_fields, put_stat_setting};
use std::alloc::AllocError;
use zed_op::Op;
use zed_types::{BoardId, BoardSetting, Bytes, ElemId, Rectangle, StatFields, TextId, Tile};

/// Appends where bytes are put in.
fn put_after(out: &mut Vec<u8>, after: Option<ElemId>) -> Result<(), AllocError>
    ensures { OnOk result (out.new.items ≡ out.old.items ++ after_text after) }
{
    match after {
        None => put_text(out, "first"),
        Some(byte) => {
            put_text(out, "after ")?;
            put_name(out, byte.name)
        }
    }
}

/// Appends how many bytes there are, and the bytes.
fn put_world(out: &mut Vec<u8>, bytes: &Bytes) -> Result<(), AllocError>
    ensures { OnOk result (out.new.items ≡ out.old.items ++ op_text (Genesis bytes.now)) }
{
    put_text(out, "genesis ")?;
    put_number(out, bytes.as_slice().len() as u64)?;
    put_text(out, " bytes ")?;
    put_quoted(out, bytes.as_slice())
}

/// Appends how many bytes there are.
fn put_short_world(out: &mut Vec<u8>, bytes: &Bytes) -> Result<(), AllocError>
    ensures { OnOk result (out.new.items ≡ out.old.items ++ short_op (Genesis bytes.now)) }
{
    put_text(out, "genesis ")?;
    put_number(out, bytes.as_slice().len() as u64)?;
    put_text(out, " bytes ..")
}

/// Appends a rectangle of a board, and the tile there.
fn put_cells(
    out: &mut Vec<u8>,
    board: BoardId,
    cells: Rectangle,
    tile: Tile,
) -> Result<(), AllocError>
    ensures { OnOk result (out.new.items ≡ out.old.items ++ op_text (SetCells board cells tile)) }
{
    put_text(out, "cells board ")?;
    put_name(out, board.name)?;
    put_text(out, " ")?;
    put_rectangle(out, cells)?;
    put_text(out, " ")?;
    put_tile(out, tile)
}

/// Appends a board, and what its new stat is given.
fn put_stat(out: &mut Vec<u8>, board: BoardId, fields: &StatFields) -> Result<(), AllocError>
    ensures { OnOk result (out.new.items ≡ out.old.items ++ op_text (StatAdd board fields.now)) }
{
    put_text(out, "add stat board ")?;
    put_name(out, board.name)?;
    put_text(out, " ")?;
    put_stat_fields(out, fields)
}

/// Appends a board, and what it is set to.
fn put_property(out: &mut Vec<u8>, board: BoardId, setting: &BoardSetting) -> Result<(), AllocError>
    ensures { OnOk result (out.new.items ≡ out.old.items ++ op_text (SetBoard board setting.now)) }
{
    put_text(out, "board ")?;
    put_name(out, board.name)?;
    put_text(out, " ")?;
    put_board_setting(out, setting)
}

/// Appends a text, where bytes are put in, and the bytes.
fn put_insertion(
    out: &mut Vec<u8>,
    text: TextId,
    after: Option<ElemId>,
    bytes: &Bytes,
) -> Result<(), AllocError>
    ensures { OnOk result
        (out.new.items ≡ out.old.items ++ op_text (TextInsert text after bytes.now)) }
{
    put_text(out, "insert text ")?;
    put_name(out, text.name)?;
    put_text(out, " ")?;
    put_after(out, after)?;
    put_text(out, " ")?;
    put_quoted(out, bytes.as_slice())
}

fn put_op(out: &mut Vec<u8>, op: &Op) -> Result<(), AllocError>
    ensures { OnOk result (out.new.items ≡ out.old.items ++ op_text op.now) }
{
    match op {
        Op::Genesis(bytes) => put_world(out, bytes),
        Op::SetHeader(setting) => {
            put_text(out, "header ")?;
            put_header_setting(out, setting)
        }
        Op::BoardAdd(name) => {
            put_text(out, "add board ")?;
            put_quoted(out, name.as_slice())
        }
        Op::BoardRemove(board) => {
            put_text(out, "remove board ")?;
            put_name(out, board.name)
        }
        Op::SetBoard(board, setting) => put_property(out, *board, setting),
        Op::SetCells(board, cells, tile) => put_cells(out, *board, *cells, *tile),
        Op::StatAdd(board, fields) => put_stat(out, *board, fields),
        Op::StatRemove(stat) => {
            put_text(out, "remove stat ")?;
            put_name(out, stat.name)
        }
        Op::SetStat(stat, setting) => {
            put_text(out, "stat ")?;
            put_name(out, stat.name)?;
            put_text(out, " ")?;
            put_stat_setting(out, setting)
        }
        Op::TextAdd => put_text(out, "add text"),
        Op::TextInsert(text, after, bytes) => put_insertion(out, *text, *after, bytes),
        Op::TextDelete(text, range) => {
            put_text(out, "delete text ")?;
            put_name(out, text.name)?;
            put_text(out, " bytes ")?;
            put_range(out, *range)
        }
    }
}

fn put_short_op(out: &mut Vec<u8>, op: &Op) -> Result<(), AllocError>
    ensures { OnOk result (out.new.items ≡ out.old.items ++ short_op op.now) }
{
    match op {
        Op::Genesis(bytes) => put_short_world(out, bytes),
        _ => put_op(out, op),
    }
}

/// Appends an op, short or in full.
pub(crate) fn put_op_at(out: &mut Vec<u8>, op: &Op, length: Length) -> Result<(), AllocError>
    ensures { OnOk result (out.new.items ≡ out.old.items ++ op_at length op.now) }
{
    match length {
        Length::Short => put_short_op(out, op),
        Length::Full => put_op(out, op),
    }
}
