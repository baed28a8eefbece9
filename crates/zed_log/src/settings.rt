//! Writing registers and what they are given.
ghost use Rattle.std.specs.Prelude.{◌≡◌, ◌++◌, OnOk, length};
ghost use Rattle.zed_types.specs.declared.header.HeaderSetting.TheVariants.{CurrentBoard};
ghost use Rattle.zed_log.specs.Line.{board_setting, header_setting, stat_byte, stat_bytes, stat_fields, stat_numbers, stat_setting};

use crate::put::{
    put_boolean, put_colour, put_element, put_integer, put_number, put_quoted, put_text,
};
use crate::put_fields::{put_name, put_optional, put_place, put_third_parameter};
use crate::words::{
    board_byte_word, board_flag_word, board_text_word, header_number_word, key_word, side_word,
    stat_byte_word, stat_number_word,
};
use std::alloc::AllocError;
use zed_types::{BoardId, BoardSetting, HeaderSetting, StatByte, StatFields, StatSetting};

fn put_current_board(out: &mut Vec<u8>, board: BoardId) -> Result<(), AllocError>
    ensures { OnOk result (out.new.items ≡ out.old.items ++ header_setting (CurrentBoard board)) }
{
    put_text(out, "current board ")?;
    put_name(out, board.name)
}

pub(crate) fn put_header_setting(
    out: &mut Vec<u8>,
    setting: &HeaderSetting,
) -> Result<(), AllocError>
    ensures { OnOk result (out.new.items ≡ out.old.items ++ header_setting setting.now) }
{
    match setting {
        HeaderSetting::Number(number, value) => {
            put_text(out, header_number_word(*number))?;
            put_integer(out, *value)
        }
        HeaderSetting::Key(key, has) => {
            put_text(out, "key ")?;
            put_text(out, key_word(*key))?;
            put_boolean(out, *has)
        }
        HeaderSetting::Saved(saved) => {
            put_text(out, "saved ")?;
            put_boolean(out, *saved)
        }
        HeaderSetting::CurrentBoard(board) => put_current_board(out, *board),
        HeaderSetting::WorldName(name) => {
            put_text(out, "world name ")?;
            put_quoted(out, name.as_slice())
        }
        HeaderSetting::Flag(slot, flag) => {
            put_text(out, "flag ")?;
            put_number(out, 1 + u64::from(slot.index()))?;
            put_text(out, " ")?;
            put_quoted(out, flag.as_slice())
        }
    }
}

pub(crate) fn put_board_setting(out: &mut Vec<u8>, setting: &BoardSetting) -> Result<(), AllocError>
    ensures { OnOk result (out.new.items ≡ out.old.items ++ board_setting setting.now) }
{
    match setting {
        BoardSetting::Byte(property, byte) => {
            put_text(out, board_byte_word(*property))?;
            put_number(out, u64::from(*byte))
        }
        BoardSetting::Flag(property, set) => {
            put_text(out, board_flag_word(*property))?;
            put_boolean(out, *set)
        }
        BoardSetting::TimeLimit(limit) => {
            put_text(out, "time limit ")?;
            put_integer(out, *limit)
        }
        BoardSetting::Exit(side, board) => {
            put_text(out, "exit ")?;
            put_text(out, side_word(*side))?;
            put_optional(out, board.map(|x| x.name))
        }
        BoardSetting::Text(property, text) => {
            put_text(out, board_text_word(*property))?;
            put_quoted(out, text.as_slice())
        }
        BoardSetting::Rank(rank) => {
            put_text(out, "rank ")?;
            put_number(out, u64::from(*rank))
        }
    }
}

fn put_stat_byte(out: &mut Vec<u8>, field: StatByte, byte: u8) -> Result<(), AllocError>
    ensures { OnOk result (out.new.items ≡ out.old.items ++ stat_byte field byte) }
{
    match field {
        StatByte::UnderElement => put_element(out, byte),
        StatByte::UnderColour => put_colour(out, byte),
        _ => put_number(out, u64::from(byte)),
    }
}

pub(crate) fn put_stat_setting(out: &mut Vec<u8>, setting: &StatSetting) -> Result<(), AllocError>
    ensures { OnOk result (out.new.items ≡ out.old.items ++ stat_setting setting.now) }
{
    match setting {
        StatSetting::Byte(field, byte) => {
            put_text(out, stat_byte_word(*field))?;
            put_stat_byte(out, *field, *byte)
        }
        StatSetting::Number(field, number) => {
            put_text(out, stat_number_word(*field))?;
            put_integer(out, *number)
        }
        StatSetting::P3(parameter) => {
            put_text(out, "p3 ")?;
            put_third_parameter(out, *parameter)
        }
        StatSetting::Follower(stat) => {
            put_text(out, "follower ")?;
            put_optional(out, stat.map(|x| x.name))
        }
        StatSetting::Leader(stat) => {
            put_text(out, "leader ")?;
            put_optional(out, stat.map(|x| x.name))
        }
        StatSetting::Text(text) => {
            put_text(out, "text ")?;
            put_optional(out, text.map(|x| x.name))
        }
    }
}

#[tactic(auto, unfolding(crate::specs::Line::stat_bytes))]
fn put_stat_bytes(out: &mut Vec<u8>, bytes: &[u8; 6]) -> Result<(), AllocError>
    ensures { OnOk result (out.new.items ≡ out.old.items ++ stat_bytes bytes.now) }
{
    put_place(out, bytes[0], bytes[1])?;
    put_text(out, " p1 ")?;
    put_number(out, u64::from(bytes[2]))?;
    put_text(out, " p2 ")?;
    put_number(out, u64::from(bytes[3]))?;
    put_text(out, " under ")?;
    put_element(out, bytes[4])?;
    put_text(out, " ")?;
    put_colour(out, bytes[5])
}

#[tactic(auto, unfolding(crate::specs::Line::stat_numbers))]
fn put_stat_numbers(out: &mut Vec<u8>, numbers: &[i16; 3]) -> Result<(), AllocError>
    ensures { OnOk result (out.new.items ≡ out.old.items ++ stat_numbers numbers.now) }
{
    put_text(out, "step ")?;
    put_integer(out, numbers[0])?;
    put_text(out, ",")?;
    put_integer(out, numbers[1])?;
    put_text(out, " cycle ")?;
    put_integer(out, numbers[2])
}

/// Appends what a new stat is given.
#[tactic(auto, unfolding(crate::specs::Line::stat_fields))]
pub(crate) fn put_stat_fields(out: &mut Vec<u8>, fields: &StatFields) -> Result<(), AllocError>
    ensures { OnOk result (out.new.items ≡ out.old.items ++ stat_fields fields.now) }
{
    put_stat_bytes(out, &fields.bytes)?;
    put_text(out, " ")?;
    put_stat_numbers(out, &fields.numbers)?;
    put_text(out, " p3 ")?;
    put_third_parameter(out, fields.p3)?;
    put_text(out, " text ")?;
    put_optional(out, fields.text.map(|x| x.name))
}
