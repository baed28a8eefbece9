//! Writing an op, its number and its fields, into a vector that has room for it.
ghost use Rattle.std.specs.Prelude.{◌≡◌, true};
ghost use Rattle.std.specs.List.{flat_map};
ghost use Rattle.zed_op.specs.Fit.{is_header_in_range, is_property_in_range, is_in_range};
ghost use Rattle.zed_editfile.specs.Room.{HasRoom, Appends};
ghost use Rattle.zed_editfile.specs.Spelling.{integer, header_setting, board_setting, stat_setting, stat_fields, op_text};

use crate::put::{
    put_boolean, put_bytes, put_integer, put_name, put_optional, put_rectangle, put_stamp,
    put_string, put_third_parameter, put_tile, put_u8, put_u16, put_u32,
};
use zed_op::Op;
use zed_types::{BoardSetting, HeaderSetting, StatFields, StatSetting};

/// The header fields of the first key and of the first flag.
const FIRST_KEY: u8 = 9;

const FIRST_FLAG: u8 = 19;

fn put_header_setting(out: &mut Vec<u8>, setting: &HeaderSetting)
    requires range { is_header_in_range setting.now ≡ true }
    requires room { HasRoom (header_setting setting.now) out.old }
    ensures { Appends (header_setting setting.now) out.old out.new }
{
    match setting {
        HeaderSetting::Number(number, value) => {
            put_u8(out, number.index());
            put_integer(out, *value);
        }
        HeaderSetting::Key(key, has) => {
            put_u8(out, FIRST_KEY + key.index());
            put_boolean(out, *has);
        }
        HeaderSetting::Saved(saved) => {
            put_u8(out, 16);
            put_boolean(out, *saved);
        }
        HeaderSetting::CurrentBoard(board) => {
            put_u8(out, 17);
            put_name(out, board.name);
        }
        HeaderSetting::WorldName(name) => {
            put_u8(out, 18);
            put_string(out, name);
        }
        HeaderSetting::Flag(slot, flag) => {
            put_u8(out, FIRST_FLAG + slot.index());
            put_string(out, flag);
        }
    }
}

fn put_board_setting(out: &mut Vec<u8>, setting: &BoardSetting)
    requires range { is_property_in_range setting.now ≡ true }
    requires room { HasRoom (board_setting setting.now) out.old }
    ensures { Appends (board_setting setting.now) out.old out.new }
{
    match setting {
        BoardSetting::Byte(property, byte) => put_bytes(out, &[property.field(), *byte]),
        BoardSetting::Flag(property, set) => {
            put_u8(out, property.field());
            put_boolean(out, *set);
        }
        BoardSetting::TimeLimit(limit) => {
            put_u8(out, BoardSetting::TIME_LIMIT);
            put_integer(out, *limit);
        }
        BoardSetting::Exit(side, board) => {
            put_u8(out, side.field());
            put_optional(out, board.map(|x| x.name));
        }
        BoardSetting::Text(property, text) => {
            put_u8(out, property.field());
            put_string(out, text);
        }
        BoardSetting::Rank(rank) => {
            put_u8(out, BoardSetting::RANK);
            put_u16(out, *rank);
        }
    }
}

fn put_stat_setting(out: &mut Vec<u8>, setting: &StatSetting)
    requires { HasRoom (stat_setting setting.now) out.old }
    ensures { Appends (stat_setting setting.now) out.old out.new }
{
    match setting {
        StatSetting::Byte(field, byte) => put_bytes(out, &[field.field(), *byte]),
        StatSetting::Number(field, number) => {
            put_u8(out, field.field());
            put_integer(out, *number);
        }
        StatSetting::P3(parameter) => {
            put_u8(out, 8);
            put_third_parameter(out, *parameter);
        }
        StatSetting::Follower(stat) => {
            put_u8(out, 9);
            put_optional(out, stat.map(|x| x.name));
        }
        StatSetting::Leader(stat) => {
            put_u8(out, 10);
            put_optional(out, stat.map(|x| x.name));
        }
        StatSetting::Text(text) => {
            put_u8(out, 13);
            put_optional(out, text.map(|x| x.name));
        }
    }
}

fn put_integers(out: &mut Vec<u8>, numbers: &[i16])
    requires { HasRoom (flat_map integer numbers.now) out.old }
    ensures { Appends (flat_map integer numbers.now) out.old out.new }
{
    for number in numbers {
        put_integer(out, *number);
    }
}

/// Appends what a new stat is given.
fn put_stat_fields(out: &mut Vec<u8>, fields: &StatFields)
    requires { HasRoom (stat_fields fields.now) out.old }
    ensures { Appends (stat_fields fields.now) out.old out.new }
{
    let (place, rest) = fields.bytes.split_at(2);
    let (parameters, under) = rest.split_at(2);
    put_bytes(out, place);
    put_integers(out, &fields.numbers);
    put_bytes(out, parameters);
    put_third_parameter(out, fields.p3);
    put_bytes(out, under);
    put_optional(out, fields.text.map(|x| x.name));
}

/// Appends the number of an op, and its fields.
pub(crate) fn put_op(out: &mut Vec<u8>, op: &Op)
    requires range { is_in_range op.now ≡ true }
    requires room { HasRoom (op_text op.now) out.old }
    ensures { Appends (op_text op.now) out.old out.new }
{
    match op {
        Op::Genesis(world) => {
            put_u8(out, 1);
            put_bytes(out, world.as_slice());
        }
        Op::SetHeader(setting) => {
            put_u8(out, 2);
            put_header_setting(out, setting);
        }
        Op::BoardAdd(name) => {
            put_u8(out, 3);
            put_string(out, name);
        }
        Op::BoardRemove(board) => {
            put_u8(out, 4);
            put_name(out, board.name);
        }
        Op::SetBoard(board, setting) => {
            put_u8(out, 5);
            put_name(out, board.name);
            put_board_setting(out, setting);
        }
        Op::SetCells(board, cells, tile) => {
            put_u8(out, 6);
            put_name(out, board.name);
            put_rectangle(out, *cells);
            put_tile(out, *tile);
        }
        Op::StatAdd(board, fields) => {
            put_u8(out, 7);
            put_name(out, board.name);
            put_stat_fields(out, fields);
        }
        Op::StatRemove(stat) => {
            put_u8(out, 8);
            put_name(out, stat.name);
        }
        Op::SetStat(stat, setting) => {
            put_u8(out, 9);
            put_name(out, stat.name);
            put_stat_setting(out, setting);
        }
        Op::TextAdd => put_u8(out, 10),
        Op::TextInsert(text, after, bytes) => {
            put_u8(out, 11);
            put_name(out, text.name);
            put_optional(out, after.map(|x| x.name));
            put_bytes(out, bytes.as_slice());
        }
        Op::TextDelete(text, range) => {
            put_u8(out, 12);
            put_name(out, text.name);
            put_stamp(out, range.stamp);
            put_u32(out, range.first);
            put_u32(out, range.last);
        }
    }
}
