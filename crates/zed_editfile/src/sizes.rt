//! How many bytes an edit takes in a file.
ghost use Rattle.std.specs.Prelude.{◌≡◌, ◌<◌, ◌≤◌, ◌^◌, length};
ghost use Rattle.zed_editfile.specs.Spelling.{string, optional, name, third_parameter, header_setting, board_setting, stat_setting, stat_fields, op_text, spelling};
ghost use Rattle.zed_editfile.specs.Stream.{IsRecord};

use zed_op::{Edit, Op};
use zed_types::{
    BoardSetting, Bytes, HeaderSetting, Name, StatFields, StatSetting, ThirdParameter,
};

/// The bytes of a stamp: six of its time and two of its replica.
const STAMP: u32 = 8;

/// The bytes of a name: a stamp and an index.
const NAME: u32 = STAMP + 4;

/// A length byte and the bytes.
fn string_len(text: &Bytes) -> u32
    requires { length (string text.now) < 2 ^ 32 }
    ensures { result ≡ length (string text.now) }
{
    1 + text.as_slice().len() as u32
}

#[tactic(auto, using(crate::proofs::Lengths::length_name))]
fn optional_len(made: Option<Name>) -> u32
    ensures result { result ≡ length (optional name made) }
    ensures within { result ≤ 13 }
{
    match made {
        None => 1,
        Some(_) => 1 + NAME,
    }
}

#[tactic(auto, using(crate::proofs::Lengths::length_name))]
fn third_parameter_len(parameter: ThirdParameter) -> u32
    ensures result { result ≡ length (third_parameter parameter) }
    ensures within { result ≤ 13 }
{
    match parameter {
        ThirdParameter::Byte(_) => 2,
        ThirdParameter::Board(_) => 1 + NAME,
    }
}

#[tactic(auto, using(crate::proofs::Lengths::length_name, crate::proofs::Lengths::length_integer))]
fn header_setting_len(setting: &HeaderSetting) -> u32
    requires { length (header_setting setting.now) < 2 ^ 32 }
    ensures { result ≡ length (header_setting setting.now) }
{
    match setting {
        HeaderSetting::Number(_, _) => 3,
        HeaderSetting::Key(_, _) => 2,
        HeaderSetting::Saved(_) => 2,
        HeaderSetting::CurrentBoard(_) => 1 + NAME,
        HeaderSetting::WorldName(text) => 1 + string_len(text),
        HeaderSetting::Flag(_, text) => 1 + string_len(text),
    }
}

#[tactic(auto, using(crate::proofs::Lengths::length_integer, crate::proofs::Numbers::length_number))]
fn board_setting_len(setting: &BoardSetting) -> u32
    requires { length (board_setting setting.now) < 2 ^ 32 }
    ensures { result ≡ length (board_setting setting.now) }
{
    match setting {
        BoardSetting::Byte(_, _) => 2,
        BoardSetting::Flag(_, _) => 2,
        BoardSetting::TimeLimit(_) => 3,
        BoardSetting::Exit(_, board) => 1 + optional_len(board.map(|x| x.name)),
        BoardSetting::Text(_, text) => 1 + string_len(text),
        BoardSetting::Rank(_) => 3,
    }
}

#[tactic(auto, using(crate::proofs::Lengths::length_integer))]
fn stat_setting_len(setting: &StatSetting) -> u32
    ensures result { result ≡ length (stat_setting setting.now) }
    ensures within { result ≤ 14 }
{
    match setting {
        StatSetting::Byte(_, _) => 2,
        StatSetting::Number(_, _) => 3,
        StatSetting::P3(parameter) => 1 + third_parameter_len(*parameter),
        StatSetting::Follower(stat) => 1 + optional_len(stat.map(|x| x.name)),
        StatSetting::Leader(stat) => 1 + optional_len(stat.map(|x| x.name)),
        StatSetting::Text(text) => 1 + optional_len(text.map(|x| x.name)),
    }
}

fn stat_fields_len(fields: &StatFields) -> u32
    ensures result { result ≡ length (stat_fields fields.now) }
    ensures within { result ≤ 38 }
{
    let bytes = fields.bytes.len() + 2 * fields.numbers.len();
    bytes as u32 + third_parameter_len(fields.p3) + optional_len(fields.text.map(|x| x.name))
}

#[tactic(auto, using(crate::proofs::Lengths::length_name, crate::proofs::Lengths::length_stamp, crate::proofs::Numbers::length_number, crate::proofs::Lengths::length_both))]
fn op_len(op: &Op) -> u32
    requires { length (op_text op.now) < 2 ^ 32 }
    ensures { result ≡ length (op_text op.now) }
{
    match op {
        Op::Genesis(world) => 1 + world.as_slice().len() as u32,
        Op::SetHeader(setting) => 1 + header_setting_len(setting),
        Op::BoardAdd(name) => 1 + string_len(name),
        Op::BoardRemove(_) => 1 + NAME,
        Op::SetBoard(_, setting) => 1 + NAME + board_setting_len(setting),
        Op::SetCells(_, _, _) => 1 + NAME + 6,
        Op::StatAdd(_, fields) => 1 + NAME + stat_fields_len(fields),
        Op::StatRemove(_) => 1 + NAME,
        Op::SetStat(_, setting) => 1 + NAME + stat_setting_len(setting),
        Op::TextAdd => 1,
        Op::TextInsert(_, after, bytes) => {
            1 + NAME + optional_len(after.map(|x| x.name)) + bytes.as_slice().len() as u32
        }
        Op::TextDelete(_, _) => 1 + NAME + STAMP + 8,
    }
}

/// How many bytes the body of a record takes.
#[tactic(auto, unfolding(crate::specs::Spelling::spelling), using(crate::proofs::Lengths::length_stamp, crate::proofs::Lengths::length_both))]
pub(crate) fn body_len(edit: &Edit) -> u32
    requires { IsRecord edit.now }
    ensures { result ≡ length (spelling edit.now) }
{
    STAMP + op_len(&edit.op)
}
