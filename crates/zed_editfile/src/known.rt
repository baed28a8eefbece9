//! The record of an edit that is at hand, skipped at the front of bytes: no edit is made of it.
ghost use Rattle.std.specs.Prelude.{◌≡◌, ◌↔◌, [], ◌∷◌, ◌++◌, ◌<◌, ◌^◌, length, IsTrue, IfSome};
ghost use Rattle.std.specs.List.{flat_map};
ghost use Rattle.zed_op.specs.Fit.{Fits};
ghost use Rattle.zed_op.specs.Sizes.{HasSizes, IsStamp, IsName, IsThirdParameter, IsHeaderSetting, IsBoardSetting, IsStatSetting, IsStatFields, IsRange, IsString, IsOp};
ghost use Rattle.zed_editfile.specs.Known.{Past};
ghost use Rattle.zed_editfile.specs.Spelling.{number, integer, boolean, string, stamp, name, optional, third_parameter, header_setting, board_setting, stat_setting, stat_fields, rectangle, tile, board_name, stat_name, text_name, element_name, op_text, spelling, record_text, IsOf};

use crate::laws::fitting_edits_are_records;
use crate::sizes::body_len;
use byteorder::{ByteOrder, LittleEndian};
use zed_op::{Edit, Op, edit_has_sizes};
use zed_types::{
    BoardId, BoardSetting, ByteRange, Bytes, ElemId, HeaderSetting, Name, Rectangle, Stamp,
    StatFields, StatId, StatSetting, TextId, ThirdParameter, Tile,
};

/// What follows these bytes, if they are at the front.
fn past_bytes<'a>(bytes: &'a [u8], text: &[u8]) -> Option<&'a [u8]>
    ensures { Past text.now bytes.now result }
{
    bytes.strip_prefix(text)
}

fn past_u8(bytes: &[u8], n: u8) -> Option<&[u8]>
    ensures { Past (n ∷ []) bytes.now result }
{
    match bytes {
        [byte, rest @ ..] if *byte == n => Some(rest),
        _ => None,
    }
}

#[tactic(auto, using(crate::proofs::Passing::number_short))]
fn past_u16(bytes: &[u8], n: u16) -> Option<&[u8]>
    ensures { Past (number 2 n) bytes.now result }
{
    if bytes.len() < 2 {
        return None;
    }
    let (_, rest) = bytes.split_at(2);
    if LittleEndian::read_u16(bytes) == n {
        Some(rest)
    } else {
        None
    }
}

#[tactic(auto, using(crate::proofs::Passing::number_short))]
fn past_u32(bytes: &[u8], n: u32) -> Option<&[u8]>
    ensures { Past (number 4 n) bytes.now result }
{
    if bytes.len() < 4 {
        return None;
    }
    let (_, rest) = bytes.split_at(4);
    if LittleEndian::read_u32(bytes) == n {
        Some(rest)
    } else {
        None
    }
}

#[tactic(auto, using(crate::proofs::Passing::number_short))]
fn past_time(bytes: &[u8], time: u64) -> Option<&[u8]>
    requires { time < 2 ^ 48 }
    ensures { Past (number 6 time) bytes.now result }
{
    if bytes.len() < 6 {
        return None;
    }
    let (_, rest) = bytes.split_at(6);
    if LittleEndian::read_u48(bytes) == time {
        Some(rest)
    } else {
        None
    }
}

fn past_integer(bytes: &[u8], n: i16) -> Option<&[u8]>
    ensures { Past (integer n) bytes.now result }
{
    past_u16(bytes, n.cast_unsigned())
}

fn past_boolean(bytes: &[u8], set: bool) -> Option<&[u8]>
    ensures { Past (boolean set) bytes.now result }
{
    past_u8(bytes, u8::from(set))
}

#[tactic(auto, using(crate::proofs::Passing::past_both, crate::proofs::Passing::lacks_more))]
fn past_string<'a>(bytes: &'a [u8], text: &Bytes) -> Option<&'a [u8]>
    requires { length text.now < 256 }
    ensures { Past (string text.now) bytes.now result }
{
    let text = text.as_slice();
    past_bytes(past_u8(bytes, text.len() as u8)?, text)
}

#[tactic(auto, using(crate::proofs::Passing::past_both, crate::proofs::Passing::lacks_more))]
fn past_stamp(bytes: &[u8], made: Stamp) -> Option<&[u8]>
    requires { IsStamp made }
    ensures { Past (stamp made) bytes.now result }
{
    past_u16(past_time(bytes, made.time)?, made.replica)
}

#[tactic(auto, unfolding(crate::specs::Spelling::name), using(crate::proofs::Passing::past_both, crate::proofs::Passing::lacks_more))]
fn past_name(bytes: &[u8], made: Name) -> Option<&[u8]>
    requires { IsName made }
    ensures { Past (name made) bytes.now result }
{
    past_u32(past_stamp(bytes, made.stamp)?, made.index)
}

#[tactic(auto, using(crate::proofs::Passing::past_both, crate::proofs::Passing::lacks_more))]
fn past_optional(bytes: &[u8], made: Option<Name>) -> Option<&[u8]>
    requires { IfSome made IsName }
    ensures { Past (optional name made) bytes.now result }
{
    match made {
        None => past_boolean(bytes, false),
        Some(made) => past_name(past_boolean(bytes, true)?, made),
    }
}

#[tactic(auto, using(crate::proofs::Passing::past_both, crate::proofs::Passing::lacks_more))]
fn past_third_parameter(bytes: &[u8], parameter: ThirdParameter) -> Option<&[u8]>
    requires { IsThirdParameter parameter }
    ensures { Past (third_parameter parameter) bytes.now result }
{
    match parameter {
        ThirdParameter::Byte(byte) => past_u8(past_boolean(bytes, false)?, byte),
        ThirdParameter::Board(board) => past_name(past_boolean(bytes, true)?, board.name),
    }
}

#[tactic(auto, using(crate::proofs::Passing::past_both, crate::proofs::Passing::lacks_more))]
fn past_header_setting<'a>(bytes: &'a [u8], setting: &HeaderSetting) -> Option<&'a [u8]>
    requires { IsHeaderSetting setting.now }
    ensures { Past (header_setting setting.now) bytes.now result }
{
    match setting {
        HeaderSetting::Number(number, value) => past_integer(
            past_u8(bytes, number.index())?,
            *value,
        ),
        HeaderSetting::Key(key, has) => past_boolean(past_u8(bytes, 9 + key.index())?, *has),
        HeaderSetting::Saved(saved) => past_boolean(past_u8(bytes, 16)?, *saved),
        HeaderSetting::CurrentBoard(board) => past_name(past_u8(bytes, 17)?, board.name),
        HeaderSetting::WorldName(name) => past_string(past_u8(bytes, 18)?, name),
        HeaderSetting::Flag(slot, flag) => past_string(past_u8(bytes, 19 + slot.index())?, flag),
    }
}

#[tactic(auto, using(crate::proofs::Passing::past_both, crate::proofs::Passing::lacks_more))]
fn past_board_setting<'a>(bytes: &'a [u8], setting: &BoardSetting) -> Option<&'a [u8]>
    requires { IsBoardSetting setting.now }
    ensures { Past (board_setting setting.now) bytes.now result }
{
    match setting {
        BoardSetting::Byte(property, byte) => past_u8(past_u8(bytes, property.field())?, *byte),
        BoardSetting::Flag(property, set) => past_boolean(past_u8(bytes, property.field())?, *set),
        BoardSetting::TimeLimit(limit) => past_integer(
            past_u8(bytes, BoardSetting::TIME_LIMIT)?,
            *limit,
        ),
        BoardSetting::Exit(side, board) => past_optional(
            past_u8(bytes, side.field())?,
            board.map(|x| x.name),
        ),
        BoardSetting::Text(property, text) => past_string(past_u8(bytes, property.field())?, text),
        BoardSetting::Rank(rank) => past_u16(past_u8(bytes, BoardSetting::RANK)?, *rank),
    }
}

#[tactic(auto, using(crate::proofs::Passing::past_both, crate::proofs::Passing::lacks_more))]
fn past_stat_setting<'a>(bytes: &'a [u8], setting: &StatSetting) -> Option<&'a [u8]>
    requires { IsStatSetting setting.now }
    ensures { Past (stat_setting setting.now) bytes.now result }
{
    match setting {
        StatSetting::Byte(field, byte) => past_u8(past_u8(bytes, field.field())?, *byte),
        StatSetting::Number(field, number) => past_integer(past_u8(bytes, field.field())?, *number),
        StatSetting::P3(parameter) => past_third_parameter(past_u8(bytes, 8)?, *parameter),
        StatSetting::Follower(stat) => past_optional(past_u8(bytes, 9)?, stat.map(|x| x.name)),
        StatSetting::Leader(stat) => past_optional(past_u8(bytes, 10)?, stat.map(|x| x.name)),
        StatSetting::Text(text) => past_optional(past_u8(bytes, 13)?, text.map(|x| x.name)),
    }
}

#[tactic(auto, using(crate::proofs::Passing::past_both, crate::proofs::Passing::lacks_more))]
fn past_two<'a>(bytes: &'a [u8], first: u16, second: u16) -> Option<&'a [u8]>
    ensures { Past (number 2 first ++ number 2 second) bytes.now result }
{
    let rest = past_u16(bytes, first)?;
    past_u16(rest, second)
}

#[tactic(auto, using(crate::proofs::Passing::past_both, crate::proofs::Passing::lacks_more))]
fn past_three<'a>(bytes: &'a [u8], first: u16, second: u16, third: u16) -> Option<&'a [u8]>
    ensures { Past (number 2 first ++ (number 2 second ++ number 2 third)) bytes.now result }
{
    let rest = past_u16(bytes, first)?;
    past_two(rest, second, third)
}

#[tactic(auto, using(crate::proofs::Passing::three_integers))]
fn past_integers<'a>(bytes: &'a [u8], numbers: &[i16; 3]) -> Option<&'a [u8]>
    ensures { Past (flat_map integer numbers.now) bytes.now result }
{
    past_three(
        bytes,
        numbers[0].cast_unsigned(),
        numbers[1].cast_unsigned(),
        numbers[2].cast_unsigned(),
    )
}

#[tactic(auto, using(crate::proofs::Passing::past_both, crate::proofs::Passing::lacks_more))]
fn past_place<'a>(bytes: &'a [u8], place: &[u8], numbers: &[i16; 3]) -> Option<&'a [u8]>
    ensures { Past (place.now ++ flat_map integer numbers.now) bytes.now result }
{
    let rest = past_bytes(bytes, place)?;
    past_integers(rest, numbers)
}

#[tactic(auto, using(crate::proofs::Passing::past_both, crate::proofs::Passing::lacks_more))]
fn past_parameters<'a>(
    bytes: &'a [u8],
    place: &[u8],
    numbers: &[i16; 3],
    parameters: &[u8],
) -> Option<&'a [u8]>
    ensures { Past ((place.now ++ flat_map integer numbers.now) ++ parameters.now) bytes.now result }
{
    let rest = past_place(bytes, place, numbers)?;
    past_bytes(rest, parameters)
}

#[tactic(auto, using(crate::proofs::Passing::past_both, crate::proofs::Passing::lacks_more))]
fn past_third<'a>(
    bytes: &'a [u8],
    place: &[u8],
    numbers: &[i16; 3],
    parameters: &[u8],
    p3: ThirdParameter,
) -> Option<&'a [u8]>
    requires { IsThirdParameter p3 }
    ensures { Past (((place.now ++ flat_map integer numbers.now) ++ parameters.now) ++ third_parameter p3) bytes.now result }
{
    let rest = past_parameters(bytes, place, numbers, parameters)?;
    past_third_parameter(rest, p3)
}

#[tactic(auto, using(crate::proofs::Passing::past_both, crate::proofs::Passing::lacks_more))]
fn past_under<'a>(
    bytes: &'a [u8],
    place: &[u8],
    numbers: &[i16; 3],
    parameters: &[u8],
    p3: ThirdParameter,
    under: &[u8],
) -> Option<&'a [u8]>
    requires { IsThirdParameter p3 }
    ensures { Past ((((place.now ++ flat_map integer numbers.now) ++ parameters.now) ++ third_parameter p3) ++ under.now) bytes.now result }
{
    let rest = past_third(bytes, place, numbers, parameters, p3)?;
    past_bytes(rest, under)
}

#[tactic(auto, using(crate::proofs::Passing::past_both, crate::proofs::Passing::lacks_more))]
fn past_stat_fields<'a>(bytes: &'a [u8], fields: &StatFields) -> Option<&'a [u8]>
    requires { IsStatFields fields.now }
    ensures { Past (stat_fields fields.now) bytes.now result }
{
    let (place, rest) = fields.bytes.split_at(2);
    let (parameters, under) = rest.split_at(2);
    let rest = past_under(bytes, place, &fields.numbers, parameters, fields.p3, under)?;
    past_optional(rest, fields.text.map(|x| x.name))
}

#[tactic(auto, using(crate::proofs::Passing::past_both, crate::proofs::Passing::lacks_more))]
fn past_maker<'a>(bytes: &'a [u8], text: TextId, made: Stamp) -> Option<&'a [u8]>
    requires { IsName text.name × IsStamp made }
    ensures { Past (text_name text ++ stamp made) bytes.now result }
{
    let rest = past_name(bytes, text.name)?;
    past_stamp(rest, made)
}

#[tactic(auto, using(crate::proofs::Passing::past_both, crate::proofs::Passing::lacks_more))]
fn past_first<'a>(bytes: &'a [u8], text: TextId, range: ByteRange) -> Option<&'a [u8]>
    requires { IsName text.name × IsRange range }
    ensures { Past ((text_name text ++ stamp range.stamp) ++ number 4 range.first) bytes.now result }
{
    let rest = past_maker(bytes, text, range.stamp)?;
    past_u32(rest, range.first)
}

#[tactic(auto, using(crate::proofs::Passing::past_both, crate::proofs::Passing::lacks_more))]
fn past_range<'a>(bytes: &'a [u8], text: TextId, range: ByteRange) -> Option<&'a [u8]>
    requires { IsName text.name × IsRange range }
    ensures { Past (((text_name text ++ stamp range.stamp) ++ number 4 range.first) ++ number 4 range.last) bytes.now result }
{
    let rest = past_first(bytes, text, range)?;
    past_u32(rest, range.last)
}

#[tactic(auto, using(crate::proofs::Passing::past_both, crate::proofs::Passing::lacks_more))]
fn past_spot<'a>(bytes: &'a [u8], text: TextId, after: Option<ElemId>) -> Option<&'a [u8]>
    requires { IsName text.name × IfSome after (λ x. IsName x.name) }
    ensures { Past (text_name text ++ optional element_name after) bytes.now result }
{
    let rest = past_name(bytes, text.name)?;
    past_optional(rest, after.map(|x| x.name))
}

#[tactic(auto, using(crate::proofs::Passing::past_both, crate::proofs::Passing::lacks_more))]
fn past_insertion<'a>(
    bytes: &'a [u8],
    text: TextId,
    after: Option<ElemId>,
    inserted: &Bytes,
) -> Option<&'a [u8]>
    requires { IsName text.name × IfSome after (λ x. IsName x.name) }
    ensures { Past ((text_name text ++ optional element_name after) ++ inserted.now) bytes.now result }
{
    let rest = past_spot(bytes, text, after)?;
    past_bytes(rest, inserted.as_slice())
}

#[tactic(auto, using(crate::proofs::Passing::past_both, crate::proofs::Passing::lacks_more))]
fn past_board_and_setting<'a>(
    bytes: &'a [u8],
    board: BoardId,
    setting: &BoardSetting,
) -> Option<&'a [u8]>
    requires { IsName board.name × IsBoardSetting setting.now }
    ensures { Past (board_name board ++ board_setting setting.now) bytes.now result }
{
    let rest = past_name(bytes, board.name)?;
    past_board_setting(rest, setting)
}

#[tactic(auto, using(crate::proofs::Passing::past_both, crate::proofs::Passing::lacks_more))]
fn past_board_and_stat<'a>(bytes: &'a [u8], board: BoardId, fields: &StatFields) -> Option<&'a [u8]>
    requires { IsName board.name × IsStatFields fields.now }
    ensures { Past (board_name board ++ stat_fields fields.now) bytes.now result }
{
    let rest = past_name(bytes, board.name)?;
    past_stat_fields(rest, fields)
}

#[tactic(auto, using(crate::proofs::Passing::past_both, crate::proofs::Passing::lacks_more))]
fn past_stat_and_setting<'a>(
    bytes: &'a [u8],
    stat: StatId,
    setting: &StatSetting,
) -> Option<&'a [u8]>
    requires { IsName stat.name × IsStatSetting setting.now }
    ensures { Past (stat_name stat ++ stat_setting setting.now) bytes.now result }
{
    let rest = past_name(bytes, stat.name)?;
    past_stat_setting(rest, setting)
}

#[tactic(auto, using(crate::proofs::Passing::past_both, crate::proofs::Passing::lacks_more))]
fn past_board_and_cells<'a>(bytes: &'a [u8], board: BoardId, cells: Rectangle) -> Option<&'a [u8]>
    requires { IsName board.name }
    ensures { Past (board_name board ++ rectangle cells) bytes.now result }
{
    let rest = past_name(bytes, board.name)?;
    past_bytes(rest, &[cells.left, cells.top, cells.right, cells.bottom])
}

#[tactic(auto, using(crate::proofs::Passing::past_both, crate::proofs::Passing::lacks_more))]
fn past_cells<'a>(bytes: &'a [u8], board: BoardId, cells: Rectangle, t: Tile) -> Option<&'a [u8]>
    requires { IsName board.name }
    ensures { Past ((board_name board ++ rectangle cells) ++ tile t) bytes.now result }
{
    let rest = past_board_and_cells(bytes, board, cells)?;
    past_bytes(rest, &[t.element, t.colour])
}

/// What follows the number of an op and its fields.
#[tactic(auto, using(crate::proofs::Passing::past_both, crate::proofs::Passing::lacks_more))]
fn past_op<'a>(bytes: &'a [u8], op: &Op) -> Option<&'a [u8]>
    requires { IsOp op.now }
    ensures { Past (op_text op.now) bytes.now result }
{
    match op {
        Op::Genesis(world) => past_bytes(past_u8(bytes, 1)?, world.as_slice()),
        Op::SetHeader(setting) => past_header_setting(past_u8(bytes, 2)?, setting),
        Op::BoardAdd(name) => past_string(past_u8(bytes, 3)?, name),
        Op::BoardRemove(board) => past_name(past_u8(bytes, 4)?, board.name),
        Op::SetBoard(board, setting) => past_board_and_setting(past_u8(bytes, 5)?, *board, setting),
        Op::SetCells(board, cells, tile) => past_cells(past_u8(bytes, 6)?, *board, *cells, *tile),
        Op::StatAdd(board, fields) => past_board_and_stat(past_u8(bytes, 7)?, *board, fields),
        Op::StatRemove(stat) => past_name(past_u8(bytes, 8)?, stat.name),
        Op::SetStat(stat, setting) => past_stat_and_setting(past_u8(bytes, 9)?, *stat, setting),
        Op::TextAdd => past_u8(bytes, 10),
        Op::TextInsert(text, after, inserted) => past_insertion(
            past_u8(bytes, 11)?,
            *text,
            *after,
            inserted,
        ),
        Op::TextDelete(text, range) => past_range(past_u8(bytes, 12)?, *text, *range),
    }
}

/// What follows the body of a record.
#[tactic(auto, unfolding(crate::specs::Spelling::spelling), using(crate::proofs::Passing::past_both, crate::proofs::Passing::lacks_more))]
fn past_edit<'a>(bytes: &'a [u8], edit: &Edit) -> Option<&'a [u8]>
    requires { HasSizes edit.now }
    ensures { Past (spelling edit.now) bytes.now result }
{
    past_op(past_stamp(bytes, edit.stamp)?, &edit.op)
}

/// What follows the record of an edit.
#[tactic(auto, unfolding(crate::specs::Spelling::record_text), using(crate::proofs::Passing::past_both, crate::proofs::Passing::lacks_more))]
pub(crate) fn past_record<'a>(bytes: &'a [u8], edit: &Edit) -> Option<&'a [u8]>
    requires { Fits edit.now }
    ensures { Past (record_text edit.now) bytes.now result }
{
    edit_has_sizes(edit);
    fitting_edits_are_records(edit);
    past_edit(past_u32(bytes, body_len(edit))?, edit)
}

/// Whether a version has a spelling of an edit.
pub(crate) fn is_of(version: u8, edit: &Edit) -> bool
    ensures { IsTrue result ↔ IsOf version edit.now }
{
    match &edit.op {
        Op::SetBoard(_, BoardSetting::Rank(_)) => version >= 2,
        _ => true,
    }
}
