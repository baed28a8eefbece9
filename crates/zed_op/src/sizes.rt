//! The sizes of the values of an edit: those of numbers by their types, those of times and strings
//! because the edit fits. None of this does any work: it says what is known of edits that a program
//! holds.

ghost use Rattle.std.specs.Prelude.{◌≡◌, ◌++◌, length, true};
ghost use Rattle.std.specs.List.{AllByRecursion};
ghost use Rattle.zed_op.specs.Fit.{Fits, is_stamp, is_header_in_range, is_property_in_range, is_in_range};
ghost use Rattle.zed_op.specs.Names.{target_named, header_names, board_names, stat_names, text_named, names_of};
ghost use Rattle.zed_op.specs.Set.{AllFit};
ghost use Rattle.zed_op.specs.Sizes.{AreStamped, IsByte, IsNumber, IsRank, IsStamp, IsName, IsTile, IsRange, IsRectangle, IsThirdParameter, IsHeaderSetting, IsBoardSetting, IsStatSetting, IsStatFields, IsOp, HasSizes, HaveSizes};

use crate::laws::fit_is_of_parts;
use crate::op::{Edit, Op};
use zed_types::{
    BoardSetting, ByteRange, HeaderSetting, Name, Rectangle, Stamp, StatFields, StatSetting,
    ThirdParameter, Tile,
};

fn stamp_has_size(stamp: Stamp)
    ensures { is_stamp stamp ≡ true → IsStamp stamp }
{}

fn byte_has_size(byte: u8)
    ensures { IsByte byte }
{}

fn number_has_size(number: i16)
    ensures { IsNumber number }
{}

fn rank_has_size(rank: u16)
    ensures { IsRank rank }
{}

fn name_has_size(name: Name)
    ensures { is_stamp name.stamp ≡ true → IsName name }
{}

fn cells_have_sizes(cells: Rectangle, tile: Tile)
    ensures rectangle { IsRectangle cells }
    ensures tile { IsTile tile }
{}

fn target_has_size(target: ThirdParameter)
    ensures { AreStamped (target_named target) → IsThirdParameter target }
{
    match target {
        ThirdParameter::Byte(_) => {}
        ThirdParameter::Board(board) => name_has_size(board.name),
    }
}

fn header_setting_has_size(setting: &HeaderSetting)
    ensures { AreStamped (header_names setting.now)
        → is_header_in_range setting.now ≡ true → IsHeaderSetting setting.now }
{
    match setting {
        HeaderSetting::Number(_, number) => number_has_size(*number),
        HeaderSetting::CurrentBoard(board) => name_has_size(board.name),
        HeaderSetting::Key(_, _) | HeaderSetting::Saved(_) => {}
        HeaderSetting::WorldName(_) | HeaderSetting::Flag(_, _) => {}
    }
}

fn board_setting_has_size(setting: &BoardSetting)
    ensures { AreStamped (board_names setting.now)
        → is_property_in_range setting.now ≡ true → IsBoardSetting setting.now }
{
    match setting {
        BoardSetting::Byte(_, byte) => byte_has_size(*byte),
        BoardSetting::TimeLimit(limit) => number_has_size(*limit),
        BoardSetting::Rank(rank) => rank_has_size(*rank),
        BoardSetting::Exit(_, Some(board)) => name_has_size(board.name),
        BoardSetting::Exit(_, None) | BoardSetting::Flag(_, _) | BoardSetting::Text(_, _) => {}
    }
}

fn stat_setting_has_size(setting: StatSetting)
    ensures { AreStamped (stat_names setting) → IsStatSetting setting }
{
    match setting {
        StatSetting::P3(target) => target_has_size(target),
        StatSetting::Follower(Some(stat)) | StatSetting::Leader(Some(stat)) => {
            name_has_size(stat.name);
        }
        StatSetting::Text(Some(text)) => name_has_size(text.name),
        StatSetting::Byte(_, _) | StatSetting::Number(_, _) => {}
        StatSetting::Follower(None) | StatSetting::Leader(None) | StatSetting::Text(None) => {}
    }
}

fn range_has_size(range: ByteRange)
    ensures { is_stamp range.stamp ≡ true → IsRange range }
{}

fn bytes_have_sizes(bytes: [u8; 6])
    ensures all { length bytes ≡ 6 }
    ensures bytes { AllByRecursion IsByte bytes }
{
    let [_x, _y, _p1, _p2, _element, _colour] = bytes;
}

fn numbers_have_sizes(numbers: [i16; 3])
    ensures all { length numbers ≡ 3 }
    ensures numbers { AllByRecursion IsNumber numbers }
{
    let [_step_x, _step_y, _cycle] = numbers;
}

fn stat_fields_have_sizes(fields: StatFields)
    ensures { AreStamped (target_named fields.p3 ++ text_named fields.text) → IsStatFields fields }
{
    bytes_have_sizes(fields.bytes);
    numbers_have_sizes(fields.numbers);
    target_has_size(fields.p3);
    if let Some(text) = fields.text {
        name_has_size(text.name);
    }
}

fn op_has_sizes(op: &Op)
    ensures { AreStamped (names_of op.now) → is_in_range op.now ≡ true → IsOp op.now }
{
    match op {
        Op::Genesis(_) | Op::BoardAdd(_) | Op::TextAdd => {}
        Op::SetHeader(setting) => header_setting_has_size(setting),
        Op::BoardRemove(board) => name_has_size(board.name),
        Op::SetBoard(board, setting) => {
            name_has_size(board.name);
            board_setting_has_size(setting);
        }
        Op::SetCells(board, cells, tile) => {
            name_has_size(board.name);
            cells_have_sizes(*cells, *tile);
        }
        Op::StatAdd(board, fields) => {
            name_has_size(board.name);
            stat_fields_have_sizes(*fields);
        }
        Op::StatRemove(stat) => name_has_size(stat.name),
        Op::SetStat(stat, setting) => {
            name_has_size(stat.name);
            stat_setting_has_size(*setting);
        }
        Op::TextInsert(text, after, _) => {
            name_has_size(text.name);
            if let Some(element) = *after {
                name_has_size(element.name);
            }
        }
        Op::TextDelete(text, range) => {
            name_has_size(text.name);
            range_has_size(*range);
        }
    }
}

/// Every value of an edit that fits has the size of its field.
pub fn edit_has_sizes(edit: &Edit)
    ensures { Fits edit.now → HasSizes edit.now }
{
    fit_is_of_parts();
    stamp_has_size(edit.stamp);
    op_has_sizes(&edit.op);
}

/// Every value of edits that fit has the size of its field.
pub fn edits_have_sizes(edits: &[Edit])
    requires { AllFit edits.now }
    ensures { HaveSizes edits.now }
{
    for edit in edits {
        edit_has_sizes(edit);
    }
}
