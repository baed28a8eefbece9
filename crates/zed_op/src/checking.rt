//! Whether an edit fits.
ghost use Rattle.std.specs.Prelude.{◌≡◌, ◌⊎◌, Err, IfOk, IfErr, true};
ghost use Rattle.std.specs.List.{list_all};
ghost use Rattle.zed_op.specs.declared.cause.EditError.TheVariants.{Memory};
ghost use Rattle.zed_types.specs.Table.{is_in_table};
ghost use Rattle.zed_op.specs.Fit.{Fits, fault, is_author_stamp, is_stamp, is_own_stamp, has_good_stamps, is_header_in_range, most_of, is_property_in_range, is_in_range, names_earlier, has_good_world};
ghost use Rattle.zed_op.specs.Names.{names_of, stamp_of};
ghost use Rattle.zed_op.specs.Verdict.{verdict, is_genesis, BeginsItsWorld, HangsOnItsWorld};

use crate::cause::{Cause, EditError};
use crate::naming::all_named;
use crate::op::{Edit, Op};
use std::alloc::Global;
use zed_types::{
    BoardId, BoardSetting, BoardText, Bytes, COLUMNS, HeaderSetting, MESSAGE_LIMIT, NAME_LIMIT,
    READ_BODY_LIMIT, ROWS, Rectangle, Stamp, WORD_LIMIT,
};
use zed_world::is_canonical;

/// Most bytes that one edit puts into a text: as many as a board's body may have.
const MOST_INSERTED: usize = READ_BODY_LIMIT;

fn is_author_stamp(stamp: Stamp) -> bool
    ensures { result ≡ is_author_stamp stamp }
{
    2 <= stamp.time && stamp.time <= Stamp::LAST_TIME && 1 <= stamp.replica
}

fn is_stamp(stamp: Stamp) -> bool
    ensures { result ≡ is_stamp stamp }
{
    stamp == Stamp::GENESIS || is_author_stamp(stamp)
}

fn is_own_stamp(op: &Op, stamp: Stamp) -> bool
    ensures { result ≡ is_own_stamp op.now stamp }
{
    match op {
        Op::Genesis(_) => stamp == Stamp::GENESIS,
        _ => is_author_stamp(stamp),
    }
}

fn names_stamps(op: &Op) -> bool
    ensures { result ≡ list_all (λ x. is_stamp (stamp_of x)) (names_of op.now) }
{
    all_named(op, |thing| is_stamp(thing.stamp()))
}

fn has_good_stamps(edit: &Edit) -> bool
    ensures { result ≡ has_good_stamps edit.now }
{
    is_own_stamp(&edit.op, edit.stamp) && names_stamps(&edit.op)
}

fn is_in_table(cells: &Rectangle) -> bool
    ensures { result ≡ is_in_table cells.now }
{
    1 <= cells.left
        && cells.left <= cells.right
        && usize::from(cells.right) <= COLUMNS
        && 1 <= cells.top
        && cells.top <= cells.bottom
        && usize::from(cells.bottom) <= ROWS
}

fn is_header_in_range(setting: &HeaderSetting) -> bool
    ensures { result ≡ is_header_in_range setting.now }
{
    match setting {
        HeaderSetting::WorldName(word) | HeaderSetting::Flag(_, word) => {
            word.as_slice().len() <= WORD_LIMIT
        }
        _ => true,
    }
}

fn most_of(text: BoardText) -> usize
    ensures { result ≡ most_of text }
{
    match text {
        BoardText::Name => NAME_LIMIT,
        BoardText::Message => MESSAGE_LIMIT,
    }
}

fn is_property_in_range(setting: &BoardSetting) -> bool
    ensures { result ≡ is_property_in_range setting.now }
{
    match setting {
        BoardSetting::Text(text, bytes) => bytes.as_slice().len() <= most_of(*text),
        _ => true,
    }
}

fn is_in_range(op: &Op) -> bool
    ensures { result ≡ is_in_range op.now }
{
    match op {
        Op::SetHeader(setting) => is_header_in_range(setting),
        Op::BoardAdd(name) => name.as_slice().len() <= NAME_LIMIT,
        Op::BoardRemove(board) => *board != BoardId::TITLE,
        Op::SetBoard(_, setting) => is_property_in_range(setting),
        Op::SetCells(_, cells, _) => is_in_table(cells),
        Op::TextInsert(_, _, bytes) => {
            let count = bytes.as_slice().len();
            1 <= count && count <= MOST_INSERTED
        }
        Op::TextDelete(_, range) => range.first <= range.last,
        _ => true,
    }
}

fn names_earlier(edit: &Edit) -> bool
    ensures { result ≡ names_earlier edit.now }
{
    all_named(&edit.op, |thing| thing.stamp().is_before(edit.stamp))
}

fn has_good_world(alloc: Global, op: &Op) -> Result<bool, EditError>
    ensures ok { IfOk result (λ b. b ≡ has_good_world op.now) }
    ensures err { IfErr result (λ e. e ≡ Memory) }
    ensures genesis { IfErr result (λ e. is_genesis op.now ≡ true) }
    ensures begins { IfErr result (λ e. BeginsItsWorld op.now) }
{
    match op {
        Op::Genesis(bytes) => match is_canonical(alloc, bytes.as_slice()) {
            Ok(good) => Ok(good),
            Err(_) => Err(EditError::Memory),
        },
        _ => Ok(true),
    }
}

/// Whether an edit fits, or the first cause against it. The order is: its own stamp and those that
/// it names; the ranges of its values; whether all that it names is earlier; the bytes of a
/// Genesis. Only a Genesis that has no other fault and whose bytes begin a world takes memory.
pub fn check(alloc: Global, edit: &Edit) -> Result<(), EditError>
    ensures result { (result ≡ Err Memory) ⊎ (result ≡ verdict (fault edit.now)) }
    ensures fits { IfOk result (λ _. Fits edit.now) }
    ensures err { result ≡ Err Memory → HangsOnItsWorld edit.now }
{
    if !has_good_stamps(edit) {
        return Err(EditError::BadEdit(Cause::Stamp));
    }
    if !is_in_range(&edit.op) {
        return Err(EditError::BadEdit(Cause::Range));
    }
    if !names_earlier(edit) {
        return Err(EditError::BadEdit(Cause::Order));
    }
    if !has_good_world(alloc, &edit.op)? {
        return Err(EditError::BadEdit(Cause::Genesis));
    }
    Ok(())
}
