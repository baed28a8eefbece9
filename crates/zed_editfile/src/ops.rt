//! Reading ops.
ghost use Rattle.std.specs.Prelude.{◌≡◌, true};
ghost use Rattle.zed_op.specs.Growth.{has_string};
ghost use Rattle.zed_editfile.specs.Reading.{Gives, GivesUnless, SpellsString, reads_such, set_board_at, set_cells_at, stat_add_at, set_stat_at, text_insert_at, text_delete_at, op_at, unchecked_edit_at};

use crate::error::EditFileError;
use crate::fields::{
    board_of, byte_of, optional_element_of, range_of, rectangle_of, stamp_of, stat_of, string_of,
    text_of, tile_of,
};
use crate::settings::{board_setting_of, header_setting_of, stat_fields_of, stat_setting_of};
use std::alloc::Global;
use zed_op::{Cause, Edit, Op};
use zed_types::Bytes;

#[tactic(auto, unfolding(crate::specs::Reading::set_board_at), using(crate::proofs::Strings::set_board_has))]
fn set_board_of(alloc: Global, version: u8, bytes: &[u8]) -> Result<(Op, &[u8]), EditFileError>
    ensures { GivesUnless (reads_such has_string (set_board_at version bytes.now) ≡ true)
        (λ x. (x.0, x.1.now)) result (set_board_at version bytes.now) }
{
    let (board, rest) = board_of(bytes)?;
    let (setting, rest) = board_setting_of(alloc, version, rest)?;
    Ok((Op::SetBoard(board, setting), rest))
}

#[tactic(auto, unfolding(crate::specs::Reading::set_cells_at))]
fn set_cells_of(bytes: &[u8]) -> Result<(Op, &[u8]), EditFileError>
    ensures { Gives (λ x. (x.0, x.1.now)) result (set_cells_at bytes.now) }
{
    let (board, rest) = board_of(bytes)?;
    let (rectangle, rest) = rectangle_of(rest)?;
    let (tile, rest) = tile_of(rest)?;
    Ok((Op::SetCells(board, rectangle, tile), rest))
}

#[tactic(auto, unfolding(crate::specs::Reading::stat_add_at))]
fn stat_add_of(bytes: &[u8]) -> Result<(Op, &[u8]), EditFileError>
    ensures { Gives (λ x. (x.0, x.1.now)) result (stat_add_at bytes.now) }
{
    let (board, rest) = board_of(bytes)?;
    let (fields, rest) = stat_fields_of(rest)?;
    Ok((Op::StatAdd(board, fields), rest))
}

#[tactic(auto, unfolding(crate::specs::Reading::set_stat_at))]
fn set_stat_of(bytes: &[u8]) -> Result<(Op, &[u8]), EditFileError>
    ensures { Gives (λ x. (x.0, x.1.now)) result (set_stat_at bytes.now) }
{
    let (stat, rest) = stat_of(bytes)?;
    let (setting, rest) = stat_setting_of(rest)?;
    Ok((Op::SetStat(stat, setting), rest))
}

/// The inserted bytes are all that is left.
#[tactic(auto, unfolding(crate::specs::Reading::text_insert_at))]
fn text_insert_of(alloc: Global, bytes: &[u8]) -> Result<(Op, &[u8]), EditFileError>
    ensures { GivesUnless (reads_such has_string (text_insert_at bytes.now) ≡ true)
        (λ x. (x.0, x.1.now)) result (text_insert_at bytes.now) }
{
    let (text, rest) = text_of(bytes)?;
    let (after, rest) = optional_element_of(rest)?;
    let inserted = Bytes::from_slice(alloc, rest)?;
    Ok((Op::TextInsert(text, after, inserted), &[]))
}

#[tactic(auto, unfolding(crate::specs::Reading::text_delete_at))]
fn text_delete_of(bytes: &[u8]) -> Result<(Op, &[u8]), EditFileError>
    ensures { Gives (λ x. (x.0, x.1.now)) result (text_delete_at bytes.now) }
{
    let (text, rest) = text_of(bytes)?;
    let (range, rest) = range_of(rest)?;
    Ok((Op::TextDelete(text, range), rest))
}

/// The op of a number in a version, by the fields behind it.
#[tactic(auto, unfolding(crate::specs::Reading::op_at), using(crate::proofs::Strings::set_header_has, crate::proofs::Strings::board_add_has))]
fn op_of(alloc: Global, version: u8, number: u8, bytes: &[u8]) -> Result<(Op, &[u8]), EditFileError>
    ensures { GivesUnless (reads_such has_string (op_at version number bytes.now) ≡ true)
        (λ x. (x.0, x.1.now)) result (op_at version number bytes.now) }
{
    match number {
        1 => Ok((Op::Genesis(Bytes::from_slice(alloc, bytes)?), &[])),
        2 => {
            let (setting, rest) = header_setting_of(alloc, bytes)?;
            Ok((Op::SetHeader(setting), rest))
        }
        3 => {
            let (name, rest) = string_of(alloc, bytes)?;
            Ok((Op::BoardAdd(name), rest))
        }
        4 => {
            let (board, rest) = board_of(bytes)?;
            Ok((Op::BoardRemove(board), rest))
        }
        5 => set_board_of(alloc, version, bytes),
        6 => set_cells_of(bytes),
        7 => stat_add_of(bytes),
        8 => {
            let (stat, rest) = stat_of(bytes)?;
            Ok((Op::StatRemove(stat), rest))
        }
        9 => set_stat_of(bytes),
        10 => Ok((Op::TextAdd, bytes)),
        11 => text_insert_of(alloc, bytes),
        12 => text_delete_of(bytes),
        _ => Err(EditFileError::BadEdit(Cause::Op)),
    }
}

/// The edit that these bytes spell, whatever is wrong with it: a stamp, and an op of which nothing is left.
#[tactic(auto, unfolding(crate::specs::Reading::unchecked_edit_at, crate::specs::Reading::op_in))]
pub(crate) fn unchecked_edit_of(
    alloc: Global,
    version: u8,
    bytes: &[u8],
) -> Result<Edit, EditFileError>
    ensures { GivesUnless (SpellsString version bytes.now) (λ e. e) result
        (unchecked_edit_at version bytes.now) }
{
    let (stamp, rest) = stamp_of(bytes)?;
    let (number, rest) = byte_of(rest)?;
    let (op, rest) = op_of(alloc, version, number, rest)?;
    if !rest.is_empty() {
        return Err(EditFileError::BadEdit(Cause::Long));
    }
    Ok(Edit { stamp, op })
}
