//! Reading the kinds of fields: numbers, strings, stamps, names and what is made of them.
ghost use Rattle.std.specs.Prelude.{◌≡◌, ◌+◌, ◌<◌, ◌≤◌, length, true};
ghost use Rattle.zed_types.specs.Strings.{has_bytes};
ghost use Rattle.zed_editfile.specs.Reading.{Gives, GivesUnless, reads_such, byte_at, number_at, integer_at, boolean_at, string_at, stamp_at, name_at, board_name_at, stat_name_at, text_name_at, element_name_at, optional_at, tile_at, rectangle_at, third_parameter_at, range_at};

use crate::error::EditFileError;
use byteorder::{ByteOrder, LittleEndian};
use std::alloc::Global;
use zed_op::Cause;
use zed_types::{
    BoardId, ByteRange, Bytes, ElemId, Name, Rectangle, Stamp, StatId, TextId, ThirdParameter, Tile,
};

#[tactic(auto, unfolding(crate::specs::Reading::byte_at))]
pub(crate) fn byte_of(bytes: &[u8]) -> Result<(u8, &[u8]), EditFileError>
    ensures { Gives (λ x. (x.0, x.1.now)) result (byte_at bytes.now) }
{
    match bytes {
        [] => Err(EditFileError::BadEdit(Cause::Short)),
        [byte, rest @ ..] => Ok((*byte, rest)),
    }
}

/// A number in two bytes.
#[tactic(auto, unfolding(crate::specs::Reading::number_at))]
pub(crate) fn u16_of(bytes: &[u8]) -> Result<(u16, &[u8]), EditFileError>
    ensures { Gives (λ x. (x.0, x.1.now)) result (number_at 2 bytes.now) }
{
    if bytes.len() < 2 {
        return Err(EditFileError::BadEdit(Cause::Short));
    }
    Ok((LittleEndian::read_u16(bytes), &bytes[2..]))
}

/// A number in four bytes.
#[tactic(auto, unfolding(crate::specs::Reading::number_at))]
fn u32_of(bytes: &[u8]) -> Result<(u32, &[u8]), EditFileError>
    ensures { Gives (λ x. (x.0, x.1.now)) result (number_at 4 bytes.now) }
{
    if bytes.len() < 4 {
        return Err(EditFileError::BadEdit(Cause::Short));
    }
    Ok((LittleEndian::read_u32(bytes), &bytes[4..]))
}

/// A time, in six bytes.
#[tactic(auto, unfolding(crate::specs::Reading::number_at))]
fn time_of(bytes: &[u8]) -> Result<(u64, &[u8]), EditFileError>
    ensures { Gives (λ x. (x.0, x.1.now)) result (number_at 6 bytes.now) }
{
    if bytes.len() < 6 {
        return Err(EditFileError::BadEdit(Cause::Short));
    }
    Ok((LittleEndian::read_u48(bytes), &bytes[6..]))
}

#[tactic(auto, unfolding(crate::specs::Reading::integer_at, crate::specs::Reading::number_at))]
pub(crate) fn integer_of(bytes: &[u8]) -> Result<(i16, &[u8]), EditFileError>
    ensures { Gives (λ x. (x.0, x.1.now)) result (integer_at bytes.now) }
{
    if bytes.len() < 2 {
        return Err(EditFileError::BadEdit(Cause::Short));
    }
    Ok((LittleEndian::read_i16(bytes), &bytes[2..]))
}

#[tactic(auto, unfolding(crate::specs::Reading::boolean_at))]
pub(crate) fn boolean_of(bytes: &[u8]) -> Result<(bool, &[u8]), EditFileError>
    ensures { Gives (λ x. (x.0, x.1.now)) result (boolean_at bytes.now) }
{
    let (byte, rest) = byte_of(bytes)?;
    match byte {
        0 => Ok((false, rest)),
        1 => Ok((true, rest)),
        _ => Err(EditFileError::BadEdit(Cause::Tag)),
    }
}

/// A length byte and so many bytes.
#[tactic(auto, unfolding(crate::specs::Reading::string_at))]
pub(crate) fn string_of(alloc: Global, bytes: &[u8]) -> Result<(Bytes, &[u8]), EditFileError>
    ensures { GivesUnless (reads_such has_bytes (string_at bytes.now) ≡ true)
        (λ x. (x.0, x.1.now)) result (string_at bytes.now) }
{
    let (len, rest) = byte_of(bytes)?;
    let len = usize::from(len);
    if rest.len() < len {
        return Err(EditFileError::BadEdit(Cause::Short));
    }
    let (text, rest) = rest.split_at(len);
    Ok((Bytes::from_slice(alloc, text)?, rest))
}

#[tactic(auto, unfolding(crate::specs::Reading::stamp_at))]
pub(crate) fn stamp_of(bytes: &[u8]) -> Result<(Stamp, &[u8]), EditFileError>
    ensures { Gives (λ x. (x.0, x.1.now)) result (stamp_at bytes.now) }
{
    let (time, rest) = time_of(bytes)?;
    let (replica, rest) = u16_of(rest)?;
    Ok((Stamp { time, replica }, rest))
}

/// The stamp and the index of a name.
#[tactic(auto, unfolding(crate::specs::Reading::name_at))]
fn name_of(bytes: &[u8]) -> Result<(Name, &[u8]), EditFileError>
    ensures { Gives (λ x. (x.0, x.1.now)) result (name_at bytes.now) }
{
    let (stamp, rest) = stamp_of(bytes)?;
    let (index, rest) = u32_of(rest)?;
    Ok((Name { stamp, index }, rest))
}

/// A tag, and a name behind a tag of 1.
#[tactic(auto, unfolding(crate::specs::Reading::optional_at))]
fn optional_of(bytes: &[u8]) -> Result<(Option<Name>, &[u8]), EditFileError>
    ensures { Gives (λ x. (x.0, x.1.now)) result (optional_at name_at bytes.now) }
{
    let (tag, rest) = boolean_of(bytes)?;
    if !tag {
        return Ok((None, rest));
    }
    let (name, rest) = name_of(rest)?;
    Ok((Some(name), rest))
}

#[tactic(auto, unfolding(crate::specs::Reading::board_name_at))]
pub(crate) fn board_of(bytes: &[u8]) -> Result<(BoardId, &[u8]), EditFileError>
    ensures { Gives (λ x. (x.0, x.1.now)) result (board_name_at bytes.now) }
{
    let (name, rest) = name_of(bytes)?;
    Ok((BoardId { name }, rest))
}

#[tactic(auto, unfolding(crate::specs::Reading::stat_name_at))]
pub(crate) fn stat_of(bytes: &[u8]) -> Result<(StatId, &[u8]), EditFileError>
    ensures { Gives (λ x. (x.0, x.1.now)) result (stat_name_at bytes.now) }
{
    let (name, rest) = name_of(bytes)?;
    Ok((StatId { name }, rest))
}

#[tactic(auto, unfolding(crate::specs::Reading::text_name_at))]
pub(crate) fn text_of(bytes: &[u8]) -> Result<(TextId, &[u8]), EditFileError>
    ensures { Gives (λ x. (x.0, x.1.now)) result (text_name_at bytes.now) }
{
    let (name, rest) = name_of(bytes)?;
    Ok((TextId { name }, rest))
}

#[tactic(auto, using(crate::proofs::Names::optional_board))]
pub(crate) fn optional_board_of(bytes: &[u8]) -> Result<(Option<BoardId>, &[u8]), EditFileError>
    ensures { Gives (λ x. (x.0, x.1.now)) result (optional_at board_name_at bytes.now) }
{
    let (name, rest) = optional_of(bytes)?;
    Ok((name.map(|name| BoardId { name }), rest))
}

#[tactic(auto, using(crate::proofs::Names::optional_stat))]
pub(crate) fn optional_stat_of(bytes: &[u8]) -> Result<(Option<StatId>, &[u8]), EditFileError>
    ensures { Gives (λ x. (x.0, x.1.now)) result (optional_at stat_name_at bytes.now) }
{
    let (name, rest) = optional_of(bytes)?;
    Ok((name.map(|name| StatId { name }), rest))
}

#[tactic(auto, using(crate::proofs::Names::optional_text))]
pub(crate) fn optional_text_of(bytes: &[u8]) -> Result<(Option<TextId>, &[u8]), EditFileError>
    ensures { Gives (λ x. (x.0, x.1.now)) result (optional_at text_name_at bytes.now) }
{
    let (name, rest) = optional_of(bytes)?;
    Ok((name.map(|name| TextId { name }), rest))
}

#[tactic(auto, using(crate::proofs::Names::optional_element))]
pub(crate) fn optional_element_of(bytes: &[u8]) -> Result<(Option<ElemId>, &[u8]), EditFileError>
    ensures { Gives (λ x. (x.0, x.1.now)) result (optional_at element_name_at bytes.now) }
{
    let (name, rest) = optional_of(bytes)?;
    Ok((name.map(|name| ElemId { name }), rest))
}

#[tactic(auto, unfolding(crate::specs::Reading::tile_at))]
pub(crate) fn tile_of(bytes: &[u8]) -> Result<(Tile, &[u8]), EditFileError>
    ensures { Gives (λ x. (x.0, x.1.now)) result (tile_at bytes.now) }
{
    let (element, rest) = byte_of(bytes)?;
    let (colour, rest) = byte_of(rest)?;
    Ok((Tile { element, colour }, rest))
}

#[tactic(auto, unfolding(crate::specs::Reading::rectangle_at))]
pub(crate) fn rectangle_of(bytes: &[u8]) -> Result<(Rectangle, &[u8]), EditFileError>
    ensures { Gives (λ x. (x.0, x.1.now)) result (rectangle_at bytes.now) }
{
    let (left, rest) = byte_of(bytes)?;
    let (top, rest) = byte_of(rest)?;
    let (right, rest) = byte_of(rest)?;
    let (bottom, rest) = byte_of(rest)?;
    let rectangle = Rectangle {
        left,
        top,
        right,
        bottom,
    };
    Ok((rectangle, rest))
}

/// A tag, and a byte or a board.
#[tactic(auto, unfolding(crate::specs::Reading::third_parameter_at))]
pub(crate) fn third_parameter_of(bytes: &[u8]) -> Result<(ThirdParameter, &[u8]), EditFileError>
    ensures { Gives (λ x. (x.0, x.1.now)) result (third_parameter_at bytes.now) }
{
    let (tag, rest) = boolean_of(bytes)?;
    if tag {
        let (board, rest) = board_of(rest)?;
        return Ok((ThirdParameter::Board(board), rest));
    }
    let (byte, rest) = byte_of(rest)?;
    Ok((ThirdParameter::Byte(byte), rest))
}

#[tactic(auto, unfolding(crate::specs::Reading::range_at))]
pub(crate) fn range_of(bytes: &[u8]) -> Result<(ByteRange, &[u8]), EditFileError>
    ensures { Gives (λ x. (x.0, x.1.now)) result (range_at bytes.now) }
{
    let (stamp, rest) = stamp_of(bytes)?;
    let (first, rest) = u32_of(rest)?;
    let (last, rest) = u32_of(rest)?;
    Ok((ByteRange { stamp, first, last }, rest))
}
