//! Reading registers, each under its number.
ghost use Rattle.std.specs.Prelude.{◌≡◌, true};
ghost use Rattle.zed_types.specs.Strings.{has_bytes, header_has_string, board_has_string};
ghost use Rattle.zed_editfile.specs.Reading.{Gives, GivesUnless, reads_such, mapped, byte_at, boolean_at, string_at, key_of, flag_of, header_value_at, header_setting_at, board_value_at, board_setting_at, stat_value_at, stat_setting_at, stat_fields_at};

use crate::error::EditFileError;
use crate::fields::{
    board_of, boolean_of, byte_of, integer_of, optional_board_of, optional_stat_of,
    optional_text_of, string_of, third_parameter_of, tile_of, u16_of,
};
use std::alloc::Global;
use zed_op::Cause;
use zed_types::{
    BoardByte, BoardFlag, BoardSetting, BoardText, FlagSlot, HeaderNumber, HeaderSetting,
    KeyColour, Side, StatByte, StatFields, StatNumber, StatSetting,
};

/// The first version that has the rank of a board.
const FIRST_WITH_RANK: u8 = 2;

/// The colour of a key below 7.
fn key_of(key: u8) -> KeyColour
    ensures { result ≡ key_of key }
{
    match key {
        0 => KeyColour::Blue,
        1 => KeyColour::Green,
        2 => KeyColour::Cyan,
        3 => KeyColour::Red,
        4 => KeyColour::Purple,
        5 => KeyColour::Yellow,
        _ => KeyColour::White,
    }
}

/// The slot of a flag below 10.
fn flag_of(flag: u8) -> FlagSlot
    ensures { result ≡ flag_of flag }
{
    match flag {
        0 => FlagSlot::First,
        1 => FlagSlot::Second,
        2 => FlagSlot::Third,
        3 => FlagSlot::Fourth,
        4 => FlagSlot::Fifth,
        5 => FlagSlot::Sixth,
        6 => FlagSlot::Seventh,
        7 => FlagSlot::Eighth,
        8 => FlagSlot::Ninth,
        _ => FlagSlot::Tenth,
    }
}

#[tactic(auto, unfolding(crate::specs::Reading::header_value_at), using(crate::proofs::Strings::world_name_has, crate::proofs::Strings::flag_has))]
fn header_value_of(
    alloc: Global,
    field: u8,
    bytes: &[u8],
) -> Result<(HeaderSetting, &[u8]), EditFileError>
    ensures { GivesUnless (reads_such header_has_string (header_value_at field bytes.now) ≡ true)
        (λ x. (x.0, x.1.now)) result (header_value_at field bytes.now) }
{
    if let Some(number) = HeaderNumber::of_field(field) {
        let (value, rest) = integer_of(bytes)?;
        return Ok((HeaderSetting::Number(number, value), rest));
    }
    if field < 16 {
        let (has, rest) = boolean_of(bytes)?;
        return Ok((HeaderSetting::Key(key_of(field - 9), has), rest));
    }
    if field == 16 {
        let (saved, rest) = boolean_of(bytes)?;
        return Ok((HeaderSetting::Saved(saved), rest));
    }
    if field == 17 {
        let (board, rest) = board_of(bytes)?;
        return Ok((HeaderSetting::CurrentBoard(board), rest));
    }
    if field == 18 {
        let (name, rest) = string_of(alloc, bytes)?;
        return Ok((HeaderSetting::WorldName(name), rest));
    }
    if field < 29 {
        let (flag, rest) = string_of(alloc, bytes)?;
        return Ok((HeaderSetting::Flag(flag_of(field - 19), flag), rest));
    }
    Err(EditFileError::BadEdit(Cause::Tag))
}

#[tactic(auto, unfolding(crate::specs::Reading::header_setting_at))]
pub(crate) fn header_setting_of(
    alloc: Global,
    bytes: &[u8],
) -> Result<(HeaderSetting, &[u8]), EditFileError>
    ensures { GivesUnless (reads_such header_has_string (header_setting_at bytes.now) ≡ true)
        (λ x. (x.0, x.1.now)) result (header_setting_at bytes.now) }
{
    let (field, rest) = byte_of(bytes)?;
    header_value_of(alloc, field, rest)
}

fn board_byte_of(property: BoardByte, bytes: &[u8]) -> Result<(BoardSetting, &[u8]), EditFileError>
    ensures { Gives (λ x. (x.0, x.1.now)) result
        (mapped (BoardSetting.Byte property) (byte_at bytes.now)) }
{
    let (byte, rest) = byte_of(bytes)?;
    Ok((BoardSetting::Byte(property, byte), rest))
}

fn board_flag_of(property: BoardFlag, bytes: &[u8]) -> Result<(BoardSetting, &[u8]), EditFileError>
    ensures { Gives (λ x. (x.0, x.1.now)) result
        (mapped (BoardSetting.Flag property) (boolean_at bytes.now)) }
{
    let (set, rest) = boolean_of(bytes)?;
    Ok((BoardSetting::Flag(property, set), rest))
}

#[tactic(auto, using(crate::proofs::Strings::board_text_has))]
fn board_text_of(
    alloc: Global,
    property: BoardText,
    bytes: &[u8],
) -> Result<(BoardSetting, &[u8]), EditFileError>
    ensures { let read = mapped (BoardSetting.Text property) (string_at bytes.now) in
        GivesUnless (reads_such board_has_string read ≡ true) (λ x. (x.0, x.1.now)) result read }
{
    let (text, rest) = string_of(alloc, bytes)?;
    Ok((BoardSetting::Text(property, text), rest))
}

#[tactic(auto, unfolding(crate::specs::Reading::board_value_at))]
fn board_value_of(
    alloc: Global,
    version: u8,
    field: u8,
    bytes: &[u8],
) -> Result<(BoardSetting, &[u8]), EditFileError>
    ensures { GivesUnless
        (reads_such board_has_string (board_value_at version field bytes.now) ≡ true)
        (λ x. (x.0, x.1.now)) result (board_value_at version field bytes.now) }
{
    if let Some(property) = BoardByte::of_field(field) {
        return board_byte_of(property, bytes);
    }
    if let Some(property) = BoardFlag::of_field(field) {
        return board_flag_of(property, bytes);
    }
    if let Some(side) = Side::of_field(field) {
        let (board, rest) = optional_board_of(bytes)?;
        return Ok((BoardSetting::Exit(side, board), rest));
    }
    if let Some(property) = BoardText::of_field(field) {
        return board_text_of(alloc, property, bytes);
    }
    if field == BoardSetting::TIME_LIMIT {
        let (limit, rest) = integer_of(bytes)?;
        return Ok((BoardSetting::TimeLimit(limit), rest));
    }
    if field == BoardSetting::RANK && FIRST_WITH_RANK <= version {
        let (rank, rest) = u16_of(bytes)?;
        return Ok((BoardSetting::Rank(rank), rest));
    }
    Err(EditFileError::BadEdit(Cause::Tag))
}

#[tactic(auto, unfolding(crate::specs::Reading::board_setting_at))]
pub(crate) fn board_setting_of(
    alloc: Global,
    version: u8,
    bytes: &[u8],
) -> Result<(BoardSetting, &[u8]), EditFileError>
    ensures { GivesUnless (reads_such board_has_string (board_setting_at version bytes.now) ≡ true)
        (λ x. (x.0, x.1.now)) result (board_setting_at version bytes.now) }
{
    let (property, rest) = byte_of(bytes)?;
    board_value_of(alloc, version, property, rest)
}

fn stat_byte_of(field: StatByte, bytes: &[u8]) -> Result<(StatSetting, &[u8]), EditFileError>
    ensures { Gives (λ x. (x.0, x.1.now)) result
        (mapped (StatSetting.Byte field) (byte_at bytes.now)) }
{
    let (byte, rest) = byte_of(bytes)?;
    Ok((StatSetting::Byte(field, byte), rest))
}

#[tactic(auto, unfolding(crate::specs::Reading::stat_value_at))]
fn stat_value_of(field: u8, bytes: &[u8]) -> Result<(StatSetting, &[u8]), EditFileError>
    ensures { Gives (λ x. (x.0, x.1.now)) result (stat_value_at field bytes.now) }
{
    if let Some(kind) = StatByte::of_field(field) {
        return stat_byte_of(kind, bytes);
    }
    if let Some(kind) = StatNumber::of_field(field) {
        let (number, rest) = integer_of(bytes)?;
        return Ok((StatSetting::Number(kind, number), rest));
    }
    match field {
        8 => {
            let (parameter, rest) = third_parameter_of(bytes)?;
            Ok((StatSetting::P3(parameter), rest))
        }
        9 => {
            let (stat, rest) = optional_stat_of(bytes)?;
            Ok((StatSetting::Follower(stat), rest))
        }
        10 => {
            let (stat, rest) = optional_stat_of(bytes)?;
            Ok((StatSetting::Leader(stat), rest))
        }
        13 => {
            let (text, rest) = optional_text_of(bytes)?;
            Ok((StatSetting::Text(text), rest))
        }
        _ => Err(EditFileError::BadEdit(Cause::Tag)),
    }
}

#[tactic(auto, unfolding(crate::specs::Reading::stat_setting_at))]
pub(crate) fn stat_setting_of(bytes: &[u8]) -> Result<(StatSetting, &[u8]), EditFileError>
    ensures { Gives (λ x. (x.0, x.1.now)) result (stat_setting_at bytes.now) }
{
    let (field, rest) = byte_of(bytes)?;
    stat_value_of(field, rest)
}

/// What a new stat is given.
#[tactic(auto, unfolding(crate::specs::Reading::stat_fields_at))]
pub(crate) fn stat_fields_of(bytes: &[u8]) -> Result<(StatFields, &[u8]), EditFileError>
    ensures { Gives (λ x. (x.0, x.1.now)) result (stat_fields_at bytes.now) }
{
    let (x, rest) = byte_of(bytes)?;
    let (y, rest) = byte_of(rest)?;
    let (step_x, rest) = integer_of(rest)?;
    let (step_y, rest) = integer_of(rest)?;
    let (cycle, rest) = integer_of(rest)?;
    let (p1, rest) = byte_of(rest)?;
    let (p2, rest) = byte_of(rest)?;
    let (p3, rest) = third_parameter_of(rest)?;
    let (under, rest) = tile_of(rest)?;
    let (text, rest) = optional_text_of(rest)?;
    let fields = StatFields {
        bytes: [x, y, p1, p2, under.element, under.colour],
        numbers: [step_x, step_y, cycle],
        p3,
        text,
    };
    Ok((fields, rest))
}
