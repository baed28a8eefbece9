//! Properties of a board that differ.
use crate::plan::Plan;
use crate::plan_error::PlanError;
use crate::sight::SeenBoard;
use zed_types::{BoardByte, BoardFlag, BoardId, BoardSetting, BoardText, Side};
use zed_world::{BoardData, Properties};

/// The number of a board among others, 0 where it isn't there.
pub(crate) fn number_of(boards: &[BoardId], board: BoardId) -> usize {
    boards.iter().position(|other| *other == board).unwrap_or(0)
}

// An exit leads to the board of a number, 0 for none, of boards with these names by number.
fn plan_exit(
    plan: &mut Plan,
    boards: &[BoardId],
    board: BoardId,
    side: Side,
    before: Option<BoardId>,
    after: u8,
) -> Result<(), PlanError> {
    let number = match before {
        Some(there) => number_of(boards, there),
        None => 0,
    };
    let after = usize::from(after);
    if number == after {
        return Ok(());
    }
    let there = if after == 0 {
        None
    } else {
        boards.get(after).copied()
    };
    plan.set_board(board, BoardSetting::Exit(side, there))
}

fn plan_exits(
    plan: &mut Plan,
    boards: &[BoardId],
    seen: &SeenBoard,
    after: &Properties,
) -> Result<(), PlanError> {
    let exits = [
        (Side::North, after.north),
        (Side::South, after.south),
        (Side::West, after.west),
        (Side::East, after.east),
    ];
    for ((side, after), before) in exits.iter().zip(seen.exits.iter()) {
        plan_exit(plan, boards, seen.id, *side, *before, *after)?;
    }
    Ok(())
}

fn plan_texts(
    plan: &mut Plan,
    board: BoardId,
    before: &BoardData,
    after: &BoardData,
) -> Result<(), PlanError> {
    let (was, is) = (&before.properties.message, &after.properties.message);
    let texts = [
        (BoardText::Name, &before.name, &after.name),
        (BoardText::Message, was, is),
    ];
    for (field, before, after) in &texts {
        if !before.is_same(after) {
            plan.set_board(board, BoardSetting::Text(*field, after.copy()?))?;
        }
    }
    Ok(())
}

/// Plans to set the properties of a board that differ, except its rank. The boards have these names
/// by number.
pub(crate) fn plan_properties(
    plan: &mut Plan,
    boards: &[BoardId],
    seen: &SeenBoard,
    before: &BoardData,
    after: &BoardData,
) -> Result<(), PlanError> {
    let (was, is) = (&before.properties, &after.properties);
    let bytes = [
        (BoardByte::MaxShots, was.max_shots, is.max_shots),
        (BoardByte::StartX, was.start_x, is.start_x),
        (BoardByte::StartY, was.start_y, is.start_y),
    ];
    for (field, was, is) in &bytes {
        if was != is {
            plan.set_board(seen.id, BoardSetting::Byte(*field, *is))?;
        }
    }
    let flags = [
        (BoardFlag::Dark, was.dark, is.dark),
        (BoardFlag::ReEnter, was.re_enter, is.re_enter),
    ];
    for (field, was, is) in &flags {
        if was != is {
            plan.set_board(seen.id, BoardSetting::Flag(*field, *is))?;
        }
    }
    if was.time_limit != is.time_limit {
        plan.set_board(seen.id, BoardSetting::TimeLimit(is.time_limit))?;
    }
    plan_exits(plan, boards, seen, is)?;
    plan_texts(plan, seen.id, before, after)
}
