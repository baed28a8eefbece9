//! Registers of the header that differ.
use crate::plan::Plan;
use crate::plan_error::PlanError;
use zed_types::{BoardId, FlagSlot, HeaderNumber, HeaderSetting, KeyColour};
use zed_world::Header;

/// The keys in the order in which a header has them.
const KEYS: [KeyColour; 7] = [
    KeyColour::Blue,
    KeyColour::Green,
    KeyColour::Cyan,
    KeyColour::Red,
    KeyColour::Purple,
    KeyColour::Yellow,
    KeyColour::White,
];

/// The places for flags in their order.
const SLOTS: [FlagSlot; 10] = [
    FlagSlot::First,
    FlagSlot::Second,
    FlagSlot::Third,
    FlagSlot::Fourth,
    FlagSlot::Fifth,
    FlagSlot::Sixth,
    FlagSlot::Seventh,
    FlagSlot::Eighth,
    FlagSlot::Ninth,
    FlagSlot::Tenth,
];

fn plan_numbers(plan: &mut Plan, before: &Header, after: &Header) -> Result<(), PlanError> {
    let (was, is) = (before, after);
    let numbers = [
        (HeaderNumber::Ammo, was.ammo, is.ammo),
        (HeaderNumber::Gems, was.gems, is.gems),
        (HeaderNumber::Health, was.health, is.health),
        (HeaderNumber::Torches, was.torches, is.torches),
        (HeaderNumber::TorchTicks, was.torch_ticks, is.torch_ticks),
        (
            HeaderNumber::EnergizerTicks,
            was.energizer_ticks,
            is.energizer_ticks,
        ),
        (HeaderNumber::Score, was.score, is.score),
        (HeaderNumber::TimePassed, was.time_passed, is.time_passed),
        (HeaderNumber::Hundredths, was.hundredths, is.hundredths),
    ];
    for (field, was, is) in &numbers {
        if was != is {
            plan.set_header(HeaderSetting::Number(*field, *is))?;
        }
    }
    Ok(())
}

fn plan_keys(plan: &mut Plan, before: &Header, after: &Header) -> Result<(), PlanError> {
    for (k, colour) in KEYS.iter().enumerate() {
        let held = after.keys[k];
        if before.keys[k] != held {
            plan.set_header(HeaderSetting::Key(*colour, held))?;
        }
    }
    Ok(())
}

fn plan_strings(plan: &mut Plan, before: &Header, after: &Header) -> Result<(), PlanError> {
    if !before.name.is_same(&after.name) {
        plan.set_header(HeaderSetting::WorldName(after.name.copy()?))?;
    }
    for (k, slot) in SLOTS.iter().enumerate() {
        let was = before.flags.as_slice().get(k);
        if let (Some(was), Some(flag)) = (was, after.flags.as_slice().get(k)) {
            if !was.is_same(flag) {
                plan.set_header(HeaderSetting::Flag(*slot, flag.copy()?))?;
            }
        }
    }
    Ok(())
}

/// Plans to set the registers of a header that differ, except the current board.
pub(crate) fn plan_header(
    plan: &mut Plan,
    before: &Header,
    after: &Header,
) -> Result<(), PlanError> {
    plan_numbers(plan, before, after)?;
    plan_keys(plan, before, after)?;
    plan_strings(plan, before, after)?;
    if before.saved != after.saved {
        plan.set_header(HeaderSetting::Saved(after.saved))?;
    }
    Ok(())
}

/// Plans to make a board the current one, where it isn't, of boards with these names by number.
pub(crate) fn plan_current_board(
    plan: &mut Plan,
    boards: &[BoardId],
    current: BoardId,
    after: u8,
) -> Result<(), PlanError> {
    let number = boards
        .iter()
        .position(|board| *board == current)
        .unwrap_or(0);
    if number == usize::from(after) {
        return Ok(());
    }
    match boards.get(usize::from(after)) {
        Some(board) => plan.set_header(HeaderSetting::CurrentBoard(*board)),
        None => Ok(()),
    }
}
