//! Stats that are removed, added, and changed.
use crate::plan::Plan;
use crate::plan_error::PlanError;
use crate::planning::Task;
use crate::properties::number_of;
use crate::sight::SeenStat;
use std::alloc::Global;
use zed_op::Op;
use zed_types::{
    BoardId, StatByte, StatFields, StatId, StatNumber, StatSetting, TextId, ThirdParameter,
};
use zed_world::{BoardData, StatData, is_passage};

// The third parameter of a stat as an author gives it: that of a passage is a board.
fn given_p3(boards: &[BoardId], board: &BoardData, stat: &StatData) -> ThirdParameter {
    if is_passage(&board.tiles, stat.x, stat.y) {
        if let Some(there) = boards.get(usize::from(stat.p3)) {
            return ThirdParameter::Board(*there);
        }
    }
    ThirdParameter::Byte(stat.p3)
}

// What the register of a third parameter is exported as, once the board is as it is to be.
fn shown_p3(
    boards: &[BoardId],
    board: &BoardData,
    stat: &StatData,
    register: ThirdParameter,
) -> usize {
    match register {
        ThirdParameter::Board(there) => number_of(boards, there),
        ThirdParameter::Byte(byte) => {
            let number = usize::from(byte);
            if is_passage(&board.tiles, stat.x, stat.y) && boards.len() <= number {
                0
            } else {
                number
            }
        }
    }
}

// Plans to set the values of a stat that differ.
fn plan_values(
    plan: &mut Plan,
    stat: StatId,
    before: &StatData,
    after: &StatData,
) -> Result<(), PlanError> {
    let (was, is) = (before.under, after.under);
    let bytes = [
        (StatByte::X, before.x, after.x),
        (StatByte::Y, before.y, after.y),
        (StatByte::P1, before.p1, after.p1),
        (StatByte::P2, before.p2, after.p2),
        (StatByte::UnderElement, was.element, is.element),
        (StatByte::UnderColour, was.colour, is.colour),
    ];
    for (field, before, after) in &bytes {
        if before != after {
            plan.set_stat(stat, StatSetting::Byte(*field, *after))?;
        }
    }
    let numbers = [
        (StatNumber::StepX, before.step_x, after.step_x),
        (StatNumber::StepY, before.step_y, after.step_y),
        (StatNumber::Cycle, before.cycle, after.cycle),
        (StatNumber::Position, before.position, after.position),
    ];
    for (field, before, after) in &numbers {
        if before != after {
            plan.set_stat(stat, StatSetting::Number(*field, *after))?;
        }
    }
    Ok(())
}

// The number of a stat among others.
fn place_of(stats: &[StatId], stat: Option<StatId>) -> Option<usize> {
    let stat = stat?;
    stats.iter().position(|other| *other == stat)
}

// The name of the stat of a number, if one is told.
fn named(stats: &[StatId], number: Option<u8>) -> Option<StatId> {
    stats.get(usize::from(number?)).copied()
}

fn as_place(number: Option<u8>) -> Option<usize> {
    Some(usize::from(number?))
}

// Plans to set the follower and the leader of a stat, of stats with these names by number, where they are others.
fn plan_neighbours(
    plan: &mut Plan,
    stats: &[StatId],
    seen: &SeenStat,
    after: &StatData,
) -> Result<(), PlanError> {
    if place_of(stats, seen.follower) != as_place(after.follower) {
        let setting = StatSetting::Follower(named(stats, after.follower));
        plan.set_stat(seen.id, setting)?;
    }
    if place_of(stats, seen.leader) != as_place(after.leader) {
        let setting = StatSetting::Leader(named(stats, after.leader));
        plan.set_stat(seen.id, setting)?;
    }
    Ok(())
}

// Plans to change a stat that stays, its neighbours aside.
fn plan_kept(
    plan: &mut Plan,
    boards: &[BoardId],
    task: &Task,
    seen: &SeenStat,
    before: &StatData,
    after: &StatData,
    text: Option<TextId>,
) -> Result<(), PlanError> {
    plan_values(plan, seen.id, before, after)?;
    if shown_p3(boards, task.after, after, seen.p3) != usize::from(after.p3) {
        let p3 = given_p3(boards, task.after, after);
        plan.set_stat(seen.id, StatSetting::P3(p3))?;
    }
    if seen.text != text {
        plan.set_stat(seen.id, StatSetting::Text(text))?;
    }
    Ok(())
}

// Plans a new stat, its neighbours aside, and tells its name.
fn plan_new(
    plan: &mut Plan,
    boards: &[BoardId],
    task: &Task,
    after: &StatData,
    text: Option<TextId>,
) -> Result<StatId, PlanError> {
    let fields = StatFields {
        bytes: [
            after.x,
            after.y,
            after.p1,
            after.p2,
            after.under.element,
            after.under.colour,
        ],
        numbers: [after.step_x, after.step_y, after.cycle],
        p3: given_p3(boards, task.after, after),
        text,
    };
    let stamp = plan.add(Op::StatAdd(task.seen.id, fields))?;
    let stat = StatId::new(stamp, 0);
    if after.position != 0 {
        let position = StatSetting::Number(StatNumber::Position, after.position);
        plan.set_stat(stat, position)?;
    }
    Ok(stat)
}

fn plan_removals(plan: &mut Plan, task: &Task) -> Result<(), PlanError> {
    for (i, seen) in task.seen.stats.iter().enumerate() {
        if i > 0 && !task.stats.partners.contains(&Some(i)) {
            plan.add(Op::StatRemove(seen.id))?;
        }
    }
    Ok(())
}

/// Plans to change the stats of a board. The boards have these names by number, and its stats are to have these texts.
pub(crate) fn plan_stats(
    alloc: Global,
    plan: &mut Plan,
    boards: &[BoardId],
    task: &Task,
    texts: &[Option<TextId>],
) -> Result<(), PlanError> {
    plan_removals(plan, task)?;
    let mut names = Vec::new(alloc);
    let mut stats = Vec::new(alloc);
    let all = task.after.stats.as_slice().iter();
    for ((after, partner), text) in all.zip(task.stats.partners.iter()).zip(texts.iter()) {
        let seen = match partner {
            Some(i) => {
                let before = task.before.stats.as_slice().get(*i);
                let (Some(seen), Some(before)) = (task.seen.stats.get(*i), before) else {
                    return Err(PlanError::NotTaken);
                };
                plan_kept(plan, boards, task, seen, before, after, *text)?;
                *seen
            }
            None => SeenStat::plain(plan_new(plan, boards, task, after, *text)?),
        };
        names.push(seen.id)?;
        stats.push(seen)?;
    }
    for (seen, after) in stats.iter().zip(task.after.stats.as_slice().iter()) {
        plan_neighbours(plan, &names, seen, after)?;
    }
    Ok(())
}
