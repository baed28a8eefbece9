//! Boards and stats that are removed and added.
use crate::plan::Plan;
use crate::plan_error::PlanError;
use crate::sight::{SeenBoard, SeenStat};
use zed_op::Op;
use zed_types::{BoardId, StatId};

fn board_of(boards: &[SeenBoard], id: BoardId) -> Option<&SeenBoard> {
    boards.iter().find(|board| board.id == id)
}

fn has_stat(stats: &[SeenStat], id: StatId) -> bool {
    stats.iter().any(|stat| stat.id == id)
}

// How many of the stats that are wanted stay, from the first on. A stat that an edit adds comes behind all others, so those behind the first
// one that isn't there are made anew.
fn kept(now: &[SeenStat], wanted: &[SeenStat]) -> usize {
    for (count, stat) in wanted.iter().enumerate() {
        if !has_stat(now, stat.id) {
            return count;
        }
    }
    wanted.len()
}

// Plans stats anew from a number on. They keep their texts.
fn plan_new_stats(
    plan: &mut Plan,
    board: BoardId,
    wanted: &[SeenStat],
    from: usize,
) -> Result<(), PlanError> {
    for stat in wanted.iter().skip(from) {
        plan.add(Op::StatAdd(board, stat.fields))?;
    }
    Ok(())
}

// Plans the stats of a board that stays.
fn plan_stats(
    plan: &mut Plan,
    board: BoardId,
    now: &[SeenStat],
    wanted: &[SeenStat],
) -> Result<(), PlanError> {
    let kept = kept(now, wanted);
    let (staying, _) = wanted.split_at(kept.min(wanted.len()));
    for stat in now {
        if !has_stat(staying, stat.id) {
            plan.add(Op::StatRemove(stat.id))?;
        }
    }
    plan_new_stats(plan, board, wanted, kept)
}

// Plans a board anew, whose player comes with it.
fn plan_new_board(plan: &mut Plan, wanted: &SeenBoard) -> Result<(), PlanError> {
    let stamp = plan.add(Op::BoardAdd(wanted.name.copy()?))?;
    plan_new_stats(plan, BoardId::new(stamp, 0), wanted.stats.as_slice(), 1)
}

/// Plans the boards and stats that are wanted in place of those that are there now.
pub(crate) fn plan_things(
    plan: &mut Plan,
    now: &[SeenBoard],
    wanted: &[SeenBoard],
) -> Result<(), PlanError> {
    for board in now {
        if board_of(wanted, board.id).is_none() {
            plan.add(Op::BoardRemove(board.id))?;
        }
    }
    for board in wanted {
        match board_of(now, board.id) {
            Some(there) => plan_stats(
                plan,
                board.id,
                there.stats.as_slice(),
                board.stats.as_slice(),
            )?,
            None => plan_new_board(plan, board)?,
        }
    }
    Ok(())
}
