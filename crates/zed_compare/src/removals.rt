//! What one side removed, and the other worked on.
ghost use Rattle.std.specs.Prelude.{◌≡◌, OnOk};
ghost use Rattle.zed_compare.specs.Findings.{of_registers};

use crate::finding::Finding;
use std::alloc::AllocError;
use zed_join::Work;
use zed_sides::Side;
use zed_stats::LiveStat;
use zed_types::{BoardId, StatId};

/// Appends a board that the union doesn't show, where this side shows it and worked on it.
#[tactic(auto, using(crate::proofs::Kept::adds_none))]
pub(crate) fn find_gone_board(
    found: &mut Vec<Finding>,
    work: &Work,
    board: BoardId,
    side: Side,
    is_shown: bool,
) -> Result<(), AllocError>
    ensures { OnOk result (of_registers found.new.items ≡ of_registers found.old.items) }
{
    let edits = work.of(side).of_board(board);
    if is_shown && 0 < edits {
        found.push(Finding::BoardGone { board, side, edits })?;
    }
    Ok(())
}

// How many edits a side made of a stat, and of its program where that doesn't show.
fn edits_of(work: &Work, side: Side, id: StatId, stat: &LiveStat) -> usize {
    let tally = work.of(side);
    match stat.values.fields.text {
        Some(text) if !work.shown.has(text) => tally
            .of_stat(id)
            .saturating_add(tally.of_text(text)),
        _ => tally.of_stat(id),
    }
}

/// Appends a stat that the union doesn't show, on a board that it does, where this side shows it and
/// worked on it.
#[tactic(auto, using(crate::proofs::Kept::adds_none))]
pub(crate) fn find_gone_stat(
    found: &mut Vec<Finding>,
    work: &Work,
    id: StatId,
    side: Side,
    stat: Option<&LiveStat>,
) -> Result<(), AllocError>
    ensures { OnOk result (of_registers found.new.items ≡ of_registers found.old.items) }
{
    let Some(stat) = stat else {
        return Ok(());
    };
    let edits = edits_of(work, side, id, stat);
    if !stat.removed && 0 < edits {
        found.push(Finding::StatGone {
            stat: id,
            side,
            edits,
        })?;
    }
    Ok(())
}
