//! Programs that both sides changed, and those that one changed and that don't show.
ghost use Rattle.std.specs.Prelude.{◌≡◌, OnOk};
ghost use Rattle.zed_compare.specs.Findings.{of_registers};

use crate::finding::Finding;
use std::alloc::AllocError;
use zed_join::{StatIn, Work};
use zed_sides::Side;
use zed_stats::LiveStat;
use zed_types::{StatId, TextId};

fn text_of(stat: Option<&LiveStat>) -> Option<TextId> {
    match stat {
        Some(stat) => stat.values.fields.text,
        None => None,
    }
}

// A program that both changed, told of the first stat that shows it.
#[tactic(auto, using(crate::proofs::Kept::adds_none))]
fn find_both(
    found: &mut Vec<Finding>,
    work: &Work,
    id: StatId,
    text: TextId,
) -> Result<(), AllocError>
    ensures { OnOk result (of_registers found.new.items ≡ of_registers found.old.items) }
{
    let (mine, theirs) = (work.mine.of_text(text), work.theirs.of_text(text));
    if 0 < mine && 0 < theirs && work.shown.is_first(text, id) {
        found.push(Finding::BothWrote {
            stat: id,
            mine,
            theirs,
        })?;
    }
    Ok(())
}

// A program that a side shows and changed, and in whose place there is another now.
#[tactic(auto, using(crate::proofs::Kept::adds_none))]
fn find_other(
    found: &mut Vec<Finding>,
    work: &Work,
    id: StatId,
    side: Side,
    text: Option<TextId>,
) -> Result<(), AllocError>
    ensures { OnOk result (of_registers found.new.items ≡ of_registers found.old.items) }
{
    let Some(text) = text else {
        return Ok(());
    };
    let edits = work.of(side).of_text(text);
    if 0 < edits && !work.shown.has(text) {
        found.push(Finding::OtherProgram {
            stat: id,
            side,
            edits,
        })?;
    }
    Ok(())
}

/// Appends what is found of the program of a stat that the union shows.
pub(crate) fn find_program(
    found: &mut Vec<Finding>,
    work: &Work,
    id: StatId,
    stat: &StatIn<'_>,
) -> Result<(), AllocError>
    ensures { OnOk result (of_registers found.new.items ≡ of_registers found.old.items) }
{
    if let Some(text) = text_of(stat.union) {
        find_both(found, work, id, text)?;
    }
    find_other(found, work, id, Side::Mine, text_of(stat.mine))?;
    find_other(found, work, id, Side::Theirs, text_of(stat.theirs))
}
