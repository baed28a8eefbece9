//! The edits that make the boards, stats and texts of a document those of another one, by their
//! names, as they are planned. No contract says that they do: `edits_to` tries them before it hands
//! them out. Values of registers aren't looked at.
use crate::plan::Plan;
use crate::plan_error::PlanError;
use crate::sight::boards_seen;
use crate::texts::{plan_text, texts_of};
use crate::things::plan_things;
use std::alloc::Global;
use zed_document::{Document, View};
use zed_op::Edit;
use zed_types::Stamp;

fn plan_views(
    alloc: Global,
    now: &View,
    then: &View,
    first: Stamp,
) -> Result<Vec<Edit>, PlanError> {
    let mut plan = Plan::new(alloc, first);
    let there = boards_seen(alloc, now)?;
    let wanted = boards_seen(alloc, then)?;
    plan_things(&mut plan, &there, &wanted)?;
    for text in &texts_of(alloc, &wanted)? {
        plan_text(alloc, &mut plan, now, then, *text)?;
    }
    Ok(plan.close())
}

/// Plans the edits that give a document the boards, stats and texts of another one, which has some
/// of its edits.
pub(crate) fn plan_edits(
    alloc: Global,
    document: &Document,
    left: &Document,
    first: Stamp,
) -> Result<Vec<Edit>, PlanError> {
    match (document.view(), left.view()) {
        (Ok(now), Ok(then)) => plan_views(alloc, &now, &then, first),
        _ => Err(PlanError::NotPlanned),
    }
}
