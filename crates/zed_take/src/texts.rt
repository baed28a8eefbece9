//! Texts that are changed, and new ones.
use crate::changes::{Change, changes};
use crate::lines::between;
use crate::plan::Plan;
use crate::plan_error::PlanError;
use std::alloc::{AllocError, Global};
use zed_document::{View, append_names};
use zed_op::Op;
use zed_types::{ByteRange, Bytes, ElemId, TextId};

// The names of the live bytes of a text, which is so long.
fn names_of(
    alloc: Global,
    view: &View,
    text: TextId,
    length: usize,
) -> Result<Vec<ElemId>, AllocError> {
    let mut names = Vec::new(alloc);
    append_names(view, text, 0, length, &mut names)?;
    Ok(names)
}

// The name of the byte before a place, none at the head.
fn name_before(names: &[ElemId], place: usize) -> Option<ElemId> {
    if place == 0 {
        return None;
    }
    names.get(place - 1).copied()
}

// Plans to put bytes behind the one before a place.
fn plan_insert(
    alloc: Global,
    plan: &mut Plan,
    names: &[ElemId],
    text: TextId,
    place: usize,
    bytes: &[u8],
) -> Result<(), PlanError> {
    if bytes.is_empty() {
        return Ok(());
    }
    let after = name_before(names, place);
    plan.add(Op::TextInsert(text, after, Bytes::from_slice(alloc, bytes)?))?;
    Ok(())
}

// A stretch that also has the byte of this name, if the byte follows it in one insertion.
fn longer(range: ByteRange, name: ElemId) -> Option<ByteRange> {
    if name.name.stamp == range.stamp && range.last < name.name.index {
        Some(ByteRange {
            stamp: range.stamp,
            first: range.first,
            last: name.name.index,
        })
    } else {
        None
    }
}

fn only(name: ElemId) -> ByteRange {
    ByteRange {
        stamp: name.name.stamp,
        first: name.name.index,
        last: name.name.index,
    }
}

fn plan_range(plan: &mut Plan, text: TextId, range: Option<ByteRange>) -> Result<(), PlanError> {
    if let Some(range) = range {
        plan.add(Op::TextDelete(text, range))?;
    }
    Ok(())
}

// Plans to delete the live bytes between two places: one edit for each stretch of bytes of one insertion. Dead ones between them stay dead.
fn plan_delete(
    plan: &mut Plan,
    names: &[ElemId],
    text: TextId,
    from: usize,
    to: usize,
) -> Result<(), PlanError> {
    let mut range: Option<ByteRange> = None;
    for place in from..to {
        if let Some(name) = names.get(place) {
            let joined = match range {
                Some(before) => longer(before, *name),
                None => None,
            };
            if joined.is_none() {
                plan_range(plan, text, range)?;
            }
            range = match joined {
                Some(more) => Some(more),
                None => Some(only(*name)),
            };
        }
    }
    plan_range(plan, text, range)
}

fn plan_change(
    alloc: Global,
    plan: &mut Plan,
    names: &[ElemId],
    text: TextId,
    change: Change,
    new: &[u8],
) -> Result<(), PlanError> {
    let bytes = between(new, change.start, change.end);
    plan_insert(alloc, plan, names, text, change.from, bytes)?;
    plan_delete(plan, names, text, change.from, change.to)
}

/// Plans to make a text of the document read so.
pub(crate) fn plan_text(
    alloc: Global,
    plan: &mut Plan,
    view: &View,
    text: TextId,
    before: &[u8],
    after: &[u8],
) -> Result<(), PlanError> {
    let changes = changes(alloc, before, after)?;
    if changes.is_empty() {
        return Ok(());
    }
    let names = names_of(alloc, view, text, before.len())?;
    for change in &changes {
        plan_change(alloc, plan, &names, text, *change, after)?;
    }
    Ok(())
}

/// Plans a new text with these bytes, and tells its name.
pub(crate) fn plan_new_text(
    alloc: Global,
    plan: &mut Plan,
    bytes: &[u8],
) -> Result<TextId, PlanError> {
    let stamp = plan.add(Op::TextAdd)?;
    let text = TextId::new(stamp, 0);
    plan.add(Op::TextInsert(text, None, Bytes::from_slice(alloc, bytes)?))?;
    Ok(text)
}
