//! Texts that are to have the bytes again that they had without some edits.
use crate::plan::Plan;
use crate::plan_error::PlanError;
use crate::sight::SeenBoard;
use std::alloc::{AllocError, Global};
use std::collections::BTreeSet;
use zed_document::{View, append_names, append_text};
use zed_op::Op;
use zed_types::{ByteRange, Bytes, ElemId, TextId};

/// The texts of the stats of boards.
pub(crate) fn texts_of(
    alloc: Global,
    boards: &[SeenBoard],
) -> Result<BTreeSet<TextId>, AllocError> {
    let mut texts = BTreeSet::new(alloc);
    for board in boards {
        for stat in &board.stats {
            if let Some(text) = stat.fields.text {
                texts.insert(text)?;
            }
        }
    }
    Ok(texts)
}

// The names of the live bytes of a text.
fn names_of(alloc: Global, view: &View, text: TextId) -> Result<Vec<ElemId>, AllocError> {
    let mut names = Vec::new(alloc);
    append_names(view, text, 0, view.length(text), &mut names)?;
    Ok(names)
}

fn set_of(alloc: Global, names: &[ElemId]) -> Result<BTreeSet<ElemId>, AllocError> {
    let mut set = BTreeSet::new(alloc);
    for name in names {
        set.insert(*name)?;
    }
    Ok(set)
}

// Plans to put bytes behind one of this name, live or dead.
fn plan_run(
    plan: &mut Plan,
    text: TextId,
    after: Option<ElemId>,
    run: Vec<u8>,
) -> Result<(), PlanError> {
    if !run.is_empty() {
        plan.add(Op::TextInsert(text, after, Bytes::new(run)))?;
    }
    Ok(())
}

// Plans to put in again the bytes that are dead now: each run of them where it was.
fn plan_insertions(
    alloc: Global,
    plan: &mut Plan,
    text: TextId,
    now: &BTreeSet<ElemId>,
    names: &[ElemId],
    bytes: &[u8],
) -> Result<(), PlanError> {
    let mut last: Option<ElemId> = None;
    let mut after: Option<ElemId> = None;
    let mut run: Vec<u8> = Vec::new(alloc);
    for (name, byte) in names.iter().zip(bytes.iter()) {
        if now.contains(name) {
            plan_run(plan, text, after, run)?;
            run = Vec::new(alloc);
        } else {
            if run.is_empty() {
                after = last;
            }
            run.push(*byte)?;
        }
        last = Some(*name);
    }
    plan_run(plan, text, after, run)
}

// A stretch that also has the byte of this name, if the byte follows it in one insertion.
fn longer(range: ByteRange, name: ElemId) -> Option<ByteRange> {
    if name.name.stamp == range.stamp && range.last < name.name.index {
        Some(ByteRange {
            stamp: range.stamp,
            first: range.first,
            last: name.name.index,
        })
    } else {
        None
    }
}

fn only(name: ElemId) -> ByteRange {
    ByteRange {
        stamp: name.name.stamp,
        first: name.name.index,
        last: name.name.index,
    }
}

fn plan_range(plan: &mut Plan, text: TextId, range: Option<ByteRange>) -> Result<(), PlanError> {
    if let Some(range) = range {
        plan.add(Op::TextDelete(text, range))?;
    }
    Ok(())
}

// Plans to delete the live bytes that weren't there: one edit for each stretch of bytes of one insertion.
fn plan_deletions(
    plan: &mut Plan,
    text: TextId,
    names: &[ElemId],
    wanted: &BTreeSet<ElemId>,
) -> Result<(), PlanError> {
    let mut range: Option<ByteRange> = None;
    for name in names {
        let joined = match range {
            Some(before) if !wanted.contains(name) => longer(before, *name),
            _ => None,
        };
        if joined.is_none() {
            plan_range(plan, text, range)?;
        }
        range = match joined {
            Some(more) => Some(more),
            None if wanted.contains(name) => None,
            None => Some(only(*name)),
        };
    }
    plan_range(plan, text, range)
}

/// Plans to make a text, as it is now, read as it does in another view.
pub(crate) fn plan_text(
    alloc: Global,
    plan: &mut Plan,
    now: &View,
    then: &View,
    text: TextId,
) -> Result<(), PlanError> {
    let live = names_of(alloc, now, text)?;
    let wanted = names_of(alloc, then, text)?;
    if live == wanted {
        return Ok(());
    }
    let mut bytes = Vec::new(alloc);
    append_text(then, text, &mut bytes)?;
    plan_insertions(alloc, plan, text, &set_of(alloc, &live)?, &wanted, &bytes)?;
    plan_deletions(plan, text, &live, &set_of(alloc, &wanted)?)
}
