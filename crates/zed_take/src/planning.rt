//! The edits that lead from one world to another, as they are planned. No contract says that they
//! do: `take` tries them before it hands them out.
use crate::boards::{Boards, plan_boards};
use crate::cells::plan_cells;
use crate::claims::Claims;
use crate::header::{plan_current_board, plan_header};
use crate::origins::Origins;
use crate::pairing::{StatPairs, pair_stats};
use crate::plan::Plan;
use crate::plan_error::PlanError;
use crate::programs::{owner_of, program};
use crate::properties::plan_properties;
use crate::sight::{SeenBoard, boards_seen};
use crate::stats::plan_stats;
use crate::texts::{plan_new_text, plan_text};
use std::alloc::Global;
use zed_document::View;
use zed_op::Edit;
use zed_types::{BoardId, Stamp, TextId};
use zed_world::{BoardData, World};

/// A board that is to be changed: how it is seen, what it was and what it is to be, and which of its stats stay.
#[derive(Drop)]
pub(crate) struct Task<'w> {
    pub seen: &'w SeenBoard,
    pub before: &'w BoardData,
    pub after: &'w BoardData,
    /// Its number before, none where it is new.
    pub number_before: Option<usize>,
    pub stats: StatPairs,
}

// What is to be done to each board.
fn tasks_of<'w>(
    alloc: Global,
    boards: &'w Boards,
    seen: &'w [SeenBoard],
    before: &'w World,
    after: &'w World,
) -> Result<Vec<Task<'w>>, PlanError> {
    let mut tasks = Vec::new(alloc);
    for (j, board) in after.boards().iter().enumerate() {
        let Some((seen, old)) = boards.origin(j, seen, before.boards()) else {
            return Err(PlanError::NotTaken);
        };
        tasks.push(Task {
            seen,
            before: old,
            after: board,
            number_before: boards.number_before(j),
            stats: pair_stats(alloc, old, board)?,
        })?;
    }
    Ok(tasks)
}

// Plans what the texts of a board's stats are to read, new texts too, and tells the text of each stat.
fn plan_texts(
    alloc: Global,
    plan: &mut Plan,
    view: &View,
    claims: &Claims,
    board: usize,
    task: &Task,
) -> Result<Vec<Option<TextId>>, PlanError> {
    for claim in claims.all() {
        if claim.board == board && !claim.is_repeated() {
            plan_text(alloc, plan, view, claim.text, claim.before, claim.after)?;
        }
    }
    let mut texts: Vec<Option<TextId>> = Vec::new(alloc);
    for number in 0..task.after.stats.as_slice().len() {
        let text = match owner_of(task.after, number) {
            Some(owner) if owner != number => texts.get(owner).copied().unwrap_or(None),
            Some(_) => match claims.kept(board, number) {
                Some(text) => Some(text),
                None => Some(plan_new_text(alloc, plan, program(task.after, number))?),
            },
            None => claims.kept(board, number),
        };
        texts.push(text)?;
    }
    Ok(texts)
}

fn plan_board(
    alloc: Global,
    plan: &mut Plan,
    view: &View,
    names: &[BoardId],
    claims: &Claims,
    board: usize,
    task: &Task,
) -> Result<(), PlanError> {
    plan_properties(plan, names, task.seen, task.before, task.after)?;
    plan_cells(plan, task.seen.id, &task.before.tiles, &task.after.tiles)?;
    let texts = plan_texts(alloc, plan, view, claims, board, task)?;
    plan_stats(alloc, plan, names, task, &texts)
}

/// Plans the edits that lead from a document, which shows this and is exported as this world, to another world.
pub(crate) fn plan_edits(
    alloc: Global,
    view: &View,
    before: &World,
    after: &World,
    first: Stamp,
) -> Result<Vec<Edit>, PlanError> {
    let mut plan = Plan::new(alloc, first);
    let seen = boards_seen(alloc, view)?;
    let boards = plan_boards(alloc, &mut plan, &seen, before.boards(), after.boards())?;
    let tasks = tasks_of(alloc, &boards, &seen, before, after)?;
    let origins = Origins::find(alloc, &tasks, &seen, before.boards())?;
    let claims = Claims::of(alloc, &tasks, &origins)?;
    let names = boards.names();
    for (board, task) in tasks.iter().enumerate() {
        plan_board(alloc, &mut plan, view, names, &claims, board, task)?;
    }
    let current = view.header().current_board();
    plan_current_board(&mut plan, names, current, after.header().current_board)?;
    plan_header(&mut plan, before.header(), after.header())?;
    Ok(plan.close())
}
