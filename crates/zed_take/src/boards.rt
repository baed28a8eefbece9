//! Boards that are removed, added, and put into an order.
use crate::fresh::new_seen;
use crate::pairing::pair_boards;
use crate::plan::Plan;
use crate::plan_error::PlanError;
use crate::ranks::{Ranked, plan_ranks};
use crate::sight::SeenBoard;
use std::alloc::{AllocError, Global};
use zed_export::new_board;
use zed_op::Op;
use zed_types::BoardId;
use zed_world::BoardData;

// A board that is new, as it is added.
#[derive(Drop)]
struct Added {
    seen: SeenBoard,
    data: BoardData,
}

// Where a board comes from: it is the old one of a number, or the new one of a place.
#[derive(Clone, Copy)]
enum Origin {
    Old(usize),
    New(usize),
}

/// Where the boards of a world come from, and their names by number.
#[derive(Drop)]
pub(crate) struct Boards {
    added: Vec<Added>,
    origins: Vec<Origin>,
    names: Vec<BoardId>,
}

impl Boards {
    fn new(alloc: Global) -> Boards {
        Boards {
            added: Vec::new(alloc),
            origins: Vec::new(alloc),
            names: Vec::new(alloc),
        }
    }

    fn keep(&mut self, number: usize, seen: &SeenBoard) -> Result<(), AllocError> {
        self.origins.push(Origin::Old(number))?;
        self.names.push(seen.id)?;
        Ok(())
    }

    fn add(&mut self, seen: SeenBoard, data: BoardData) -> Result<(), AllocError> {
        self.origins.push(Origin::New(self.added.len()))?;
        self.names.push(seen.id)?;
        self.added.push(Added { seen, data })?;
        Ok(())
    }

    /// The names of the boards by number.
    pub(crate) fn names(&self) -> &[BoardId] {
        self.names.as_slice()
    }

    /// The number that a board had before, none for a new one.
    pub(crate) fn number_before(&self, number: usize) -> Option<usize> {
        match *self.origins.get(number)? {
            Origin::Old(i) => Some(i),
            Origin::New(_) => None,
        }
    }

    /// How the board of a number is seen, and what it was, as one of the old ones or as it is added.
    pub(crate) fn origin<'w>(
        &'w self,
        number: usize,
        seen: &'w [SeenBoard],
        before: &'w [BoardData],
    ) -> Option<(&'w SeenBoard, &'w BoardData)> {
        match *self.origins.get(number)? {
            Origin::Old(i) => Some((seen.get(i)?, before.get(i)?)),
            Origin::New(i) => {
                let added = self.added.get(i)?;
                Some((&added.seen, &added.data))
            }
        }
    }
}

fn plan_removals(
    plan: &mut Plan,
    seen: &[SeenBoard],
    partners: &[Option<usize>],
) -> Result<(), PlanError> {
    for (i, board) in seen.iter().enumerate() {
        if !partners.contains(&Some(i)) {
            plan.add(Op::BoardRemove(board.id))?;
        }
    }
    Ok(())
}

// Plans a new board.
fn plan_new(
    alloc: Global,
    plan: &mut Plan,
    boards: &mut Boards,
    after: &BoardData,
) -> Result<(), PlanError> {
    let stamp = plan.add(Op::BoardAdd(after.name.copy()?))?;
    boards.add(
        new_seen(alloc, stamp)?,
        new_board(alloc, after.name.copy()?)?,
    )?;
    Ok(())
}

// The title stays the title, and these are the partners of all boards.
fn with_title(alloc: Global, others: &[Option<usize>]) -> Result<Vec<Option<usize>>, AllocError> {
    let mut partners = Vec::new(alloc);
    partners.push(Some(0))?;
    for other in others {
        partners.push(other.map(|i| i.saturating_add(1)))?;
    }
    Ok(partners)
}

fn others(boards: &[BoardData]) -> &[BoardData] {
    match boards.split_first() {
        Some((_, others)) => others,
        None => &[],
    }
}

fn order(
    alloc: Global,
    plan: &mut Plan,
    boards: &Boards,
    seen: &[SeenBoard],
) -> Result<(), PlanError> {
    let mut ranked = Vec::new(alloc);
    for (name, origin) in boards.names.iter().zip(boards.origins.iter()).skip(1) {
        let rank = match origin {
            Origin::Old(i) => seen.get(*i).map_or(0, |board| board.rank),
            Origin::New(_) => 0,
        };
        ranked.push(Ranked { rank, id: *name })?;
    }
    plan_ranks(alloc, plan, &ranked)
}

/// Plans which boards are removed and added, and their ranks. Tells where the boards come from.
pub(crate) fn plan_boards(
    alloc: Global,
    plan: &mut Plan,
    seen: &[SeenBoard],
    before: &[BoardData],
    after: &[BoardData],
) -> Result<Boards, PlanError> {
    let pairs = pair_boards(alloc, others(before), others(after))?;
    let partners = with_title(alloc, &pairs)?;
    plan_removals(plan, seen, &partners)?;
    let mut boards = Boards::new(alloc);
    for (board, partner) in after.iter().zip(partners.iter()) {
        match partner {
            Some(i) => {
                let Some(old) = seen.get(*i) else {
                    return Err(PlanError::NotTaken);
                };
                boards.keep(*i, old)?;
            }
            None => plan_new(alloc, plan, &mut boards, board)?,
        }
    }
    order(alloc, plan, &boards, seen)?;
    Ok(boards)
}
