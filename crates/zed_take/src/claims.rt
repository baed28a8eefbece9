//! Which texts of the document stay with which stats.
use crate::origins::Origins;
use crate::planning::Task;
use crate::programs::{owner_of, program};
use std::alloc::{AllocError, Global};
use std::collections::BTreeMap;
use zed_types::TextId;

/// A text of the document that stays with a stat of a board, and what it reads before and then.
#[derive(Clone, Copy)]
pub(crate) struct Claim<'w> {
    pub text: TextId,
    pub board: usize,
    is_player: bool,
    pub before: &'w [u8],
    pub after: &'w [u8],
    // the claim of the same text that was made last before it
    earlier: Option<usize>,
}

impl Claim<'_> {
    /// Whether its text was claimed before.
    pub(crate) fn is_repeated(&self) -> bool {
        self.earlier.is_some()
    }

    // Whether two stats can have one text: it is to read the same for both, and on one board they have to be of one program, but for
    // the player.
    fn goes_with(&self, other: &Claim) -> bool {
        if self.text != other.text {
            return true;
        }
        if self.after != other.after {
            return false;
        }
        self.board != other.board || self.is_player || other.is_player || self.after.is_empty()
    }
}

/// What is claimed, and which text each stat of each board keeps, if it does.
#[derive(Drop)]
pub(crate) struct Claims<'w> {
    claims: Vec<Claim<'w>>,
    latest: BTreeMap<TextId, usize>,
    kept: Vec<Vec<Option<TextId>>>,
}

// What a stat would keep: the text of the stat that it comes from.
fn wish<'w>(
    tasks: &[Task<'w>],
    origins: &Origins<'w>,
    board: usize,
    number: usize,
) -> Option<Claim<'w>> {
    let task = tasks.get(board)?;
    let origin = origins.of(board, number)?;
    Some(Claim {
        text: origin.text?,
        board,
        is_player: number == 0,
        before: origin.program,
        after: program(task.after, number),
        earlier: None,
    })
}

/// Whose wishes are heard.
#[derive(Clone, Copy, PartialEq, Eq)]
enum Turn {
    /// Those of stats with a program that stays as it is.
    Unchanged,
    /// Those of other stats with a program.
    Changed,
    /// Those of stats without a program.
    Empty,
}

fn turn_of(tasks: &[Task], claim: &Claim, number: usize) -> Option<Turn> {
    let task = tasks.get(claim.board)?;
    match owner_of(task.after, number) {
        None => Some(Turn::Empty),
        Some(owner) if owner == number => {
            if claim.before == claim.after {
                Some(Turn::Unchanged)
            } else {
                Some(Turn::Changed)
            }
        }
        Some(_) => None,
    }
}

impl<'w> Claims<'w> {
    fn hear(
        &mut self,
        tasks: &[Task<'w>],
        origins: &Origins<'w>,
        turn: Turn,
    ) -> Result<(), AllocError> {
        for (board, task) in tasks.iter().enumerate() {
            for number in 0..task.after.stats.as_slice().len() {
                if let Some(claim) = wish(tasks, origins, board, number) {
                    if turn_of(tasks, &claim, number) == Some(turn) {
                        self.take(claim, number)?;
                    }
                }
            }
        }
        Ok(())
    }

    // Whether a claim goes with all that were made.
    fn is_free(&self, claim: &Claim<'w>) -> bool {
        let mut place = self.latest.get(&claim.text).copied();
        for _ in 0..self.claims.len() {
            let Some(k) = place else {
                return true;
            };
            match self.claims.get(k) {
                Some(other) if claim.goes_with(other) => place = other.earlier,
                _ => return false,
            }
        }
        true
    }

    fn take(&mut self, mut claim: Claim<'w>, number: usize) -> Result<(), AllocError> {
        if !self.is_free(&claim) {
            return Ok(());
        }
        claim.earlier = self.latest.get(&claim.text).copied();
        self.latest.insert(claim.text, self.claims.len())?;
        self.claims.push(claim)?;
        if let Some(kept) = self.kept.get_mut(claim.board) {
            if let Some(slot) = kept.get_mut(number) {
                *slot = Some(claim.text);
            }
        }
        Ok(())
    }

    /// Decides for all stats of all boards. A program that stays as it is goes before one that changes, and this before none.
    pub(crate) fn of(
        alloc: Global,
        tasks: &[Task<'w>],
        origins: &Origins<'w>,
    ) -> Result<Claims<'w>, AllocError> {
        let mut kept = Vec::new(alloc);
        for task in tasks {
            kept.push(vec![in alloc; None; task.after.stats.as_slice().len()]?)?;
        }
        let mut claims = Claims {
            claims: Vec::new(alloc),
            latest: BTreeMap::new(alloc),
            kept,
        };
        claims.hear(tasks, origins, Turn::Unchanged)?;
        claims.hear(tasks, origins, Turn::Changed)?;
        claims.hear(tasks, origins, Turn::Empty)?;
        Ok(claims)
    }

    /// The claims one after the other.
    pub(crate) fn all(&self) -> &[Claim<'w>] {
        self.claims.as_slice()
    }

    /// The text that a stat of a board keeps.
    pub(crate) fn kept(&self, board: usize, number: usize) -> Option<TextId> {
        *self.kept.get(board)?.get(number)?
    }
}
