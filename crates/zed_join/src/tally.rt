//! How many edits only one side has, of each thing.
ghost use Rattle.std.specs.Prelude.{◌≡◌, ◌&&◌, IfOk, count_by, length, not};
ghost use Rattle.zed_sides.specs.Sides.{knows, own};
ghost use Rattle.zed_join.specs.Tallies.{IsTallied, held_own};

use crate::sides::has_stamp;
use std::alloc::{AllocError, Global};
use std::collections::BTreeMap;
use zed_document::{Document, View};
use zed_edit::{Edit, Op};
use zed_types::{BoardId, StatId, TextId};

/// The edits that only one side has, by the things of that side that they are of. Those that are held
/// there are of nothing.
#[derive(Drop)]
pub struct Tally {
    pub edits: usize,
    pub held: usize,
    /// The authors of these edits, rising.
    pub replicas: Vec<u16>,
    boards: BTreeMap<BoardId, usize>,
    stats: BTreeMap<StatId, usize>,
    texts: BTreeMap<TextId, usize>,
}

/// Where the stats of a view are, and whose its texts are.
#[derive(Drop)]
struct Homes {
    boards: BTreeMap<StatId, BoardId>,
    stats: BTreeMap<TextId, StatId>,
}

impl Homes {
    fn of(alloc: Global, view: &View) -> Result<Homes, AllocError> {
        let mut homes = Homes {
            boards: BTreeMap::new(alloc),
            stats: BTreeMap::new(alloc),
        };
        for i in 0..view.boards() {
            let (board, _) = view.board(i);
            for j in 0..view.stats(i) {
                let (id, stat) = view.stat(i, j);
                homes.boards.insert(id, board)?;
                if let Some(text) = stat.values.fields.text {
                    if !homes.stats.contains_key(&text) || !stat.removed {
                        homes.stats.insert(text, id)?;
                    }
                }
            }
        }
        Ok(homes)
    }
}

// Whether a document doesn't have an edit of another one.
fn lacks(theirs: &Document, edit: &Edit) -> bool
    ensures { result ≡ not (knows theirs.now.edits edit.now) }
{
    !has_stamp(theirs.edits(), edit.stamp)
}

// How many edits only one of two documents has.
#[tactic(auto, using(crate::proofs::Tallied::own_counted))]
fn count_own(mine: &Document, theirs: &Document) -> usize
    ensures { result ≡ length (own mine.now.edits theirs.now.edits) }
{
    mine.edits()
        .iter()
        .filter(|edit| lacks(theirs, edit))
        .count()
}

// How many of these are held.
fn count_held(mine: &Document, theirs: &Document) -> usize
    ensures { result ≡ held_own mine.now.edits theirs.now.edits }
{
    mine.edits()
        .iter()
        .filter(|edit| lacks(theirs, edit) && mine.is_held(edit.stamp))
        .count()
}

fn count<K: Ord + Drop>(counts: &mut BTreeMap<K, usize>, key: K) -> Result<(), AllocError> {
    if let Some(count) = counts.get_mut(&key) {
        *count = count.saturating_add(1);
        return Ok(());
    }
    counts.insert(key, 1)?;
    Ok(())
}

impl Tally {
    fn new(alloc: Global) -> Tally {
        Tally {
            edits: 0,
            held: 0,
            replicas: Vec::new(alloc),
            boards: BTreeMap::new(alloc),
            stats: BTreeMap::new(alloc),
            texts: BTreeMap::new(alloc),
        }
    }

    fn count_board(&mut self, board: BoardId) -> Result<(), AllocError> {
        count(&mut self.boards, board)
    }

    fn count_stat(&mut self, homes: &Homes, stat: StatId) -> Result<(), AllocError> {
        count(&mut self.stats, stat)?;
        match homes.boards.get(&stat) {
            Some(board) => self.count_board(*board),
            None => Ok(()),
        }
    }

    fn count_text(&mut self, homes: &Homes, text: TextId) -> Result<(), AllocError> {
        count(&mut self.texts, text)?;
        let Some(stat) = homes.stats.get(&text) else {
            return Ok(());
        };
        match homes.boards.get(stat) {
            Some(board) => self.count_board(*board),
            None => Ok(()),
        }
    }

    fn count_edit(&mut self, homes: &Homes, op: &Op) -> Result<(), AllocError> {
        match op {
            Op::Genesis(_) | Op::SetHeader(_) | Op::BoardAdd(_) | Op::TextAdd => Ok(()),
            Op::BoardRemove(board) | Op::SetBoard(board, _) | Op::SetCells(board, _, _) => {
                self.count_board(*board)
            }
            Op::StatAdd(board, _) => self.count_board(*board),
            Op::StatRemove(stat) | Op::SetStat(stat, _) => self.count_stat(homes, *stat),
            Op::TextInsert(text, _, _) | Op::TextDelete(text, _) => self.count_text(homes, *text),
        }
    }

    fn note_replica(&mut self, replica: u16) -> Result<(), AllocError> {
        for (i, known) in self.replicas.iter().enumerate() {
            if *known == replica {
                return Ok(());
            }
            if replica < *known {
                return self.insert_replica(i, replica);
            }
        }
        self.replicas.push(replica)?;
        Ok(())
    }

    fn insert_replica(&mut self, i: usize, replica: u16) -> Result<(), AllocError> {
        if i <= self.replicas.len() {
            self.replicas.insert(i, replica)?;
        }
        Ok(())
    }

    fn note(&mut self, homes: &Homes, edit: &Edit, is_held: bool) -> Result<(), AllocError> {
        self.note_replica(edit.stamp.replica)?;
        if is_held {
            return Ok(());
        }
        self.count_edit(homes, &edit.op)
    }

    // Notes the edits that only this document has, by their things.
    fn note_all(
        &mut self,
        homes: &Homes,
        mine: &Document,
        theirs: &Document,
    ) -> Result<(), AllocError> {
        for edit in mine.edits() {
            if lacks(theirs, edit) {
                self.note(homes, edit, mine.is_held(edit.stamp))?;
            }
        }
        Ok(())
    }

    /// That of the edits of a document, shown so, that another one doesn't have.
    pub(crate) fn of(
        alloc: Global,
        mine: &Document,
        theirs: &Document,
        view: &View,
    ) -> Result<Tally, AllocError>
        ensures { IfOk result (IsTallied mine.now.edits theirs.now.edits) }
    {
        let homes = Homes::of(alloc, view)?;
        let mut tally = Tally::new(alloc);
        tally.note_all(&homes, mine, theirs)?;
        tally.edits = count_own(mine, theirs);
        tally.held = count_held(mine, theirs);
        Ok(tally)
    }

    /// How many are of a board, of its stats and of their texts.
    pub fn of_board(&self, board: BoardId) -> usize {
        self.boards.get(&board).copied().unwrap_or(0)
    }

    /// How many are of a stat.
    pub fn of_stat(&self, stat: StatId) -> usize {
        self.stats.get(&stat).copied().unwrap_or(0)
    }

    /// How many are of a text.
    pub fn of_text(&self, text: TextId) -> usize {
        self.texts.get(&text).copied().unwrap_or(0)
    }
}
