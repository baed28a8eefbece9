//! The boards of a live document, found by their names.

ghost use Rattle.std.specs.Prelude.{◌≡◌, ◌<◌, ◌≤◌, ◌+◌, [], true, false, length, slice_get, Some, IfOk, OnOk, OnErr, IsSorted, option_copied};
ghost use Rattle.indexmap.specs.IndexMap.{keys, spare};
ghost use Rattle.zed_op.specs.Fit.{Fits};
ghost use Rattle.zed_op.specs.Growth.{may_grow};
ghost use Rattle.zed_laws.specs.Winners.{changes_stat};
ghost use Rattle.zed_edit.specs.Replay.{made_by};
ghost use Rattle.zed_live.specs.Board.{board_after, stat_changed};
ghost use Rattle.zed_live.specs.Boards.{board_cmp, board_in, home_in, add as added, add_all as all_added, all_as_made as all_made, change as changed, change_all, boards_after};

use crate::board::LiveBoard;
use crate::index::{Homes, hint_on, home_of, list_added, list_made, pass_listed, seek_home};
use indexmap::IndexMap;
use std::alloc::{AllocError, Global};
use std::marker::Model;
use zed_edit::{Board, Edit, Op, made_by};
use zed_stats::{add_each, find, seek};
use zed_types::{BoardId, Stamp, StatId};

/// Boards, removed ones too, in the order of their names.
#[derive(Drop)]
pub struct LiveBoards {
    entries: IndexMap<BoardId, LiveBoard>,
    // each stat with each board that it is on, and maybe with others
    homes: Homes,
    // where the board stands that was named last: an edit names it several times, and many in a row are of one
    last: usize,
}

impl Model for LiveBoards {
    ghost use Rattle.zed_live.specs.Boards.{Boards};
    ghost use Rattle.zed_live.specs.Listed.{AreKept};

    ghost Value = { Boards };

    ghost view = { λ b. b.entries.entries };

    ghost invariant = { λ b. AreKept b.entries.entries b.homes };
}

/// Puts an edit of one board in, if that is there. The search begins at the place of the last one.
/// Memory leaves the boards as they were.
fn change_board(
    entries: &mut IndexMap<BoardId, LiveBoard>,
    last: &mut usize,
    id: BoardId,
    edit: &Edit,
) -> Result<(), AllocError>
    requires { Fits edit.now }
    ensures ok { OnOk result (entries.new.entries
        ≡ changed id (board_after edit.now.stamp edit.now.op) entries.old.entries) }
    ensures kept { OnErr result (entries.new.entries ≡ entries.old.entries) }
    ensures keys { keys entries.new ≡ keys entries.old }
    ensures memory_only_when { OnErr result (may_grow edit.now.op ≡ true) }
{
    if let Some(i) = seek(entries, *last, id) {
        *last = i;
        if let Some(board) = entries.get_index_mut(i) {
            return board.take(edit);
        }
    }
    Ok(())
}

/// Boards as the edit with this stamp makes them, each under its name.
fn all_as_made(
    alloc: Global,
    stamp: Stamp,
    boards: &[Board],
) -> Result<Vec<(BoardId, LiveBoard)>, AllocError>
    ensures ok { IfOk result (λ made. made.items ≡ all_made stamp boards.now) }
{
    let mut made = Vec::new(alloc);
    for board in boards {
        let live = LiveBoard::new(alloc, stamp, board)?;
        made.push((board.id, live))?;
    }
    Ok(made)
}

impl LiveBoards {
    /// No board.
    pub fn new(alloc: Global) -> LiveBoards
        ensures { result ≡ [] }
    {
        LiveBoards {
            entries: IndexMap::new(alloc),
            homes: Homes::new(alloc),
            last: 0,
        }
    }

    /// The board of a name, if it was made, removed or not.
    pub fn get(&self, id: BoardId) -> Option<&LiveBoard>
        ensures { option_copied result ≡ board_in id self.now }
    {
        find(&self.entries, self.last, id)
    }

    /// The board that a stat is on, removed or not, if it was made.
    pub fn home(&self, stat: StatId) -> Option<BoardId>
        ensures { result ≡ home_in stat self.now }
    {
        home_of(&self.homes, &self.entries, self.last, stat)
    }

    /// Looks for what an edit names, so that later calls find it at once. Nothing changes.
    pub fn hint(&mut self, edit: &Edit)
        ensures { self.new ≡ self.old }
    {
        match &edit.op {
            Op::BoardRemove(id) => self.hint_board(*id),
            Op::SetBoard(id, _) => self.hint_board(*id),
            Op::SetCells(id, _, _) => self.hint_board(*id),
            Op::StatAdd(id, _) => self.hint_board(*id),
            Op::StatRemove(stat) => self.hint_stat(*stat),
            Op::SetStat(stat, _) => self.hint_stat(*stat),
            _ => {}
        }
    }

    fn hint_board(&mut self, id: BoardId)
        ensures { self.new ≡ self.old }
    {
        if let Some(i) = seek(&self.entries, self.last, id) {
            self.last = i;
        }
    }

    fn hint_stat(&mut self, stat: StatId)
        ensures { self.new ≡ self.old }
    {
        if let Some(board) = seek_home(&mut self.homes, stat) {
            hint_on(&mut self.entries, &mut self.last, board, stat);
        }
    }

    /// How many boards were made, removed ones too.
    pub fn count(&self) -> usize
        ensures { result ≡ length self.now }
    {
        self.entries.len()
    }

    /// Board j in the order of names, removed ones counted, under its name.
    pub fn at(&self, j: usize) -> (BoardId, &LiveBoard)
        requires { j < length self.now }
        ensures { slice_get self.now j ≡ Some (result.0, result.1.now) }
    {
        let (id, board) = self.entries.get_index(j).unwrap();
        (*id, board)
    }

    /// Puts an edit in, whenever it comes: changes its board, if that is there, or adds the boards
    /// that it makes. Memory leaves the boards as they were.
    pub fn take(&mut self, alloc: Global, edit: &Edit) -> Result<(), AllocError>
        requires { Fits edit.now }
        ensures ok { OnOk result (self.new ≡ boards_after edit.now.stamp edit.now.op self.old) }
        ensures kept { OnErr result (self.new ≡ self.old) }
        ensures memory_only_when { OnErr result (may_grow edit.now.op ≡ true) }
    {
        match &edit.op {
            Op::BoardRemove(id) => self.change(*id, edit),
            Op::SetBoard(id, _) => self.change(*id, edit),
            Op::SetCells(id, _, _) => self.change(*id, edit),
            Op::StatAdd(id, _) => self.change(*id, edit),
            Op::StatRemove(stat) => self.pass_stat(*stat, edit),
            Op::SetStat(stat, _) => self.pass_stat(*stat, edit),
            Op::Genesis(_) => self.make(alloc, edit),
            Op::BoardAdd(_) => self.make(alloc, edit),
            _ => Ok(()),
        }
    }

    /// Puts an edit of one board in.
    fn change(&mut self, id: BoardId, edit: &Edit) -> Result<(), AllocError>
        requires { Fits edit.now }
        ensures ok { OnOk result
            (self.new ≡ changed id (board_after edit.now.stamp edit.now.op) self.old) }
        ensures kept { OnErr result (self.new ≡ self.old) }
        ensures memory_only_when { OnErr result (may_grow edit.now.op ≡ true) }
    {
        list_added(&mut self.homes, id, edit)?;
        change_board(&mut self.entries, &mut self.last, id, edit)
    }

    /// Puts an edit of one stat in. It takes no memory.
    fn pass_stat(&mut self, stat: StatId, edit: &Edit) -> Result<(), AllocError>
        requires { changes_stat stat edit.now.op ≡ true }
        ensures ok { OnOk result
            (self.new ≡ change_all (stat_changed edit.now.stamp edit.now.op) self.old) }
        ensures never { OnErr result (false ≡ true) }
    {
        pass_listed(&self.homes, &mut self.entries, &mut self.last, stat, edit);
        Ok(())
    }

    /// Adds the boards that an edit makes.
    fn make(&mut self, alloc: Global, edit: &Edit) -> Result<(), AllocError>
        requires { Fits edit.now }
        ensures ok { OnOk result
            (self.new ≡ all_added (all_made edit.now.stamp (made_by edit.now).boards) self.old) }
        ensures kept { OnErr result (self.new ≡ self.old) }
    {
        let made = made_by(alloc, edit)?;
        self.add_made(alloc, edit.stamp, made.boards.as_slice())
    }

    /// Adds boards as the edit with this stamp makes them. Memory leaves the boards as they were.
    pub(crate) fn add_made(
        &mut self,
        alloc: Global,
        stamp: Stamp,
        boards: &[Board],
    ) -> Result<(), AllocError>
        ensures ok { OnOk result (self.new ≡ all_added (all_made stamp boards.now) self.old) }
        ensures kept { OnErr result (self.new ≡ self.old) }
    {
        list_made(&mut self.homes, boards)?;
        let made = all_as_made(alloc, stamp, boards)?;
        self.entries.reserve(made.len())?;
        add_each(&mut self.entries, made);
        Ok(())
    }
}
