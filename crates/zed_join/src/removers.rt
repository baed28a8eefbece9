//! Which edits removed boards and stats.
use std::alloc::{AllocError, Global};
use std::collections::BTreeMap;
use zed_document::Document;
use zed_edit::{Edit, Op};
use zed_types::{BoardId, Stamp, StatId};

/// The first removal of each board and each stat.
#[derive(Drop)]
pub struct Removers {
    boards: BTreeMap<BoardId, Stamp>,
    stats: BTreeMap<StatId, Stamp>,
}

impl Removers {
    // Notes what an edit removes, unless it was removed before.
    fn note(&mut self, edit: &Edit) -> Result<(), AllocError> {
        match &edit.op {
            Op::BoardRemove(board) if !self.boards.contains_key(board) => {
                self.boards.insert(*board, edit.stamp)?;
            }
            Op::StatRemove(stat) if !self.stats.contains_key(stat) => {
                self.stats.insert(*stat, edit.stamp)?;
            }
            _ => {}
        }
        Ok(())
    }

    /// Those of a document. Edits that are held remove nothing.
    pub fn of(alloc: Global, document: &Document) -> Result<Removers, AllocError> {
        let mut removers = Removers {
            boards: BTreeMap::new(alloc),
            stats: BTreeMap::new(alloc),
        };
        for edit in document.edits() {
            if !document.is_held(edit.stamp) {
                removers.note(edit)?;
            }
        }
        Ok(removers)
    }

    /// The edit that removed a board.
    pub fn of_board(&self, board: BoardId) -> Option<Stamp> {
        self.boards.get(&board).copied()
    }

    /// The edit that removed a stat.
    pub fn of_stat(&self, stat: StatId) -> Option<Stamp> {
        self.stats.get(&stat).copied()
    }
}
