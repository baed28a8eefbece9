//! The boards and stats that a document shows, by their names.
ghost use Rattle.std.specs.Prelude.{◌<◌, length};

use std::alloc::{AllocError, Global};
use zed_document::View;
use zed_types::{BoardId, BoardText, Bytes, StatFields, StatId};

/// A stat that isn't removed.
#[derive(Clone, Copy)]
pub(crate) struct SeenStat {
    pub id: StatId,
    pub fields: StatFields,
}

/// A board that isn't removed, with such stats in their order, the player at the front.
#[derive(Drop)]
pub(crate) struct SeenBoard {
    pub id: BoardId,
    pub name: Bytes,
    pub stats: Vec<SeenStat>,
}

fn stats_seen(alloc: Global, view: &View, board: usize) -> Result<Vec<SeenStat>, AllocError>
    requires { board < length view.now.boards }
{
    let mut seen = Vec::new(alloc);
    for j in 0..view.stats(board) {
        let (id, stat) = view.stat(board, j);
        if !stat.removed {
            seen.push(SeenStat {
                id,
                fields: stat.values.fields,
            })?;
        }
    }
    Ok(seen)
}

/// The boards that a view shows, in the order in which they were made.
pub(crate) fn boards_seen(alloc: Global, view: &View) -> Result<Vec<SeenBoard>, AllocError> {
    let mut seen = Vec::new(alloc);
    for i in 0..view.boards() {
        let (id, board) = view.board(i);
        if !board.is_removed() {
            let name = view.properties(i).text(BoardText::Name);
            seen.push(SeenBoard {
                id,
                name: Bytes::from_slice(alloc, name)?,
                stats: stats_seen(alloc, view, i)?,
            })?;
        }
    }
    Ok(seen)
}
