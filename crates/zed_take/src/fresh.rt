//! A board as it is seen when an author adds it.
use crate::sight::{SeenBoard, SeenStat};
use std::alloc::{AllocError, Global};
use zed_types::{BoardId, Stamp, StatId};

/// The new board that the edit with this stamp adds, as it is seen.
pub(crate) fn new_seen(alloc: Global, stamp: Stamp) -> Result<SeenBoard, AllocError> {
    let mut stats = Vec::new(alloc);
    stats.push(SeenStat::plain(StatId::new(stamp, 0)))?;
    Ok(SeenBoard {
        id: BoardId::new(stamp, 0),
        rank: 0,
        exits: [None, None, None, None],
        stats,
    })
}
