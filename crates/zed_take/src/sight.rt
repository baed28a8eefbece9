//! What a document has beside its world: the names of its things, and the registers that name
//! things.
ghost use Rattle.std.specs.Prelude.{◌<◌, length};

use crate::plan_error::PlanError;
use std::alloc::{AllocError, Global};
use zed_document::View;
use zed_types::{BoardId, Side, StatId, TextId, ThirdParameter};

/// A stat by its name, and what it names.
#[derive(Clone, Copy)]
pub(crate) struct SeenStat {
    pub id: StatId,
    pub p3: ThirdParameter,
    pub follower: Option<StatId>,
    pub leader: Option<StatId>,
    pub text: Option<TextId>,
}

impl SeenStat {
    /// A stat that names nothing.
    pub(crate) fn plain(id: StatId) -> SeenStat {
        SeenStat {
            id,
            p3: ThirdParameter::Byte(0),
            follower: None,
            leader: None,
            text: None,
        }
    }
}

/// A board by its name, what it names, and its stats by number.
#[derive(Drop)]
pub(crate) struct SeenBoard {
    pub id: BoardId,
    pub rank: u16,
    /// To the north, south, west and east.
    pub exits: [Option<BoardId>; 4],
    pub stats: Vec<SeenStat>,
}

// The stats of a board by number.
fn stats_seen(alloc: Global, view: &View, board: usize) -> Result<Vec<SeenStat>, AllocError>
    requires { board < length view.now.boards }
{
    let mut seen = Vec::new(alloc);
    for j in 0..view.stats(board) {
        let (id, stat) = view.stat(board, j);
        if !stat.removed {
            let values = &stat.values;
            seen.push(SeenStat {
                id,
                p3: values.fields.p3,
                follower: values.follower,
                leader: values.leader,
                text: values.fields.text,
            })?;
        }
    }
    Ok(seen)
}

/// The boards of a document by number: the first 101 of them.
pub(crate) fn boards_seen(alloc: Global, view: &View) -> Result<Vec<SeenBoard>, PlanError> {
    let mut seen = Vec::new(alloc);
    let order = view.first_boards(alloc, None);
    for i in order.as_slice() {
        let (id, _) = view.board(*i);
        let properties = view.properties(*i);
        seen.push(SeenBoard {
            id,
            rank: properties.rank(),
            exits: [
                properties.exit(Side::North),
                properties.exit(Side::South),
                properties.exit(Side::West),
                properties.exit(Side::East),
            ],
            stats: stats_seen(alloc, view, *i)?,
        })?;
    }
    Ok(seen)
}
