//! The ranks of boards.
ghost use Rattle.std.specs.Prelude.{◌≡◌, ◌≤◌, ◌<◌, IfOk, false, length, map};
ghost use Rattle.std.specs.List.{All};
ghost use Rattle.zed_edit.specs.Numbers.{alive_boards};
ghost use Rattle.zed_edit.specs.Replay.{replay};
ghost use Rattle.zed_laws.specs.NameOrder.{IsOrdered};
ghost use Rattle.zed_view.specs.View.{board_at};
ghost use Rattle.cmd_log.specs.Listed.{ranks_of};

use std::alloc::{AllocError, Global};
use zed_document::View;

// The ranks of the boards at these places.
fn ranks_at(alloc: Global, view: &View, places: &[usize]) -> Result<Vec<u16>, AllocError>
    requires { All (λ i. i < length view.now.boards) places.now }
    ensures { IfOk result (λ ranks. ranks.items
        ≡ map (λ i. (board_at view.now i).properties.rank) places.now) }
{
    let mut ranks = Vec::new(alloc);
    for i in places {
        ranks.push(view.properties(*i).rank())?;
    }
    Ok(ranks)
}

/// The ranks of the boards that aren't removed, by number, if there are at most 101.
pub(crate) fn ranks(alloc: Global, view: &View) -> Result<Vec<u16>, AllocError>
    requires ordered { IsOrdered view.now }
    requires few { length (alive_boards view.now) ≤ 101 }
    ensures { IfOk result (λ ranks. ranks.items ≡ ranks_of view.now) }
{
    let places = view.first_boards(alloc, None);
    ranks_at(alloc, view, places.as_slice())
}
