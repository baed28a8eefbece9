//! Which limit of a world file a document goes over.
ghost use Rattle.std.specs.Prelude.{◌≡◌, ◌<◌, ◌≤◌, length, map, None};
ghost use Rattle.std.specs.List.{All};
ghost use Rattle.zed_types.specs.declared.limits.TheConstants.{READ_BODY_LIMIT};
ghost use Rattle.zed_op.specs.declared.thing.Thing.TheVariants as thing;
ghost use Rattle.zed_types.specs.Names.{title};
ghost use Rattle.zed_edit.specs.Document.{has};
ghost use Rattle.zed_edit.specs.Numbers.{alive_boards as numbered_boards, alive_stats as stats_there};
ghost use Rattle.zed_laws.specs.Regular.{IsRegular};
ghost use Rattle.zed_laws.specs.NameOrder.{IsOrdered};
ghost use Rattle.zed_view.specs.View.{board_at};
ghost use Rattle.zed_export.specs.World.{exported_board};
ghost use Rattle.zed_export.specs.Limits.{title_refusal, count_refusal, stats_refusal, board_refusal, boards_refusal, refusal_of};

use crate::error::ExportError;
use crate::numbers::boards_by_number;
use crate::size::body_bytes;
use std::alloc::Global;
use zed_document::View;
use zed_types::{BOARDS_LIMIT, BoardId, STATS_LIMIT};

/// Whether a title was made.
fn has_title(view: &View) -> bool
    ensures { result ≡ has view.now (thing.Board title) }
{
    for i in 0..view.boards() {
        let (id, _) = view.board(i);
        if id == BoardId::TITLE {
            return true;
        }
    }
    false
}

/// How many boards aren't removed.
fn alive_boards(view: &View) -> usize
    requires { IsOrdered view.now }
    ensures { result ≡ length (numbered_boards view.now) }
{
    let mut count = 0;
    for i in 0..view.boards() {
        let (_, board) = view.board(i);
        if !board.is_removed() {
            count += 1;
        }
    }
    count
}

/// How many stats of a board aren't removed.
pub(crate) fn alive_stats(view: &View, i: usize) -> usize
    requires { i < length view.now.boards }
    ensures { result ≡ length (stats_there (board_at view.now i)) }
{
    let mut count = 0;
    for j in 0..view.stats(i) {
        let (_, stat) = view.stat(i, j);
        if !stat.removed {
            count += 1;
        }
    }
    count
}

/// The first limit that a board goes over.
fn over(alloc: Global, view: &View, limit: usize, i: usize, number: usize) -> Option<ExportError>
    requires regular { IsRegular view.now }
    requires ordered { IsOrdered view.now }
    requires board { i < length view.now.boards }
    requires limit { limit ≤ READ_BODY_LIMIT }
    ensures { result ≡ board_refusal limit number (exported_board view.now (board_at view.now i)) }
{
    let stats = alive_stats(view, i).saturating_sub(1);
    if STATS_LIMIT < stats {
        return Some(ExportError::StatsOver {
            board: number,
            stats,
        });
    }
    let bytes = body_bytes(alloc, view, i);
    if limit < bytes {
        Some(ExportError::BoardOver {
            board: number,
            bytes,
        })
    } else {
        None
    }
}

/// The first limit that the boards of these places go over, board by board.
fn first_over(alloc: Global, view: &View, limit: usize, places: &[usize]) -> Option<ExportError>
    requires regular { IsRegular view.now }
    requires ordered { IsOrdered view.now }
    requires places { All (λ i. i < length view.now.boards) places.now }
    requires limit { limit ≤ READ_BODY_LIMIT }
    ensures { result ≡ boards_refusal limit 0
        (map (λ i. exported_board view.now (board_at view.now i)) places.now) }
{
    for (number, i) in places.iter().enumerate() {
        let refusal = over(alloc, view, limit, *i, number);
        if refusal.is_some() {
            return refusal;
        }
    }
    None
}

/// The first limit that a document goes over. This takes no memory.
pub(crate) fn first_limit(alloc: Global, view: &View, limit: usize) -> Option<ExportError>
    requires regular { IsRegular view.now }
    requires ordered { IsOrdered view.now }
    requires limit { limit ≤ READ_BODY_LIMIT }
    ensures { result ≡ refusal_of limit view.now }
{
    if !has_title(view) {
        return Some(ExportError::NoWorld);
    }
    let boards = alive_boards(view).saturating_sub(1);
    if BOARDS_LIMIT < boards {
        return Some(ExportError::BoardsOver(boards));
    }
    let places = boards_by_number(alloc, view);
    first_over(alloc, view, limit, places.as_slice())
}
