//! The numbers of stats: how many of those that are not removed come before them.
ghost use Rattle.std.specs.Prelude.{◌≡◌, ◌<◌, length, slice_get, option_map};
ghost use Rattle.zed_edit.specs.Numbers.{alive_stats, stat_numbered as stat_of_number};
ghost use Rattle.zed_view.specs.View.{board_at};

use crate::view::View;
use zed_types::{BoardId, StatId};

/// Stat `n` of those of a board that are not removed.
fn alive_stat(view: &View, i: usize, n: usize) -> Option<StatId>
    requires { i < length view.now.boards }
    ensures { result ≡
        option_map (λ s. s.id) (slice_get (alive_stats (board_at view.now i)) n) }
{
    let mut left = n;
    for j in 0..view.stats(i) {
        let (id, stat) = view.stat(i, j);
        if !stat.removed {
            if left == 0 {
                return Some(id);
            }
            left -= 1;
        }
    }
    None
}

impl<'a> View<'a> {
    /// The name of the stat with this number on a board: its place, counted from 0, among the stats
    /// of the board that are not removed. None if the board was not made.
    pub fn stat_numbered(&self, board: BoardId, n: usize) -> Option<StatId>
        ensures { result ≡ stat_of_number self.now board n }
    {
        for i in 0..self.boards() {
            let (id, _) = self.board(i);
            if id == board {
                return alive_stat(self, i, n);
            }
        }
        None
    }
}
