//! The numbers of boards and stats.

ghost use Rattle.std.specs.Prelude.{◌≡◌, ◌&&◌, not, find, filter, count_by, slice_get};
ghost use Rattle.zed_types.specs.Names.{same_board};
ghost use Rattle.zed_edit.specs.Lent.{lent};
ghost use Rattle.zed_edit.specs.Numbers.{standing_of, standing as standing_in, stands_before, boards_before as before_in, board_with, board_numbered as board_of_number, stat_numbered as stat_of_number};
ghost use Rattle.zed_edit.specs.NumberLaws.{EachHasItsNumber, NumberedStandAtTheirPlaces, NumbersArePlaces, StandingsSortByNumber};

use crate::plain::{Board, Plain, Stat};
use zed_types::{BoardId, StatId};

/// A board's place among others: the lower one comes first.
#[derive(Clone, Copy, PartialEq, Eq, PartialOrd, Ord)]
pub struct Standing {
    /// 0 for the title, and for any other board one more than its rank.
    pub place: u32,
    pub board: BoardId,
}

impl Standing {
    /// The place of the board with this name and this rank.
    pub fn new(board: BoardId, rank: u16) -> Standing
        ensures { result ≡ standing_of board rank }
    {
        let place = if board == BoardId::TITLE {
            0
        } else {
            u32::from(rank) + 1
        };
        Standing { place, board }
    }

    /// Whether the board comes before another.
    pub fn is_before(self, other: Standing) -> bool
        ensures { result ≡ stands_before self other }
    {
        self < other
    }
}

/// Boards with different names have as numbers their places when sorted.
pub fn numbers_are_places()
    ensures sorted { StandingsSortByNumber }
    ensures places { NumbersArePlaces }
    ensures numbered { NumberedStandAtTheirPlaces }
    ensures all { EachHasItsNumber }
{}

fn board_named(plain: &Plain, b: BoardId) -> Option<&Board>
    ensures { lent result ≡ find (λ x. same_board x.id b) plain.now.boards }
{
    plain.boards.as_slice().iter().find(|x| x.id == b)
}

fn where_is(board: &Board) -> Standing
    ensures { result ≡ standing_in board.now }
{
    Standing::new(board.id, board.properties.rank)
}

/// Whether a board is not removed, and comes before one.
fn counts(board: &Board, one: Standing) -> bool
    ensures { result ≡ not board.now.removed && stands_before (standing_in board.now) one }
{
    !board.removed && where_is(board).is_before(one)
}

fn count_before(boards: &[Board], one: Standing) -> usize
    ensures { result ≡
        count_by (λ b. not b.removed && stands_before (standing_in b) one) boards.now }
{
    boards.iter().filter(|b| counts(b, one)).count()
}

/// How many boards that are not removed come before one.
fn boards_before(boards: &[Board], one: &Board) -> usize
    ensures { result ≡ before_in (filter (λ b. not b.removed) boards.now) one.now }
{
    count_before(boards, where_is(one))
}

/// The board of a number among those that are not removed.
fn alive_board(boards: &[Board], n: usize) -> Option<&Board>
    ensures { lent result ≡ board_with (filter (λ b. not b.removed) boards.now) n }
{
    boards
        .iter()
        .filter(|b| !b.removed)
        .find(|b| boards_before(boards, b) == n)
}

/// Stat `n` of those that are not removed.
#[tactic(auto, using(crate::proofs::Finding::stat_removed, crate::proofs::Finding::stat_here, crate::proofs::Finding::stat_further))]
fn alive_stat(stats: &[Stat], n: usize) -> Option<&Stat>
    ensures { lent result ≡ slice_get (filter (λ s. not s.removed) stats.now) n }
{
    let mut left = n;
    for s in stats {
        if !s.removed {
            if left == 0 {
                return Some(s);
            }
            left -= 1;
        }
    }
    None
}

impl Plain {
    /// The name of the board with this number. The number says how many of the boards that are not
    /// removed come before it.
    pub fn board_numbered(&self, n: usize) -> Option<BoardId>
        ensures { result ≡ board_of_number self.now n }
    {
        match alive_board(self.boards.as_slice(), n) {
            Some(b) => Some(b.id),
            None => None,
        }
    }

    /// The name of the stat with this number on a board: its place, counted from 0, among the stats
    /// of the board that are not removed. None if the board was not made.
    pub fn stat_numbered(&self, board: BoardId, n: usize) -> Option<StatId>
        ensures { result ≡ stat_of_number self.now board n }
    {
        let stats = match board_named(self, board) {
            Some(b) => b.stats.as_slice(),
            None => return None,
        };
        match alive_stat(stats, n) {
            Some(s) => Some(s.id),
            None => None,
        }
    }
}
