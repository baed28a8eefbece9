//! The boards in the order of their numbers.
ghost use Rattle.std.specs.Prelude.{◌≡◌, ◌<◌, ◌≤◌, ◌&&◌, true, not, length, map, take, insert};
ghost use Rattle.std.specs.List.{All};
ghost use Rattle.zed_edit.specs.Numbers.{boards_there, standing};
ghost use Rattle.zed_view.specs.First.{FirstHaveFirstNumbers, IsInOrder, NextHaveNextNumbers, first_of, is_behind, put as put_among};
ghost use Rattle.zed_view.specs.View.{board_at};

use crate::view::View;
use smallvec::SmallVec;
use std::alloc::Global;
use zed_edit::Standing;

/// Whether a board is not removed, and comes after another, if one is given.
fn passes(view: &View, i: usize, after: Option<Standing>) -> bool
    requires { i < length view.now.boards }
    ensures { result
        ≡ not (board_at view.now i).removed && is_behind after (board_at view.now i) }
{
    let (_, board) = view.board(i);
    if board.is_removed() {
        return false;
    }
    match after {
        Some(one) => one.is_before(view.standing_of(i)),
        None => true,
    }
}

/// Whether there are 101 boards already, and a board comes before none of them.
fn is_past(view: &View, first: &[usize], i: usize) -> bool
    requires board { i < length view.now.boards }
    requires others { All (λ j. j < length view.now.boards) first.now }
    requires order { IsInOrder (map (board_at view.now) first.now) }
    requires few { length first.now ≤ 101 }
    ensures { result ≡ true → take 101 (put_among (board_at view.now i) (map (board_at view.now) first.now))
        ≡ map (board_at view.now) first.now }
{
    match first.get(100) {
        Some(last) => !view.standing_of(i).is_before(view.standing_of(*last)),
        None => false,
    }
}

/// The place of a board among others: that of the first which it comes before.
fn place_among(view: &View, first: &[usize], i: usize) -> usize
    requires board { i < length view.now.boards }
    requires others { All (λ j. j < length view.now.boards) first.now }
    ensures boards { map (board_at view.now) (insert first.now result i)
        ≡ put_among (board_at view.now i) (map (board_at view.now) first.now) }
    ensures within { result ≤ length first.now }
{
    for (k, j) in first.iter().enumerate() {
        if view.standing_of(i).is_before(view.standing_of(*j)) {
            return k;
        }
    }
    first.len()
}

/// Puts a board among the first ones, by its place. Of more than 101 the last one is dropped.
fn put(view: &View, first: &mut SmallVec<usize, 102>, i: usize)
    requires board { i < length view.now.boards }
    requires others { All (λ j. j < length view.now.boards) first.old.items }
    requires order { IsInOrder (map (board_at view.now) first.old.items) }
    requires few { length first.old.items ≤ 101 }
    requires inline { first.old.capacity ≡ 102 }
    ensures boards { map (board_at view.now) first.new.items
        ≡ take 101 (put_among (board_at view.now i) (map (board_at view.now) first.old.items)) }
    ensures within { All (λ j. j < length view.now.boards) first.new.items }
    ensures few { length first.new.items ≤ 101 }
    ensures inline { first.new.capacity ≡ 102 }
{
    if is_past(view, first.as_slice(), i) {
        return;
    }
    let place = place_among(view, first.as_slice(), i);
    let Ok(()) = first.insert(place, i) else {
        unreachable!()
    };
    first.truncate(101);
}

impl<'a> View<'a> {
    /// A board's place among the others.
    pub fn standing_of(&self, i: usize) -> Standing
        requires { i < length self.now.boards }
        ensures { result ≡ standing (board_at self.now i) }
    {
        let (id, board) = self.board(i);
        Standing::new(id, board.properties.rank())
    }

    /// The first 101 boards in the order of their numbers, of those that are not removed and, if
    /// one is given, come after it. It goes through the boards once, and takes no memory.
    pub fn first_boards(&self, alloc: Global, after: Option<Standing>) -> SmallVec<usize, 102>
        ensures boards { map (board_at self.now) result.items
            ≡ first_of 101 (is_behind after) (boards_there self.now) }
        ensures within { All (λ i. i < length self.now.boards) result.items }
    {
        let mut first = SmallVec::new(alloc);
        for i in (0..self.boards()).rev() {
            if passes(self, i, after) {
                put(self, &mut first, i);
            }
        }
        first
    }
}

/// To go through all boards by their numbers, take the first ones, then the first ones after the
/// last of these, and so on.
pub fn first_boards_have_the_first_numbers()
    ensures first { FirstHaveFirstNumbers }
    ensures next { NextHaveNextNumbers }
{}
