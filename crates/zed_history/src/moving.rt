//! Edits moved to their places in a log. This takes no memory if there is room for them.
ghost use Rattle.std.specs.Prelude.{◌≡◌, ◌≤◌, ◌<◌, ◌+◌, ◌++◌, None, length, take, drop, slice_set, vec_capacity};
ghost use Rattle.zed_op.specs.Set.{IsRising, union};
ghost use Rattle.zed_history.specs.Finding.{AllAbove, AllBelow, AreNew, edit_with};

use crate::place::is_below;
use zed_op::{Edit, Op};
use zed_types::Stamp;

/// Puts so many edits that say nothing behind a log: they keep room for others.
fn open_gap(log: &mut Vec<Edit>, count: usize)
    requires { length log.old.items + count ≤ vec_capacity log.old }
    ensures front { take (length log.old.items) log.new.items ≡ log.old.items }
    ensures length { length log.new.items ≡ length log.old.items + count }
    ensures capacity { vec_capacity log.new ≡ vec_capacity log.old }
{
    for _ in 0..count {
        log.push_reserved(Edit {
            stamp: Stamp::GENESIS,
            op: Op::TextAdd,
        });
    }
}

/// Moves the last edits before a place of a log up by so many places: those that come after a stamp.
/// It answers where they stood.
fn move_up(log: &mut Vec<Edit>, place: usize, by: usize, stamp: Stamp) -> usize
    requires some { 0 < by }
    requires within { place + by ≤ length log.old.items }
    requires rising { IsRising (take place log.old.items) }
    requires new { edit_with stamp (take place log.old.items) ≡ None }
    ensures within { result ≤ place }
    ensures front { take result log.new.items ≡ take result log.old.items }
    ensures moved { drop (result + by) log.new.items
        ≡ drop result (take place log.old.items) ++ drop (place + by) log.old.items }
    ensures above { AllAbove stamp (drop result (take place log.old.items)) }
    ensures below { AllBelow stamp (take result log.old.items) }
    ensures length { length log.new.items ≡ length log.old.items }
    ensures capacity { vec_capacity log.new ≡ vec_capacity log.old }
{
    let mut at = place;
    while !is_below(log, at, stamp) {
        at -= 1;
        log.swap(at, at + by);
    }
    at
}

/// Puts an edit over the one at a place of a log.
fn put_over(log: &mut Vec<Edit>, place: usize, edit: Edit)
    requires { place < length log.old.items }
    ensures items { log.new.items ≡ slice_set log.old.items place edit }
    ensures capacity { vec_capacity log.new ≡ vec_capacity log.old }
{
    log[place] = edit;
}

/// Moves edits of new stamps to their places in a log that has room for them, from the last one on.
pub(crate) fn move_in(log: &mut Vec<Edit>, mut edits: Vec<Edit>)
    requires log_rising { IsRising log.old.items }
    requires rising { IsRising edits.items }
    requires new { AreNew log.old.items edits.items }
    requires room { length log.old.items + length edits.items ≤ vec_capacity log.old }
    ensures joined { log.new.items ≡ union log.old.items edits.items }
    ensures room { vec_capacity log.new ≡ vec_capacity log.old }
{
    let mut place = log.len();
    open_gap(log, edits.len());
    while let Some(edit) = edits.pop() {
        let left = edits.len();
        place = move_up(log, place, left + 1, edit.stamp);
        put_over(log, place + left, edit);
    }
}
