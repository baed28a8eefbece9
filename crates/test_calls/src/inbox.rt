//! Edits that wait, what each thing releases, and growths refused.
use crate::growths::refuse_each;
use std::alloc::{AllocError, Global};
use test_rows::{Turn, refuse, turn_of, was_refused};
use zed_inbox::Inbox;
use zed_op::{Edit, Op, Thing};
use zed_types::{BoardId, ByteRange, ElemId, Stamp, TextId};

fn stamp(time: u64, replica: u16) -> Stamp {
    Stamp { time, replica }
}

/// The text that the world begins with.
fn text() -> TextId {
    TextId::new(Stamp::GENESIS, 0)
}

/// The first byte that an edit puts into the text.
fn byte_of(stamp: Stamp) -> Thing {
    Thing::Element(text(), ElemId::new(stamp, 0))
}

/// A board that an edit of replica 2 made.
fn board(made: u64) -> BoardId {
    BoardId::new(stamp(made, 2), 0)
}

/// A deletion of the first byte of an insertion.
fn deletion(own: Stamp, stamp: Stamp) -> Edit {
    let range = ByteRange {
        stamp,
        first: 0,
        last: 0,
    };
    Edit {
        stamp: own,
        op: Op::TextDelete(text(), range),
    }
}

/// Holds the removal of a board, made by replica 1 at a time; whether that went well.
fn hold_removal(inbox: &mut Inbox, time: u64, made: u64) -> bool {
    let edit = Edit {
        stamp: stamp(time, 1),
        op: Op::BoardRemove(board(made)),
    };
    inbox.hold(edit).is_ok()
}

/// Holds 40 deletions that wait for one byte, two of each time. They come in no order of stamps.
fn put_crowd(inbox: &mut Inbox) {
    for k in 0..40u64 {
        let place = k * 7 % 40;
        let replica = if place % 2 == 0 { 2 } else { 1 };
        let _ = inbox.hold(deletion(stamp(100 + place / 2, replica), stamp(2, 1)));
    }
}

/// Whether edits stand in rising stamp order.
fn rises(edits: &[Edit]) -> bool {
    let mut last = stamp(0, 0);
    for edit in edits {
        if !last.is_before(edit.stamp) {
            return false;
        }
        last = edit.stamp;
    }
    true
}

/// Whether a thing releases so many edits, in stamp order.
fn releases(inbox: &mut Inbox, thing: Thing, count: usize) -> bool {
    match inbox.release(thing) {
        Ok(released) => released.len() == count && rises(released.as_slice()),
        Err(AllocError) => false,
    }
}

/// Whether a board releases so many edits.
fn board_releases(inbox: &mut Inbox, made: u64, count: usize) -> bool {
    releases(inbox, Thing::Board(board(made)), count)
}

/// Whether a crowd is released by its byte alone.
fn comes_by_its_byte(inbox: &mut Inbox) -> bool {
    put_crowd(inbox);
    inbox.held() == 40
        && releases(inbox, byte_of(stamp(3, 1)), 0)
        && releases(inbox, byte_of(stamp(2, 1)), 40)
        && inbox.held() == 0
        && releases(inbox, Thing::Text(text()), 0)
}

#[test]
fn a_crowd_that_waits_for_one_byte_comes_in_stamp_order(rt: HostRuntime) {
    assert!(rt; comes_by_its_byte(&mut Inbox::new(rt.alloc())));
}

/// Whether the edit that waits for this board of 300 is released by it alone.
fn comes_by_its_board(inbox: &mut Inbox, k: u64) -> bool {
    let waits = stamp(1000 - k % 300, 1);
    inbox.is_held(waits)
        && board_releases(inbox, 2 + k % 300, 1)
        && !inbox.is_held(waits)
        && board_releases(inbox, 2 + k % 300, 0)
}

/// Whether of 300 edits that each wait for a board of its own each is released by that board alone.
fn each_by_its_own(inbox: &mut Inbox) -> bool {
    for k in 0..300u64 {
        let _ = hold_removal(inbox, 1000 - k, 2 + k);
    }
    for k in 0..300u64 {
        if !comes_by_its_board(inbox, k) {
            return false;
        }
    }
    inbox.held() == 0
}

#[test]
fn each_board_releases_the_edit_that_waits_for_it(rt: HostRuntime) {
    assert!(rt; each_by_its_own(&mut Inbox::new(rt.alloc())));
}

fn the_first_waits(inbox: &mut Inbox) -> bool {
    hold_removal(inbox, 5, 2)
        && hold_removal(inbox, 5, 3)
        && inbox.held() == 1
        && board_releases(inbox, 3, 0)
        && board_releases(inbox, 2, 1)
}

#[test]
fn of_two_edits_with_one_stamp_the_first_waits(rt: HostRuntime) {
    assert!(rt; the_first_waits(&mut Inbox::new(rt.alloc())));
}

/// Whether the crowd waits, and so many edits that wait for another byte.
fn is_whole(inbox: &mut Inbox, late: usize) -> bool {
    inbox.held() == late.saturating_add(40)
        && releases(inbox, byte_of(stamp(3, 1)), late)
        && releases(inbox, Thing::Text(text()), 40)
        && releases(inbox, byte_of(stamp(2, 1)), 0)
        && inbox.held() == 0
}

/// Whether what an inbox of a crowd tells, and the release of what nothing waits for, take no memory.
fn tells_without_memory(alloc: Global, inbox: &mut Inbox) -> bool {
    put_crowd(inbox);
    refuse(alloc, 1);
    let is_told = inbox.held() == 40
        && inbox.is_held(stamp(100, 2))
        && !inbox.is_held(stamp(99, 2))
        && inbox.same(inbox)
        && releases(inbox, byte_of(stamp(3, 1)), 0);
    !was_refused(alloc) && is_told
}

#[test]
fn readers_take_no_memory_refused(rt: HostRuntime) {
    assert!(rt; tells_without_memory(rt.alloc(), &mut Inbox::new(rt.alloc())));
}

/// Holds one edit more than a crowd with a growth refused, which leaves the crowd alone.
fn hold_once(alloc: Global, inbox: &mut Inbox, nth: usize) -> Turn {
    put_crowd(inbox);
    refuse(alloc, nth);
    let answer = inbox.hold(deletion(stamp(300, 1), stamp(3, 1)));
    if !was_refused(alloc) {
        return turn_of(false, answer.is_ok() && is_whole(inbox, 1), false);
    }
    let is_kept = answer.is_err() && !inbox.is_held(stamp(300, 1));
    turn_of(true, false, is_kept && is_whole(inbox, 0))
}

/// How many edits a byte releases, where memory suffices.
fn released_by(inbox: &mut Inbox, stamp: Stamp) -> Option<usize> {
    match inbox.release(byte_of(stamp)) {
        Ok(released) => Some(released.len()),
        Err(AllocError) => None,
    }
}

/// Releases a crowd with a growth refused, which leaves it.
fn release_once(alloc: Global, inbox: &mut Inbox, nth: usize) -> Turn {
    put_crowd(inbox);
    refuse(alloc, nth);
    let released = released_by(inbox, stamp(2, 1));
    if !was_refused(alloc) {
        return turn_of(false, released == Some(40) && inbox.held() == 0, false);
    }
    turn_of(true, false, released.is_none() && is_whole(inbox, 0))
}

#[test]
fn a_refused_growth_leaves_the_inbox(rt: HostRuntime) {
    let alloc = rt.alloc();
    assert!(rt; refuse_each!(nth => hold_once(alloc, &mut Inbox::new(alloc), nth)));
    assert!(rt; refuse_each!(nth => release_once(alloc, &mut Inbox::new(alloc), nth)));
}
