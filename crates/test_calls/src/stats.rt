//! Stats by example, and growths refused.
use crate::growths::{refuse_each, turn_of};
use std::alloc::{AllocError, Global};
use test_rows::{Turn, refuse, was_refused};
use zed_stats::{StatField, StatValues, Stats};
use zed_types::{Stamp, StatByte, StatFields, StatId, StatSetting, ThirdParameter};

fn at(time: u64) -> Stamp {
    Stamp { time, replica: 1 }
}

fn stat(time: u64) -> StatId {
    StatId::new(at(time), 0)
}

fn values(x: u8, y: u8) -> StatValues {
    StatValues {
        fields: StatFields {
            bytes: [x, y, 0, 0, 0, 0],
            numbers: [0, 0, 1],
            p3: ThirdParameter::Byte(0),
            text: None,
        },
        position: 0,
        follower: None,
        leader: None,
    }
}

/// Adds a stat that is no player at a place; whether that went well.
fn add(stats: &mut Stats, time: u64, x: u8, y: u8) -> bool {
    stats.add(stat(time), false, values(x, y)).is_ok()
}

/// Adds a board's player, and stats at (1,5), (1,3) and (1,4) in this order; whether that went well.
fn is_begun(stats: &mut Stats) -> bool {
    stats.add(stat(2), true, values(30, 12)).is_ok()
        && add(stats, 5, 1, 5)
        && add(stats, 3, 1, 3)
        && add(stats, 4, 1, 4)
}

/// Whether a byte of the stat at a place is so.
fn is_byte(stats: &Stats, place: usize, byte: StatByte, wanted: u8) -> bool {
    place < stats.count()
        && stats.field(place, StatField::Byte(byte)) == StatSetting::Byte(byte, wanted)
}

/// Whether the stat at a place is this one, removed or not.
fn is_at(stats: &Stats, place: usize, id: StatId, is_removed: bool) -> bool {
    if place >= stats.count() {
        return false;
    }
    let (name, stat) = stats.at(place);
    name == id && stat.removed == is_removed
}

/// Whether a stat that is removed, changed and added again stays removed, as it was changed.
fn stays_removed(stats: &mut Stats) -> bool {
    stats.remove(stat(3));
    stats.set_field(stat(3), at(9), StatSetting::Byte(StatByte::X, 60));
    add(stats, 3, 7, 7)
        && stats.count() == 4
        && is_at(stats, 1, stat(3), true)
        && is_byte(stats, 1, StatByte::X, 60)
        && is_byte(stats, 1, StatByte::Y, 3)
}

fn removed_stays(alloc: Global) -> bool {
    let mut stats = Stats::new(alloc);
    is_begun(&mut stats) && stays_removed(&mut stats)
}

#[test]
fn a_removed_stat_keeps_its_fields_and_stays_removed(rt: HostRuntime) {
    assert!(rt; removed_stays(rt.alloc()));
}

/// Adds so many stats, the latest first.
fn put_crowd(stats: &mut Stats, count: u64) {
    for k in 0..count {
        let _ = add(stats, 100 - k % 50, 1, 1);
    }
}

/// Whether the first stat is the one that was put in front, behind so many.
fn has_first(stats: &Stats, count: u64) -> bool {
    stats.number_of(stat(50)) == Some(0) && stats.count() as u64 == count.saturating_add(1)
}

/// Adds a stat in front of so many with a growth refused. Then all is as before, and it is added when that is tried again.
fn add_to(alloc: Global, stats: &mut Stats, count: u64, nth: usize) -> Turn {
    refuse(alloc, nth);
    let answer = stats.add(stat(50), false, values(1, 6));
    let is_kept = !stats.has(stat(50)) && stats.count() as u64 == count;
    let is_memory = answer == Err(AllocError) && is_kept;
    let turn = turn_of(alloc, answer.is_ok() && has_first(stats, count), is_memory);
    if add(stats, 50, 1, 6) && has_first(stats, count) {
        turn
    } else {
        Turn::Wrong
    }
}

fn add_once(alloc: Global, count: u64, nth: usize) -> Turn {
    let mut stats = Stats::new(alloc);
    put_crowd(&mut stats, count);
    add_to(alloc, &mut stats, count, nth)
}

fn adds_each(alloc: Global, count: u64) -> bool {
    refuse_each!(nth => add_once(alloc, count, nth))
}

#[test]
fn each_growth_of_add_refused(rt: HostRuntime) {
    for count in 0..9 {
        assert!(rt; adds_each(rt.alloc(), count));
    }
}

/// Whether a stat is changed, added again and removed, all without memory.
fn changes_without_memory(alloc: Global, stats: &mut Stats) -> bool {
    refuse(alloc, 1);
    let is_known = add(stats, 4, 9, 9);
    stats.set_field(stat(4), at(9), StatSetting::Byte(StatByte::X, 60));
    stats.set_field(stat(4), at(9), StatSetting::Leader(Some(stat(3))));
    stats.remove(stat(3));
    let is_told = tells_changed(stats);
    !was_refused(alloc) && is_known && is_told
}

/// Whether what was changed is told.
fn tells_changed(stats: &Stats) -> bool {
    stats.number_of(stat(4)) == Some(1)
        && stats.has(stat(3))
        && is_at(stats, 1, stat(3), true)
        && is_at(stats, 2, stat(4), false)
        && is_byte(stats, 2, StatByte::X, 60)
        && stats.count() == 4
}

fn board_changes(alloc: Global) -> bool {
    let mut stats = Stats::new(alloc);
    is_begun(&mut stats) && changes_without_memory(alloc, &mut stats)
}

#[test]
fn changes_take_no_memory_refused(rt: HostRuntime) {
    assert!(rt; board_changes(rt.alloc()));
}
