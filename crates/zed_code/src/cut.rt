//! What a deletion does to the runs of a text.

ghost use Rattle.std.specs.Prelude.{◌≡◌, ◌∷◌, ◌++◌, ◌<◌, ◌≤◌, ◌+◌, ◌-◌, ℕ, true, length, map, take, drop, set, vec_len, vec_capacity, OnOk, OnErr};
ghost use Rattle.std.specs.List.{AllByRecursion, list_any};
ghost use Rattle.zed_code.specs.Blocks.{lists, list_at, runs_of, before_spot, IsIn, NoneEmpty, HasRoom};
ghost use Rattle.zed_code.specs.Runs.{pieces, kill_runs, sought, touched, reaches as is_reached};
ghost use Rattle.zed_code.specs.Kept.{IsSound, AllInOrder, NoneFrom, AreHints};
ghost use Rattle.zed_code.specs.Found.{IsFound};
ghost use Rattle.zed_code.specs.Visits.{raised, LooksAtSome, LooksAtLeast};

use crate::block::{Block, Spot};
use crate::blocks::{reserve_from, split_full};
use crate::place::{look, look_once};
use crate::run::Run;
use crate::search::{Found, seek};
use std::alloc::AllocError;
use std::collections::BTreeMap;
use zed_types::{ByteRange, ElemId};

/// Puts the bytes of a run before and behind a range into runs of their own, of which it leaves the range dead.
/// Answers how many runs it is now.
fn cut_at(runs: &mut Vec<Run>, i: usize, run: Run, range: ByteRange) -> usize
    requires sound { IsSound run }
    requires there { drop i runs.old.items ≡ run ∷ drop (i + 1) runs.old.items }
    requires room { vec_len runs.old + length (pieces range run) ≤ vec_capacity runs.old + 1 }
    ensures runs { runs.new.items
        ≡ take i runs.old.items ++ (pieces range run ++ drop (i + 1) runs.old.items) }
    ensures count { result ≡ length (pieces range run) }
    ensures capacity { vec_capacity runs.old ≤ vec_capacity runs.new }
{
    if !run.touches(range) {
        return 1;
    }
    let low = run.low(range);
    let high = run.high(range);
    let mut count = 1;
    runs[i] = run.part(low, high).killed();
    if high < run.len {
        runs.insert(i + 1, run.part(high, run.len)).unwrap();
        count += 1;
    }
    if low > 0 {
        runs.insert(i, run.part(0, low)).unwrap();
        count += 1;
    }
    count
}

/// Marks the bytes of a range dead in one block, from a place on before which it has none of them.
/// Answers whether the block has the end of the range.
fn cut_in(runs: &mut Vec<Run>, range: ByteRange, start: usize, visits: &mut u64) -> bool
    requires each { AllByRecursion IsSound runs.old.items }
    requires ordered { AllInOrder runs.old.items }
    requires within { start ≤ length runs.old.items }
    requires none { NoneFrom range.stamp range.first (take start runs.old.items) }
    requires room { length (kill_runs range runs.old.items) ≤ vec_capacity runs.old }
    ensures runs { runs.new.items ≡ kill_runs range runs.old.items }
    ensures end { result ≡ true → list_any (is_reached range) runs.old.items ≡ true }
    ensures visits { (k : ℕ) × (visits.new ≡ raised visits.old k)
        × (k + start ≤ length runs.old.items) }
    ensures looks { LooksAtLeast (touched range runs.old.items) visits.old visits.new }
{
    let _visits = *visits;
    let mut i = start;
    while i < runs.len() {
        let run = look(runs, i, visits);
        i += cut_at(runs, i, run, range);
        if run.reaches(range) {
            return true;
        }
    }
    false
}

/// The same in the block with a number.
fn cut_block(
    blocks: &mut Vec<Block>,
    block: usize,
    range: ByteRange,
    start: usize,
    visits: &mut u64,
) -> bool
    requires block { block < length blocks.old.items }
    requires each { AllByRecursion IsSound (list_at block (lists blocks.old.items)) }
    requires ordered { AllInOrder (list_at block (lists blocks.old.items)) }
    requires within { start ≤ length (list_at block (lists blocks.old.items)) }
    requires none { NoneFrom range.stamp range.first
        (take start (list_at block (lists blocks.old.items))) }
    requires room { AllByRecursion HasRoom (drop block blocks.old.items) }
    ensures runs { lists blocks.new.items ≡ set (lists blocks.old.items) block
        (kill_runs range (list_at block (lists blocks.old.items))) }
    ensures room { AllByRecursion HasRoom (drop (block + 1) blocks.new.items) }
    ensures end { result ≡ true
        → list_any (is_reached range) (list_at block (lists blocks.old.items)) ≡ true }
    ensures visits { (k : ℕ) × (visits.new ≡ raised visits.old k)
        × (k + start ≤ length (list_at block (lists blocks.old.items))) }
    ensures looks { LooksAtLeast
        (touched range (list_at block (lists blocks.old.items))) visits.old visits.new }
{
    cut_in(&mut blocks[block].runs, range, start, visits)
}

/// Marks the bytes of a range dead, from a place on before which no run has any.
fn cut(blocks: &mut Vec<Block>, range: ByteRange, at: Spot, visits: &mut u64)
    requires each { AllByRecursion IsSound (runs_of blocks.old.items) }
    requires ordered { AllInOrder (runs_of blocks.old.items) }
    requires within { IsIn at 0 (lists blocks.old.items) }
    requires none { NoneFrom range.stamp range.first
        (take (before_spot at (lists blocks.old.items)) (runs_of blocks.old.items)) }
    requires room { AllByRecursion HasRoom (drop at.block blocks.old.items) }
    ensures runs { lists blocks.new.items ≡ map (kill_runs range) (lists blocks.old.items) }
    ensures visits { (k : ℕ) × (visits.new ≡ raised visits.old k)
        × (k + before_spot at (lists blocks.old.items) ≤ length (runs_of blocks.old.items)) }
    ensures looks { LooksAtLeast (touched range (runs_of blocks.old.items)) visits.old visits.new }
{
    let _visits = *visits;
    let mut start = at.place;
    for block in at.block..blocks.len() {
        if cut_block(blocks, block, range, start, visits) {
            return;
        }
        start = 0;
    }
}

/// Marks the bytes of a range dead. Memory leaves all runs as they were.
pub(crate) fn mark_dead(
    blocks: &mut Vec<Block>,
    places: &mut Vec<usize>,
    hints: &mut BTreeMap<ElemId, usize>,
    found: Option<Found>,
    range: ByteRange,
    visits: &mut u64,
) -> Result<(), AllocError>
    requires full { NoneEmpty (lists blocks.old.items) }
    requires each { AllByRecursion IsSound (runs_of blocks.old.items) }
    requires ordered { AllInOrder (runs_of blocks.old.items) }
    requires hints { AreHints hints.old.entries places.old.items (lists blocks.old.items) }
    requires found { IsFound found (lists blocks.old.items) }
    ensures ok { OnOk result
        (runs_of blocks.new.items ≡ kill_runs range (runs_of blocks.old.items)) }
    ensures err { OnErr result (runs_of blocks.new.items ≡ runs_of blocks.old.items) }
    ensures full { NoneEmpty (lists blocks.new.items) }
    ensures hints { AreHints hints.new.entries places.new.items (lists blocks.new.items) }
    ensures visits { OnOk result
        (LooksAtSome (length (runs_of blocks.old.items)) visits.old visits.new) }
    ensures looks { OnOk result
        (LooksAtLeast (touched range (runs_of blocks.old.items)) visits.old visits.new) }
    ensures memory_only_when { OnErr result ((range.first ≤ range.last)
        × (sought range.stamp range.first (runs_of blocks.old.items)
        < length (runs_of blocks.old.items))) }
{
    if range.last < range.first {
        look_once(blocks, visits);
        return Ok(());
    }
    let first = ElemId::new(range.stamp, range.first);
    let at = seek(blocks, places, hints, found, first, visits)?;
    if at.block >= blocks.len() {
        return Ok(());
    }
    let at = split_full(blocks, places, at)?;
    reserve_from(blocks, at.block)?;
    cut(blocks, range, at, visits);
    Ok(())
}
