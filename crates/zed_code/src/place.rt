//! Where an insertion goes.

ghost use Rattle.std.specs.Prelude.{◌≡◌, ◌∷◌, ◌<◌, ◌≤◌, ◌+◌, ◌-◌, min, length, take, drop};
ghost use Rattle.zed_code.specs.Blocks.{lists, joined, runs_of, before_spot, IsIn, NoneEmpty};
ghost use Rattle.zed_code.specs.Runs.{sought, passed};
ghost use Rattle.zed_code.specs.Kept.{NoneFrom};
ghost use Rattle.zed_code.specs.Visits.{raised, LooksAtSome};

use crate::block::{Block, Spot, runs_at};
use crate::run::Run;
use zed_types::Stamp;

/// Looks at a run. Insertions and deletions read runs only by this. Runs that are only moved, as
/// when a block is halved, aren't looked at.
pub(crate) fn look(runs: &[Run], i: usize, visits: &mut u64) -> Run
    requires { i < length runs.now }
    ensures run { drop i runs.now ≡ result ∷ drop (i + 1) runs.now }
    ensures visits { visits.new ≡ raised visits.old 1 }
{
    if *visits < u64::MAX {
        *visits += 1;
    }
    runs[i]
}

/// Looks at the first run, if there is one.
pub(crate) fn look_once(blocks: &[Block], visits: &mut u64)
    requires { NoneEmpty (lists blocks.now) }
    ensures visits { LooksAtSome (length (runs_of blocks.now)) visits.old visits.new }
{
    let _visits = *visits;
    if !blocks.is_empty() {
        look(runs_at(blocks, 0), 0, visits);
    }
}

/// The first run of a block that has bytes of an insertion from a number on, or how many runs there are.
fn find_in(runs: &[Run], stamp: Stamp, index: u32, visits: &mut u64) -> usize
    ensures place { result ≡ sought stamp index runs.now }
    ensures within { result ≤ length runs.now }
    ensures visits { visits.new ≡ raised visits.old (min (result + 1) (length runs.now)) }
{
    let _visits = *visits;
    for i in 0..runs.len() {
        if look(runs, i, visits).lasts(stamp, index) {
            return i;
        }
    }
    runs.len()
}

/// The first run that has bytes of an insertion from a number on, or the end of all blocks. The
/// search begins at a block that has no such run before it.
pub(crate) fn find(
    blocks: &[Block],
    start: usize,
    stamp: Stamp,
    index: u32,
    visits: &mut u64,
) -> Spot
    requires within { start ≤ length blocks.now }
    requires none { NoneFrom stamp index (joined (take start (lists blocks.now))) }
    ensures place { before_spot result (lists blocks.now) ≡ sought stamp index (runs_of blocks.now) }
    ensures inside { result.block < length blocks.now → IsIn result 1 (lists blocks.now) }
    ensures from { length (joined (take start (lists blocks.now))) ≤ before_spot result (lists blocks.now) }
    ensures end { length blocks.now ≤ result.block
        → before_spot result (lists blocks.now) ≡ length (runs_of blocks.now) }
    ensures visits { visits.new ≡ raised visits.old
        (min (before_spot result (lists blocks.now) + 1) (length (runs_of blocks.now))
        - length (joined (take start (lists blocks.now)))) }
{
    let _visits = *visits;
    for block in start..blocks.len() {
        let runs = runs_at(blocks, block);
        let place = find_in(runs, stamp, index, visits);
        if place < runs.len() {
            return Spot { block, place };
        }
    }
    Spot {
        block: blocks.len(),
        place: 0,
    }
}

/// The place behind the runs of later edits in one block, from a place on.
fn pass_in(runs: &[Run], from: usize, stamp: Stamp, visits: &mut u64) -> usize
    requires { from ≤ length runs.now }
    ensures place { result ≡ from + passed stamp (drop from runs.now) }
    ensures within { result ≤ length runs.now }
    ensures visits { visits.new ≡ raised visits.old (min (result + 1) (length runs.now) - from) }
{
    let _visits = *visits;
    for i in from..runs.len() {
        if !stamp.is_before(look(runs, i, visits).stamp) {
            return i;
        }
    }
    runs.len()
}

/// The place behind the runs of later edits, from a place on.
pub(crate) fn pass(blocks: &[Block], from: Spot, stamp: Stamp, visits: &mut u64) -> Spot
    requires { IsIn from 0 (lists blocks.now) }
    ensures place { before_spot result (lists blocks.now) ≡ before_spot from (lists blocks.now)
        + passed stamp (drop (before_spot from (lists blocks.now)) (runs_of blocks.now)) }
    ensures within { IsIn result 0 (lists blocks.now) }
    ensures visits { visits.new ≡ raised visits.old
        (min (before_spot result (lists blocks.now) + 1) (length (runs_of blocks.now))
        - before_spot from (lists blocks.now)) }
{
    let _visits = *visits;
    let mut at = from;
    while at.block + 1 < blocks.len() {
        let runs = runs_at(blocks, at.block);
        let place = pass_in(runs, at.place, stamp, visits);
        if place < runs.len() {
            return Spot {
                block: at.block,
                place,
            };
        }
        at = Spot {
            block: at.block + 1,
            place: 0,
        };
    }
    Spot {
        block: at.block,
        place: pass_in(runs_at(blocks, at.block), at.place, stamp, visits),
    }
}
