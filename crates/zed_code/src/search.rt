//! How the run of a byte is found.

ghost use Rattle.std.specs.Prelude.{◌≡◌, ◌<◌, ◌≤◌, ◌+◌, ℕ, true, length, Some, IfOk, IfSome, OnErr};
ghost use Rattle.std.specs.List.{list_any};
ghost use Rattle.zed_code.specs.Blocks.{lists, runs_of, before_spot, IsIn, NoneEmpty};
ghost use Rattle.zed_code.specs.Kept.{AreHints, AllInOrder};
ghost use Rattle.zed_code.specs.Found.{IsFound};
ghost use Rattle.zed_code.specs.Runs.{sought, has as is_in};
ghost use Rattle.zed_code.specs.Visits.{raised};

use crate::block::{Block, Spot, runs_at};
use crate::hints::{keep_hint, start_of};
use crate::place::{find, look};
use std::alloc::AllocError;
use std::collections::BTreeMap;
use zed_types::ElemId;

/// A byte of a text that was looked for, and the place of the first run that has it or later bytes
/// of its insertion.
#[derive(Clone, Copy)]
pub struct Found {
    pub id: ElemId,
    pub at: Spot,
    /// Whether the hints gave an earlier block, so that its own is still to be kept.
    pub is_far: bool,
}

/// What was found, if it is this byte.
pub(crate) fn found_of(found: Option<Found>, id: ElemId) -> Option<Found>
    ensures found { IfSome result (λ last. found ≡ Some last) }
    ensures id { IfSome result (λ last. last.id ≡ id) }
{
    match found {
        Some(last) => { if last.id == id { Some(last) } else { None } }
        None => None,
    }
}

/// Keeps the block of a byte that was found, if the hints gave an earlier one.
fn keep_far(
    blocks: &[Block],
    places: &[usize],
    hints: &mut BTreeMap<ElemId, usize>,
    last: Found,
) -> Result<(), AllocError>
    requires hints { AreHints hints.old.entries places.now (lists blocks.now) }
    requires found { IsFound (Some last) (lists blocks.now) }
    ensures { AreHints hints.new.entries places.now (lists blocks.now) }
{
    if last.is_far {
        keep_hint(hints, places, blocks, last.id, last.at.block)
    } else {
        Ok(())
    }
}

/// The first run that has a byte of an insertion or later ones, or the end of all blocks. It is
/// where it was found before, or the search is by the hints.
pub(crate) fn seek(
    blocks: &[Block],
    places: &[usize],
    hints: &mut BTreeMap<ElemId, usize>,
    found: Option<Found>,
    id: ElemId,
    visits: &mut u64,
) -> Result<Spot, AllocError>
    requires full { NoneEmpty (lists blocks.now) }
    requires hints { AreHints hints.old.entries places.now (lists blocks.now) }
    requires found { IsFound found (lists blocks.now) }
    ensures place { IfOk result (λ at. before_spot at (lists blocks.now)
        ≡ sought id.name.stamp id.name.index (runs_of blocks.now)) }
    ensures inside { IfOk result (λ at. at.block < length blocks.now → IsIn at 1 (lists blocks.now)) }
    ensures end { IfOk result (λ at. length blocks.now ≤ at.block
        → before_spot at (lists blocks.now) ≡ length (runs_of blocks.now)) }
    ensures visits { IfOk result (λ at. (k : ℕ) × (visits.new ≡ raised visits.old k)
        × (k ≤ before_spot at (lists blocks.now) + 1) × (k ≤ length (runs_of blocks.now))
        × (0 < length (runs_of blocks.now) → 0 < k)) }
    ensures hints { AreHints hints.new.entries places.now (lists blocks.now) }
    ensures memory_only_when { OnErr result (sought id.name.stamp id.name.index (runs_of blocks.now)
        < length (runs_of blocks.now)) }
{
    match found_of(found, id) {
        Some(last) => {
            look(runs_at(blocks, last.at.block), last.at.place, visits);
            keep_far(blocks, places, hints, last)?;
            Ok(last.at)
        }
        None => seek_by_hints(blocks, places, hints, id, visits),
    }
}

/// The same by the hints. If the run is after the block that they gave, its own block is kept.
fn seek_by_hints(
    blocks: &[Block],
    places: &[usize],
    hints: &mut BTreeMap<ElemId, usize>,
    id: ElemId,
    visits: &mut u64,
) -> Result<Spot, AllocError>
    requires full { NoneEmpty (lists blocks.now) }
    requires hints { AreHints hints.old.entries places.now (lists blocks.now) }
    ensures place { IfOk result (λ at. before_spot at (lists blocks.now)
        ≡ sought id.name.stamp id.name.index (runs_of blocks.now)) }
    ensures inside { IfOk result (λ at. at.block < length blocks.now → IsIn at 1 (lists blocks.now)) }
    ensures end { IfOk result (λ at. length blocks.now ≤ at.block
        → before_spot at (lists blocks.now) ≡ length (runs_of blocks.now)) }
    ensures visits { IfOk result (λ at. (k : ℕ) × (visits.new ≡ raised visits.old k)
        × (k ≤ before_spot at (lists blocks.now) + 1) × (k ≤ length (runs_of blocks.now))
        × (0 < length (runs_of blocks.now) → 0 < k)) }
    ensures hints { AreHints hints.new.entries places.now (lists blocks.now) }
    ensures memory_only_when { OnErr result (sought id.name.stamp id.name.index (runs_of blocks.now)
        < length (runs_of blocks.now)) }
{
    let start = start_of(hints, places, blocks, id);
    let at = find(blocks, start, id.name.stamp, id.name.index, visits);
    if start < at.block && at.block < blocks.len() {
        keep_hint(hints, places, blocks, id, at.block)?;
    }
    Ok(at)
}

/// The same for whoever only asks: no look at a run is counted, and nothing is kept.
pub(crate) fn find_asked(
    blocks: &[Block],
    places: &[usize],
    hints: &BTreeMap<ElemId, usize>,
    id: ElemId,
) -> Found
    requires { AreHints hints.now.entries places.now (lists blocks.now) }
    ensures id { result.id ≡ id }
    ensures place { before_spot result.at (lists blocks.now)
        ≡ sought id.name.stamp id.name.index (runs_of blocks.now) }
    ensures inside { result.at.block < length blocks.now → IsIn result.at 1 (lists blocks.now) }
    ensures end { length blocks.now ≤ result.at.block
        → before_spot result.at (lists blocks.now) ≡ length (runs_of blocks.now) }
{
    let start = start_of(hints, places, blocks, id);
    let mut looked = 0;
    let at = find(blocks, start, id.name.stamp, id.name.index, &mut looked);
    let is_far = start < at.block;
    Found { id, at, is_far }
}

/// Whether the run that was found has a byte.
fn found_has(blocks: &[Block], found: Option<Found>, id: ElemId) -> bool
    requires { IsFound found (lists blocks.now) }
    ensures { result ≡ true → list_any (is_in id) (runs_of blocks.now) ≡ true }
{
    match found {
        Some(last) => {
            let run = runs_at(blocks, last.at.block)[last.at.place];
            run.has(id)
        }
        None => false,
    }
}

/// Whether some run has a byte: the one that was found, or the one that the hints give.
pub(crate) fn any_has(
    blocks: &[Block],
    places: &[usize],
    hints: &BTreeMap<ElemId, usize>,
    found: Option<Found>,
    id: ElemId,
) -> bool
    requires ordered { AllInOrder (runs_of blocks.now) }
    requires hints { AreHints hints.now.entries places.now (lists blocks.now) }
    requires found { IsFound found (lists blocks.now) }
    ensures { result ≡ list_any (is_in id) (runs_of blocks.now) }
{
    found_has(blocks, found, id) || is_there(blocks, places, hints, id)
}

/// The same by the hints.
fn is_there(blocks: &[Block], places: &[usize], hints: &BTreeMap<ElemId, usize>, id: ElemId) -> bool
    requires ordered { AllInOrder (runs_of blocks.now) }
    requires hints { AreHints hints.now.entries places.now (lists blocks.now) }
    ensures { result ≡ list_any (is_in id) (runs_of blocks.now) }
{
    let at = find_asked(blocks, places, hints, id).at;
    if at.block >= blocks.len() {
        return false;
    }
    let there = runs_at(blocks, at.block)[at.place];
    there.has(id)
}
