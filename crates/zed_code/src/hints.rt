//! Where the runs of an insertion are sought.

ghost use Rattle.std.specs.Prelude.{◌≡◌, ◌<◌, ◌≤◌, length, take, IfSome, OnErr};
ghost use Rattle.zed_code.specs.Blocks.{lists, joined};
ghost use Rattle.zed_code.specs.Halving.{AddsHint, SetsHint};
ghost use Rattle.zed_code.specs.Kept.{NoneFrom, AreHints, IsOne};

use crate::block::Block;
use std::alloc::AllocError;
use std::collections::BTreeMap;
use zed_types::ElemId;

/// A block to search from, by the hints, or the first one. No run before it has the byte, or later
/// bytes of its insertion.
pub(crate) fn start_of(
    hints: &BTreeMap<ElemId, usize>,
    places: &[usize],
    blocks: &[Block],
    id: ElemId,
) -> usize
    requires { AreHints hints.now.entries places.now (lists blocks.now) }
    ensures none { NoneFrom id.name.stamp id.name.index (joined (take result (lists blocks.now))) }
    ensures within { result ≤ length blocks.now }
    ensures some { 0 < length blocks.now → result < length blocks.now }
{
    match nearest(hints, id) {
        Some((near, block)) => {
            let place = places[block];
            if near.name.stamp == id.name.stamp
                && near.name.index <= id.name.index
                && place < blocks.len()
            {
                place
            } else {
                0
            }
        }
        None => 0,
    }
}

/// The last hint up to a byte.
fn nearest(hints: &BTreeMap<ElemId, usize>, id: ElemId) -> Option<(ElemId, usize)>
    ensures { IfSome result (IsOne hints.now.entries) }
{
    match hints.range(..=id).next_back() {
        Some((near, block)) => Some((*near, *block)),
        None => None,
    }
}

/// Keeps a number under the name of a byte.
fn set_hint(
    hints: &mut BTreeMap<ElemId, usize>,
    id: ElemId,
    number: usize,
) -> Result<(), AllocError>
    ensures hints { SetsHint id number hints.old.entries hints.new.entries }
    ensures err { OnErr result (hints.new.entries ≡ hints.old.entries) }
{
    match hints.insert(id, number) {
        Ok(_) => Ok(()),
        Err(_) => Err(AllocError),
    }
}

/// Keeps a block under the name of a byte. Memory is only for a name that had none.
pub(crate) fn keep_hint(
    hints: &mut BTreeMap<ElemId, usize>,
    places: &[usize],
    blocks: &[Block],
    id: ElemId,
    block: usize,
) -> Result<(), AllocError>
    requires { block < length blocks.now }
    ensures hints { AddsHint places.now block id hints.old.entries hints.new.entries }
    ensures err { OnErr result (hints.new.entries ≡ hints.old.entries) }
{
    let number = blocks[block].id;
    if number < places.len() && places[number] <= block {
        set_hint(hints, id, number)
    } else {
        Ok(())
    }
}
