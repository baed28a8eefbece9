//! How blocks are halved, and given room.

ghost use Rattle.std.specs.Prelude.{◌≡◌, ◌∷◌, [], ◌<◌, ◌≤◌, ◌+◌, ◌^◌, ◌++◌, vec_len, vec_capacity, length, map, take, drop, OnOk, OnErr, IfOk};
ghost use Rattle.std.specs.List.{AllByRecursion};
ghost use Rattle.zed_code.specs.Blocks.{lists, list_at, IsIn, HasRoom};
ghost use Rattle.zed_code.specs.Halving.{IsSameText, IsMoved, spot_behind};
ghost use Rattle.zed_code.specs.Kept.{moved};

use crate::block::{Block, Spot, reserve, runs_at};
use std::alloc::AllocError;

/// How many runs a block has at most before it is halved.
const MOST: usize = 64;

/// Moves a place by one if it is behind a block.
fn move_place(place: &mut usize, block: usize)
    ensures { place.new ≡ moved block place.old }
{
    if *place > block {
        *place = place.saturating_add(1);
    }
}

/// Moves the places behind a block by one.
fn move_places(places: &mut [usize], block: usize)
    ensures { places.new ≡ map (moved block) places.old }
{
    for place in places.iter_mut() {
        move_place(place, block);
    }
}

/// Moves the places behind a block by one, and adds the place behind it. The room for it is there.
fn add_place(places: &mut Vec<usize>, block: usize)
    requires room { vec_len places.old < vec_capacity places.old }
    requires block { block + 1 < 2 ^ 64 }
    ensures { places.new.items ≡ map (moved block) places.old.items ++ (block + 1) ∷ [] }
{
    move_places(places, block);
    places.push(block + 1).unwrap();
}

/// Takes the second half of a block as a block of its own. Memory leaves it whole.
fn halve(block: &mut Block, id: usize) -> Result<Block, AllocError>
    requires { 2 ≤ length block.old.runs.items }
    ensures ok { IfOk result (λ b. block.old.runs.items ≡ block.new.runs.items ++ b.runs.items) }
    ensures front { OnOk result (0 < length block.new.runs.items) }
    ensures back { IfOk result (λ b. 0 < length b.runs.items) }
    ensures err { OnErr result (block.new.runs.items ≡ block.old.runs.items) }
{
    let half = block.runs.len() / 2;
    let alloc = *block.runs.allocator();
    let runs = Vec::from_slice(alloc, &block.runs[half..])?;
    block.runs.truncate(half);
    Ok(Block { runs, id })
}

/// Where a place of a block is once so many of its runs are left in it, and the others follow in one of their own.
fn halved_spot(at: Spot, half: usize) -> Spot
    requires { at.block + 1 < 2 ^ 64 }
    ensures { result ≡ spot_behind half at }
{
    if at.place < half {
        return at;
    }
    Spot {
        block: at.block + 1,
        place: at.place - half,
    }
}

/// Halves a block. Answers where a place of it is then. Memory leaves all as it was.
fn split(blocks: &mut Vec<Block>, places: &mut Vec<usize>, at: Spot) -> Result<Spot, AllocError>
    requires within { IsIn at 0 (lists blocks.old.items) }
    requires long { 2 ≤ length (list_at at.block (lists blocks.old.items)) }
    ensures same { IsSameText (lists blocks.old.items) (lists blocks.new.items)
        places.old.items places.new.items }
    ensures ok { IfOk result (λ to.
        IsMoved (lists blocks.old.items) (lists blocks.new.items) at to) }
{
    places.reserve(1)?;
    blocks.reserve(1)?;
    let behind = halve(&mut blocks[at.block], places.len())?;
    let half = runs_at(blocks, at.block).len();
    blocks.insert(at.block + 1, behind).unwrap();
    add_place(places, at.block);
    Ok(halved_spot(at, half))
}

/// Halves the block of a place if it is full. Answers where the place is then. Memory leaves all as it was.
pub(crate) fn split_full(
    blocks: &mut Vec<Block>,
    places: &mut Vec<usize>,
    at: Spot,
) -> Result<Spot, AllocError>
    requires within { IsIn at 0 (lists blocks.old.items) }
    ensures same { IsSameText (lists blocks.old.items) (lists blocks.new.items)
        places.old.items places.new.items }
    ensures ok { IfOk result (λ to.
        IsMoved (lists blocks.old.items) (lists blocks.new.items) at to) }
{
    let len = runs_at(blocks, at.block).len();
    if len < MOST {
        return Ok(at);
    }
    split(blocks, places, at)
}

/// Makes room for two more runs in a block.
pub(crate) fn reserve_at(blocks: &mut Vec<Block>, block: usize) -> Result<(), AllocError>
    requires { block < length blocks.old.items }
    ensures kept { lists blocks.new.items ≡ lists blocks.old.items }
    ensures room { OnOk result (AllByRecursion HasRoom (take 1 (drop block blocks.new.items))) }
{
    reserve(&mut blocks[block])
}

/// Makes room for two more runs in each block from one on.
pub(crate) fn reserve_from(blocks: &mut Vec<Block>, first: usize) -> Result<(), AllocError>
    requires { first ≤ length blocks.old.items }
    ensures kept { lists blocks.new.items ≡ lists blocks.old.items }
    ensures room { OnOk result (AllByRecursion HasRoom (drop first blocks.new.items)) }
{
    for i in first..blocks.len() {
        reserve(&mut blocks[i])?;
    }
    Ok(())
}
