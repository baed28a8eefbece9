//! What an insertion does to the runs of a text.

ghost use Rattle.std.specs.Prelude.{◌≡◌, ◌∷◌, ◌<◌, ◌+◌, ◌-◌, [], ℕ, length, drop, take, set, Some, OnOk, OnErr, IfOk};
ghost use Rattle.std.specs.List.{AllByRecursion};
ghost use Rattle.zed_code.specs.Targets.{IsTarget, cut_bytes, fronts};
ghost use Rattle.zed_code.specs.Blocks.{lists, list_at, runs_of, before_spot, IsIn, NoneEmpty, HasRoom};
ghost use Rattle.zed_code.specs.Halving.{IsSameText};
ghost use Rattle.zed_code.specs.Runs.{put_run, put_at, pass_runs, found, looks_to_put, put_in as put_into};
ghost use Rattle.zed_code.specs.There.{IsThere};
ghost use Rattle.zed_code.specs.Kept.{IsSound, AllInOrder, NoneOf, AreHints};
ghost use Rattle.zed_code.specs.Found.{IsFound, StandsAt};
ghost use Rattle.zed_code.specs.Visits.{raised, LooksAtSome, LooksAtLeast};

use crate::block::{Block, Cut, Spot, put_in, runs_at};
use crate::blocks::{reserve_at, split_full};
use crate::hints::keep_hint;
use crate::place::{look, pass};
use crate::run::Run;
use crate::search::{Found, seek};
use std::alloc::AllocError;
use std::collections::BTreeMap;
use zed_types::ElemId;

/// Where a run goes: to a place, or into the run there, where that is cut.
#[derive(Clone, Copy)]
pub struct Target {
    pub at: Spot,
    pub cut: Option<Cut>,
}

/// Where a run goes that is put at the head, past the runs of later edits.
fn aim_first(blocks: &[Block], run: Run, visits: &mut u64) -> Target
    requires some { 0 < length blocks.now }
    requires full { NoneEmpty (lists blocks.now) }
    requires each { AllByRecursion IsSound (runs_of blocks.now) }
    ensures runs { put_into (before_spot result.at (lists blocks.now)) (cut_bytes result.cut) run (runs_of blocks.now)
        ≡ pass_runs run (runs_of blocks.now) }
    ensures aim { IsTarget result (lists blocks.now) }
    ensures visits { LooksAtSome (length (runs_of blocks.now)) visits.old visits.new }
    ensures looks { LooksAtLeast (looks_to_put None run.stamp (runs_of blocks.now)) visits.old visits.new }
{
    let head = Spot { block: 0, place: 0 };
    let at = pass(blocks, head, run.stamp, visits);
    Target { at, cut: None }
}

/// Where a run goes that is put behind a byte of the run at a place, past the runs of later edits that follow it.
fn aim_behind(blocks: &[Block], a: ElemId, at: Spot, run: Run, visits: &mut u64) -> Target
    requires within { IsIn at 1 (lists blocks.now) }
    requires each { AllByRecursion IsSound (runs_of blocks.now) }
    requires there { IsThere (Some a) (runs_of blocks.now) }
    requires found { before_spot at (lists blocks.now) ≡ found a (runs_of blocks.now) }
    ensures runs { put_into (before_spot result.at (lists blocks.now)) (cut_bytes result.cut) run (runs_of blocks.now)
        ≡ put_at a run (runs_of blocks.now) }
    ensures aim { IsTarget result (lists blocks.now) }
    ensures visits { (k : ℕ) × (visits.new ≡ raised visits.old k)
        × (k + before_spot at (lists blocks.now) < length (runs_of blocks.now) + 1) }
    ensures looks { LooksAtLeast (looks_to_put (Some a) run.stamp (runs_of blocks.now)) visits.old visits.new }
{
    let _visits = *visits;
    let there = look(runs_at(blocks, at.block), at.place, visits);
    let bytes = there.up_to(a);
    if bytes < there.len {
        let cut = Some(Cut { there, bytes });
        return Target { at, cut };
    }
    let behind = Spot {
        block: at.block,
        place: at.place + 1,
    };
    let at = pass(blocks, behind, run.stamp, visits);
    Target { at, cut: None }
}

/// Where a run goes that is put behind the byte named, or at the head, past the runs of later edits.
fn aim(
    blocks: &[Block],
    places: &[usize],
    hints: &mut BTreeMap<ElemId, usize>,
    found: Option<Found>,
    after: Option<ElemId>,
    run: Run,
    visits: &mut u64,
) -> Result<Target, AllocError>
    requires some { 0 < length blocks.now }
    requires full { NoneEmpty (lists blocks.now) }
    requires each { AllByRecursion IsSound (runs_of blocks.now) }
    requires ordered { AllInOrder (runs_of blocks.now) }
    requires there { IsThere after (runs_of blocks.now) }
    requires hints { AreHints hints.old.entries places.now (lists blocks.now) }
    requires found { IsFound found (lists blocks.now) }
    ensures runs { IfOk result (λ aim.
        put_into (before_spot aim.at (lists blocks.now)) (cut_bytes aim.cut) run (runs_of blocks.now)
        ≡ put_run after run (runs_of blocks.now)) }
    ensures aim { IfOk result (λ aim. IsTarget aim (lists blocks.now)) }
    ensures visits { OnOk result
        (LooksAtSome (length (runs_of blocks.now)) visits.old visits.new) }
    ensures looks { OnOk result
        (LooksAtLeast (looks_to_put after run.stamp (runs_of blocks.now)) visits.old visits.new) }
    ensures hints { AreHints hints.new.entries places.now (lists blocks.now) }
{
    match after {
        None => Ok(aim_first(blocks, run, visits)),
        Some(a) => {
            let at = seek(blocks, places, hints, found, a, visits)?;
            Ok(aim_behind(blocks, a, at, run, visits))
        }
    }
}

/// Makes room where a run goes. Answers where it goes then. Memory leaves all runs as they were.
fn make_room(
    blocks: &mut Vec<Block>,
    places: &mut Vec<usize>,
    aim: Target,
) -> Result<Target, AllocError>
    requires { IsTarget aim (lists blocks.old.items) }
    ensures same { IsSameText (lists blocks.old.items) (lists blocks.new.items)
        places.old.items places.new.items }
    ensures aim { IfOk result (λ to. IsTarget to (lists blocks.new.items)) }
    ensures moved { IfOk result (λ to. before_spot to.at (lists blocks.new.items)
        ≡ before_spot aim.at (lists blocks.old.items)) }
    ensures cut { IfOk result (λ to. to.cut ≡ aim.cut) }
    ensures room { IfOk result (λ to.
        AllByRecursion HasRoom (take 1 (drop to.at.block blocks.new.items))) }
{
    let at = split_full(blocks, places, aim.at)?;
    reserve_at(blocks, at.block)?;
    Ok(Target { at, cut: aim.cut })
}

/// Puts a run into its place, and answers that place.
fn put_at_aim(blocks: &mut Vec<Block>, aim: Target, run: Run) -> Spot
    requires aim { IsTarget aim (lists blocks.old.items) }
    requires each { AllByRecursion IsSound (runs_of blocks.old.items) }
    requires room { AllByRecursion HasRoom (take 1 (drop aim.at.block blocks.old.items)) }
    ensures runs { lists blocks.new.items ≡ set (lists blocks.old.items) aim.at.block
        (put_into aim.at.place (cut_bytes aim.cut) run (list_at aim.at.block (lists blocks.old.items))) }
    ensures spot { result
        ≡ record { block = aim.at.block; place = aim.at.place + fronts aim.cut } }
{
    Spot {
        block: aim.at.block,
        place: put_in(&mut blocks[aim.at.block].runs, aim.at.place, aim.cut, run),
    }
}

/// Puts the first run into a text, and answers its place.
fn put_alone(blocks: &mut Vec<Block>, places: &mut Vec<usize>, run: Run) -> Result<Spot, AllocError>
    requires { blocks.old.items ≡ [] }
    ensures ok { OnOk result (lists blocks.new.items ≡ (run ∷ []) ∷ []) }
    ensures spot { IfOk result (λ at. at ≡ record { block = 0; place = 0 }) }
    ensures err { OnErr result (blocks.new.items ≡ []) }
{
    places.reserve(1)?;
    let mut runs = Vec::new(*blocks.allocator());
    runs.push(run)?;
    let id = places.len();
    blocks.push(Block { runs, id })?;
    places.push(0).unwrap();
    Ok(Spot { block: 0, place: 0 })
}

/// Puts a run after the byte named, or at the head, past the runs of later edits. Answers its
/// place. Memory leaves all runs as they were.
pub(crate) fn put(
    blocks: &mut Vec<Block>,
    places: &mut Vec<usize>,
    hints: &mut BTreeMap<ElemId, usize>,
    found: Option<Found>,
    after: Option<ElemId>,
    run: Run,
    visits: &mut u64,
) -> Result<Spot, AllocError>
    requires full { NoneEmpty (lists blocks.old.items) }
    requires each { AllByRecursion IsSound (runs_of blocks.old.items) }
    requires ordered { AllInOrder (runs_of blocks.old.items) }
    requires there { IsThere after (runs_of blocks.old.items) }
    requires new { NoneOf run.stamp (runs_of blocks.old.items) }
    requires hints { AreHints hints.old.entries places.old.items (lists blocks.old.items) }
    requires found { IsFound found (lists blocks.old.items) }
    ensures ok { OnOk result
        (runs_of blocks.new.items ≡ put_run after run (runs_of blocks.old.items)) }
    ensures stands { IfOk result (λ at. StandsAt run at (lists blocks.new.items)) }
    ensures err { OnErr result (runs_of blocks.new.items ≡ runs_of blocks.old.items) }
    ensures full { NoneEmpty (lists blocks.new.items) }
    ensures hints { AreHints hints.new.entries places.new.items (lists blocks.new.items) }
    ensures visits { OnOk result
        (LooksAtSome (length (runs_of blocks.old.items)) visits.old visits.new) }
    ensures looks { OnOk result
        (LooksAtLeast (looks_to_put after run.stamp (runs_of blocks.old.items)) visits.old visits.new) }
{
    let _visits = *visits;
    if blocks.is_empty() {
        let at = put_alone(blocks, places, run)?;
        return Ok(at);
    }
    let wanted = aim(blocks, places, hints, found, after, run, visits)?;
    let to = make_room(blocks, places, wanted)?;
    let first = ElemId::new(run.stamp, 0);
    keep_hint(hints, places, blocks, first, to.at.block)?;
    Ok(put_at_aim(blocks, to, run))
}
