//! A block of runs.

ghost use Rattle.std.specs.Prelude.{◌≡◌, ◌∷◌, ◌<◌, ◌≤◌, ◌+◌, List, length, min, drop, vec_len, vec_capacity, OnOk};
ghost use Rattle.std.specs.List.{AllByRecursion};
ghost use Rattle.zed_code.specs.declared.run.Run.{Run as SpecRun};
ghost use Rattle.zed_code.specs.Runs.{put_in as put_into};
ghost use Rattle.zed_code.specs.Kept.{IsSound};
ghost use Rattle.zed_code.specs.Blocks.{lists, list_at, HasRoom};
ghost use Rattle.zed_code.specs.Targets.{cut_bytes, fronts, IsCut};

use crate::run::Run;
use std::alloc::AllocError;

/// Neighbouring runs of a text, and the number under which the place of the block is kept.
#[derive(Drop)]
pub struct Block {
    pub runs: Vec<Run>,
    pub id: usize,
}

/// A place in a text: a block, and a place in it.
#[derive(Clone, Copy)]
pub struct Spot {
    pub block: usize,
    pub place: usize,
}

/// A cut of the run at a place, as it was looked at: behind so many of its bytes.
#[derive(Clone, Copy)]
pub struct Cut {
    pub there: Run,
    pub bytes: u32,
}

/// The runs of the block with a number.
pub(crate) fn runs_at(blocks: &[Block], block: usize) -> &[Run]
    requires { block < length blocks.now }
    ensures { result.now ≡ list_at block (lists blocks.now) }
{
    blocks[block].runs.as_slice()
}

/// Makes room for two more runs.
pub(crate) fn reserve(block: &mut Block) -> Result<(), AllocError>
    ensures kept { block.new.runs.items ≡ block.old.runs.items }
    ensures room { OnOk result (HasRoom block.new) }
{
    block.runs.reserve(2)?;
    Ok(())
}

/// Puts a run at a place, or into the run there, where that is cut. Answers its place.
pub(crate) fn put_in(runs: &mut Vec<Run>, place: usize, cut: Option<Cut>, run: Run) -> usize
    requires each { AllByRecursion IsSound runs.old.items }
    requires place { place + min (cut_bytes cut) 1 ≤ length runs.old.items }
    requires cut { (r : SpecRun) (rs : List SpecRun)
        → drop place runs.old.items ≡ r ∷ rs → cut_bytes cut < r.len }
    requires there { IsCut cut (drop place runs.old.items) }
    requires room { vec_len runs.old + 2 ≤ vec_capacity runs.old }
    ensures runs { runs.new.items ≡ put_into place (cut_bytes cut) run runs.old.items }
    ensures place { result ≡ place + fronts cut }
{
    match cut {
        None => {
            runs.insert(place, run).unwrap();
            place
        }
        Some(cut) => {
            runs[place] = cut.there.front(cut.bytes);
            runs.insert(place + 1, cut.there.back(cut.bytes)).unwrap();
            runs.insert(place + 1, run).unwrap();
            place + 1
        }
    }
}
